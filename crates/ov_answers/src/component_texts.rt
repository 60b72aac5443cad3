//! The lines that tell the components which a crash leaves.
ghost use Rattle.std.specs.Prelude.{◌≡◌, ◌++◌, [], codes, decimal, slice_index_or, IfOk, OnOk};
ghost use Rattle.ov_answers.specs.Code.Begun.{Gains};
ghost use Rattle.ov_answers.specs.Lines.{sizes_text, IsFirstLargest, AreAllMemberLines, AreComponentLines};

use crate::name_lines::write_nodes;
use itoa::Buffer;
use ov_components::Components;
use ov_graphfile::Names;
use ov_ids::NodeId;
use std::alloc::{AllocError, Global};

/// Appends how many components there are and how large they are, in their order, and a line for each member of all
/// components but the first of the largest ones. Components count from 1.
pub(crate) fn write_components(
    alloc: Global,
    text: &mut Vec<u8>,
    components: &Components,
    names: &Names<'_>,
) -> Result<(), AllocError>
    ensures { OnOk result (Gains (AreComponentLines names.now components.now) text.old.items text.new.items) }
{
    write_count(text, b"pieces ", components.len())?;
    text.extend_from_slice(b" sizes ")?;
    write_sizes(text, components)?;
    text.push(b'\n')?;
    let largest = first_largest(components);
    write_members(alloc, text, components, largest, names)?;
    Ok(())
}

/// Appends how large the components are, with commas between two.
fn write_sizes(text: &mut Vec<u8>, components: &Components) -> Result<(), AllocError>
    ensures { OnOk result (text.new.items ≡ text.old.items ++ sizes_text components.now) }
{
    for place in 0..components.len() {
        if place > 0 {
            text.push(b',')?;
        }
        write_count(text, b"", component_at(components, place).len())?;
    }
    Ok(())
}

/// Appends words and a number.
fn write_count(text: &mut Vec<u8>, words: &[u8], count: usize) -> Result<(), AllocError>
    ensures { OnOk result (text.new.items ≡ text.old.items ++ (words.now ++ decimal count)) }
{
    text.extend_from_slice(words)?;
    let mut digits = Buffer::new();
    text.extend_from_slice(digits.format(count).as_bytes())?;
    Ok(())
}

/// Appends a line `piece K N NAME` for each member of all components but the one at the place that is left out.
fn write_members(
    alloc: Global,
    text: &mut Vec<u8>,
    components: &Components,
    left_out: usize,
    names: &Names<'_>,
) -> Result<(), AllocError>
    ensures { OnOk result
        (Gains (AreAllMemberLines left_out names.now 0 components.now) text.old.items text.new.items) }
{
    for place in 0..components.len() {
        if place == left_out {
            continue;
        }
        let words = words_before(alloc, place + 1)?;
        write_nodes(text, &words, component_at(components, place), names)?;
    }
    Ok(())
}

/// The words before a member of the component with this number.
fn words_before(alloc: Global, number: usize) -> Result<Vec<u8>, AllocError>
    ensures { IfOk result (λ words. words.items ≡ codes "piece " ++ (decimal number ++ codes " ")) }
{
    let mut words = Vec::new(alloc);
    write_count(&mut words, b"piece ", number)?;
    words.push(b' ')?;
    Ok(words)
}

/// The place of the first of the largest components, or 0 if there are none.
fn first_largest(components: &Components) -> usize
    ensures { IsFirstLargest components.now result }
{
    let mut largest = 0;
    for place in 0..components.len() {
        if component_at(components, place).len() > component_at(components, largest).len() {
            largest = place;
        }
    }
    largest
}

#[tactic(auto, using(crate::proofs::Componentwise::component_there, crate::proofs::Componentwise::no_component))]
/// The component at a place, or no nodes behind the last one.
pub(crate) fn component_at(components: &Components, place: usize) -> &[NodeId]
    ensures { result.now ≡ slice_index_or components.now place [] }
{
    match components.get(place) {
        Some(component) => component,
        None => &[],
    }
}
