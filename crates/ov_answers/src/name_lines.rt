//! The lines that name the nodes of an answer.
ghost use Rattle.std.specs.Prelude.{◌≡◌, ◌++◌, ◌∷◌, [], decimal, OnOk};
ghost use Rattle.ov_cert.specs.declared.cert.Cert.{Cert};
ghost use Rattle.ov_answers.specs.Lines.{IsNodeLine, AreNodeLines, AreNameLines};
ghost use Rattle.ov_answers.specs.Code.Begun.{Gains};

use crate::component_texts::write_components;
use itoa::Buffer;
use ov_cert::{Cert, Split};
use ov_components::components_without;
use ov_graph::Graph;
use ov_graphfile::Names;
use ov_ids::{NodeId, OutOfMemory};
use std::alloc::{AllocError, Global};

/// Appends the lines that name the nodes of an answer: those of the cut, near and far, and the components that the
/// crash of the cut leaves.
pub(crate) fn write_lines(
    alloc: Global,
    text: &mut Vec<u8>,
    cert: &Cert,
    graph: &Graph,
    names: &Names<'_>,
) -> Result<(), OutOfMemory>
    ensures { OnOk result (Gains (AreNameLines graph.now cert.now names.now) text.old.items text.new.items) }
{
    match cert {
        Cert::Linked { .. } => Ok(()),
        Cert::Split(split) => write_split(alloc, text, split, graph, names),
    }
}

/// Appends the lines of a split.
fn write_split(
    alloc: Global,
    text: &mut Vec<u8>,
    split: &Split,
    graph: &Graph,
    names: &Names<'_>,
) -> Result<(), OutOfMemory>
    ensures { OnOk result
        (Gains (AreNameLines graph.now (Cert.Split split.now) names.now) text.old.items text.new.items) }
{
    let cut = split.cut.as_slice();
    let components = components_without(alloc, graph, cut)?;
    write_nodes(text, b"cut ", cut, names)?;
    write_node(text, b"near ", split.near, names)?;
    write_node(text, b"far ", split.far, names)?;
    write_components(alloc, text, &components, names)?;
    Ok(())
}

/// Appends a line that says a node, for each of these nodes.
pub(crate) fn write_nodes(
    text: &mut Vec<u8>,
    words: &[u8],
    ids: &[NodeId],
    names: &Names<'_>,
) -> Result<(), AllocError>
    ensures { OnOk result (Gains (AreNodeLines words.now names.now ids.now) text.old.items text.new.items) }
{
    for id in ids {
        write_node(text, words, *id, names)?;
    }
    Ok(())
}

/// Appends a line that says a node: these words, its id, and its name if it has one.
pub(crate) fn write_node(
    text: &mut Vec<u8>,
    words: &[u8],
    id: NodeId,
    names: &Names<'_>,
) -> Result<(), AllocError>
    ensures { OnOk result (Gains (IsNodeLine words.now names.now id) text.old.items text.new.items) }
{
    let Some(name) = names.name(id) else {
        write_bare(text, words, id)?;
        return Ok(());
    };
    write_named(text, words, id, name)?;
    Ok(())
}

/// Appends a line that says a node with its name.
fn write_named(text: &mut Vec<u8>, words: &[u8], id: NodeId, name: &[u8]) -> Result<(), AllocError>
    ensures { OnOk result (text.new.items
        ≡ text.old.items ++ (words.now ++ (decimal id ++ 32 ∷ (name.now ++ 10 ∷ [])))) }
{
    text.extend_from_slice(words)?;
    let mut digits = Buffer::new();
    text.extend_from_slice(digits.format(id.0).as_bytes())?;
    text.push(b' ')?;
    text.extend_from_slice(name)?;
    text.push(b'\n')?;
    Ok(())
}

/// Appends a line that says a node without a name.
fn write_bare(text: &mut Vec<u8>, words: &[u8], id: NodeId) -> Result<(), AllocError>
    ensures { OnOk result (text.new.items ≡ text.old.items ++ (words.now ++ (decimal id ++ 10 ∷ []))) }
{
    text.extend_from_slice(words)?;
    let mut digits = Buffer::new();
    text.extend_from_slice(digits.format(id.0).as_bytes())?;
    text.push(b'\n')?;
    Ok(())
}
