ghost use Rattle.std.specs.Prelude.{◌≡◌, ℕ, length, map, slice_index_or, None, IfOk};
ghost use Rattle.std.specs.Option.{option_copied};
ghost use Rattle.ov_graphfile.specs.NameLines.{AreNamesOf};
ghost use Rattle.ov_graphfile.specs.Code.Table.{Keeps, TakesLine};

use crate::name_comment_reading::name_said;
use crate::name_table::Names;
use ov_graph::Graph;
use ov_ids::{NodeId, OutOfMemory};
use ov_lines::split_line;
use std::alloc::{AllocError, Global};

/// The names that a graph file keeps of the nodes of a graph: a comment `# N NAME` right before the line `node N` names
/// the node N. No file is refused; other comments say no names. If a file names one node twice, it has one of these
/// names. (The form is chosen here.) OutOfMemory (99) if an allocation is refused.
pub fn read_names<'a>(
    alloc: Global,
    graph: &'a Graph,
    bytes: &'a [u8],
) -> Result<Names<'a>, OutOfMemory>
    ensures { IfOk result (AreNamesOf bytes.now graph.now) }
{
    let mut told = no_names(alloc, graph.nodes().len())?;
    let mut comment: &[u8] = &[];
    let mut left = bytes;
    while !left.is_empty() {
        let (line, later) = split_line(left);
        take_line(graph, &mut told, comment, line);
        comment = line;
        left = later;
    }
    Ok(Names::new(graph, told))
}

/// A table of this many places without a name.
fn no_names<'a>(alloc: Global, places: usize) -> Result<Vec<Option<&'a [u8]>>, AllocError>
    ensures size { IfOk result (λ told. length told.items ≡ places) }
    ensures none { IfOk result (λ told. (p : ℕ)
        → slice_index_or (map (λ t. option_copied t) told.items) p None ≡ None) }
{
    let mut told = Vec::with_capacity(alloc, places)?;
    for place in 0..places {
        told.push(None)?;
    }
    Ok(told)
}

/// Writes the name that a comment and the line behind it say to its place, if they say one.
fn take_line<'a>(graph: &Graph, told: &mut Vec<Option<&'a [u8]>>, comment: &'a [u8], line: &[u8])
    requires { length told.old.items ≡ length graph.now.nodes }
    ensures size { length told.new.items ≡ length told.old.items }
    ensures taken { TakesLine graph.now comment.now line.now (map (λ t. option_copied t) told.old.items)
        (map (λ t. option_copied t) told.new.items) }
{
    if let Some(said) = name_said(comment, line) {
        keep(graph, told, said.0, said.1);
    }
}

/// Writes the name of a node to its place, if the id is a node.
fn keep<'a>(graph: &Graph, told: &mut Vec<Option<&'a [u8]>>, id: NodeId, name: &'a [u8])
    requires { length told.old.items ≡ length graph.now.nodes }
    ensures size { length told.new.items ≡ length told.old.items }
    ensures keeps { Keeps graph.now id name.now (map (λ t. option_copied t) told.old.items)
        (map (λ t. option_copied t) told.new.items) }
{
    if let Some(place) = graph.place(id) {
        told[place] = Some(name);
    }
}
