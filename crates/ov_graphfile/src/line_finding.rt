ghost use Rattle.std.specs.Prelude.{◌≡◌, slice_get};
ghost use Rattle.ov_graphfile.specs.GraphFiles.{graph_lines, lines_where, is_of_kind, node_lines, link_lines};
ghost use Rattle.ov_graphfile.specs.GraphFiles.{line_at_fault};

use crate::graph_line::{LineKind, is_of_kind};
use ov_graph::GraphFault;
use ov_lines::KeptLines;

/// The number of the line of a graph file that says the node at this place, if there is one. Places count from 0, and
/// lines from 1.
pub fn line_of_node(bytes: &[u8], at: usize) -> Option<usize>
    ensures { result ≡ slice_get (node_lines bytes.now) at }
{
    nth_line(bytes, LineKind::Node, at)
}

/// The number of the line of a graph file that says the link at this place, if there is one. Places count from 0, and
/// lines from 1.
pub fn line_of_link(bytes: &[u8], at: usize) -> Option<usize>
    ensures { result ≡ slice_get (link_lines bytes.now) at }
{
    nth_line(bytes, LineKind::Link, at)
}

/// The number of the line of the node or link that a fault names.
pub(crate) fn line_at_fault(bytes: &[u8], fault: &GraphFault) -> Option<usize>
    ensures { result ≡ line_at_fault bytes.now fault.now }
{
    match fault {
        GraphFault::TooManyNodes { most, .. } => line_of_node(bytes, *most),
        GraphFault::UnorderedNode { at, .. } => line_of_node(bytes, *at),
        GraphFault::BadLink { at, .. } | GraphFault::UnorderedLink { at, .. } => line_of_link(
            bytes, *at,
        ),
        GraphFault::OutOfMemory => None,
    }
}

/// The number of the line of this kind that follows `at` others of this kind.
fn nth_line(bytes: &[u8], kind: LineKind, at: usize) -> Option<usize>
    ensures { result ≡ slice_get (lines_where (is_of_kind kind) (graph_lines bytes.now)) at }
{
    let mut before = at;
    let mut lines = KeptLines::new(bytes);
    while let Some(line) = lines.next_line() {
        if is_of_kind(line.text, kind) {
            if before == 0 {
                return Some(line.number);
            }
            before -= 1;
        }
    }
    None
}
