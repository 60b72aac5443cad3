ghost use Rattle.std.specs.Prelude.{◌≡◌, option_map};
ghost use Rattle.std.specs.Result.{result_ok};
ghost use Rattle.ov_graphfile.specs.GraphFiles.{graph_line, link_of, is_of_kind};
ghost use Rattle.ov_lines.specs.Lines.{words_of, two};

use ov_ids::NodeId;
use ov_lines::{ID, Kind, LineCursor, Unread, is_word};

/// The names of the lines of a graph file.
pub const LINE_NAMES: [&str; 2] = ["node", "link"];

/// The id of a node.
const NODE_ID: &[Kind] = &[ID];

/// What one line of a graph file says.
#[derive(Clone, Copy)]
pub(crate) enum GraphLine {
    /// There is a node with this id.
    Node(NodeId),
    /// These two nodes are linked, in the order in which they are written.
    Link(NodeId, NodeId),
}

/// The kinds of lines of a graph file.
#[derive(Clone, Copy)]
pub(crate) enum LineKind {
    Node,
    Link,
}

/// Reads what a line says. `Unread` says where it can't be read, and what may be there.
pub(crate) fn read_graph_line(text: &[u8]) -> Result<GraphLine, Unread>
    ensures { result_ok result ≡ graph_line text.now }
{
    let mut cursor = LineCursor::new(text);
    let Some(name) = cursor.word() else {
        return Err(unread_name(text));
    };
    if is_word(name, b"node") {
        let node = cursor.last_short_number(NODE_ID)?;
        return Ok(GraphLine::Node(NodeId::new(node)));
    }
    if is_word(name, b"link") {
        return read_link(&mut cursor);
    }
    Err(unread_name(text))
}

/// A line whose first word is not its name.
fn unread_name(text: &[u8]) -> Unread {
    LineCursor::new(text).unread(&[Kind::LineName])
}

fn read_link(cursor: &mut LineCursor) -> Result<GraphLine, Unread>
    ensures { result_ok result ≡ option_map link_of (two (words_of cursor.old)) }
{
    let from = cursor.short_number(NODE_ID)?;
    let to = cursor.last_short_number(NODE_ID)?;
    Ok(GraphLine::Link(NodeId::new(from), NodeId::new(to)))
}

/// Whether a line can be read and is of this kind.
pub(crate) fn is_of_kind(text: &[u8], kind: LineKind) -> bool
    ensures { result ≡ is_of_kind kind (graph_line text.now) }
{
    match (read_graph_line(text), kind) {
        (Ok(GraphLine::Node(_)), LineKind::Node) => true,
        (Ok(GraphLine::Link(_, _)), LineKind::Link) => true,
        _ => false,
    }
}
