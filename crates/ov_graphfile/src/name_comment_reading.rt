//! What a comment says of a node, and what it says together with the line behind it.
ghost use Rattle.std.specs.Prelude.{◌≡◌, ℕ, List, [], ◌∷◌, option_map, IfSome, IfNone, MatchOption};
ghost use Rattle.std.specs.Option.{option_copied};
ghost use Rattle.ov_graphfile.specs.GraphFiles.{graph_line, node_said};
ghost use Rattle.ov_graphfile.specs.NameLines.{comment_said, IsNamedBy};
ghost use Rattle.ov_graphfile.specs.Code.Told.{name_by};

use ov_ids::NodeId;
use ov_lines::{ID, Kind, LineCursor, is_word};

/// The id of a node.
const NODE_ID: &[Kind] = &[ID];

/// The name that a line right before the line of this node gives it, if it is a comment that does.
pub(crate) fn name_by(before: &[u8], node: NodeId) -> Option<&[u8]>
    ensures { option_copied result ≡ name_by before.now node }
{
    let Some((id, name)) = comment_said(before) else {
        return None;
    };
    if id == node { Some(name) } else { None }
}

/// The node that a comment and the line behind it name, and its name.
pub(crate) fn name_said<'a>(comment: &'a [u8], line: &[u8]) -> Option<(NodeId, &'a [u8])>
    ensures some { IfSome result (λ said. IsNamedBy comment.now line.now said.0 said.1.now) }
    ensures none { IfNone result ((n : ℕ) (name : List ℕ) → ¬ IsNamedBy comment.now line.now n name) }
{
    let Some((id, name)) = comment_said(comment) else {
        return None;
    };
    match node_said(line) {
        Some(node) if node == id => Some((id, name)),
        _ => None,
    }
}

/// What a comment `# N NAME` says.
fn comment_said(comment: &[u8]) -> Option<(NodeId, &[u8])>
    ensures { option_map (λ said. (said.0, said.1.now)) result ≡ comment_said comment.now }
{
    let mut cursor = LineCursor::new(comment);
    let mark = cursor.word()?;
    if !is_word(mark, b"#") {
        return None;
    }
    let Ok(number) = cursor.short_number(NODE_ID) else {
        return None;
    };
    let name = cursor.after_space();
    if name.is_empty() {
        return None;
    }
    Some((NodeId::new(number), name))
}

/// The node that a line `node N` says.
fn node_said(line: &[u8]) -> Option<NodeId>
    ensures { MatchOption result (node_said (graph_line line.now) ≡ [])
        (λ n. node_said (graph_line line.now) ≡ n ∷ []) }
{
    let mut cursor = LineCursor::new(line);
    let name = cursor.word()?;
    if !is_word(name, b"node") {
        return None;
    }
    match cursor.last_short_number(NODE_ID) {
        Ok(number) => Some(NodeId::new(number)),
        Err(_) => None,
    }
}
