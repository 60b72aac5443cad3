ghost use Rattle.std.specs.Prelude.{◌≡◌, ◌↔◌, ◌<◌, IsTrue, IfSome, IfNone, length, slice_index};
ghost use Rattle.std.specs.List.{list_all};
ghost use Rattle.ov_ids.specs.Members.{Has, Ascends};
ghost use Rattle.ov_ids.specs.Sets.{has, count_below};

use ov_ids::NodeId;

/// The place of a node in ascending nodes. It is looked for first where it stands if the ids have no gaps, and then by
/// binary search.
pub(crate) fn place_of(nodes: &[NodeId], a: NodeId) -> Option<usize>
    requires { Ascends nodes.now }
    ensures some { IfSome result (λ p. (p < length nodes.now) × (slice_index nodes.now p ≡ a)) }
    ensures none { IfNone result (¬ Has nodes.now a) }
{
    if let Some(first) = nodes.first() {
        let guess = a.number().wrapping_sub(first.number()) as usize;
        if guess < nodes.len() && nodes[guess] == a {
            return Some(guess);
        }
    }
    nodes.binary_search(&a).ok()
}

/// The place of one of the nodes, which ascend, by binary search.
pub(crate) fn place_in(nodes: &[NodeId], a: NodeId) -> usize
    requires ascend { Ascends nodes.now }
    requires node { Has nodes.now a }
    ensures below { result < length nodes.now }
    ensures there { slice_index nodes.now result ≡ a }
{
    match place_of(nodes, a) {
        Some(p) => p,
        None => unreachable!(),
    }
}

/// How many nodes are below `a`, by binary search.
pub(crate) fn place_for(nodes: &[NodeId], a: NodeId) -> usize
    requires { Ascends nodes.now }
    ensures { result ≡ count_below a nodes.now }
{
    match nodes.binary_search(&a) {
        Ok(p) => p,
        Err(p) => p,
    }
}

/// Whether an id is in a list of ascending ids, by binary search.
pub fn is_member(ids: &[NodeId], id: NodeId) -> bool
    requires { Ascends ids.now }
    ensures member { IsTrue result ↔ Has ids.now id }
    ensures test { result ≡ has ids.now id }
{
    place_of(ids, id).is_some()
}

/// Whether all of these are nodes.
pub(crate) fn are_nodes(nodes: &[NodeId], ids: &[NodeId]) -> bool
    requires { Ascends nodes.now }
    ensures { result ≡ list_all (has nodes.now) ids.now }
{
    for id in ids {
        if !is_member(nodes, *id) {
            return false;
        }
    }
    true
}
