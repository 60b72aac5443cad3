ghost use Rattle.std.specs.Prelude.{◌≡◌, ◌↔◌, ◌⊎◌, ℕ, true, false, IfOk, IsTrue};
ghost use Rattle.ov_ids.specs.Members.{Has, Ordered};
ghost use Rattle.ov_graph.specs.Links.{Precedes};

use crate::listing_pairs::ListingPairs;
use ov_ids::{NodeId, OutOfMemory};
use std::alloc::Global;

/// The pairs of nodes of which one lists the other, or, if that is not enough, each lists the other: ascending, each
/// once.
pub(crate) fn links_of(
    alloc: Global,
    pairs: ListingPairs,
    either: bool,
) -> Result<Vec<(NodeId, NodeId)>, OutOfMemory>
    ensures ascend { IfOk result (λ links. Ordered Precedes links.items) }
    ensures either { IfOk result (λ links. either ≡ true
        → (l : ℕ × ℕ) → Has links.items l ↔ (Has pairs.up.items l ⊎ Has pairs.down.items l)) }
    ensures both { IfOk result (λ links. either ≡ false
        → (l : ℕ × ℕ) → Has links.items l ↔ (Has pairs.up.items l × Has pairs.down.items l)) }
{
    let ListingPairs { mut up, down } = pairs;
    if either {
        up.extend_from_slice(&down)?;
        return Ok(ascending(up));
    }
    shared(alloc, &ascending(up), &ascending(down))
}

/// The pairs of both lists, which ascend.
fn shared(
    alloc: Global,
    up: &[(NodeId, NodeId)],
    down: &[(NodeId, NodeId)],
) -> Result<Vec<(NodeId, NodeId)>, OutOfMemory>
    requires up { Ordered Precedes up.now }
    requires down { Ordered Precedes down.now }
    ensures ascend { IfOk result (λ pairs. Ordered Precedes pairs.items) }
    ensures each { IfOk result (λ pairs. (l : ℕ × ℕ) → Has pairs.items l ↔ (Has up.now l × Has down.now l)) }
{
    let mut both = Vec::new(alloc);
    for pair in up {
        if !is_among(down, *pair) {
            continue;
        }
        both.push(*pair)?;
    }
    Ok(both)
}

/// Whether a pair is among these, which ascend.
fn is_among(pairs: &[(NodeId, NodeId)], pair: (NodeId, NodeId)) -> bool
    requires { Ordered Precedes pairs.now }
    ensures { IsTrue result ↔ Has pairs.now pair }
{
    match pairs.binary_search(&pair) {
        Ok(_) => true,
        Err(_) => false,
    }
}

/// These pairs, ascending, each once.
fn ascending(mut pairs: Vec<(NodeId, NodeId)>) -> Vec<(NodeId, NodeId)>
    ensures ascend { Ordered Precedes result.items }
    ensures each { (l : ℕ × ℕ) → Has result.items l ↔ Has pairs.items l }
{
    pairs.sort_unstable();
    pairs.dedup();
    pairs
}
