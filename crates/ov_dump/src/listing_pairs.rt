ghost use Rattle.std.specs.Prelude.{◌≡◌, ◌≢◌, ◌↔◌, ◌⊎◌, ◌∷◌, [], ℕ, IfOk, OnOk};
ghost use Rattle.ov_dump.specs.Code.Numbering.{AreUpward, Follows, GainsPair, IsNumbering, NodeLists};

use crate::dump_and_graph_types::Listing;
use crate::node_numbering::{Numbering, node_of};
use ov_ids::{NodeId, OutOfMemory};
use std::alloc::Global;

/// Which nodes list which, as pairs of which the first node is the lower one: `up` has those whose lower node lists the
/// higher one, and `down` those whose higher node lists the lower one. A pair is there as often as it is listed.
#[derive(Drop)]
pub(crate) struct ListingPairs {
    pub(crate) up: Vec<(NodeId, NodeId)>,
    pub(crate) down: Vec<(NodeId, NodeId)>,
}

/// Who lists whom, by nodes. Listings of names that are no names of nodes, and of a name by itself, are passed over.
pub(crate) fn listing_pairs(
    alloc: Global,
    numbering: &Numbering,
    listings: &[Listing],
) -> Result<ListingPairs, OutOfMemory>
    requires numbering { IsNumbering numbering.now }
    ensures up { IfOk result (λ p. AreUpward numbering.now.names.items p.up.items) }
    ensures down { IfOk result (λ p. AreUpward numbering.now.names.items p.down.items) }
    ensures lists { IfOk result (λ p. (i j : ℕ) → i ≢ j
        → (Follows p.up.items p.down.items i j ↔ NodeLists numbering.now.names.items listings.now i j)) }
{
    let mut up = Vec::new(alloc);
    let mut down = Vec::new(alloc);
    for listing in listings {
        add_listing(&mut up, &mut down, numbering, listing)?;
    }
    Ok(ListingPairs { up, down })
}

fn add_listing(
    up: &mut Vec<(NodeId, NodeId)>,
    down: &mut Vec<(NodeId, NodeId)>,
    numbering: &Numbering,
    listing: &Listing,
) -> Result<(), OutOfMemory>
    requires numbering { IsNumbering numbering.now }
    requires up { AreUpward numbering.now.names.items up.old.items }
    requires down { AreUpward numbering.now.names.items down.old.items }
    ensures up { OnOk result (AreUpward numbering.now.names.items up.new.items) }
    ensures down { OnOk result (AreUpward numbering.now.names.items down.new.items) }
    ensures lists { OnOk result ((i j : ℕ) → i ≢ j → (Follows up.new.items down.new.items i j
        ↔ (NodeLists numbering.now.names.items (listing.now ∷ []) i j
        ⊎ Follows up.old.items down.old.items i j))) }
{
    let Some(from) = node_of(numbering, &listing.from) else {
        return Ok(());
    };
    let Some(to) = node_of(numbering, &listing.to) else {
        return Ok(());
    };
    if from == to {
        return Ok(());
    }
    add_following(up, down, from, to)?;
    Ok(())
}

/// From now on one node lists the other.
fn add_following(
    up: &mut Vec<(NodeId, NodeId)>,
    down: &mut Vec<(NodeId, NodeId)>,
    from: NodeId,
    to: NodeId,
) -> Result<(), OutOfMemory>
    requires differ { from ≢ to }
    ensures up { OnOk result (GainsPair from to up.old.items up.new.items) }
    ensures down { OnOk result (GainsPair from to down.old.items down.new.items) }
    ensures follows { OnOk result ((i j : ℕ) → Follows up.new.items down.new.items i j
        ↔ (((i ≡ from) × (j ≡ to)) ⊎ Follows up.old.items down.old.items i j)) }
{
    if from < to {
        up.push((from, to))?;
    } else {
        down.push((to, from))?;
    }
    Ok(())
}
