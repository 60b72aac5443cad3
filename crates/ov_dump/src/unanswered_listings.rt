ghost use Rattle.std.specs.Prelude.{◌↔◌, ℕ, List, IfOk};
ghost use Rattle.ov_ids.specs.Members.{Has};
ghost use Rattle.ov_dump.specs.Dumps.{ends_of};
ghost use Rattle.ov_dump.specs.Code.Listed.{AreUnanswered};

use crate::dump_and_graph_types::{Dump, Listing};
use crate::pair_set::PairSet;
use ov_ids::OutOfMemory;
use std::alloc::Global;

/// The places of the listings that the name at the other end does not answer, counted from 0 among all listings of the
/// dump. Each pair of names is there once, at its first place. OutOfMemory (99) is returned if an allocation was
/// refused.
pub(crate) fn listed_by_one(alloc: Global, dump: &Dump) -> Result<Vec<usize>, OutOfMemory>
    ensures { IfOk result (λ places. AreUnanswered dump.now places.items) }
{
    let listings = dump.listings.as_slice();
    let said = pairs_of(alloc, listings)?;
    let mut told = PairSet::new(alloc);
    let mut places = Vec::new(alloc);
    for (place, listing) in listings.iter().enumerate() {
        if said.contains(&listing.to, &listing.from) {
            continue;
        }
        let fresh = told.insert(&listing.from, &listing.to)?;
        if !fresh {
            continue;
        }
        places.push(place)?;
    }
    Ok(places)
}

/// Who lists whom.
fn pairs_of<'a>(alloc: Global, listings: &'a [Listing]) -> Result<PairSet<'a>, OutOfMemory>
    ensures { IfOk result (λ said. (p : List ℕ × List ℕ) → Has said p ↔ Has (ends_of listings.now) p) }
{
    let mut said = PairSet::new(alloc);
    for listing in listings {
        said.insert(&listing.from, &listing.to)?;
    }
    Ok(said)
}
