ghost use Rattle.std.specs.Prelude.{◌≡◌, ◌↔◌, ◌⊎◌, ℕ, List, IfOk, IsTrue, OnOk};
ghost use Rattle.ov_ids.specs.Members.{Has};
ghost use Rattle.ov_dump.specs.Dumps.{ends_of};
ghost use Rattle.ov_dump.specs.Code.Listed.{ListThemselves};

use crate::dump_and_graph_types::{Dump, Listing};
use crate::name::Name;
use crate::names_without_entry::add;
use crate::sorted_set_of_names::NameSet;
use ov_ids::OutOfMemory;
use std::alloc::Global;

/// The names that list themselves, ascending. OutOfMemory (99) is returned if an allocation was refused.
pub(crate) fn listing_themselves(alloc: Global, dump: &Dump) -> Result<Vec<Name>, OutOfMemory>
    ensures { IfOk result (λ names. ListThemselves dump.now names.items) }
{
    let names = self_listed(alloc, dump.listings.as_slice())?;
    Ok(names.into_names(alloc)?)
}

/// The names of which one of these listings says that it lists itself.
fn self_listed(alloc: Global, listings: &[Listing]) -> Result<NameSet, OutOfMemory>
    ensures { IfOk result (λ names. (n : List ℕ) → Has names n ↔ Has (ends_of listings.now) (n, n)) }
{
    let mut names = NameSet::new(alloc);
    for listing in listings {
        add_if_same(alloc, &mut names, listing)?;
    }
    Ok(names)
}

/// Adds the name of a listing that has only one.
fn add_if_same(alloc: Global, names: &mut NameSet, listing: &Listing) -> Result<(), OutOfMemory>
    ensures { OnOk result ((n : List ℕ) → Has names.new n
        ↔ (((listing.now.from ≡ n) × (listing.now.to ≡ n)) ⊎ Has names.old n)) }
{
    if !are_same(&listing.from, &listing.to) {
        return Ok(());
    }
    add(alloc, names, &listing.from)?;
    Ok(())
}

pub(crate) fn are_same(a: &Name, b: &Name) -> bool
    ensures { IsTrue result ↔ (a.now ≡ b.now) }
{
    a == b
}
