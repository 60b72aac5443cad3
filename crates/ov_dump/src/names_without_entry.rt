ghost use Rattle.std.specs.Prelude.{◌≡◌, ◌↔◌, ◌⊎◌, ℕ, List, IfOk, OnOk};
ghost use Rattle.ov_ids.specs.Members.{Has};
ghost use Rattle.ov_dump.specs.Dumps.{names_of};
ghost use Rattle.ov_dump.specs.Code.Listed.{AreWithoutEntry, Missing};

use crate::dump_and_graph_types::{Dump, HostEntry, Listing};
use crate::name::Name;
use crate::sorted_set_of_names::NameSet;
use ov_ids::OutOfMemory;
use std::alloc::Global;

/// The names that are listed and have no entry, ascending. OutOfMemory (99) is returned if an allocation was refused.
pub(crate) fn without_entry(alloc: Global, dump: &Dump) -> Result<Vec<Name>, OutOfMemory>
    ensures { IfOk result (λ names. AreWithoutEntry dump.now names.items) }
{
    let entries = entry_names(alloc, dump.entries.as_slice())?;
    let names = listed_names(alloc, dump.listings.as_slice(), &entries)?;
    Ok(names.into_names(alloc)?)
}

/// The names that are listed, but for those in the set.
fn listed_names(
    alloc: Global,
    listings: &[Listing],
    entries: &NameSet,
) -> Result<NameSet, OutOfMemory>
    ensures { IfOk result (λ names. Missing listings.now entries.now names) }
{
    let mut names = NameSet::new(alloc);
    for listing in listings {
        add_unless_in(alloc, entries, &mut names, &listing.to)?;
    }
    Ok(names)
}

/// The names that have an entry.
fn entry_names(alloc: Global, entries: &[HostEntry]) -> Result<NameSet, OutOfMemory>
    ensures { IfOk result (λ names. (n : List ℕ) → Has names n ↔ Has (names_of entries.now) n) }
{
    let mut names = NameSet::new(alloc);
    for entry in entries {
        add(alloc, &mut names, &entry.name)?;
    }
    Ok(names)
}

/// Adds a name, unless it is in the other set.
fn add_unless_in(
    alloc: Global,
    other: &NameSet,
    names: &mut NameSet,
    name: &Name,
) -> Result<(), OutOfMemory>
    ensures { OnOk result ((n : List ℕ) → Has names.new n
        ↔ (((name.now ≡ n) × ¬ Has other.now n) ⊎ Has names.old n)) }
{
    if other.contains(name) {
        return Ok(());
    }
    add(alloc, names, name)?;
    Ok(())
}

/// Adds a name.
pub(crate) fn add(alloc: Global, names: &mut NameSet, name: &Name) -> Result<(), OutOfMemory>
    ensures { OnOk result ((n : List ℕ) → Has names.new n ↔ ((name.now ≡ n) ⊎ Has names.old n)) }
{
    if names.contains(name) {
        return Ok(());
    }
    names.insert(name.copy(alloc)?)?;
    Ok(())
}
