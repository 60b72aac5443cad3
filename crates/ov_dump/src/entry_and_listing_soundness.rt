ghost use Rattle.std.specs.Prelude.{◌≡◌, ◌≢◌, ◌↔◌, ◌⊎◌, ℕ, List, [], IfErr, OnOk};
ghost use Rattle.ov_ids.specs.Members.{Has};
ghost use Rattle.ov_dump.specs.Faults.{AreSoundEntries, AreSoundListings, IsSound, IsSoundListing};
ghost use Rattle.ov_dump.specs.Faults.{IsEntryFlaw, IsFlaw, IsListingFlaw};
ghost use Rattle.ov_dump.specs.Code.Judging.{EntryFails, ListingFails};
ghost use Rattle.ov_dump.specs.declared.graph_making_fault.DumpFault.TheVariants.{OutOfMemory as out_of_memory};

use crate::dump_and_graph_types::{Dump, HostEntry, Listing};
use crate::graph_making_fault::DumpFault;
use crate::sorted_set_of_names::NameSet;
use std::alloc::Global;

/// Whether a dump is sound, or what is wrong with the first entry or listing that is not.
pub(crate) fn judge(alloc: Global, dump: &Dump) -> Result<(), DumpFault>
    ensures sound { OnOk result (IsSound dump.now) }
    ensures fault { IfErr result (λ fault. (fault ≡ out_of_memory) ⊎ IsFlaw dump.now fault) }
{
    judge_entries(alloc, dump.entries.as_slice())?;
    judge_listings(dump.listings.as_slice())?;
    Ok(())
}

fn judge_entries(alloc: Global, entries: &[HostEntry]) -> Result<(), DumpFault>
    ensures sound { OnOk result (AreSoundEntries entries.now) }
    ensures fault { IfErr result (λ fault. (fault ≡ out_of_memory) ⊎ IsEntryFlaw entries.now fault) }
{
    let mut seen = NameSet::new(alloc);
    for entry in entries {
        judge_entry(alloc, &mut seen, entry)?;
    }
    Ok(())
}

/// Judges an entry behind those whose names were seen, and adds its name to these.
fn judge_entry(alloc: Global, seen: &mut NameSet, entry: &HostEntry) -> Result<(), DumpFault>
    ensures named { OnOk result (entry.now.name ≢ []) }
    ensures fresh { OnOk result (¬ Has seen.old entry.now.name) }
    ensures seen { OnOk result ((n : List ℕ) → Has seen.new n ↔ ((entry.now.name ≡ n) ⊎ Has seen.old n)) }
    ensures fault { IfErr result (EntryFails seen.old entry.now) }
{
    let at = entry.at;
    if entry.name.is_empty() {
        return Err(DumpFault::EmptyName { at });
    }
    if seen.contains(&entry.name) {
        let name = entry.name.copy(alloc)?;
        return Err(DumpFault::NameTwice { at, name });
    }
    seen.insert(entry.name.copy(alloc)?)?;
    Ok(())
}

fn judge_listings(listings: &[Listing]) -> Result<(), DumpFault>
    ensures sound { OnOk result (AreSoundListings listings.now) }
    ensures fault { IfErr result (IsListingFlaw listings.now) }
{
    for listing in listings {
        judge_listing(listing)?;
    }
    Ok(())
}

fn judge_listing(listing: &Listing) -> Result<(), DumpFault>
    ensures sound { OnOk result (IsSoundListing listing.now) }
    ensures fault { IfErr result (ListingFails listing.now) }
{
    let at = listing.at;
    if listing.from.is_empty() || listing.to.is_empty() {
        return Err(DumpFault::EmptyName { at });
    }
    Ok(())
}
