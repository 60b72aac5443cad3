ghost use Rattle.std.specs.Prelude.{◌≡◌, ◌↔◌, ◌≤◌, ℕ, List, [], ◌∷◌, length, IfErr, IfOk, OnOk};
ghost use Rattle.std.specs.List.{flat_map};
ghost use Rattle.ov_ids.specs.Members.{Has, Ordered};
ghost use Rattle.ov_graph.specs.Links.{most_of};
ghost use Rattle.ov_dump.specs.Dumps.{IsTaken};
ghost use Rattle.ov_dump.specs.Faults.{entry_namings, listing_namings, namings};
ghost use Rattle.ov_dump.specs.Names.{ComesBefore};
ghost use Rattle.ov_dump.specs.Code.Taking.{Gains, RunsOver};

use crate::dump_and_graph_types::{Choice, Dump, HostEntry, Listing};
use crate::graph_making_fault::DumpFault;
use crate::name::Name;
use crate::sorted_set_of_names::NameSet;
use ov_graph::SizeLimit;
use std::alloc::Global;

/// The names of the nodes, ascending. TooManyNodes says the first name beyond the limit.
pub(crate) fn taken_names(
    alloc: Global,
    dump: &Dump,
    choice: Choice,
) -> Result<Vec<Name>, DumpFault>
    ensures ascend { IfOk result (λ names. Ordered ComesBefore names.items) }
    ensures taken { IfOk result (λ names. (n : List ℕ) → Has names.items n ↔ IsTaken choice dump.now n) }
    ensures few { IfOk result (λ names. length names.items ≤ most_of choice.limit) }
    ensures fault { IfErr result (RunsOver (most_of choice.limit) [] (namings choice dump.now)) }
{
    let mut names = NameSet::new(alloc);
    take_all(alloc, &mut names, dump, choice)?;
    Ok(names.into_names(alloc)?)
}

/// Takes all names of a dump that are taken, in its order. None was taken before.
#[tactic(auto, using(crate::proofs::Takings::only_entries, crate::proofs::Takings::ends_too))]
fn take_all(
    alloc: Global,
    names: &mut NameSet,
    dump: &Dump,
    choice: Choice,
) -> Result<(), DumpFault>
    requires none { names.old ≡ [] }
    ensures gains { OnOk result (Gains (most_of choice.limit) [] (namings choice dump.now) names.new) }
    ensures fault { IfErr result (RunsOver (most_of choice.limit) [] (namings choice dump.now)) }
{
    let limit = choice.limit;
    let entries = dump.entries.as_slice();
    take_entries(alloc, names, limit, entries)?;
    if choice.entries_only {
        return Ok(());
    }
    let listings = dump.listings.as_slice();
    take_listings(alloc, names, limit, listings)?;
    Ok(())
}

fn take_entries(
    alloc: Global,
    names: &mut NameSet,
    limit: SizeLimit,
    entries: &[HostEntry],
) -> Result<(), DumpFault>
    requires few { length names.old ≤ most_of limit }
    ensures gains { OnOk result (Gains (most_of limit) names.old (entry_namings entries.now) names.new) }
    ensures fault { IfErr result (RunsOver (most_of limit) names.old (entry_namings entries.now)) }
{
    for entry in entries {
        take_name(alloc, names, limit, entry.at, &entry.name)?;
    }
    Ok(())
}

fn take_listings(
    alloc: Global,
    names: &mut NameSet,
    limit: SizeLimit,
    listings: &[Listing],
) -> Result<(), DumpFault>
    requires few { length names.old ≤ most_of limit }
    ensures gains { OnOk result (Gains (most_of limit) names.old (flat_map listing_namings listings.now) names.new) }
    ensures fault { IfErr result (RunsOver (most_of limit) names.old (flat_map listing_namings listings.now)) }
{
    for listing in listings {
        take_ends(alloc, names, limit, listing)?;
    }
    Ok(())
}

/// Takes the two names of a listing.
fn take_ends(
    alloc: Global,
    names: &mut NameSet,
    limit: SizeLimit,
    listing: &Listing,
) -> Result<(), DumpFault>
    requires few { length names.old ≤ most_of limit }
    ensures gains { OnOk result (Gains (most_of limit) names.old (listing_namings listing.now) names.new) }
    ensures fault { IfErr result (RunsOver (most_of limit) names.old (listing_namings listing.now)) }
{
    take_name(alloc, names, limit, listing.at, &listing.from)?;
    take_name(alloc, names, limit, listing.at, &listing.to)?;
    Ok(())
}

/// Takes a name, unless it was taken before, or there are as many as the limit says.
fn take_name(
    alloc: Global,
    names: &mut NameSet,
    limit: SizeLimit,
    at: u64,
    name: &Name,
) -> Result<(), DumpFault>
    requires few { length names.old ≤ most_of limit }
    ensures gains { OnOk result (Gains (most_of limit) names.old ((at, name.now) ∷ []) names.new) }
    ensures fault { IfErr result (RunsOver (most_of limit) names.old ((at, name.now) ∷ [])) }
{
    if names.contains(name) {
        return Ok(());
    }
    let most = limit.most();
    if names.len() >= most {
        let name = name.copy(alloc)?;
        return Err(DumpFault::TooManyNodes { at, name, most });
    }
    names.insert(name.copy(alloc)?)?;
    Ok(())
}
