ghost use Rattle.std.specs.Prelude.{◌≡◌, ◌++◌, ◌∷◌, [], map, string_bytes, string_cmp, if◌then◌else◌, IfErr, IfOk};
ghost use Rattle.std.specs.Prelude.{OnOk};
ghost use Rattle.std.proofs.Common.{Global, String};
ghost use Rattle.std.specs.BTreeSet.{contains};
ghost use Rattle.ov_dot.specs.Tokens.{lexemes};
ghost use Rattle.ov_dump.specs.FirstEntries.{AreFirsts};
ghost use Rattle.ov_dot.specs.Dumps.{both_ends, entry_of, listing_of, IsDumpOf};
ghost use Rattle.ov_dot.specs.Code.Entered.{has_entry};
ghost use Rattle.ov_dot.specs.Code.Seen.{ends, said_in, AreBadNames, IsNameless};

use crate::Token;
use crate::fault::DotFault;
use crate::name_reading::read_name;
use crate::statement_reading::{Link, Statements};
use ov_dump::{Dump, HostEntry, Listing};
use ov_ids::Seq;
use std::alloc::Global;
use std::collections::BTreeSet;

/// The dump that statements say. A name that is to have several entries has one, where it first stands. UnreadLine is
/// returned if a name is not in UTF-8, and OutOfMemory if an allocation was refused.
#[tactic(auto, using(crate::proofs::Refusing::nameless_entries, crate::proofs::Refusing::nameless_listings))]
pub(crate) fn make_dump(alloc: Global, said: &Statements<'_>) -> Result<Dump, DotFault>
    ensures dump { IfOk result (λ dump. IsDumpOf (said_in said.now) dump) }
    ensures fault { IfErr result (λ fault. IsNameless (said_in said.now) fault) }
{
    let entries = make_entries(alloc, &said.entries)?;
    let listings = make_listings(alloc, &said.listings)?;
    Ok(Dump {
        entries: Seq::new(entries),
        listings: Seq::new(listings),
    })
}

/// One entry for each name.
fn make_entries(alloc: Global, names: &[Token<'_>]) -> Result<Vec<HostEntry>, DotFault>
    ensures entries { IfOk result (λ entries. AreFirsts [] (map entry_of (lexemes names.now)) entries.items) }
    ensures fault { IfErr result (λ fault. AreBadNames (lexemes names.now) fault) }
{
    let mut entries = Vec::new(alloc);
    let mut seen = BTreeSet::new(alloc);
    for token in names {
        let name = read_name(alloc, token)?;
        let text = name.copy(alloc)?.into_string();
        let at = token.line;
        add_entry(&mut seen, &mut entries, text, HostEntry { at, name })?;
    }
    Ok(entries)
}

/// Appends an entry of this name, if there is none yet.
fn add_entry(
    seen: &mut BTreeSet<String>,
    entries: &mut Vec<HostEntry>,
    text: String,
    entry: HostEntry,
) -> Result<(), DotFault>
    requires name { string_bytes text ≡ entry.name }
    requires seen { (q : String Global) →
        contains string_cmp seen.old q ≡ has_entry (string_bytes q) entries.old.items }
    ensures entries { OnOk result (entries.new.items
        ≡ (if has_entry entry.name entries.old.items then entries.old.items else entries.old.items ++ entry ∷ [])) }
    ensures seen { OnOk result ((q : String Global) →
        contains string_cmp seen.new q ≡ has_entry (string_bytes q) entries.new.items) }
    ensures memory { IfErr result (λ fault. fault ≡ DotFault.OutOfMemory) }
{
    if !seen.insert(text)? {
        return Ok(());
    }
    entries.push(entry)?;
    Ok(())
}

/// All listings.
fn make_listings(alloc: Global, links: &[Link<'_>]) -> Result<Vec<Listing>, DotFault>
    ensures listings { IfOk result (λ listings. listings.items ≡ map listing_of (map ends links.now)) }
    ensures fault { IfErr result (λ fault. AreBadNames (both_ends (map ends links.now)) fault) }
{
    let mut listings = Vec::new(alloc);
    for link in links {
        let at = link.from.line;
        let from = read_name(alloc, &link.from)?;
        let to = read_name(alloc, &link.to)?;
        listings.push(Listing { at, from, to })?;
    }
    Ok(listings)
}
