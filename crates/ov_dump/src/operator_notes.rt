use crate::names_listing_themselves::{are_same, listing_themselves};
use crate::names_without_entry::{add, without_entry};
use crate::pair_set::PairSet;
use crate::sorted_set_of_names::NameSet;
use crate::unanswered_listings::listed_by_one;
use crate::{Choice, Dump, HostEntry, Listing, Name};
use ov_ids::OutOfMemory;
use std::alloc::{AllocError, Global};
use std::fmt::Write;

/// How many listings, and how many names, are told of at most. (Chosen here.)
const MOST_TOLD: usize = 10;

/// What `--either` does, where few listings are answered.
const EITHER: &str = "more than half of the listings are not answered; \
    --either links two names also if only one of them lists the other\n";

/// What becomes of a link of a name to itself.
const PASSED_OVER: &str = "a link of a name to itself is passed over\n";

/// Who reads lines of neighbours behind a colon.
const ADJACENCY: &str = "a line `a: b c` of an adjacency list is no form of a dump here; \
    `tagzirk import` of the Python package reads it\n";

/// How names are told apart in lines.
const MARKS: &str =
    "names stand with a space, a tab or a comma between them; any other mark, as ; -> ( or a quote, is \
    part of a name here; `tagzirk import` of the Python package reads more forms\n";

/// What an operator should know of a dump: that it has no name; how many listings the other end does not answer, how
/// many names are listed and have no entry, as those of dead peers, how many list themselves, and how many end in a
/// colon; the first ten of each, and what becomes of them. Empty if there is none of it. OutOfMemory (99) is returned
/// if an allocation was refused.
pub fn import_notes(alloc: Global, dump: &Dump, choice: Choice) -> Result<String, OutOfMemory> {
    let mut notes = String::new(alloc);
    if dump.entries.as_slice().is_empty() && dump.listings.as_slice().is_empty() {
        notes.push_str("the dump has no names\n")?;
    }
    let places = listed_by_one(alloc, dump)?;
    note_listings(&mut notes, dump, &places)?;
    if !choice.either && is_most(places.len(), count_listings(alloc, dump)?) {
        notes.push_str(EITHER)?;
    }
    note_strangers(alloc, &mut notes, dump, choice)?;
    note_themselves(alloc, &mut notes, dump)?;
    note_colons(alloc, &mut notes, dump)?;
    Ok(notes)
}

/// What an operator should know of a dump of lines of two names: that the first of them looks like a header, since
/// neither name stands in another line; and how many names have a mark that stands between names, or around them, in
/// other forms, and the first ten. Empty if there is none of it. OutOfMemory (99) is returned if an allocation was
/// refused.
pub fn line_notes(alloc: Global, dump: &Dump) -> Result<String, OutOfMemory> {
    let mut notes = String::new(alloc);
    note_header(&mut notes, dump)?;
    note_marks(alloc, &mut notes, dump)?;
    Ok(notes)
}

/// Tells that the first line looks like a header, if it does.
fn note_header(notes: &mut String, dump: &Dump) -> Result<(), AllocError> {
    let listings = dump.listings.as_slice();
    let Some(first) = listings.first() else {
        return Ok(());
    };
    if stands_apart(first, listings) {
        let (at, from, to) = (first.at, &first.from, &first.to);
        writeln!(
            notes,
            "line {at}: {from} and {to} stand in no other line; if it is a header, remove it"
        )?;
    }
    Ok(())
}

/// Tells the names that have a mark of another form.
fn note_marks(alloc: Global, notes: &mut String, dump: &Dump) -> Result<(), OutOfMemory> {
    let mut found = NameSet::new(alloc);
    for entry in dump.entries.as_slice() {
        if has_mark(&entry.name) {
            add(alloc, &mut found, &entry.name)?;
        }
    }
    let names = found.into_names(alloc)?;
    if names.is_empty() {
        return Ok(());
    }
    note_names(
        notes,
        &names,
        "has a mark of another form",
        "has a mark of another form",
    )?;
    notes.push_str(MARKS)?;
    Ok(())
}

/// Whether a name of a line has a mark that stands between names, or around them, in other forms: one of those
/// below, a square bracket without the other, a `=` with something behind it; or marks alone.
fn has_mark(name: &Name) -> bool {
    let bytes = name.as_str().as_bytes();
    if bytes.iter().any(|byte| is_mark(*byte)) {
        return true;
    }
    has_byte(bytes, b'[') != has_byte(bytes, b']') || assigns(bytes) || !has_letter(bytes)
}

/// Whether a byte is a mark that stands between names, or around them, in other forms, and in no name of a host.
fn is_mark(byte: u8) -> bool {
    matches!(
        byte,
        b';' | b'|' | b'"' | b'\'' | b'`' | b'<' | b'>' | b'(' | b')' | b'{' | b'}'
    )
}

fn has_byte(bytes: &[u8], wanted: u8) -> bool {
    bytes.iter().any(|byte| *byte == wanted)
}

/// Whether something stands behind a `=`, which ends some keys.
fn assigns(bytes: &[u8]) -> bool {
    let mut has_sign = false;
    for byte in bytes {
        if *byte == b'=' {
            has_sign = true;
        } else if has_sign {
            return true;
        }
    }
    false
}

/// Whether there is a letter or a digit.
fn has_letter(bytes: &[u8]) -> bool {
    bytes.iter().any(|byte| *byte >= 128 || byte.is_ascii_digit() || byte.is_ascii_alphabetic())
}

/// Whether a part is more than half of a number.
fn is_most(part: usize, all: usize) -> bool {
    part > all / 2
}

/// How many listings of different names there are. Each pair of names counts once.
fn count_listings(alloc: Global, dump: &Dump) -> Result<usize, OutOfMemory> {
    let mut said = PairSet::new(alloc);
    let mut count: usize = 0;
    for listing in dump.listings.as_slice() {
        let (from, to) = (&listing.from, &listing.to);
        if !are_same(from, to) && said.insert(from, to)? {
            count = count.saturating_add(1);
        }
    }
    Ok(count)
}

fn note_listings(notes: &mut String, dump: &Dump, places: &[usize]) -> Result<(), AllocError> {
    if places.is_empty() {
        return Ok(());
    }
    let count = places.len();
    writeln!(notes, "listed by one end only: {count}")?;
    let listings = dump.listings.as_slice();
    for place in places.iter().take(MOST_TOLD) {
        let Some(listing) = listings.get(*place) else {
            continue;
        };
        let (from, to) = (&listing.from, &listing.to);
        writeln!(notes, "{from} lists {to}, and {to} does not list {from}")?;
    }
    Ok(())
}

/// Tells the names that are listed without an entry, and what becomes of them.
fn note_strangers(
    alloc: Global,
    notes: &mut String,
    dump: &Dump,
    choice: Choice,
) -> Result<(), OutOfMemory> {
    let names = without_entry(alloc, dump)?;
    if names.is_empty() {
        return Ok(());
    }
    note_names(
        notes,
        &names,
        "listed without an entry",
        "is listed and has no entry",
    )?;
    if !choice.entries_only {
        notes.push_str(what_becomes(choice))?;
    }
    Ok(())
}

/// What becomes of names without an entry, if they are not left out.
fn what_becomes(choice: Choice) -> &'static str {
    if choice.either {
        "they are linked, and so look alive; --entries leaves them out\n"
    } else {
        "they become nodes without links; --entries leaves them out\n"
    }
}

/// Tells the names that list themselves.
fn note_themselves(alloc: Global, notes: &mut String, dump: &Dump) -> Result<(), OutOfMemory> {
    let names = listing_themselves(alloc, dump)?;
    if names.is_empty() {
        return Ok(());
    }
    note_names(notes, &names, "lists itself", "lists itself")?;
    notes.push_str(PASSED_OVER)?;
    Ok(())
}

/// Tells the names that end in a colon.
fn note_colons(alloc: Global, notes: &mut String, dump: &Dump) -> Result<(), OutOfMemory> {
    let mut found = NameSet::new(alloc);
    add_entries(alloc, &mut found, dump.entries.as_slice())?;
    add_listed(alloc, &mut found, dump.listings.as_slice())?;
    let names = found.into_names(alloc)?;
    if names.is_empty() {
        return Ok(());
    }
    note_names(notes, &names, "ends in a colon", "ends in a colon")?;
    notes.push_str(ADJACENCY)?;
    Ok(())
}

/// Adds the names of entries that end in a colon.
fn add_entries(
    alloc: Global,
    names: &mut NameSet,
    entries: &[HostEntry],
) -> Result<(), OutOfMemory> {
    for entry in entries {
        if ends_in_colon(&entry.name) {
            add(alloc, names, &entry.name)?;
        }
    }
    Ok(())
}

/// Adds the names that are listed and end in a colon.
fn add_listed(alloc: Global, names: &mut NameSet, listings: &[Listing]) -> Result<(), OutOfMemory> {
    for listing in listings {
        if ends_in_colon(&listing.to) {
            add(alloc, names, &listing.to)?;
        }
    }
    Ok(())
}

fn ends_in_colon(name: &Name) -> bool {
    name.as_str().as_bytes().last() == Some(&b':')
}

/// Tells how many names there are of a kind, and of the first ones that they are of it.
fn note_names(
    notes: &mut String,
    names: &[Name],
    kind: &str,
    is_so: &str,
) -> Result<(), AllocError> {
    let count = names.len();
    writeln!(notes, "{kind}: {count}")?;
    for name in names.iter().take(MOST_TOLD) {
        writeln!(notes, "{name} {is_so}")?;
    }
    Ok(())
}

/// Whether a line has two names neither of which stands in another line, and there are other lines.
fn stands_apart(line: &Listing, listings: &[Listing]) -> bool {
    let mut has_others = false;
    for other in listings {
        if other.at == line.at {
            continue;
        }
        if is_end_of(&line.from, other) || is_end_of(&line.to, other) {
            return false;
        }
        has_others = true;
    }
    has_others && !are_same(&line.from, &line.to)
}

fn is_end_of(name: &Name, listing: &Listing) -> bool {
    are_same(name, &listing.from) || are_same(name, &listing.to)
}
