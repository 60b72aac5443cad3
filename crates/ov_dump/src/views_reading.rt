ghost use Rattle.std.specs.Prelude.{◌≡◌, ◌++◌, ◌∷◌, [], ℕ, List, IfErr, IfOk, OnOk, None, Some, option_map};
ghost use Rattle.json.specs.Value.{items_view, members_view, value_view};
ghost use Rattle.ov_dump.specs.Views.{IsViewsFault, SayDump, SaysViews, ends_whole, is_whole, listed};
ghost use Rattle.ov_dump.specs.Views.{listings_of, names_in, peers};
ghost use Rattle.ov_dump.specs.Code.Reading.{DumpOf, FailsAt, FailsFrom, as_items, as_members, names_read};
ghost use Rattle.ov_dump.specs.declared.reading_fault.DumpReadFault.TheVariants.{OutOfMemory as out_of_memory};

use crate::name_making::{listing_of, name_of};
use crate::reading_fault::DumpReadFault;
use crate::{Dump, HostEntry, Listing};
use json::{Error, Scratch, Value};
use ov_ids::Seq;
use std::alloc::Global;

/// The entries and the listings that members say, in order.
#[derive(Drop)]
struct ViewParts {
    entries: Vec<HostEntry>,
    listings: Vec<Listing>,
}

/// What an item of a list lists.
#[derive(Clone, Copy)]
pub(crate) enum Listed<'a> {
    /// Nobody.
    Nobody,
    /// The peer of this name.
    Peer(&'a str),
    /// It is no name.
    NoName,
}

/// Reads a dump that is a JSON object (RFC 8259). Each key is a name with an entry, and its value is the list of the
/// names that it lists: texts, and whole numbers as they are written. `null` lists nobody, and is passed over in a
/// list. A key that is there twice gives two entries.
///
/// NotJson (60): the bytes are no UTF-8 or no JSON. NotViews (83): they are another JSON value than an object. NoView
/// (83) says the first entry whose value is no list of names. OutOfMemory (99) is returned if an allocation was
/// refused.
pub fn read_views(alloc: Global, bytes: &[u8]) -> Result<Dump, DumpReadFault>
    ensures dump { IfOk result (SaysViews bytes.now) }
    ensures fault { IfErr result (IsViewsFault bytes.now) }
{
    let mut scratch = Scratch::new(alloc);
    match Value::from_slice(alloc, bytes, &mut scratch) {
        Ok(value) => dump_of(alloc, &value),
        Err(fault) => match fault {
            Error::Invalid => Err(DumpReadFault::NotJson),
            _ => Err(DumpReadFault::OutOfMemory),
        },
    }
}

/// The dump that a value says.
fn dump_of(alloc: Global, value: &Value<'_>) -> Result<Dump, DumpReadFault>
    ensures { DumpOf (value_view value.now) result }
{
    match members_in(value) {
        Some(members) => {
            let ViewParts { entries, listings } = read_members(alloc, members)?;
            let entries = Seq::new(entries);
            let listings = Seq::new(listings);
            Ok(Dump { entries, listings })
        }
        None => Err(DumpReadFault::NotViews),
    }
}

/// The members of an object.
fn members_in<'v, 'a>(value: &'v Value<'a>) -> Option<&'v [(&'a str, Value<'a>)]>
    ensures { option_map (λ ms. members_view ms.now) result ≡ as_members (value_view value.now) }
{
    if let Value::Object(members) = value {
        Some(members)
    } else {
        None
    }
}

/// The items of a list.
fn items_in<'v, 'a>(value: &'v Value<'a>) -> Option<&'v [Value<'a>]>
    ensures { option_map (λ vs. items_view vs.now) result ≡ as_items (value_view value.now) }
{
    if let Value::Array(items) = value {
        Some(items)
    } else {
        None
    }
}

fn read_members(alloc: Global, members: &[(&str, Value<'_>)]) -> Result<ViewParts, DumpReadFault>
    ensures dump { IfOk result (λ p. SayDump 1 (members_view members.now)
        (record { entries = p.entries.items; listings = p.listings.items })) }
    ensures fault { IfErr result (FailsFrom 1 (members_view members.now)) }
{
    let mut parts = ViewParts {
        entries: Vec::new(alloc),
        listings: Vec::new(alloc),
    };
    for (place, member) in members.iter().enumerate() {
        add_view(alloc, &mut parts, place as u64 + 1, member.0, &member.1)?;
    }
    Ok(parts)
}

/// Adds an entry with its listings.
fn add_view(
    alloc: Global,
    parts: &mut ViewParts,
    at: u64,
    name: &str,
    view: &Value<'_>,
) -> Result<(), DumpReadFault>
    ensures entry { OnOk result (parts.new.entries.items
        ≡ parts.old.entries.items ++ record { at = at; name = name.now } ∷ []) }
    ensures listings { OnOk result ((names : List (List ℕ)) × (peers (value_view view.now) ≡ Some names)
        × (parts.new.listings.items ≡ parts.old.listings.items ++ listings_of at name.now names)) }
    ensures fault { IfErr result (FailsAt at name.now (peers (value_view view.now))) }
{
    if view.is_null() {
        return add_entry(alloc, &mut parts.entries, at, name);
    }
    match items_in(view) {
        Some(items) => {
            add_entry(alloc, &mut parts.entries, at, name)?;
            add_peers(alloc, &mut parts.listings, at, name, items)
        }
        None => Err(no_view(alloc, at, name)),
    }
}

/// Adds an entry without listings.
fn add_entry(
    alloc: Global,
    entries: &mut Vec<HostEntry>,
    at: u64,
    name: &str,
) -> Result<(), DumpReadFault>
    ensures entry { OnOk result (entries.new.items
        ≡ entries.old.items ++ record { at = at; name = name.now } ∷ []) }
    ensures fault { IfErr result (λ fault. fault ≡ out_of_memory) }
{
    let entry = name_of(alloc, name)?;
    entries.push(HostEntry { at, name: entry })?;
    Ok(())
}

/// Adds the listings of an entry.
fn add_peers(
    alloc: Global,
    listings: &mut Vec<Listing>,
    at: u64,
    name: &str,
    items: &[Value<'_>],
) -> Result<(), DumpReadFault>
    ensures listings { OnOk result ((names : List (List ℕ)) × (listed (items_view items.now) ≡ Some names)
        × (listings.new.items ≡ listings.old.items ++ listings_of at name.now names)) }
    ensures fault { IfErr result (FailsAt at name.now (listed (items_view items.now))) }
{
    for item in items {
        let to = match listed_by(item) {
            Listed::Nobody => continue,
            Listed::Peer(to) => to,
            Listed::NoName => return Err(no_view(alloc, at, name)),
        };
        listings.push(listing_of(alloc, at, name, to)?)?;
    }
    Ok(())
}

/// What an item lists.
fn listed_by<'a>(item: &Value<'a>) -> Listed<'a>
    ensures { names_read result ≡ names_in (value_view item.now) }
{
    match item {
        Value::Null => Listed::Nobody,
        Value::String(text) => Listed::Peer(text),
        Value::Number(written) => {
            if is_whole(written) {
                Listed::Peer(written)
            } else {
                Listed::NoName
            }
        }
        Value::Bool(_) | Value::Array(_) | Value::Object(_) => Listed::NoName,
    }
}

/// Whether a number, as it is written, has no fraction and no exponent.
fn is_whole(written: &str) -> bool
    ensures { result ≡ is_whole written.now }
{
    for byte in written.as_bytes() {
        if ends_whole(*byte) {
            return false;
        }
    }
    true
}

/// Whether a byte begins a fraction or an exponent.
fn ends_whole(byte: u8) -> bool
    ensures { result ≡ ends_whole byte }
{
    byte == b'.' || byte == b'e' || byte == b'E'
}

/// The fault of an entry whose value is no list of names.
fn no_view(alloc: Global, entry: u64, name: &str) -> DumpReadFault
    ensures { FailsAt entry name.now None result }
{
    match name_of(alloc, name) {
        Ok(name) => DumpReadFault::NoView { entry, name },
        Err(_) => DumpReadFault::OutOfMemory,
    }
}
