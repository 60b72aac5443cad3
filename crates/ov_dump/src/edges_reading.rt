ghost use Rattle.std.specs.Prelude.{◌≡◌, ◌++◌, IfErr, IfOk, OnOk};
ghost use Rattle.ov_dump.specs.EdgeLines.{IsReadable};
ghost use Rattle.ov_dump.specs.Edges.{IsEdgesFault, SaysEdges, listings_of};
ghost use Rattle.ov_dump.specs.Code.Reading.{FailsAtLine, TakesEnds, TakesEntry};

use crate::edge_line::{EdgeLine, read_edge_line};
use crate::name_making::{listing_of, name_of};
use crate::reading_fault::DumpReadFault;
use crate::sorted_set_of_names::NameSet;
use crate::unread_edge_line_reason::why_unread;
use crate::{Dump, HostEntry, Listing};
use ov_ids::{OutOfMemory, Seq};
use ov_lines::KeptLines;
use std::alloc::Global;

/// The entries and the listings that lines say, in order, and the names that have an entry.
#[derive(Drop)]
struct EdgeParts {
    entries: Vec<HostEntry>,
    listings: Vec<Listing>,
    names: NameSet,
}

/// Reads a dump of lines of two names, each of which lists the other. A line is ended by a line feed, before which one
/// carriage return is dropped. Between the names are spaces or tabs, or one comma with spaces or tabs around it. What
/// follows from a word on that begins with `#` or `{` is skipped; a line without a word before that says nothing. Each
/// name has an entry, at its first line.
///
/// UnreadLine (70) says the first line of another form, or with a name that is no UTF-8, and why. OutOfMemory (99) is
/// returned if an allocation was refused.
pub fn read_edges(alloc: Global, bytes: &[u8]) -> Result<Dump, DumpReadFault>
    ensures dump { IfOk result (SaysEdges bytes.now) }
    ensures fault { IfErr result (IsEdgesFault bytes.now) }
{
    let EdgeParts {
        entries,
        listings,
        names: _,
    } = read_parts(alloc, bytes)?;
    let entries = Seq::new(entries);
    let listings = Seq::new(listings);
    Ok(Dump { entries, listings })
}

fn read_parts(alloc: Global, bytes: &[u8]) -> Result<EdgeParts, DumpReadFault>
    ensures dump { IfOk result (λ p. SaysEdges bytes.now
        (record { entries = p.entries.items; listings = p.listings.items })) }
    ensures fault { IfErr result (IsEdgesFault bytes.now) }
{
    let mut parts = EdgeParts {
        entries: Vec::new(alloc),
        listings: Vec::new(alloc),
        names: NameSet::new(alloc),
    };
    let mut left = KeptLines::new(bytes);
    while let Some(line) = left.next_line() {
        let at = line.number as u64;
        match read_edge_line(line.text) {
            EdgeLine::Blank => {}
            EdgeLine::Edge(a, b) => add_edge(alloc, &mut parts, at, a, b)?,
            EdgeLine::Unread => return Err(unread(alloc, at, line.text)),
        }
    }
    Ok(parts)
}

/// The fault of a line that can't be read.
fn unread(alloc: Global, at: u64, line: &[u8]) -> DumpReadFault
    requires { ¬ IsReadable line.now }
    ensures { FailsAtLine at line.now result }
{
    match why_unread(alloc, line) {
        Ok(why) => DumpReadFault::UnreadLine { line: at, why },
        Err(_) => DumpReadFault::OutOfMemory,
    }
}

/// Adds two names that list each other.
fn add_edge(
    alloc: Global,
    parts: &mut EdgeParts,
    at: u64,
    a: &str,
    b: &str,
) -> Result<(), OutOfMemory>
    ensures entries { OnOk result (TakesEnds parts.old.names parts.old.entries.items
        (record { at = at; name = a.now }) (record { at = at; name = b.now })
        parts.new.names parts.new.entries.items) }
    ensures listings { OnOk result (parts.new.listings.items ≡ parts.old.listings.items
        ++ listings_of (record { line = at; a = a.now; b = b.now })) }
{
    add_entry(alloc, &mut parts.names, &mut parts.entries, at, a)?;
    add_entry(alloc, &mut parts.names, &mut parts.entries, at, b)?;
    parts.listings.push(listing_of(alloc, at, a, b)?)?;
    parts.listings.push(listing_of(alloc, at, b, a)?)?;
    Ok(())
}

/// Adds an entry, unless the name has one.
fn add_entry(
    alloc: Global,
    names: &mut NameSet,
    entries: &mut Vec<HostEntry>,
    at: u64,
    name: &str,
) -> Result<(), OutOfMemory>
    ensures { OnOk result (TakesEntry names.old entries.old.items (record { at = at; name = name.now })
        names.new entries.new.items) }
{
    let name = name_of(alloc, name)?;
    if names.contains(&name) {
        return Ok(());
    }
    names.insert(name.copy(alloc)?)?;
    entries.push(HostEntry { at, name })?;
    Ok(())
}
