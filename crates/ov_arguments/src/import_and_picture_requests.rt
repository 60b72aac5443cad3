ghost use Rattle.std.specs.Prelude.{◌≡◌, codes, string_bytes, option_map, Some, None, IfOk, IsErrOf};
ghost use Rattle.clap.specs.Words.{found_of, first_value};
ghost use Rattle.ov_lines.specs.Lines.{ids_of};
ghost use Rattle.ov_arguments.specs.Arguments.{entry_of, fan_asked, format_asked, format_of, pair_asked};
ghost use Rattle.ov_command_tree.specs.Flags.{is_flagged};
ghost use Rattle.ov_arguments.specs.declared.arguments.ArgumentsFault.TheVariants.{BadArguments};

use crate::arguments::ArgumentsFault;
use clap::ArgMatches;
use ov_command_tree::{has_flag, text_of};
use ov_ids::{NodeId, OutOfMemory};
use ov_lines::read_ids;
use std::alloc::Global;

/// The form of a dump.
#[derive(Clone, Copy)]
pub enum DumpFormat {
    /// A JSON object: a name, and the names that it lists.
    Views,
    /// Lines of two names.
    Edges,
    /// Graphviz's language DOT.
    Dot,
}

/// What is asked of an import, besides its file.
#[derive(Clone, Copy)]
pub struct ImportRequest {
    /// The form of the dump. Without it, the form is the one that the dump looks like.
    pub format: Option<DumpFormat>,
    /// Whether a link is where one name lists the other, and not only where both do.
    pub either: bool,
    /// Whether to leave out names that have no entry.
    pub entries: bool,
    /// Whether up to 32,768 names are taken, and not 1,024.
    pub large: bool,
}

/// An entry of a certificate, by the ids of its members.
#[derive(Clone, Copy)]
pub enum AskedEntry {
    /// The paths between two members.
    Pair { i: NodeId, j: NodeId },
    /// The paths from a member to members below it.
    Fan { j: NodeId },
}

/// What is asked of a picture, besides its certificate file.
#[derive(Drop)]
pub struct PictureRequest {
    /// The graph file that names the nodes.
    pub names: Option<String>,
    /// The entry whose paths are drawn.
    pub entry: Option<AskedEntry>,
    /// Whether DOT is asked for in place of a picture.
    pub dot: bool,
}

/// The import that is asked for, by what was found after the command.
pub(crate) fn import_of(found: &ArgMatches) -> Result<ImportRequest, ArgumentsFault>
    ensures asked { IfOk result (λ dump. format_of (first_value (found_of found.now)) ≡ Some dump.format) }
    ensures either { IfOk result (λ dump.
        is_flagged (first_value (found_of found.now) (codes "either")) ≡ dump.either) }
    ensures entries { IfOk result
        (λ dump. is_flagged (first_value (found_of found.now) (codes "entries")) ≡ dump.entries) }
    ensures large { IfOk result (λ dump. is_flagged (first_value (found_of found.now) (codes "large")) ≡ dump.large) }
    ensures bad { IsErrOf result BadArguments → (format_of (first_value (found_of found.now)) ≡ None) }
{
    let format = asked_format(
        has_flag(found, "views"),
        has_flag(found, "edges"),
        has_flag(found, "dot"),
    )?;
    Ok(ImportRequest {
        format,
        either: has_flag(found, "either"),
        entries: has_flag(found, "entries"),
        large: has_flag(found, "large"),
    })
}

/// The form of a dump that the three flags ask for.
fn asked_format(views: bool, edges: bool, dot: bool) -> Result<Option<DumpFormat>, ArgumentsFault>
    ensures asked { IfOk result (λ format. format_asked views edges dot ≡ Some format) }
    ensures bad { IsErrOf result BadArguments → (format_asked views edges dot ≡ None) }
{
    match (views, edges, dot) {
        (false, false, false) => Ok(None),
        (true, false, false) => Ok(Some(DumpFormat::Views)),
        (false, true, false) => Ok(Some(DumpFormat::Edges)),
        (false, false, true) => Ok(Some(DumpFormat::Dot)),
        _ => Err(ArgumentsFault::BadArguments),
    }
}

/// The picture that is asked for, by what was found after the command.
pub(crate) fn picture_of(
    alloc: Global,
    found: &ArgMatches,
) -> Result<PictureRequest, ArgumentsFault>
    ensures names { IfOk result (λ picture. first_value (found_of found.now) (codes "names")
        ≡ option_map string_bytes picture.names) }
    ensures asked { IfOk result (λ picture. entry_of (first_value (found_of found.now)) ≡ Some picture.entry) }
    ensures dot { IfOk result (λ picture. is_flagged (first_value (found_of found.now) (codes "dot")) ≡ picture.dot) }
    ensures bad { IsErrOf result BadArguments → (entry_of (first_value (found_of found.now)) ≡ None) }
{
    let entry = asked_entry(alloc, found)?;
    Ok(PictureRequest {
        names: text_of(alloc, found, "names")?,
        entry,
        dot: has_flag(found, "dot"),
    })
}

/// The entry that the two options ask for.
fn asked_entry(alloc: Global, found: &ArgMatches) -> Result<Option<AskedEntry>, ArgumentsFault>
    ensures asked { IfOk result (λ entry. entry_of (first_value (found_of found.now)) ≡ Some entry) }
    ensures bad { IsErrOf result BadArguments → (entry_of (first_value (found_of found.now)) ≡ None) }
{
    match (found.get_str("pair"), found.get_str("fan")) {
        (None, None) => Ok(None),
        (Some(pair), None) => some_entry(read_pair(alloc, pair)?),
        (None, Some(fan)) => some_entry(read_fan(alloc, fan)?),
        (Some(_), Some(_)) => Err(ArgumentsFault::BadArguments),
    }
}

/// An entry that must be there.
fn some_entry(entry: Option<AskedEntry>) -> Result<Option<AskedEntry>, ArgumentsFault>
    ensures some { IfOk result (λ asked. option_map Some entry ≡ Some asked) }
    ensures bad { IsErrOf result BadArguments → (entry ≡ None) }
{
    match entry {
        Some(entry) => Ok(Some(entry)),
        None => Err(ArgumentsFault::BadArguments),
    }
}

/// The entry of two ids with a comma between them.
fn read_pair(alloc: Global, text: &str) -> Result<Option<AskedEntry>, OutOfMemory>
    ensures { IfOk result (λ entry. entry ≡ pair_asked (ids_of text.now)) }
{
    let Some(ids) = read_ids(alloc, text.as_bytes())? else {
        return Ok(None);
    };
    Ok(pair_of(&ids))
}

/// The entry of one id.
fn read_fan(alloc: Global, text: &str) -> Result<Option<AskedEntry>, OutOfMemory>
    ensures { IfOk result (λ entry. entry ≡ fan_asked (ids_of text.now)) }
{
    let Some(ids) = read_ids(alloc, text.as_bytes())? else {
        return Ok(None);
    };
    Ok(fan_of(&ids))
}

fn pair_of(ids: &[NodeId]) -> Option<AskedEntry>
    ensures { result ≡ pair_asked (Some ids.now) }
{
    match ids {
        [i, j] => Some(AskedEntry::Pair { i: *i, j: *j }),
        _ => None,
    }
}

fn fan_of(ids: &[NodeId]) -> Option<AskedEntry>
    ensures { result ≡ fan_asked (Some ids.now) }
{
    match ids {
        [j] => Some(AskedEntry::Fan { j: *j }),
        _ => None,
    }
}
