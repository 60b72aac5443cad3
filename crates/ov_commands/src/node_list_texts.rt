//! Lists of nodes that an analysis is asked for, as texts: in the command line, or in files.
ghost use Rattle.std.specs.Prelude.{◌≡◌, ◌↔◌, ◌⊎◌, ℕ, List, [], ◌∷◌, drop, option_map, string_bytes, IfOk, IfErr};
ghost use Rattle.std.specs.Prelude.{IfSome, IsTrue, MatchOption, None, Some, Ok};
ghost use Rattle.ov_commands.specs.Naming.{list_text, NamesFile, NamesFileGiven, IsListText, IsListGiven, IsGoneGiven};

use ov_arguments::AnalysisRequest;
use ov_lines::KeptLines;
use ov_reasons::{bytes_of, opened, without_memory};
use ov_run_meaning::RunFault;
use std::alloc::{AllocError, Global};
use std::io::Read;

/// What an argument begins with that names the file of a list.
const FILE: char = '@';

/// The texts of the lists that are given: parts with a comma between two, each the name or the id of a node.
#[derive(Drop)]
pub struct NodeLists {
    /// The members of the group, unless their ids are given, or no group is.
    pub group: Option<Vec<u8>>,
    /// The nodes that are gone.
    pub gone: Option<Vec<u8>>,
}

impl NodeLists {
    /// Whether no list is given.
    pub(crate) fn is_empty(&self) -> bool
        ensures { IsTrue result → (self.now.gone ≡ None) × (self.now.group ≡ None) }
    {
        if self.gone.is_some() {
            return false;
        }
        self.group.is_none()
    }
}

/// The lists that an analysis is asked for. A list of nodes that are gone is none if it is in a file that has none.
/// Prints why a file can't be read.
pub(crate) fn lists_of(rt: &HostRuntime, analysis: &AnalysisRequest) -> Result<NodeLists, RunFault>
    ensures gone { IfOk result (λ lists. IsGoneGiven (option_map (λ text. string_bytes text) analysis.now.gone)
        (option_map (λ text. text.items) lists.gone)) }
    ensures group { IfOk result (λ lists. IsListGiven
        (option_map (λ text. string_bytes text) analysis.now.group_list)
        (option_map (λ text. text.items) lists.group)) }
{
    let gone = gone_given(rt, analysis.gone.as_deref())?;
    let group = text_given(rt, analysis.group_list.as_deref())?;
    Ok(NodeLists { group, gone })
}

/// The text of the list of the nodes that are gone, if an argument gives one that names somebody.
fn gone_given(rt: &HostRuntime, argument: Option<&str>) -> Result<Option<Vec<u8>>, RunFault>
    ensures { IfOk result (λ text. IsGoneGiven (option_map (λ t. t.now) argument.entry)
        (option_map (λ t. t.items) text)) }
{
    let text = text_given(rt, argument)?;
    if is_in_file(argument) && is_empty(&text) {
        return Ok(None);
    }
    Ok(text)
}

/// Whether a text is there, and is empty.
fn is_empty(text: &Option<Vec<u8>>) -> bool
    ensures { IsTrue result ↔ (option_map (λ t. t.items) text.now ≡ Some []) }
{
    match text {
        Some(text) => text.as_slice().is_empty(),
        None => false,
    }
}

/// Whether an argument names the file of a list.
fn is_in_file(argument: Option<&str>) -> bool
    ensures { IsTrue result ↔ NamesFileGiven (option_map (λ t. t.now) argument.entry) }
{
    match argument {
        Some(argument) => path_in(argument).is_some(),
        None => false,
    }
}

/// The path of the file that an argument names, if it names one.
fn path_in(argument: &str) -> Option<&str>
    ensures { MatchOption result (¬ NamesFile argument.now) (λ path. argument.now ≡ 64 ∷ path.now) }
{
    argument.strip_prefix(FILE)
}

/// The text of a list, if an argument gives one: the argument itself, or what is in the file that it names.
fn text_given(rt: &HostRuntime, argument: Option<&str>) -> Result<Option<Vec<u8>>, RunFault>
    ensures { IfOk result (λ text. IsListGiven (option_map (λ t. t.now) argument.entry)
        (option_map (λ t. t.items) text)) }
{
    match argument {
        Some(argument) => {
            let text = text_of(rt, argument)?;
            Ok(Some(text))
        }
        None => Ok(None),
    }
}

/// The text of the list that an argument gives.
fn text_of(rt: &HostRuntime, argument: &str) -> Result<Vec<u8>, RunFault>
    ensures { IfOk result (λ text. IsListText argument.now text.items) }
{
    match path_in(argument) {
        Some(path) => {
            let text = text_from(rt, opened(rt, path)?, path)?;
            Ok(text)
        }
        None => {
            let text = made(rt, Vec::from_slice(rt.alloc(), argument.as_bytes()))?;
            Ok(text)
        }
    }
}

/// The text of the list in a file, of which this is the reader and the name.
fn text_from<R: Read + Drop>(rt: &HostRuntime, reader: R, path: &str) -> Result<Vec<u8>, RunFault>
    ensures text { IfOk result (λ text. IfSome (R.remaining reader) (λ xs. text.items ≡ list_text xs)) }
    ensures list { IfOk result (λ text. (bytes : List ℕ) × (text.items ≡ list_text bytes)) }
    ensures fault { IfErr result (λ fault. (fault ≡ RunFault.Read) ⊎ (fault ≡ RunFault.OutOfMemory)) }
{
    let bytes = bytes_of(rt, reader, path)?;
    let text = made(rt, list_text(rt.alloc(), &bytes))?;
    Ok(text)
}

/// A text that was made, unless memory ran out.
fn made(rt: &HostRuntime, text: Result<Vec<u8>, AllocError>) -> Result<Vec<u8>, RunFault>
    ensures made { IfOk result (λ v. text ≡ Ok v) }
    ensures memory { IfErr result (λ fault. fault ≡ RunFault.OutOfMemory) }
{
    match text {
        Ok(text) => Ok(text),
        Err(AllocError) => Err(without_memory(rt)),
    }
}

/// The text of a list that is in a file of these bytes.
fn list_text(alloc: Global, bytes: &[u8]) -> Result<Vec<u8>, AllocError>
    ensures { IfOk result (λ text. text.items ≡ list_text bytes.now) }
{
    let mut text = Vec::new(alloc);
    let mut lines = KeptLines::new(bytes);
    while let Some(line) = lines.next_line() {
        text.push(b',')?;
        text.extend_from_slice(line.text)?;
    }
    Vec::from_slice(alloc, behind_first(&text))
}

/// The bytes behind the first one.
fn behind_first(bytes: &[u8]) -> &[u8]
    ensures { result.now ≡ drop 1 bytes.now }
{
    match bytes.split_first() {
        Some((_, rest)) => rest,
        None => &[],
    }
}
