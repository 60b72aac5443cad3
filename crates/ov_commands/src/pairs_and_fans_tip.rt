ghost use Rattle.std.specs.Prelude.{◌≡◌, ◌++◌, string_bytes, OnOk};
ghost use Rattle.ov_commands.specs.Code.EntryTexts.{end_text, pair_text};

use ov_cert::{Cert, FanPaths, PairPaths};
use ov_ids::NodeId;
use std::alloc::{AllocError, Global};
use std::fmt::Write;

/// How many pairs and how many fans are named at most.
const MOST_NAMED: usize = 10;

/// Which entries a certificate has: how many pairs and fans, and the first ten of each.
pub(crate) fn entries_of(alloc: Global, cert: &Cert) -> Result<String, AllocError> {
    match cert {
        Cert::Linked { .. } => {
            String::from_str(alloc, "every two members are linked, so it has none")
        }
        Cert::Split(split) => {
            let mut text = String::new(alloc);
            text.push_str("it has ")?;
            push_pairs(&mut text, split.pairs.as_slice())?;
            text.push_str(" and ")?;
            push_fans(&mut text, split.fans.as_slice())?;
            Ok(text)
        }
    }
}

/// Appends the first pairs, and how many there are.
fn push_pairs(text: &mut String, pairs: &[PairPaths]) -> Result<(), AllocError> {
    push_count(text, pairs.len(), "pair")?;
    for (at, entry) in pairs.iter().enumerate() {
        if at < MOST_NAMED {
            push_pair(text, entry.i, entry.j)?;
        }
    }
    push_end(text, pairs.len())
}

/// Appends a pair.
fn push_pair(text: &mut String, i: NodeId, j: NodeId) -> Result<(), AllocError>
    ensures { OnOk result (string_bytes text.new ≡ string_bytes text.old ++ pair_text i j) }
{
    let low = i.number();
    let high = j.number();
    write!(text, " {low},")?;
    write!(text, "{high}")
}

/// Appends the first fans, and how many there are.
fn push_fans(text: &mut String, fans: &[FanPaths]) -> Result<(), AllocError> {
    push_count(text, fans.len(), "fan")?;
    for (at, entry) in fans.iter().enumerate() {
        if at < MOST_NAMED {
            let j = entry.j.number();
            write!(text, " {j}")?;
        }
    }
    push_end(text, fans.len())
}

/// Appends how many entries of a kind there are, and what begins their names.
fn push_count(text: &mut String, count: usize, kind: &str) -> Result<(), AllocError> {
    match count {
        0 => write!(text, "no {kind}s"),
        1 => write!(text, "1 {kind} (--{kind}"),
        _ => write!(text, "{count} {kind}s (--{kind}"),
    }
}

/// Appends how many entries are not named, and what ends the names of so many.
fn push_end(text: &mut String, count: usize) -> Result<(), AllocError>
    ensures { OnOk result (string_bytes text.new ≡ string_bytes text.old ++ end_text count) }
{
    if count == 0 {
        return Ok(());
    }
    if count <= MOST_NAMED {
        return text.push_str(")");
    }
    let others = count - MOST_NAMED;
    write!(text, " and {others} more)")
}
