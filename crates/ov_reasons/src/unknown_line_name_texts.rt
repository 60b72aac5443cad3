use crate::unread_line_texts::bytes_hint;
use ov_graphfile::LINE_NAMES;
use ov_lines::{FileKind, KeptLine, looks_like};
use ov_scenario::line_names;
use std::alloc::{AllocError, Global};
use std::fmt::Write;
use strsim::osa_distance;

/// The length in bytes of the longest word that may be meant as a name.
const LONGEST: usize = 32;

/// The bytes of a byte order mark in UTF-8.
const BYTE_ORDER_MARK: &[u8] = b"\xef\xbb\xbf";

/// Appends that no line begins with this word, which begins this line, and what may help. Lines of the file begin with
/// these names.
pub(crate) fn push_no_line_name(
    alloc: Global,
    text: &mut String,
    names: &[&'static str],
    line: &KeptLine<'_>,
    word: &[u8],
) -> Result<(), AllocError> {
    text.push_str("no line begins with this word")?;
    if let Some(hint) = name_hint(line, word) {
        return write!(text, "; {hint}");
    }
    match meant_name(alloc, names, word)? {
        Some(name) => push_meant(text, name),
        None => push_names(text, names),
    }
}

/// What may help at a word that no line begins with, by its bytes and its place.
fn name_hint(line: &KeptLine<'_>, word: &[u8]) -> Option<&'static str> {
    if line.number == 1 && line.text.starts_with(BYTE_ORDER_MARK) {
        return Some("the file begins with a byte order mark, which no line may have");
    }
    if looks_like(line.text) == FileKind::Report {
        return Some("`overlay analyse` prints such lines");
    }
    bytes_hint(word).or(other_file(word))
}

/// What may help at a word that the lines of the other kind of file begin with.
fn other_file(word: &[u8]) -> Option<&'static str> {
    if has_name(&LINE_NAMES, word) {
        return Some("`overlay analyse` reads graph files, which have such lines");
    }
    if has_name(line_names(), word) {
        return Some("`overlay run` reads scenario files, which have such lines");
    }
    None
}

/// Whether a word is one of these names.
fn has_name(names: &[&'static str], word: &[u8]) -> bool {
    names.iter().any(|name| name.as_bytes() == word)
}

/// Appends these names.
fn push_names(text: &mut String, names: &[&'static str]) -> Result<(), AllocError> {
    let mut between = "; lines begin with ";
    for (place, name) in names.iter().enumerate() {
        write!(text, "{between}`{name}`")?;
        between = if place + 2 == names.len() {
            " or "
        } else {
            ", "
        };
    }
    Ok(())
}

/// Appends a name that may be meant.
fn push_meant(text: &mut String, name: &str) -> Result<(), AllocError> {
    write!(text, "; did you mean `{name}`?")
}

/// The first of the names that is near to a word.
fn meant_name(
    alloc: Global,
    names: &[&'static str],
    word: &[u8],
) -> Result<Option<&'static str>, AllocError> {
    let Ok(word) = str::from_utf8(word) else {
        return Ok(None);
    };
    for name in names {
        if is_near(alloc, word, name)? {
            return Ok(Some(*name));
        }
    }
    Ok(None)
}

/// Whether a word may be meant as this name: it differs in capital letters alone, or by one edit for each three
/// letters.
fn is_near(alloc: Global, word: &str, name: &str) -> Result<bool, AllocError> {
    if word.len() > LONGEST {
        return Ok(false);
    }
    if word.eq_ignore_ascii_case(name) {
        return Ok(true);
    }
    Ok(osa_distance(alloc, word, name)? <= name.len() / 3)
}
