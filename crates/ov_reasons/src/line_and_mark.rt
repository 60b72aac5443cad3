use ov_lines::{END, LineCursor};
use std::alloc::AllocError;
use std::fmt::Write;

/// How many bytes of a line are shown before its mark.
const BEFORE: usize = 60;

/// How many bytes of a line are shown from its mark on.
const BEHIND: usize = 100;

/// Appends a line feed, a line of a file, and below that a mark under the word at this place. Places count from 0.
pub(crate) fn push_marked_word(
    text: &mut String,
    line: &[u8],
    place: usize,
) -> Result<(), AllocError> {
    push_marked(text, line, start_of_word(line, place))
}

/// Where the word at this place begins; the length of the line if it has no such word.
fn start_of_word(line: &[u8], place: usize) -> usize {
    let mut cursor = LineCursor::new(line);
    for _ in 0..place {
        let _ = cursor.word();
    }
    cursor.unread(END).at
}

/// Appends a line feed, a line of a file, and below that a mark under the byte at this place, or right after the line.
/// Of a long line only the part around the mark is shown, with `..` for what is left out.
pub(crate) fn push_marked(text: &mut String, line: &[u8], at: usize) -> Result<(), AllocError> {
    let (before, behind) = line.split_at(at.min(line.len()));
    text.push_str("\n  ")?;
    push_before(text, before)?;
    let width = last_width(text);
    push_behind(text, behind)?;
    push_mark(text, width)
}

/// How many characters the last line of a text has.
fn last_width(text: &str) -> usize {
    match text.rsplit_once('\n') {
        Some((_, last)) => last.chars().count(),
        None => text.chars().count(),
    }
}

/// Appends a line feed, and a mark after this many spaces.
fn push_mark(text: &mut String, width: usize) -> Result<(), AllocError> {
    text.push_str("\n")?;
    for _ in 0..width {
        text.push_str(" ")?;
    }
    text.push_str("^\n")
}

/// Appends what is shown of the bytes before a mark.
fn push_before(text: &mut String, bytes: &[u8]) -> Result<(), AllocError> {
    if bytes.len() <= BEFORE {
        return push_shown(text, bytes);
    }
    text.push_str("..")?;
    push_shown(text, &bytes[bytes.len() - BEFORE..])
}

/// Appends what is shown of the bytes from a mark on.
fn push_behind(text: &mut String, bytes: &[u8]) -> Result<(), AllocError> {
    if bytes.len() <= BEHIND {
        return push_shown(text, bytes);
    }
    let (shown, _) = bytes.split_at(BEHIND);
    push_shown(text, shown)?;
    text.push_str("..")
}

/// Appends bytes as a person can read them. Bytes that are no UTF-8 and control characters are shown as `\xNN`, but a
/// tab as `\t` and a carriage return as `\r`.
fn push_shown(text: &mut String, bytes: &[u8]) -> Result<(), AllocError> {
    for chunk in bytes.utf8_chunks() {
        push_chars(text, chunk.valid())?;
        push_bytes(text, chunk.invalid())?;
    }
    Ok(())
}

fn push_chars(text: &mut String, chars: &str) -> Result<(), AllocError> {
    for c in chars.chars() {
        push_char(text, c)?;
    }
    Ok(())
}

fn push_char(text: &mut String, c: char) -> Result<(), AllocError> {
    match c {
        '\t' => text.push_str("\\t"),
        '\r' => text.push_str("\\r"),
        '\u{feff}' => text.push_str("\\xef\\xbb\\xbf"),
        _ if c.is_control() => push_control(text, u32::from(c)),
        _ => text.push(c),
    }
}

/// Appends a control character by the bytes that it has in UTF-8.
fn push_control(text: &mut String, code: u32) -> Result<(), AllocError> {
    let lead = if code >= 128 { "\\xc2" } else { "" };
    write!(text, "{lead}\\x{code:02x}")
}

fn push_bytes(text: &mut String, bytes: &[u8]) -> Result<(), AllocError> {
    for byte in bytes {
        let byte = *byte;
        write!(text, "\\x{byte:02x}")?;
    }
    Ok(())
}
