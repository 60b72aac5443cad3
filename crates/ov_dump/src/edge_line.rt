ghost use Rattle.std.specs.Prelude.{◌≡◌, ◌↔◌, [], IsTrue, true};
ghost use Rattle.ov_dump.specs.EdgeLines.{before_mark, is_blank, is_mark, is_name_byte};
ghost use Rattle.ov_dump.specs.Code.Reading.{behind, front_of};
ghost use Rattle.ov_dump.specs.Code.Reading.{WasRead, behind_comma, behind_gap, end_of, first_name, last_of};
ghost use Rattle.ov_dump.specs.Code.Reading.{next_of, second_name, text_of};

use std::str::from_utf8;

/// What a line of a file of edges says.
#[derive(Clone, Copy)]
pub(crate) enum EdgeLine<'a> {
    /// Nothing.
    Blank,
    /// These two names list each other.
    Edge(&'a str, &'a str),
    /// It can't be read.
    Unread,
}

/// The parts of a line.
#[derive(Clone, Copy)]
pub(crate) struct LineParts<'a> {
    /// What stands before the first mark, without blanks before it.
    pub(crate) text: &'a [u8],
    /// The name that the text begins with.
    pub(crate) first: &'a [u8],
    /// What is left behind that and a gap.
    pub(crate) next: &'a [u8],
    /// The name that this begins with.
    pub(crate) second: &'a [u8],
    /// What is left behind that.
    pub(crate) end: &'a [u8],
    /// The same without blanks before it.
    pub(crate) last: &'a [u8],
}

/// Reads what a line says.
pub(crate) fn read_edge_line<'a>(line: &'a [u8]) -> EdgeLine<'a>
    ensures { WasRead line.now result }
{
    let parts = line_parts(line);
    if is_none(parts.text) {
        return EdgeLine::Blank;
    }
    if !is_none(parts.last) {
        return EdgeLine::Unread;
    }
    if is_none(parts.first) {
        return EdgeLine::Unread;
    }
    if is_none(parts.second) {
        return EdgeLine::Unread;
    }
    let Ok(first) = from_utf8(parts.first) else {
        return EdgeLine::Unread;
    };
    let Ok(second) = from_utf8(parts.second) else {
        return EdgeLine::Unread;
    };
    EdgeLine::Edge(first, second)
}

pub(crate) fn line_parts<'a>(line: &'a [u8]) -> LineParts<'a>
    ensures text { result.text.now ≡ text_of line.now }
    ensures first { result.first.now ≡ first_name line.now }
    ensures next { result.next.now ≡ next_of line.now }
    ensures second { result.second.now ≡ second_name line.now }
    ensures end { result.end.now ≡ end_of line.now }
    ensures last { result.last.now ≡ last_of line.now }
{
    let text = behind_blanks(before_mark(line));
    let (first, rest) = split_name(text);
    let next = behind_gap(rest);
    let (second, end) = split_name(next);
    let last = behind_blanks(end);
    LineParts {
        text,
        first,
        next,
        second,
        end,
        last,
    }
}

pub(crate) fn is_none(text: &[u8]) -> bool
    ensures { IsTrue result ↔ (text.now ≡ []) }
{
    text.is_empty()
}

/// What stands before the first word that begins with `#` or `{`.
fn before_mark(line: &[u8]) -> &[u8]
    ensures { result.now ≡ before_mark true line.now }
{
    let mut begins = true;
    for (i, byte) in line.iter().enumerate() {
        if begins && is_mark(*byte) {
            return &line[..i];
        }
        begins = is_blank(*byte);
    }
    line
}

fn behind_blanks(text: &[u8]) -> &[u8]
    ensures { result.now ≡ behind is_blank text.now }
{
    let mut left = text;
    while let Some((first, rest)) = left.split_first() {
        if !is_blank(*first) {
            return left;
        }
        left = rest;
    }
    left
}

/// The text without what may stand between two names.
pub(crate) fn behind_gap(text: &[u8]) -> &[u8]
    ensures { result.now ≡ behind_gap text.now }
{
    behind_blanks(behind_comma(behind_blanks(text)))
}

fn behind_comma(text: &[u8]) -> &[u8]
    ensures { result.now ≡ behind_comma text.now }
{
    match text.split_first() {
        Some((first, rest)) if *first == b',' => rest,
        _ => text,
    }
}

/// Splits off the bytes that a name may have.
pub(crate) fn split_name(text: &[u8]) -> (&[u8], &[u8])
    ensures name { result.0.now ≡ front_of is_name_byte text.now }
    ensures rest { result.1.now ≡ behind is_name_byte text.now }
{
    for (i, byte) in text.iter().enumerate() {
        if !is_name_byte(*byte) {
            return text.split_at(i);
        }
    }
    (text, &[])
}

fn is_blank(byte: u8) -> bool
    ensures { result ≡ is_blank byte }
{
    byte == b' ' || byte == b'\t'
}

fn is_name_byte(byte: u8) -> bool
    ensures { result ≡ is_name_byte byte }
{
    !(is_blank(byte) || byte == b',')
}

fn is_mark(byte: u8) -> bool
    ensures { result ≡ is_mark byte }
{
    byte == b'#' || byte == b'{'
}
