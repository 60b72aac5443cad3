use crate::line_and_mark::push_marked;
use crate::unknown_line_name_texts::push_no_line_name;
use ov_lines::{KeptLine, Kind, LineCursor, Unread, comma_hint, read_number};
use std::alloc::{AllocError, Global};
use std::fmt::Write;

/// The name of a line of a graph file, and what may help at an id too many there, and at another word.
struct TooMany(&'static str, &'static str, &'static str);

const TOO_MANY: [TooMany; 2] = [
    TooMany(
        "node",
        "each node has a line of its own",
        "a name stands in a comment right before the line, as `# 1 relay`",
    ),
    TooMany(
        "link",
        "a link has two nodes, and a line of its own",
        "a link has two nodes, and nothing else",
    ),
];

/// What may help at a name in place of an id.
const NAMED: &str = "it is a number, and `overlay import` makes a graph file of a dump with names";

/// Appends what is wrong with a line that can't be read, and the line, with a mark under the word at fault. Lines of
/// the file begin with these names.
pub(crate) fn push_unread(
    alloc: Global,
    text: &mut String,
    names: &[&'static str],
    line: &KeptLine<'_>,
    unread: &Unread,
) -> Result<(), AllocError> {
    let word = word_at(line.text, unread.at);
    match (word, unread.wanted.last()) {
        (Some(word), Some(Kind::LineName)) => push_no_line_name(alloc, text, names, line, word)?,
        (Some(word), Some(kind)) => {
            push_wanted(text, unread.wanted)?;
            push_hint(text, line.text, word, kind)?;
        }
        _ => push_wanted(text, unread.wanted)?,
    }
    push_marked(text, line.text, unread.at)
}

/// The word that begins at this byte of a line, if one does.
fn word_at(line: &[u8], at: usize) -> Option<&[u8]> {
    let (_, rest) = line.split_at(at.min(line.len()));
    LineCursor::new(rest).word()
}

/// Appends what is expected at a place of a line.
fn push_wanted(text: &mut String, wanted: &[Kind]) -> Result<(), AllocError> {
    let mut between = "expected ";
    for kind in wanted {
        text.push_str(between)?;
        push_kind(text, kind)?;
        between = " or ";
    }
    Ok(())
}

/// Appends what a word of a kind is.
fn push_kind(text: &mut String, kind: &Kind) -> Result<(), AllocError> {
    match kind {
        Kind::Name(name) => write!(text, "`{name}`"),
        Kind::Within(lowest, highest) => write!(text, "a number from {lowest} to {highest}"),
        _ => text.push_str(text_of(kind)),
    }
}

/// What a word of a kind is.
fn text_of(kind: &Kind) -> &'static str {
    match kind {
        Kind::LineName => "the name of a line",
        Kind::Within(_, _) => "a number",
        Kind::Name(what) | Kind::Short(what) | Kind::Long(what) => what,
        Kind::Ids => "ids with one comma between two, without spaces",
        Kind::RandomWord => "a random word",
        Kind::FurtherWord => "the end of the line or a random word",
        Kind::End => "the end of the line",
        Kind::Full => "the end of the line, since an event has 64 random words at most",
    }
}

/// Appends what may help at a word of a line, if a word of this kind is expected in its place.
fn push_hint(text: &mut String, line: &[u8], word: &[u8], kind: &Kind) -> Result<(), AllocError> {
    match (bytes_hint(word).or(graph_hint(line, word, kind)), kind) {
        (Some(hint), _) => write!(text, "; {hint}"),
        (None, Kind::Ids) => push_ids_hint(text, word),
        (None, _) => push_limits(text, kind),
    }
}

/// What may help at a word of a line of a graph file that stands where an id or the end of the line must.
fn graph_hint(line: &[u8], word: &[u8], kind: &Kind) -> Option<&'static str> {
    let first = LineCursor::new(line).word()?;
    for TooMany(name, id, other) in &TOO_MANY {
        if first == name.as_bytes() {
            return match kind {
                Kind::End if is_numeral(word) => Some(*id),
                Kind::End => Some(*other),
                Kind::Short(_) if begins_as_name(word) => Some(NAMED),
                _ => None,
            };
        }
    }
    None
}

/// Whether a word begins with a letter.
fn begins_as_name(word: &[u8]) -> bool {
    matches!(word.first(), Some(byte) if byte.is_ascii_alphabetic())
}

/// Appends which comma of a list of ids is one too many, or the limits of each id of a list whose ids are all written
/// as numbers.
fn push_ids_hint(text: &mut String, word: &[u8]) -> Result<(), AllocError> {
    if let Some(hint) = comma_hint(word) {
        return write!(text, "; this word {hint}");
    }
    if are_numerals(word) {
        let short = u32::MAX;
        return write!(text, "; each is a number from 0 to {short}");
    }
    Ok(())
}

/// Appends the limits of a number of this kind if the text of the kind does not say them.
fn push_limits(text: &mut String, kind: &Kind) -> Result<(), AllocError> {
    let (short, long) = (u32::MAX, u64::MAX);
    match kind {
        Kind::Short(_) => write!(text, "; it is a number from 0 to {short}"),
        Kind::Long(_) | Kind::RandomWord | Kind::FurtherWord => {
            write!(text, "; it is a number from 0 to {long}")
        }
        _ => Ok(()),
    }
}

/// Whether a word is decimal digits with one comma between two numbers.
fn are_numerals(word: &[u8]) -> bool {
    word.split(|byte| *byte == b',').all(is_numeral)
}

/// Whether a word is one decimal digit or more.
fn is_numeral(word: &[u8]) -> bool {
    !word.is_empty() && word.iter().all(|byte| byte.is_ascii_digit())
}

/// What may help at a word by its bytes.
pub(crate) fn bytes_hint(word: &[u8]) -> Option<&'static str> {
    if word.contains(&b'\t') {
        return Some("words are separated by spaces, and a tab is no space");
    }
    if word.contains(&b'\r') {
        return Some(
            "a line ends with a line feed, and a carriage return is dropped only right before that",
        );
    }
    if word.starts_with(b"#") {
        return Some("a comment is a line of its own");
    }
    has_sign(word).then_some("a number has no sign")
}

/// Whether a word is a number after a sign.
fn has_sign(word: &[u8]) -> bool {
    match word.split_first() {
        Some((sign, digits)) => (*sign == b'-' || *sign == b'+') && read_number(digits).is_some(),
        None => false,
    }
}
