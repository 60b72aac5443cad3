//! The text that a file begins with.
ghost use Rattle.std.specs.Prelude.{◌≡◌, nat_eq};
ghost use Rattle.std.specs.List.{list_any};
ghost use Rattle.ov_lines.specs.Lines.{kept_lines};
ghost use Rattle.ov_lines.specs.FileKinds.{before, behind_blanks, behind_mark, ends_keyword, first_text, is_blank};
ghost use Rattle.ov_lines.specs.FileKinds.{says_nothing};

use crate::unskipped_lines::KeptLines;

/// These bytes without the byte order mark that they may begin with, as some editors write it.
pub fn behind_mark(bytes: &[u8]) -> &[u8]
    ensures { result.now ≡ behind_mark bytes.now }
{
    bytes.strip_prefix(b"\xEF\xBB\xBF").unwrap_or(bytes)
}

/// The text of the first line that says something, without blanks before it.
pub(crate) fn first_text(bytes: &[u8]) -> &[u8]
    ensures { result.now ≡ first_text (kept_lines bytes.now) }
{
    let mut left = KeptLines::new(bytes);
    while let Some(line) = left.next_line() {
        let text = behind_blanks(line.text);
        if !says_nothing(text) {
            return text;
        }
    }
    &[]
}

fn behind_blanks(text: &[u8]) -> &[u8]
    ensures { result.now ≡ behind_blanks text.now }
{
    let mut left = text;
    while let Some((first, rest)) = left.split_first() {
        if !is_blank(*first) {
            return left;
        }
        left = rest;
    }
    left
}

/// Whether a text without blanks before it is empty, or a comment.
fn says_nothing(text: &[u8]) -> bool
    ensures { result ≡ says_nothing text.now }
{
    match text.split_first() {
        Some((first, _)) => *first == b'#',
        None => true,
    }
}

/// What stands before the first blank.
pub(crate) fn before_blank(text: &[u8]) -> &[u8]
    ensures { result.now ≡ before is_blank text.now }
{
    for (i, byte) in text.iter().enumerate() {
        if is_blank(*byte) {
            return &text[..i];
        }
    }
    text
}

/// What stands before the end of the keyword of DOT with which a text may begin.
pub(crate) fn before_keyword_end(text: &[u8]) -> &[u8]
    ensures { result.now ≡ before ends_keyword text.now }
{
    for (i, byte) in text.iter().enumerate() {
        if ends_keyword(*byte) {
            return &text[..i];
        }
    }
    text
}

fn ends_keyword(byte: u8) -> bool
    ensures { result ≡ ends_keyword byte }
{
    is_blank(byte) || is_one_of(byte, b"{\"</")
}

pub(crate) fn is_blank(byte: u8) -> bool
    ensures { result ≡ is_blank byte }
{
    (byte == b' ' || byte == b'\t') || byte == b'\r'
}

/// Whether a byte is one of these signs.
pub(crate) fn is_one_of(byte: u8, signs: &[u8]) -> bool
    ensures { result ≡ list_any (λ sign. nat_eq byte sign) signs.now }
{
    signs.iter().any(|sign| byte == *sign)
}
