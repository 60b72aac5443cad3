ghost use Rattle.std.specs.Prelude.{◌≡◌, ◌++◌, codes, nat_eq, string_bytes, IfOk, IsUtf8, OnOk};
ghost use Rattle.std.specs.List.{starts_with};
ghost use Rattle.std.specs.Str.{chars};
ghost use Rattle.ov_dump.specs.ShownNames.{is_coded, shown_char, shown_text};

use std::alloc::{AllocError, Global};
use std::fmt::Write;

/// A name as a graph file shows it, on one line: a control character by its code, as `\u{a}` for a line feed, and a
/// backslash before `u{` by its code too, so that no two names look alike. AllocError if an allocation is refused.
pub(crate) fn shown_name(alloc: Global, name: &str) -> Result<String, AllocError>
    ensures shown { IfOk result (λ text. string_bytes text ≡ shown_text name.now) }
    ensures utf8 { IsUtf8 name.now }
{
    let mut text = String::new(alloc);
    let mut left = name.chars();
    while let Some(c) = left.next() {
        push_shown(&mut text, c, left.as_str())?;
    }
    Ok(text)
}

/// Appends a character of a name, behind which these stand.
fn push_shown(text: &mut String, c: char, later: &str) -> Result<(), AllocError>
    ensures { OnOk result (string_bytes text.new ≡ string_bytes text.old ++ shown_char c (chars later.now)) }
{
    if !is_coded(c, later) {
        return text.push(c);
    }
    let code = u32::from(c);
    write!(text, "\\u{{{code:x}}}")?;
    Ok(())
}

/// Whether a character is shown by its code.
fn is_coded(c: char, later: &str) -> bool
    ensures { result ≡ is_coded c (chars later.now) }
{
    c.is_control() || (c == '\\' && begins_code(later))
}

/// Whether a text would begin a code behind a backslash.
fn begins_code(text: &str) -> bool
    ensures { result ≡ starts_with nat_eq (chars text.now) (codes "u{") }
{
    text.as_bytes().starts_with(b"u{")
}
