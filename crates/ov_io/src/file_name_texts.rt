ghost use Rattle.std.specs.Prelude.{◌≡◌, ◌++◌, IfOk, OnOk, string_bytes};
ghost use Rattle.std.specs.Str.{chars};
ghost use Rattle.ov_io.specs.Name.{shown_char, shown_chars, unread_text, TellsUnopened};

use std::alloc::{AllocError, Global};
use std::fmt::Write;
use std::io::Error;

/// The name of a file as a person can read it on one line: a control character is shown as its code, as `\u{a}` for a
/// line feed. AllocError if an allocation is refused.
pub fn shown_name(alloc: Global, name: &str) -> Result<String, AllocError>
    ensures { IfOk result (λ text. string_bytes text ≡ shown_chars (chars name.now)) }
{
    let mut text = String::new(alloc);
    for c in name.chars() {
        push_shown(&mut text, c)?;
    }
    Ok(text)
}

/// What is printed for a person of a file that can't be opened: its name, as `shown_name` shows it, and the cause.
/// AllocError if an allocation is refused.
pub fn unopened_text(alloc: Global, name: &str, cause: &Error) -> Result<String, AllocError>
    ensures { IfOk result (λ text. TellsUnopened (chars name.now) (string_bytes text)) }
{
    let cause = cause.to_string(alloc)?;
    let mut text = shown_name(alloc, name)?;
    text.push_str(" can't be opened: ")?;
    text.push_str(cause.as_str())?;
    Ok(text)
}

/// What is printed for a person of an input that can't be read: its name, as `shown_name` shows it. AllocError if an
/// allocation is refused.
pub fn unread_text(alloc: Global, name: &str) -> Result<String, AllocError>
    ensures { IfOk result (λ text. string_bytes text ≡ unread_text (chars name.now)) }
{
    let mut text = shown_name(alloc, name)?;
    text.push_str(" can't be read")?;
    Ok(text)
}

/// Appends a character of a name.
fn push_shown(text: &mut String, c: char) -> Result<(), AllocError>
    ensures { OnOk result (string_bytes text.new ≡ string_bytes text.old ++ shown_char c) }
{
    if !c.is_control() {
        return text.push(c);
    }
    let code = u32::from(c);
    write!(text, "\\u{{{code:x}}}")?;
    Ok(())
}
