ghost use Rattle.std.specs.Prelude.{◌≡◌, IfOk};
ghost use Rattle.ov_dump.specs.EdgeLines.{IsReadable, IsWhy};

use crate::edge_line::{behind_gap, is_none, line_parts, split_name};
use ov_ids::{OutOfMemory, Seq};
use std::alloc::Global;
use std::fmt::{Display, Formatter, Result as Printed, Write};
use std::str::from_utf8;

/// How many characters of a word are shown at most. (Chosen here.)
const MOST_SHOWN: usize = 40;

/// Why a line is no pair of names.
#[derive(Debug, Drop)]
pub enum Why {
    /// It begins with a comma.
    CommaFirst,
    /// Two commas stand in it, with nothing between them.
    TwoCommas,
    /// A comma stands behind the second name, and nothing else.
    CommaLast,
    /// It has one name alone.
    OneName,
    /// This word, which need not be UTF-8, stands behind the second name.
    ThirdWord { word: Seq<u8> },
    /// It has two names, which are not both UTF-8.
    NoText,
}

/// Why a line can't be read. OutOfMemory (99) if an allocation is refused.
pub(crate) fn why_unread(alloc: Global, line: &[u8]) -> Result<Why, OutOfMemory>
    requires { ¬ IsReadable line.now }
    ensures { IfOk result (IsWhy line.now) }
{
    let parts = line_parts(line);
    if is_none(parts.first) {
        return Ok(Why::CommaFirst);
    }
    if is_none(parts.next) {
        return Ok(Why::OneName);
    }
    if is_none(parts.second) {
        return Ok(Why::TwoCommas);
    }
    if is_none(parts.last) {
        return Ok(Why::NoText);
    }
    let further = behind_gap(parts.end);
    if is_none(further) {
        return Ok(Why::CommaLast);
    }
    let (word, _) = split_name(further);
    if is_none(word) {
        return Ok(Why::TwoCommas);
    }
    let word = bytes_of(alloc, word)?;
    Ok(Why::ThirdWord { word })
}

/// A copy of these bytes.
fn bytes_of(alloc: Global, bytes: &[u8]) -> Result<Seq<u8>, OutOfMemory>
    ensures { IfOk result (λ copy. copy ≡ bytes.now) }
{
    Ok(Seq::new(bytes.to_vec(alloc)?))
}

/// It is shown as what is wrong with the line.
impl Display for Why {
    fn fmt<W: Write>(&self, f: &mut Formatter<W>) -> Printed {
        match self {
            Why::CommaFirst => f.write_str("it begins with a comma"),
            Why::TwoCommas => f.write_str("it has two commas in a row"),
            Why::CommaLast => f.write_str("a comma stands behind the second name"),
            Why::OneName => f.write_str("it has one name alone"),
            Why::ThirdWord { word } => show_third(word.as_slice(), f),
            Why::NoText => f.write_str("a name is no UTF-8"),
        }
    }
}

/// Shows a word that stands behind two names. If it is one that networkx writes there, says how networkx leaves it out.
fn show_third<W: Write>(word: &[u8], f: &mut Formatter<W>) -> Printed {
    let Ok(text) = from_utf8(word) else {
        return f.write_str("a third word, which is no UTF-8, stands behind them");
    };
    f.write_char('`')?;
    show_cut(text, f)?;
    f.write_str("` stands behind them")?;
    if word.starts_with(b"{") || is_number(word) {
        f.write_str("; networkx writes lines of two names with `data=False`")?;
    }
    Ok(())
}

/// Shows a text, with control characters by their codes. What is too long is cut.
fn show_cut<W: Write>(text: &str, f: &mut Formatter<W>) -> Printed {
    for (i, c) in text.chars().enumerate() {
        if i == MOST_SHOWN {
            return f.write_str("..");
        }
        if c.is_control() {
            let code = u32::from(c);
            write!(f, "\\u{{{code:x}}}")?;
        } else {
            f.write_char(c)?;
        }
    }
    Ok(())
}

/// Whether a word looks like a number: digits, with one point at most.
fn is_number(word: &[u8]) -> bool {
    let points = word.iter().filter(|byte| **byte == b'.').count();
    let others = word.iter().filter(|byte| !byte.is_ascii_digit()).count();
    points == others && points <= 1 && word.len() > points
}
