//! Lines that say what to write in place of words that are not expected, or of a value that an option does not take.
use std::fmt::{Display, Formatter, Result, Write};

/// What may be meant.
#[derive(Clone, Copy)]
pub enum SlipTip<'a> {
    /// Nothing is known.
    Unknown,
    /// Another word for the rule that is called none.
    Never,
    /// The name of a row that begins with a hyphen.
    Hyphened(&'a str),
    /// The file of a row, and its number.
    Row(&'a str, &'a str),
    /// An option that counts in 100, and the numbers that are its value.
    Hundredths(&'a str, &'a str),
    /// The two parts of a list.
    List(&'a str, &'a str),
    /// A list as it is written.
    Commas(&'a str),
    /// The ends of a range.
    Range(u64, u64),
    /// A range of which one end is missing.
    HalfRange,
    /// An option that counts in 100, and how many are meant.
    Percent(&'a str, u64),
    /// The whole numbers below and above a fraction.
    Whole(u64, u64),
    /// An option that counts in 100, how many a share of all is, and that share.
    Share(&'a str, u64, &'a str),
}

/// A line `tip: ..`, which ends with a line feed. It is empty if nothing is known.
impl<'a> Display for SlipTip<'a> {
    fn fmt<W: Write>(&self, f: &mut Formatter<W>) -> Result {
        match *self {
            SlipTip::Unknown => Ok(()),
            SlipTip::Never => f.write_str("tip: none is written `--refill never`\n"),
            SlipTip::Hyphened(name) => write!(
                f,
                "tip: a value that begins with a hyphen stands behind `=`: `--row={name}`\n"
            ),
            SlipTip::Row(file, number) => write!(
                f,
                "tip: a row is named FILE:N, as `--row {file}:{number}`\n"
            ),
            SlipTip::Hundredths(name, list) => write!(
                f,
                "tip: it counts in 100, without %: `--{name} {list}`\n"
            ),
            SlipTip::List(list, word) => write!(f, "tip: a list has no spaces: `{list},{word}`\n"),
            SlipTip::Commas(list) => write!(
                f,
                "tip: a list has one comma between two values, and no spaces: `{list}`\n"
            ),
            SlipTip::Range(low, high) => write!(
                f,
                "tip: a range is written `{low}..{high}`, with both ends in it\n"
            ),
            SlipTip::HalfRange => {
                f.write_str("tip: a range is written `3..8`, with both ends in it\n")
            }
            SlipTip::Percent(name, percent) => {
                write!(f, "tip: it counts in 100: `--{name} {percent}`\n")
            }
            SlipTip::Whole(below, above) => write!(
                f,
                "tip: it takes whole numbers of 100: {below} or {above}\n"
            ),
            SlipTip::Share(name, percent, share) => write!(
                f,
                "tip: it takes whole numbers of 100: `--{name} {percent}` if a share of {share} is meant; {share} % \
                 can't be asked for\n"
            ),
        }
    }
}
