use ov_lines::{KeptLine, KeptLines};
use std::alloc::AllocError;
use std::fmt::Write;

/// How many lines are explained at most.
pub(crate) const MOST_LINES: usize = 20;

/// Appends the number of a line. What is said of the line follows it.
pub(crate) fn push_number(text: &mut String, number: usize) -> Result<(), AllocError> {
    write!(text, "line {number}: ")
}

/// Appends how many lines more are at fault than are explained, if there are any. So many are at fault in all.
pub(crate) fn push_remark(text: &mut String, count: usize) -> Result<(), AllocError> {
    match count.saturating_sub(MOST_LINES) {
        0 => Ok(()),
        1 => text.push_str("1 more line is at fault\n"),
        more => write!(text, "{more} more lines are at fault\n"),
    }
}

/// The line of this number, which is looked for from the first of these lines on. Those before it, and the line itself,
/// are taken from them. For a number that none of them has, it is an empty line.
pub(crate) fn line_of<'a>(left: &mut KeptLines<'a>, number: usize) -> KeptLine<'a> {
    while let Some(line) = left.next_line() {
        if line.number == number {
            return line;
        }
    }
    KeptLine { number, text: &[] }
}
