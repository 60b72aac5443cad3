use crate::line_and_mark::push_marked_word;
use crate::line_number_and_remaining_count::{MOST_LINES, line_of, push_number, push_remark};
use crate::parameter_limit_texts::push_out_of_limits;
use crate::unread_line_texts::push_unread;
use ov_ids::OutOfMemory;
use ov_lines::{KeptLine, KeptLines};
use ov_scenario::{FaultyLine, FaultyLines, LineFault, faulty_lines, line_names};
use std::alloc::{AllocError, Global};
use std::fmt::Write;

/// What is wrong with the lines at fault of a scenario file of these bytes. The first 20 are explained, and the others
/// counted. What is said of a line begins with its number and ends with the line and a mark under the word at fault.
/// OutOfMemory (99) if an allocation is refused.
pub fn scenario_reasons(alloc: Global, bytes: &[u8]) -> Result<String, OutOfMemory> {
    let mut text = String::new(alloc);
    let faulty = faulty_lines(alloc, bytes, MOST_LINES)?;
    push_faulty_lines(alloc, &mut text, bytes, &faulty)?;
    Ok(text)
}

/// Appends what is wrong with these lines of a file, which are passed over once.
fn push_faulty_lines(
    alloc: Global,
    text: &mut String,
    bytes: &[u8],
    faulty: &FaultyLines,
) -> Result<(), AllocError> {
    let mut left = KeptLines::new(bytes);
    for FaultyLine { line, fault } in faulty.first.iter() {
        push_number(text, *line)?;
        push_fault(alloc, text, &line_of(&mut left, *line), fault)?;
    }
    push_remark(text, faulty.count)
}

/// Appends what is wrong with a line, and the line with a mark.
fn push_fault(
    alloc: Global,
    text: &mut String,
    line: &KeptLine<'_>,
    fault: &LineFault,
) -> Result<(), AllocError> {
    match fault {
        LineFault::Unread(unread) => push_unread(alloc, text, line_names(), line, unread),
        LineFault::OutOfLimits(parameters) => push_out_of_limits(text, line.text, parameters),
        _ => {
            push_misplaced(text, fault)?;
            push_marked_word(text, line.text, 0)
        }
    }
}

/// Appends what is wrong with the place of a line.
fn push_misplaced(text: &mut String, fault: &LineFault) -> Result<(), AllocError> {
    match fault {
        LineFault::BehindEvent { setting, event } => {
            let name = setting.name();
            write!(
                text,
                "`{name}` must come before any event, and line {event} is one"
            )
        }
        LineFault::SetBefore { setting, line } => {
            let name = setting.name();
            write!(text, "`{name}` may occur once, and is on line {line} too")
        }
        LineFault::NoEventNext { next } => push_no_event(text, *next),
        LineFault::NoEnd
        | LineFault::NotInSection
        | LineFault::TooManySections { .. }
        | LineFault::NotHeld { .. } => push_section_fault(text, fault),
        LineFault::Unread(_) | LineFault::OutOfLimits(_) => Ok(()),
    }
}

/// Appends what is wrong with a line that begins or ends sections, or stands in one.
fn push_section_fault(text: &mut String, fault: &LineFault) -> Result<(), AllocError> {
    match fault {
        LineFault::NoEnd => text.push_str("its sections have no `end`"),
        LineFault::NotInSection => text.push_str(
            "it must come after a `together` that has no `end` yet",
        ),
        LineFault::TooManySections { together } => write!(
            text,
            "a block has at most 64 sections, and the one that begins on line {together} has as many"
        ),
        LineFault::NotHeld { together } => write!(
            text,
            "a section holds events and `analyse M` alone, and line {together} begins sections"
        ),
        _ => Ok(()),
    }
}

/// Appends that random words come before a line of this number, which is no event, or before the end of the file.
fn push_no_event(text: &mut String, next: Option<usize>) -> Result<(), AllocError> {
    text.push_str("random words must come right before an event, and ")?;
    match next {
        Some(next) => write!(text, "line {next} is no event"),
        None => text.push_str("no line follows"),
    }
}
