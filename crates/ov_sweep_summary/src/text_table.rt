use std::alloc::{AllocError, Global};

/// Ends a line of a table that is to be laid out: behind each text but the last of a line stands a tab, and behind a
/// line a line feed. The tab behind the last text goes.
pub(crate) fn end_line(lines: &mut String) -> Result<(), AllocError> {
    let _tab = lines.pop();
    lines.push('\n')
}

/// Appends a table of texts, line by line. The texts of a column end below one another; those of the last column begin
/// so.
pub(crate) fn push_table(alloc: Global, text: &mut String, lines: &str) -> Result<(), AllocError> {
    let widths = widths_of(alloc, lines)?;
    for line in lines.split('\n') {
        if !line.is_empty() {
            push_line(text, line, &widths)?;
        }
    }
    Ok(())
}

/// How many characters the widest text of each column has.
fn widths_of(alloc: Global, lines: &str) -> Result<Vec<usize>, AllocError> {
    let mut widths = Vec::new(alloc);
    for line in lines.split('\n') {
        widen(&mut widths, line)?;
    }
    Ok(widths)
}

/// Makes columns as wide as the texts of a line.
fn widen(widths: &mut Vec<usize>, line: &str) -> Result<(), AllocError> {
    for (place, text) in line.split('\t').enumerate() {
        match widths.get_mut(place) {
            Some(width) => *width = text.len().max(*width),
            None => widths.push(text.len())?,
        }
    }
    Ok(())
}

/// Appends a line: each text but the last is filled up with spaces before it.
fn push_line(text: &mut String, line: &str, widths: &[usize]) -> Result<(), AllocError> {
    let last = widths.len().saturating_sub(1);
    for (place, cell) in line.split('\t').enumerate() {
        if place < last {
            push_spaces(text, cell.len(), widths[place])?;
        }
        text.push_str(cell)?;
        text.push_str(if place < last { "  " } else { "\n" })?;
    }
    Ok(())
}

/// Appends a space for each character that a text is narrower than its column.
fn push_spaces(text: &mut String, narrow: usize, wide: usize) -> Result<(), AllocError> {
    for _ in narrow..wide {
        text.push(' ')?;
    }
    Ok(())
}
