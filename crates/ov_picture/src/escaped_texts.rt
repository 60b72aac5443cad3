use std::alloc::AllocError;

/// Appends a text as XML and SVG want it. Characters that XML does not allow are shown as U+FFFD.
pub(crate) fn push_xml(text: &mut String, part: &str) -> Result<(), AllocError> {
    for c in part.chars() {
        match c {
            '&' => text.push_str("&amp;")?,
            '<' => text.push_str("&lt;")?,
            '>' => text.push_str("&gt;")?,
            '"' => text.push_str("&quot;")?,
            '\'' => text.push_str("&apos;")?,
            '\u{fffe}' | '\u{ffff}' => text.push('\u{fffd}')?,
            c => text.push(c)?,
        }
    }
    Ok(())
}

/// Appends a text as DOT wants it between quotes in a label. DOT reads `&` as the begin of a character's name.
pub(crate) fn push_dot(text: &mut String, part: &str) -> Result<(), AllocError> {
    for c in part.chars() {
        match c {
            '"' => text.push_str("\\\"")?,
            '\\' => text.push_str("\\\\")?,
            '&' => text.push_str("&amp;")?,
            c => text.push(c)?,
        }
    }
    Ok(())
}
