use ov_ids::{NodeId, OutOfMemory};

/// A part of a sentence.
#[derive(Clone, Copy)]
pub(crate) enum Part<'a> {
    Text(&'a str),
    Number(u64),
}

/// The number of a node.
pub(crate) fn node(id: NodeId) -> Part<'static> {
    Part::Number(u64::from(id.number()))
}

/// A place in a list, or how many there are.
pub(crate) fn count(number: usize) -> Part<'static> {
    Part::Number(number as u64)
}

/// Appends the sentence of these parts.
pub(crate) fn say(text: &mut String, parts: &[Part<'_>]) -> Result<(), OutOfMemory> {
    for part in parts {
        match part {
            Part::Text(said) => text.push_str(said)?,
            Part::Number(number) => write!(text, "{number}")?,
        }
    }
    Ok(())
}
