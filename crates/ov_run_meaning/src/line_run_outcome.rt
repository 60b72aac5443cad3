use crate::refusal::Refusal;

/// What became of a line that ran, and is no block.
#[derive(Clone, Copy, Debug, PartialEq, Eq)]
pub enum LineOutcome {
    /// Its event happened, its report was filed, or what it looks at was written.
    Accepted,
    /// It was refused, and changed nothing.
    Refused(Refusal),
}
