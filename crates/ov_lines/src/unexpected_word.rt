/// Why a line can't be read: at a place of it there is something other than what may be there.
#[derive(Clone, Copy, Debug, PartialEq, Eq)]
pub struct Unread {
    /// Where the word that is at fault begins, in bytes from the beginning of the line; the length of the line if it
    /// ends too early.
    pub at: usize,
    /// What may be there.
    pub wanted: &'static [Kind],
}

/// What may be at a place of a line.
#[derive(Clone, Copy, Debug, PartialEq, Eq)]
pub enum Kind {
    /// The name of a line, which is its first word.
    LineName,
    /// This word.
    Name(&'static str),
    /// A number of 32 bits. The text says what it is.
    Short(&'static str),
    /// A number of 64 bits. The text says what it is.
    Long(&'static str),
    /// A number from the first to the second.
    Within(u64, u64),
    /// Ids of nodes, with one comma between two.
    Ids,
    /// The first of 1 to 64 random words.
    RandomWord,
    /// A further random word.
    FurtherWord,
    /// No further word.
    End,
    /// No further word, since the line has the most words that it may have.
    Full,
}

/// The id of a node.
pub const ID: Kind = Kind::Short("the id of a node");

/// No further word.
pub const END: &[Kind] = &[Kind::End];
