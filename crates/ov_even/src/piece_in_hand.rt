/// What a worker has in hand.
#[derive(Clone, Copy, Debug, PartialEq, Eq)]
pub enum Hand {
    /// Nothing. The worker claims next, or has ended.
    Nothing,
    /// The number of a claimed piece. The worker looks next.
    Claimed(u64),
    /// The number of a piece. The worker has looked, and settles the piece next.
    Looked(u64),
}
