/// Sees the progress of an analysis.
pub trait Watcher {
    /// A piece is about to be settled. `level` is the level being tried, `place` the place of the piece in it, counted
    /// from 0, and `size` the number of pieces of the level. An analysis by several workers shows only the first piece
    /// of each level that it settles: the one at place 0, unless the first ones are known to be good.
    fn sees(&mut self, level: usize, place: usize, size: usize);
}

/// A watcher that does nothing.
#[derive(Drop)]
pub struct Unwatched;

impl Watcher for Unwatched {
    fn sees(&mut self, _level: usize, _place: usize, _size: usize) {}
}
