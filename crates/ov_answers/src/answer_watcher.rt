use ov_even::{Unwatched, Watcher};
use ov_ids::NodeId;

/// Sees the progress of an analysis, and how large the certificate file is that is written of it.
pub trait AnswerWatcher: Watcher {
    /// A certificate file is about to be written: of the answer nothing was written yet. Its paths have so many ids
    /// together, each path with both its ends; none is above `highest`. Told once, if there is an answer and its
    /// certificate file is asked for.
    fn writes(&mut self, ids: u64, highest: NodeId);
}

impl AnswerWatcher for Unwatched {
    fn writes(&mut self, _ids: u64, _highest: NodeId) {}
}
