use crate::large_certificate_note::tell_size;
use ov_answers::AnswerWatcher;
use ov_even::Watcher;
use ov_ids::NodeId;
use ov_reasons::PacedClock;

/// Says on standard error which piece an analysis has come to, at the pace of `Pacing`; and, also where progress is not
/// asked for, how large its certificate is, if that is large.
#[derive(Drop)]
pub(crate) struct PieceProgress<'a> {
    rt: &'a HostRuntime,
    clock: PacedClock<'a>,
}

impl<'a> PieceProgress<'a> {
    pub(crate) fn new(rt: &'a HostRuntime, is_asked: bool) -> PieceProgress<'a> {
        PieceProgress {
            rt,
            clock: PacedClock::new(rt, is_asked),
        }
    }
}

impl<'a> Watcher for PieceProgress<'a> {
    fn sees(&mut self, level: usize, place: usize, size: usize) {
        if !self.clock.is_due() {
            return;
        }
        let piece = place.saturating_add(1);
        let _ = eprintln!(self.rt; "level {level}: piece {piece} of {size}");
    }
}

impl<'a> AnswerWatcher for PieceProgress<'a> {
    fn writes(&mut self, ids: u64, highest: NodeId) {
        tell_size(self.rt, ids, highest);
    }
}
