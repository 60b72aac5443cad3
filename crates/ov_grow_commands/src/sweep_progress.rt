use ov_reasons::PacedClock;

/// How many milliseconds a second has.
const MILLISECONDS: u64 = 1000;

/// Says on standard error how many runs of a sweep are done, and how long the others will take, at the pace of
/// `Pacing`.
#[derive(Drop)]
pub(crate) struct RunProgress<'a> {
    rt: &'a HostRuntime,
    clock: PacedClock<'a>,
}

impl<'a> RunProgress<'a> {
    /// The progress of a sweep that begins now.
    pub(crate) fn new(rt: &'a HostRuntime, is_asked: bool) -> RunProgress<'a> {
        RunProgress {
            rt,
            clock: PacedClock::new(rt, is_asked),
        }
    }

    /// So many of all runs are done.
    pub(crate) fn sees(&mut self, done: u64, count: u64) {
        let Some(passed) = self.clock.passed_if_due() else {
            return;
        };
        let left = seconds_left(passed, done, count);
        let _ = eprintln!(self.rt; "run {done} of {count}, {left} s left");
    }
}

/// How many seconds the other runs take, if each takes as long as those that are done took.
fn seconds_left(passed: u64, done: u64, count: u64) -> u64 {
    let left = count.saturating_sub(done);
    passed.saturating_mul(left) / done.max(1) / MILLISECONDS
}
