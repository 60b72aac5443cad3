use ov_reasons::PacedClock;
use ov_run::RanLine;

/// Says on standard error which line of its file a run has done last, at the pace of `Pacing`.
#[derive(Drop)]
pub(crate) struct LineProgress<'a> {
    rt: &'a HostRuntime,
    clock: PacedClock<'a>,
    /// How many lines the file has.
    count: usize,
}

impl<'a> LineProgress<'a> {
    /// The progress of a run of a file of these bytes.
    pub(crate) fn new(rt: &'a HostRuntime, is_asked: bool, bytes: &[u8]) -> LineProgress<'a> {
        let clock = PacedClock::new(rt, is_asked);
        let count = if clock.is_wanted() {
            line_count(bytes)
        } else {
            0
        };
        LineProgress { rt, clock, count }
    }

    /// This line was done.
    pub(crate) fn sees(&mut self, line: &RanLine<'_>) {
        if !self.clock.is_due() {
            return;
        }
        let (number, count) = (line.number, self.count);
        let _ = eprintln!(self.rt; "line {number} of {count}");
    }
}

/// How many lines a file of these bytes has. Its last line need not end with a line feed.
fn line_count(bytes: &[u8]) -> usize {
    let ended = bytes.iter().filter(|byte| **byte == b'\n').count();
    match bytes.last() {
        None | Some(b'\n') => ended,
        Some(_) => ended.saturating_add(1),
    }
}
