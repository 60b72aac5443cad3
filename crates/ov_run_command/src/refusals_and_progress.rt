use crate::line_progress::LineProgress;
use crate::refused_line_explaining::Explaining;
use ov_arguments::RunRequest;
use ov_run::{RanLine, RunWatcher};
use ov_run_meaning::Refusal;
use ov_snap::Core;

/// Prints on standard error what is asked of a run besides its lines: why lines are refused, and how far it has come.
#[derive(Drop)]
pub(crate) struct RunNews<'a> {
    explaining: Explaining<'a>,
    progress: LineProgress<'a>,
}

impl<'a> RunNews<'a> {
    /// A watcher of a run of a file of these bytes.
    pub(crate) fn new(rt: &'a HostRuntime, run: RunRequest, bytes: &[u8]) -> RunNews<'a> {
        RunNews {
            explaining: Explaining::new(rt, run),
            progress: LineProgress::new(rt, run.progress, bytes),
        }
    }

    /// Prints what is still to be said at the end: why lines were refused at which a strict run ended; and if the run
    /// is explained, how many events happened, and how many were refused.
    pub(crate) fn tell_end(&self) {
        self.explaining.tell_end();
    }
}

impl<'a> RunWatcher for RunNews<'a> {
    fn accepted(&mut self, line: &RanLine<'_>) {
        self.explaining.accepted(line);
        self.progress.sees(line);
    }

    fn refused(&mut self, core: &Core, line: &RanLine<'_>, refusal: Refusal) {
        self.explaining.refused(core, line, refusal);
        self.progress.sees(line);
    }

    fn refused_in_section(&mut self, line: &RanLine<'_>, refusal: Refusal) {
        self.explaining.refused_in_section(line, refusal);
        self.progress.sees(line);
    }
}
