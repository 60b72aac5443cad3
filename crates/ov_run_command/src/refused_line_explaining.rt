use ov_arguments::RunRequest;
use ov_ids::OutOfMemory;
use ov_reasons::{core_refusal_reason, count_line, refusal_line, world_refusal_reason};
use ov_run::{RanLine, RunWatcher};
use ov_run_meaning::Refusal;
use ov_snap::Core;
use std::io::IsTerminal;

/// Prints on standard error why a run refuses a line, and at its end how many events happened and how many were
/// refused, if that is wanted. Why a strict run ended is said at its end, below its fault. Prints nothing if an
/// allocation for it is refused.
#[derive(Drop)]
pub(crate) struct Explaining<'a> {
    rt: &'a HostRuntime,
    run: RunRequest,
    /// What is to be said at the end.
    kept: String,
    /// How many events happened, and how many were refused.
    accepted: u64,
    refused: u64,
    /// How many lines were refused, events or not.
    refused_lines: u64,
}

impl<'a> Explaining<'a> {
    /// A watcher of a run.
    pub(crate) fn new(rt: &'a HostRuntime, run: RunRequest) -> Explaining<'a> {
        Explaining {
            rt,
            run,
            kept: String::new(rt.alloc()),
            accepted: 0,
            refused: 0,
            refused_lines: 0,
        }
    }

    /// Prints why a strict run ended, and if that is wanted, how many events happened, and how many were refused. A
    /// person at a terminal who does not want it is told how many lines were refused, and how to ask why.
    pub(crate) fn tell_end(&self) {
        let (kept, refused) = (self.kept.as_str(), self.refused_lines);
        let _ = eprint!(self.rt; "{kept}");
        if self.run.explain {
            self.print(count_line(self.rt.alloc(), self.accepted, self.refused));
        } else if kept.is_empty() && refused > 0 && self.rt.stderr().is_terminal() {
            let _ = eprintln!(self.rt;
                "refused lines: {refused}; `overlay run --explain` says why"
            );
        }
    }

    /// Counts a line that was refused, and whether it is an event.
    fn count_refused(&mut self, line: &RanLine<'_>) {
        self.refused_lines = self.refused_lines.saturating_add(1);
        if line.is_event {
            self.refused = self.refused.saturating_add(1);
        }
    }

    /// Whether it is to be said why a line is refused: of each if the run is explained, of the first in a strict run.
    fn is_wanted(&self) -> bool {
        self.run.explain || (self.run.strict && self.kept.is_empty())
    }

    /// Prints what is said of a refused line. A strict run keeps it until its fault has been printed.
    fn say(&mut self, said: Result<String, OutOfMemory>) {
        if !self.run.strict {
            self.print(said);
        } else if let Ok(text) = said {
            let _ = self.kept.push_str(text.as_str());
        }
    }

    /// What is printed of a line that was refused.
    fn reason(
        &self,
        core: &Core,
        line: &RanLine<'_>,
        refusal: Refusal,
    ) -> Result<String, OutOfMemory> {
        let alloc = self.rt.alloc();
        let reason = match refusal {
            Refusal::World(fault) => world_refusal_reason(alloc, core, line.text, fault)?,
            Refusal::Core(fault) => core_refusal_reason(alloc, core, line.text, fault)?,
        };
        refusal_line(alloc, line.number, &reason)
    }

    /// What is printed of a line of a section that was refused: the fault's own words, since the core that refused the
    /// line is not at hand.
    fn section_reason(&self, line: &RanLine<'_>, refusal: Refusal) -> Result<String, OutOfMemory> {
        let alloc = self.rt.alloc();
        let reason = match refusal {
            Refusal::World(fault) => fault.to_string(alloc)?,
            Refusal::Core(fault) => fault.to_string(alloc)?,
        };
        refusal_line(alloc, line.number, &reason)
    }

    /// Prints what is said of a line, if there was memory for it.
    fn print(&self, said: Result<String, OutOfMemory>) {
        if let Ok(text) = said {
            let _ = eprint!(self.rt; "{text}");
        }
    }
}

impl<'a> RunWatcher for Explaining<'a> {
    fn accepted(&mut self, line: &RanLine<'_>) {
        if line.is_event {
            self.accepted = self.accepted.saturating_add(1);
        }
    }

    fn refused(&mut self, core: &Core, line: &RanLine<'_>, refusal: Refusal) {
        self.count_refused(line);
        if self.is_wanted() {
            self.say(self.reason(core, line, refusal));
        }
    }

    fn refused_in_section(&mut self, line: &RanLine<'_>, refusal: Refusal) {
        self.count_refused(line);
        if self.is_wanted() {
            self.say(self.section_reason(line, refusal));
        }
    }
}
