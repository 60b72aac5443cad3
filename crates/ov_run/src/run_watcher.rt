use ov_run_meaning::Refusal;
use ov_snap::Core;

/// A line of a scenario file that ran.
#[derive(Clone, Copy, Debug)]
pub struct RanLine<'a> {
    /// Its number among all lines of the file. These are counted from 1.
    pub number: usize,
    /// Its text, without its line feed and one carriage return before that.
    pub text: &'a [u8],
    /// Whether it is an event.
    pub is_event: bool,
}

/// Sees what became of each line that ran, after what the line prints was given to the writer. It changes neither the
/// run nor what is printed. A block of sections is told as one line, which is always done; then each line of its
/// sections is told, section by section, and those of one section in order. Where a strict run ends, nothing is printed
/// of the line that was refused, nor of a block that has it, and they are told all the same.
pub trait RunWatcher {
    /// This line was done: its event happened, its report was filed, what it looks at was given to the writer, or the
    /// sections of its block ran.
    fn accepted(&mut self, line: &RanLine<'_>);

    /// This line was refused. The core is as the line found it.
    fn refused(&mut self, core: &Core, line: &RanLine<'_>, refusal: Refusal);

    /// This line of a section was refused. The core that refused it has been stepped since, so it is not at hand.
    fn refused_in_section(&mut self, line: &RanLine<'_>, refusal: Refusal);
}

/// A watcher that does nothing.
#[derive(Drop)]
pub(crate) struct Unwatched;

impl RunWatcher for Unwatched {
    fn accepted(&mut self, _line: &RanLine<'_>) {}

    fn refused(&mut self, _core: &Core, _line: &RanLine<'_>, _refusal: Refusal) {}

    fn refused_in_section(&mut self, _line: &RanLine<'_>, _refusal: Refusal) {}
}
