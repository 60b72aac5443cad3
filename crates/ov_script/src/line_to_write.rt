use crate::recordable_event::Act;
use ov_ids::Seq;

/// A line of a script, which is written when the text is asked for.
#[derive(Drop)]
pub(crate) enum KeptLine {
    /// The line of an act.
    Act(Act),
    /// The line that analyses this moment.
    Analysis(u32),
    /// The comment that says this.
    Comment(Seq<u8>),
}
