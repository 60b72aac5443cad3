ghost use Rattle.std.specs.Prelude.{◌≡◌, ◌<◌, ◌+◌, length, OnOk};
ghost use Rattle.std.specs.Io.KnownBytes.{Appends};
ghost use Rattle.ov_io.specs.Device.{AppendsPrefixOf, most_faults, write_faults as sink_faults, write_number};
ghost use Rattle.ov_run_meaning.specs.Sections.{accepted_in, one_accepted, refused_in};
ghost use Rattle.ov_run.specs.Code.Jobs.{joined};
ghost use Rattle.ov_run.specs.Code.Outcomes.{first_refused, refusal_at, refused_of, rest_of};

use crate::run_watcher::RanLine;
use ov_ids::Seq;
use ov_io::{Sink, WriteFault};
use ov_run_meaning::{LineOutcome, Refusal, refused_line, together_line};
use std::io::Write;
use std::marker::Model;

/// What became of a line that ran.
#[derive(Drop)]
pub(crate) enum Came<'a> {
    /// The line is no block. If it was accepted, what it prints was written; if it was refused, nothing was.
    Alone(LineOutcome),
    /// The line is a block, whose sections ran. Nothing was written yet.
    Block(BlockTold<'a>),
}

/// What is told of a block whose sections ran: how many there are, the lines of each, and how many of all lines were
/// accepted and how many refused.
#[derive(Drop)]
pub(crate) struct BlockTold<'a> {
    pub sections: usize,
    pub told: Seq<Seq<ToldLine<'a>>>,
    pub accepted: u128,
    pub refused: u128,
}

/// A line of a section that ran, and what became of it.
#[derive(Drop)]
pub(crate) struct ToldLine<'a> {
    pub line: RanLine<'a>,
    pub outcome: LineOutcome,
}

impl<'a> Model for ToldLine<'a> {
    ghost use Rattle.ov_run_meaning.specs.Sections.{ToldLine};

    ghost Value = { ToldLine };

    ghost view = { λ t.
        record { number = t.line.number; text = t.line.text.now; is_event = t.line.is_event; outcome = t.outcome } };
}

impl<'a> Came<'a> {
    /// The first line that was refused, of a line with this number or of the lines of its sections, and why.
    pub(crate) fn refused(&self, number: usize) -> Option<(usize, Refusal)>
        ensures { result ≡ refused_of number self.now }
    {
        match self {
            Came::Alone(LineOutcome::Accepted) => None,
            Came::Alone(LineOutcome::Refused(refusal)) => Some((number, *refusal)),
            Came::Block(block) => first_refused(block.told.as_slice()),
        }
    }
}

/// Writes what is still to be written of a line that ran: the number of its refusal, or the line of a block. Nothing is
/// allocated, so only the writer can fail.
pub(crate) fn write_rest<W: Write>(came: &Came<'_>, sink: &mut Sink<W>) -> Result<(), WriteFault>
    requires faults { sink.old.faults < most_faults }
    ensures bytes { OnOk result
        (Appends (W.contents sink.old.writer) (W.contents sink.new.writer) (rest_of came.now)) }
    ensures prefix { AppendsPrefixOf (rest_of came.now) (W.contents sink.old.writer) (W.contents sink.new.writer) }
    ensures faults { sink.new.faults ≡ sink.old.faults + sink_faults write_number result }
{
    match came {
        Came::Alone(LineOutcome::Accepted) => Ok(()),
        Came::Alone(LineOutcome::Refused(refusal)) => {
            sink.write_all(refused_line(refusal.number()).as_str().as_bytes())
        }
        Came::Block(block) => {
            let line = together_line(block.sections, block.accepted, block.refused);
            sink.write_all(line.as_str().as_bytes())
        }
    }
}

/// The first of all these lines of sections that was refused, and why.
fn first_refused(told: &[Seq<ToldLine<'_>>]) -> Option<(usize, Refusal)>
    ensures { result ≡ first_refused (joined told.now) }
{
    for section in told {
        if let Some(first) = first_in_section(section.as_slice()) {
            return Some(first);
        }
    }
    None
}

/// The first of these lines of one section that was refused, and why.
fn first_in_section(told: &[ToldLine<'_>]) -> Option<(usize, Refusal)>
    ensures { result ≡ first_refused told.now }
{
    for one in told {
        if let Some(first) = one.refused() {
            return Some(first);
        }
    }
    None
}

impl<'a> ToldLine<'a> {
    /// If it was refused, its number, and why.
    fn refused(&self) -> Option<(usize, Refusal)>
        ensures { result ≡ refusal_at self.now.number self.now.outcome }
    {
        match self.outcome {
            LineOutcome::Accepted => None,
            LineOutcome::Refused(refusal) => Some((self.line.number, refusal)),
        }
    }

    /// 1 if it was accepted, otherwise 0.
    fn one_accepted(&self) -> usize
        ensures { result ≡ one_accepted self.now.outcome }
    {
        match self.outcome {
            LineOutcome::Accepted => 1,
            LineOutcome::Refused(_) => 0,
        }
    }
}

/// How many of these lines were accepted. The others were refused.
pub(crate) fn count_accepted(told: &[ToldLine<'_>]) -> usize
    ensures accepted { result ≡ accepted_in told.now }
    ensures others { result + refused_in told.now ≡ length told.now }
{
    let mut accepted = 0;
    for line in told {
        accepted += line.one_accepted();
    }
    accepted
}
