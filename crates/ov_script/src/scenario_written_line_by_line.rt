ghost use Rattle.std.specs.Prelude.{◌≡◌, ◌≤◌, ◌++◌, [], ◌∷◌, None, IfOk, OnOk, OnErr};
ghost use Rattle.ov_scenario.specs.Scenarios.{IsScenario};
ghost use Rattle.ov_scenario.specs.declared.scenario.Line.TheVariants as line;
ghost use Rattle.ov_script.specs.Acts.{act_line, event_of};
ghost use Rattle.ov_script.specs.Scripts.{opening, scenario_of};
ghost use Rattle.ov_script.specs.WrittenLines.{analysis_line, comment_line, ended};

use crate::line_to_write::KeptLine;
use crate::line_writing::{opening_text, short_numbers, write_lines};
use crate::recordable_event::Act;
use ov_ids::{OutOfMemory, Params, Seq};
use ov_words::Words;
use rand_core::SeedableRng;
use rand_pcg::Pcg64;
use std::alloc::Global;
use std::marker::Model;

/// A scenario that is made line by line. It keeps its lines, and its text is written when it is asked for. The text
/// says at any time a scenario whose lines to run are those that were added, each event with the next random words that
/// the seed gives. Contracts see it as `ScriptState`. (Chosen here.)
#[derive(Drop)]
pub struct Script {
    params: Params,
    seed: u64,
    heading: Seq<u8>,
    lines: Vec<KeptLine>,
    next: Words,
    generator: Pcg64,
}

impl Model for Script {
    ghost use Rattle.std.specs.Prelude.{◌-◌, length};
    ghost use Rattle.ov_script.specs.Scripts.{ScriptState};
    ghost use Rattle.rand_core.specs.Steps.{stream_of, steps_u64_low};
    ghost use Rattle.rand_pcg.specs.Pcg.{pcg64};
    ghost use Rattle.ov_script.specs.Code.Kept.{IsScript, lines_of, text_of};

    ghost Value = { ScriptState };

    ghost view = { λ s. record {
      params = s.params;
      seed = s.seed;
      text = text_of s.heading s.params s.seed s.lines.items;
      lines = lines_of s.seed (text_of s.heading s.params s.seed s.lines.items);
      next = s.next;
      room = s.lines.cap - length s.lines.items;
    } };

    ghost invariant = { λ s. IsScript (text_of s.heading s.params s.seed s.lines.items) s.params s.seed s.next
        (stream_of (steps_u64_low pcg64) s.generator) };
}

impl Script {
    /// A script without a line to run: the heading as a comment, the parameters, the seed of the random words of all
    /// events, and the rule at DISCONNECT and the scale unless they are the profile's. OutOfMemory (99) is returned if
    /// an allocation was refused.
    pub fn new(
        alloc: Global,
        params: Params,
        seed: u64,
        heading: &str,
    ) -> Result<Script, OutOfMemory>
        ensures params { IfOk result (λ script. script.params ≡ params) }
        ensures seed { IfOk result (λ script. script.seed ≡ seed) }
        ensures text { IfOk result (λ script. script.text ≡ opening heading.now params seed) }
        ensures lines { IfOk result (λ script. script.lines ≡ []) }
    {
        let heading = Seq::new(Vec::from_slice(alloc, heading.as_bytes())?);
        let _limits = params.active();
        let mut generator = Pcg64::seed_from_u64(seed);
        let next = Words::from_pcg(&mut generator);
        Ok(Script {
            params,
            seed,
            heading,
            lines: Vec::new(alloc),
            next,
            generator,
        })
    }

    /// The random words that the scenario gives to its next event.
    pub fn next_words(&self) -> &Words
        ensures { result.now ≡ self.now.next }
    {
        &self.next
    }

    /// The seed. The text says a scenario with it, with the script's parameters, and with its lines to run.
    pub fn seed(&self) -> u64
        ensures value { result ≡ self.now.seed }
        ensures says { IsScenario self.now.text (scenario_of self.now) }
    {
        self.seed
    }

    /// Makes room for one line more. OutOfMemory (99) if an allocation is refused; all is the same then. Otherwise
    /// nothing but the room changes.
    pub fn reserve(&mut self) -> Result<(), OutOfMemory>
        ensures room { OnOk result (1 ≤ self.new.room) }
        ensures same { self.new ≡ record self.old { room = self.new.room } }
        ensures err { OnErr result (self.new ≡ self.old) }
    {
        self.lines.reserve(1)?;
        Ok(())
    }

    /// Adds the line of an act, for which there must be room. The scenario then has one event more, with the random
    /// words that came next.
    pub fn push(&mut self, act: Act)
        requires room { 1 ≤ self.old.room }
        ensures text { self.new.text ≡ self.old.text ++ ended (act_line act) }
        ensures lines { self.new.lines ≡ self.old.lines ++ line.Event (event_of act) self.old.next ∷ [] }
        ensures params { self.new.params ≡ self.old.params }
        ensures seed { self.new.seed ≡ self.old.seed }
    {
        short_numbers(&act);
        self.lines.push_reserved(KeptLine::Act(act));
        self.next.refill(&mut self.generator);
    }

    /// Adds the line that analyses a moment, for all nodes and by one worker. There must be room for it.
    pub fn push_analysis(&mut self, moment: u32)
        requires room { 1 ≤ self.old.room }
        ensures text { self.new.text ≡ self.old.text ++ ended (analysis_line moment) }
        ensures lines { self.new.lines
            ≡ self.old.lines ++ line.Analyse (record { moment = moment; group = None }) 1 ∷ [] }
        ensures params { self.new.params ≡ self.old.params }
        ensures seed { self.new.seed ≡ self.old.seed }
        ensures next { self.new.next ≡ self.old.next }
    {
        self.lines.push_reserved(KeptLine::Analysis(moment));
    }

    /// Adds a comment that says this, on one line: a line feed and a carriage return in it become spaces. OutOfMemory
    /// (99) if an allocation is refused; all is the same then.
    pub fn comment(&mut self, alloc: Global, said: &str) -> Result<(), OutOfMemory>
        ensures text { OnOk result (self.new.text ≡ self.old.text ++ ended (comment_line said.now)) }
        ensures lines { self.new.lines ≡ self.old.lines }
        ensures params { self.new.params ≡ self.old.params }
        ensures seed { self.new.seed ≡ self.old.seed }
        ensures next { self.new.next ≡ self.old.next }
        ensures err { OnErr result (self.new ≡ self.old) }
    {
        let said = Seq::new(Vec::from_slice(alloc, said.as_bytes())?);
        self.lines.reserve(1)?;
        self.lines.push_reserved(KeptLine::Comment(said));
        Ok(())
    }

    /// The text so far. It says the scenario with these parameters, this seed and these lines to run. OutOfMemory (99)
    /// is returned if an allocation was refused.
    pub fn text(&self, alloc: Global) -> Result<Vec<u8>, OutOfMemory>
        ensures value { IfOk result (λ text. text.items ≡ self.now.text) }
        ensures says { IfOk result (λ text. IsScenario text.items (scenario_of self.now)) }
    {
        let mut text = opening_text(alloc, self.heading.as_slice(), self.params, self.seed)?;
        write_lines(&mut text, &self.lines)?;
        Ok(text)
    }
}
