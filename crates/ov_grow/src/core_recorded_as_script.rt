ghost use Rattle.std.specs.Prelude.{◌≡◌, ◌≤◌, ◌++◌, [], length, IfOk, IfErr, OnOk, OnErr};
ghost use Rattle.ov_ids.specs.FaultOrder.{IsRefusedBy};
ghost use Rattle.ov_net.specs.Refusals.{IsRefusal};
ghost use Rattle.ov_net.specs.declared.journal_entry_and_changes.Entry.{Entry};
ghost use Rattle.ov_scenario.specs.Scenarios.{IsScenario};
ghost use Rattle.ov_scenario.specs.declared.scenario.Line.TheVariants as line;
ghost use Rattle.ov_snap.specs.CoreState.{opening_core};
ghost use Rattle.ov_snap.specs.ReportState.{ReportState};
ghost use Rattle.ov_snap.specs.Run.{Happened};
ghost use Rattle.ov_snap.specs.declared.refused_core_call.CoreFault.TheVariants.{OutOfMemory as out_of_memory};
ghost use Rattle.ov_run_meaning.specs.Subjects.{AnalysisJudged, WasAnalysed};
ghost use Rattle.ov_script.specs.Acts.{act_line, event_of};
ghost use Rattle.ov_script.specs.Scripts.{opening, scenario_of};
ghost use Rattle.ov_script.specs.WrittenLines.{analysis_line, comment_line, ended};
ghost use Rattle.ov_grow.specs.Recordings.{HasOneLineMore, all_of, without_room};
ghost use Rattle.ov_grow.specs.Replay.{Replays};

use crate::report_making::report_of;
use ov_ids::{OutOfMemory, Params};
use ov_net::{Event, NetFault};
use ov_script::{Act, Script};
use ov_snap::{Core, CoreFault};
use std::alloc::Global;
use std::marker::Model;

/// A core, and the script that makes it: each event and each analysis that is accepted is a line of it. So its text,
/// which is written when it is asked for, replays the core at any time. Contracts see it as a `RecordingState`. Chosen
/// here.
pub struct Recording {
    alloc: Global,
    script: Script,
    core: Core,
}

/// The script of a recording, and its core.
#[derive(Drop)]
pub struct Recorded {
    pub script: Script,
    pub core: Core,
}

impl Drop for Recording {
    /// Drops the parts. It is written by hand since a call is proved faster than the same drops at each exit.
    fn drop(self) {
        let Recording {
            alloc: _,
            script: _,
            core: _,
        } = self;
    }
}

impl Model for Recording {
    ghost use Rattle.ov_grow.specs.Recordings.{RecordingState};
    ghost use Rattle.ov_grow.specs.Code.KeptRecording.{MadeBy, recording_code, recording_of};

    ghost Value = { RecordingState };

    ghost coded = { recording_code };

    ghost view = { λ r. recording_of r.script r.core };

    ghost invariant = { λ r. MadeBy r.script r.core };
}

impl Recording {
    /// A recording in which nothing happened: the script has the heading as a comment, the parameters, the seed and the
    /// rule at DISCONNECT, and no line to run. OutOfMemory (99) is returned if an allocation was refused.
    pub fn new(
        alloc: Global,
        params: Params,
        seed: u64,
        heading: &str,
    ) -> Result<Recording, OutOfMemory>
        ensures params { IfOk result (λ r. r.script.params ≡ params) }
        ensures seed { IfOk result (λ r. r.script.seed ≡ seed) }
        ensures text { IfOk result (λ r. r.script.text ≡ opening heading.now params seed) }
        ensures lines { IfOk result (λ r. r.script.lines ≡ []) }
        ensures core { IfOk result (λ r. r.core ≡ opening_core params) }
    {
        let script = Script::new(alloc, params, seed, heading)?;
        let core = Core::new(alloc, params);
        Ok(Recording {
            alloc,
            script,
            core,
        })
    }

    /// The core that the lines made.
    pub fn core(&self) -> &Core
        ensures { result.now ≡ self.now.core }
    {
        &self.core
    }

    /// Adds a comment that says this, on one line: a line feed and a carriage return in it become spaces. Nothing else
    /// changes. OutOfMemory (99) if an allocation is refused; all is the same then.
    pub fn comment(&mut self, said: &str) -> Result<(), OutOfMemory>
        ensures said { OnOk result (self.new ≡ record self.old {
          script = record self.old.script { text = self.old.script.text ++ ended (comment_line said.now) };
        }) }
        ensures err { OnErr result (self.new ≡ self.old) }
    {
        self.script.comment(self.alloc, said)
    }

    /// Takes the event of an act, with the next random words of the script, and adds the line of the act. The event's
    /// entry is the last of the journal then. It is refused for the first applicable refusal of the world (10 to 20,
    /// see `NetFault`), or it is out of memory (99) if none applies. What is refused changes nothing, and no line is
    /// added.
    pub fn act(&mut self, act: Act) -> Result<(), NetFault>
        ensures happened { OnOk result
            ((e : Entry) × Happened self.old.core (event_of act) self.old.script.next e self.new.core) }
        ensures written { OnOk result (HasOneLineMore self.old.script (act_line act)
            (line.Event (event_of act) self.old.script.next) self.new.script) }
        ensures refused { IfErr result
            (λ f. IsRefusal self.old.core.world.net (length self.old.core.world.journal) (event_of act) f) }
        ensures err { OnErr result (self.new ≡ self.old) }
    {
        let event = act.event(self.alloc);
        make_room(&mut self.script, &self.core, &event)?;
        self.core.take_event(event, self.script.next_words())?;
        self.script.push(act);
        Ok(())
    }

    /// Analyses all nodes of a moment by one worker, files the report, and adds the line of the analysis. It is refused
    /// if no snapshot was taken at this moment (50), then if nobody lived (30), and then if a report of all its
    /// nodes is filed (52); if none applies, it may be out of memory (99). What is refused changes nothing, and no line
    /// is added.
    pub fn analyse(&mut self, moment: u32) -> Result<(), CoreFault>
        ensures analysed { OnOk result
            ((r : ReportState) × WasAnalysed self.old.core (all_of moment) r self.new.core) }
        ensures written { OnOk result (HasOneLineMore self.old.script (analysis_line moment)
            (line.Analyse (all_of moment) 1) self.new.script) }
        ensures next { self.new.script.next ≡ self.old.script.next }
        ensures refused { IfErr result (IsRefusedBy out_of_memory (AnalysisJudged self.old.core (all_of moment))) }
        ensures err { OnErr result (self.new ≡ self.old) }
    {
        let report = report_of(self.alloc, &self.core, moment)?;
        self.script.reserve()?;
        self.core.file(report)?;
        self.script.push_analysis(moment);
        Ok(())
    }

    /// The script so far. Its text says a scenario with its parameters, its seed and its lines to run, and replays the
    /// core.
    pub fn script(&self) -> &Script
        ensures value { without_room result.now ≡ self.now.script }
        ensures says { IsScenario self.now.script.text (scenario_of self.now.script) }
        ensures replays { Replays self.now.script.text self.now.core }
    {
        let _seed = self.script.seed();
        &self.script
    }

    /// The script, whose text says the same scenario and replays the core, and the core.
    pub fn finish(self) -> Recorded
        ensures script { without_room result.script ≡ self.script }
        ensures core { result.core ≡ self.core }
        ensures replays { Replays result.script.text result.core }
    {
        let Recording {
            alloc: _,
            script,
            core,
        } = self;
        let _seed = script.seed();
        Recorded { script, core }
    }
}

/// Makes room in a script for one line more. Where memory is lacking, the answer is the first applicable refusal of an
/// event, or out of memory (99) if none applies. Nothing but the room changes.
fn make_room(script: &mut Script, core: &Core, event: &Event) -> Result<(), NetFault>
    ensures room { OnOk result (1 ≤ script.new.room) }
    ensures same { script.new ≡ record script.old { room = script.new.room } }
    ensures refused { IfErr result (IsRefusal core.now.world.net (length core.now.world.journal) event.now) }
{
    match script.reserve() {
        Ok(()) => Ok(()),
        Err(OutOfMemory) => Err(refusal_of(core, event)),
    }
}

/// The first applicable refusal of an event, or out of memory if none applies.
fn refusal_of(core: &Core, event: &Event) -> NetFault
    ensures { IsRefusal core.now.world.net (length core.now.world.journal) event.now result }
{
    match core.world().judge(event) {
        Ok(()) => NetFault::OutOfMemory,
        Err(fault) => fault,
    }
}
