ghost use Rattle.std.specs.Prelude.{◌≡◌, ◌∷◌, ◌++◌, [], List, IfOk, OnOk};
ghost use Rattle.ov_scenario.specs.Scenarios.{AreFirstFaulty, AreFirstOf};
ghost use Rattle.ov_scenario.specs.declared.scenario_fault.FaultyLine.{FaultyLine as Faulty};

use crate::judged_line_iterator::Judging;
use crate::scenario_fault::FaultyLine;
use ov_ids::OutOfMemory;
use std::alloc::Global;

/// Lines of a scenario file that are at fault: the first of them, and how many there are.
#[derive(Drop)]
pub struct FaultyLines {
    /// The first of them, in order.
    pub first: Vec<FaultyLine>,
    /// How many there are in all.
    pub count: usize,
}

impl FaultyLines {
    /// No line is at fault. Nothing is allocated.
    fn none(alloc: Global) -> FaultyLines
        ensures first { result.first.items ≡ [] }
        ensures count { result.count ≡ 0 }
    {
        FaultyLines {
            first: Vec::new(alloc),
            count: 0,
        }
    }

    /// Counts one line more, which comes after these, and keeps it unless `most` are kept.
    fn add(&mut self, line: FaultyLine, most: usize) -> Result<(), OutOfMemory>
        ensures { OnOk result ((all : List Faulty) → AreFirstOf most all self.old
            → AreFirstOf most (all ++ line ∷ []) self.new) }
    {
        if self.first.len() < most {
            self.first.push(line)?;
        }
        self.count = self.count.saturating_add(1);
        Ok(())
    }
}

/// The lines of a scenario file that are at fault: the first of them, in order and `most` at most, and how many there
/// are. If there is one, the first is that of `read_scenario`. Only those that are returned are kept. OutOfMemory (99)
/// is returned if an allocation was refused.
pub fn faulty_lines(alloc: Global, bytes: &[u8], most: usize) -> Result<FaultyLines, OutOfMemory>
    ensures { IfOk result (λ faulty. AreFirstFaulty bytes.now most faulty) }
{
    let mut faulty = FaultyLines::none(alloc);
    let mut judging = Judging::new(alloc, bytes)?;
    while let Some(judged) = judging.next_line(alloc)? {
        if let Some(line) = judged.faulty() {
            faulty.add(line, most)?;
        }
    }
    Ok(faulty)
}
