ghost use Rattle.std.specs.Prelude.{◌≡◌};
ghost use Rattle.ov_scenario.specs.Faults.{name_of, line_fault_number, number_of};
ghost use Rattle.ov_scenario.specs.declared.scenario_fault.ScenarioFault.TheVariants.{OutOfMemory as out_of_memory};

use crate::statement_reading::{PARAMS, REFILL, SCALE, SEED};
use ov_ids::OutOfMemory;
use ov_lines::Unread;
use std::alloc::AllocError;
use std::error::Error;
use std::fmt::{Display, Formatter, Result, Write};

/// What a scenario may set for the whole run.
#[derive(Clone, Copy, Debug, PartialEq, Eq)]
pub enum Setting {
    /// The parameters of all nodes.
    Params,
    /// The seed of the random words that no line gives.
    Seed,
    /// The rule at DISCONNECT of all nodes.
    Refill,
    /// How large the world may grow.
    Scale,
}

impl Setting {
    /// The name of the lines that set it.
    pub fn name(&self) -> &'static str
        ensures { result.now ≡ name_of self.now }
    {
        match self {
            Setting::Params => PARAMS,
            Setting::Seed => SEED,
            Setting::Refill => REFILL,
            Setting::Scale => SCALE,
        }
    }
}

/// What is wrong with a line of a scenario file.
#[derive(Clone, Copy, Debug, PartialEq, Eq)]
pub enum LineFault {
    /// It can't be read (70).
    Unread(Unread),
    /// It sets something for the whole run after an event (70). The first event is on this line.
    BehindEvent { setting: Setting, event: usize },
    /// It sets something for the whole run that was set before, the first time on this line (70).
    SetBefore { setting: Setting, line: usize },
    /// The numbers of its parameters, in the order of the line, are not all within their limits (21).
    OutOfLimits([u32; 7]),
    /// It gives random words, and the next line that is not skipped is no event (70). That line has this number, if
    /// there is one.
    NoEventNext { next: Option<usize> },
    /// It begins a block of sections, and no line after it ends one (70).
    NoEnd,
    /// It begins a further section or ends a block, and stands in no block (70).
    NotInSection,
    /// It begins a section of a block that has 64 of them (70). The block began on this line.
    TooManySections { together: usize },
    /// It is none of the lines that a section holds, and stands in one (70). The block began on this line.
    NotHeld { together: usize },
}

impl LineFault {
    /// The fault's number.
    pub fn number(&self) -> u32
        ensures { result ≡ line_fault_number self.now }
    {
        match self {
            LineFault::OutOfLimits(_) => 21,
            LineFault::Unread(_)
            | LineFault::BehindEvent { .. }
            | LineFault::SetBefore { .. }
            | LineFault::NoEventNext { .. }
            | LineFault::NoEnd
            | LineFault::NotInSection
            | LineFault::TooManySections { .. }
            | LineFault::NotHeld { .. } => 70,
        }
    }
}

/// A line of a scenario file that is at fault.
#[derive(Clone, Copy, Debug, PartialEq, Eq)]
pub struct FaultyLine {
    /// Its number among all lines of the file. These are counted from 1.
    pub line: usize,
    /// What is wrong with it.
    pub fault: LineFault,
}

/// Why a file says no scenario.
#[derive(Clone, Copy, Debug, PartialEq, Eq)]
pub enum ScenarioFault {
    /// This line is the first at fault. The number is that of its fault.
    Line(FaultyLine),
    /// An allocation was refused (99).
    OutOfMemory,
}

impl ScenarioFault {
    /// The fault's number.
    pub fn number(&self) -> u32
        ensures { result ≡ number_of self.now }
    {
        match self {
            ScenarioFault::Line(faulty) => faulty.fault.number(),
            ScenarioFault::OutOfMemory => 99,
        }
    }
}

impl Display for ScenarioFault {
    ghost use Rattle.std.specs.Prelude.{Some};
    ghost use Rattle.ov_scenario.specs.Faults.{scenario_fault_text};

    ghost output = { λ fault. Some (scenario_fault_text fault) };

    #[tactic(auto, unfolding(crate::specs::Faults::scenario_fault_text))]
    fn fmt<W: Write>(&self, f: &mut Formatter<W>) -> Result {
        let number = self.number();
        match self {
            ScenarioFault::Line(FaultyLine { line, .. }) => {
                write!(f, "line {line}: refused {number}")
            }
            ScenarioFault::OutOfMemory => write!(f, "refused {number}"),
        }
    }
}

impl Error for ScenarioFault {}

impl From<AllocError> for ScenarioFault {
    ghost from_gives = { λ _ e. e ≡ out_of_memory };

    fn from(_error: AllocError) -> ScenarioFault {
        ScenarioFault::OutOfMemory
    }
}

impl From<OutOfMemory> for ScenarioFault {
    ghost from_gives = { λ _ e. e ≡ out_of_memory };

    fn from(_fault: OutOfMemory) -> ScenarioFault {
        ScenarioFault::OutOfMemory
    }
}
