ghost use Rattle.std.specs.Prelude.{◌≡◌, ◌↔◌, IsTrue};
ghost use Rattle.ov_scenario.specs.Scenarios.{IsNoEventNext, IsWrongInside};
ghost use Rattle.ov_scenario.specs.Sections.{IsPlain, most_sections};
ghost use Rattle.ov_scenario.specs.Code.Judging.{Tells};
ghost use Rattle.ov_scenario.specs.declared.scenario_fault.LineFault.TheVariants as fault;

use crate::lines_ahead::LinesAhead;
use crate::open_block::OpenBlock;
use crate::scenario::Subject;
use crate::scenario_fault::LineFault;
use crate::statement::Statement;
use ov_ids::Workers;

impl OpenBlock {
    /// What is wrong with a line of this block that says this. The lines `after` follow it.
    pub(crate) fn fault_of(self, said: &Statement, after: &LinesAhead) -> Option<LineFault>
        ensures { Tells result (λ f. IsWrongInside self said.now after.now f) }
    {
        match said {
            Statement::Words(_) => fault_of_words(after),
            Statement::Event(_) => None,
            Statement::End => None,
            Statement::Also => self.fault_of_section(),
            Statement::Analyse { subject, workers } => self.fault_of_analysis(subject, *workers),
            Statement::Params(_) => Some(self.not_held()),
            Statement::Seed(_) => Some(self.not_held()),
            Statement::Refill(_) => Some(self.not_held()),
            Statement::Scale(_) => Some(self.not_held()),
            Statement::Look(_) => Some(self.not_held()),
            Statement::Together => Some(self.not_held()),
        }
    }

    /// What is wrong with one section more.
    fn fault_of_section(self) -> Option<LineFault>
        ensures { Tells result (λ f. (self.sections ≡ most_sections)
            × (f ≡ fault.TooManySections self.together)) }
    {
        if self.sections.count() < MOST_SECTIONS {
            return None;
        }
        let together = self.together;
        Some(LineFault::TooManySections { together })
    }

    /// What is wrong with an analysis in a section.
    fn fault_of_analysis(self, subject: &Subject, workers: Option<Workers>) -> Option<LineFault>
        ensures { Tells result (λ f. (¬ IsPlain subject.now workers) × (f ≡ fault.NotHeld self.together)) }
    {
        if is_plain(subject, workers) {
            return None;
        }
        Some(self.not_held())
    }

    fn not_held(self) -> LineFault
        ensures { result ≡ fault.NotHeld self.together }
    {
        let together = self.together;
        LineFault::NotHeld { together }
    }
}

/// How many sections a block may have.
const MOST_SECTIONS: u32 = 64;

/// Whether an analysis is one of all nodes, and no number of workers is named.
fn is_plain(subject: &Subject, workers: Option<Workers>) -> bool
    ensures { IsTrue result ↔ IsPlain subject.now workers }
{
    if subject.group.is_some() {
        return false;
    }
    workers.is_none()
}

/// What is wrong with random words before these lines.
pub(crate) fn fault_of_words(after: &LinesAhead) -> Option<LineFault>
    ensures { Tells result (λ f. IsNoEventNext after.now f) }
{
    if after.begin_with_event() {
        return None;
    }
    let next = after.first_number();
    Some(LineFault::NoEventNext { next })
}
