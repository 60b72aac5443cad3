ghost use Rattle.std.specs.Prelude.{◌≡◌, [], false, IfSome, IfNone};
ghost use Rattle.ov_scenario.specs.Scenarios.{IsWrong, IsWrongOutside, IsTooLate, AreParams, AreWithin, before_of};
ghost use Rattle.ov_scenario.specs.Sections.{has_end};
ghost use Rattle.ov_scenario.specs.Code.Judging.{Tells, with_next};
ghost use Rattle.ov_scenario.specs.declared.scenario_fault.LineFault.TheVariants as fault;
ghost use Rattle.ov_scenario.specs.declared.statement.Statement.TheVariants as says;

use crate::line_judging_inside_together_block::fault_of_words;
use crate::lines_ahead::LinesAhead;
use crate::open_block::{OpenBlock, block_after};
use crate::scenario_fault::{LineFault, Setting};
use crate::statement::{Stated, Statement};
use ov_ids::Params;

/// What is known of the lines before a line: the numbers of the first event, the first parameters, the first seed,
/// the first rule at DISCONNECT and the first scale, whether or not these are at fault, and the block that is open.
#[derive(Clone, Copy)]
pub(crate) struct Before {
    event: Option<usize>,
    params: Option<usize>,
    seed: Option<usize>,
    refill: Option<usize>,
    scale: Option<usize>,
    block: Option<OpenBlock>,
}

impl Before {
    /// There is no line before.
    #[tactic(auto, unfolding(crate::specs::Sections::open_from))]
    pub(crate) fn nothing() -> Before
        ensures { result ≡ before_of [] }
    {
        Before {
            event: None,
            params: None,
            seed: None,
            refill: None,
            scale: None,
            block: None,
        }
    }

    /// The block that is open, if one is.
    pub(crate) fn open_block(&self) -> Option<OpenBlock>
        ensures { result ≡ self.now.block }
    {
        self.block
    }

    /// What is wrong with the line after these. The lines `after` follow it.
    pub(crate) fn fault_of(&self, line: &Stated, after: &LinesAhead) -> Option<LineFault>
        ensures { Tells result (λ f. IsWrong self.now line.now.says after.now f) }
    {
        match &line.says {
            Err(unread) => Some(LineFault::Unread(*unread)),
            Ok(said) => match self.block {
                Some(block) => block.fault_of(said, after),
                None => self.fault_outside(said, after),
            },
        }
    }

    /// What is wrong with a line that stands in no block.
    fn fault_outside(&self, said: &Statement, after: &LinesAhead) -> Option<LineFault>
        ensures { Tells result (λ f. IsWrongOutside self.now said.now after.now f) }
    {
        match said {
            Statement::Params(numbers) => self.fault_of_params(*numbers),
            Statement::Seed(_) => self.fault_of_setting(Setting::Seed, self.seed),
            Statement::Refill(_) => self.fault_of_setting(Setting::Refill, self.refill),
            Statement::Scale(_) => self.fault_of_setting(Setting::Scale, self.scale),
            Statement::Words(_) => fault_of_words(after),
            Statement::Event(_) => None,
            Statement::Look(_) => None,
            Statement::Analyse { .. } => None,
            Statement::Together => fault_of_block(after),
            Statement::Also => Some(LineFault::NotInSection),
            Statement::End => Some(LineFault::NotInSection),
        }
    }

    /// What is wrong with parameters: they come too late, or else are out of their limits.
    #[tactic(auto, using(crate::proofs::Scenarios::Judged::params_beyond))]
    fn fault_of_params(&self, numbers: [u32; 7]) -> Option<LineFault>
        ensures { Tells result (λ f. IsWrongOutside self.now (says.Params numbers) [] f) }
    {
        if let Some(fault) = self.fault_of_setting(Setting::Params, self.params) {
            return Some(fault);
        }
        if params_within_limits(numbers).is_some() {
            return None;
        }
        Some(LineFault::OutOfLimits(numbers))
    }

    /// Whether a line sets something for the whole run too late. It was set before on the line of this number, if on
    /// any.
    fn fault_of_setting(&self, setting: Setting, same: Option<usize>) -> Option<LineFault>
        ensures { Tells result (λ f. IsTooLate setting self.now.event same f) }
    {
        if let Some(event) = self.event {
            return Some(LineFault::BehindEvent { setting, event });
        }
        let line = same?;
        Some(LineFault::SetBefore { setting, line })
    }

    /// These lines, and the next one.
    pub(crate) fn with(self, line: &Stated) -> Before
        ensures { result ≡ with_next self line.now }
    {
        let mut before = self;
        before.block = block_after(self.block, line);
        match &line.says {
            Ok(Statement::Event(_)) => before.event = before.event.or(Some(line.number)),
            Ok(Statement::Params(_)) => before.params = before.params.or(Some(line.number)),
            Ok(Statement::Seed(_)) => before.seed = before.seed.or(Some(line.number)),
            Ok(Statement::Refill(_)) => before.refill = before.refill.or(Some(line.number)),
            Ok(Statement::Scale(_)) => before.scale = before.scale.or(Some(line.number)),
            Ok(
                Statement::Words(_)
                | Statement::Look(_)
                | Statement::Analyse { .. }
                | Statement::Together
                | Statement::Also
                | Statement::End,
            )
            | Err(_) => {}
        }
        before
    }
}

/// What is wrong with a block before these lines.
fn fault_of_block(after: &LinesAhead) -> Option<LineFault>
    ensures { Tells result (λ f. (has_end after.now ≡ false) × (f ≡ fault.NoEnd)) }
{
    if after.have_end() {
        return None;
    }
    Some(LineFault::NoEnd)
}

/// The parameters with these numbers, in the order of a line of parameters, if they are within their limits, with the
/// profile's rule at DISCONNECT and the profile's scale.
pub(crate) fn params_within_limits(numbers: [u32; 7]) -> Option<Params>
    ensures within { IfSome result (λ params. AreParams numbers params) }
    ensures beyond { IfNone result (¬ AreWithin numbers) }
{
    let [active, passive, arwl, prwl, ka, kp, ttl] = numbers;
    Params::new(active, passive, arwl, prwl, ka, kp, ttl).ok()
}
