ghost use Rattle.std.specs.Prelude.{◌≡◌, List, None, max};
ghost use Rattle.std.specs.Option.{option_or};
ghost use Rattle.ov_scenario.specs.Code.Judging.{first_in, params_in, refill_in, scale_in, sections_of, seed_in};
ghost use Rattle.ov_scenario.specs.Statements.{Stated as StatedLine};
ghost use Rattle.ov_scenario.specs.Scenarios.{AreFaultless, AreParamsOf, IsRefillOf, IsScaleOf, IsSeedOf};
ghost use Rattle.ov_scenario.specs.Scenarios.{default_params};

use crate::line_judging::params_within_limits;
use crate::open_block::{OpenBlock, sections_of};
use crate::statement::{Stated, Statement};
use ov_ids::{Params, Refill, Scale, Workers};

/// What lines give for the whole run: the numbers of the first parameters, the first seed, the first rule at DISCONNECT
/// and the first scale, if they give any, and how many drivers they need.
#[derive(Clone, Copy)]
pub(crate) struct Settings {
    params: Option<[u32; 7]>,
    seed: Option<u64>,
    refill: Option<Refill>,
    scale: Option<Scale>,
    drivers: Workers,
}

impl Settings {
    /// No line was read.
    pub(crate) fn nothing() -> Settings
        ensures params { result.params ≡ None }
        ensures seed { result.seed ≡ None }
        ensures refill { result.refill ≡ None }
        ensures scale { result.scale ≡ None }
        ensures drivers { result.drivers ≡ 1 }
    {
        Settings {
            params: None,
            seed: None,
            refill: None,
            scale: None,
            drivers: Workers::ONE,
        }
    }

    /// What these lines and the next one give. After that one this block is open, if one is.
    pub(crate) fn with(self, line: &Stated, block: Option<OpenBlock>) -> Settings
        ensures params { result.params ≡ option_or self.params (params_in line.now.says) }
        ensures seed { result.seed ≡ option_or self.seed (seed_in line.now.says) }
        ensures refill { result.refill ≡ option_or self.refill (refill_in line.now.says) }
        ensures scale { result.scale ≡ option_or self.scale (scale_in line.now.says) }
        ensures drivers { result.drivers ≡ max self.drivers (sections_of block) }
    {
        let mut settings = self;
        settings.drivers = more_workers(self.drivers, sections_of(block));
        match &line.says {
            Ok(Statement::Params(numbers)) => settings.params = settings.params.or(Some(*numbers)),
            Ok(Statement::Seed(seed)) => settings.seed = settings.seed.or(Some(*seed)),
            Ok(Statement::Refill(rule)) => settings.refill = settings.refill.or(Some(*rule)),
            Ok(Statement::Scale(scale)) => settings.scale = settings.scale.or(Some(*scale)),
            Ok(
                Statement::Words(_)
                | Statement::Event(_)
                | Statement::Look(_)
                | Statement::Analyse { .. }
                | Statement::Together
                | Statement::Also
                | Statement::End,
            )
            | Err(_) => {}
        }
        settings
    }

    /// The parameters that lines without a fault give, or the default ones, with the rule at DISCONNECT and the scale
    /// that they give, or the profile's.
    pub(crate) fn params(&self) -> Params
        ensures params { (lines : List StatedLine) → AreFaultless lines → self.now.params ≡ first_in params_in lines
            → AreParamsOf lines result }
        ensures refill { (lines : List StatedLine) → self.now.refill ≡ first_in refill_in lines
            → IsRefillOf lines result.refill }
        ensures scale { (lines : List StatedLine) → self.now.scale ≡ first_in scale_in lines
            → IsScaleOf lines result.scale }
    {
        let numbers = self.numbers();
        numbers.with_refill(self.refill()).with_scale(self.scale())
    }

    /// The parameters whose numbers lines without a fault give, or the default ones.
    fn numbers(&self) -> Params
        ensures { (lines : List StatedLine) → AreFaultless lines → self.now.params ≡ first_in params_in lines
            → AreParamsOf lines result }
    {
        let Some(numbers) = self.params else {
            return default_params();
        };
        match params_within_limits(numbers) {
            Some(params) => params,
            None => default_params(),
        }
    }

    /// The rule at DISCONNECT that lines give, or the profile's.
    fn refill(&self) -> Refill
        ensures { (lines : List StatedLine) → self.now.refill ≡ first_in refill_in lines → IsRefillOf lines result }
    {
        match self.refill {
            Some(rule) => rule,
            None => Refill::Never,
        }
    }

    /// The scale that lines give, or the profile's.
    fn scale(&self) -> Scale
        ensures { (lines : List StatedLine) → self.now.scale ≡ first_in scale_in lines → IsScaleOf lines result }
    {
        match self.scale {
            Some(scale) => scale,
            None => Scale::Profile,
        }
    }

    /// How many drivers the lines need.
    pub(crate) fn drivers(&self) -> Workers
        ensures { result ≡ self.now.drivers }
    {
        self.drivers
    }

    /// The seed that lines give, or 0.
    pub(crate) fn seed(&self) -> u64
        ensures { (lines : List StatedLine) → self.now.seed ≡ first_in seed_in lines → IsSeedOf lines result }
    {
        match self.seed {
            Some(seed) => seed,
            None => 0,
        }
    }
}

/// The higher one of two numbers of workers.
fn more_workers(these: Workers, those: Workers) -> Workers
    ensures { result ≡ max these those }
{
    if these.count() < those.count() {
        return those;
    }
    these
}

/// The parameters of a scenario that gives none.
fn default_params() -> Params
    ensures { result ≡ default_params }
{
    Params::new(5, 30, 6, 3, 3, 4, 4).unwrap()
}
