ghost use Rattle.std.specs.Prelude.{ℕ, ◌≡◌, ◌≤◌, ◌<◌, ◌*◌, ◌-◌, ◌^◌, ◌↔◌, length, IfSome, IfNone, IsTrue};
ghost use Rattle.ov_sweep_summary.specs.SplitBounds.{gap, parts_of_one, split_runs, square_of_deviations};
ghost use Rattle.ov_sweep_summary.specs.SplitBounds.{IsFewest, IsFirstBelow, LiesBelow, LiesOutside, NoneBelow, Says};

use crate::{Interval, wilson_interval};
use ov_grow_options::Share;

/// The square of the 1.959963984540054 standard deviations that hold 95 % of a normal distribution, in parts of `ONE`.
const SQUARE: u128 = 3_841_458_820_694;

const ONE: u128 = 1_000_000_000_000;

/// So many runs, and after how many of them the overlay is split.
#[derive(Clone, Copy)]
pub struct SplitRuns {
    /// After how many of them the overlay is split.
    pub split: u32,
    /// How many runs there are.
    pub runs: u32,
}

/// What runs say of a bound on the share that is split, by Wilson's interval of their share, at a confidence of 95 %.
#[derive(Clone, Copy, PartialEq)]
pub enum Verdict {
    /// The interval lies below the bound.
    Below,
    /// The bound lies in it: more runs may tell.
    Open,
    /// It lies above the bound.
    Above,
}

impl SplitRuns {
    /// Their share, in percent; 0 without runs.
    pub fn percent(self) -> f64 {
        if self.runs == 0 {
            return 0.0;
        }
        f64::from(self.split) * 100.0 / f64::from(self.runs)
    }

    /// Wilson's interval of their share.
    pub fn interval(self) -> Interval {
        wilson_interval(self.split, self.runs)
    }

    /// What these runs say of a bound, by the interval of `wilson_interval`, reckoned here in whole numbers.
    pub fn verdict(self, bound: Share) -> Verdict
        ensures { Says self bound result }
    {
        if !self.is_outside(bound) {
            return Verdict::Open;
        }
        if self.is_rarer(bound) {
            return Verdict::Below;
        }
        Verdict::Above
    }

    /// Whether the interval lies below the bound.
    pub fn is_below(self, bound: Share) -> bool
        ensures { IsTrue result ↔ LiesBelow self bound }
    {
        if !self.is_rarer(bound) {
            return false;
        }
        self.is_outside(bound)
    }

    /// The fewest runs in which the same share leaves the bound outside of its interval. None: the share is the bound
    /// itself, so that no number of runs does.
    pub fn runs_at_this_share(self, bound: Share) -> Option<u128>
        ensures fewest { IfSome result (IsFewest (LiesOutside self bound)) }
        ensures none { IfNone result ((n : ℕ) → LiesOutside self bound n → ⊥) }
    {
        let width = self.width(bound);
        if width == 0 {
            return None;
        }
        Some(self.spread(bound) / width + 1)
    }

    /// The fewest runs, these among them, whose interval lies below the bound if no other one is split. None: no
    /// number of 32 bits is enough.
    pub fn runs_without_a_split(self, bound: Share) -> Option<u32>
        ensures fewest { IfSome result
            (IsFewest (λ n. (self.runs ≤ n) × LiesBelow (split_runs self.split n) bound)) }
        ensures none { IfNone result ((n : ℕ) → self.runs ≤ n → n < 2 ^ 32 - 1
            → LiesBelow (split_runs self.split n) bound → ⊥) }
    {
        if bound.get() == 0 {
            return None;
        }
        for runs in self.runs..u32::MAX {
            let longer = SplitRuns {
                split: self.split,
                runs,
            };
            if longer.is_below(bound) {
                return Some(runs);
            }
        }
        None
    }

    /// Whether the share is below the bound.
    pub(crate) fn is_rarer(self, bound: Share) -> bool
        ensures { IsTrue result ↔ (100 * self.split < bound * self.runs) }
    {
        100 * u64::from(self.split) < u64::from(bound.get()) * u64::from(self.runs)
    }

    /// Whether the bound lies outside of the interval.
    fn is_outside(self, bound: Share) -> bool
        ensures { IsTrue result ↔ LiesOutside self bound self.runs }
    {
        let width = self.width(bound);
        if width == 0 {
            return false;
        }
        is_exceeded(self.spread(bound), width, self.runs)
    }

    /// The squared distance of the share and the bound, for each run.
    fn width(self, bound: Share) -> u128
        ensures { result ≡ parts_of_one * (gap self bound * gap self bound) }
    {
        let gap = u128::from(self.gap(bound));
        ONE * (gap * gap)
    }

    /// How far the share and the bound are from each other.
    fn gap(self, bound: Share) -> u64
        ensures value { result ≡ gap self bound }
        ensures limit { result < 2 ^ 40 }
    {
        let split = 100 * u64::from(self.split);
        let most = u64::from(bound.get()) * u64::from(self.runs);
        split.saturating_sub(most) + most.saturating_sub(split)
    }

    /// How far shares of so many runs spread.
    fn spread(self, bound: Share) -> u128
        ensures { result ≡ square_of_deviations * (self.runs * self.runs * (bound * (100 - bound))) }
    {
        let percent = u64::from(bound.get());
        let runs = u64::from(self.runs);
        SQUARE * (u128::from(runs * runs) * u128::from(percent * (100 - percent)))
    }
}

/// Whether so many widths exceed a spread.
fn is_exceeded(spread: u128, width: u128, number: u32) -> bool
    requires { 0 < width }
    ensures { IsTrue result ↔ (spread < number * width) }
{
    spread / width < u128::from(number)
}

/// Of settings in an order, the place of the first whose interval lies below the bound. None: that of no setting does.
pub fn first_below(settings: &[SplitRuns], bound: Share) -> Option<usize>
    ensures some { IfSome result (IsFirstBelow bound settings.now) }
    ensures none { IfNone result (NoneBelow bound settings.now (length settings.now)) }
{
    for (place, runs) in settings.iter().enumerate() {
        if runs.is_below(bound) {
            return Some(place);
        }
    }
    None
}
