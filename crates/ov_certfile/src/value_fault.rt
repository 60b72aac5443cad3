ghost use Rattle.std.specs.Prelude.{◌≡◌};
ghost use Rattle.ov_certfile.specs.declared.value_fault.ValueFault.TheVariants.{OutOfMemory};

use crate::file_keys::Key;
use ov_ids::OutOfMemory;
use std::alloc::{AllocError, AllocFailed};

/// A step into a value.
#[derive(Clone, Copy)]
pub enum Step {
    /// To the item of a list at this place, counted from 0.
    Item(usize),
    /// To the value at this key of an entry.
    Key(Key),
}

/// The steps into a value, from the first on: four at most, as in `pairs` to the last id of `[3].paths[0][2]`.
#[derive(Clone, Copy)]
pub struct Steps {
    pub first: Option<Step>,
    pub second: Option<Step>,
    pub third: Option<Step>,
    pub fourth: Option<Step>,
}

/// What a value must be, or must have.
#[derive(Clone, Copy)]
pub enum Wanted {
    /// It must be an object.
    Object,
    /// It must have this key.
    Key(Key),
    /// It must have no other keys. Such a key is at this place among its keys, in the order of their bytes.
    NoOther(usize),
    /// It must be an array.
    List,
    /// It must be an id.
    Id,
    /// It must be a whole number from 0 to this one.
    UpTo(u64),
    /// The array must have exactly two ids.
    TwoIds,
    /// It must be a verdict.
    Verdict,
}

/// Where in a value its form is broken, and what is wanted there.
#[derive(Clone, Copy)]
pub struct Misfit {
    pub steps: Steps,
    pub wanted: Wanted,
}

impl Misfit {
    /// The value itself breaks the form.
    pub(crate) fn new(wanted: Wanted) -> Misfit {
        let steps = Steps {
            first: None,
            second: None,
            third: None,
            fourth: None,
        };
        Misfit { steps, wanted }
    }

    /// The same, as seen from the value one step farther out.
    pub(crate) fn behind(self, step: Step) -> Misfit {
        let steps = Steps {
            first: Some(step),
            second: self.steps.first,
            third: self.steps.second,
            fourth: self.steps.third,
        };
        Misfit { steps, ..self }
    }
}

/// Why a value is not read in a form.
#[derive(Clone, Copy)]
pub(crate) enum ValueFault {
    /// It does not have the form.
    Misfit(Misfit),
    /// 99: out of memory.
    OutOfMemory,
}

impl From<OutOfMemory> for ValueFault {
    ghost from_gives = { λ _ e. e ≡ OutOfMemory };

    fn from(_error: OutOfMemory) -> ValueFault {
        ValueFault::OutOfMemory
    }
}

impl From<AllocError> for ValueFault {
    ghost from_gives = { λ _ e. e ≡ OutOfMemory };

    fn from(_error: AllocError) -> ValueFault {
        ValueFault::OutOfMemory
    }
}

impl<T: Drop> From<AllocFailed<T>> for ValueFault {
    ghost from_gives = { λ _ e. e ≡ OutOfMemory };

    fn from(_error: AllocFailed<T>) -> ValueFault {
        ValueFault::OutOfMemory
    }
}
