ghost use Rattle.std.specs.Prelude.{◌≡◌, ◌≢◌, IfSome, IfNone};
ghost use Rattle.ov_ids.specs.RefillNames.{refill_name, refill_named};

use std::fmt::{Display, Formatter, Result, Write};

/// When a node that is told DISCONNECT by an active member looks for another one: an extension of ours. (HyParView's
/// listing of DISCONNECT, Leitão, Pereira, Rodrigues, DSN 2007, Algorithm 1, looks for nobody. Some running
/// systems do.)
#[derive(Clone, Copy, Debug, PartialEq, Eq)]
pub enum Refill {
    /// It never does: the profile's rule.
    Never,
    /// It does if nobody is active any more.
    Alone,
    /// It always does.
    Always,
}

impl Refill {
    /// The rule with this word, `never`, `alone` or `always`. None if it is another word. (The words are chosen here.)
    pub fn from_name(name: &[u8]) -> Option<Refill>
        ensures value { result ≡ refill_named name.now }
        ensures some { IfSome result (λ rule. name.now ≡ refill_name rule) }
        ensures none { IfNone result ((rule : Refill) → name.now ≢ refill_name rule) }
    {
        if name == b"never".as_slice() {
            return Some(Refill::Never);
        }
        if name == b"alone".as_slice() {
            return Some(Refill::Alone);
        }
        if name == b"always".as_slice() {
            return Some(Refill::Always);
        }
        None
    }
}

/// The word for a rule.
impl Display for Refill {
    ghost use Rattle.std.specs.Prelude.{Some};
    ghost use Rattle.ov_ids.specs.RefillNames.{refill_name};

    ghost output = { λ rule. Some (refill_name rule) };

    fn fmt<W: Write>(&self, f: &mut Formatter<W>) -> Result {
        match self {
            Refill::Never => write!(f, "never"),
            Refill::Alone => write!(f, "alone"),
            Refill::Always => write!(f, "always"),
        }
    }
}
