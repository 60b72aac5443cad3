ghost use Rattle.std.specs.Prelude.{◌≡◌};
ghost use Rattle.ov_lines.specs.Lines.{workers_of};

use crate::numeral::read_short_number;
use ov_ids::Workers;

/// The workers whose number a word of decimal digits spells. None is returned if it spells no number from 1 to 64.
#[tactic(auto, using(crate::proofs::Lines::Numbers::workers_judged))]
pub fn read_workers(word: &[u8]) -> Option<Workers>
    ensures { result ≡ workers_of word.now }
{
    Workers::new(read_short_number(word)?)
}
