ghost use Rattle.std.specs.Prelude.{◌≡◌, option_map};
ghost use Rattle.ov_sweep_rows.specs.Cells.{parts_in};

use ov_lines::read_number;
use std::fmt::{Display, Formatter, Result, Write};

/// A number with four decimal digits, in parts of 10,000, rounded down. It is shown as `0.9312`.
#[derive(Clone, Copy, PartialEq)]
pub struct FourDecimals {
    /// How many parts of 10,000.
    pub parts: u64,
}

impl FourDecimals {
    /// How many parts are one.
    pub const ONE: u64 = 10_000;

    /// The number that a text spells, with a point and four decimal digits. None is returned if it spells none, or one
    /// past 64 bits.
    #[tactic(auto, unfolding(crate::specs::Cells::parts_in))]
    pub fn read(text: &[u8]) -> Option<FourDecimals>
        ensures { option_map (λ number. number.parts) result ≡ parts_in text.now }
    {
        let place = text.len().checked_sub(5)?;
        let (front, behind) = text.split_at(place);
        let (point, digits) = behind.split_first()?;
        if *point != b'.' {
            return None;
        }
        let ones = read_number(front)?;
        let rest = read_number(digits)?;
        Some(FourDecimals {
            parts: ones.checked_mul(FourDecimals::ONE)?.checked_add(rest)?,
        })
    }
}

impl Display for FourDecimals {
    ghost use Rattle.std.specs.Prelude.{Some};
    ghost use Rattle.ov_sweep_rows.specs.Cells.{decimals_text};

    ghost output = { λ number. Some (decimals_text number.parts) };

    fn fmt<W: Write>(&self, f: &mut Formatter<W>) -> Result {
        let ones = self.parts / FourDecimals::ONE;
        let tenths = self.parts / 1_000 % 10;
        let hundredths = self.parts / 100 % 10;
        let thousandths = self.parts / 10 % 10;
        let last = self.parts % 10;
        write!(f, "{ones}.{tenths}{hundredths}{thousandths}{last}")
    }
}
