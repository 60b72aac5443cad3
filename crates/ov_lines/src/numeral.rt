ghost use Rattle.std.specs.Prelude.{◌≡◌, ◌<◌, ◌≤◌, ◌^◌, IfSome, IfNone};
ghost use Rattle.std.specs.Char.{digit_value};
ghost use Rattle.std.specs.Str.Parse.{IsNumeral, digits_value};
ghost use Rattle.ov_lines.specs.Lines.{number_within, long_bits, short_bits};

/// The number that a word of decimal digits spells if it fits 64 bits. Zeros may lead, and a sign may not.
pub fn read_number(word: &[u8]) -> Option<u64>
    ensures { result ≡ number_within long_bits word.now }
{
    parsed(word)
}

fn parsed(word: &[u8]) -> Option<u64>
    ensures some { IfSome result (λ n. IsNumeral 10 word.now × (n ≡ digits_value 10 word.now)) }
    ensures none { IfNone result (IsNumeral 10 word.now → digits_value 10 word.now < 2 ^ long_bits → ⊥) }
{
    if word.is_empty() {
        return None;
    }
    let mut number: u64 = 0;
    for byte in word {
        let digit = digit_of(*byte)?;
        number = number.checked_mul(10)?.checked_add(digit)?;
    }
    Some(number)
}

/// The value of a decimal digit.
fn digit_of(byte: u8) -> Option<u64>
    ensures some { IfSome result (λ digit. (digit ≡ digit_value byte) × (digit < 10)) }
    ensures none { IfNone result (10 ≤ digit_value byte) }
{
    if byte.is_ascii_digit() {
        Some(u64::from(byte - b'0'))
    } else {
        None
    }
}

/// The number that a word of decimal digits spells if it fits 32 bits.
#[tactic(auto, using(crate::proofs::Lines::Numerals::numbered, crate::proofs::Lines::Numerals::not_numbered))]
pub(crate) fn read_short_number(word: &[u8]) -> Option<u32>
    ensures { result ≡ number_within short_bits word.now }
{
    u32::try_from(parsed(word)?).ok()
}
