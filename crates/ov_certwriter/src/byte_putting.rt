//! Bytes, texts, commas and whole numbers, put into memory that is there already: nothing is allocated. Each call takes
//! the place at which it begins to put, and returns the place behind what it put. So the place is in no memory
//! that several threads share. What does not fit is left out; so who calls has to have room.
ghost use Rattle.std.specs.Prelude.{◌≤◌, ◌<◌, ◌+◌, [], ◌∷◌, decimal, length};
ghost use Rattle.serde_json.specs.Written.{comma_if};
ghost use Rattle.ov_certwriter.specs.Code.Blocks.{Puts};

use itoa::Buffer;

/// Puts a byte.
#[inline(always)]
pub(crate) fn put_byte(out: &mut [u8], at: usize, byte: u8) -> usize
    ensures { Puts (byte ∷ []) out.old at out.new result }
{
    if at >= out.len() {
        return at;
    }
    out[at] = byte;
    at + 1
}

/// Puts a text.
pub(crate) fn put_text(out: &mut [u8], at: usize, text: &str) -> usize
    ensures { Puts text.now out.old at out.new result }
{
    let bytes = text.as_bytes();
    let mut end = at;
    for byte in bytes {
        end = put_byte(out, end, *byte);
    }
    end
}

/// Puts a comma, if something stands before.
#[inline(always)]
pub(crate) fn put_comma(out: &mut [u8], at: usize, later: bool) -> usize
    ensures { Puts (comma_if later) out.old at out.new result }
{
    if later {
        return put_byte(out, at, b',');
    }
    at
}

/// Puts a whole number.
#[inline(always)]
pub(crate) fn put_whole(out: &mut [u8], at: usize, number: u32) -> usize
    ensures text { Puts (decimal number) out.old at out.new result }
    ensures short { length (decimal number) ≤ 10 }
{
    if number < 10_000 {
        return put_below_ten_thousand(out, at, number);
    }
    put_long(out, at, number)
}

/// Puts a number of any length. It stands apart, so that what puts a short one stays small.
#[inline(never)]
fn put_long(out: &mut [u8], at: usize, number: u32) -> usize
    ensures text { Puts (decimal number) out.old at out.new result }
    ensures short { length (decimal number) ≤ 10 }
{
    let mut digits = Buffer::new();
    put_text(out, at, digits.format(number))
}

/// Puts a number of at most four digits.
#[inline(always)]
fn put_below_ten_thousand(out: &mut [u8], at: usize, number: u32) -> usize
    requires { number < 10000 }
    ensures { Puts (decimal number) out.old at out.new result }
{
    if number < 100 {
        return put_below_hundred(out, at, number);
    }
    let tens_at = put_below_hundred(out, at, number / 100);
    let ones_at = put_digit(out, tens_at, number / 10 % 10);
    put_digit(out, ones_at, number % 10)
}

/// Puts a number of at most two digits.
#[inline(always)]
fn put_below_hundred(out: &mut [u8], at: usize, number: u32) -> usize
    requires { number < 100 }
    ensures { Puts (decimal number) out.old at out.new result }
{
    if number < 10 {
        return put_digit(out, at, number);
    }
    let ones_at = put_digit(out, at, number / 10);
    put_digit(out, ones_at, number % 10)
}

/// Puts a digit.
#[inline(always)]
fn put_digit(out: &mut [u8], at: usize, digit: u32) -> usize
    requires { digit < 10 }
    ensures { Puts ((48 + digit) ∷ []) out.old at out.new result }
{
    put_byte(out, at, b'0' + digit as u8)
}
