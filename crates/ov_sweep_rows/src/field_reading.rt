ghost use Rattle.std.specs.Prelude.{◌≡◌};
ghost use Rattle.ov_sweep_rows.specs.Cells.{crash_in, decimals_in, flag_in, number_between, or_nothing};
ghost use Rattle.ov_sweep_rows.specs.Cells.{order_in, read_as};
ghost use Rattle.ov_sweep_rows.specs.declared.row_fault.FieldForm.TheVariants as form;

use crate::cell::Cell;
use crate::{FieldForm, FourDecimals};
use ov_grow_options::{MOST_NODES, MOST_OF_HUNDRED, MOST_ROUNDS, MOST_SHARE, MOST_TURNS, Order};
use ov_ids::Refill;
use ov_lines::read_number;

impl FieldForm {
    /// What a column that takes this form reads in a text. None is returned if the text is not of the form.
    pub(crate) fn read(self, text: &[u8]) -> Option<Cell>
        ensures { result ≡ read_as self text.now }
    {
        match self {
            FieldForm::Nodes => number_between(1, MOST_NODES, text),
            FieldForm::Params | FieldForm::Number => number_between(0, u32::MAX, text),
            FieldForm::Refill => refill_in(text),
            FieldForm::Chance => number_between(0, MOST_OF_HUNDRED, text),
            FieldForm::Share => number_between(0, MOST_SHARE, text),
            FieldForm::Order => order_in(text),
            FieldForm::Pace => number_or_nothing(0, MOST_TURNS, text),
            FieldForm::Count => number_between(0, MOST_ROUNDS, text),
            FieldForm::Crash => crash_in(text),
            FieldForm::Seed => seed_in(text),
            FieldForm::Decimals => decimals_in(text),
            FieldForm::DecimalsOrNothing => decimals_or_nothing(text),
            FieldForm::Flag => flag_in(text),
            FieldForm::Sender => number_or_nothing(1, MOST_NODES, text),
        }
    }
}

/// The number that a text spells, if it has these limits.
fn number_between(least: u32, most: u32, text: &[u8]) -> Option<Cell>
    ensures { result ≡ number_between least most text.now }
{
    match read_number(text) {
        Some(number) if number >= u64::from(least) && number <= u64::from(most) => {
            Some(Cell::Number(number))
        }
        _ => None,
    }
}

fn number_or_nothing(least: u32, most: u32, text: &[u8]) -> Option<Cell>
    ensures { result ≡ or_nothing (number_between least most) text.now }
{
    if text.is_empty() {
        return Some(Cell::Empty);
    }
    number_between(least, most, text)
}

fn seed_in(text: &[u8]) -> Option<Cell>
    ensures { result ≡ number_between 0 18446744073709551615 text.now }
{
    match read_number(text) {
        Some(seed) => Some(Cell::Number(seed)),
        None => None,
    }
}

fn refill_in(text: &[u8]) -> Option<Cell>
    ensures { result ≡ read_as form.Refill text.now }
{
    match Refill::from_name(text) {
        Some(rule) => Some(Cell::Refill(rule)),
        None => None,
    }
}

fn order_in(text: &[u8]) -> Option<Cell>
    ensures { result ≡ order_in text.now }
{
    if text == b"random".as_slice() {
        return Some(Cell::Order(Order::Random));
    }
    if text == b"oldest".as_slice() {
        return Some(Cell::Order(Order::Oldest));
    }
    None
}

fn crash_in(text: &[u8]) -> Option<Cell>
    ensures { result ≡ crash_in text.now }
{
    if text == b"cut".as_slice() {
        return Some(Cell::Cut);
    }
    number_between(0, MOST_SHARE, text)
}

fn flag_in(text: &[u8]) -> Option<Cell>
    ensures { result ≡ flag_in text.now }
{
    if text == b"0".as_slice() {
        return Some(Cell::Number(0));
    }
    if text == b"1".as_slice() {
        return Some(Cell::Number(1));
    }
    None
}

fn decimals_in(text: &[u8]) -> Option<Cell>
    ensures { result ≡ decimals_in text.now }
{
    match FourDecimals::read(text) {
        Some(number) => Some(Cell::Decimals(number)),
        None => None,
    }
}

fn decimals_or_nothing(text: &[u8]) -> Option<Cell>
    ensures { result ≡ or_nothing decimals_in text.now }
{
    if text.is_empty() {
        return Some(Cell::Empty);
    }
    decimals_in(text)
}
