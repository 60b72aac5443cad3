ghost use Rattle.std.specs.Prelude.{◌≡◌};
ghost use Rattle.ov_grow_options.specs.CommandLine.{cut_value, flag_value, number_value, option_values, share_value};
ghost use Rattle.ov_ids.specs.RefillNames.{refill_name};

use crate::option_table::growing_options;
use crate::{Crash, GrowOptions, OPTION_COUNT, OptionRow, Order, Pace};
use itoa::Buffer;
use ov_ids::{NodeId, Refill};
use std::fmt::{Display, Formatter, Result, Write};

/// How the value of an option is shown.
#[derive(Clone, Copy)]
pub enum Shown {
    /// Not at all: the option is not given.
    Nothing,
    /// By the option's name alone.
    Name,
    /// As a number.
    Number(u64),
    /// As the word for a rule.
    Rule(Refill),
    /// As the word for an order.
    Turn(Order),
}

/// An option with a text, or nothing if that is its default.
#[derive(Drop)]
struct TextOption<'a> {
    row: &'a OptionRow,
    text: &'a str,
}

impl<'a> Display for TextOption<'a> {
    ghost use Rattle.std.specs.Prelude.{Some};
    ghost use Rattle.ov_grow_options.specs.CommandLine.{name_and_default, text_option};

    ghost output = { λ t. Some (text_option (name_and_default t.row.now) t.text.now) };

    fn fmt<W: Write>(&self, f: &mut Formatter<W>) -> Result {
        if self.row.is_usual(self.text) {
            return Ok(());
        }
        let name = self.row.name;
        let text = self.text;
        write!(f, " --{name} {text}")
    }
}

/// An option with its value, as a command says it.
#[derive(Drop)]
struct ShownOption<'a> {
    row: &'a OptionRow,
    value: Shown,
}

impl<'a> Display for ShownOption<'a> {
    ghost use Rattle.std.specs.Prelude.{Some};
    ghost use Rattle.ov_grow_options.specs.CommandLine.{name_and_default, shown_option};

    ghost output = { λ t. Some (shown_option (name_and_default t.row.now) t.value) };

    fn fmt<W: Write>(&self, f: &mut Formatter<W>) -> Result {
        let row = self.row;
        match self.value {
            Shown::Nothing => Ok(()),
            Shown::Name => {
                let name = row.name;
                write!(f, " --{name}")
            }
            Shown::Number(number) => {
                let mut digits = Buffer::new();
                let text = digits.format(number);
                let option = TextOption { row, text };
                write!(f, "{option}")
            }
            Shown::Rule(rule) => {
                let text = rule_name(rule);
                let option = TextOption { row, text };
                write!(f, "{option}")
            }
            Shown::Turn(order) => {
                let text = order.name();
                let option = TextOption { row, text };
                write!(f, "{option}")
            }
        }
    }
}

/// Options with their values, one for each.
#[derive(Drop)]
struct ShownOptions<'a> {
    rows: &'a [OptionRow],
    values: &'a [Shown],
}

impl<'a> Display for ShownOptions<'a> {
    ghost use Rattle.std.specs.Prelude.{Some, map};
    ghost use Rattle.ov_grow_options.specs.CommandLine.{name_and_default, shown_options};

    ghost output = { λ t. Some (shown_options (map name_and_default t.rows.now) t.values.now) };

    fn fmt<W: Write>(&self, f: &mut Formatter<W>) -> Result {
        for (row, value) in self.rows.iter().zip(self.values) {
            let option = ShownOption { row, value: *value };
            write!(f, "{option}")?;
        }
        Ok(())
    }
}

/// The command that grows an overlay with these options: `overlay grow`, and each option that is not at its default.
impl Display for GrowOptions {
    ghost use Rattle.std.specs.Prelude.{Some};
    ghost use Rattle.ov_grow_options.specs.CommandLine.{command_line};

    ghost output = { λ o. Some (command_line o) };

    fn fmt<W: Write>(&self, f: &mut Formatter<W>) -> Result {
        let values = option_values(self);
        let options = ShownOptions {
            rows: growing_options(),
            values: &values,
        };
        write!(f, "overlay grow{options}")
    }
}

/// The value of each option, in the order of their table.
fn option_values(options: &GrowOptions) -> [Shown; OPTION_COUNT]
    ensures { result ≡ option_values options.now }
{
    let params = options.params;
    [
        Shown::Number(options.nodes.get() as u64),
        Shown::Number(params.active() as u64),
        Shown::Number(params.passive() as u64),
        Shown::Number(params.arwl() as u64),
        Shown::Number(params.prwl() as u64),
        Shown::Number(params.ka() as u64),
        Shown::Number(params.kp() as u64),
        Shown::Number(params.shuffle_ttl() as u64),
        Shown::Rule(params.refill()),
        Shown::Number(options.seed),
        Shown::Number(options.loss_join.get() as u64),
        Shown::Number(options.loss.get() as u64),
        Shown::Number(options.repeat.get() as u64),
        Shown::Turn(options.order),
        pace_value(options.pace),
        Shown::Number(options.rounds.get() as u64),
        share_value(options.crash),
        cut_value(options.crash),
        Shown::Number(options.heal.get() as u64),
        Shown::Number(options.broadcasts.get() as u64),
        flag_value(options.sequential),
        sender_value(options.sender),
        flag_value(options.detect),
    ]
}

/// The value of an option without a text.
fn flag_value(asked: bool) -> Shown
    ensures { result ≡ flag_value asked }
{
    if asked { Shown::Name } else { Shown::Nothing }
}

/// The turns between two births, if they are given.
fn pace_value(pace: Option<Pace>) -> Shown
    ensures { result ≡ number_value pace }
{
    match pace {
        Some(turns) => Shown::Number(turns.get() as u64),
        None => Shown::Nothing,
    }
}

/// The node that makes each broadcast, if it is given.
fn sender_value(sender: Option<NodeId>) -> Shown
    ensures { result ≡ number_value sender }
{
    match sender {
        Some(node) => Shown::Number(node.number() as u64),
        None => Shown::Nothing,
    }
}

/// How many of 100 nodes crash, unless those of the cut do.
fn share_value(crash: Crash) -> Shown
    ensures { result ≡ share_value crash }
{
    match crash {
        Crash::Share(share) => Shown::Number(share.get() as u64),
        Crash::Cut => Shown::Nothing,
    }
}

/// Whether the nodes of the cut crash.
fn cut_value(crash: Crash) -> Shown
    ensures { result ≡ cut_value crash }
{
    match crash {
        Crash::Share(_) => Shown::Nothing,
        Crash::Cut => Shown::Name,
    }
}

/// The word for a rule at DISCONNECT.
fn rule_name(rule: Refill) -> &'static str
    ensures { result.now ≡ refill_name rule }
{
    match rule {
        Refill::Never => "never",
        Refill::Alone => "alone",
        Refill::Always => "always",
    }
}
