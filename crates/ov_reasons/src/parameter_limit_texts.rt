use crate::line_and_mark::push_marked_word;
use ov_ids::{LONGEST_WALK, MOST_ACTIVE, MOST_PASSIVE, MOST_SAMPLED};
use ov_scenario::PARAMETERS;
use std::alloc::AllocError;
use std::fmt::Write;

/// A parameter: the word for it in the form of the line, its name, and its lowest and its highest value.
#[derive(Clone, Copy)]
struct Limits(&'static str, &'static str, u32, u32);

/// The parameters in the order of their line. R is at most W, which has this value.
fn limits_with(walk: u32) -> [Limits; 7] {
    let [
        active,
        passive,
        walk_name,
        passive_walk,
        sample,
        passive_sample,
        ttl,
    ] = PARAMETERS;
    let highest = LONGEST_WALK.min(walk);
    [
        Limits("A", active, 1, MOST_ACTIVE),
        Limits("P", passive, 1, MOST_PASSIVE),
        Limits("W", walk_name, 0, LONGEST_WALK),
        Limits("R", passive_walk, 0, highest),
        Limits("KA", sample, 0, MOST_SAMPLED),
        Limits("KP", passive_sample, 0, MOST_SAMPLED),
        Limits("T", ttl, 1, LONGEST_WALK),
    ]
}

/// Appends which of the parameters of a line are out of their limits, and the line, with a mark under the first of
/// these.
pub(crate) fn push_out_of_limits(
    text: &mut String,
    line: &[u8],
    parameters: &[u32; 7],
) -> Result<(), AllocError> {
    let mut first = None;
    let limits = limits_with(parameters[2]);
    for (place, (limits, parameter)) in limits.iter().zip(parameters).enumerate() {
        if *parameter < limits.2 || limits.3 < *parameter {
            push_parameter(text, first.is_some(), limits, *parameter)?;
            first = first.or(Some(place + 1));
        }
    }
    push_marked_word(text, line, first.unwrap_or(0))
}

/// Appends that a parameter is out of its limits, after others or not.
fn push_parameter(
    text: &mut String,
    is_behind: bool,
    limits: &Limits,
    parameter: u32,
) -> Result<(), AllocError> {
    let Limits(word, name, lowest, highest) = *limits;
    let between = if is_behind { "; " } else { "" };
    write!(
        text,
        "{between}{word}, {name}, is {parameter} and must be {lowest} to {highest}"
    )
}
