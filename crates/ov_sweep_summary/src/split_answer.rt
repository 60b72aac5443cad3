ghost use Rattle.std.specs.Prelude.{◌<◌, IfSome, length};

use crate::phase_summary::{count, split_runs};
use crate::runs_by_setting::{differing, run_counts};
use crate::setting_names::{OPTIONS, setting_name};
use crate::settings_by_size::places_by_size;
use crate::summary_text_writing::{phase_name, put_heads, put_options, put_split};
use crate::text_table::push_table;
use crate::{SettingRuns, ShownCell, SplitRuns, Verdict, first_below};
use ov_grow_options::Share;
use ov_ids::OutOfMemory;
use ov_sweep_rows::{Cell, Phase, cell_at};
use std::alloc::{AllocError, Global};
use std::fmt::Write;

/// The heads of the columns of how many runs are split.
const SPLIT_HEADS: [&str; 4] = ["runs", "split", "share", "95 % interval"];

/// What is asked of settings: after which phase they are split in less than so many of 100 runs.
#[derive(Clone, Copy)]
pub struct SplitQuestion {
    /// After which phase.
    pub phase: Phase,
    /// The bound.
    pub bound: Share,
}

/// The answer for people, in plain text: a table with a line for each setting, the smallest first, which says whether
/// its interval lies below the bound, or how many runs more would tell; below it the smallest setting that does, and
/// whether there are too few runs for any to do so. OutOfMemory (99) if an allocation is refused.
pub fn split_answer_text(
    alloc: Global,
    settings: &[SettingRuns<'_>],
    question: &SplitQuestion,
) -> Result<String, OutOfMemory> {
    let mut text = String::new(alloc);
    push_all_answers(alloc, &mut text, settings, question)?;
    Ok(text)
}

/// Appends the answer.
fn push_all_answers(
    alloc: Global,
    text: &mut String,
    settings: &[SettingRuns<'_>],
    question: &SplitQuestion,
) -> Result<(), AllocError> {
    let differing = differing(alloc, settings)?;
    let order = places_by_size(alloc, settings)?;
    let percent = question.bound.get();
    let phase = phase_name(question.phase);
    write!(
        text,
        "Split after {phase} in less than {percent} of 100 runs, by the 95 % interval? The smallest setting first:\n\n"
    )?;
    push_answers(alloc, text, settings, &order, &differing, question)?;
    push_answer(alloc, text, settings, &order, &differing, question)?;
    let (fewest, _) = run_counts(settings);
    push_few_runs(text, count(fewest), question.bound)
}

/// The line that says that so many runs of a setting are too few to be below a bound, even if none of them is split,
/// and how many are needed. It ends with a line feed, and is empty if they are enough. OutOfMemory (99) if an
/// allocation is refused.
pub fn few_runs_text(alloc: Global, runs: u32, bound: Share) -> Result<String, OutOfMemory> {
    let mut text = String::new(alloc);
    push_few_runs(&mut text, runs, bound)?;
    Ok(text)
}

/// Appends the line that says that so many runs of a setting are too few to be below a bound.
pub(crate) fn push_few_runs(text: &mut String, runs: u32, bound: Share) -> Result<(), AllocError> {
    let none = SplitRuns { split: 0, runs };
    let Some(needed) = none.runs_without_a_split(bound) else {
        return Ok(());
    };
    if needed <= runs {
        return Ok(());
    }
    let allowed = none.interval().high * 100.0;
    let percent = bound.get();
    let word = if runs == 1 { "run" } else { "runs" };
    write!(
        text,
        "No split in {runs} {word} still allows {allowed:.1} %: below {percent} % takes {needed} runs\n"
    )
}

/// Appends the table.
fn push_answers(
    alloc: Global,
    text: &mut String,
    settings: &[SettingRuns<'_>],
    order: &[usize],
    differing: &[usize],
    question: &SplitQuestion,
) -> Result<(), AllocError> {
    let mut lines = String::new(alloc);
    put_answers(&mut lines, settings, order, differing, question)?;
    push_table(alloc, text, lines.as_str())
}

/// Adds the lines of the table.
fn put_answers(
    lines: &mut String,
    settings: &[SettingRuns<'_>],
    order: &[usize],
    differing: &[usize],
    question: &SplitQuestion,
) -> Result<(), AllocError> {
    let percent = question.bound.get();
    put_heads(lines, differing, &SPLIT_HEADS)?;
    write!(lines, "below {percent} %\n")?;
    for place in order {
        if let Some(setting) = settings.get(*place) {
            let counted = split_runs(&setting.runs, question.phase);
            put_options(lines, &setting.cells, differing)?;
            put_split(lines, counted)?;
            push_said(lines, counted, question.bound)?;
            lines.push('\n')?;
        }
    }
    Ok(())
}

/// Appends whether runs are below a bound, or how many more would tell.
fn push_said(text: &mut String, runs: SplitRuns, bound: Share) -> Result<(), AllocError> {
    match runs.verdict(bound) {
        Verdict::Below => text.push_str("yes"),
        Verdict::Above => text.push_str("no"),
        Verdict::Open => {
            text.push_str("open: ")?;
            push_more(text, runs, bound)
        }
    }
}

/// Appends how many runs more would tell: without a split, and at the share of today, if there is a split.
fn push_more(text: &mut String, runs: SplitRuns, bound: Share) -> Result<(), AllocError> {
    if let Some(needed) = runs.runs_without_a_split(bound) {
        let more = needed.saturating_sub(runs.runs);
        write!(text, "yes after {more} more without a split")?;
    }
    if runs.split > 0 {
        push_at_this_share(text, runs, bound)?;
    }
    Ok(())
}

/// Appends what more runs would tell at the share of today, and how many.
fn push_at_this_share(text: &mut String, runs: SplitRuns, bound: Share) -> Result<(), AllocError> {
    let Some(needed) = runs.runs_at_this_share(bound) else {
        return text.push_str("; at this share no number tells");
    };
    let more = needed.saturating_sub(u128::from(runs.runs));
    let word = if runs.is_rarer(bound) { "yes" } else { "no" };
    write!(text, "; {word} after {more} more at this share")
}

/// Appends the smallest setting that is below the bound; or that none is, and which may be.
fn push_answer(
    alloc: Global,
    text: &mut String,
    settings: &[SettingRuns<'_>],
    order: &[usize],
    differing: &[usize],
    question: &SplitQuestion,
) -> Result<(), AllocError> {
    let runs = runs_in_order(alloc, settings, order, question.phase)?;
    let percent = question.bound.get();
    if let Some(place) = first_below(&runs, question.bound) {
        write!(text, "\nThe smallest setting below {percent} %: ")?;
        push_name(text, &cells_of(settings, order, place), differing)?;
        return text.push('\n');
    }
    write!(text, "\nNo setting is below {percent} %")?;
    let Some(place) = first_open(&runs, question.bound) else {
        return text.push_str(", and none is open\n");
    };
    text.push_str(" yet. The smallest that is open: ")?;
    push_name(text, &cells_of(settings, order, place), differing)?;
    text.push_str(" (")?;
    push_more(text, runs[place], question.bound)?;
    text.push_str(")\n")
}

/// Of settings in an order, the place of the first of which more runs may tell.
fn first_open(settings: &[SplitRuns], bound: Share) -> Option<usize>
    ensures { IfSome result (λ place. place < length settings.now) }
{
    for (place, runs) in settings.iter().enumerate() {
        if runs.verdict(bound) == Verdict::Open {
            return Some(place);
        }
    }
    None
}

/// The runs of each setting, in this order.
fn runs_in_order(
    alloc: Global,
    settings: &[SettingRuns<'_>],
    order: &[usize],
    phase: Phase,
) -> Result<Vec<SplitRuns>, AllocError> {
    let mut runs = Vec::new(alloc);
    for place in order {
        if let Some(setting) = settings.get(*place) {
            runs.push(split_runs(&setting.runs, phase))?;
        }
    }
    Ok(runs)
}

/// The cells of the setting at a place in this order.
fn cells_of(settings: &[SettingRuns<'_>], order: &[usize], place: usize) -> [Cell; OPTIONS] {
    let at = order.get(place).copied().unwrap_or(0);
    match settings.get(at) {
        Some(setting) => setting.cells,
        None => [Cell::Empty; OPTIONS],
    }
}

/// Appends a setting of these cells by the options in which settings differ.
fn push_name(text: &mut String, cells: &[Cell], differing: &[usize]) -> Result<(), AllocError> {
    if differing.is_empty() {
        return text.push_str("this one");
    }
    for (number, place) in differing.iter().enumerate() {
        let name = setting_name(*place).name;
        let shown = ShownCell(cell_at(cells, *place));
        let comma = if number == 0 { "" } else { ", " };
        write!(text, "{comma}{name} {shown}")?;
    }
    Ok(())
}
