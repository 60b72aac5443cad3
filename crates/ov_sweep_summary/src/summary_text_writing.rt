use crate::means_of_measures::{known_measures, mean_after};
use crate::phase_summary::{PhaseSummary, count, phase_summary};
use crate::runs_by_setting::{differing, push_command, run_counts};
use crate::setting_names::setting_name;
use crate::split_answer::push_few_runs;
use crate::text_table::{end_line, push_table};
use crate::{SettingRuns, ShownCell, SplitRuns, Survival};
use ov_grow_options::Share;
use ov_ids::OutOfMemory;
use ov_sweep_rows::{Cell, Measured, Phase, Row, cell_at};
use std::alloc::{AllocError, Global};
use std::fmt::Write;

/// The heads of the columns behind the options.
const HEADS: [&str; 10] = [
    "runs",
    "split",
    "share",
    "95 % interval",
    "k 25 %",
    "k 50 %",
    "k 75 %",
    "least degree",
    "mean",
    "at k 50 %",
];

/// The share of split runs, in percent, of which the heading says whether the runs are too few to be below it.
const USUAL_BOUND: u32 = 1;

/// What the columns mean.
const MEANING: &str = "
split: after how many runs the overlay is split, with their share of all runs, and Wilson's interval for it.
k: how few crashes split the overlay, 0 if it is split or has a single node. k 25 %: a quarter of the runs have this k
at most; so half of them have k 50 % at most, the median, and the last column says what such an overlay survives.
least degree: the fewest links of a node, the least of all runs and their mean.
";

/// What the means are.
const MEANS: &str = "
Means of all runs that have the number, rounded down; none if no run has it.
";

/// The summary of a sweep for people, in plain text: for each phase a table with a line for each setting. Only the
/// options in which settings differ are columns; the others stand in the first line. Behind them stand how many runs
/// there are; how many of them are split, their share, and its interval with a confidence of 95 % (Wilson); the
/// quartiles of k; the least and the mean least degree; and how many crashes an overlay with the median k survives.
/// If rows have delivered shares, costs or shapes, their means follow, in a table for each phase.
/// OutOfMemory (99) if an allocation is refused.
pub fn summary_text(alloc: Global, settings: &[SettingRuns<'_>]) -> Result<String, OutOfMemory> {
    let mut text = String::new(alloc);
    push_summary(alloc, &mut text, settings)?;
    Ok(text)
}

/// Appends the summary.
fn push_summary(
    alloc: Global,
    text: &mut String,
    settings: &[SettingRuns<'_>],
) -> Result<(), AllocError> {
    let differing = differing(alloc, settings)?;
    push_heading(text, settings, &differing)?;
    for phase in Phase::ALL {
        push_phase(alloc, text, settings, &differing, phase)?;
    }
    text.push_str(MEANING)?;
    push_all_means(alloc, text, settings, &differing)
}

/// Appends the tables of means, if a run has something of which they are.
fn push_all_means(
    alloc: Global,
    text: &mut String,
    settings: &[SettingRuns<'_>],
    differing: &[usize],
) -> Result<(), AllocError> {
    let known = known_measures(alloc, settings)?;
    if known.is_empty() {
        return Ok(());
    }
    for phase in Phase::ALL {
        push_means(alloc, text, settings, differing, &known, phase)?;
    }
    push_meaning(text, &known)
}

/// Appends what the means are.
fn push_meaning(text: &mut String, known: &[Measured]) -> Result<(), AllocError> {
    text.push_str(MEANS)?;
    for measured in known {
        text.push_str(measured.meaning())?;
    }
    Ok(())
}

/// Appends the table of means of a phase.
fn push_means(
    alloc: Global,
    text: &mut String,
    settings: &[SettingRuns<'_>],
    differing: &[usize],
    known: &[Measured],
    phase: Phase,
) -> Result<(), AllocError> {
    let name = phase_name(phase);
    write!(text, "\nMeans after {name}\n")?;
    let mut lines = String::new(alloc);
    put_means(&mut lines, settings, differing, known, phase)?;
    push_table(alloc, text, lines.as_str())
}

/// Adds the lines of a table of means.
fn put_means(
    lines: &mut String,
    settings: &[SettingRuns<'_>],
    differing: &[usize],
    known: &[Measured],
    phase: Phase,
) -> Result<(), AllocError> {
    put_option_heads(lines, differing)?;
    for measured in known {
        for column in measured.columns() {
            put(lines, column.head)?;
        }
    }
    end_line(lines)?;
    for setting in settings {
        put_options(lines, &setting.cells, differing)?;
        for measured in known {
            put_means_of(lines, &setting.runs, *measured, phase)?;
        }
        end_line(lines)?;
    }
    Ok(())
}

/// Adds the means of runs, with four decimal digits; `none` if no run has the number.
fn put_means_of(
    lines: &mut String,
    runs: &[&Row],
    measured: Measured,
    phase: Phase,
) -> Result<(), AllocError> {
    for place in 0..measured.columns().len() {
        match mean_after(runs, phase, measured, place) {
            None => put(lines, "none")?,
            Some(mean) => write!(lines, "{mean}\t")?,
        }
    }
    Ok(())
}

/// Appends the first lines: what was swept, and how many runs there are.
fn push_heading(
    text: &mut String,
    settings: &[SettingRuns<'_>],
    differing: &[usize],
) -> Result<(), AllocError> {
    push_command(text, settings, differing)?;
    let number = settings.len();
    let (fewest, most) = run_counts(settings);
    write!(text, "\nsettings: {number}; runs of each: ")?;
    if fewest != most {
        write!(text, "{fewest} to ")?;
    }
    write!(text, "{most}\n")?;
    match Share::new(USUAL_BOUND) {
        Some(bound) => push_few_runs(text, count(fewest), bound),
        None => Ok(()),
    }
}

/// Appends the table of a phase.
fn push_phase(
    alloc: Global,
    text: &mut String,
    settings: &[SettingRuns<'_>],
    differing: &[usize],
    phase: Phase,
) -> Result<(), AllocError> {
    let name = phase_name(phase);
    write!(text, "\nAfter {name}\n")?;
    let mut lines = String::new(alloc);
    put_heads(&mut lines, differing, &HEADS)?;
    end_line(&mut lines)?;
    for setting in settings {
        put_line(alloc, &mut lines, setting, differing, phase)?;
    }
    push_table(alloc, text, lines.as_str())
}

/// What ends with a phase.
pub fn phase_name(phase: Phase) -> &'static str {
    match phase {
        Phase::Settle => "settling",
        Phase::Crash => "the crash",
        Phase::Heal => "healing",
    }
}

/// Adds a text of a line.
pub(crate) fn put(lines: &mut String, text: &str) -> Result<(), AllocError> {
    lines.push_str(text)?;
    lines.push('\t')
}

/// Adds the heads of the columns of the options in which settings differ, and these behind them.
pub(crate) fn put_heads(
    lines: &mut String,
    differing: &[usize],
    more: &[&'static str],
) -> Result<(), AllocError> {
    put_option_heads(lines, differing)?;
    for head in more {
        put(lines, head)?;
    }
    Ok(())
}

/// Adds the names of the options in which settings differ.
fn put_option_heads(lines: &mut String, differing: &[usize]) -> Result<(), AllocError> {
    for place in differing {
        put(lines, setting_name(*place).name)?;
    }
    Ok(())
}

/// Adds what a setting of these cells has for the options in which settings differ.
pub(crate) fn put_options(
    lines: &mut String,
    cells: &[Cell],
    differing: &[usize],
) -> Result<(), AllocError> {
    for place in differing {
        let shown = ShownCell(cell_at(cells, *place));
        write!(lines, "{shown}\t")?;
    }
    Ok(())
}

/// Adds the line of a setting.
fn put_line(
    alloc: Global,
    lines: &mut String,
    setting: &SettingRuns<'_>,
    differing: &[usize],
    phase: Phase,
) -> Result<(), AllocError> {
    let summary = phase_summary(alloc, &setting.runs, phase)?;
    put_options(lines, &setting.cells, differing)?;
    put_split(lines, summary.counted)?;
    put_rest(lines, &summary)?;
    end_line(lines)
}

/// Adds how many runs there are, and how many of them are split.
pub(crate) fn put_split(lines: &mut String, counted: SplitRuns) -> Result<(), AllocError> {
    let SplitRuns { split, runs } = counted;
    let share = counted.percent();
    let interval = counted.interval();
    let low = interval.low * 100.0;
    let high = interval.high * 100.0;
    write!(
        lines,
        "{runs}\t{split}\t{share:.1} %\t{low:.1} to {high:.1} %\t"
    )
}

/// Adds the quartiles of k, the least degrees, and what an overlay with the median survives.
fn put_rest(lines: &mut String, summary: &PhaseSummary) -> Result<(), AllocError> {
    let PhaseSummary {
        counted,
        quartiles: [first, median, third],
        least_degree,
        mean_least_degree,
    } = *summary;
    let survival = Survival {
        k: median,
        is_split: counted.split > 0,
    };
    write!(
        lines,
        "{first}\t{median}\t{third}\t{least_degree}\t{mean_least_degree:.2}\t{survival}\t"
    )
}
