use crate::picture_layout::{CAPTION, LABEL, LEFT, Layout, PHASE, PLOT, STRIP, number};
use crate::plot_dots::push_dots;
use crate::plot_means::push_strips;
use crate::plot_shares::push_share;
use crate::strip_axis_and_mark::{Strip, push_strip_axis, push_tick};
use ov_sweep_rows::{Phase, Row, cell_at};
use ov_sweep_summary::{SettingRuns, ShownCell, ascending_ks, setting_name, split_runs};
use std::alloc::{AllocError, Global};
use std::fmt::Write;

/// What the vertical axis shows, and its unit.
const AXIS: &str = "k: fewest crashes that split it (nodes)";

/// How many numbers of an axis are written at most.
const MOST_TICKS: u32 = 20;

/// One row of columns of the picture, whose upper edge is at `top`.
#[derive(Clone, Copy)]
pub(crate) struct Panel<'a> {
    pub(crate) layout: &'a Layout,
    pub(crate) top: f64,
}

impl Panel<'_> {
    /// The height of k 0.
    fn zero(&self) -> f64 {
        self.bottom() - self.layout.k_height() / 2.0
    }

    /// The lower edge of the room of k.
    fn bottom(&self) -> f64 {
        self.top + STRIP + PLOT
    }

    /// The lower edge of all that is plotted.
    fn foot(&self) -> f64 {
        self.bottom() + self.layout.strips()
    }

    /// The upper edge of the strip at a place below the room of k.
    pub(crate) fn strip_top(&self, place: usize) -> f64 {
        self.bottom() + CAPTION + number(place) * STRIP
    }

    /// The strip of the shares of split runs, above the room of k.
    fn shares(&self) -> Strip {
        Strip {
            top: self.top,
            most: self.layout.most_share,
        }
    }

    /// The middle of the column at a place.
    pub(crate) fn middle(&self, place: usize) -> f64 {
        LEFT + (number(place) + 0.5) * self.layout.column
    }

    /// The right edge of so many columns.
    pub(crate) fn right(&self, columns: usize) -> f64 {
        LEFT + number(columns) * self.layout.column
    }

    /// The middle of the room of each phase, in the column with this middle.
    pub(crate) fn rooms(&self, middle: f64) -> [(Phase, f64); 3] {
        let apart = self.layout.column * PHASE;
        [
            (Phase::Settle, middle - apart),
            (Phase::Crash, middle),
            (Phase::Heal, middle + apart),
        ]
    }
}

/// Appends a panel: its axes, and a column for each of these settings.
pub(crate) fn push_panel(
    alloc: Global,
    text: &mut String,
    panel: Panel<'_>,
    settings: &[SettingRuns<'_>],
    differing: &[usize],
) -> Result<(), AllocError> {
    let right = panel.right(settings.len());
    push_axes(text, panel, right)?;
    push_strip_axis(text, panel.shares(), right, "runs split, %")?;
    for (place, setting) in settings.iter().enumerate() {
        push_column(alloc, text, panel, panel.middle(place), setting)?;
    }
    push_strips(text, panel, settings)?;
    for (line, option) in differing.iter().enumerate() {
        push_labels(text, panel, line, *option, settings)?;
    }
    Ok(())
}

/// Appends the axes of a panel that ends at `right`, with a line for each k that is written.
fn push_axes(text: &mut String, panel: Panel<'_>, right: f64) -> Result<(), AllocError> {
    let width = right - LEFT;
    let height = panel.layout.k_height();
    let band = panel.bottom() - height;
    write!(
        text,
        "<rect class=\"zero\" x=\"{LEFT}\" y=\"{band:.1}\" width=\"{width:.1}\" height=\"{height:.1}\"/>\n"
    )?;
    push_ticks(text, panel, right)?;
    let bottom = panel.bottom();
    let top = bottom - PLOT;
    let middle = bottom - PLOT / 2.0;
    write!(
        text,
        "<path class=\"axis\" fill=\"none\" d=\"M{LEFT} {top:.1}V{bottom:.1}H{right:.1}\"/>\n\
         <text class=\"middle\" transform=\"translate(20 {middle:.1}) rotate(-90)\">{AXIS}</text>\n"
    )
}

/// Appends a text that ends before the vertical axis.
pub(crate) fn push_name(text: &mut String, y: f64, name: &str) -> Result<(), AllocError> {
    let x = LEFT - 10.0;
    write!(
        text,
        "<text class=\"end\" x=\"{x}\" y=\"{y:.1}\">{name}</text>\n"
    )
}

/// Appends the numbers of the vertical axis, each with its line.
fn push_ticks(text: &mut String, panel: Panel<'_>, right: f64) -> Result<(), AllocError> {
    let most = panel.layout.most_k;
    let apart = most.div_ceil(MOST_TICKS).max(1);
    for tick in 0..=MOST_TICKS {
        let k = tick.saturating_mul(apart);
        if k <= most {
            let y = panel.zero() - f64::from(k) * panel.layout.k_height();
            let words = if k == 0 { "split " } else { "" };
            push_tick(text, y, right, words, f64::from(k))?;
        }
    }
    Ok(())
}

/// Appends the column of a setting, with its middle at `middle`: the line where it ends, the dots of its runs after each
/// phase, and above them the share that is split.
fn push_column(
    alloc: Global,
    text: &mut String,
    panel: Panel<'_>,
    middle: f64,
    setting: &SettingRuns<'_>,
) -> Result<(), AllocError> {
    let end = middle + panel.layout.column / 2.0;
    let top = panel.top;
    let foot = panel.foot();
    write!(
        text,
        "<path class=\"line\" d=\"M{end:.1} {top:.1}V{foot:.1}\"/>\n"
    )?;
    for (phase, x) in panel.rooms(middle) {
        push_runs(alloc, text, panel, &setting.runs, phase, x)?;
        push_share(
            text,
            panel.shares(),
            phase,
            split_runs(&setting.runs, phase),
            x,
        )?;
    }
    Ok(())
}

/// Appends the dots of runs after a phase.
fn push_runs(
    alloc: Global,
    text: &mut String,
    panel: Panel<'_>,
    runs: &[&Row],
    phase: Phase,
    x: f64,
) -> Result<(), AllocError> {
    let ks = ascending_ks(alloc, runs, phase)?;
    push_dots(text, panel.layout, phase, &ks, x, panel.zero())
}

/// Appends what the settings of a panel have in one of the options in which they differ, on this line below the axis.
fn push_labels(
    text: &mut String,
    panel: Panel<'_>,
    line: usize,
    option: usize,
    settings: &[SettingRuns<'_>],
) -> Result<(), AllocError> {
    let y = panel.foot() + 18.0 + number(line) * LABEL;
    push_name(text, y, setting_name(option).name)?;
    for (place, setting) in settings.iter().enumerate() {
        let x = panel.middle(place);
        let cell = ShownCell(cell_at(&setting.cells, option));
        write!(
            text,
            "<text class=\"middle\" x=\"{x:.1}\" y=\"{y:.1}\">{cell}</text>\n"
        )?;
    }
    Ok(())
}
