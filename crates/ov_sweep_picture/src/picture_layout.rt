use crate::plot_means::{STRIPS, axis_ends};
use ov_sweep_rows::Phase;
use ov_sweep_summary::{SettingRuns, ascending_ks, split_runs};
use std::alloc::{AllocError, Global};

/// How wide the picture is. This and all lengths below are in units of the picture, which are pixels at its own size.
pub(crate) const WIDTH: f64 = 1200.0;

/// How far the axes are from the left edge.
pub(crate) const LEFT: f64 = 120.0;

/// How far the columns end from the right edge.
const RIGHT: f64 = 20.0;

/// How high the heading is.
pub(crate) const HEADING: f64 = 108.0;

/// How much of a strip, such as that of the shares at the top of a panel, is above what it plots, how high that is, and
/// how much stands between it and what follows.
pub(crate) const TOP: f64 = 26.0;

pub(crate) const SHARES: f64 = 60.0;

const GAP: f64 = 14.0;

/// How high a strip is.
pub(crate) const STRIP: f64 = TOP + SHARES + GAP;

/// How high the room of k is.
pub(crate) const PLOT: f64 = 300.0;

/// How much is between the room of k and the strips below it.
pub(crate) const CAPTION: f64 = 32.0;

/// How much of a panel is below what it plots, besides a line for each option in which settings differ.
const BELOW: f64 = 58.0;

/// How high a line of labels is.
pub(crate) const LABEL: f64 = 16.0;

/// The most columns of a panel.
const MOST_COLUMNS: usize = 12;

/// The widest column.
const WIDEST_COLUMN: f64 = 270.0;

/// How much of a column each of the three phases takes. The rest parts the column from the next one.
pub(crate) const PHASE: f64 = 0.29;

/// How much of its room a phase's dots may take.
const FILL: f64 = 0.88;

/// The widest distance of two dots.
const WIDEST_STEP: f64 = 8.0;

/// How many shorter distances are tried, each shorter by a hundredth of the widest.
const STEPS: u32 = 99;

/// Round shares, in percent.
const ROUND_SHARES: [f64; 5] = [2.0, 5.0, 10.0, 20.0, 50.0];

/// Where everything stands.
#[derive(Clone, Copy)]
pub(crate) struct Layout {
    /// How many settings a panel shows.
    pub(crate) columns: usize,
    /// How wide the column of a setting is.
    pub(crate) column: f64,
    /// The highest k.
    pub(crate) most_k: u32,
    /// The highest share of split runs that is drawn, in percent.
    pub(crate) most_share: f64,
    /// How far two dots are from each other.
    pub(crate) step: f64,
    /// How many lines of labels there are.
    pub(crate) labels: usize,
    /// Where the axes of the strips of broadcasts end, if they are drawn.
    pub(crate) ends: Option<[f64; STRIPS]>,
}

impl Layout {
    /// How high the room of one k is.
    pub(crate) fn k_height(&self) -> f64 {
        PLOT / (f64::from(self.most_k) + 1.0)
    }

    /// How high all strips of broadcasts are.
    pub(crate) fn strips(&self) -> f64 {
        match self.ends {
            Some(_) => CAPTION + number(STRIPS) * STRIP,
            None => 0.0,
        }
    }

    /// How high a panel is.
    pub(crate) fn panel(&self) -> f64 {
        STRIP + PLOT + self.strips() + BELOW + number(self.labels) * LABEL
    }

    /// How many dots stand beside one another in the room of one phase.
    pub(crate) fn dots_abreast(&self) -> f64 {
        dots_abreast(self.column, self.step)
    }
}

/// Where everything of these settings stands, if they differ in so many options.
pub(crate) fn layout_of(
    alloc: Global,
    settings: &[SettingRuns<'_>],
    labels: usize,
) -> Result<Layout, AllocError> {
    let panels = settings.len().div_ceil(MOST_COLUMNS).max(1);
    let columns = settings.len().div_ceil(panels).max(1);
    let column = ((WIDTH - LEFT - RIGHT) / number(columns)).min(WIDEST_COLUMN);
    let (most_k, most_dots) = extremes(alloc, settings)?;
    let height = PLOT / (f64::from(most_k) + 1.0);
    Ok(Layout {
        columns,
        column,
        most_k,
        most_share: most_share(settings),
        step: step_for(most_dots, column, height),
        labels,
        ends: axis_ends(settings),
    })
}

/// The lowest of some round shares, in percent, that no interval exceeds.
fn most_share(settings: &[SettingRuns<'_>]) -> f64 {
    let mut highest = 0.0;
    for setting in settings {
        for phase in Phase::ALL {
            highest = split_runs(&setting.runs, phase)
                .interval()
                .high
                .max(highest);
        }
    }
    for share in ROUND_SHARES {
        if highest * 100.0 <= share {
            return share;
        }
    }
    100.0
}

/// The widest distance of two dots with which so many dots fit the room of a phase and a k.
fn step_for(dots: f64, column: f64, height: f64) -> f64 {
    for shorter in 0..STEPS {
        let step = WIDEST_STEP * (1.0 - f64::from(shorter) / 100.0);
        if (dots / dots_abreast(column, step)).ceil() * step <= height * FILL {
            return step;
        }
    }
    WIDEST_STEP / 100.0
}

/// How many dots of this distance stand beside one another in the room of a phase.
fn dots_abreast(column: f64, step: f64) -> f64 {
    (column * PHASE * FILL / step).floor().max(1.0)
}

/// The highest k, and the most runs of one setting with the same k.
fn extremes(alloc: Global, settings: &[SettingRuns<'_>]) -> Result<(u32, f64), AllocError> {
    let mut most_k: u32 = 1;
    let mut most_dots: f64 = 1.0;
    for setting in settings {
        for phase in Phase::ALL {
            let ks = ascending_ks(alloc, &setting.runs, phase)?;
            most_k = most_k.max(ks.last().copied().unwrap_or(0));
            most_dots = most_dots.max(most_alike(&ks));
        }
    }
    Ok((most_k, most_dots))
}

/// The most equal numbers among ascending ones.
fn most_alike(ascending: &[u32]) -> f64 {
    let mut most = 0;
    for alike in ascending.chunk_by(|a, b| a == b) {
        most = most.max(alike.len());
    }
    number(most)
}

/// A number of runs, columns or lines, to be reckoned with. There are never more than 32 bits count.
pub(crate) fn number(count: usize) -> f64 {
    f64::from(u32::try_from(count).unwrap_or(u32::MAX))
}
