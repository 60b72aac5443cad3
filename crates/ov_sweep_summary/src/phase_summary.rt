use crate::SplitRuns;
use ov_sweep_rows::{Phase, Row};
use std::alloc::{AllocError, Global};

/// What the runs of one setting came to after one phase.
#[derive(Clone, Copy)]
pub(crate) struct PhaseSummary {
    /// How many runs there are, and after how many of them the overlay is split.
    pub(crate) counted: SplitRuns,
    /// The k that 25 %, 50 % and 75 % of the runs have at most.
    pub(crate) quartiles: [u32; 3],
    /// The least of the least degrees.
    pub(crate) least_degree: u32,
    /// Their mean.
    pub(crate) mean_least_degree: f64,
}

/// What these runs of one setting came to after a phase.
pub(crate) fn phase_summary(
    alloc: Global,
    runs: &[&Row],
    phase: Phase,
) -> Result<PhaseSummary, AllocError> {
    let ks = ascending_ks(alloc, runs, phase)?;
    let (least_degree, mean_least_degree) = least_degrees(runs, phase);
    Ok(PhaseSummary {
        counted: split_runs(runs, phase),
        quartiles: [quartile(&ks, 1), quartile(&ks, 2), quartile(&ks, 3)],
        least_degree,
        mean_least_degree,
    })
}

/// How many runs these are, and after how many of them the overlay is split.
pub fn split_runs(runs: &[&Row], phase: Phase) -> SplitRuns {
    let mut split: u32 = 0;
    for run in runs {
        if run.after(phase).is_split() {
            split = split.saturating_add(1);
        }
    }
    SplitRuns {
        split,
        runs: count(runs.len()),
    }
}

/// The k of each run after a phase, in ascending order.
pub fn ascending_ks(alloc: Global, runs: &[&Row], phase: Phase) -> Result<Vec<u32>, AllocError> {
    let mut ks = Vec::new(alloc);
    for run in runs {
        ks.push(run.after(phase).k)?;
    }
    ks.sort()?;
    Ok(ks)
}

/// A number of runs. There are never more than 32 bits count.
pub(crate) fn count(runs: usize) -> u32 {
    u32::try_from(runs).unwrap_or(u32::MAX)
}

/// Of ascending numbers the least that so many quarters of them do not exceed: none is put between two of them.
fn quartile(ascending: &[u32], quarters: usize) -> u32 {
    let place = ascending.len().saturating_mul(quarters).div_ceil(4);
    match ascending.get(place.saturating_sub(1)) {
        None => 0,
        Some(k) => *k,
    }
}

/// The least of the least degrees, and their mean.
fn least_degrees(runs: &[&Row], phase: Phase) -> (u32, f64) {
    let mut least = u32::MAX;
    let mut sum = 0.0;
    for run in runs {
        let degree = run.after(phase).least_degree;
        least = least.min(degree);
        sum += f64::from(degree);
    }
    if runs.is_empty() {
        return (0, 0.0);
    }
    (least, sum / f64::from(count(runs.len())))
}
