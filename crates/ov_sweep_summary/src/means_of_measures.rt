ghost use Rattle.std.specs.Prelude.{◌≡◌, ◌≤◌, ◌*◌, map};
ghost use Rattle.ov_sweep_summary.specs.Means.{mean_after, mean_of, most_parts, parts_after, parts_of};

use crate::SettingRuns;
use ov_sweep_rows::{Cell, FourDecimals, Measured, Phase, Row};
use std::alloc::{AllocError, Global};

/// Whether it is known of a run of these settings, whichever it is.
pub fn is_known(settings: &[SettingRuns<'_>], measured: Measured) -> bool {
    for setting in settings {
        if measured.is_known(&setting.runs) {
            return true;
        }
    }
    false
}

/// What a run of these settings has, in the order in which it is told.
pub(crate) fn known_measures(
    alloc: Global,
    settings: &[SettingRuns<'_>],
) -> Result<Vec<Measured>, AllocError> {
    let mut known = Vec::new(alloc);
    for measured in Measured::ALL {
        if is_known(settings, measured) {
            known.push(measured)?;
        }
    }
    Ok(known)
}

/// The number of a cell, in parts of 10,000, if 64 bits count them.
fn parts_of(cell: Cell) -> Option<u64>
    ensures { result ≡ parts_of cell }
{
    match cell {
        Cell::Number(number) => Some(number.checked_mul(FourDecimals::ONE)?),
        Cell::Decimals(number) => Some(number.parts),
        _ => None,
    }
}

/// What a run has of a measure after a phase, in parts of 10,000.
fn parts_after(run: &Row, phase: Phase, measured: Measured, place: usize) -> Option<u64>
    ensures { result ≡ parts_after phase measured place run.now }
{
    parts_of(measured.cell(run.after(phase), place))
}

/// The mean of what these runs have of a measure after a phase, over those that have something, rounded down.
pub fn mean_after(
    runs: &[&Row],
    phase: Phase,
    measured: Measured,
    place: usize,
) -> Option<FourDecimals>
    ensures { result ≡ mean_after phase measured place (map (λ run. run.now) runs.now) }
{
    let mut total: u128 = 0;
    let mut count: u64 = 0;
    for run in runs {
        if let Some(parts) = parts_after(run, phase, measured, place) {
            total += u128::from(parts);
            count += 1;
        }
    }
    mean_of(total, count)
}

/// The mean of so many numbers of 64 bits with this sum, rounded down.
fn mean_of(total: u128, count: u64) -> Option<FourDecimals>
    requires { total ≤ count * most_parts }
    ensures { result ≡ mean_of total count }
{
    if count == 0 {
        return None;
    }
    Some(FourDecimals {
        parts: (total / u128::from(count)) as u64,
    })
}

/// The least and the most that one of these runs has of a measure after a phase, in parts of 10,000.
pub fn ends_after(
    runs: &[&Row],
    phase: Phase,
    measured: Measured,
    place: usize,
) -> Option<(u64, u64)> {
    let mut ends: Option<(u64, u64)> = None;
    for run in runs {
        if let Some(number) = parts_after(run, phase, measured, place) {
            let (low, high) = ends.unwrap_or((number, number));
            ends = Some((low.min(number), high.max(number)));
        }
    }
    ends
}
