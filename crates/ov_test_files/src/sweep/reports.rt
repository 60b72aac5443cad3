//! The summary and the picture of four rows, and Wilson's interval, reckoned by hand.
use crate::sweep::rows::HEADER;
use ov_grow_options::Share;
use ov_ids::OutOfMemory;
use ov_sweep_picture::svg_text;
use ov_sweep_rows::{Row, RowFault, read_rows};
use ov_sweep_summary::{
    Interval, SettingRuns, SplitRuns, Verdict, settings_of, summary_text, wilson_interval,
};
use std::alloc::{AllocError, Global};

/// Four rows: one with four active members, and three with three. Of the latter k is 2, 0 and 1.
const FOUR: [&str; 4] = [
    "60,4,30,6,3,3,4,4,never,0,0,0,random,,3,10,2,0,0,60,3,4,170,900,,54,0,0,150,906,,54,2,2,160,990,\n",
    "60,3,30,6,3,3,4,4,never,0,0,0,random,,3,10,2,0,0,60,2,2,120,900,,54,0,0,100,906,,54,2,2,110,990,\n",
    "60,3,30,6,3,3,4,4,never,0,0,0,random,,3,10,2,0,1,60,0,0,120,900,,54,0,0,100,906,,54,2,3,110,990,\n",
    "60,3,30,6,3,3,4,4,never,0,0,0,random,,3,10,2,0,2,60,1,1,120,900,,54,0,0,100,906,,54,5,5,110,990,\n",
];

/// Their summary.
const SUMMARY: &str = "\
overlay sweep --nodes 60 --crash 10
settings: 2; runs of each: 1 to 3
No split in 1 run still allows 79.3 %: below 1 % takes 381 runs

After settling
active  runs  split   share  95 % interval  k 25 %  k 50 %  k 75 %  least degree  mean  at k 50 %
     4     1      0   0.0 %  0.0 to 79.3 %       3       3       3             4  4.00  k 3: survives any 2 crashes
     3     3      1  33.3 %  6.1 to 79.2 %       0       1       2             0  1.00  \
k 1: one crash may split it, so it survives none

After the crash
active  runs  split    share    95 % interval  k 25 %  k 50 %  k 75 %  least degree  mean  at k 50 %
     4     1      1  100.0 %  20.7 to 100.0 %       0       0       0             0  0.00  k 0: split already, so it survives none
     3     3      3  100.0 %  43.9 to 100.0 %       0       0       0             0  0.00  k 0: split already, so it survives none

After healing
active  runs  split  share  95 % interval  k 25 %  k 50 %  k 75 %  least degree  mean  at k 50 %
     4     1      0  0.0 %  0.0 to 79.3 %       2       2       2             2  2.00  k 2: survives any 1 crash
     3     3      0  0.0 %  0.0 to 56.1 %       2       2       5             2  3.33  k 2: survives any 1 crash

split: ";

/// What stands in the picture, and how often; None for once or more often.
const PARTS: [(&str, Option<usize>); 9] = [
    // a dot for each of four runs after each of three phases, one for each phase in the legend, and one for the share
    // of each of two settings after each phase, with a bar for its interval
    ("h0", Some(21)),
    ("stroke-width=\"2\"", Some(6)),
    (
        ">overlay sweep --nodes 60 --crash 10 --active 4,3<",
        Some(1),
    ),
    ("&lt;", Some(0)),
    ("width=\"1200\"", None),
    ("prefers-color-scheme:dark", None),
    (">33<", None),
    (">100<", None),
    ("</svg>\n", None),
];

/// Whether a part stands in a text so often.
fn stands(text: &str, part: &str, count: Option<usize>) -> bool {
    match count {
        Some(number) => text.matches(part).count() == number,
        None => text.contains(part),
    }
}

/// Whether a text has these parts.
fn has_parts(text: &str) -> bool {
    for (part, count) in PARTS {
        if !stands(text, part, count) {
            return false;
        }
    }
    true
}

/// The header and the four rows.
fn text(alloc: Global) -> Result<String, AllocError> {
    let mut text = String::from_str(alloc, HEADER)?;
    for row in FOUR {
        text.push_str(row)?;
    }
    Ok(text)
}

/// Whether the summary of these settings is that of the four rows.
fn is_summary(alloc: Global, settings: &[SettingRuns<'_>]) -> Result<bool, OutOfMemory> {
    Ok(summary_text(alloc, settings)?.as_str().starts_with(SUMMARY))
}

/// Whether the picture of these settings is that of the four rows.
fn is_picture(alloc: Global, settings: &[SettingRuns<'_>]) -> Result<bool, OutOfMemory> {
    Ok(has_parts(svg_text(alloc, settings)?.as_str()))
}

/// Whether the summary and the picture of rows are those of the four rows.
fn are_told(alloc: Global, rows: &[Row]) -> Result<bool, OutOfMemory> {
    let settings = settings_of(alloc, rows)?;
    Ok(is_summary(alloc, &settings)? && is_picture(alloc, &settings)?)
}

/// Whether a text has the summary and the picture of the four rows.
fn is_told(alloc: Global, text: &str) -> Result<bool, RowFault> {
    let rows = read_rows(alloc, text.as_bytes())?;
    are_told(alloc, &rows).map_err(|_| RowFault::OutOfMemory)
}

/// Whether the report of the four rows is theirs.
pub(crate) fn is_reported(alloc: Global) -> Result<bool, RowFault> {
    match text(alloc) {
        Ok(text) => is_told(alloc, text.as_str()),
        Err(_) => Err(RowFault::OutOfMemory),
    }
}

#[test]
fn four_rows_have_their_report(rt: HostRuntime) {
    assert!(rt; is_reported(rt.alloc()) == Ok(true));
}

/// Whether an interval is this one, to four places.
fn is_interval(alloc: Global, interval: Interval, shown: &str) -> bool {
    let low = interval.low;
    let high = interval.high;
    match format!(in alloc; "{low:.4} {high:.4}") {
        Ok(text) => text.as_str() == shown,
        Err(_) => false,
    }
}

/// Three of ten: z is 1.96, the middle (0.3 + z z / 20) / (1 + z z / 10) = 0.3555, and half the width 0.2477.
#[test]
fn three_of_ten(rt: HostRuntime) {
    assert!(rt; is_interval(rt.alloc(), wilson_interval(3, 10), "0.1078 0.6032"));
}

/// Whether the verdict of so many runs, reckoned in whole numbers, is that of the ends of their interval.
fn is_of_interval(runs: SplitRuns, bound: Share) -> bool {
    let share = f64::from(bound.get()) / 100.0;
    let interval = runs.interval();
    match runs.verdict(bound) {
        Verdict::Below => interval.high < share,
        Verdict::Open => interval.low <= share && share <= interval.high,
        Verdict::Above => share < interval.low,
    }
}

/// Whether that is so of up to 40 split runs of so many.
fn are_of_intervals(runs: u32, bound: Share) -> bool {
    for split in 0..runs.min(40) {
        if !is_of_interval(SplitRuns { split, runs }, bound) {
            return false;
        }
    }
    true
}

#[test]
fn verdicts_are_those_of_intervals(rt: HostRuntime) {
    for percent in [1, 2, 5, 50, 99] {
        for runs in [1, 2, 30, 73, 380, 381, 1000, 1_000_000] {
            let is_so = matches!(Share::new(percent), Some(bound) if are_of_intervals(runs, bound));
            assert!(rt; is_so, "{percent} {runs}");
        }
    }
}
