use crate::strip_axis_and_mark::{Strip, StripMark, push_mark};
use ov_sweep_rows::Phase;
use ov_sweep_summary::SplitRuns;
use std::alloc::AllocError;
use std::fmt::Write;

/// Appends the share of runs that are split after a phase: its number, a dot, and a bar for its interval.
pub(crate) fn push_share(
    text: &mut String,
    strip: Strip,
    phase: Phase,
    runs: SplitRuns,
    x: f64,
) -> Result<(), AllocError> {
    let share = runs.percent();
    let interval = runs.interval();
    let mark = StripMark {
        low: interval.low * 100.0,
        number: share,
        high: interval.high * 100.0,
    };
    push_mark(text, strip, phase, x, mark)?;
    push_percent(text, share)?;
    text.push_str("</text>\n")
}

/// Appends a share in whole percent. One that is neither nothing nor all is not rounded to that.
fn push_percent(text: &mut String, share: f64) -> Result<(), AllocError> {
    if share > 0.0 && share < 1.0 {
        text.push_str("&lt;1")
    } else if share > 99.0 && share < 100.0 {
        text.push_str("&gt;99")
    } else {
        write!(text, "{share:.0}")
    }
}
