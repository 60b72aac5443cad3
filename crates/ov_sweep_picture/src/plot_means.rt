use crate::picture_layout::LEFT;
use crate::plot_panel::Panel;
use crate::strip_axis_and_mark::{Strip, StripMark, push_mark, push_strip_axis};
use ov_sweep_rows::{FourDecimals, Measured, Phase, Row};
use ov_sweep_summary::{Measure, SettingRuns, ends_after, is_known, mean_after};
use std::alloc::AllocError;
use std::fmt::Write;

/// How many measures of broadcasts are drawn.
pub(crate) const STRIPS: usize = 7;

/// The measures of broadcasts, in the order of their strips.
const DRAWN: [Measure; STRIPS] = [
    (Measured::Delivered, 0, "delivered"),
    (Measured::Costs, 4, "hops"),
    (Measured::Costs, 5, "redundancy"),
    (Measured::Costs, 0, "gossip"),
    (Measured::Costs, 1, "ihave"),
    (Measured::Costs, 2, "graft"),
    (Measured::Costs, 3, "prune"),
];

/// The measure of a strip, counted from 0; the last one behind the last.
fn drawn(place: usize) -> Measure {
    DRAWN[place.min(STRIPS - 1)]
}

/// What stands above the strips.
const CAPTION: &str = "\
broadcasts: a dot is the mean of all runs, with a bar from the least run to the most";

/// Numbers at which an axis may end.
const ENDS: [f64; 23] = [
    0.1,
    0.2,
    0.5,
    1.0,
    2.0,
    5.0,
    10.0,
    20.0,
    50.0,
    100.0,
    200.0,
    500.0,
    1_000.0,
    2_000.0,
    5_000.0,
    10_000.0,
    20_000.0,
    50_000.0,
    100_000.0,
    200_000.0,
    500_000.0,
    1_000_000.0,
    2_000_000.0,
];

/// Where the axis of each strip ends, if a run has costs; else no strips are drawn.
pub(crate) fn axis_ends(settings: &[SettingRuns<'_>]) -> Option<[f64; STRIPS]> {
    if !is_known(settings, Measured::Costs) {
        return None;
    }
    let mut ends = [1.0; STRIPS];
    for (place, end) in ends.iter_mut().enumerate() {
        *end = axis_end(settings, drawn(place));
    }
    Some(ends)
}

/// The lowest of some round numbers that no run exceeds; beyond the last of them the highest that a run has.
fn axis_end(settings: &[SettingRuns<'_>], measure: Measure) -> f64 {
    let most = plotted(most_of(settings, measure));
    for end in ENDS {
        if most <= end {
            return end;
        }
    }
    most
}

/// The most that a run of these settings has of a measure after a phase, in parts of 10,000.
fn most_of(settings: &[SettingRuns<'_>], measure: Measure) -> u64 {
    let (measured, place, _) = measure;
    let mut most = 0;
    for setting in settings {
        for phase in Phase::ALL {
            if let Some((_, high)) = ends_after(&setting.runs, phase, measured, place) {
                most = high.max(most);
            }
        }
    }
    most
}

/// A number in parts of 10,000, to be reckoned with. What is whole in it is taken for 32 bits at most.
fn plotted(parts: u64) -> f64 {
    let whole = u32::try_from(parts / FourDecimals::ONE).unwrap_or(u32::MAX);
    let rest = u32::try_from(parts % FourDecimals::ONE).unwrap_or(0);
    f64::from(whole) + f64::from(rest) / 10_000.0
}

/// Appends the strips of a panel, one for each measure of broadcasts, if they are drawn.
pub(crate) fn push_strips(
    text: &mut String,
    panel: Panel<'_>,
    settings: &[SettingRuns<'_>],
) -> Result<(), AllocError> {
    let Some(ends) = panel.layout.ends else {
        return Ok(());
    };
    let y = panel.strip_top(0) - 10.0;
    write!(text, "<text x=\"{LEFT}\" y=\"{y:.1}\">{CAPTION}</text>\n")?;
    for (place, most) in ends.iter().enumerate() {
        let strip = Strip {
            top: panel.strip_top(place),
            most: *most,
        };
        push_strip(text, panel, strip, drawn(place), settings)?;
    }
    Ok(())
}

/// Appends the strip of a measure.
fn push_strip(
    text: &mut String,
    panel: Panel<'_>,
    strip: Strip,
    measure: Measure,
    settings: &[SettingRuns<'_>],
) -> Result<(), AllocError> {
    push_strip_axis(text, strip, panel.right(settings.len()), measure.2)?;
    for (place, setting) in settings.iter().enumerate() {
        push_means(
            text,
            strip,
            measure,
            &setting.runs,
            panel.rooms(panel.middle(place)),
        )?;
    }
    Ok(())
}

/// Appends the means of runs of one setting, each in the room of its phase.
fn push_means(
    text: &mut String,
    strip: Strip,
    measure: Measure,
    runs: &[&Row],
    rooms: [(Phase, f64); 3],
) -> Result<(), AllocError> {
    let (measured, place, _) = measure;
    for (phase, x) in rooms {
        if let (Some(mean), Some((low, high))) = (
            mean_after(runs, phase, measured, place),
            ends_after(runs, phase, measured, place),
        ) {
            let mark = StripMark {
                low: plotted(low),
                number: plotted(mean.parts),
                high: plotted(high),
            };
            push_mark(text, strip, phase, x, mark)?;
            push_short(text, mean)?;
            text.push_str("</text>\n")?;
        }
    }
    Ok(())
}

/// Appends a number with few characters, rounded down. One above 0 is not rounded to that.
fn push_short(text: &mut String, number: FourDecimals) -> Result<(), AllocError> {
    let whole = number.parts / FourDecimals::ONE;
    let rest = number.parts % FourDecimals::ONE;
    let (tenths, hundredths) = (rest / 1_000, rest / 100);
    if number.parts > 0 && number.parts < 100 {
        text.push_str("&lt;.01")
    } else if whole < 10 {
        write!(text, "{whole}.{hundredths:02}")
    } else if whole < 100 {
        write!(text, "{whole}.{tenths}")
    } else if whole < 10_000 {
        write!(text, "{whole}")
    } else if whole < 1_000_000 {
        let thousands = whole / 1_000;
        write!(text, "{thousands}k")
    } else {
        let millions = whole / 1_000_000;
        write!(text, "{millions}M")
    }
}
