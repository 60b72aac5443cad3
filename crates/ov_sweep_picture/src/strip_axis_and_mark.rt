use crate::picture_layout::{LEFT, SHARES, TOP};
use crate::picture_style::tone;
use crate::plot_panel::push_name;
use ov_sweep_rows::Phase;
use std::alloc::AllocError;
use std::fmt::Write;

/// A strip of a panel, whose upper edge is at `top`. In it numbers are plotted from 0 to `most`.
#[derive(Clone, Copy)]
pub(crate) struct Strip {
    pub(crate) top: f64,
    pub(crate) most: f64,
}

/// A number that is plotted, and the ends of a bar about it.
#[derive(Clone, Copy)]
pub(crate) struct StripMark {
    pub(crate) low: f64,
    pub(crate) number: f64,
    pub(crate) high: f64,
}

impl Strip {
    /// The height at which a number stands.
    fn height_of(self, number: f64) -> f64 {
        self.top + TOP + SHARES * (1.0 - number / self.most)
    }
}

/// Appends the axis of a strip: what it shows, and a line for 0 and one for the highest number.
pub(crate) fn push_strip_axis(
    text: &mut String,
    strip: Strip,
    right: f64,
    name: &str,
) -> Result<(), AllocError> {
    push_name(text, strip.top + 12.0, name)?;
    for number in [0.0, strip.most] {
        push_tick(text, strip.height_of(number), right, "", number)?;
    }
    Ok(())
}

/// Appends a line at a height of a panel that ends at `right`, and before its vertical axis a number behind some words.
pub(crate) fn push_tick(
    text: &mut String,
    y: f64,
    right: f64,
    words: &str,
    number: f64,
) -> Result<(), AllocError> {
    let x = LEFT - 10.0;
    let below = y + 4.5;
    write!(
        text,
        "<path class=\"line\" d=\"M{LEFT} {y:.1}H{right:.1}\"/>\n\
         <text class=\"end\" x=\"{x}\" y=\"{below:.1}\">{words}{number}</text>\n"
    )
}

/// Appends a dot for a number after a phase, with its bar, and the beginning of the text above it.
pub(crate) fn push_mark(
    text: &mut String,
    strip: Strip,
    phase: Phase,
    x: f64,
    mark: StripMark,
) -> Result<(), AllocError> {
    let class = tone(phase);
    let low = strip.height_of(mark.low);
    let high = strip.height_of(mark.high);
    let y = strip.height_of(mark.number);
    write!(
        text,
        "<path class=\"{class}\" stroke-width=\"2\" d=\"M{x:.1} {low:.1}V{high:.1}\"/>\n\
         <path class=\"{class}\" stroke-width=\"7\" d=\"M{x:.1} {y:.1}h0\"/>\n"
    )?;
    let y = strip.top + 12.0;
    write!(
        text,
        "<text class=\"small middle {class}\" x=\"{x:.1}\" y=\"{y:.1}\">"
    )
}
