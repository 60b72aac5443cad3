use crate::picture_layout::{Layout, number};
use crate::picture_style::tone;
use ov_sweep_rows::Phase;
use std::alloc::AllocError;
use std::fmt::Write;

/// How much of the distance of two dots one dot is wide.
const DOT: f64 = 0.8;

/// Appends a dot for each run of a setting after a phase, at its k: beside one another and in rows about the point of
/// that k. `middle` is the middle of the phase's room, and `zero` the height of k 0.
pub(crate) fn push_dots(
    text: &mut String,
    layout: &Layout,
    phase: Phase,
    ascending_ks: &[u32],
    middle: f64,
    zero: f64,
) -> Result<(), AllocError> {
    let class = tone(phase);
    let width = layout.step * DOT;
    write!(
        text,
        "<path class=\"{class}\" stroke-width=\"{width:.2}\" d=\""
    )?;
    for alike in ascending_ks.chunk_by(|a, b| a == b) {
        let k = alike.first().copied().unwrap_or(0);
        let height = zero - f64::from(k) * layout.k_height();
        push_alike(text, layout, alike.len(), middle, height)?;
    }
    text.push_str("\"/>\n")
}

/// Appends so many dots about a point.
fn push_alike(
    text: &mut String,
    layout: &Layout,
    dots: usize,
    x: f64,
    y: f64,
) -> Result<(), AllocError> {
    let abreast = layout.dots_abreast();
    let all = number(dots);
    let rows = (all / abreast).ceil();
    for place in 0..dots {
        let row = (number(place) / abreast).floor();
        let in_row = abreast.min(all - row * abreast);
        let right = number(place) - row * abreast - (in_row - 1.0) / 2.0;
        let down = row - (rows - 1.0) / 2.0;
        let at = x + right * layout.step;
        let height = y + down * layout.step;
        write!(text, "M{at:.1} {height:.1}h0")?;
    }
    Ok(())
}
