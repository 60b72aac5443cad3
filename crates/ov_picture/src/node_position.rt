use std::f64::consts::PI;

/// A whole turn.
pub(crate) const TURN: f64 = 2.0 * PI;

/// To the right, as an angle.
pub(crate) const RIGHT: f64 = 0.0;

/// To the left.
pub(crate) const LEFT: f64 = PI;

/// Upwards. Angles go clockwise, since heights count from the top.
pub(crate) const UP: f64 = 1.5 * PI;

/// Where a node stands, and the direction in which there is room for its label. Lengths are in units of the picture,
/// which are pixels at its own size.
#[derive(Clone, Copy)]
pub(crate) struct NodePosition {
    pub(crate) x: f64,
    pub(crate) y: f64,
    pub(crate) outward: f64,
}

/// A count, to be reckoned with. There are never more than 32 bits count.
pub(crate) fn number(count: usize) -> f64 {
    f64::from(u32::try_from(count).unwrap_or(u32::MAX))
}
