use crate::layout::Layout;
use crate::node_position::NodePosition;
use crate::svg_nodes::reach_of;
use ov_drawing::{Drawing, DrawnLink};

/// How far a line keeps from the edge of a node, as a part of how far nodes reach.
const CLEAR: f64 = 0.45;

/// How far beside the middle of a link the points are that may bend it, as parts of its length, to its right first.
const ASIDE: [f64; 24] = [
    0.04, -0.04, 0.08, -0.08, 0.12, -0.12, 0.16, -0.16, 0.2, -0.2, 0.24, -0.24, 0.28, -0.28, 0.32,
    -0.32, 0.36, -0.36, 0.4, -0.4, 0.44, -0.44, 0.48, -0.48,
];

/// In how many steps the point of a curve is found that is nearest to a node.
const STEPS: usize = 4;

/// The line of a link, bent by a point that is so far beside its middle, as a part of its length.
#[derive(Clone, Copy)]
struct Curve {
    from: NodePosition,
    to: NodePosition,
    aside: f64,
}

/// The point that bends the line of a link clear of all nodes but its ends, or None if it is to be straight. If no line
/// is clear, it is the one that comes least near.
pub(crate) fn bend_of(
    drawing: &Drawing,
    layout: &Layout,
    link: &DrawnLink,
    from: NodePosition,
    to: NodePosition,
) -> Option<(f64, f64)> {
    let mut curve = Curve {
        from,
        to,
        aside: 0.0,
    };
    let mut room = curve.room(drawing, layout, link, f64::MIN);
    let mut found = None;
    for aside in ASIDE {
        curve.aside = aside;
        if room < 0.0 && curve.is_within(layout) {
            let more = curve.room(drawing, layout, link, room);
            if more > room {
                room = more;
                found = Some(curve.beside(aside));
            }
        }
    }
    found
}

impl Curve {
    /// How much nearer the line comes to a node than it may, as a negative number, or 0. No further node is looked at
    /// once there is as little room as `least`.
    fn room(&self, drawing: &Drawing, layout: &Layout, link: &DrawnLink, least: f64) -> f64 {
        let mut room: f64 = 0.0;
        for (node, place) in drawing.nodes.as_slice().iter().zip(&layout.places) {
            if room > least && node.id != link.from && node.id != link.to {
                let clear = reach_of(node.class, layout.reach) + CLEAR * layout.reach;
                room = room.min(self.distance(*place, clear) - clear);
            }
        }
        room
    }

    /// How far a place is from the line. If it is further than is asked for, a smaller distance may be told that is
    /// further too. Places are reckoned along the link and across it, in its lengths.
    fn distance(&self, place: NodePosition, asked: f64) -> f64 {
        let (right, down) = (self.to.x - self.from.x, self.to.y - self.from.y);
        let (x, y) = (place.x - self.from.x, place.y - self.from.y);
        let length = right.hypot(down);
        let along = (x * right + y * down) / (length * length);
        let across = (y * right - x * down) / (length * length);
        let most = (self.aside / 2.0).max(0.0);
        let least = (self.aside / 2.0).min(0.0);
        let outside = (across - most)
            .max(least - across)
            .max(-along)
            .max(along - 1.0);
        if outside * length > asked {
            return outside * length;
        }
        let mut at = along.max(0.0).min(1.0);
        for _ in 0..STEPS {
            let slope = 2.0 * self.aside * (1.0 - 2.0 * at);
            let beyond = across - 2.0 * self.aside * at * (1.0 - at);
            let step = (along - at + beyond * slope) / (1.0 + slope * slope);
            at = (at + step).max(0.0).min(1.0);
        }
        let beyond = across - 2.0 * self.aside * at * (1.0 - at);
        (along - at).hypot(beyond) * length
    }

    /// The point so far beside the middle of the link, as a part of its length.
    fn beside(&self, part: f64) -> (f64, f64) {
        let x = (self.from.x + self.to.x) / 2.0 - part * (self.to.y - self.from.y);
        let y = (self.from.y + self.to.y) / 2.0 + part * (self.to.x - self.from.x);
        (x, y)
    }

    /// Whether the line stays in the picture, below its heading and above its legend.
    fn is_within(&self, layout: &Layout) -> bool {
        let (x, y) = self.beside(self.aside / 2.0);
        x > 0.0 && x < layout.width && y > layout.top && y < layout.bottom
    }
}
