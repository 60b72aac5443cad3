use crate::node_position::{LEFT, NodePosition, RIGHT, UP, number};

/// How many nodes stand in one column at most, if there is one column only.
const MOST_IN_ONE: usize = 16;

/// How many nodes stand in one of several columns at most.
const MOST_IN_EACH: usize = 32;

/// From so many columns on nodes stand closer.
const MANY_COLUMNS: usize = 3;

/// How far nodes above each other are apart in one column, at least and at most.
const ONE_COLUMN: (f64, f64) = (50.0, 110.0);

/// The same in two columns, and how far these are apart.
const TWO_COLUMNS: (f64, f64) = (28.0, 110.0);

/// The same in more columns.
const MORE_COLUMNS: (f64, f64) = (20.0, 46.0);

/// How much of the height beside it one column takes.
const FILL: f64 = 0.7;

/// How far the curve of a link swings out of its column, as a part of its length.
const SWING: f64 = 0.5;

/// How far it swings at most, if there is one column, and as a part of the distance of two columns if there are more.
const MOST_SWING: (f64, f64) = (110.0, 0.9);

/// Nodes in columns that stand beside one another.
#[derive(Clone, Copy)]
pub(crate) struct Columns {
    pub(crate) columns: usize,
    rows: usize,
    /// How far nodes are from each other that stand above each other.
    down: f64,
    /// How far the columns are from each other.
    across: f64,
}

impl Columns {
    /// The columns of so many nodes, beside something of this height.
    pub(crate) fn new(nodes: usize, beside: f64) -> Columns {
        let columns = if nodes <= MOST_IN_ONE {
            1
        } else {
            nodes.div_ceil(MOST_IN_EACH).max(2)
        };
        let rows = nodes.div_ceil(columns.max(1));
        let (down, across) = if columns == 1 {
            let (least, most) = ONE_COLUMN;
            let down = beside * FILL / number(rows.max(1));
            (down.max(least).min(most), 0.0)
        } else if columns < MANY_COLUMNS {
            TWO_COLUMNS
        } else {
            MORE_COLUMNS
        };
        Columns {
            columns,
            rows,
            down,
            across,
        }
    }

    /// How wide the columns are together.
    pub(crate) fn width(&self) -> f64 {
        (number(self.columns) - 1.0).max(0.0) * self.across
    }

    /// How high they are.
    pub(crate) fn height(&self) -> f64 {
        let odd = if self.columns > 1 { 0.5 } else { 0.0 };
        ((number(self.rows) - 1.0).max(0.0) + odd) * self.down
    }

    /// Where the node with this number stands. Nodes go from column to column, and every second column stands half a
    /// row lower.
    pub(crate) fn place(&self, at: usize, middle: NodePosition) -> NodePosition {
        let column = at % self.columns.max(1);
        let row = at / self.columns.max(1);
        let lower = if column % 2 == 1 { 0.5 } else { 0.0 };
        let outward = if self.columns == 1 {
            UP
        } else if column == 0 {
            LEFT
        } else {
            RIGHT
        };
        NodePosition {
            x: middle.x - self.width() / 2.0 + number(column) * self.across,
            y: middle.y - self.height() / 2.0 + (number(row) + lower) * self.down,
            outward,
        }
    }

    /// The point that bends a link of two nodes of the cut so that it passes no third node of its column. There is none
    /// for neighbours in a column, and for nodes of two columns.
    pub(crate) fn bend(&self, from: NodePosition, to: NodePosition) -> Option<(f64, f64)> {
        let distance = (to.y - from.y).abs();
        if (to.x - from.x).abs() > 1.0 || distance < 1.5 * self.down {
            return None;
        }
        let (alone, part) = MOST_SWING;
        let most = if self.columns == 1 {
            alone
        } else {
            part * self.across
        };
        let swing = (distance * SWING).min(most);
        let right = if from.outward == LEFT || self.columns == 1 {
            swing
        } else {
            -swing
        };
        Some(((from.x + to.x) / 2.0 + right, (from.y + to.y) / 2.0))
    }
}
