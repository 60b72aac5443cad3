use crate::component_ranking::RankedComponents;
use crate::labels::Labels;
use crate::node_columns::Columns;
use crate::node_position::{LEFT, NodePosition, RIGHT, UP};
use crate::nodes_by_part::Bands;
use crate::rings::Ring;
use ov_drawing::Drawing;
use std::alloc::{AllocError, Global};

/// How far the parts are from each other, without their labels.
const APART: f64 = 110.0;

/// The same, as a part of the largest ring.
const APART_OF_RING: f64 = 0.3;

/// How far what is drawn is from the edges, without labels.
const MARGIN: f64 = 48.0;

/// How high the room for nodes is at least.
const LOWEST: f64 = 180.0;

/// The narrowest picture.
const NARROWEST: f64 = 640.0;

/// Up to so many nodes stand far apart, or less far, or close.
const FEW_MANY_MOST: (usize, usize, usize) = (12, 60, 256);

/// How far nodes are from each other and how far they reach, if they are few, many, very many or more than that.
const SIZES: [(f64, f64); 4] = [(64.0, 12.0), (38.0, 8.5), (14.0, 4.5), (8.0, 3.0)];

/// Where everything stands.
#[derive(Drop)]
pub(crate) struct Layout {
    /// How wide the picture is.
    pub(crate) width: f64,
    /// The height of the names of the parts.
    pub(crate) top: f64,
    /// Where the legend begins, below all nodes.
    pub(crate) bottom: f64,
    /// Where the nodes stand, in their order.
    pub(crate) places: Vec<NodePosition>,
    /// The columns of the cut.
    pub(crate) cut: Columns,
    /// How far a node reaches from its middle.
    pub(crate) reach: f64,
    /// The middles of the near side, the cut and the other survivors.
    pub(crate) middles: (f64, f64, f64),
}

/// The sizes of the parts, which stand beside one another.
#[derive(Clone, Copy)]
struct Parts {
    side: Ring,
    cut: Columns,
    far: Ring,
    /// How far the parts are from each other.
    apart: f64,
    /// How far what is drawn is from the edges.
    margin: f64,
}

impl Parts {
    /// The sizes of these parts.
    fn new(bands: &Bands, labels: &Labels, apart: f64) -> Parts {
        let side = Ring::new(bands.side.len(), apart);
        let far = Ring::new(bands.far.len().max(bands.whole.len()), apart);
        let radius = side.radius.max(far.radius);
        let cut = Columns::new(bands.cut.len(), (2.0 * radius).max(LOWEST));
        let between = if bands.whole.is_empty() {
            APART + APART_OF_RING * radius + 1.4 * labels.width()
        } else {
            0.0
        };
        Parts {
            side,
            cut,
            far,
            apart: between,
            margin: MARGIN + labels.width(),
        }
    }

    /// How wide the parts are, with what is between and beside them.
    fn width(&self) -> f64 {
        let rings = 2.0 * (self.side.radius + self.far.radius);
        rings + self.cut.width() + 2.0 * (self.apart + self.margin)
    }

    /// How high the highest part is.
    fn height(&self) -> f64 {
        let rings = 2.0 * self.side.radius.max(self.far.radius);
        rings.max(self.cut.height()).max(LOWEST)
    }

    /// The middles of the three parts in a picture of this width.
    fn middles(&self, width: f64) -> (f64, f64, f64) {
        let left = (width - self.width()) / 2.0 + self.margin;
        let side = left + self.side.radius;
        let cut = side + self.side.radius + self.apart + self.cut.width() / 2.0;
        let far = cut + self.cut.width() / 2.0 + self.apart + self.far.radius;
        (side, cut, far)
    }
}

/// The parts of a picture, with their sizes.
#[derive(Drop)]
pub(crate) struct Plan {
    bands: Bands,
    parts: Parts,
    /// How far a node reaches from its middle.
    reach: f64,
    /// How far what is drawn is from the upper edge and from the lower one.
    margin: f64,
    /// How wide the picture is.
    pub(crate) width: f64,
    nodes: usize,
}

impl Plan {
    /// The parts of this drawing, whose nodes have these labels.
    pub(crate) fn new(
        alloc: Global,
        drawing: &Drawing,
        components: &RankedComponents,
        labels: &Labels,
    ) -> Result<Plan, AllocError> {
        let nodes = drawing.nodes.as_slice().len();
        let bands = Bands::new(alloc, drawing.nodes.as_slice(), components)?;
        let (apart, reach) = sizes_of(nodes, labels);
        let parts = Parts::new(&bands, labels, apart);
        let margin = if labels.are_turned() {
            parts.margin
        } else {
            MARGIN
        };
        Ok(Plan {
            bands,
            parts,
            reach,
            margin,
            width: parts.width().max(NARROWEST),
            nodes,
        })
    }

    /// Where everything stands below a heading that ends at this height: the near side to the left with near at its
    /// left end, the cut in the middle, the other survivors to the right with far at their right end; or all nodes on
    /// one ring, if the certificate parts none.
    pub(crate) fn layout(&self, alloc: Global, top: f64) -> Result<Layout, AllocError> {
        let height = self.parts.height();
        let middle = top + self.margin + height / 2.0;
        let mut layout = Layout {
            width: self.width,
            top,
            bottom: middle + height / 2.0 + self.margin,
            places: unplaced(alloc, self.nodes)?,
            cut: self.parts.cut,
            reach: self.reach,
            middles: self.parts.middles(self.width),
        };
        layout.put_parts(&self.bands, self.parts, middle);
        Ok(layout)
    }
}

impl Layout {
    /// Puts the nodes in their places, about this height.
    fn put_parts(&mut self, bands: &Bands, parts: Parts, middle: f64) {
        let (side, cut, far) = self.middles;
        let whole = at(self.width / 2.0, middle);
        self.put_ring(&bands.side, parts.side, LEFT, at(side, middle));
        self.put_ring(&bands.far, parts.far, RIGHT, at(far, middle));
        self.put_ring(&bands.whole, parts.far, UP, whole);
        self.put_columns(&bands.cut, parts.cut, at(cut, middle));
    }

    /// Puts nodes in columns.
    fn put_columns(&mut self, nodes: &[usize], columns: Columns, middle: NodePosition) {
        for (number, node) in nodes.iter().enumerate() {
            self.put(*node, columns.place(number, middle));
        }
    }

    /// Puts nodes on a ring, the first of them in this direction from the middle.
    fn put_ring(&mut self, nodes: &[usize], ring: Ring, first: f64, middle: NodePosition) {
        for (number, node) in nodes.iter().enumerate() {
            self.put(*node, ring.place(number, first, middle));
        }
    }

    /// Puts a node in its place.
    fn put(&mut self, node: usize, place: NodePosition) {
        if let Some(old) = self.places.get_mut(node) {
            *old = place;
        }
    }
}

/// Places for so many nodes.
fn unplaced(alloc: Global, nodes: usize) -> Result<Vec<NodePosition>, AllocError> {
    let mut places = Vec::with_capacity(alloc, nodes)?;
    for _ in 0..nodes {
        places.push(at(0.0, 0.0))?;
    }
    Ok(places)
}

/// A point.
pub(crate) fn at(x: f64, y: f64) -> NodePosition {
    NodePosition { x, y, outward: UP }
}

/// How far so many nodes are from each other, and how far they reach.
fn sizes_of(nodes: usize, labels: &Labels) -> (f64, f64) {
    let (few, many, most) = FEW_MANY_MOST;
    let [of_few, of_many, of_most, of_more] = SIZES;
    if nodes <= few {
        (of_few.0.max(labels.width() + 16.0), of_few.1)
    } else if nodes <= many {
        of_many
    } else if nodes <= most {
        of_most
    } else {
        of_more
    }
}
