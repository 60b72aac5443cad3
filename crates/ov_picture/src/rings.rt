use crate::node_position::{NodePosition, TURN, number};

/// How many nodes a layer of a ring has at most.
const MOST_ON_LAYER: usize = 256;

/// How far the layers of a ring are from each other, as a multiple of the distance of two nodes.
const LAYER: f64 = 1.7;

/// The smallest ring of two or more nodes, as a multiple of the distance of two nodes.
const SMALLEST: f64 = 0.7;

/// Nodes on a ring, which has several layers if there are many.
#[derive(Clone, Copy)]
pub(crate) struct Ring {
    nodes: usize,
    layers: usize,
    /// How far two layers are from each other.
    step: f64,
    /// How far the outermost layer is from the middle.
    pub(crate) radius: f64,
}

impl Ring {
    /// The ring of so many nodes that are about so far from each other.
    pub(crate) fn new(nodes: usize, apart: f64) -> Ring {
        let layers = nodes.div_ceil(MOST_ON_LAYER).max(1);
        let length = number(nodes) * apart / number(layers);
        let radius = if nodes < 2 {
            0.0
        } else {
            (length / TURN).max(apart * SMALLEST)
        };
        Ring {
            nodes,
            layers,
            step: apart * LAYER,
            radius,
        }
    }

    /// Where the node with this number on the ring stands, if node 0 stands in the direction `first` from the middle.
    pub(crate) fn place(&self, at: usize, first: f64, middle: NodePosition) -> NodePosition {
        let outward = first + TURN * number(at) / number(self.nodes.max(1));
        let layer = at % self.layers.max(1);
        let radius = (self.radius - number(layer) * self.step).max(0.0);
        let (sin, cos) = outward.sin_cos();
        NodePosition {
            x: middle.x + radius * cos,
            y: middle.y + radius * sin,
            outward,
        }
    }
}
