//! What is drawn of the square, and of a pair.
use crate::picture::square::{drawn_pair, drawn_square};
use LinkClass::{CutToFar, SideToCut};
use ov_drawing::{ChosenEntry, Drawing, LinkClass, NodeClass, PictureFault};
use ov_ids::NodeId;

/// The class of a node, and whether it is drawn as a member.
type NodeRow = (NodeClass, bool);

/// The class of a link, and the place of the path that goes along it.
type LinkRow = (LinkClass, Option<usize>);

/// Whether the nodes are drawn so.
fn has_nodes(drawing: &Drawing, nodes: &[NodeRow]) -> bool {
    let drawn = drawing.nodes.as_slice();
    for (node, wanted) in drawn.iter().zip(nodes) {
        if node.class != wanted.0 || node.is_member != wanted.1 {
            return false;
        }
    }
    drawn.len() == nodes.len()
}

/// Whether the links are drawn so.
fn has_links(drawing: &Drawing, links: &[LinkRow]) -> bool {
    let drawn = drawing.links.as_slice();
    for (link, wanted) in drawn.iter().zip(links) {
        if link.class != wanted.0 || link.path != wanted.1 {
            return false;
        }
    }
    drawn.len() == links.len()
}

/// Whether this is drawn, with so many paths.
fn is_drawn(
    drawing: &Result<Drawing, PictureFault>,
    paths: usize,
    nodes: &[NodeRow],
    links: &[LinkRow],
) -> bool {
    match drawing {
        Ok(drawing) => {
            drawing.paths == paths && has_nodes(drawing, nodes) && has_links(drawing, links)
        }
        Err(_) => false,
    }
}

/// A node is drawn as a member exactly if it is in the group.
const SQUARE: [NodeRow; 4] = [
    (NodeClass::Near, true),
    (NodeClass::Cut, false),
    (NodeClass::Far, true),
    (NodeClass::Cut, true),
];

/// Each node and each link has its class.
#[test]
fn classes_of_the_square(rt: HostRuntime) {
    let links = [
        (SideToCut, None),
        (SideToCut, None),
        (CutToFar, None),
        (CutToFar, None),
    ];
    assert!(rt; is_drawn(&drawn_square(rt.alloc(), None), 0, &SQUARE, &links));
}

/// A link has the path of the chosen entry that goes along it.
#[test]
fn paths_of_an_entry(rt: HostRuntime) {
    let third = Some(ChosenEntry::Fan { j: NodeId(3) });
    let links = [
        (SideToCut, None),
        (SideToCut, Some(1)),
        (CutToFar, Some(0)),
        (CutToFar, Some(1)),
    ];
    assert!(rt; is_drawn(&drawn_square(rt.alloc(), third), 2, &SQUARE, &links));
}

/// An entry that there is not is refused.
#[test]
fn no_such_entry(rt: HostRuntime) {
    let pair = Some(ChosenEntry::Pair {
        i: NodeId(1),
        j: NodeId(2),
    });
    let refused = matches!(
        &drawn_square(rt.alloc(), pair),
        Err(PictureFault::NoSuchEntry)
    );
    assert!(rt; refused);
}

/// A linked certificate parts no nodes.
#[test]
fn classes_of_a_pair(rt: HostRuntime) {
    let nodes = [(NodeClass::Unparted, true), (NodeClass::Unparted, true)];
    let links = [(LinkClass::Unparted, None)];
    assert!(rt; is_drawn(&drawn_pair(rt.alloc()), 0, &nodes, &links));
}
