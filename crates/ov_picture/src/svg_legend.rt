use crate::component_colours::{COMPONENT_COLOURS, MOST_COLOURED};
use crate::component_ranking::{Component, Main, RankedComponents};
use crate::layout::Layout;
use crate::node_position::{NodePosition, RIGHT, number};
use crate::path_colours::{colour_of, dashes_of};
use crate::sentences::{count_of, outside};
use crate::svg_nodes::push_node;
use ov_drawing::{Drawing, DrawnNode, NodeClass};
use ov_ids::NodeId;
use std::alloc::AllocError;
use std::fmt::Write;

/// How far the legend is from the left edge.
const EDGE: f64 = 28.0;

/// How wide an item is that names a class of nodes.
const ITEM: f64 = 244.0;

/// How wide an item is that names a path.
const PATH_ITEM: f64 = 62.0;

/// How high a line is.
const LINE: f64 = 24.0;

/// How far the signs reach.
const REACH: f64 = 6.5;

/// How many paths are named.
const MOST_PATHS: usize = 48;

/// The classes of nodes that have signs of their own, with what is said of them behind their number.
const CLASSES: [(NodeClass, &str, &str); 4] = [
    (NodeClass::Near, "near", "near"),
    (NodeClass::Cut, "in the cut", "in the cut"),
    (NodeClass::Far, "far", "far"),
    (NodeClass::Unparted, "node", "nodes"),
];

/// How high the legend of a drawing is, in a picture of this width.
pub(crate) fn legend_height(drawing: &Drawing, components: &RankedComponents, width: f64) -> f64 {
    let nodes = drawing.nodes.as_slice();
    let classes = CLASSES
        .iter()
        .filter(|(class, _, _)| count_of(nodes, *class) > 0)
        .count();
    let colours = components.len().min(COMPONENT_COLOURS.len());
    let items = classes
        .saturating_add(colours)
        .saturating_add(outside(nodes).min(1));
    let lines = lines_of(items, ITEM, width) + lines_of(named_paths(drawing), PATH_ITEM, width);
    lines * LINE + EDGE
}

/// How many paths of a drawing are named.
fn named_paths(drawing: &Drawing) -> usize {
    drawing.paths.min(MOST_PATHS)
}

/// How many items stand beside one another.
fn abreast(item: f64, width: f64) -> f64 {
    ((width - EDGE) / item).floor().max(1.0)
}

/// How many lines so many items fill.
fn lines_of(items: usize, item: f64, width: f64) -> f64 {
    (number(items) / abreast(item, width)).ceil()
}

/// Where the item with this number begins, from a height on.
fn item_place(at: usize, item: f64, width: f64, top: f64) -> NodePosition {
    let abreast = abreast(item, width);
    let line = (number(at) / abreast).floor();
    NodePosition {
        x: EDGE + (number(at) - line * abreast) * item,
        y: top + (line + 0.5) * LINE,
        outward: RIGHT,
    }
}

/// Appends what the shapes and the colours of nodes mean. Returns where these lines end.
pub(crate) fn push_class_items(
    text: &mut String,
    drawing: &Drawing,
    components: &RankedComponents,
    layout: &Layout,
) -> Result<f64, AllocError> {
    text.push_str("<g class=\"nodes\">\n")?;
    let classes = push_shape_items(text, drawing, layout)?;
    let mut items = push_component_items(text, components, layout, classes)?;
    let others = outside(drawing.nodes.as_slice());
    if others > 0 {
        let place = item_place(items, ITEM, layout.width, layout.bottom);
        push_sign(text, sign_of(NodeClass::Unparted, false), None, place)?;
        write!(text, "{others} not in the group</text>\n")?;
        items = items.saturating_add(1);
    }
    text.push_str("</g>\n")?;
    Ok(layout.bottom + lines_of(items, ITEM, layout.width) * LINE)
}

/// Appends what the shapes of nodes mean. Returns how many items these are.
fn push_shape_items(
    text: &mut String,
    drawing: &Drawing,
    layout: &Layout,
) -> Result<usize, AllocError> {
    let mut items: usize = 0;
    for (class, one, several) in CLASSES {
        let nodes = count_of(drawing.nodes.as_slice(), class);
        if nodes > 0 {
            let place = item_place(items, ITEM, layout.width, layout.bottom);
            push_sign(text, sign_of(class, true), None, place)?;
            let name = if nodes == 1 { one } else { several };
            if class == NodeClass::Near || class == NodeClass::Far {
                write!(text, "{name}</text>\n")?;
            } else {
                write!(text, "{nodes} {name}</text>\n")?;
            }
            items = items.saturating_add(1);
        }
    }
    Ok(items)
}

/// Appends an item for each component that has a colour of its own, and one for all further components, behind so many
/// items. Returns how many items there are then.
fn push_component_items(
    text: &mut String,
    components: &RankedComponents,
    layout: &Layout,
    before: usize,
) -> Result<usize, AllocError> {
    let mut items = before;
    for rank in 0..COMPONENT_COLOURS.len() {
        if let Some(component) = components.ranked(rank) {
            let place = item_place(items, ITEM, layout.width, layout.bottom);
            let class = if matches!(component.with, Main::Near) {
                NodeClass::NearSide
            } else {
                NodeClass::FarSide
            };
            push_sign(text, sign_of(class, true), Some(component), place)?;
            push_component(text, components, component)?;
            items = items.saturating_add(1);
        }
    }
    Ok(items)
}

/// Appends what is said of a component, or of all components from it on that share its colour, and ends their item.
fn push_component(
    text: &mut String,
    components: &RankedComponents,
    component: Component,
) -> Result<(), AllocError> {
    let Component {
        number,
        size,
        with,
        rank,
    } = component;
    let others = components.len().saturating_sub(MOST_COLOURED);
    if rank < MOST_COLOURED {
        let main = match with {
            Main::Near => ", near's",
            Main::Far => ", far's",
            Main::Neither => "",
        };
        write!(text, "component {number}{main}: ")?;
        return push_nodes(text, size);
    }
    let word = if others == 1 {
        "component"
    } else {
        "components"
    };
    write!(text, "{others} further {word}: ")?;
    push_nodes(text, components.nodes_from(MOST_COLOURED))
}

/// Appends how many nodes there are, and ends an item.
fn push_nodes(text: &mut String, nodes: usize) -> Result<(), AllocError> {
    let word = if nodes == 1 { "node" } else { "nodes" };
    write!(text, "{nodes} {word}</text>\n")
}

/// Appends what the colours of paths mean, from this height on.
pub(crate) fn push_path_items(
    text: &mut String,
    drawing: &Drawing,
    layout: &Layout,
    top: f64,
) -> Result<(), AllocError> {
    text.push_str("<g class=\"paths\" stroke-width=\"3.2\">\n")?;
    for path in 0..named_paths(drawing) {
        let place = item_place(path, PATH_ITEM, layout.width, top);
        push_path_item(text, path, place)?;
    }
    text.push_str("</g>\n")
}

/// The sign of the members of a class, or of its other nodes.
fn sign_of(class: NodeClass, is_member: bool) -> DrawnNode {
    DrawnNode {
        id: NodeId::new(0),
        class,
        is_member,
    }
}

/// Appends a sign, in the colour of this component if there is one, and begins the text beside it.
fn push_sign(
    text: &mut String,
    sign: DrawnNode,
    component: Option<Component>,
    place: NodePosition,
) -> Result<(), AllocError> {
    push_node(text, sign, component, place, REACH, false)?;
    text.push_str(if sign.class == NodeClass::Cut {
        "</rect>"
    } else {
        "</circle>"
    })?;
    let x = place.x + 14.0;
    let y = place.y + 4.5;
    write!(text, "<text x=\"{x:.1}\" y=\"{y:.1}\">")
}

/// Appends a line in the colour of a path, with its number from 1.
fn push_path_item(text: &mut String, path: usize, place: NodePosition) -> Result<(), AllocError> {
    let NodePosition { x, y, .. } = place;
    let colour = colour_of(path);
    let dashes = dashes_of(path);
    let behind = x + 26.0;
    let base = y + 4.5;
    let number = path.saturating_add(1);
    write!(
        text,
        "<path class=\"p{colour}\" stroke-dasharray=\"{dashes}\" d=\"M{x:.1} {y:.1}h20\"/>\
         <text x=\"{behind:.1}\" y=\"{base:.1}\">{number}</text>\n"
    )
}
