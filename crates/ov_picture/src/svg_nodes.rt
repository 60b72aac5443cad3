use crate::class_names::node_class_name;
use crate::component_colours::colour_class;
use crate::component_ranking::{Component, RankedComponents};
use crate::escaped_texts::push_xml;
use crate::labels::Labels;
use crate::layout::Layout;
use crate::node_position::{LEFT, NodePosition, RIGHT, TURN};
use crate::sentences::is_end;
use ov_drawing::{Drawing, DrawnNode, NodeClass};
use std::alloc::AllocError;
use std::fmt::Write;

/// How far nodes that matter reach at least: near, far and the cut.
const MAIN_REACH: f64 = 5.5;

/// How much further near and far reach.
const LARGER: f64 = 1.25;

/// How far a label is from the edge of its node.
const BESIDE: f64 = 6.0;

/// How far the line of a label is below the middle of its letters.
const BASE: f64 = 4.3;

/// Appends a shape for each node that matters, near, far and the cut, or for each other node: a square for a node of
/// the cut, and a circle for any other.
pub(crate) fn push_shapes(
    text: &mut String,
    drawing: &Drawing,
    components: &RankedComponents,
    layout: &Layout,
    labels: &Labels,
    mattering: bool,
) -> Result<(), AllocError> {
    text.push_str("<g class=\"nodes\">\n")?;
    for (at, node) in drawing.nodes.as_slice().iter().enumerate() {
        if let (Some(place), Some(name)) = (layout.places.get(at), labels.names.get(at))
            && matters(node.class) == mattering
        {
            let chosen = is_end(drawing, node.id);
            let component = components.of(at);
            push_node(text, *node, component, *place, layout.reach, chosen)?;
            push_tip(text, *node, name.as_str())?;
        }
    }
    text.push_str("</g>\n")
}

/// Appends the labels of the nodes that have one.
pub(crate) fn push_labels(
    text: &mut String,
    drawing: &Drawing,
    layout: &Layout,
    labels: &Labels,
) -> Result<(), AllocError> {
    text.push_str("<g class=\"labels\">\n")?;
    for (at, node) in drawing.nodes.as_slice().iter().enumerate() {
        if let (Some(place), Some((label, true))) = (layout.places.get(at), labels.texts.get(at)) {
            let reach = reach_of(node.class, layout.reach);
            push_label(text, node.class, *place, reach, labels.are_turned())?;
            push_xml(text, label.as_str())?;
            text.push_str("</text>\n")?;
        }
    }
    text.push_str("</g>\n")
}

/// Whether nodes of this class matter: near, far and the cut. They are drawn over the others.
fn matters(class: NodeClass) -> bool {
    match class {
        NodeClass::Near | NodeClass::Far | NodeClass::Cut => true,
        NodeClass::Unparted | NodeClass::NearSide | NodeClass::FarSide => false,
    }
}

/// How far a node of this class reaches, if others reach so far.
pub(crate) fn reach_of(class: NodeClass, reach: f64) -> f64 {
    match class {
        NodeClass::Near | NodeClass::Far => reach.max(MAIN_REACH) * LARGER,
        NodeClass::Cut => reach.max(MAIN_REACH),
        NodeClass::Unparted | NodeClass::NearSide | NodeClass::FarSide => reach,
    }
}

/// Appends the shape of a node, whose element is left open.
pub(crate) fn push_node(
    text: &mut String,
    node: DrawnNode,
    component: Option<Component>,
    place: NodePosition,
    reach: f64,
    chosen: bool,
) -> Result<(), AllocError> {
    let NodePosition { x, y, .. } = place;
    let class = node_class_name(node.class);
    let colour = colour_class(component);
    let more = match (node.is_member, chosen) {
        (false, _) => " no-member",
        (true, true) => " chosen",
        (true, false) => "",
    };
    let reach = reach_of(node.class, reach);
    if node.class == NodeClass::Cut {
        let left = x - reach;
        let top = y - reach;
        let size = 2.0 * reach;
        return write!(
            text,
            "<rect class=\"{class}{more}\" x=\"{left:.1}\" y=\"{top:.1}\" width=\"{size:.1}\" height=\"{size:.1}\">"
        );
    }
    write!(
        text,
        "<circle class=\"{class}{colour}{more}\" cx=\"{x:.1}\" cy=\"{y:.1}\" r=\"{reach:.1}\">"
    )
}

/// Appends what is shown where the reader points at a node, and ends its element.
fn push_tip(text: &mut String, node: DrawnNode, name: &str) -> Result<(), AllocError> {
    let id = node.id.number();
    let class = node_class_name(node.class);
    let outside = if node.is_member { "" } else { ", no member" };
    write!(text, "<title>node {id} ({class}{outside}): ")?;
    push_xml(text, name)?;
    text.push_str(if node.class == NodeClass::Cut {
        "</title></rect>\n"
    } else {
        "</title></circle>\n"
    })
}

/// Appends the begin of a label.
fn push_label(
    text: &mut String,
    class: NodeClass,
    place: NodePosition,
    reach: f64,
    turned: bool,
) -> Result<(), AllocError> {
    let distance = reach + BESIDE;
    if class == NodeClass::Cut && place.outward != LEFT && place.outward != RIGHT {
        let NodePosition { x, y, .. } = place;
        let above = y - distance;
        return write!(
            text,
            "<text class=\"label middle\" x=\"{x:.1}\" y=\"{above:.1}\">"
        );
    }
    let (sin, cos) = place.outward.sin_cos();
    let x = place.x + distance * cos;
    let y = place.y + distance * sin;
    let anchor = anchor_of(cos, turned);
    if !turned || class == NodeClass::Cut {
        let base = y + BASE + sin * BASE;
        return write!(
            text,
            "<text class=\"label {anchor}\" x=\"{x:.1}\" y=\"{base:.1}\">"
        );
    }
    let degrees = upright_degrees(place.outward, cos);
    write!(
        text,
        "<text class=\"label {anchor}\" transform=\"translate({x:.1} {y:.1}) rotate({degrees:.1})\" dy=\"{BASE}\">"
    )
}

/// Where a label begins, by how far its direction is to the right.
fn anchor_of(cos: f64, turned: bool) -> &'static str {
    if !turned && cos.abs() < 0.3 {
        "middle"
    } else if cos < 0.0 {
        "end"
    } else {
        "start"
    }
}

/// How far a label in this direction is turned, in degrees from 0 to 360, so that it is not upside down.
fn upright_degrees(outward: f64, cos: f64) -> f64 {
    let turned = if cos < 0.0 { outward + LEFT } else { outward };
    let turns = turned / TURN;
    (turns - turns.floor()) * 360.0
}
