ghost use Rattle.std.specs.Prelude.{◌≡◌, ◌++◌, ℕ, List, codes, string_bytes, IfOk};

use crate::class_names::{link_class_name, node_class_name};
use crate::component_colours::{pale_colour, strong_colour};
use crate::component_ranking::{Component, RankedComponents};
use crate::escaped_texts::push_dot;
use crate::headings::{push_some, small_lines};
use crate::labels::Labels;
use crate::layout::{Layout, Plan};
use crate::path_colours::light_colour;
use crate::sentences::{components_of, members_of, sentence_of};
use crate::svg_links::component_of;
use ov_drawing::{Drawing, DrawnLink, DrawnNode, LinkClass, NodeClass};
use ov_ids::OutOfMemory;
use std::alloc::{AllocError, Global};
use std::fmt::Write;

/// A drawing in DOT, the language of Graphviz: each node by its id with its class, the number of its component, its
/// label and a colour, each link with its class, and with the number of the path that goes along it, from 1. A node
/// that is no member of the group is hollow, and has the class `no-member` too. The places (`pos`) are those of the
/// picture as SVG, for `neato -n`. `names` are the labels of the nodes, in their order; a node without one is labelled
/// by its id. OutOfMemory (99): an allocation was refused.
pub fn dot(alloc: Global, drawing: &Drawing, names: &[Option<&str>]) -> Result<String, OutOfMemory>
    ensures ends { IfOk result (λ text. (before : List ℕ) × (string_bytes text ≡ before ++ codes "}\n")) }
{
    let labels = Labels::new(alloc, drawing, names)?;
    let components = RankedComponents::new(alloc, drawing)?;
    let layout = Plan::new(alloc, drawing, &components, &labels)?.layout(alloc, 0.0)?;
    let mut text = String::new(alloc);
    text.push_str("graph overlay {\n  graph [label=\"")?;
    push_heading(alloc, &mut text, drawing, &components, &labels)?;
    text.push_str("\", outputorder=edgesfirst];\n  node [style=filled];\n")?;
    push_nodes(&mut text, drawing, &components, &layout, &labels)?;
    for link in drawing.links.as_slice() {
        let component = component_of(drawing.nodes.as_slice(), &components, link);
        push_link(&mut text, *link, component)?;
    }
    text.push_str("}\n")?;
    Ok(text)
}

/// Appends what the picture shows, what the crash leaves, who is a member and what names end in, in lines.
fn push_heading(
    alloc: Global,
    text: &mut String,
    drawing: &Drawing,
    components: &RankedComponents,
    labels: &Labels,
) -> Result<(), AllocError> {
    let mut told = Vec::new(alloc);
    told.push(sentence_of(alloc, drawing, labels)?)?;
    push_some(&mut told, components_of(alloc, drawing, components)?)?;
    push_some(&mut told, members_of(alloc, drawing)?)?;
    push_some(&mut told, labels.end_told(alloc)?)?;
    let lines = small_lines(alloc, &told, f64::MAX)?;
    for (at, line) in lines.iter().enumerate() {
        text.push_str(if at > 0 { "\\n" } else { "" })?;
        push_dot(text, line.as_str())?;
    }
    Ok(())
}

/// Appends the nodes, each with its place.
fn push_nodes(
    text: &mut String,
    drawing: &Drawing,
    components: &RankedComponents,
    layout: &Layout,
    labels: &Labels,
) -> Result<(), AllocError> {
    for (at, node) in drawing.nodes.as_slice().iter().enumerate() {
        if let (Some(place), Some(name)) = (layout.places.get(at), labels.names.get(at)) {
            let right = place.x;
            let up = layout.bottom - place.y;
            push_node(text, *node, components.of(at))?;
            push_dot(text, name.as_str())?;
            write!(text, "\", pos=\"{right:.1},{up:.1}\"];\n")?;
        }
    }
    Ok(())
}

/// Appends a node up to its label.
fn push_node(
    text: &mut String,
    node: DrawnNode,
    component: Option<Component>,
) -> Result<(), AllocError> {
    let id = node.id.number();
    let class = node_class_name(node.class);
    let outside = if node.is_member { "" } else { " no-member" };
    write!(text, "  {id} [class=\"{class}{outside}\", ")?;
    if let Some(Component { number, .. }) = component {
        write!(text, "component={number}, ")?;
    }
    if node.is_member {
        let colour = node_colour(node.class, component);
        write!(text, "fillcolor=\"{colour}\"")?;
    } else {
        let edge = edge_colour(node.class, component);
        write!(text, "fillcolor=\"#ffffff\", color=\"{edge}\", penwidth=2")?;
    }
    let shape = if node.class == NodeClass::Cut {
        "box"
    } else {
        "ellipse"
    };
    write!(text, ", shape={shape}, label=\"")
}

/// Appends a link, which is in this component if it joins two survivors.
fn push_link(
    text: &mut String,
    link: DrawnLink,
    component: Option<Component>,
) -> Result<(), AllocError> {
    let from = link.from.number();
    let to = link.to.number();
    let class = link_class_name(link.class);
    if let Some(path) = link.path {
        let colour = light_colour(path);
        let number = path.saturating_add(1);
        return write!(
            text,
            "  {from} -- {to} [class=\"{class}\", color=\"{colour}\", penwidth=3, path={number}];\n"
        );
    }
    let colour = strong_colour(component).unwrap_or(link_colour(link.class));
    write!(
        text,
        "  {from} -- {to} [class=\"{class}\", color=\"{colour}\"];\n"
    )
}

/// The colour of a node of this class and of this component, light enough for a label in black.
fn node_colour(class: NodeClass, component: Option<Component>) -> &'static str {
    match class {
        NodeClass::Near => "#56b4e9",
        NodeClass::Cut => "#ff8c42",
        NodeClass::Far => "#3ddbb0",
        _ => pale_colour(component).unwrap_or("#c4ccd2"),
    }
}

/// The colour of the edge of a node of this class and of this component that is no member.
fn edge_colour(class: NodeClass, component: Option<Component>) -> &'static str {
    match class {
        NodeClass::Cut => "#d55e00",
        _ => strong_colour(component).unwrap_or("#5b6770"),
    }
}

/// The colour of a link of this class that is in no component.
fn link_colour(class: LinkClass) -> &'static str {
    match class {
        LinkClass::SideToCut | LinkClass::WithinCut | LinkClass::CutToFar => "#e08a4b",
        LinkClass::Across => "#c2185b",
        _ => "#5b6770",
    }
}
