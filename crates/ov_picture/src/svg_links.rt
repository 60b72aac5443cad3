use crate::class_names::link_class_name;
use crate::component_colours::colour_class;
use crate::component_ranking::{Component, RankedComponents, place_of};
use crate::layout::{Layout, at};
use crate::node_position::NodePosition;
use crate::path_colours::{colour_of, dashes_of};
use crate::svg_bends::bend_of;
use ov_drawing::{Drawing, DrawnLink, DrawnNode, LinkClass};
use std::alloc::AllocError;
use std::fmt::Write;

/// How wide links are and how much of the ground they hide, up to so many links. More links are like the last of these.
const WIDTHS: [(usize, f64, f64); 5] = [
    (80, 1.7, 0.8),
    (400, 1.2, 0.6),
    (2_500, 0.9, 0.4),
    (20_000, 0.7, 0.18),
    (usize::MAX, 0.5, 0.06),
];

/// How much of the ground links hide at most beside paths.
const FAINT: f64 = 0.16;

/// How wide paths are.
const PATH_WIDTH: f64 = 3.2;

/// Which links are drawn alike.
#[derive(Clone, Copy, PartialEq, Eq)]
pub(crate) enum Layer {
    /// Links between survivors of one part, which outlast the crash.
    Lasting,
    /// Links that end in the cut or lead across.
    Parting,
}

/// Appends a line for each link of a layer that no path goes along.
pub(crate) fn push_plain_links(
    text: &mut String,
    drawing: &Drawing,
    components: &RankedComponents,
    layout: &Layout,
    layer: Layer,
) -> Result<(), AllocError> {
    let links = drawing.links.as_slice();
    let (width, strength) = width_of(links_in(links, layer));
    let opacity = if drawing.entry.is_some() {
        strength.min(FAINT)
    } else {
        strength
    };
    write!(
        text,
        "<g class=\"links\" stroke-width=\"{width}\" stroke-opacity=\"{opacity}\">\n"
    )?;
    for link in links {
        if link.path.is_none() && layer_of(link.class) == layer {
            let class = link_class_name(link.class);
            let colour = colour_class(component_of(drawing.nodes.as_slice(), components, link));
            let (from, to) = ends_of(drawing.nodes.as_slice(), layout, link);
            let within_cut = link.class == LinkClass::WithinCut;
            let bend = layout.cut.bend(from, to).filter(|_| within_cut);
            write!(text, "<path class=\"{class}{colour}\" d=\"")?;
            push_line(text, from, to, bend)?;
        }
    }
    text.push_str("</g>\n")
}

/// How many links are in a layer.
fn links_in(links: &[DrawnLink], layer: Layer) -> usize {
    links
        .iter()
        .filter(|link| layer_of(link.class) == layer)
        .count()
}

/// The layer of a class.
fn layer_of(class: LinkClass) -> Layer {
    match class {
        LinkClass::Unparted | LinkClass::WithinSide | LinkClass::WithinFar => Layer::Lasting,
        LinkClass::SideToCut | LinkClass::WithinCut | LinkClass::CutToFar | LinkClass::Across => {
            Layer::Parting
        }
    }
}

/// Appends a line for each link that a path goes along.
pub(crate) fn push_path_links(
    text: &mut String,
    drawing: &Drawing,
    layout: &Layout,
) -> Result<(), AllocError> {
    write!(text, "<g class=\"paths\" stroke-width=\"{PATH_WIDTH}\">\n")?;
    for link in drawing.links.as_slice() {
        if let Some(path) = link.path {
            let colour = colour_of(path);
            let dashes = dashes_of(path);
            let (from, to) = ends_of(drawing.nodes.as_slice(), layout, link);
            write!(
                text,
                "<path class=\"p{colour}\" stroke-dasharray=\"{dashes}\" d=\""
            )?;
            push_line(text, from, to, bend_of(drawing, layout, link, from, to))?;
        }
    }
    text.push_str("</g>\n")
}

/// Appends the line of a link, bent by this point if there is one, and ends its element.
fn push_line(
    text: &mut String,
    from: NodePosition,
    to: NodePosition,
    bend: Option<(f64, f64)>,
) -> Result<(), AllocError> {
    let NodePosition { x, y, .. } = from;
    write!(text, "M{x:.1} {y:.1}")?;
    if let Some((x, y)) = bend {
        write!(text, "Q{x:.1} {y:.1} ")?;
    } else {
        text.push('L')?;
    }
    let NodePosition { x, y, .. } = to;
    write!(text, "{x:.1} {y:.1}\"/>\n")
}

/// The component that a link between two survivors is in.
pub(crate) fn component_of(
    nodes: &[DrawnNode],
    components: &RankedComponents,
    link: &DrawnLink,
) -> Option<Component> {
    match link.class {
        LinkClass::WithinSide | LinkClass::WithinFar => {
            components.of(place_of(nodes, link.from.0))
        }
        _ => None,
    }
}

/// Where the ends of a link stand.
fn ends_of(nodes: &[DrawnNode], layout: &Layout, link: &DrawnLink) -> (NodePosition, NodePosition) {
    let from = spot_of(nodes, layout, link.from.0);
    (from, spot_of(nodes, layout, link.to.0))
}

/// Where the node with this number stands.
fn spot_of(nodes: &[DrawnNode], layout: &Layout, id: u32) -> NodePosition {
    let spot = layout.places.get(place_of(nodes, id));
    spot.copied().unwrap_or(at(0.0, 0.0))
}

/// How wide so many links are, and how much they hide.
fn width_of(links: usize) -> (f64, f64) {
    WIDTHS
        .iter()
        .find(|(most, _, _)| links <= *most)
        .map_or((0.5, 0.06), |(_, width, strength)| (*width, *strength))
}
