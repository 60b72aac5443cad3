ghost use Rattle.std.specs.Prelude.{◌≡◌, ◌++◌, ℕ, List, codes, string_bytes, IfOk};

use crate::component_ranking::RankedComponents;
use crate::escaped_texts::push_xml;
use crate::headings::{EDGE, FIRST, Heading, LINES};
use crate::labels::Labels;
use crate::layout::{Layout, Plan};
use crate::sentences::first_of;
use crate::svg_legend::{legend_height, push_class_items, push_path_items};
use crate::svg_links::{Layer, push_path_links, push_plain_links};
use crate::svg_nodes::{push_labels, push_shapes};
use crate::svg_style::push_style;
use ov_drawing::{Drawing, NodeClass};
use ov_ids::OutOfMemory;
use std::alloc::{AllocError, Global};
use std::fmt::Write;

/// A drawing as SVG: the near side to the left, the cut in the middle, the other survivors to the right; or all nodes
/// on a ring, if the certificate is linked. Each component that the crash leaves has a colour, with its links, up to
/// six of them, and so have the paths. A node that is no member of the group is hollow. `names` are the labels of the
/// nodes, in their order; a node without one is labelled by its id. The picture is light, or dark where the reader
/// prefers it, and has no scripts. OutOfMemory (99): an allocation was refused.
pub fn svg(alloc: Global, drawing: &Drawing, names: &[Option<&str>]) -> Result<String, OutOfMemory>
    ensures ends { IfOk result (λ text. (before : List ℕ) × (string_bytes text ≡ before ++ codes "</svg>\n")) }
{
    let labels = Labels::new(alloc, drawing, names)?;
    let components = RankedComponents::new(alloc, drawing)?;
    let plan = Plan::new(alloc, drawing, &components, &labels)?;
    let mut text = String::new(alloc);
    let layout = push_head(alloc, &mut text, drawing, &components, &labels, &plan)?;
    push_parts(&mut text, drawing, &layout)?;
    push_plain_links(&mut text, drawing, &components, &layout, Layer::Lasting)?;
    push_plain_links(&mut text, drawing, &components, &layout, Layer::Parting)?;
    push_path_links(&mut text, drawing, &layout)?;
    push_shapes(&mut text, drawing, &components, &layout, &labels, false)?;
    push_shapes(&mut text, drawing, &components, &layout, &labels, true)?;
    push_labels(&mut text, drawing, &layout, &labels)?;
    let top = push_class_items(&mut text, drawing, &components, &layout)?;
    push_path_items(&mut text, drawing, &layout, top)?;
    text.push_str("</svg>\n")?;
    Ok(text)
}

/// Appends what comes before all that is drawn. Returns where everything stands.
fn push_head(
    alloc: Global,
    text: &mut String,
    drawing: &Drawing,
    components: &RankedComponents,
    labels: &Labels,
    plan: &Plan,
) -> Result<Layout, AllocError> {
    let heading = Heading::new(alloc, drawing, components, labels, plan.width)?;
    let layout = plan.layout(alloc, heading.height())?;
    let width = layout.width;
    let height = layout.bottom + legend_height(drawing, components, width);
    write!(
        text,
        "<svg xmlns=\"http://www.w3.org/2000/svg\" width=\"{width:.0}\" height=\"{height:.0}\" \
         viewBox=\"0 0 {width:.0} {height:.0}\" role=\"img\">\n"
    )?;
    push_described(text, &heading)?;
    push_style(text)?;
    text.push_str("<rect class=\"ground\" width=\"100%\" height=\"100%\"/>\n")?;
    let (of_large, of_small) = LINES;
    let next = push_lines(text, &heading.large, "heading", FIRST, of_large)?;
    push_lines(text, &heading.small, "told", next, of_small)?;
    Ok(layout)
}

/// Appends the title of a picture, and what it shows.
fn push_described(text: &mut String, heading: &Heading) -> Result<(), AllocError> {
    text.push_str("<title>")?;
    push_xml(text, heading.sentence.as_str())?;
    text.push_str("</title>\n<desc>")?;
    push_xml(text, heading.sentence.as_str())?;
    for told in &heading.told {
        text.push_str(". ")?;
        push_xml(text, told.as_str())?;
    }
    text.push_str(".</desc>\n")
}

/// Appends these lines from a height on, so far from each other. Returns the height of a line after them.
fn push_lines(
    text: &mut String,
    lines: &[String],
    class: &str,
    first: f64,
    apart: f64,
) -> Result<f64, AllocError> {
    let mut y = first;
    for line in lines {
        write!(text, "<text class=\"{class}\" x=\"{EDGE}\" y=\"{y}\">")?;
        push_xml(text, line.as_str())?;
        text.push_str("</text>\n")?;
        y += apart;
    }
    Ok(y)
}

/// Appends the names of the parts, unless the certificate is linked.
fn push_parts(text: &mut String, drawing: &Drawing, layout: &Layout) -> Result<(), AllocError> {
    if first_of(drawing.nodes.as_slice(), NodeClass::Unparted).is_some() {
        return Ok(());
    }
    let y = layout.top;
    let (side, cut, far) = layout.middles;
    let middle = if first_of(drawing.nodes.as_slice(), NodeClass::Cut).is_some() {
        "cut"
    } else {
        "no cut"
    };
    for (x, name) in [(side, "near side"), (cut, middle), (far, "far side")] {
        write!(
            text,
            "<text class=\"part\" x=\"{x:.1}\" y=\"{y:.1}\">{name}</text>\n"
        )?;
    }
    Ok(())
}
