use ov_drawing::{LinkClass, NodeClass};

/// The name of a class of nodes, in SVG and in DOT.
pub(crate) fn node_class_name(class: NodeClass) -> &'static str {
    match class {
        NodeClass::Unparted => "unparted",
        NodeClass::Near => "near",
        NodeClass::NearSide => "near-side",
        NodeClass::Cut => "cut",
        NodeClass::Far => "far",
        NodeClass::FarSide => "far-side",
    }
}

/// The name of a class of links, in SVG and in DOT.
pub(crate) fn link_class_name(class: LinkClass) -> &'static str {
    match class {
        LinkClass::Unparted => "unparted",
        LinkClass::WithinSide => "within-side",
        LinkClass::SideToCut => "side-to-cut",
        LinkClass::WithinCut => "within-cut",
        LinkClass::CutToFar => "cut-to-far",
        LinkClass::WithinFar => "within-far",
        LinkClass::Across => "across",
    }
}
