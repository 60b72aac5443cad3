//! Pictures of certificates: where the nodes of a drawing stand, and its text as SVG and as DOT.
#![tactic(auto)]

mod class_names;
mod component_colours;
mod component_ranking;
mod dot_writing;
mod escaped_texts;
mod headings;
mod labels;
mod layout;
mod node_columns;
mod node_position;
mod nodes_by_part;
mod path_colours;
mod rings;
mod sentences;
mod svg_bends;
mod svg_legend;
mod svg_links;
mod svg_nodes;
mod svg_style;
mod svg_writing;

pub use dot_writing::dot;
pub use svg_writing::svg;
