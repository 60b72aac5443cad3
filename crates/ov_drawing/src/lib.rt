//! Drawings of certificates: what a picture shows of each node, each link and the paths of an entry.
#![tactic(auto)]

mod chosen_entry;
mod classes_by_certificate;
mod drawing;
mod fault;
mod node_and_link_classes;
mod path_numbers;

pub use chosen_entry::ChosenEntry;
pub use drawing::{Drawing, DrawnLink, DrawnNode, draw};
pub use fault::PictureFault;
pub use node_and_link_classes::{Band, LinkClass, NodeClass};
