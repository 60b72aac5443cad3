//! The picture of a sweep, as SVG: run by run, how few crashes split the overlay.
#![tactic(auto)]

mod picture;
mod picture_layout;
mod picture_style;
mod plot_dots;
mod plot_means;
mod plot_panel;
mod plot_shares;
mod strip_axis_and_mark;

pub use picture::svg_text;
