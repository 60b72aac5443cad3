//! Tests of Plumtree, and of a node whole.
mod peer;
mod plum;
mod told;
