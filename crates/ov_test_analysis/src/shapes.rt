//! The shape of a small graph, and of a ring and a star with more than 1,024 nodes, worked out by hand.
use crate::families::Family::{self, AllButOne, Ring, Star};
use crate::families::of_size;
use ov_shape::{Shape, shape_of};
use std::alloc::Global;

/// A family, how many nodes the graph has, and its shape. In a ring of n nodes, where n is even, the distances from a
/// node have the sum n * n / 4, and so the mean n * n / (4 * (n - 1)). In a star those from the centre have the sum
/// n - 1, those from another node 2 * n - 3, and so all have the mean 2 * (n - 1) / n.
const SHAPES: [(Family, u32, Shape); 3] = [
    (
        AllButOne,
        4,
        Shape {
            largest: 4,
            clustering: 8_333,
            path: Some(11_666),
            diameter: 2,
            degree_25: 2,
            degree_50: 2,
            degree_75: 3,
        },
    ),
    (
        Ring,
        1_100,
        Shape {
            largest: 1_100,
            clustering: 0,
            path: Some(2_752_502),
            diameter: 550,
            degree_25: 2,
            degree_50: 2,
            degree_75: 2,
        },
    ),
    (
        Star,
        1_100,
        Shape {
            largest: 1_100,
            clustering: 0,
            path: Some(19_981),
            diameter: 2,
            degree_25: 1,
            degree_50: 1,
            degree_75: 1,
        },
    ),
];

/// The shape of the graph of so many nodes; None if memory ran out.
fn shape(alloc: Global, family: Family, nodes: u32) -> Option<Shape> {
    match of_size(alloc, family, nodes) {
        Ok(graph) => shape_of(alloc, &graph).ok().flatten(),
        Err(_) => None,
    }
}

#[test]
fn shapes_are_measured(rt: HostRuntime) {
    for (family, nodes, expected) in &SHAPES {
        assert!(rt;
            shape(rt.alloc(), *family, *nodes) == Some(*expected),
            "{nodes} nodes"
        );
    }
}
