use crate::handlers::nodes::{Change, are_moves, has, views_with};
use ov_ids::NodeId;
use ov_join::{on_forward_join, on_join, on_joined};
use ov_test_kit::{sized, words};
use ov_words::Draws;
use std::alloc::Global;
use std::test::Fail;

/// DISCONNECT to 7, JOINED to 9, and FORWARDJOIN of 9 to 3.
static FULL_VIEW: [(u32, &'static [u8]); 3] = [
    (7, &[1, 6, 0, 0, 0, 1]),
    (9, &[1, 3, 0, 0, 0, 1]),
    (3, &[1, 2, 0, 0, 0, 1, 0, 0, 0, 9, 6]),
];

/// JOIN comes from 9 to node 1, which has two active places. The word 5 picks the second of two.
fn is_dropped_for_9(alloc: Global) -> Result<bool, Fail> {
    let words = words(&[5]);
    let mut views = views_with(1, sized(2, 30)?, &[3, 7], &[], &words);
    let draws = &mut Draws::new(&words);
    let moves = on_join(alloc, &mut views, draws, NodeId(9))?;
    let changes = [Change::Down(7), Change::Up(9)];
    let is_told = are_moves(alloc, &moves, &changes, &FULL_VIEW);
    Ok(is_told && has(&views, &[3, 9], &[7]) && draws.left() == 63)
}

#[test]
fn full_view(rt: HostRuntime) -> Result<(), Fail> {
    assert!(rt; is_dropped_for_9(rt.alloc())?);
    Ok(())
}

/// FORWARDJOIN of 9 to 5, with two steps left.
static PASSED_ON: [(u32, &'static [u8]); 1] = [(5, &[1, 2, 0, 0, 0, 3, 0, 0, 0, 9, 2])];

/// FORWARDJOIN of 9 comes from 1 to node 3 with PRWL steps left.
fn is_passed_on(alloc: Global) -> Result<bool, Fail> {
    let words = words(&[]);
    let mut views = views_with(3, sized(5, 30)?, &[1, 5], &[], &words);
    let draws = &mut Draws::new(&words);
    let moves = on_forward_join(alloc, &mut views, draws, NodeId(1), NodeId(9), 3)?;
    let is_told = are_moves(alloc, &moves, &[], &PASSED_ON);
    Ok(is_told && has(&views, &[1, 5], &[9]) && draws.left() == 63)
}

/// JOINED comes from the passive 4 to node 1, which has a place free.
fn is_taken_up(alloc: Global) -> Result<bool, Fail> {
    let words = words(&[]);
    let mut views = views_with(1, sized(5, 30)?, &[3, 7], &[4, 6], &words);
    let draws = &mut Draws::new(&words);
    let moves = on_joined(alloc, &mut views, draws, NodeId(4))?;
    let is_told = are_moves(alloc, &moves, &[Change::Up(4)], &[]);
    Ok(is_told && has(&views, &[3, 4, 7], &[6]) && draws.left() == 64)
}

#[test]
fn node_3_passes_the_walk_of_node_9_on(rt: HostRuntime) -> Result<(), Fail> {
    assert!(rt; is_passed_on(rt.alloc())?);
    assert!(rt; is_taken_up(rt.alloc())?);
    Ok(())
}
