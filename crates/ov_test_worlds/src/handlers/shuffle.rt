use crate::handlers::nodes::{are, are_moves, has, views_with};
use ov_ids::NodeId;
use ov_shuffle::{Sent, on_reply, on_shuffle, start};
use ov_test_kit::{sized, words};
use ov_views::Views;
use ov_words::Draws;
use std::alloc::Global;
use std::test::Fail;

/// To node 8, SHUFFLE of node 1 by itself with 4 steps left, of 1, 3, 8, 6 and 4.
static SHUFFLE: [(u32, &'static [u8]); 1] = [(
    8,
    &[
        1, 7, 0, 0, 0, 1, 0, 0, 0, 1, 4, 5, 0, 0, 0, 1, 0, 0, 0, 3, 0, 0, 0, 8, 0, 0, 0, 6, 0, 0,
        0, 4,
    ],
)];

/// To node 1, the answer of node 8, of 2 alone.
static REPLY: [(u32, &'static [u8]); 1] = [(1, &[1, 8, 0, 0, 0, 8, 1, 0, 0, 0, 2])];

/// Node 1 starts a shuffle, and sends `SHUFFLE`. Its list is kept.
fn starts(alloc: Global, first: &Views, sent: &mut Sent) -> Result<bool, Fail> {
    let words = words(&[1, 0, 0, 1, 0]);
    let moves = start(alloc, first, sent, &mut Draws::new(&words))?;
    Ok(are(sent.as_slice(), &[1, 3, 8, 6, 4]) && are_moves(alloc, &moves, &[], &SHUFFLE))
}

/// Node 8 takes the list of node 1 in, and sends `REPLY`.
fn is_answered(alloc: Global) -> Result<bool, Fail> {
    let words = words(&[]);
    let mut second = views_with(8, sized(5, 30)?, &[1], &[2], &words);
    let ids = [NodeId(1), NodeId(3), NodeId(8), NodeId(6), NodeId(4)];
    let draws = &mut Draws::new(&words);
    let moves = on_shuffle(alloc, &mut second, draws, NodeId(1), NodeId(1), 4, &ids)?;
    Ok(has(&second, &[1], &[2, 3, 4, 6]) && are_moves(alloc, &moves, &[], &REPLY))
}

/// Node 1 takes 2 in by a copy of its list, and sends nothing.
fn is_taken_in(alloc: Global, first: &mut Views, sent: &Sent) -> Result<bool, Fail> {
    let words = words(&[]);
    let draws = &mut Draws::new(&words);
    let copy = sent.copy()?;
    let moves = on_reply(alloc, first, &copy, draws, NodeId(8), &[NodeId(2)])?;
    Ok(has(first, &[3, 8], &[2, 4, 6]) && are_moves(alloc, &moves, &[], &[]))
}

#[test]
fn a_shuffle_goes_there_and_back(rt: HostRuntime) -> Result<(), Fail> {
    let alloc = rt.alloc();
    let mut first = views_with(1, sized(5, 30)?, &[3, 8], &[4, 6], &words(&[]));
    let mut sent = Sent::new(alloc);
    assert!(rt; starts(alloc, &first, &mut sent)?);
    assert!(rt; is_answered(alloc)?);
    assert!(rt; is_taken_in(alloc, &mut first, &sent)?);
    Ok(())
}
