ghost use Rattle.std.specs.Prelude.{◌≤◌, length};

use crate::handlers::nodes::{Change, Spelt, are_moves, has, views_with};
use ov_ids::{NodeId, OutOfMemory, Refill};
use ov_neighbor::{Attempt, on_crash_report, on_disconnect, on_neighbor, on_reply};
use ov_test_kit::{sized, words};
use ov_views::{Moves, Views};
use ov_words::{Draws, Words};
use std::alloc::Global;
use std::process::Abort;
use std::test::Fail;

/// A node's views and its attempt.
#[derive(Drop)]
struct Node {
    views: Views,
    attempt: Attempt,
}

/// What comes to a node: NEIGHBOR with low or high priority, NEIGHBORREPLY of no, DISCONNECT, or the report of a crash.
#[derive(Clone, Copy)]
enum Event {
    Low,
    High,
    No,
    Disconnect,
    Crash,
}

/// What comes to a node, from whom or of whom; and then the changes, what is sent to whom, the active and the passive
/// members, and how many of 64 words are left.
#[derive(Clone, Copy)]
struct Step {
    from: u32,
    event: Event,
    changes: &'static [Change],
    sends: Spelt,
    active: &'static [u32],
    passive: &'static [u32],
    left: usize,
}

fn handle(
    alloc: Global,
    node: &mut Node,
    draws: &mut Draws<'_>,
    step: &Step,
) -> Result<Moves, OutOfMemory>
    requires { 40 ≤ length draws.old }
{
    let from = NodeId(step.from);
    let views = &mut node.views;
    let attempt = &mut node.attempt;
    match step.event {
        Event::Low => on_neighbor(alloc, views, draws, from, false),
        Event::High => on_neighbor(alloc, views, draws, from, true),
        Event::No => on_reply(alloc, views, attempt, draws, from, false),
        Event::Disconnect => on_disconnect(alloc, views, attempt, draws, from),
        Event::Crash => on_crash_report(alloc, views, attempt, draws, from),
    }
}

/// The node does at one step what that says.
fn does(alloc: Global, node: &mut Node, words: &Words, step: &Step) -> bool {
    let draws = &mut Draws::new(words);
    let is_told = match handle(alloc, node, draws, step) {
        Ok(moves) => are_moves(alloc, &moves, step.changes, step.sends),
        Err(_) => false,
    };
    is_told && has(&node.views, step.active, step.passive) && draws.left() == step.left
}

/// The node with these views does what each step says, one after another. Each step's words are these.
fn goes(rt: &impl Abort, alloc: Global, views: Views, words: &Words, steps: &[Step]) {
    let attempt = Attempt::new(alloc);
    let mut node = Node { views, attempt };
    for (place, step) in steps.iter().enumerate() {
        assert!(rt; does(alloc, &mut node, words, step), "at step {place}");
    }
}

/// All places are taken, and the word 5 picks the second of two.
static NEIGHBOR_ASKED: [Step; 2] = [
    Step {
        from: 9,
        event: Event::Low,
        changes: &[],
        sends: &[(9, &[1, 5, 0, 0, 0, 1, 0])],
        active: &[3, 7],
        passive: &[],
        left: 64,
    },
    Step {
        from: 9,
        event: Event::High,
        changes: &[Change::Down(7), Change::Up(9)],
        sends: &[(7, &[1, 6, 0, 0, 0, 1]), (9, &[1, 5, 0, 0, 0, 1, 1])],
        active: &[3, 9],
        passive: &[7],
        left: 63,
    },
];

#[test]
fn neighbor_asked(rt: HostRuntime) -> Result<(), Fail> {
    let words = words(&[5]);
    let views = views_with(1, sized(2, 30)?, &[3, 7], &[], &words);
    goes(&rt, rt.alloc(), views, &words, &NEIGHBOR_ASKED);
    Ok(())
}

/// The word 3 picks the second of two, and the first of one. With the second rejection the attempt is over.
static NEIGHBOR_REPLACED: [Step; 4] = [
    Step {
        from: 3,
        event: Event::Crash,
        changes: &[Change::Down(3)],
        sends: &[(6, &[1, 4, 0, 0, 0, 1, 0])],
        active: &[8],
        passive: &[4, 6],
        left: 63,
    },
    Step {
        from: 6,
        event: Event::No,
        changes: &[],
        sends: &[(4, &[1, 4, 0, 0, 0, 1, 0])],
        active: &[8],
        passive: &[4, 6],
        left: 63,
    },
    Step {
        from: 4,
        event: Event::No,
        changes: &[],
        sends: &[],
        active: &[8],
        passive: &[4, 6],
        left: 64,
    },
    Step {
        from: 4,
        event: Event::No,
        changes: &[],
        sends: &[],
        active: &[8],
        passive: &[4, 6],
        left: 64,
    },
];

#[test]
fn neighbor_replaced(rt: HostRuntime) -> Result<(), Fail> {
    let words = words(&[3]);
    let views = views_with(1, sized(5, 30)?, &[3, 8], &[4, 6], &words);
    goes(&rt, rt.alloc(), views, &words, &NEIGHBOR_REPLACED);
    Ok(())
}

/// Nobody is asked in the place of who left.
static LEFT: [Step; 1] = [Step {
    from: 1,
    event: Event::Disconnect,
    changes: &[Change::Down(1)],
    sends: &[],
    active: &[],
    passive: &[1],
    left: 64,
}];

#[test]
fn who_disconnects_becomes_passive(rt: HostRuntime) -> Result<(), Fail> {
    let words = words(&[]);
    let views = views_with(7, sized(5, 30)?, &[1], &[], &words);
    goes(&rt, rt.alloc(), views, &words, &LEFT);
    Ok(())
}

/// Node 1 is told DISCONNECT by 3: its rule, who else is active, what it sends to whom, and how many of 64 words are
/// left. Of passive members it has 4, and then 3 and 4.
struct Parted {
    rule: Refill,
    others: &'static [u32],
    sends: Spelt,
    left: usize,
}

impl Parted {
    /// The step.
    fn step(&self) -> Step {
        Step {
            from: 3,
            event: Event::Disconnect,
            changes: &[Change::Down(3)],
            sends: self.sends,
            active: self.others,
            passive: &[3, 4],
            left: self.left,
        }
    }
}

/// The word 2 picks the first of two passive members, which is the sender.
static PARTED: [Parted; 6] = [
    Parted {
        rule: Refill::Never,
        others: &[8],
        sends: &[],
        left: 64,
    },
    Parted {
        rule: Refill::Alone,
        others: &[8],
        sends: &[],
        left: 64,
    },
    Parted {
        rule: Refill::Always,
        others: &[8],
        sends: &[(3, &[1, 4, 0, 0, 0, 1, 0])],
        left: 63,
    },
    Parted {
        rule: Refill::Never,
        others: &[],
        sends: &[],
        left: 64,
    },
    Parted {
        rule: Refill::Alone,
        others: &[],
        sends: &[(3, &[1, 4, 0, 0, 0, 1, 1])],
        left: 63,
    },
    Parted {
        rule: Refill::Always,
        others: &[],
        sends: &[(3, &[1, 4, 0, 0, 0, 1, 1])],
        left: 63,
    },
];

#[test]
fn neighbor_leaves(rt: HostRuntime) -> Result<(), Fail> {
    let words = words(&[2]);
    for row in &PARTED {
        let mut views = views_with(1, sized(5, 30)?.with_refill(row.rule), &[3], &[4], &words);
        for other in row.others {
            views.add_active(NodeId(*other), &mut Draws::new(&words));
        }
        let attempt = Attempt::new(rt.alloc());
        let mut node = Node { views, attempt };
        assert!(rt; does(rt.alloc(), &mut node, &words, &row.step()));
    }
    Ok(())
}
