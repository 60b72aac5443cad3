//! How many levels an analysis tries.
use crate::crew::crews::{Row, find_watched};
use crate::crew::graphs::Family;
use ov_crew::OpenGate;
use ov_even::Watcher;
use std::test::Fail;

/// The arm with m arms before it has paths to 32 - m of the members before it, and no more: they pass these m arms and
/// the 32 - 2 m of the first 32 nodes that it is linked to. So at each level from 18 to 32 the first piece with a cut
/// is the fan of an arm, and its cut has one node less than the level. At level 18 that is the last arm.
static FALLING: Row = Row {
    family: Family::Falling,
    nodes: 80,
    // the first 32 nodes and the arms; each has 32 links or more
    members: 48,
    k: 17,
    cut: &[
        1, 2, 33, 34, 35, 36, 37, 38, 39, 40, 41, 42, 43, 44, 45, 46, 47,
    ],
    near: 48,
    far: 3,
    side: &[
        48, 49, 50, 51, 52, 53, 54, 55, 56, 57, 58, 59, 60, 61, 62, 63, 64, 65, 66, 67, 68, 69, 70,
        71, 72, 73, 74, 75, 76, 77, 78, 79, 80,
    ],
};

/// There are fewer than 2^7 nodes, so at most 2 * 7 + 1 levels are tried. If levels were doubled up to 32, and then
/// tried one by one from there down, it would be 22.
const MOST_TRIES: u64 = 15;

/// Counts how often it is told of the beginning of a level.
#[derive(Drop)]
struct Tries {
    begun: u64,
}

impl Watcher for Tries {
    fn sees(&mut self, _level: usize, place: usize, _size: usize) {
        if place == 0 {
            self.begun = self.begun.saturating_add(1);
        }
    }
}

/// So many workers find the answer, and try few levels.
#[test]
fn levels_are_halved(rt: HostRuntime) -> Result<(), Fail> {
    for count in [1, 2] {
        let mut tries = Tries { begun: 0 };
        let is_found = find_watched(&rt, rt.alloc(), &FALLING, count, &OpenGate, &mut tries)?;
        assert!(rt; is_found && tries.begun > 0 && tries.begun <= MOST_TRIES);
    }
    Ok(())
}
