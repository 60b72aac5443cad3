//! Which levels an analysis tries.
use crate::crew::crews::{PETERSEN, RING, TWO_SIDES, find_watched};
use ov_crew::OpenGate;
use ov_even::Watcher;
use std::test::Fail;

/// Keeps the highest level that it is told of.
#[derive(Drop)]
struct Highest {
    level: usize,
}

impl Watcher for Highest {
    fn sees(&mut self, level: usize, _place: usize, _size: usize) {
        self.level = self.level.max(level);
    }
}

/// Of graphs all of whose nodes have equally many links the neighbours of a node split the graph, and no fewer nodes
/// do. So the level that decides is one above the number of links, and a higher one can't be good.
#[test]
fn no_level_is_tried_that_the_links_rule_out(rt: HostRuntime) -> Result<(), Fail> {
    for (row, links) in [(&PETERSEN, 3), (&RING, 8), (&TWO_SIDES, 40)] {
        for count in [1, 2] {
            let mut highest = Highest { level: 0 };
            let is_found = find_watched(&rt, rt.alloc(), row, count, &OpenGate, &mut highest)?;
            assert!(rt; is_found && highest.level == links + 1, "{links} links");
        }
    }
    Ok(())
}
