//! The order in which a search through a graph comes to its places. Nothing that is proved depends on it.
ghost use Rattle.std.specs.Prelude.{◌≡◌, ◌<◌, length, IfOk};

use ov_graph::Graph;
use ov_graph::bit_rows::{ALL_WORDS, has, put};
use ov_ids::OutOfMemory;
use std::alloc::Global;

/// A search through a graph. It goes on to a neighbour of the place where it is as long as one is not reached, and then
/// back by one step.
#[derive(Drop)]
struct Search {
    /// For each place its turn: how many places were reached before it.
    turns: Vec<u32>,
    /// How many places were reached.
    count: u32,
    /// The places that were reached, as a row of bits.
    reached: [u64; ALL_WORDS],
    /// The steps from where the search began to where it is. Each is a place, and the lowest place of a neighbour of it
    /// that is still to be tried.
    way: Vec<(u32, u32)>,
}

/// As many steps as a search takes at most: one to each place of a graph, and one back.
const MOST_STEPS: usize = 2 * Graph::MOST_OF_ANY;

/// For each place of a graph when a search comes to it, counted from 0. The search begins at the first place, and again
/// at each place to which no way leads. Places that it comes to one after another are mostly linked. OutOfMemory (99)
/// if an allocation is refused.
pub(crate) fn search_turns(alloc: Global, graph: &Graph) -> Result<Vec<u32>, OutOfMemory>
    ensures { IfOk result (λ turns. length turns.items ≡ length graph.now.nodes) }
{
    let places = graph.nodes().len();
    let mut search = Search {
        turns: Vec::from_elem(alloc, 0, places)?,
        count: 0,
        reached: [0; ALL_WORDS],
        way: Vec::new(alloc),
    };
    for start in 0..places {
        if !has(&search.reached, start) {
            search.go_from(graph, start)?;
        }
    }
    let Search { turns, .. } = search;
    Ok(turns)
}

impl Search {
    /// Goes to all places that are joined to one that was not reached.
    fn go_from(&mut self, graph: &Graph, start: usize) -> Result<(), OutOfMemory>
        requires turns { length self.old.turns.items ≡ length graph.now.nodes }
        requires start { start < length graph.now.nodes }
        ensures { length self.new.turns.items ≡ length graph.now.nodes }
    {
        self.reach(graph, start)?;
        for _step in 0..MOST_STEPS {
            if !self.step(graph)? {
                return Ok(());
            }
        }
        Ok(())
    }

    /// Goes on to a neighbour, or back. False: there is no way back.
    fn step(&mut self, graph: &Graph) -> Result<bool, OutOfMemory>
        requires { length self.old.turns.items ≡ length graph.now.nodes }
        ensures { length self.new.turns.items ≡ length graph.now.nodes }
    {
        let Some((place, after)) = self.way.pop() else {
            return Ok(false);
        };
        let here = place as usize;
        if here >= graph.nodes().len() {
            return Ok(false);
        }
        let Some(next) = graph.next_outside(here, &self.reached, after as usize) else {
            return Ok(true);
        };
        self.way.push((place, next as u32 + 1))?;
        self.reach(graph, next)?;
        Ok(true)
    }

    /// Reaches a place.
    fn reach(&mut self, graph: &Graph, place: usize) -> Result<(), OutOfMemory>
        requires turns { length self.old.turns.items ≡ length graph.now.nodes }
        requires place { place < length graph.now.nodes }
        ensures { length self.new.turns.items ≡ length graph.now.nodes }
    {
        prove!(graph.nodes().len() <= Graph::MOST_OF_ANY);
        put(&mut self.reached, place);
        self.turns[place] = self.count;
        self.count = self.count.saturating_add(1);
        self.way.push((place as u32, 0))?;
        Ok(())
    }
}
