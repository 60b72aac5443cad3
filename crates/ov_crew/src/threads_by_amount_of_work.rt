//! How many workers try a level, and how many threads name the paths of a certificate.
ghost use Rattle.std.specs.Prelude.{◌≡◌, ◌<◌, ◌≤◌, ◌*◌, false, length};
ghost use Rattle.ov_graph.specs.Row.{word_bits};

use ov_even::FoundPaths;
use ov_fans::shared_bits;
use ov_graph::Graph;
use ov_graph::bit_rows::{ALL_WORDS, WORDS, put, words_for};
use ov_ids::{NodeId, Workers};

/// How many paths must be sought before one more thread saves time.
const PATHS_WORTH_A_THREAD: u64 = 1024;

/// How many paths must be named by ids before one more thread saves time.
const NAMES_WORTH_A_THREAD: u64 = 4096;

/// How many workers try each level.
#[derive(Clone, Copy, Debug, PartialEq, Eq)]
pub(crate) struct Hiring {
    /// At most this many.
    pub(crate) workers: Workers,
    /// Whether a level with few paths gets fewer workers. Otherwise each level gets all workers.
    pub(crate) sparing: bool,
}

impl Hiring {
    /// The number of workers for a level. It follows the paths that the pieces of the level ask for.
    pub(crate) fn workers_for(&self, graph: &Graph, group: &[NodeId], level: usize) -> Workers
        ensures few { result ≤ self.now.workers }
        ensures all { self.now.sparing ≡ false → result ≡ self.now.workers }
    {
        if !self.sparing {
            return self.workers;
        }
        let paths = asking_pieces(graph, group, level).saturating_mul(level as u64);
        self.workers.at_most(paths / PATHS_WORTH_A_THREAD)
    }

    /// How many of these pieces, whose paths are to be named by ids, each thread gets.
    pub(crate) fn pieces_a_thread(&self, found: &[FoundPaths<'_>]) -> usize
        ensures { 0 < result }
    {
        let Some(first) = found.first() else {
            return 1;
        };
        let paths = (found.len() as u64).saturating_mul(first.piece.level() as u64);
        let threads = (paths / NAMES_WORTH_A_THREAD)
            .min(self.workers.count() as u64)
            .max(1);
        found.len().div_ceil(threads as usize)
    }
}

/// How many pieces of a level ask for paths: the pairs of unlinked members among the first `level` members, and the
/// fans of later members.
fn asking_pieces(graph: &Graph, group: &[NodeId], level: usize) -> u64 {
    let first = &group[..level.min(group.len())];
    let unlinked = unlinked_among(graph, first);
    // Each member was counted as not linked to itself, and each pair at both its members.
    let pairs = unlinked.saturating_sub(first.len()) / 2;
    let fans = group.len() - first.len();
    pairs.saturating_add(fans) as u64
}

/// To how many of these nodes each of them is not linked, itself among them, added up. Each takes the time to go
/// through its links and a set of places once: on a large graph some microseconds.
fn unlinked_among(graph: &Graph, nodes: &[NodeId]) -> usize {
    prove!(graph.nodes().len() <= Graph::MOST_OF_ANY);
    if graph.nodes().len() <= Graph::MOST_NODES {
        unlinked_in(graph, nodes, &row_of::<WORDS>(graph, nodes))
    } else {
        unlinked_in(graph, nodes, &row_of::<ALL_WORDS>(graph, nodes))
    }
}

/// Does what `unlinked_among` does, by the row of the places of these nodes.
fn unlinked_in<const W: usize>(graph: &Graph, nodes: &[NodeId], row: &[u64; W]) -> usize
    requires room { length graph.now.nodes ≤ word_bits * W }
{
    prove!(graph.nodes().len() <= Graph::MOST_OF_ANY);
    let words = words_for::<W>(graph.nodes().len());
    let mut unlinked: usize = 0;
    for node in nodes {
        if let Some(place) = graph.place(*node) {
            let linked = shared_bits(&graph.neighbour_set(place), row, words);
            unlinked = unlinked.saturating_add(nodes.len().saturating_sub(linked));
        }
    }
    unlinked
}

/// The row of the places of these nodes.
fn row_of<const W: usize>(graph: &Graph, nodes: &[NodeId]) -> [u64; W]
    requires room { length graph.now.nodes ≤ word_bits * W }
{
    let mut row = [0; W];
    for node in nodes {
        if let Some(place) = graph.place(*node) {
            put(&mut row, place);
        }
    }
    row
}
