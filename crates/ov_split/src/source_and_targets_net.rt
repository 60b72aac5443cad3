ghost use Rattle.std.specs.Prelude.{◌≡◌, ◌≢◌, ◌↔◌, ℕ, ◌<◌, ◌≤◌, ◌*◌, length, IfSome, IfNone, Some};
ghost use Rattle.ov_ids.specs.Members.{Has};
ghost use Rattle.ov_graph.specs.Row.{HasBit, AreWordsFor, word_bits};
ghost use Rattle.ov_split.specs.SplitNetState.{IsSplitNet};
ghost use Rattle.ov_split.specs.Places.{net_at, net_by_place};
ghost use Rattle.ov_graph.specs.Neighbours.{IsFirst, HoldsNoMore};
ghost use Rattle.ov_split.specs.Placed.{IsPlaced, LinksOutside, LinksWithin};

use crate::place_set::PlaceSet;
use ov_graph::Graph;
use ov_graph::bit_rows::{put, words_for};
use std::marker::Model;

/// A net: a graph in which paths are sought from one node, the source, to the targets, without the avoided nodes.
/// Contracts see the net by ids. The calls use places of nodes, counted from 0, and sets of places are rows of `W`
/// words of bits.
#[derive(Drop)]
pub struct SplitNet<'g, const W: usize> {
    graph: &'g Graph,
    avoided: PlaceSet<W>,
    source: usize,
    targets: PlaceSet<W>,
}

impl<'g, const W: usize> Model for SplitNet<'g, W> {
    ghost use Rattle.std.specs.Prelude.{◌≤◌, ◌*◌, length};
    ghost use Rattle.ov_graph.specs.Row.{word_bits};
    ghost use Rattle.ov_split.specs.SplitNetState.{SplitNetState};
    ghost use Rattle.ov_split.specs.Code.Rows.{net_kept, IsNetKept};

    ghost Value = { SplitNetState };

    ghost view = { λ n. net_kept n.graph.now n.avoided.words n.source n.targets.words };

    ghost invariant = { λ n. IsNetKept n.graph.now n.avoided.words n.source n.targets.words
        × (length n.graph.now.nodes ≤ word_bits * W) };
}

impl<'g, const W: usize> SplitNet<'g, W> {
    /// The net with this source and these targets. At most one node is avoided. The source must be neither avoided nor
    /// a target.
    pub fn new(
        graph: &'g Graph,
        avoided: Option<usize>,
        source: usize,
        targets: [u64; W],
    ) -> SplitNet<'g, W>
        requires room { length graph.now.nodes ≤ word_bits * W }
        requires source { source < length graph.now.nodes }
        requires avoided { IfSome avoided (λ p. (p < length graph.now.nodes) × (p ≢ source)) }
        requires targets { (p : ℕ) → HasBit targets p → (p < length graph.now.nodes) × (p ≢ source) }
        ensures net { result ≡ net_at graph.now avoided source targets.entry }
        ensures is_net { IsSplitNet result }
    {
        prove!(source < graph.nodes().len());
        let avoided = row_of(avoided);
        SplitNet {
            graph,
            avoided: PlaceSet { words: avoided },
            source,
            targets: PlaceSet { words: targets },
        }
    }

    /// The number of places: one for each node.
    pub fn places(&self) -> usize
        ensures places { result ≡ length self.now.graph.nodes }
        ensures placed { IsPlaced (net_by_place self.now) (length self.now.graph.nodes) }
        ensures room { length self.now.graph.nodes ≤ word_bits * W }
        ensures net { IsSplitNet self.now }
    {
        self.graph.nodes().len()
    }

    /// How many words of the rows are in use. No row has a bit beyond them.
    pub fn words(&self) -> usize
        ensures words { AreWordsFor (length self.now.graph.nodes) result }
        ensures fits { result ≤ W }
    {
        words_for::<W>(self.graph.nodes().len())
    }

    /// The place of the source.
    pub fn source(&self) -> usize
        ensures place { result ≡ (net_by_place self.now).source }
        ensures below { result < length self.now.graph.nodes }
        ensures net { IsSplitNet self.now }
    {
        self.source
    }

    /// The row of the places of the targets.
    pub fn targets(&self) -> &[u64; W]
        ensures places { (p : ℕ) → HasBit result.now p ↔ Has (net_by_place self.now).targets p }
        ensures net { IsSplitNet self.now }
    {
        &self.targets.words
    }

    /// The row of the places of the avoided nodes.
    pub fn avoided(&self) -> &[u64; W]
        ensures places { (p : ℕ) → HasBit result.now p ↔ Has (net_by_place self.now).avoided p }
        ensures net { IsSplitNet self.now }
    {
        &self.avoided.words
    }

    /// The first place from `after` on of a neighbour of the node at place `p`, outside a set of places.
    pub fn next_outside(&self, p: usize, set: &[u64; W], after: usize) -> Option<usize>
        requires { p < length self.now.graph.nodes }
        ensures some { IfSome result (IsFirst (LinksOutside (net_by_place self.now) p set.now) after) }
        ensures none { IfNone result (HoldsNoMore (LinksOutside (net_by_place self.now) p set.now) after) }
        ensures net { IsSplitNet self.now }
    {
        self.graph.next_outside(p, set, after)
    }

    /// The first place from `after` on of a neighbour of the node at place `p`, within a set of places.
    pub fn next_within(&self, p: usize, set: &[u64; W], after: usize) -> Option<usize>
        requires { p < length self.now.graph.nodes }
        ensures some { IfSome result (IsFirst (LinksWithin (net_by_place self.now) p set.now) after) }
        ensures none { IfNone result (HoldsNoMore (LinksWithin (net_by_place self.now) p set.now) after) }
        ensures net { IsSplitNet self.now }
    {
        self.graph.next_within(p, set, after)
    }
}

/// The row with the bit of one place, or of none.
fn row_of<const W: usize>(place: Option<usize>) -> [u64; W]
    requires { IfSome place (λ p. p < word_bits * W) }
    ensures { (q : ℕ) → HasBit result q ↔ (place ≡ Some q) }
{
    let mut row = [0; W];
    if let Some(p) = place {
        put(&mut row, p);
    }
    row
}
