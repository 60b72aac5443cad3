ghost use Rattle.std.specs.Prelude.{◌≡◌, ◌≤◌, ◌*◌, ◌&&◌, length, not, [], Some, None, IfOk, IfErr, if◌then◌else◌};
ghost use Rattle.ov_ids.specs.Sets.{has, adding};
ghost use Rattle.ov_graph.specs.Row.{word_bits};
ghost use Rattle.ov_cert.specs.Code.Kept.{NodeSetState};
ghost use Rattle.ov_cert.specs.Code.Tests.{entered};
ghost use Rattle.ov_cert.specs.Code.Flaws.{first_taken};
ghost use Rattle.ov_cert.specs.Code.FrameFlaws.{order_flaw, set_flaw};

use crate::flaw_types_apart_from_paths::SetFlaw;
use ov_graph::Graph;
use ov_graph::bit_rows::{ALL_WORDS, has, put};
use ov_ids::NodeId;
use std::marker::Model;

/// A bit for each place.
#[derive(Clone, Copy)]
struct PlaceBits<const W: usize> {
    words: [u64; W],
}

/// A set of nodes of a graph, as `W` words with a bit for the place of each node. Allocates nothing. Contracts see the
/// graph and the ascending members.
#[derive(Drop)]
pub(crate) struct NodeSet<'g, const W: usize> {
    graph: &'g Graph,
    bits: PlaceBits<W>,
}

impl<'g, const W: usize> Model for NodeSet<'g, W> {
    ghost use Rattle.std.specs.Prelude.{◌≤◌, ◌*◌, length};
    ghost use Rattle.ov_graph.specs.Row.{picked, word_bits};
    ghost use Rattle.ov_cert.specs.Code.Kept.{NodeSetState};

    ghost Value = { NodeSetState };

    ghost view = { λ s. record { graph = s.graph.now; members = picked s.bits.words 0 s.graph.now.nodes } };

    ghost invariant = { λ s. length s.graph.now.nodes ≤ word_bits * W };
}

impl<'g, const W: usize> NodeSet<'g, W> {
    /// The empty set.
    pub(crate) fn new(graph: &'g Graph) -> NodeSet<'g, W>
        requires { length graph.now.nodes ≤ word_bits * W }
        ensures { result ≡ record { graph = graph.now; members = [] } }
    {
        NodeSet {
            graph,
            bits: PlaceBits { words: [0; W] },
        }
    }

    /// Whether the id is a member.
    pub(crate) fn has(&self, id: NodeId) -> bool
        ensures { result ≡ has self.now.members id }
    {
        let graph = self.graph;
        match graph.place(id) {
            Some(place) => has(&self.bits.words, place),
            None => false,
        }
    }

    /// Adds a node. Returns false and changes nothing if the id is no node or is already a member.
    pub(crate) fn enter(&mut self, id: NodeId) -> bool
        ensures fresh { result ≡ has self.old.graph.nodes id && not (has self.old.members id) }
        ensures entered { self.new ≡ (if result then record self.old { members = adding id self.old.members } else
            self.old) }
    {
        let graph = self.graph;
        let Some(place) = graph.place(id) else {
            return false;
        };
        if has(&self.bits.words, place) {
            return false;
        }
        put(&mut self.bits.words, place);
        true
    }

    /// Adds these ids in order. Stops at the first id that is no node or is already a member, and returns it.
    pub(crate) fn enter_all(&mut self, ids: &[NodeId]) -> Option<NodeId>
        ensures graph { self.new.graph ≡ self.old.graph }
        ensures taken { result ≡ first_taken self.old.graph self.old.members ids.now }
        ensures entered { result ≡ None → self.new.members ≡ entered self.old.members ids.now }
    {
        for id in ids {
            if !self.enter(*id) {
                return Some(*id);
            }
        }
        None
    }
}

/// Why the id at a place is not above the id before it, if there is one.
fn order_flaw(before: Option<NodeId>, at: usize, id: NodeId) -> Option<SetFlaw>
    ensures { result ≡ order_flaw before at id }
{
    match before {
        Some(before) if id <= before => Some(SetFlaw::NotAbove { at, id, before }),
        _ => None,
    }
}

/// The set of these ids. If they are no set of nodes in ascending order, the first id that does not fit.
pub(crate) fn node_set<'g>(
    graph: &'g Graph,
    ids: &[NodeId],
) -> Result<NodeSet<'g, ALL_WORDS>, SetFlaw>
    ensures set { IfOk result (λ s. s ≡ record { graph = graph.now; members = ids.now }) }
    ensures none { IfOk result (λ _. set_flaw graph.now ids.now ≡ None) }
    ensures flaw { IfErr result (λ flaw. set_flaw graph.now ids.now ≡ Some flaw) }
{
    prove!(graph.nodes().len() <= Graph::MOST_OF_ANY);
    let mut set: NodeSet<'_, ALL_WORDS> = NodeSet::new(graph);
    let mut before = None;
    for (at, id) in ids.iter().enumerate() {
        if let Some(flaw) = order_flaw(before, at, *id) {
            return Err(flaw);
        }
        if !set.enter(*id) {
            return Err(SetFlaw::NoNode { at, id: *id });
        }
        before = Some(*id);
    }
    Ok(set)
}
