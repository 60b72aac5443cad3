ghost use Rattle.std.specs.Prelude.{◌≡◌, ℕ};
ghost use Rattle.ov_ids.specs.Members.{Has, Ascends};
ghost use Rattle.ov_graph.specs.Code.Tests.{neighbours_in};
ghost use Rattle.ov_cert.specs.Code.FrameFlaws.{end_flaw, in_cut_flaw, way_out_of, way_out, side_flaw};

use crate::cert::Split;
use crate::flaw_types_apart_from_paths::{EndFlaw, SideFlaw};
use crate::node_set::{NodeSet, node_set};
use ov_graph::bit_rows::ALL_WORDS;
use ov_graph::{Graph, is_member};
use ov_ids::NodeId;

/// Why the id is no surviving member.
fn end_flaw(group: &[NodeId], cut: &NodeSet<'_, ALL_WORDS>, id: NodeId) -> Option<EndFlaw>
    requires { Ascends group.now }
    ensures { result ≡ end_flaw group.now cut.now.members id }
{
    if !is_member(group, id) {
        return Some(EndFlaw::NoMember);
    }
    if cut.has(id) {
        return Some(EndFlaw::InCut);
    }
    None
}

/// The first of the ids that is in the cut.
fn in_cut_flaw(cut: &NodeSet<'_, ALL_WORDS>, ids: &[NodeId]) -> Option<SideFlaw>
    ensures { result ≡ in_cut_flaw cut.now.members 0 ids.now }
{
    for (at, id) in ids.iter().enumerate() {
        if cut.has(*id) {
            return Some(SideFlaw::InCut { at, id: *id });
        }
    }
    None
}

/// The first link of a node that ends neither on the side nor in the cut.
fn way_out_of(
    graph: &Graph,
    side: &NodeSet<'_, ALL_WORDS>,
    cut: &NodeSet<'_, ALL_WORDS>,
    id: NodeId,
) -> Option<SideFlaw>
    requires { Has graph.now.nodes id }
    ensures { result ≡ way_out_of side.now.members cut.now.members id
        (neighbours_in graph.now.links id graph.now.nodes) }
{
    for other in graph.neighbours(id) {
        if !side.has(other) && !cut.has(other) {
            return Some(SideFlaw::WayOut(id, other));
        }
    }
    None
}

/// The first link of these nodes that ends neither on the side nor in the cut.
fn way_out(
    graph: &Graph,
    side: &NodeSet<'_, ALL_WORDS>,
    cut: &NodeSet<'_, ALL_WORDS>,
    ids: &[NodeId],
) -> Option<SideFlaw>
    requires { (a : ℕ) → Has ids.now a → Has graph.now.nodes a }
    ensures { result ≡ way_out graph.now side.now.members cut.now.members ids.now }
{
    for id in ids {
        if let Some(flaw) = way_out_of(graph, side, cut, *id) {
            return Some(flaw);
        }
    }
    None
}

/// Why the side is not cut off. Near and far must be surviving members. The side must be a set of nodes outside the cut
/// that has near and not far, and every link of a node of the side must end on the side or in the cut.
pub(crate) fn side_flaw(
    graph: &Graph,
    group: &[NodeId],
    cut: &NodeSet<'_, ALL_WORDS>,
    split: &Split,
) -> Option<SideFlaw>
    requires graph { cut.now.graph ≡ graph.now }
    requires group { Ascends group.now }
    requires cut { cut.now.members ≡ split.now.cut }
    ensures { result ≡ side_flaw graph.now group.now split.now }
{
    if let Some(flaw) = end_flaw(group, cut, split.near) {
        return Some(SideFlaw::Near(flaw));
    }
    if let Some(flaw) = end_flaw(group, cut, split.far) {
        return Some(SideFlaw::Far(flaw));
    }
    let ids = split.side.as_slice();
    let side = match node_set(graph, ids) {
        Ok(side) => side,
        Err(flaw) => return Some(SideFlaw::NoSet(flaw)),
    };
    if let Some(flaw) = in_cut_flaw(cut, ids) {
        return Some(flaw);
    }
    if !side.has(split.near) {
        return Some(SideFlaw::NearOff);
    }
    if side.has(split.far) {
        return Some(SideFlaw::FarOn);
    }
    way_out(graph, &side, cut, ids)
}
