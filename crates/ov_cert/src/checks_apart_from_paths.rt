ghost use Rattle.std.specs.Prelude.{◌≡◌, ◌↔◌, IsNone, IfSome, MatchResult};
ghost use Rattle.ov_ids.specs.Members.{Ascends};
ghost use Rattle.ov_graph.specs.Links.{IsGraph};
ghost use Rattle.ov_cert.specs.declared.cert.Cert.TheVariants as cert;
ghost use Rattle.ov_cert.specs.Verdict.{PassesFrame, IsFrameFault};
ghost use Rattle.ov_cert.specs.FrameFlaws.{HasFrameFlaw, flaw_fault};
ghost use Rattle.ov_cert.specs.Code.Tests.{frame_fault};
ghost use Rattle.ov_cert.specs.Code.FrameFlaws.{body_flaw, frame_flaw};

use crate::cert::{Cert, Split};
use crate::fault::CheckFault;
use crate::flaw_types_apart_from_paths::FrameFlaw;
use crate::linked_members::unlinked_members;
use crate::node_set::node_set;
use crate::side_judging::side_flaw;
use ov_graph::Graph;
use ov_ids::NodeId;

/// Checks the frame of a certificate for the group of all nodes. See `check_group_frame`. Allocates nothing.
pub fn check_frame(graph: &Graph, cert: &Cert) -> Result<(), CheckFault>
    ensures { MatchResult result
        (λ _. PassesFrame graph.now graph.now.nodes cert.now)
        (λ fault. IsFrameFault graph.now graph.now.nodes cert.now fault) }
{
    check_group_frame(graph, graph.nodes(), cert)
}

/// Checks the frame of a certificate for a group: everything but the entries. The graph has a node, and the members are
/// a group. The number k is right. Every two members are linked, or the cut separates near and far. Returns the first
/// fault, in the order of `check_group`. Allocates nothing.
pub fn check_group_frame(graph: &Graph, group: &[NodeId], cert: &Cert) -> Result<(), CheckFault>
    ensures { MatchResult result
        (λ _. PassesFrame graph.now group.now cert.now)
        (λ fault. IsFrameFault graph.now group.now cert.now fault) }
{
    match frame_flaw(graph, group, cert) {
        Some(flaw) => Err(flaw.fault()),
        None => Ok(()),
    }
}

/// What is wrong with the frame of a certificate for a group. None exactly if `check_group_frame` finds no fault;
/// otherwise the flaw is one of the fault that it returns. Allocates nothing.
pub fn frame_flaw(graph: &Graph, group: &[NodeId], cert: &Cert) -> Option<FrameFlaw>
    ensures right { IsNone result ↔ PassesFrame graph.now group.now cert.now }
    ensures fault { IfSome result (λ flaw. IsFrameFault graph.now group.now cert.now (flaw_fault flaw)) }
    ensures flaw { IfSome result (λ flaw. HasFrameFlaw graph.now group.now cert.now flaw) }
{
    first_frame_flaw(graph, group, cert)
}

/// The first fault of the frame.
pub(crate) fn frame_fault(graph: &Graph, group: &[NodeId], cert: &Cert) -> Option<CheckFault>
    ensures fault { result ≡ frame_fault graph.now group.now cert.now }
    ensures graph { IsGraph graph.now }
{
    match first_frame_flaw(graph, group, cert) {
        Some(flaw) => Some(flaw.fault()),
        None => None,
    }
}

/// The first flaw of the frame.
fn first_frame_flaw(graph: &Graph, group: &[NodeId], cert: &Cert) -> Option<FrameFlaw>
    ensures flaw { result ≡ frame_flaw graph.now group.now cert.now }
    ensures graph { IsGraph graph.now }
{
    if graph.nodes().is_empty() {
        return Some(FrameFlaw::NoNodes);
    }
    if group.is_empty() {
        return Some(FrameFlaw::NoMember);
    }
    if let Err(flaw) = node_set(graph, group) {
        return Some(FrameFlaw::Group(flaw));
    }
    match cert {
        Cert::Linked { k } => flaw_of_linked(graph, group, *k),
        Cert::Split(split) => flaw_of_split(graph, group, split),
    }
}

fn flaw_of_linked(graph: &Graph, group: &[NodeId], k: u32) -> Option<FrameFlaw>
    ensures { result ≡ body_flaw graph.now group.now (cert.Linked k) }
{
    if group.len() as u64 != k as u64 + 1 {
        return Some(FrameFlaw::Count(group.len()));
    }
    match unlinked_members(graph, group) {
        Some((a, b)) => Some(FrameFlaw::NotLinked(a, b)),
        None => None,
    }
}

fn flaw_of_split(graph: &Graph, group: &[NodeId], split: &Split) -> Option<FrameFlaw>
    requires { Ascends group.now }
    ensures { result ≡ body_flaw graph.now group.now (cert.Split split.now) }
{
    let ids = split.cut.as_slice();
    if ids.len() != split.k as usize {
        return Some(FrameFlaw::Count(ids.len()));
    }
    let cut = match node_set(graph, ids) {
        Ok(cut) => cut,
        Err(flaw) => return Some(FrameFlaw::Cut(flaw)),
    };
    match side_flaw(graph, group, &cut, split) {
        Some(flaw) => Some(FrameFlaw::Side(flaw)),
        None => None,
    }
}
