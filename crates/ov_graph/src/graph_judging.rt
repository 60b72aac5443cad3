ghost use Rattle.std.specs.Prelude.{◌≡◌, None};
ghost use Rattle.ov_ids.specs.Members.{Ascends};
ghost use Rattle.ov_graph.specs.Code.Tests.{fault_of, nodes_fault, links_fault, link_flaw, order_fault};

use crate::fault::{GraphFault, LinkFlaw};
use crate::node_places_by_id::is_member;
use ov_ids::NodeId;

/// The first fault of nodes and links, of which there may be `most` nodes.
pub(crate) fn first_fault(
    nodes: &[NodeId],
    links: &[(NodeId, NodeId)],
    most: usize,
) -> Option<GraphFault>
    ensures { result ≡ fault_of most nodes.now links.now }
{
    let count = nodes.len();
    if count > most {
        return Some(GraphFault::TooManyNodes { count, most });
    }
    if let Some(fault) = first_node_fault(nodes) {
        return Some(fault);
    }
    first_link_fault(nodes, links)
}

/// The first node that is not above the node before it.
fn first_node_fault(nodes: &[NodeId]) -> Option<GraphFault>
    ensures { result ≡ nodes_fault 0 None nodes.now }
{
    let mut last = None;
    for (at, node) in nodes.iter().enumerate() {
        let node = *node;
        if let Some(before) = last
            && node <= before
        {
            return Some(GraphFault::UnorderedNode { at, node, before });
        }
        last = Some(node);
    }
    None
}

/// The first link that does not join a node to a higher one, or does not come after the link before it.
fn first_link_fault(nodes: &[NodeId], links: &[(NodeId, NodeId)]) -> Option<GraphFault>
    requires { Ascends nodes.now }
    ensures { result ≡ links_fault nodes.now 0 None links.now }
{
    let mut last = None;
    for (at, link) in links.iter().enumerate() {
        if let Some(flaw) = flaw_of(nodes, *link) {
            let link = *link;
            return Some(GraphFault::BadLink { at, link, flaw });
        }
        if let Some(fault) = order_fault(at, last, *link) {
            return Some(fault);
        }
        last = Some(*link);
    }
    None
}

/// Why a link does not join a node to a higher one.
fn flaw_of(nodes: &[NodeId], link: (NodeId, NodeId)) -> Option<LinkFlaw>
    requires { Ascends nodes.now }
    ensures { result ≡ link_flaw nodes.now link }
{
    let (a, b) = link;
    if b <= a {
        return Some(LinkFlaw::NotUpward);
    }
    if !is_member(nodes, a) {
        return Some(LinkFlaw::NoNode(a));
    }
    if !is_member(nodes, b) {
        return Some(LinkFlaw::NoNode(b));
    }
    None
}

/// The fault of a link that does not come after the link before it, by the first node, and then by the second.
fn order_fault(
    at: usize,
    before: Option<(NodeId, NodeId)>,
    link: (NodeId, NodeId),
) -> Option<GraphFault>
    ensures { result ≡ order_fault at before link }
{
    let before = before?;
    if before.0 < link.0 || before.0 == link.0 && before.1 < link.1 {
        return None;
    }
    Some(GraphFault::UnorderedLink { at, link, before })
}
