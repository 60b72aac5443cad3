ghost use Rattle.std.specs.Prelude.{◌≡◌, ◌↔◌, None, Some, IsOk, OnOk, MatchResult};
ghost use Rattle.ov_graph.specs.Links.{IsGraph, IsGroup};
ghost use Rattle.ov_graph.specs.Joined.{Fewest, FewestForGroup};
ghost use Rattle.ov_cert.specs.Valid.{IsValid, IsValidForGroup, k_of};
ghost use Rattle.ov_cert.specs.Verdict.{JudgedForAll, JudgedForGroup};
ghost use Rattle.ov_cert.specs.Code.Tests.{entries_fault, fault_of};

use crate::cert::{Cert, Split};
use crate::checks_apart_from_paths::frame_fault;
use crate::entry_judging::{check_fans, check_pairs};
use crate::fault::CheckFault;
use ov_graph::Graph;
use ov_ids::NodeId;

/// Checks a certificate for the group of all nodes. See `check_group`. Allocates nothing.
pub fn check(graph: &Graph, cert: &Cert) -> Result<(), CheckFault>
    ensures verdict { MatchResult result (λ _. JudgedForAll graph.now cert.now None)
        (λ fault. JudgedForAll graph.now cert.now (Some fault)) }
    ensures valid { IsOk result ↔ IsValid graph.now cert.now }
    ensures fewest { OnOk result (Fewest graph.now (k_of cert.now)) }
{
    check_group(graph, graph.nodes(), cert)
}

/// Checks a certificate for a group. Allocates nothing.
///
/// The result is Ok exactly if the certificate is valid. Its number k is then the fewest node crashes that split the
/// group, or one less than the number of members if every two members are linked (Even, SIAM J. Comput. 4, 1975).
/// Otherwise the first fault is returned. The checks are made in this order:
///
/// - NoNodes (47): the graph has no node;
/// - BadGroup (49): the group is empty, does not ascend, or has an id that is no node;
/// - Count (40): k is not one less than the number of members (linked), or not the number of nodes of the cut (split);
/// - NotLinked (46): the certificate says linked, but two members are not linked;
/// - Cut (41): the cut does not ascend, or has an id that is no node;
/// - Side (42): near or far is no surviving member, or the side does not separate them;
/// - Pair (43), Fan (44): the entry of the first expected pair, then of the first expected fan, that is missing, names
///   other nodes, or has wrong paths;
/// - Extra (45): there are more entries than expected.
pub fn check_group(graph: &Graph, group: &[NodeId], cert: &Cert) -> Result<(), CheckFault>
    ensures verdict { MatchResult result
        (λ _. JudgedForGroup graph.now group.now cert.now None)
        (λ fault. JudgedForGroup graph.now group.now cert.now (Some fault)) }
    ensures valid { IsOk result ↔ IsValidForGroup graph.now group.now cert.now }
    ensures fewest { OnOk result (FewestForGroup graph.now group.now (k_of cert.now)) }
{
    match first_fault(graph, group, cert) {
        Some(fault) => Err(fault),
        None => Ok(()),
    }
}

fn first_fault(graph: &Graph, group: &[NodeId], cert: &Cert) -> Option<CheckFault>
    ensures fault { result ≡ fault_of graph.now group.now cert.now }
    ensures graph { IsGraph graph.now }
{
    if let Some(fault) = frame_fault(graph, group, cert) {
        return Some(fault);
    }
    match cert {
        Cert::Linked { .. } => None,
        Cert::Split(split) => fault_of_entries(graph, group, split),
    }
}

fn fault_of_entries(graph: &Graph, group: &[NodeId], split: &Split) -> Option<CheckFault>
    requires { IsGroup graph.now group.now }
    ensures { result ≡ entries_fault graph.now group.now split.now }
{
    let k = split.k as usize;
    let pairs = split.pairs.as_slice();
    let fans = split.fans.as_slice();
    let expected_pairs = match check_pairs(graph, group, k, pairs) {
        Ok(count) => count,
        Err(fault) => return Some(fault),
    };
    let expected_fans = match check_fans(graph, group, k, fans) {
        Ok(count) => count,
        Err(fault) => return Some(fault),
    };
    if pairs.len() > expected_pairs || fans.len() > expected_fans {
        return Some(CheckFault::Extra);
    }
    None
}
