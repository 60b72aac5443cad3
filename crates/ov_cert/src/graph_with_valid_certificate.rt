use crate::cert::Cert;
use crate::checker::{check, check_group};
use crate::fault::CheckFault;
use crate::own_or_shared_graph::HeldGraph;
use crate::shared_graph::SharedGraph;
use ov_graph::Graph;
use ov_ids::NodeId;
use std::marker::Model;

/// A graph with a group and a certificate that is valid for them. The type guarantees this.
pub struct Checked {
    graph: HeldGraph,
    /// None means the group of all nodes.
    group: Option<Vec<NodeId>>,
    cert: Cert,
}

impl Drop for Checked {
    /// Drops the parts. It is written by hand since a call is proved faster than the same drops at each exit.
    fn drop(self) {
        let Checked {
            graph: _,
            group: _,
            cert: _,
        } = self;
    }
}

impl Model for Checked {
    ghost use Rattle.ov_cert.specs.State.{CheckedState};
    ghost use Rattle.ov_cert.specs.Valid.{IsValidForGroup};
    ghost use Rattle.ov_cert.specs.Code.Kept.{graph_held, members_kept};

    ghost Value = { CheckedState };

    ghost view = { λ c. record {
      graph = graph_held c.graph;
      members = members_kept (graph_held c.graph) c.group;
      cert = c.cert;
    } };

    ghost invariant = { λ c. IsValidForGroup (graph_held c.graph) (members_kept (graph_held c.graph) c.group) c.cert };
}

impl Checked {
    ghost use Rattle.std.specs.Prelude.{◌≡◌, ◌↔◌, Some, IsOk, IfOk, IfErr};
    ghost use Rattle.ov_cert.specs.Valid.{IsValid, IsValidForGroup};
    ghost use Rattle.ov_cert.specs.Verdict.{JudgedForAll, JudgedForGroup};

    /// Checks the certificate for the group of all nodes. If it is valid, the graph and the certificate are kept.
    /// Otherwise both are returned with the first fault. Allocates nothing.
    pub fn new(graph: Graph, cert: Cert) -> Result<Checked, (CheckFault, Graph, Cert)>
        ensures valid { IsOk result ↔ IsValid graph cert }
        ensures kept { IfOk result (λ c. c ≡ record { graph = graph; members = graph.nodes; cert = cert }) }
        ensures fault { IfErr result (λ e. JudgedForAll graph cert (Some e.0)) }
        ensures graph_back { IfErr result (λ e. e.1 ≡ graph) }
        ensures cert_back { IfErr result (λ e. e.2 ≡ cert) }
    {
        match check(&graph, &cert) {
            Ok(()) => Ok(Checked {
                graph: HeldGraph::Own(graph),
                group: None,
                cert,
            }),
            Err(fault) => Err((fault, graph, cert)),
        }
    }

    /// Checks the certificate for the group. If it is valid, all three are kept. Otherwise they are returned with the
    /// first fault. Allocates nothing.
    pub fn for_group(
        graph: Graph,
        group: Vec<NodeId>,
        cert: Cert,
    ) -> Result<Checked, (CheckFault, Graph, Vec<NodeId>, Cert)>
        ensures valid { IsOk result ↔ IsValidForGroup graph group.items cert }
        ensures kept { IfOk result (λ c. c ≡ record { graph = graph; members = group.items; cert = cert }) }
        ensures fault { IfErr result (λ e. JudgedForGroup graph group.items cert (Some e.0)) }
        ensures graph_back { IfErr result (λ e. e.1 ≡ graph) }
        ensures group_back { IfErr result (λ e. e.2 ≡ group) }
        ensures cert_back { IfErr result (λ e. e.3 ≡ cert) }
    {
        match check_group(&graph, &group, &cert) {
            Ok(()) => Ok(Checked {
                graph: HeldGraph::Own(graph),
                group: Some(group),
                cert,
            }),
            Err(fault) => Err((fault, graph, group, cert)),
        }
    }

    /// Keeps the three without a check. The certificate must be valid for the group. Allocates nothing.
    pub fn of_valid(graph: Graph, group: Vec<NodeId>, cert: Cert) -> Checked
        requires { IsValidForGroup graph group.items cert }
        ensures { result ≡ record { graph = graph; members = group.items; cert = cert } }
    {
        let graph = HeldGraph::Own(graph);
        let group = Some(group);
        Checked { graph, group, cert }
    }

    /// The same, with this equal graph in place of the one that was held. So certificates of one graph share it.
    /// Allocates nothing.
    pub fn sharing(self, graph: SharedGraph) -> Checked
        requires { graph ≡ self.graph }
        ensures { result ≡ self }
    {
        let Checked {
            graph: _,
            group,
            cert,
        } = self;
        let graph = HeldGraph::Shared(graph);
        Checked { graph, group, cert }
    }

    /// The graph.
    pub fn graph(&self) -> &Graph
        ensures graph { result.now ≡ self.now.graph }
        ensures valid { IsValidForGroup self.now.graph self.now.members self.now.cert }
    {
        self.graph.graph()
    }

    /// The members of the group, ascending.
    pub fn members(&self) -> &[NodeId]
        ensures members { result.now ≡ self.now.members }
        ensures valid { IsValidForGroup self.now.graph self.now.members self.now.cert }
    {
        match &self.group {
            Some(group) => group,
            None => self.graph().nodes(),
        }
    }

    /// The certificate, which is valid for the group.
    pub fn cert(&self) -> &Cert
        ensures cert { result.now ≡ self.now.cert }
        ensures valid { IsValidForGroup self.now.graph self.now.members self.now.cert }
    {
        &self.cert
    }
}
