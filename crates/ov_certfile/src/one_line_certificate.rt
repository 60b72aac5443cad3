use ov_cert::Cert;
use ov_graph::Graph;
use ov_ids::{IdsText, NodeId};
use std::fmt::{Display, Formatter, Result, Write};

/// Prints a certificate with its group and without its paths: `linked k K`, or `split k K cut C near A far B side S`,
/// followed by ` group G` if the group is not all nodes. Ids are separated by commas. An empty list is printed as a
/// dash.
#[derive(Drop)]
pub struct CertText<'a> {
    pub cert: &'a Cert,
    pub graph: &'a Graph,
    pub group: &'a [NodeId],
}

impl<'a> Display for CertText<'a> {
    ghost use Rattle.std.specs.Prelude.{Some};
    ghost use Rattle.ov_certfile.specs.CertLine.{cert_text};

    ghost output = { λ t. Some (cert_text t.cert.now t.graph.now t.group.now) };

    #[tactic(auto, unfolding(crate::specs::CertLine::cert_text))]
    fn fmt<W: Write>(&self, f: &mut Formatter<W>) -> Result {
        let claim = ShortText(self.cert);
        if self.group == self.graph.nodes() {
            return write!(f, "{claim}");
        }
        let group = IdsText(self.group);
        write!(f, "{claim} group {group}")
    }
}

/// Prints a certificate without its group and its paths.
#[derive(Drop)]
struct ShortText<'a>(&'a Cert);

impl<'a> Display for ShortText<'a> {
    ghost use Rattle.std.specs.Prelude.{Some};
    ghost use Rattle.ov_certfile.specs.CertLine.{short_text};

    ghost output = { λ t. Some (short_text t.0.now) };

    #[tactic(auto, unfolding(crate::specs::CertLine::short_text))]
    fn fmt<W: Write>(&self, f: &mut Formatter<W>) -> Result {
        match self.0 {
            Cert::Linked { k } => write!(f, "linked k {k}"),
            Cert::Split(split) => {
                let k = split.k;
                let cut = IdsText(split.cut.as_slice());
                let near = split.near.number();
                let far = split.far.number();
                let side = IdsText(split.side.as_slice());
                write!(f, "split k {k} cut {cut} near {near} far {far} side {side}")
            }
        }
    }
}
