ghost use Rattle.std.specs.Prelude.{◌≡◌, Some, IfOk, IfErr};
ghost use Rattle.ov_graph.specs.Joined.{FewestForGroup};
ghost use Rattle.ov_cert.specs.Valid.{k_of};
ghost use Rattle.ov_cert.specs.Verdict.{JudgedForGroup};
ghost use Rattle.example_programs.specs.Answer.{IsAnswer};

use ov_cert::{Cert, CheckFault, check_group};
use ov_certfile::{FileFault, Filed, from_text};
use ov_ids::IdsText;
use std::alloc::Global;
use thiserror::Error;

/// A certificate file whose certificate holds.
#[derive(Drop)]
pub struct Judged {
    pub filed: Filed,
    /// The fewest nodes whose crash splits the group of the file, or one less than the number of members if every two
    /// of them are linked.
    pub fewest: u32,
}

/// Why a text proves no number.
#[derive(Clone, Copy, Debug, Error)]
pub enum Refusal {
    #[error("this is no certificate file: {0}")]
    File(FileFault),
    #[error("the certificate does not hold: {0}")]
    Certificate(CheckFault),
}

/// Judges the certificate file in a text. The number that is returned is proved to be that of the graph and the group
/// in the text. A refusal is the first fault of the text, or of the certificate in it, or out of memory.
pub fn judge(alloc: Global, text: &str) -> Result<Judged, Refusal>
    ensures { IsAnswer text.now result }
{
    match from_text(alloc, text) {
        Ok(filed) => match fewest_crashes(&filed) {
            Ok(fewest) => Ok(Judged { filed, fewest }),
            Err(fault) => Err(Refusal::Certificate(fault)),
        },
        Err(fault) => Err(Refusal::File(fault)),
    }
}

/// The fewest nodes whose crash splits the group of a file, or one less than its members if every two are linked. It
/// is the number in the certificate, if that holds; else the first fault of the certificate is returned.
fn fewest_crashes(filed: &Filed) -> Result<u32, CheckFault>
    ensures fewest { IfOk result (FewestForGroup filed.now.graph filed.now.group) }
    ensures refused { IfErr result
        (λ fault. JudgedForGroup filed.now.graph filed.now.group filed.now.cert (Some fault)) }
{
    check_group(&filed.graph, filed.group.as_slice(), &filed.cert)?;
    Ok(number_of(&filed.cert))
}

/// The number that a certificate names.
fn number_of(cert: &Cert) -> u32
    ensures { result ≡ k_of cert.now }
{
    match cert {
        Cert::Linked { k } => *k,
        Cert::Split(split) => split.k,
    }
}

/// Judges the certificate file in a text, and prints how many nodes must crash to split its group.
pub(crate) fn print_judged(rt: &impl Print, alloc: Global, text: &str) -> anyhow::Result<()> {
    let judged = judge(alloc, text)?;
    let fewest = judged.fewest;
    match &judged.filed.cert {
        Cert::Linked { .. } => println!(rt; "all are linked: no crash parts two members")?,
        Cert::Split(split) => {
            let cut = IdsText(split.cut.as_slice());
            let near = split.near.number();
            let far = split.far.number();
            println!(rt;
                "{fewest} crashes split the group: without {cut} no path joins {near} to {far}"
            )?;
            println!(rt; "no fewer crashes do")?;
        }
    }
    Ok(())
}
