use crate::outcome_of_file_bytes::Outcome;
use ov_cert::CheckFault;
use ov_certfile::CertText;
use std::fmt::{Display, Formatter, Result, Write};

/// The line that is printed of an outcome, without its line feed.
impl Display for Outcome {
    ghost use Rattle.std.specs.Prelude.{Some};
    ghost use Rattle.ov_check.specs.Line.{line_of};

    ghost output = { λ o. Some (line_of o) };

    #[tactic(auto, unfolding(crate::specs::Line::line_of))]
    fn fmt<W: Write>(&self, f: &mut Formatter<W>) -> Result {
        match self {
            Outcome::Holds(filed) => {
                let moment = filed.moment;
                let cert = CertText {
                    cert: &filed.cert,
                    graph: &filed.graph,
                    group: filed.group.as_slice(),
                };
                write!(f, "holds {moment} {cert}")
            }
            Outcome::Fails { fault, .. } => {
                let fault = FaultText(*fault);
                write!(f, "fails {fault}")
            }
            Outcome::Refused(refusal) => {
                let number = refusal.fault.number();
                write!(f, "refused {number}")
            }
        }
    }
}

/// The number of a certificate's fault, and then the nodes that it names.
#[derive(Drop)]
struct FaultText(CheckFault);

impl Display for FaultText {
    ghost use Rattle.std.specs.Prelude.{Some};
    ghost use Rattle.ov_check.specs.Line.{check_fault_text};

    ghost output = { λ t. Some (check_fault_text t.0) };

    #[tactic(auto, unfolding(crate::specs::Line::check_fault_text))]
    fn fmt<W: Write>(&self, f: &mut Formatter<W>) -> Result {
        let number = self.0.number();
        match self.0 {
            CheckFault::Pair { i, j, .. } => {
                let i = i.number();
                let j = j.number();
                write!(f, "{number} {i} {j}")
            }
            CheckFault::Fan { j, .. } => {
                let j = j.number();
                write!(f, "{number} {j}")
            }
            _ => write!(f, "{number}"),
        }
    }
}
