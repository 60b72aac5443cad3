ghost use Rattle.std.specs.Prelude.{◌≡◌, IfOk, string_bytes};
ghost use Rattle.ov_run_meaning.specs.Printed.{refused_line, report_line};

use arrayvec::ArrayString;
use itoa::Buffer;
use ov_cert::{Cert, Checked};
use ov_certfile::CertText;
use ov_graph::Graph;
use ov_ids::{NodeId, OutOfMemory};
use std::alloc::Global;

/// The line of a refusal by its number: `refused N`. Like every line here it ends with a line feed, and its form is
/// chosen here. Nothing is allocated, so that out of memory can be printed.
#[tactic(auto, unfolding(crate::specs::Printed::refused_line))]
pub fn refused_line(number: u32) -> ArrayString<64>
    ensures { result.bytes ≡ refused_line number }
{
    let mut digits = Buffer::new();
    let mut line = ArrayString::new();
    line.push_str("refused ");
    line.push_str(digits.format(number));
    line.push_str("\n");
    line
}

/// The line of a report: `report M`, and what the certificate says of the graph and the group. OutOfMemory (99) if an
/// allocation is refused.
pub fn report_line(alloc: Global, moment: u32, checked: &Checked) -> Result<String, OutOfMemory>
    ensures { IfOk result (λ line. string_bytes line
        ≡ report_line moment checked.now.cert checked.now.graph checked.now.members) }
{
    cert_line(
        alloc,
        moment,
        checked.cert(),
        checked.graph(),
        checked.members(),
    )
}

/// Makes the line of a report of this moment and this certificate, whose paths it does not look at. OutOfMemory (99) if
/// an allocation is refused.
#[tactic(auto, unfolding(crate::specs::Printed::report_line))]
pub fn cert_line(
    alloc: Global,
    moment: u32,
    cert: &Cert,
    graph: &Graph,
    group: &[NodeId],
) -> Result<String, OutOfMemory>
    ensures { IfOk result (λ line. string_bytes line ≡ report_line moment cert.now graph.now group.now) }
{
    let claim = CertText { cert, graph, group };
    Ok(format!(in alloc; "report {moment} {claim}\n")?)
}
