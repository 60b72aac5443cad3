ghost use Rattle.std.specs.Prelude.{◌≡◌};
ghost use Rattle.ov_cert.specs.Valid.{k_of};
ghost use Rattle.example_programs.specs.Outcome.{IsTold};

use ov_cert::Cert;
use ov_ids::NodeId;
use ov_snap::Core;

/// The fewest nodes whose crash parts two members of this group, by the links of this moment, if a report of them is
/// filed.
pub(crate) fn fewest_at(core: &Core, moment: u32, group: &[NodeId]) -> Option<u32>
    ensures { IsTold core.now moment group.now result }
{
    match core.group_report(moment, group) {
        Some(report) => Some(number_of(report.checked().cert())),
        None => None,
    }
}

/// The number that a certificate names.
fn number_of(cert: &Cert) -> u32
    ensures { result ≡ k_of cert.now }
{
    match cert {
        Cert::Linked { k } => *k,
        Cert::Split(split) => split.k,
    }
}

/// How often a driver stands in a list of drivers.
pub(crate) fn count_of(drivers: &[u64], driver: u64) -> usize {
    drivers.iter().filter(|other| **other == driver).count()
}
