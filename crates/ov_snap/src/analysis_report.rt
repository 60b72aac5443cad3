ghost use Rattle.std.specs.Prelude.{◌≡◌, IfOk};
ghost use Rattle.ov_snap.specs.Code.Index.{key_cmp, key_of};
ghost use Rattle.ov_snap.specs.ReportState.{report_of};

use ov_cert::Checked;
use ov_ids::{NodeId, OutOfMemory};
use std::alloc::Global;
use std::cmp::Ordering;
use std::marker::Model;
use std::sync::Arc;

/// A report: a moment, and a graph with a group of its nodes and a certificate that is valid for them. Reports of
/// several moments can share these three. Contracts see a report as its values.
pub struct Report {
    moment: u32,
    checked: Arc<Checked>,
}

impl Drop for Report {
    /// Drops the parts. It is written by hand since a call is proved faster than the same drops at each exit.
    fn drop(self) {
        let Report {
            moment: _,
            checked: _,
        } = self;
    }
}

impl Model for Report {
    ghost use Rattle.std.specs.Arc.{arc_value};
    ghost use Rattle.ov_snap.specs.ReportState.{ReportState, report_of};

    ghost Value = { ReportState };

    ghost view = { λ r. report_of r.moment (arc_value r.checked) };
}

impl Report {
    /// A report of this moment, or out of memory (99).
    pub fn new(alloc: Global, moment: u32, checked: Checked) -> Result<Report, OutOfMemory>
        ensures { IfOk result (λ r. r ≡ report_of moment checked) }
    {
        let checked = Arc::new(alloc, checked)?;
        Ok(Report { moment, checked })
    }

    /// A report of another moment with the same graph, group and certificate, which are shared and not copied, or out
    /// of memory (99). The kit's `Arc` refuses one more owner only if it can count no more.
    pub fn again(&self, moment: u32) -> Result<Report, OutOfMemory>
        ensures { IfOk result (λ r. r ≡ record self.now { moment = moment }) }
    {
        let checked = Arc::try_clone(&self.checked)?;
        Ok(Report { moment, checked })
    }

    /// The moment whose overlay it is about.
    pub fn moment(&self) -> u32
        ensures { result ≡ self.now.moment }
    {
        self.moment
    }

    /// The graph, the group, and the certificate that is valid for them.
    pub fn checked(&self) -> &Checked
        ensures { result.now ≡ record { graph = self.now.graph; members = self.now.members; cert = self.now.cert } }
    {
        &self.checked
    }

    /// How this report compares with a moment and group, in the order by moments and then by groups.
    pub(crate) fn compare(&self, moment: u32, group: &[NodeId]) -> Ordering
        ensures { result ≡ key_cmp (key_of self.now) (moment, group.now) }
    {
        let by_moment = self.moment.cmp(&moment);
        by_moment.then(self.checked.members().cmp(group))
    }
}
