ghost use Rattle.std.specs.Prelude.{◌≡◌, [], ◌∷◌, ◌++◌, ◌<◌, IfSome, IfNone, IfOk, IfErr, OnOk, OnErr, length};
ghost use Rattle.ov_ids.specs.Members.{Has};
ghost use Rattle.ov_snap.specs.Code.Index.{AreInOrder, IsGap, key_at, key_of};
ghost use Rattle.ov_snap.specs.ReportState.{ReportState};

use crate::analysis_report::Report;
use ov_ids::{NodeId, OutOfMemory};
use std::alloc::Global;
use std::cmp::Ordering;
use std::marker::Model;

/// The filed reports, in the order of filing, and their places in the order of moments and groups, by which they are
/// found. Contracts see the list of reports.
#[derive(Drop)]
pub(crate) struct Reports {
    filed: Vec<Report>,
    places: Vec<usize>,
}

impl Model for Reports {
    ghost use Rattle.std.specs.Prelude.{List};
    ghost use Rattle.std.specs.Coded.{coded_list};
    ghost use Rattle.ov_snap.specs.Code.Index.{AreInOrder};
    ghost use Rattle.ov_snap.specs.ReportState.{ReportState};
    ghost use Rattle.ov_snap.specs.contracts.analysis_report.Report as report;

    ghost Value = { List ReportState };

    ghost coded = { coded_list report.the_row.coded };

    ghost view = { λ a. a.filed.items };

    ghost invariant = { λ a. AreInOrder a.filed.items a.places.items };
}

impl Reports {
    /// No reports. Nothing is allocated.
    pub(crate) fn new(alloc: Global) -> Reports
        ensures { result ≡ [] }
    {
        Reports {
            filed: Vec::new(alloc),
            places: Vec::new(alloc),
        }
    }

    /// The report of this moment and group, if one is filed.
    pub(crate) fn find(&self, moment: u32, group: &[NodeId]) -> Option<&Report>
        ensures some { IfSome result (λ r. Has self.now r.now × (key_of r.now ≡ (moment, group.now))) }
        ensures none { IfNone result ((r : ReportState) → Has self.now r → ¬ (key_of r ≡ (moment, group.now))) }
    {
        match search(&self.filed, &self.places, moment, group) {
            Ok(place) => Some(&self.filed[place]),
            Err(_) => None,
        }
    }

    /// Puts a report after the others.
    pub(crate) fn push(&mut self, report: Report) -> Result<(), OutOfMemory>
        requires { (r : ReportState) → Has self.old r → ¬ (key_of r ≡ key_of report) }
        ensures ok { OnOk result (self.new ≡ self.old ++ report ∷ []) }
        ensures err { OnErr result (self.new ≡ self.old) }
    {
        let group = report.checked().members();
        let at = match search(&self.filed, &self.places, report.moment(), group) {
            Ok(_) => unreachable!(),
            Err(at) => at,
        };
        self.filed.reserve(1)?;
        self.places.insert(at, self.filed.len())?;
        self.filed.push_reserved(report);
        Ok(())
    }
}

/// The place of the report of this moment and group; or, as an error, where its place would go among the places. It is
/// found by binary search.
fn search(filed: &[Report], places: &[usize], moment: u32, group: &[NodeId]) -> Result<usize, usize>
    requires { AreInOrder filed.now places.now }
    ensures found { IfOk result (λ p. (p < length filed.now) × (key_at filed.now p ≡ (moment, group.now))) }
    ensures gap { IfErr result (λ at. IsGap filed.now places.now (moment, group.now) at) }
{
    let mut low = 0;
    let mut high = places.len();
    while low < high {
        let middle = low + (high - low) / 2;
        let place = places[middle];
        prove!(place < filed.len());
        match filed[place].compare(moment, group) {
            Ordering::Less => low = middle + 1,
            Ordering::Equal => return Ok(place),
            Ordering::Greater => high = middle,
        }
    }
    Err(low)
}
