ghost use Rattle.std.specs.Prelude.{◌≡◌, None, IfOk, IfErr};
ghost use Rattle.ov_ids.specs.FaultOrder.{IsRefusedBy};
ghost use Rattle.ov_even.specs.Answer.{IsAnswer};
ghost use Rattle.ov_snap.specs.Refusals.{FilingJudged};
ghost use Rattle.ov_snap.specs.declared.refused_core_call.CoreFault.TheVariants.{OutOfMemory as out_of_memory};
ghost use Rattle.ov_run_meaning.specs.Subjects.{AnalysisJudged};
ghost use Rattle.ov_grow.specs.Recordings.{all_of};

use ov_even::analyse_group_alone;
use ov_net::LONGEST_JOURNAL;
use ov_snap::{Core, CoreFault, Report, Snapshot};
use std::alloc::Global;

/// The report of an analysis of all nodes of a moment, or the first applicable refusal of the analysis. The report is
/// not filed yet.
pub(crate) fn report_of(alloc: Global, core: &Core, moment: u32) -> Result<Report, CoreFault>
    ensures judged { IfOk result (λ r. AnalysisJudged core.now (all_of moment) None) }
    ensures filing { IfOk result (λ r. FilingJudged core.now r None) }
    ensures moment { IfOk result (λ r. r.moment ≡ moment) }
    ensures members { IfOk result (λ r. r.members ≡ r.graph.nodes) }
    ensures answer { IfOk result (λ r. IsAnswer r.graph r.members r.cert) }
    ensures refused { IfErr result (IsRefusedBy out_of_memory (AnalysisJudged core.now (all_of moment))) }
{
    prove!(core.world().journal().len() <= LONGEST_JOURNAL);
    if core.report(moment).is_some() {
        return Err(CoreFault::AlreadyFiled);
    }
    let snapshot = core.begin(moment)?;
    make_report(alloc, &snapshot)
}

/// Makes the report of an analysis of all nodes of a snapshot, at which somebody lived: so only memory can be lacking.
fn make_report(alloc: Global, snapshot: &Snapshot) -> Result<Report, CoreFault>
    ensures moment { IfOk result (λ r. r.moment ≡ snapshot.now.moment) }
    ensures graph { IfOk result (λ r. r.graph ≡ snapshot.now.graph) }
    ensures members { IfOk result (λ r. r.members ≡ snapshot.now.graph.nodes) }
    ensures answer { IfOk result (λ r. IsAnswer r.graph r.members r.cert) }
    ensures err { IfErr result (λ f. f ≡ out_of_memory) }
{
    match analyse_group_alone(alloc, &snapshot.graph, snapshot.graph.nodes()) {
        Ok(checked) => Ok(Report::new(alloc, snapshot.moment, checked)?),
        Err(_) => Err(CoreFault::OutOfMemory),
    }
}
