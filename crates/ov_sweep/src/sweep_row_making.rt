ghost use Rattle.std.specs.Prelude.{IfErr, IfOk};
ghost use Rattle.ov_graph.specs.Links.{HasNode};
ghost use Rattle.ov_snap.specs.CoreState.{HasReportOfAll};
ghost use Rattle.ov_snap.specs.ReportState.{ReportState};
ghost use Rattle.ov_grow.specs.Growth.{Growth};
ghost use Rattle.ov_grow.specs.MessageCosts.{AreCosts};
ghost use Rattle.ov_sweep.specs.Rows.{ArePhaseCosts, IsAsked, IsRowOf, IsShapeOf, IsToldOf};
ghost use Rattle.ov_grow.specs.Replay.{Replays};
ghost use Rattle.ov_sweep.specs.Sweeps.{IsRunRefusal};
ghost use Rattle.ov_grow.specs.GrowingWithLog.{IsLoggedGrowth};

use crate::phase_costs::phase_costs;
use crate::phase_measurements::phase_row;
use crate::phase_shape::phase_shape;
use ov_grow::{GrowFault, LoggedGrowth, MessageCost, PhaseEnd, grow_logged};
use ov_grow_options::GrowOptions;
use ov_ids::OutOfMemory;
use ov_snap::{Core, Report};
use ov_sweep_rows::{Measures, PhaseCosts, PhaseRow, PhaseShape, Row};
use std::alloc::Global;

/// The row of the overlay that is grown with these options: its numbers are those of the reports that growing files.
/// What is asked for is measured beside them.
///
/// A fault of growing (see `GrowFault`) means that memory ran out, or that with these options nothing can be grown.
pub fn row_of(alloc: Global, options: &GrowOptions, measures: Measures) -> Result<Row, GrowFault>
    ensures row { IfOk result (λ row. IsRowOf measures options.now row) }
    ensures refused { IfErr result (IsRunRefusal measures options.now) }
{
    let logged = grow_logged(alloc, options, measures.costs)?;
    Ok(row_told(alloc, options, measures, &logged)?)
}

/// The row of an overlay that was grown with these options.
fn row_told(
    alloc: Global,
    options: &GrowOptions,
    measures: Measures,
    logged: &LoggedGrowth,
) -> Result<Row, OutOfMemory>
    requires grows { IsLoggedGrowth measures.costs options.now logged.now }
    requires replays { Replays logged.now.grown.script.text logged.now.grown.core }
    requires settled { (r : ReportState) × HasReportOfAll logged.now.grown.core logged.now.grown.settled.moment r }
    requires crashed { (r : ReportState) × HasReportOfAll logged.now.grown.core logged.now.grown.crashed.moment r }
    requires healed { (r : ReportState) × HasReportOfAll logged.now.grown.core logged.now.grown.healed.moment r }
    ensures { IfOk result (λ row. IsRowOf measures options.now row) }
{
    let grown = &logged.grown;
    let core = &grown.core;
    let broadcasts = options.broadcasts.get();
    let settle = row_after(
        alloc,
        core,
        grown.settled,
        broadcasts,
        measures,
        &logged.settle_costs,
    )?;
    let crash = row_after(
        alloc,
        core,
        grown.crashed,
        broadcasts,
        measures,
        &logged.crash_costs,
    )?;
    let heal = row_after(
        alloc,
        core,
        grown.healed,
        broadcasts,
        measures,
        &logged.heal_costs,
    )?;
    Ok(Row {
        options: *options,
        phases: [settle, crash, heal],
    })
}

/// What a row says of a phase, at whose end a report was filed and its broadcasts had cost this.
fn row_after(
    alloc: Global,
    core: &Core,
    phase: PhaseEnd,
    broadcasts: u32,
    measures: Measures,
    costs: &[MessageCost],
) -> Result<PhaseRow, OutOfMemory>
    requires { (r : ReportState) × HasReportOfAll core.now phase.moment r }
    ensures { IfOk result (λ p. (s : Growth) → AreCosts s costs.now
        → IsToldOf measures s core.now phase broadcasts p) }
{
    match core.report(phase.moment) {
        Some(report) => {
            let costs = costs_asked(measures.costs, costs)?;
            let shape = shape_asked(alloc, measures.shape, report)?;
            Ok(phase_row(report, phase, broadcasts, costs, shape))
        }
        None => unreachable!(),
    }
}

/// What broadcasts cost together, if it is asked for.
fn costs_asked(asked: bool, costs: &[MessageCost]) -> Result<Option<PhaseCosts>, OutOfMemory>
    ensures { IfOk result (λ told. (s : Growth) → AreCosts s costs.now → IsAsked asked (ArePhaseCosts s) told) }
{
    if !asked {
        return Ok(None);
    }
    Ok(Some(phase_costs(costs)?))
}

/// The shape of a report's graph, if it is asked for. The graph must have a node.
fn shape_asked(
    alloc: Global,
    asked: bool,
    report: &Report,
) -> Result<Option<PhaseShape>, OutOfMemory>
    requires some { HasNode report.now.graph }
    ensures { IfOk result (IsAsked asked (IsShapeOf report.now.graph)) }
{
    if !asked {
        return Ok(None);
    }
    Ok(Some(phase_shape(alloc, report.checked().graph())?))
}
