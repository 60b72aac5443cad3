//! The cells of a row, group by group, each in the order of its columns.
ghost use Rattle.std.specs.Prelude.{◌≡◌, ◌++◌, IfSome, Some};
ghost use Rattle.ov_grow_options.specs.Limits.{MayBeGrown};
ghost use Rattle.ov_ids.specs.ParamsState.{AreWithinLimits};
ghost use Rattle.ov_sweep_rows.specs.Cells.{cell_text, crash_cell, decimals_cell, flag_cell};
ghost use Rattle.ov_sweep_rows.specs.Cells.{number_cell, read_as, share_cell};
ghost use Rattle.ov_sweep_rows.specs.Cells as cells_of;
ghost use Rattle.ov_sweep_rows.specs.Code.Written.{AreReadBack, further_forms, phase_forms, setting_forms};
ghost use Rattle.ov_sweep_rows.specs.declared.row_fault.FieldForm.TheVariants as form;

use crate::cell::Cell;
use crate::{DeliveredShare, FourDecimals, MessageRow, PhaseRow};
use ov_grow_options::{Crash, GrowOptions, Pace};
use ov_ids::NodeId;

/// The cells of the setting that these options are of, in the order of their columns.
pub(crate) fn setting_cells(options: &GrowOptions) -> [Cell; 18]
    ensures cells { result ≡ cells_of.setting_cells options.now }
    ensures back { AreReadBack setting_forms result }
    ensures within { AreWithinLimits options.now.params }
{
    let params = options.params;
    [
        number(options.nodes.get()),
        Cell::Number(params.active() as u64),
        Cell::Number(params.passive() as u64),
        Cell::Number(u64::from(params.arwl())),
        Cell::Number(u64::from(params.prwl())),
        Cell::Number(params.ka() as u64),
        Cell::Number(params.kp() as u64),
        Cell::Number(u64::from(params.shuffle_ttl())),
        Cell::Refill(params.refill()),
        number(options.loss_join.get()),
        number(options.loss.get()),
        number(options.repeat.get()),
        Cell::Order(options.order),
        pace_cell(options.pace),
        number(options.rounds.get()),
        crash_cell(options.crash),
        number(options.heal.get()),
        number(options.broadcasts.get()),
    ]
}

/// The cells of the further options, in the order of their columns.
pub(crate) fn further_cells(options: &GrowOptions) -> [Cell; 3]
    ensures cells { result ≡ cells_of.further_cells options.now }
    ensures back { IfSome options.now.sender MayBeGrown → AreReadBack further_forms result }
{
    [
        flag_cell(options.sequential),
        sender_cell(options.sender),
        flag_cell(options.detect),
    ]
}

/// The cells of all options of a setting: those of its columns, and then those of the further options.
pub fn option_cells(options: &GrowOptions) -> [Cell; 21]
    ensures { result ≡ cells_of.setting_cells options.now ++ cells_of.further_cells options.now }
{
    let mut cells = [Cell::Empty; 21];
    let (settings, further) = cells.split_at_mut(18);
    settings.copy_from_slice(&setting_cells(options));
    further.copy_from_slice(&further_cells(options));
    cells
}

/// The cells of a phase, in the order of their columns.
pub(crate) fn phase_cells(phase: &PhaseRow) -> [Cell; 6]
    ensures cells { result ≡ cells_of.phase_cells phase.now }
    ensures back { AreReadBack phase_forms result }
{
    [
        number(phase.nodes),
        number(phase.k),
        number(phase.least_degree),
        number(phase.links),
        number(phase.entries),
        share_cell(phase.delivered),
    ]
}

/// The cells of a broadcast behind those of its run, in the order of their columns.
pub(crate) fn message_cells(message: &MessageRow) -> [Cell; 10] {
    [
        Cell::Phase(message.phase),
        number(message.number),
        number(message.origin.number()),
        number(message.live),
        number(message.delivered),
        number(message.hops),
        number(message.gossip),
        number(message.ihave),
        number(message.graft),
        number(message.prune),
    ]
}

/// The cell of a number.
pub(crate) fn number(value: u32) -> Cell
    ensures cell { result ≡ number_cell (Some value) }
    ensures back { read_as form.Number (cell_text result) ≡ Some result }
{
    Cell::Number(u64::from(value))
}

/// The cell of a seed.
pub(crate) fn seed_cell(seed: u64) -> Cell
    ensures cell { result ≡ number_cell (Some seed) }
    ensures back { read_as form.Seed (cell_text result) ≡ Some result }
{
    Cell::Number(seed)
}

fn pace_cell(pace: Option<Pace>) -> Cell
    ensures cell { result ≡ number_cell pace }
    ensures back { read_as form.Pace (cell_text result) ≡ Some result }
{
    match pace {
        None => Cell::Empty,
        Some(pace) => number(pace.get()),
    }
}

fn crash_cell(crash: Crash) -> Cell
    ensures cell { result ≡ crash_cell crash }
    ensures back { read_as form.Crash (cell_text result) ≡ Some result }
{
    match crash {
        Crash::Share(share) => number(share.get()),
        Crash::Cut => Cell::Cut,
    }
}

#[tactic(auto, using(crate::proofs::ReadBack::flag_on, crate::proofs::ReadBack::flag_off))]
fn flag_cell(asked: bool) -> Cell
    ensures cell { result ≡ flag_cell asked }
    ensures back { read_as form.Flag (cell_text result) ≡ Some result }
{
    if asked {
        return Cell::Number(1);
    }
    Cell::Number(0)
}

fn sender_cell(sender: Option<NodeId>) -> Cell
    ensures cell { result ≡ number_cell sender }
    ensures back { IfSome sender MayBeGrown → read_as form.Sender (cell_text result) ≡ Some result }
{
    match sender {
        None => Cell::Empty,
        Some(node) => number(node.number()),
    }
}

/// The cell of a delivered share; empty without one.
pub(crate) fn share_cell(share: Option<DeliveredShare>) -> Cell
    ensures cell { result ≡ share_cell share }
    ensures back { read_as form.DecimalsOrNothing (cell_text result) ≡ Some result }
{
    match share {
        None => Cell::Empty,
        Some(share) => decimals(FourDecimals { parts: share.parts }),
    }
}

/// The cell of a number with four decimal digits; empty without one.
pub(crate) fn decimals_cell(number: Option<FourDecimals>) -> Cell
    ensures cell { result ≡ decimals_cell number }
    ensures back { read_as form.DecimalsOrNothing (cell_text result) ≡ Some result }
{
    match number {
        None => Cell::Empty,
        Some(number) => decimals(number),
    }
}

/// The cell of a number with four decimal digits.
pub(crate) fn decimals(number: FourDecimals) -> Cell
    ensures cell { result ≡ decimals_cell (Some number) }
    ensures back { read_as form.Decimals (cell_text result) ≡ Some result }
    ensures present { read_as form.DecimalsOrNothing (cell_text result) ≡ Some result }
{
    Cell::Decimals(number)
}
