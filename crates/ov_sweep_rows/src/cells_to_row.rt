//! A row, made of the cells that its columns read. Each cell is one that its column takes, so what would stand for
//! another cell is never needed.
ghost use Rattle.std.specs.Prelude.{◌≡◌, ◌∷◌, ◌++◌, [], IfNone, IfSome, None, Some, length, take};
ghost use Rattle.std.specs.Prelude.{drop};
ghost use Rattle.std.specs.Prelude.{true, false};
ghost use Rattle.ov_ids.specs.declared.world_scale.Scale.TheVariants.{Profile};
ghost use Rattle.ov_grow_options.specs.Limits.{most_nodes, most_turns};
ghost use Rattle.ov_ids.specs.ParamsState.{AreWithinLimits, ParamsState};
ghost use Rattle.ov_sweep_rows.specs.Cells.{cell_at, crash_cell, decimals_cell, flag_cell};
ghost use Rattle.ov_sweep_rows.specs.Cells.{further_cells, most_long, most_short, number_cell, parameter_cells};
ghost use Rattle.ov_sweep_rows.specs.Cells.{phase_cells, setting_cells, share_cell};
ghost use Rattle.ov_sweep_rows.specs.Columns.{forms};
ghost use Rattle.ov_sweep_rows.specs.Fields.{HasNoMore};
ghost use Rattle.ov_sweep_rows.specs.PhaseCosts.{cost_cells};
ghost use Rattle.ov_sweep_rows.specs.PhaseShape.{shape_cells};
ghost use Rattle.ov_sweep_rows.specs.RowCells.{cells};
ghost use Rattle.ov_sweep_rows.specs.Code.Groups.{Cuts, CutsThrice, Fits};
ghost use Rattle.ov_sweep_rows.specs.Code.Taking.{EqualFrom, IsBetween, IsBetweenOrNothing, IsCrash, IsDecimals};
ghost use Rattle.ov_sweep_rows.specs.Code.Taking.{IsDecimalsOrNothing, IsOrder, IsRefill, TakeFrom};
ghost use Rattle.ov_sweep_rows.specs.Code.Written.{cost_forms, further_forms, option_forms, parameter_forms};
ghost use Rattle.ov_sweep_rows.specs.Code.Written.{phase_forms, shape_forms};
ghost use Rattle.ov_sweep_rows.specs.declared.cell.Cell.TheVariants as told;

use crate::cell::Cell;
use crate::columns::{FURTHER, OPTIONS, PHASE_COLUMNS};
use crate::phase_costs::COST_COLUMNS;
use crate::phase_shape::SHAPE_COLUMNS;
use crate::{DeliveredShare, FourDecimals, PhaseCosts, PhaseRow, PhaseShape, Row, RowForm};
use ov_grow_options::{
    Crash, GrowOptions, NO_CHANCE, NO_ROUNDS, NO_SHARE, NODES, Order, Pace, Within,
};
use ov_ids::{NodeId, Params, Refill};

/// The row of this form with these cells. None is returned if its parameters are not within their limits.
pub(crate) fn row_with(form: RowForm, found: &[Cell]) -> Option<Row>
    requires { Fits found.now (forms form) }
    ensures cells { IfSome result (λ row. cells form row ≡ found.now) }
    ensures three { IfSome result (λ row. length row.phases ≡ 3) }
    ensures within { IfSome result (λ row. AreWithinLimits row.options.params) }
    ensures no_more { IfSome result (HasNoMore form) }
    ensures none { IfNone result
        ((p : ParamsState) → parameter_cells p ≡ take 7 (drop 1 found.now) → AreWithinLimits p → ⊥) }
{
    let (options, rest) = cut(found, true, OPTIONS.len());
    let own = cut_thrice(rest, true, PHASE_COLUMNS.len());
    let (further, rest) = cut(own.rest, form.further, FURTHER.len());
    let costs = cut_thrice(rest, form.costs, COST_COLUMNS.len());
    let shape = cut_thrice(costs.rest, form.shape, SHAPE_COLUMNS.len());
    match params_with(options) {
        None => None,
        Some(params) => Some(Row {
            options: options_with(form, options, further, params),
            phases: [
                phase_with(form, own.settle, costs.settle, shape.settle),
                phase_with(form, own.crash, costs.crash, shape.crash),
                phase_with(form, own.heal, costs.heal, shape.heal),
            ],
        }),
    }
}

/// The cells of a group of columns, if it is asked for, and those behind it.
fn cut(cells: &[Cell], asked: bool, count: usize) -> (&[Cell], &[Cell])
    ensures { Cuts asked count cells.now result.0.now result.1.now }
{
    if !asked {
        return (&[], cells);
    }
    if count > cells.len() {
        return (cells, &[]);
    }
    cells.split_at(count)
}

/// The cells of a group of columns for each phase, and those behind them.
#[derive(Clone, Copy)]
struct Thrice<'a> {
    settle: &'a [Cell],
    crash: &'a [Cell],
    heal: &'a [Cell],
    rest: &'a [Cell],
}

/// The cells of a group of columns for each phase, if it is asked for, and those behind them.
fn cut_thrice(cells: &[Cell], asked: bool, count: usize) -> Thrice<'_>
    ensures { CutsThrice asked count cells.now result.settle.now result.crash.now result.heal.now result.rest.now }
{
    let (settle, rest) = cut(cells, asked, count);
    let (crash, rest) = cut(rest, asked, count);
    let (heal, rest) = cut(rest, asked, count);
    Thrice {
        settle,
        crash,
        heal,
        rest,
    }
}

/// HyParView's parameters, if they are within their limits, with the rule at DISCONNECT.
fn params_with(cells: &[Cell]) -> Option<Params>
    ensures cells { IfSome result (λ p. TakeFrom cells.now 1 parameter_forms
        → EqualFrom cells.now 1 (parameter_cells p)) }
    ensures rule { IfSome result (λ p. IsRefill (cell_at cells.now 8) → told.Refill p.refill ≡ cell_at cells.now 8) }
    ensures within { IfSome result AreWithinLimits }
    ensures unscaled { IfSome result (λ p. p.scale ≡ Profile) }
    ensures none { IfNone result (TakeFrom cells.now 1 parameter_forms
        → (p : ParamsState) → EqualFrom cells.now 1 (parameter_cells p) → AreWithinLimits p → ⊥) }
{
    let active = number(cell_at(cells, 1));
    let passive = number(cell_at(cells, 2));
    let arwl = number(cell_at(cells, 3));
    let prwl = number(cell_at(cells, 4));
    let ka = number(cell_at(cells, 5));
    let kp = number(cell_at(cells, 6));
    let ttl = number(cell_at(cells, 7));
    match Params::new(active, passive, arwl, prwl, ka, kp, ttl) {
        Ok(params) => Some(params.with_refill(refill(cell_at(cells, 8)))),
        Err(_) => None,
    }
}

/// The options with these parameters, cells, and cells of the further options.
fn options_with(form: RowForm, cells: &[Cell], further: &[Cell], params: Params) -> GrowOptions
    ensures params { result.params ≡ params }
    ensures cells { TakeFrom cells.now 0 option_forms → EqualFrom cells.now 1 (parameter_cells params)
        → told.Refill params.refill ≡ cell_at cells.now 8
        → EqualFrom cells.now 0 (setting_cells result ++ (told.Number result.seed ∷ [])) }
    ensures further { form.further ≡ true → TakeFrom further.now 0 further_forms
        → EqualFrom further.now 0 (further_cells result) }
    ensures alone { form.further ≡ false → result.sequential ≡ false }
    ensures chosen { form.further ≡ false → result.sender ≡ None }
    ensures learned { form.further ≡ false → result.detect ≡ false }
{
    GrowOptions {
        nodes: within(cell_at(cells, 0), NODES),
        params,
        seed: long_number(cell_at(cells, 18)),
        loss_join: within(cell_at(cells, 9), NO_CHANCE),
        loss: within(cell_at(cells, 10), NO_CHANCE),
        repeat: within(cell_at(cells, 11), NO_SHARE),
        order: order(cell_at(cells, 12)),
        pace: pace(cell_at(cells, 13)),
        rounds: within(cell_at(cells, 14), NO_ROUNDS),
        crash: crash(cell_at(cells, 15)),
        heal: within(cell_at(cells, 16), NO_ROUNDS),
        broadcasts: within(cell_at(cells, 17), NO_ROUNDS),
        sequential: form.further && flag(cell_at(further, 0)),
        sender: further_sender(form, further),
        detect: form.further && flag(cell_at(further, 2)),
    }
}

/// The node that makes each broadcast, if rows have a column for it.
fn further_sender(form: RowForm, further: &[Cell]) -> Option<NodeId>
    ensures cell { form.further ≡ true → IsBetweenOrNothing 1 most_nodes (cell_at further.now 1)
        → number_cell result ≡ cell_at further.now 1 }
    ensures none { form.further ≡ false → result ≡ None }
{
    if form.further {
        sender(cell_at(further, 1))
    } else {
        None
    }
}

/// What a run came to after a phase, by its own cells, and those of its costs and its shape.
fn phase_with(form: RowForm, own: &[Cell], costs: &[Cell], shape: &[Cell]) -> PhaseRow
    ensures cells { TakeFrom own.now 0 phase_forms → EqualFrom own.now 0 (phase_cells result) }
    ensures costs { form.costs ≡ true → TakeFrom costs.now 0 cost_forms
        → EqualFrom costs.now 0 (cost_cells result.costs) }
    ensures unpriced { form.costs ≡ false → result.costs ≡ None }
    ensures shape { form.shape ≡ true → TakeFrom shape.now 0 shape_forms
        → EqualFrom shape.now 0 (shape_cells result.shape) }
    ensures shapeless { form.shape ≡ false → result.shape ≡ None }
{
    PhaseRow {
        nodes: number(cell_at(own, 0)),
        k: number(cell_at(own, 1)),
        least_degree: number(cell_at(own, 2)),
        links: number(cell_at(own, 3)),
        entries: number(cell_at(own, 4)),
        delivered: delivered(cell_at(own, 5)),
        costs: costs_if(form.costs, costs),
        shape: shape_if(form.shape, shape),
    }
}

/// What the broadcasts of a phase cost, if rows have columns for that.
fn costs_if(asked: bool, cells: &[Cell]) -> Option<PhaseCosts>
    ensures cells { asked ≡ true → TakeFrom cells.now 0 cost_forms → EqualFrom cells.now 0 (cost_cells result) }
    ensures none { asked ≡ false → result ≡ None }
{
    if !asked {
        return None;
    }
    Some(PhaseCosts::with_cells(cells))
}

/// The shape of a phase, if rows have columns for it.
fn shape_if(asked: bool, cells: &[Cell]) -> Option<PhaseShape>
    ensures cells { asked ≡ true → TakeFrom cells.now 0 shape_forms → EqualFrom cells.now 0 (shape_cells result) }
    ensures none { asked ≡ false → result ≡ None }
{
    if !asked {
        return None;
    }
    Some(PhaseShape::with_cells(cells))
}

/// The cell at a place; nothing behind the last.
pub fn cell_at(cells: &[Cell], place: usize) -> Cell
    ensures { result ≡ cell_at cells.now place }
{
    match cells.get(place) {
        Some(cell) => *cell,
        None => Cell::Empty,
    }
}

fn long_number(cell: Cell) -> u64
    ensures { IsBetween 0 most_long cell → number_cell (Some result) ≡ cell }
{
    match cell {
        Cell::Number(number) => number,
        _ => 0,
    }
}

/// The number of a cell that has one of 32 bits.
pub(crate) fn number(cell: Cell) -> u32
    ensures { IsBetween 0 most_short cell → number_cell (Some result) ≡ cell }
{
    u32::try_from(long_number(cell)).unwrap_or(0)
}

/// The number of a cell that is within these limits, and else the usual one.
fn within<const LOW: u32, const HIGH: u32>(
    cell: Cell,
    usual: Within<LOW, HIGH>,
) -> Within<LOW, HIGH>
    ensures { IsBetween LOW HIGH cell → number_cell (Some result) ≡ cell }
{
    Within::new(number(cell)).unwrap_or(usual)
}

fn pace(cell: Cell) -> Option<Pace>
    ensures { IsBetweenOrNothing 0 most_turns cell → number_cell result ≡ cell }
{
    if cell == Cell::Empty {
        return None;
    }
    Pace::new(number(cell))
}

fn sender(cell: Cell) -> Option<NodeId>
    ensures { IsBetweenOrNothing 1 most_nodes cell → number_cell result ≡ cell }
{
    if cell == Cell::Empty {
        return None;
    }
    Some(NodeId::new(number(cell)))
}

fn crash(cell: Cell) -> Crash
    ensures { IsCrash cell → crash_cell result ≡ cell }
{
    if cell == Cell::Cut {
        return Crash::Cut;
    }
    Crash::Share(within(cell, NO_SHARE))
}

fn order(cell: Cell) -> Order
    ensures { IsOrder cell → told.Order result ≡ cell }
{
    match cell {
        Cell::Order(order) => order,
        _ => Order::Random,
    }
}

fn refill(cell: Cell) -> Refill
    ensures { IsRefill cell → told.Refill result ≡ cell }
{
    match cell {
        Cell::Refill(rule) => rule,
        _ => Refill::Never,
    }
}

fn flag(cell: Cell) -> bool
    ensures { IsBetween 0 1 cell → flag_cell result ≡ cell }
{
    long_number(cell) == 1
}

/// The number with four decimal digits of a cell that has one or nothing.
pub(crate) fn decimals(cell: Cell) -> Option<FourDecimals>
    ensures { IsDecimalsOrNothing cell → decimals_cell result ≡ cell }
{
    match cell {
        Cell::Decimals(number) => Some(number),
        _ => None,
    }
}

/// The number with four decimal digits of a cell that has one.
pub(crate) fn clustering(cell: Cell) -> FourDecimals
    ensures { IsDecimals cell → decimals_cell (Some result) ≡ cell }
{
    match cell {
        Cell::Decimals(number) => number,
        _ => FourDecimals { parts: 0 },
    }
}

fn delivered(cell: Cell) -> Option<DeliveredShare>
    ensures { IsDecimalsOrNothing cell → share_cell result ≡ cell }
{
    match cell {
        Cell::Decimals(number) => Some(DeliveredShare {
            parts: number.parts,
        }),
        _ => None,
    }
}
