ghost use Rattle.std.specs.Prelude.{◌≡◌, ◌++◌, ◌∷◌, [], true, OnOk, IfErr, IfOk};
ghost use Rattle.ov_grow.specs.Growing.{IsGrowRefusalFrom, begins};
ghost use Rattle.ov_sweep.specs.MessageRows.{AreMessagesOf, message_row, message_rows};
ghost use Rattle.ov_sweep_rows.specs.declared.row.Phase.TheVariants.{Settle as settle, Crash as crash, Heal as heal};

use ov_grow::{GrowFault, LoggedGrowth, MessageCost, grow_logged};
use ov_grow_options::GrowOptions;
use ov_ids::OutOfMemory;
use ov_sweep_rows::{MessageRow, Phase};
use std::alloc::Global;

/// The rows of all broadcasts of the overlay that is grown with these options, in the order of the phases and of the
/// broadcasts. What PRUNE costs is told of single broadcasts only if they are made one by one.
///
/// A fault of growing (see `GrowFault`) means that memory ran out, or that with these options nothing can be grown.
pub fn message_rows_of(alloc: Global, options: &GrowOptions) -> Result<Vec<MessageRow>, GrowFault>
    ensures rows { IfOk result (λ rows. AreMessagesOf options.now rows.items) }
    ensures refused { IfErr result (IsGrowRefusalFrom (begins true options.now) options.now) }
{
    let logged = grow_logged(alloc, options, true)?;
    Ok(rows_of(alloc, options, &logged)?)
}

/// The rows of all broadcasts of an overlay.
fn rows_of(
    alloc: Global,
    options: &GrowOptions,
    logged: &LoggedGrowth,
) -> Result<Vec<MessageRow>, OutOfMemory>
    ensures { IfOk result (λ rows. rows.items ≡ message_rows options.now settle 1 logged.now.settle_costs.items
        ++ (message_rows options.now crash 1 logged.now.crash_costs.items
        ++ message_rows options.now heal 1 logged.now.heal_costs.items)) }
{
    let mut rows = Vec::new(alloc);
    push_rows(&mut rows, options, Phase::Settle, &logged.settle_costs)?;
    push_rows(&mut rows, options, Phase::Crash, &logged.crash_costs)?;
    push_rows(&mut rows, options, Phase::Heal, &logged.heal_costs)?;
    Ok(rows)
}

/// Puts the rows of the broadcasts of a phase.
fn push_rows(
    rows: &mut Vec<MessageRow>,
    options: &GrowOptions,
    phase: Phase,
    costs: &[MessageCost],
) -> Result<(), OutOfMemory>
    ensures { OnOk result (rows.new.items ≡ rows.old.items ++ message_rows options.now phase 1 costs.now) }
{
    let mut number = 1u32;
    for cost in costs {
        push_row(rows, message_row(options, phase, number, cost))?;
        match number.checked_add(1) {
            Some(next) => number = next,
            None => return Err(OutOfMemory),
        }
    }
    Ok(())
}

/// Puts a row.
fn push_row(rows: &mut Vec<MessageRow>, row: MessageRow) -> Result<(), OutOfMemory>
    ensures { OnOk result (rows.new.items ≡ rows.old.items ++ row ∷ []) }
{
    rows.extend_from_slice(&[row])?;
    Ok(())
}

/// The row of a broadcast of a phase, of this number.
#[tactic(auto, unfolding(crate::specs::MessageRows::message_row))]
fn message_row(options: &GrowOptions, phase: Phase, number: u32, cost: &MessageCost) -> MessageRow
    ensures { result ≡ message_row options.now phase number cost.now }
{
    MessageRow {
        options: *options,
        phase,
        number,
        origin: cost.id.origin,
        live: cost.live,
        delivered: cost.delivered,
        hops: cost.hops,
        gossip: cost.gossip,
        ihave: cost.ihave,
        graft: cost.graft,
        prune: cost.prune,
    }
}
