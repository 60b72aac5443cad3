ghost use Rattle.std.specs.Prelude.{◌≡◌, ◌++◌, map, OnOk, IfOk};
ghost use Rattle.ov_sweep_rows.specs.Columns.{if_asked, in_each_phase, in_phase, table};
ghost use Rattle.ov_sweep_rows.specs.Code.Named.{name_and_form, option_of, part_of_phase};

use crate::phase_costs::COST_COLUMNS;
use crate::phase_shape::SHAPE_COLUMNS;
use crate::{ColumnName, FieldForm, Phase, PhaseColumn, RowForm};
use std::alloc::{AllocError, Global};

/// A column of rows.
#[derive(Clone, Copy)]
pub(crate) struct Column {
    pub(crate) name: ColumnName,
    pub(crate) takes: FieldForm,
}

/// A column of an option: its name, and what it takes.
pub(crate) type OptionColumn = (&'static str, FieldForm);

/// The columns of the options of a run but the further ones, in the order of their table; the last is its seed.
pub(crate) const OPTIONS: [OptionColumn; 19] = [
    ("nodes", FieldForm::Nodes),
    ("active", FieldForm::Number),
    ("passive", FieldForm::Number),
    ("arwl", FieldForm::Number),
    ("prwl", FieldForm::Number),
    ("ka", FieldForm::Number),
    ("kp", FieldForm::Number),
    ("ttl", FieldForm::Params),
    ("refill", FieldForm::Refill),
    ("loss_join", FieldForm::Chance),
    ("loss", FieldForm::Chance),
    ("repeat", FieldForm::Share),
    ("order", FieldForm::Order),
    ("pace", FieldForm::Pace),
    ("rounds", FieldForm::Count),
    ("crash", FieldForm::Crash),
    ("heal", FieldForm::Count),
    ("broadcasts", FieldForm::Count),
    ("seed", FieldForm::Seed),
];

/// The columns of the further options.
pub(crate) const FURTHER: [OptionColumn; 3] = [
    ("sequential", FieldForm::Flag),
    ("sender", FieldForm::Sender),
    ("detect", FieldForm::Flag),
];

/// The columns of what a run came to after a phase.
pub(crate) const PHASE_COLUMNS: [PhaseColumn; 6] = [
    PhaseColumn {
        name: "nodes",
        takes: FieldForm::Number,
        head: "nodes",
    },
    PhaseColumn {
        name: "k",
        takes: FieldForm::Number,
        head: "k",
    },
    PhaseColumn {
        name: "least_degree",
        takes: FieldForm::Number,
        head: "least degree",
    },
    PhaseColumn {
        name: "links",
        takes: FieldForm::Number,
        head: "links",
    },
    PhaseColumn {
        name: "entries",
        takes: FieldForm::Number,
        head: "entries",
    },
    DELIVERED,
];

/// The column of the delivered share of a phase.
pub(crate) const DELIVERED: PhaseColumn = PhaseColumn {
    name: "delivered",
    takes: FieldForm::DecimalsOrNothing,
    head: "delivered",
};

/// The columns of rows of this form, in their order.
pub(crate) fn columns_of(alloc: Global, form: RowForm) -> Result<Vec<Column>, AllocError>
    ensures { IfOk result (λ columns. map name_and_form columns.items ≡ table form) }
{
    let mut columns = Vec::new(alloc);
    push_columns(&mut columns, form)?;
    Ok(columns)
}

/// Adds the columns of rows of this form.
fn push_columns(columns: &mut Vec<Column>, form: RowForm) -> Result<(), AllocError>
    ensures { OnOk result (map name_and_form columns.new.items ≡ map name_and_form columns.old.items ++ table form) }
{
    push_options(columns, true, &OPTIONS)?;
    push_phases(columns, true, &PHASE_COLUMNS)?;
    push_options(columns, form.further, &FURTHER)?;
    push_phases(columns, form.costs, &COST_COLUMNS)?;
    push_phases(columns, form.shape, &SHAPE_COLUMNS)
}

/// The columns of the options and the further options of a run.
pub(crate) fn columns_of_options(alloc: Global) -> Result<Vec<Column>, AllocError> {
    let mut columns = Vec::new(alloc);
    push_options(&mut columns, true, &OPTIONS)?;
    push_options(&mut columns, true, &FURTHER)?;
    Ok(columns)
}

/// Adds the columns of options, if they are asked for.
fn push_options(
    columns: &mut Vec<Column>,
    asked: bool,
    options: &[OptionColumn],
) -> Result<(), AllocError>
    ensures { OnOk result (map name_and_form columns.new.items
        ≡ map name_and_form columns.old.items ++ if_asked asked (map option_of options.now)) }
{
    if !asked {
        return Ok(());
    }
    for (name, takes) in options {
        columns.push(Column {
            name: ColumnName { phase: None, name },
            takes: *takes,
        })?;
    }
    Ok(())
}

/// Adds the columns of a group for each phase, if they are asked for.
fn push_phases(
    columns: &mut Vec<Column>,
    asked: bool,
    group: &[PhaseColumn],
) -> Result<(), AllocError>
    ensures { OnOk result (map name_and_form columns.new.items
        ≡ map name_and_form columns.old.items ++ if_asked asked (in_each_phase (map part_of_phase group.now))) }
{
    if !asked {
        return Ok(());
    }
    push_phase(columns, Phase::Settle, group)?;
    push_phase(columns, Phase::Crash, group)?;
    push_phase(columns, Phase::Heal, group)
}

/// Adds the columns of a group for a phase.
fn push_phase(
    columns: &mut Vec<Column>,
    phase: Phase,
    group: &[PhaseColumn],
) -> Result<(), AllocError>
    ensures { OnOk result (map name_and_form columns.new.items
        ≡ map name_and_form columns.old.items ++ in_phase phase (map part_of_phase group.now)) }
{
    for part in group {
        columns.push(Column {
            name: ColumnName {
                phase: Some(phase),
                name: part.name,
            },
            takes: part.takes,
        })?;
    }
    Ok(())
}
