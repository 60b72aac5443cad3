use crate::ShownCell;
use crate::seen_texts::SeenTexts;
use crate::setting_names::{OPTIONS, setting_name};
use ov_grow_options::GrowOptions;
use ov_ids::OutOfMemory;
use ov_sweep_rows::{Cell, Row, cell_at, option_cells};
use std::alloc::{AllocError, Global};
use std::fmt::Write;

/// How many characters fit a line of the picture.
const LINE: usize = 160;

/// The runs of one setting, whose options are the same but for the seed.
#[derive(Drop)]
pub struct SettingRuns<'a> {
    /// What each column of a setting says.
    pub cells: [Cell; OPTIONS],
    /// The runs.
    pub runs: Vec<&'a Row>,
}

/// The settings of rows, in the order of their first appearance, each with its rows in their order. OutOfMemory (99) if
/// an allocation is refused.
pub fn settings_of(alloc: Global, rows: &[Row]) -> Result<Vec<SettingRuns<'_>>, OutOfMemory> {
    let mut keys = SeenTexts::new(alloc);
    let mut settings: Vec<SettingRuns<'_>> = Vec::new(alloc);
    for row in rows {
        push_run(alloc, &mut keys, &mut settings, row)?;
    }
    Ok(settings)
}

/// Adds a run to those of its setting.
fn push_run<'a>(
    alloc: Global,
    keys: &mut SeenTexts,
    settings: &mut Vec<SettingRuns<'a>>,
    row: &'a Row,
) -> Result<(), AllocError> {
    let cells = option_cells(&row.options);
    let (place, is_new) = keys.place(key_of(alloc, &cells)?)?;
    if is_new {
        settings.push(SettingRuns {
            cells,
            runs: Vec::new(alloc),
        })?;
    }
    match settings.get_mut(place) {
        Some(setting) => Ok(setting.runs.push(row)?),
        None => Ok(()),
    }
}

/// A text that says a setting.
fn key_of(alloc: Global, cells: &[Cell]) -> Result<String, AllocError> {
    let mut key = String::new(alloc);
    for cell in cells {
        write!(key, "{cell},")?;
    }
    Ok(key)
}

/// The places of the options in which settings differ.
pub fn differing(alloc: Global, settings: &[SettingRuns<'_>]) -> Result<Vec<usize>, AllocError> {
    let mut places = Vec::new(alloc);
    for place in 0..OPTIONS {
        if differ_at(settings, place) {
            places.push(place)?;
        }
    }
    Ok(places)
}

/// Whether settings differ in the option at this place.
fn differ_at(settings: &[SettingRuns<'_>], place: usize) -> bool {
    let Some(first) = settings.first() else {
        return false;
    };
    let cell = cell_at(&first.cells, place);
    for setting in settings {
        if cell_at(&setting.cells, place) != cell {
            return true;
        }
    }
    false
}

/// Appends the command of the sweep, with the options that all settings have, as far as they are not at their defaults.
pub(crate) fn push_command(
    text: &mut String,
    settings: &[SettingRuns<'_>],
    differing: &[usize],
) -> Result<(), AllocError> {
    text.push_str("overlay sweep")?;
    let Some(first) = settings.first() else {
        return Ok(());
    };
    let usual = option_cells(&GrowOptions::default());
    for (place, cell) in first.cells.iter().enumerate() {
        if !differing.contains(&place) && *cell != cell_at(&usual, place) {
            push_option(text, place, *cell)?;
        }
    }
    Ok(())
}

/// Appends the option at a place to a command, with its value if it takes one.
fn push_option(text: &mut String, place: usize, cell: Cell) -> Result<(), AllocError> {
    let option = setting_name(place);
    let name = option.name;
    if option.takes {
        return write!(text, " --{name} {cell}");
    }
    write!(text, " --{name}")
}

/// Appends the command of the sweep with the values of the options in which settings differ too, in the order in which
/// they come. Without these values if they would not fit a line, or if one of these options takes no value: then no
/// sweep has all settings.
pub fn push_swept_command(
    alloc: Global,
    text: &mut String,
    settings: &[SettingRuns<'_>],
    differing: &[usize],
) -> Result<(), AllocError> {
    let before = text.len();
    push_command(text, settings, differing)?;
    if !take_values(differing) {
        return Ok(());
    }
    let room = LINE.saturating_sub(text.len().saturating_sub(before));
    push_swept(alloc, text, settings, differing, room)
}

/// Appends the options in which settings differ, with their values, if these fit into so many bytes.
fn push_swept(
    alloc: Global,
    text: &mut String,
    settings: &[SettingRuns<'_>],
    differing: &[usize],
    room: usize,
) -> Result<(), AllocError> {
    let mut values = String::new(alloc);
    push_values(alloc, &mut values, settings, differing)?;
    if values.len() > room {
        return Ok(());
    }
    text.push_str(values.as_str())
}

/// Whether each of these options takes a value.
fn take_values(differing: &[usize]) -> bool {
    for place in differing {
        if !setting_name(*place).takes {
            return false;
        }
    }
    true
}

/// Appends these options with their values.
fn push_values(
    alloc: Global,
    text: &mut String,
    settings: &[SettingRuns<'_>],
    differing: &[usize],
) -> Result<(), AllocError> {
    for place in differing {
        let name = setting_name(*place).name;
        write!(text, " --{name} ")?;
        push_values_at(alloc, text, settings, *place)?;
    }
    Ok(())
}

/// Appends the values that settings have in the option at a place.
fn push_values_at(
    alloc: Global,
    text: &mut String,
    settings: &[SettingRuns<'_>],
    place: usize,
) -> Result<(), AllocError> {
    let values = values_at(alloc, settings, place)?;
    push_joined(text, &values)
}

/// Appends values, with commas between them.
fn push_joined(text: &mut String, values: &[Cell]) -> Result<(), AllocError> {
    for (place, value) in values.iter().enumerate() {
        let comma = if place == 0 { "" } else { "," };
        let shown = ShownCell(*value);
        write!(text, "{comma}{shown}")?;
    }
    Ok(())
}

/// The values that settings have in the option at a place, in the order of their first appearance.
fn values_at(
    alloc: Global,
    settings: &[SettingRuns<'_>],
    place: usize,
) -> Result<Vec<Cell>, AllocError> {
    let mut values = Vec::new(alloc);
    for setting in settings {
        let value = cell_at(&setting.cells, place);
        if !values.contains(&value) {
            values.push(value)?;
        }
    }
    Ok(values)
}

/// The fewest and the most runs of a setting.
pub fn run_counts(settings: &[SettingRuns<'_>]) -> (usize, usize) {
    let mut fewest = usize::MAX;
    let mut most = 0;
    for setting in settings {
        fewest = fewest.min(setting.runs.len());
        most = most.max(setting.runs.len());
    }
    (fewest.min(most), most)
}
