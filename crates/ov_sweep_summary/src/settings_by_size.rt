use crate::SettingRuns;
use ov_grow_options::Order;
use ov_ids::Refill;
use ov_sweep_rows::{Cell, cell_at};
use std::alloc::{AllocError, Global};

/// The place of the active size among the options of a setting. By it settings are ordered first.
const ACTIVE: usize = 1;

/// The numbers by which a setting is ordered: the active size, and then that of each option.
type Size = [u64; 22];

/// The places of settings in the order of their sizes: by the active size, then by the other options in the order of
/// their columns. Numbers ascend; what is not given comes before any number, `cut` after all.
pub(crate) fn places_by_size(
    alloc: Global,
    settings: &[SettingRuns<'_>],
) -> Result<Vec<usize>, AllocError> {
    let mut sizes = Vec::new(alloc);
    for (place, setting) in settings.iter().enumerate() {
        sizes.push((size_of(&setting.cells), place))?;
    }
    sizes.sort()?;
    places_of(alloc, &sizes)
}

/// The places beside these sizes.
fn places_of(alloc: Global, sizes: &[(Size, usize)]) -> Result<Vec<usize>, AllocError> {
    let mut places = Vec::new(alloc);
    for (_, place) in sizes {
        places.push(*place)?;
    }
    Ok(places)
}

/// The numbers by which a setting is ordered.
fn size_of(cells: &[Cell]) -> Size {
    let mut size = [rank_of(cell_at(cells, ACTIVE)); 22];
    for (place, cell) in cells.iter().enumerate() {
        if let Some(free) = size.get_mut(place.saturating_add(1)) {
            *free = rank_of(*cell);
        }
    }
    size
}

/// The place of a value among those of its option.
fn rank_of(cell: Cell) -> u64 {
    match cell {
        Cell::Empty => 0,
        Cell::Number(number) => number.saturating_add(1),
        Cell::Decimals(number) => number.parts,
        Cell::Refill(Refill::Never) | Cell::Order(Order::Random) | Cell::Phase(_) => 0,
        Cell::Refill(Refill::Alone) | Cell::Order(Order::Oldest) => 1,
        Cell::Refill(Refill::Always) => 2,
        Cell::Cut => u64::MAX,
    }
}
