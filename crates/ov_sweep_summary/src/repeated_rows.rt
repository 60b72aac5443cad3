use crate::seen_texts::SeenTexts;
use ov_grow_options::GrowOptions;
use ov_ids::OutOfMemory;
use ov_sweep_rows::Row;
use std::alloc::{AllocError, Global};
use std::fmt::Write;

/// Rows with the options and the seed of an earlier one: each counts as a run more.
#[derive(Clone, Copy)]
pub struct RepeatedRuns {
    /// How many there are.
    pub count: u64,
    /// The options of the first of them.
    pub first: GrowOptions,
}

/// The rows whose options, the seed among them, are those of an earlier row. None: there is no such row. OutOfMemory
/// (99) if an allocation is refused.
pub fn repeated_runs(alloc: Global, rows: &[Row]) -> Result<Option<RepeatedRuns>, OutOfMemory> {
    let mut seen = SeenTexts::new(alloc);
    let mut found: Option<RepeatedRuns> = None;
    for row in rows {
        if !is_new(alloc, &mut seen, &row.options)? {
            found = Some(one_more(found, row.options));
        }
    }
    Ok(found)
}

/// Whether these options were not seen yet.
fn is_new(alloc: Global, seen: &mut SeenTexts, options: &GrowOptions) -> Result<bool, AllocError> {
    let (_, is_new) = seen.place(format!(in alloc; "{options}")?)?;
    Ok(is_new)
}

/// With one repeated row more.
fn one_more(found: Option<RepeatedRuns>, options: GrowOptions) -> RepeatedRuns {
    match found {
        None => RepeatedRuns {
            count: 1,
            first: options,
        },
        Some(RepeatedRuns { count, first }) => RepeatedRuns {
            count: count.saturating_add(1),
            first,
        },
    }
}
