//! Which snapshots there are, for somebody who named a moment at which none was taken.
use ov_snap::Snapshot;
use std::alloc::AllocError;
use std::fmt::Write;

/// How many snapshots before a moment are named at most, and how many after it.
const MOST_NAMED: usize = 2;

/// Appends that no snapshot was taken at a moment, how many there are, the nearest ones, and which of them follows it.
/// If one was taken then, nothing is appended. The snapshots have the order of their moments, and the nearest ones are
/// found by binary search.
pub(crate) fn push_no_snapshot(
    text: &mut String,
    snapshots: &[Snapshot],
    before: &str,
    moment: u32,
) -> Result<(), AllocError> {
    let place = match snapshots.binary_search_by_key(&moment, |snapshot| snapshot.moment) {
        Ok(_) => return Ok(()),
        Err(place) => place,
    };
    write!(text, "{before}no snapshot was taken at moment {moment}")?;
    match snapshots.len() {
        0 => return text.push_str(", and none at another one"),
        1 => text.push_str("; the only one is at")?,
        count => write!(text, "; there are {count}, the nearest at")?,
    }
    let (earlier, later) = snapshots.split_at(place);
    push_places(text, earlier, later)?;
    match later.first() {
        Some(next) => push_next(text, next.moment),
        None => text.push_str("; none is after it"),
    }
}

/// Appends the moments of the last of the earlier snapshots, and of the first of the later ones.
fn push_places(
    text: &mut String,
    earlier: &[Snapshot],
    later: &[Snapshot],
) -> Result<(), AllocError> {
    let mut is_first = true;
    let earlier = earlier
        .iter()
        .skip(earlier.len().saturating_sub(MOST_NAMED));
    for snapshot in earlier.chain(later.iter().take(MOST_NAMED)) {
        if !is_first {
            text.push(',')?;
        }
        let taken = snapshot.moment;
        write!(text, " {taken}")?;
        is_first = false;
    }
    Ok(())
}

/// Appends that this is the next snapshot after a moment.
fn push_next(text: &mut String, next: u32) -> Result<(), AllocError> {
    write!(text, "; {next} is the next after it")
}
