//! Sweeps in which an allocation is refused. `dev/refuse-allocations` refuses each in turn.
use crate::sweep::command_words::runs_of;
use crate::sweep::reports::is_reported;
use ov_sweep_rows::RowFault;

/// If an allocation is refused, the rows are not read or not told. The same calls, made again, give the summary.
#[test]
fn out_of_memory_changes_no_report(rt: HostRuntime) {
    let first = is_reported(rt.alloc());
    if first == Ok(true) {
        return;
    }
    assert!(rt; first == Err(RowFault::OutOfMemory));
    assert!(rt; is_reported(rt.alloc()) == Ok(true));
    let _ = println!(rt; "seen: report of four rows: refused 99, then the summary");
}

/// If an allocation is refused, the words are not read, and no other words either.
#[test]
fn out_of_memory_changes_no_words(rt: HostRuntime) {
    let found = runs_of(rt.alloc(), "--active 3,4 --svg p.svg --runs 2");
    if found == Ok(4) {
        return;
    }
    assert!(rt; found == Err(99));
    let _ = println!(rt; "seen: words of a sweep: refused 99");
}
