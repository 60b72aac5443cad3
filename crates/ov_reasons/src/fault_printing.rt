ghost use Rattle.std.specs.Prelude.{◌≡◌};

use ov_ids::OutOfMemory;
use ov_run_meaning::RunFault;

/// Prints the line of a fault of a run or an analysis.
pub fn print_fault(rt: &HostRuntime, fault: RunFault) -> RunFault
    ensures { result ≡ fault }
{
    let _ = eprintln!(rt; "{fault}");
    fault
}

/// Prints why there is a fault, below its line. Prints nothing if an allocation for it was refused.
pub fn print_reason(rt: &HostRuntime, reason: Result<String, OutOfMemory>) {
    if let Ok(reason) = reason {
        let _ = eprint!(rt; "{reason}");
    }
}

/// Ends before anything is read, since an allocation was refused.
pub fn without_memory(rt: &HostRuntime) -> RunFault
    ensures { result ≡ RunFault.OutOfMemory }
{
    let ended = print_fault(rt, RunFault::OutOfMemory);
    let _ = eprintln!(rt; "out of memory");
    ended
}
