use crate::grow_command::{grow_asked, told};
use crate::grow_command_fault::GrowCommandFault;
use crate::sweep_command::sweep_asked;
use ov_arguments::{GrowArgumentsFault, GrowingRequest, read_growing};
use std::thread::Threads;

/// Does what these arguments ask for, if their first is `grow` or `sweep` and they do not ask for help. Otherwise false,
/// and nothing is done.
pub fn grow_or_sweep<T: Threads + Sync>(
    rt: &HostRuntime,
    threads: &T,
    arguments: &[String],
) -> Result<bool, GrowCommandFault> {
    match read_growing(rt.alloc(), arguments) {
        Ok(None) => Ok(false),
        Ok(Some(GrowingRequest::Grow(request))) => {
            grow_asked(rt, &request)?;
            Ok(true)
        }
        Ok(Some(GrowingRequest::Sweep(request))) => {
            sweep_asked(rt, threads, &request)?;
            Ok(true)
        }
        Err(fault) => Err(unread_words(rt, &fault)),
    }
}

/// Ends if words can't be read. Prints what is wrong with them.
fn unread_words(rt: &HostRuntime, fault: &GrowArgumentsFault) -> GrowCommandFault {
    match fault {
        GrowArgumentsFault::BadArguments { reason } => {
            let ended = GrowCommandFault::Arguments;
            let _ = eprint!(rt; "{ended}\n{reason}");
            ended
        }
        GrowArgumentsFault::OutOfMemory => told(rt, GrowCommandFault::OutOfMemory),
    }
}
