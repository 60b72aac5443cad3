use crate::GrowArgumentsFault;
use crate::grow_request::{GrowRequest, read_grow_arguments};
use crate::sweep_request::{SweepRequest, read_sweep_arguments};
use ov_command_tree::{GrowingCommand, telling_asked};
use std::alloc::Global;

/// What is asked of a command that grows overlays.
#[derive(Drop)]
pub enum GrowingRequest {
    /// To grow one.
    Grow(GrowRequest),
    /// To grow many.
    Sweep(SweepRequest),
}

/// Reads arguments of which the first is `grow` or `sweep`: the words behind it are read by `read_grow_arguments` or
/// `read_sweep_arguments`. None: they name another command, or none, or ask for help.
pub fn read_growing(
    alloc: Global,
    arguments: &[String],
) -> Result<Option<GrowingRequest>, GrowArgumentsFault> {
    let Some((first, words)) = arguments.split_first() else {
        return Ok(None);
    };
    if telling_asked(arguments).is_some() {
        return Ok(None);
    }
    match GrowingCommand::of(first.as_str()) {
        None => Ok(None),
        Some(GrowingCommand::Grow) => {
            let request = read_grow_arguments(alloc, words)?;
            Ok(Some(GrowingRequest::Grow(request)))
        }
        Some(GrowingCommand::Sweep) => {
            let request = read_sweep_arguments(alloc, words)?;
            Ok(Some(GrowingRequest::Sweep(request)))
        }
    }
}
