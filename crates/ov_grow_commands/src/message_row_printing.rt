use crate::grow_command::told;
use crate::grow_command_fault::GrowCommandFault;
use crate::sweep_command::refused_run;
use crate::sweep_progress::RunProgress;
use ov_arguments::SweepRequest;
use ov_grow_options::GrowOptions;
use ov_io::Sink;
use ov_sweep::{RefusedRun, message_rows_of};
use ov_sweep_rows::{MessageRow, message_header_text, message_row_text};

/// Prints a row for each broadcast of a sweep, run after run. Prints why it ended before its end.
pub(crate) fn print_messages(
    rt: &HostRuntime,
    request: &SweepRequest,
) -> Result<(), GrowCommandFault> {
    if let Err(fault) = print_message_header(rt) {
        return Err(told(rt, fault));
    }
    let mut progress = RunProgress::new(rt, request.progress);
    let mut done: u64 = 0;
    for options in request.runs() {
        print_messages_of(rt, &options)?;
        done = done.saturating_add(1);
        progress.sees(done, request.len());
    }
    Ok(())
}

fn print_message_header(rt: &HostRuntime) -> Result<(), GrowCommandFault> {
    let header = message_header_text(rt.alloc())?;
    Ok(Sink::new(rt.stdout()).write_all(&header)?)
}

/// Grows an overlay with these options, and prints a row for each of its broadcasts. Prints why it ended before its
/// end.
fn print_messages_of(rt: &HostRuntime, options: &GrowOptions) -> Result<(), GrowCommandFault> {
    match message_rows_of(rt.alloc(), options) {
        Ok(messages) => match write_messages(rt, &messages) {
            Ok(()) => Ok(()),
            Err(fault) => Err(told(rt, fault)),
        },
        Err(fault) => {
            let refused = RefusedRun {
                options: *options,
                fault,
            };
            Err(refused_run(rt, &refused))
        }
    }
}

/// Writes rows of broadcasts to standard output, one after the other.
fn write_messages(rt: &HostRuntime, messages: &[MessageRow]) -> Result<(), GrowCommandFault> {
    for message in messages {
        let text = message_row_text(rt.alloc(), message)?;
        Sink::new(rt.stdout()).write_all(&text)?;
    }
    Ok(())
}
