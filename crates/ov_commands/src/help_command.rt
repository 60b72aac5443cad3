ghost use Rattle.std.specs.Prelude.{◌≡◌, ◌<◌, IfOk};
ghost use Rattle.ov_io.specs.Device.{most_faults};
ghost use Rattle.ov_commands.specs.Code.Endings.{WasWritten};
ghost use Rattle.ov_commands.specs.Statuses.{HasDone};

use crate::command_fault::CommandFault;
use crate::file_conversion_commands::status_of;
use crate::graph_file_out_of_certificate_file::written;
use ov_command_tree::{Telling, telling_text};
use ov_io::Sink;
use ov_reasons::without_memory;
use std::io::Write;

/// Prints help, or the version, on standard output.
pub fn tell_asked(rt: &HostRuntime, telling: Telling) -> Result<u8, CommandFault>
    ensures status { IfOk result (λ status. status ≡ 0) }
{
    match telling_text(rt.alloc(), telling) {
        Ok(text) => tell_into(rt, text.as_str(), &mut Sink::new(rt.stdout())),
        Err(_) => Err(without_memory(rt).into()),
    }
}

/// Prints a text.
fn tell_into<W: Write>(rt: &HostRuntime, text: &str, sink: &mut Sink<W>) -> Result<u8, CommandFault>
    requires { sink.old.faults < most_faults }
    ensures told { HasDone (WasWritten text.now W.contents sink.old.writer sink.new.writer) result }
    ensures status { IfOk result (λ status. status ≡ 0) }
{
    status_of(written(rt, text.as_bytes(), sink))
}
