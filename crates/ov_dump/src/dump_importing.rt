ghost use Rattle.std.specs.Prelude.{◌≡◌, ◌+◌, ◌<◌, length, map, string_bytes, IfErr, IfOk, IsUtf8, OnOk};
ghost use Rattle.std.specs.List.{AllByRecursion};
ghost use Rattle.ov_graphfile.specs.GraphTexts.{named_graph_text};
ghost use Rattle.ov_io.specs.Device.{most_faults};
ghost use Rattle.ov_dump.specs.Importing.{WasImported};
ghost use Rattle.ov_dump.specs.ShownNames.{shown_text};
ghost use Rattle.ov_dump.specs.declared.refusal_or_write_fault.ImportFault.TheVariants.{Write as write_failed};

use crate::names_shown_on_one_line::shown_name;
use crate::refusal_or_write_fault::ImportFault;
use crate::{Choice, Dump, Name, named_graph};
use ov_graph::Graph;
use ov_graphfile::named_graph_text;
use ov_ids::OutOfMemory;
use ov_io::Sink;
use std::alloc::Global;
use std::io::Write;

/// Writes the graph that follows from a dump as a graph file, in which a comment before each node says its name.
/// Control characters, and a backslash before `u{`, are shown by their codes, so no two nodes have one name. Nothing is
/// written if no graph follows: Refused says why. Write (72) is returned if writing failed, and OutOfMemory (99) if an
/// allocation was refused, before anything was written.
pub fn import_dump<W: Write>(
    alloc: Global,
    dump: &Dump,
    choice: Choice,
    sink: &mut Sink<W>,
) -> Result<(), ImportFault>
    requires { sink.old.faults < most_faults }
    ensures written { WasImported choice dump.now W.contents sink.old.writer sink.new.writer result }
    ensures failed { IfErr result (λ fault. fault ≡ write_failed → sink.new.faults ≡ sink.old.faults + 1) }
{
    let named = match named_graph(alloc, dump, choice) {
        Ok(named) => named,
        Err(fault) => return Err(ImportFault::Refused(fault)),
    };
    let text = text_of(alloc, &named.graph, named.names.as_slice())?;
    match sink.write_all(&text) {
        Ok(()) => Ok(()),
        Err(_) => Err(ImportFault::Write),
    }
}

/// The graph file of a graph whose nodes have these names.
fn text_of(alloc: Global, graph: &Graph, names: &[Name]) -> Result<Vec<u8>, OutOfMemory>
    requires each { length names.now ≡ length graph.now.nodes }
    ensures text { IfOk result (λ text. text.items ≡ named_graph_text graph.now (map shown_text names.now)) }
    ensures utf8 { OnOk result (AllByRecursion IsUtf8 names.now) }
{
    let shown = shown_names(alloc, names)?;
    named_graph_text(alloc, graph, &shown)
}

/// The names as they are shown.
fn shown_names(alloc: Global, names: &[Name]) -> Result<Vec<String>, OutOfMemory>
    ensures shown { IfOk result (λ shown. map (λ name. string_bytes name) shown.items ≡ map shown_text names.now) }
    ensures utf8 { OnOk result (AllByRecursion IsUtf8 names.now) }
{
    let mut shown = Vec::new(alloc);
    for name in names {
        shown.push(shown_name(alloc, name.as_str())?)?;
    }
    Ok(shown)
}
