ghost use Rattle.std.specs.Prelude.{IfErr, IfOk};
ghost use Rattle.ov_dot.specs.Readings.{IsRefused, SaysDump};

use crate::dump_making::make_dump;
use crate::fault::DotFault;
use crate::statement_reading::read_statements;
use crate::token_reading::read_tokens;
use ov_dump::Dump;
use std::alloc::Global;

/// The dump that a graph in DOT says, the language of Graphviz. A statement of a node gives its name an entry. Of an
/// edge `a -- b` both ends have entries, and each lists the other; of an edge `a -> b` the first end has an entry and
/// lists the second. A name has one entry, where it first stands. Attributes say nothing, and statements of subgraphs
/// count as those outside. UnreadLine (70) is returned if a line can't be read, with the line, counted from 1, and what
/// can't be read of it. OutOfMemory (99) is returned if an allocation was refused. The source is the page "The DOT
/// Language" of Graphviz; that a subgraph can't be the end of an edge is chosen here, and that a name such as
/// `10.0.0.1`, `oslo-1` or `oslo:7946`, which is more than one word, must stand in quotes.
#[tactic(auto, using(crate::proofs::Refusing::of_texts))]
pub fn read_dot(alloc: Global, text: &[u8]) -> Result<Dump, DotFault>
    ensures dump { IfOk result (λ dump. SaysDump text.now dump) }
    ensures fault { IfErr result (λ fault. IsRefused text.now fault) }
{
    let tokens = read_tokens(alloc, text)?;
    let said = read_statements(alloc, &tokens)?;
    make_dump(alloc, &said)
}
