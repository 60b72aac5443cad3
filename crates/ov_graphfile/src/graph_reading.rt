ghost use Rattle.std.specs.Prelude.{◌≡◌, ◌≤◌, ◌++◌, ◌∷◌, [], ℕ, List, Option, Some, None, false, length, map, take};
ghost use Rattle.std.specs.Prelude.{is_none, IfOk, IfErr, OnOk};
ghost use Rattle.std.specs.Option.{option_copied};
ghost use Rattle.std.specs.Str.Lines.{lines};
ghost use Rattle.ov_ids.specs.FaultOrder.{IsRefusedBy};
ghost use Rattle.ov_graph.specs.Faults.{JudgedWithin};
ghost use Rattle.ov_graph.specs.Links.{most_of};
ghost use Rattle.ov_graph.specs.declared.fault.GraphFault.TheVariants.{OutOfMemory as out_of_memory};
ghost use Rattle.ov_lines.specs.Lines.{is_skipped};
ghost use Rattle.ov_graphfile.specs.GraphFiles.{graph_line, graph_lines, node_said, link_said, nodes_said, links_said};
ghost use Rattle.ov_graphfile.specs.GraphFiles.{unread_lines, IsGraphFile, IsGraphFileFault};
ghost use Rattle.ov_graphfile.specs.NameLines.{AreNamesOf};
ghost use Rattle.ov_graphfile.specs.NamesState.{names_of};
ghost use Rattle.ov_graphfile.specs.Code.Told.{name_by, names_in};
ghost use Rattle.ov_graphfile.specs.Code.UnreadAt.{IsUnreadAt};

use crate::fault::{GraphFileFault, UnreadLine};
use crate::graph_line::{GraphLine, read_graph_line};
use crate::line_finding::line_at_fault;
use crate::name_comment_reading::name_by;
use ov_graph::{Graph, GraphFault, SizeLimit};
use ov_ids::{NodeId, OutOfMemory};
use ov_lines::{LineCursor, split_line};
use std::alloc::Global;

/// The nodes and the links that lines say, in order, and the names of the nodes.
#[derive(Drop)]
struct Parts<'a> {
    nodes: Vec<NodeId>,
    links: Vec<(NodeId, NodeId)>,
    /// The names of the first nodes, each at the place of its node: of as many as the graph may have.
    told: Vec<Option<&'a [u8]>>,
}

impl<'a> Parts<'a> {
    /// No nodes and no links.
    fn new(alloc: Global) -> Parts<'a>
        ensures nodes { result.nodes.items ≡ [] }
        ensures links { result.links.items ≡ [] }
        ensures told { map (λ t. option_copied t) result.told.items ≡ [] }
    {
        Parts {
            nodes: Vec::new(alloc),
            links: Vec::new(alloc),
            told: Vec::new(alloc),
        }
    }

    /// Adds what the next line says, behind the line `before`. Names are kept of `most` nodes.
    fn add(&mut self, most: usize, line: GraphLine, before: &'a [u8]) -> Result<(), OutOfMemory>
        ensures nodes { OnOk result (self.new.nodes.items ≡ self.old.nodes.items ++ node_said (Some line)) }
        ensures links { OnOk result (self.new.links.items ≡ self.old.links.items ++ link_said (Some line)) }
        ensures told { OnOk result ((names : List (Option (List ℕ)))
            → map (λ t. option_copied t) self.old.told.items ≡ take most names
            → map (λ t. option_copied t) self.new.told.items
            ≡ take most (names ++ map (name_by before.now) (node_said (Some line)))) }
    {
        match line {
            GraphLine::Node(node) => {
                self.nodes.push(node)?;
                self.tell(most, name_by(before, node))?;
            }
            GraphLine::Link(from, to) => self.links.push((from, to))?,
        }
        Ok(())
    }

    /// Adds the name of the next node, or that it has none, unless there are those of `most` nodes.
    fn tell(&mut self, most: usize, name: Option<&'a [u8]>) -> Result<(), OutOfMemory>
        ensures nodes { self.new.nodes ≡ self.old.nodes }
        ensures links { self.new.links ≡ self.old.links }
        ensures told { OnOk result ((names : List (Option (List ℕ)))
            → map (λ t. option_copied t) self.old.told.items ≡ take most names
            → map (λ t. option_copied t) self.new.told.items
            ≡ take most (names ++ option_copied name.entry ∷ [])) }
    {
        if self.told.len() < most {
            self.told.push(name)?;
        }
        Ok(())
    }

    /// Adds what a line says, unless it is skipped. It has this number, and `before` is the line before it. Names are
    /// kept of `most` nodes.
    fn take(
        &mut self,
        most: usize,
        number: usize,
        line: &[u8],
        before: &'a [u8],
    ) -> Result<(), GraphFileFault>
        ensures nodes { OnOk result (self.new.nodes.items ≡ self.old.nodes.items ++ node_said (graph_line line.now)) }
        ensures links { OnOk result (self.new.links.items ≡ self.old.links.items ++ link_said (graph_line line.now)) }
        ensures told { OnOk result ((names : List (Option (List ℕ)))
            → map (λ t. option_copied t) self.old.told.items ≡ take most names
            → map (λ t. option_copied t) self.new.told.items
            ≡ take most (names ++ map (name_by before.now) (node_said (graph_line line.now)))) }
        ensures readable { OnOk result (is_skipped line.now ≡ false → is_none (graph_line line.now) ≡ false) }
        ensures fault { IfErr result (IsUnreadAt number line.now) }
    {
        if is_skipped(line) {
            return Ok(());
        }
        match read_graph_line(line) {
            Ok(says) => {
                self.add(most, says, before)?;
                Ok(())
            }
            Err(unread) => Err(GraphFileFault::Line(UnreadLine {
                line: number,
                unread,
            })),
        }
    }
}

/// Whether a line has no word, or is a comment.
fn is_skipped(text: &[u8]) -> bool
    ensures { result ≡ is_skipped text.now }
{
    match LineCursor::new(text).word() {
        None => true,
        Some(name) => name.starts_with(b"#"),
    }
}

/// Reads a graph file, whose form is chosen here, and returns the graph that it says. Line (70) is returned for the
/// first line that can't be read, which is neither `node N` nor `link A B` with ids of 32 bits: the first of
/// `unread_lines`. Graph (31 to 33) is returned if each line can be read, and the nodes and the links, each in the
/// order of the file, are no graph of at most as many nodes as the limit says. OutOfMemory (99) is returned if an
/// allocation was refused.
pub fn read_graph(alloc: Global, limit: SizeLimit, bytes: &[u8]) -> Result<Graph, GraphFileFault>
    ensures graph { IfOk result (IsGraphFile bytes.now) }
    ensures within { IfOk result (λ g. length g.nodes ≤ most_of limit) }
    ensures fault { IfErr result (IsGraphFileFault limit bytes.now) }
{
    match read_named_graph(alloc, limit, bytes) {
        Ok((graph, _told)) => Ok(graph),
        Err(fault) => Err(fault),
    }
}

/// Does what `read_graph` does, and returns beside the graph the names that the file keeps of its nodes, as
/// `read_names` does: each at the place of its node, as `Names::new` takes them. Each line is read once.
pub fn read_named_graph(
    alloc: Global,
    limit: SizeLimit,
    bytes: &[u8],
) -> Result<(Graph, Vec<Option<&[u8]>>), GraphFileFault>
    ensures graph { IfOk result (λ read. IsGraphFile bytes.now read.0) }
    ensures within { IfOk result (λ read. length read.0.nodes ≤ most_of limit) }
    ensures names { IfOk result (λ read. AreNamesOf bytes.now read.0
        (names_of read.0 (map (λ t. option_copied t) read.1.items))) }
    ensures places { IfOk result (λ read. length read.1.items ≡ length read.0.nodes) }
    ensures fault { IfErr result (IsGraphFileFault limit bytes.now) }
{
    let Parts { nodes, links, told } = match read_parts(alloc, limit, bytes) {
        Ok(parts) => parts,
        Err(fault) => return Err(fault),
    };
    match Graph::within(alloc, limit, &nodes, &links) {
        Ok(graph) => Ok((graph, told)),
        Err(fault) => Err(fault_of_file(limit, bytes, fault)),
    }
}

/// What the lines of a graph file say, with the names of as many nodes as the limit says, or the first line that can't
/// be read.
fn read_parts(alloc: Global, limit: SizeLimit, bytes: &[u8]) -> Result<Parts<'_>, GraphFileFault>
    ensures readable { OnOk result (unread_lines bytes.now ≡ []) }
    ensures nodes { IfOk result (λ parts. parts.nodes.items ≡ nodes_said (graph_lines bytes.now)) }
    ensures links { IfOk result (λ parts. parts.links.items ≡ links_said (graph_lines bytes.now)) }
    ensures told { IfOk result (λ parts. map (λ t. option_copied t) parts.told.items
        ≡ take (most_of limit) (names_in [] (lines bytes.now))) }
    ensures fault { IfErr result (IsGraphFileFault limit bytes.now) }
{
    let most = limit.most();
    let mut parts = Parts::new(alloc);
    let mut before: &[u8] = &[];
    let mut left = bytes;
    let mut count = 0;
    while !left.is_empty() {
        let (line, later) = split_line(left);
        count += 1;
        match parts.take(most, count, line, before) {
            Ok(()) => {}
            Err(fault) => return Err(fault),
        }
        before = line;
        left = later;
    }
    Ok(parts)
}

/// The fault of a file whose nodes and links are refused with this fault as a graph. Out of memory alone has no line.
fn fault_of_file(limit: SizeLimit, bytes: &[u8], fault: GraphFault) -> GraphFileFault
    requires readable { unread_lines bytes.now ≡ [] }
    requires refused { IsRefusedBy out_of_memory
        (JudgedWithin (most_of limit) (nodes_said (graph_lines bytes.now)) (links_said (graph_lines bytes.now))) fault }
    ensures fault { IsGraphFileFault limit bytes.now result }
    ensures memory { (result ≡ GraphFileFault.OutOfMemory) → (fault ≡ out_of_memory) }
{
    match line_at_fault(bytes, &fault) {
        Some(line) => GraphFileFault::Graph { fault, line },
        None => GraphFileFault::OutOfMemory,
    }
}
