ghost use Rattle.std.specs.Prelude.{◌≡◌, ◌++◌, length, map, string_bytes, IfOk, OnOk};
ghost use Rattle.std.specs.List.{AllByRecursion, flat_map, zip};
ghost use Rattle.ov_graphfile.specs.GraphFiles.{IsGraphFile};
ghost use Rattle.ov_graphfile.specs.GraphTexts.{IsOnOneLine, graph_text, link_line, named_graph_text};
ghost use Rattle.ov_graphfile.specs.GraphTexts.{named_node_line, node_line};
ghost use Rattle.ov_graphfile.specs.Code.Ids.{AreIds};

use crate::line_writing::{write_link, write_named_node, write_node};
use ov_graph::Graph;
use ov_ids::{NodeId, OutOfMemory};
use std::alloc::{AllocError, Global};

/// The graph file that says this graph: a line `node N` for each node, ascending, and then a line `link A B` for each
/// link, ascending. (The order is chosen here.) OutOfMemory (99) is returned if an allocation was refused.
#[tactic(auto, using(crate::proofs::Sayings::text_says))]
pub fn graph_text(alloc: Global, graph: &Graph) -> Result<Vec<u8>, OutOfMemory>
    ensures text { IfOk result (λ t. t.items ≡ graph_text graph.now) }
    ensures says { IfOk result (λ t. IsGraphFile t.items graph.now) }
{
    let mut text = Vec::new(alloc);
    write_nodes(&mut text, graph.nodes())?;
    write_links(&mut text, graph)?;
    Ok(text)
}

/// The same as `graph_text`, with a comment `# N NAME` before the line of each node, which names it. The names stand in
/// the order of the nodes. OutOfMemory (99) is returned if an allocation was refused.
pub fn named_graph_text(
    alloc: Global,
    graph: &Graph,
    names: &[String],
) -> Result<Vec<u8>, OutOfMemory>
    requires each { length names.now ≡ length graph.now.nodes }
    requires lines { AllByRecursion (λ name. IsOnOneLine (string_bytes name)) names.now }
    ensures text { IfOk result
        (λ t. t.items ≡ named_graph_text graph.now (map (λ name. string_bytes name) names.now)) }
    ensures says { IfOk result (λ t. IsGraphFile t.items graph.now) }
{
    let mut text = Vec::new(alloc);
    write_named_nodes(&mut text, graph.nodes(), names)?;
    write_links(&mut text, graph)?;
    Ok(text)
}

/// Appends a line for each node, behind a comment with its name.
fn write_named_nodes(
    text: &mut Vec<u8>,
    nodes: &[NodeId],
    names: &[String],
) -> Result<(), AllocError>
    requires each { length names.now ≡ length nodes.now }
    ensures items { OnOk result (text.new.items ≡ text.old.items
        ++ flat_map named_node_line (zip nodes.now (map (λ name. string_bytes name) names.now))) }
    ensures ids { OnOk result (AreIds nodes.now) }
{
    for (node, name) in nodes.iter().zip(names) {
        write_named_node(text, *node, name.as_str())?;
    }
    Ok(())
}

/// Appends a line for each node.
fn write_nodes(text: &mut Vec<u8>, nodes: &[NodeId]) -> Result<(), AllocError>
    ensures items { OnOk result (text.new.items ≡ text.old.items ++ flat_map node_line nodes.now) }
    ensures ids { OnOk result (AreIds nodes.now) }
{
    for node in nodes {
        write_node(text, *node)?;
    }
    Ok(())
}

/// Appends a line for each link of a graph.
fn write_links(text: &mut Vec<u8>, graph: &Graph) -> Result<(), AllocError>
    ensures { OnOk result (text.new.items ≡ text.old.items ++ flat_map link_line graph.now.links) }
{
    for (from, to) in graph.links() {
        write_link(text, from, to)?;
    }
    Ok(())
}
