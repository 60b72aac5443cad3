ghost use Rattle.std.specs.Prelude.{◌↔◌, ◌≢◌, ℕ, List, IfNone, IfOk, IfSome, IsTrue};
ghost use Rattle.ov_ids.specs.Members.{Ascends, Has};
ghost use Rattle.ov_graph.specs.Links.{HasNode};
ghost use Rattle.ov_articulations.specs.Articulations.{HasArticulations, IsArticulation};

use crate::largest_of_components::{component_at, largest_of};
use ov_components::{Components, components_without};
use ov_graph::{Graph, is_member};
use ov_ids::{NodeId, OutOfMemory};
use std::alloc::Global;

/// How many articulation points the largest component of a graph has, which must have a node. Of several components as
/// large, the one with the smallest id is meant. The components that are left are found anew for each member.
/// OutOfMemory (99) if an allocation is refused.
pub fn articulation_points(alloc: Global, graph: &Graph) -> Result<usize, OutOfMemory>
    requires { HasNode graph.now }
    ensures { IfOk result (HasArticulations graph.now) }
{
    let components = components_without(alloc, graph, &[])?;
    let largest = largest_of(&components);
    let mut count = 0;
    for node in largest {
        let is_point = is_articulation(alloc, graph, largest, *node)?;
        if is_point {
            count += 1;
        }
    }
    Ok(count)
}

/// Whether a member of a component is an articulation point.
fn is_articulation(
    alloc: Global,
    graph: &Graph,
    component: &[NodeId],
    node: NodeId,
) -> Result<bool, OutOfMemory>
    requires nodes { (x : ℕ) → Has component.now x → Has graph.now.nodes x }
    requires member { Has component.now node }
    ensures { IfOk result (λ is. IsTrue is ↔ IsArticulation graph.now component.now node) }
{
    let Some(start) = other_outside(component, node, &[]) else {
        return Ok(false);
    };
    let parts = components_without(alloc, graph, &[node])?;
    match other_outside(component, node, part_with(&parts, start)) {
        Some(_) => Ok(true),
        None => Ok(false),
    }
}

/// The first member of a component, other than this node, that is in no such part.
fn other_outside(component: &[NodeId], node: NodeId, part: &[NodeId]) -> Option<NodeId>
    requires { Ascends part.now }
    ensures some { IfSome result (λ x. Has component.now x × (x ≢ node) × ¬ Has part.now x) }
    ensures none { IfNone result ((x : ℕ) → Has component.now x → x ≢ node → Has part.now x) }
{
    for other in component {
        if *other != node && !is_member(part, *other) {
            return Some(*other);
        }
    }
    None
}

/// The part that has a node, which must be in one.
fn part_with(parts: &Components, node: NodeId) -> &[NodeId]
    requires ascend { (p : List ℕ) → Has parts.now p → Ascends p }
    requires there { (p : List ℕ) × Has parts.now p × Has p node }
    ensures part { Has parts.now result.now }
    ensures member { Has result.now node }
{
    for place in 0..parts.len() {
        let part = component_at(parts, place);
        if is_member(part, node) {
            return part;
        }
    }
    unreachable!()
}
