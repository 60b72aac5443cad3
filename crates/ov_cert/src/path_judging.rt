ghost use Rattle.std.specs.Prelude.{◌≡◌, ◌≢◌, ◌≤◌, ◌*◌, [], ◌∷◌, ◌++◌, length, None, MatchOption};
ghost use Rattle.ov_ids.specs.Members.{Has, Ascends};
ghost use Rattle.ov_ids.specs.Sets.{adding};
ghost use Rattle.ov_graph.specs.Code.Tests.{are_joined};
ghost use Rattle.ov_cert.specs.Code.Tests.{entered, inner, steps};
ghost use Rattle.ov_cert.specs.Code.Flaws.{chain_flaw, pair_path_flaw, pair_paths_flaw, fan_path_flaw, fan_paths_flaw};

use crate::first_and_later_members::is_earlier;
use crate::node_set::NodeSet;
use crate::path_and_entry_flaws::{EntryFlaw, PathFlaw};
use ov_graph::Graph;
use ov_graph::bit_rows::{ALL_WORDS, WORDS};
use ov_ids::NodeId;
use ov_lists::Paths;

/// Whether two nodes are linked, as the test `are_joined` computes it.
pub(crate) fn are_linked(graph: &Graph, a: NodeId, b: NodeId) -> bool
    ensures { result ≡ are_joined graph.now.links a b }
{
    graph.linked(a, b)
}

/// The first step of a path over no link.
fn unlinked_step(graph: &Graph, path: &[NodeId]) -> Option<PathFlaw>
    ensures { result ≡ chain_flaw graph.now path.now }
{
    let (first, mut rest) = path.split_first()?;
    let mut at = *first;
    while let Some((next, more)) = rest.split_first() {
        if !are_linked(graph, at, *next) {
            return Some(PathFlaw::NoLink(at, *next));
        }
        at = *next;
        rest = more;
    }
    None
}

/// The parts of a path: its first and last node, the nodes after the first, and the nodes between the ends.
#[derive(Drop)]
struct Ends<'p> {
    first: NodeId,
    rest: &'p [NodeId],
    inside: &'p [NodeId],
    last: NodeId,
}

/// The parts of a path. None if it has fewer than two nodes.
fn ends_of(path: &[NodeId]) -> Option<Ends<'_>>
    ensures { MatchOption result (length path.now ≤ 1) (λ e. (path.now ≡ e.first ∷ e.rest.now)
        × (e.rest.now ≡ e.inside.now ++ e.last ∷ [])) }
{
    let (first, rest) = path.split_first()?;
    let (last, inside) = rest.split_last()?;
    Some(Ends {
        first: *first,
        rest,
        inside,
        last: *last,
    })
}

/// What is wrong with a path that should lead from `i` to `j` over links and unused inner nodes. If it is right, its
/// inner nodes are then marked as used.
fn take_pair_path<const W: usize>(
    graph: &Graph,
    used: &mut NodeSet<'_, W>,
    i: NodeId,
    j: NodeId,
    path: &[NodeId],
) -> Option<PathFlaw>
    requires { used.old.graph ≡ graph.now }
    ensures graph { used.new.graph ≡ graph.now }
    ensures flaw { result ≡ pair_path_flaw graph.now used.old.members i j path.now }
    ensures used { result ≡ None → used.new.members ≡ entered used.old.members (inner path.now) }
{
    let Some(ends) = ends_of(path) else {
        return Some(PathFlaw::TooShort);
    };
    if ends.first != i {
        return Some(PathFlaw::BeginsAt(ends.first));
    }
    if ends.last != j {
        return Some(PathFlaw::EndsAt(ends.last));
    }
    if let Some(flaw) = unlinked_step(graph, path) {
        return Some(flaw);
    }
    match used.enter_all(ends.inside) {
        Some(id) => Some(PathFlaw::Taken(id)),
        None => None,
    }
}

/// The first of the paths that is wrong. They should lead from `i` to `j` and share only `i` and `j`.
pub(crate) fn flaw_of_paths(graph: &Graph, i: NodeId, j: NodeId, paths: &Paths) -> Option<EntryFlaw>
    requires i { Has graph.now.nodes i }
    requires j { Has graph.now.nodes j }
    requires differ { i ≢ j }
    ensures { result ≡ pair_paths_flaw graph.now (adding j (i ∷ [])) i j 0 paths.now }
{
    if graph.nodes().len() <= Graph::MOST_NODES {
        let mut used: NodeSet<'_, WORDS> = NodeSet::new(graph);
        return flaw_of_paths_by(graph, &mut used, i, j, paths);
    }
    prove!(graph.nodes().len() <= Graph::MOST_OF_ANY);
    let mut used: NodeSet<'_, ALL_WORDS> = NodeSet::new(graph);
    flaw_of_paths_by(graph, &mut used, i, j, paths)
}

/// The same, by a set that is empty at first.
fn flaw_of_paths_by<const W: usize>(
    graph: &Graph,
    used: &mut NodeSet<'_, W>,
    i: NodeId,
    j: NodeId,
    paths: &Paths,
) -> Option<EntryFlaw>
    requires used { used.old ≡ record { graph = graph.now; members = [] } }
    requires i { Has graph.now.nodes i }
    requires j { Has graph.now.nodes j }
    requires differ { i ≢ j }
    ensures { result ≡ pair_paths_flaw graph.now (adding j (i ∷ [])) i j 0 paths.now }
{
    used.enter(i);
    used.enter(j);
    for (at, path) in paths.iter().enumerate() {
        if let Some(flaw) = take_pair_path(graph, used, i, j, path) {
            return Some(EntryFlaw::Path { at, flaw });
        }
    }
    None
}

/// What is wrong with a path that should lead from `j` over links and unused nodes to a member below `j`. If it is
/// right, its nodes are then marked as used.
fn take_fan_path<const W: usize>(
    graph: &Graph,
    group: &[NodeId],
    used: &mut NodeSet<'_, W>,
    j: NodeId,
    path: &[NodeId],
) -> Option<PathFlaw>
    requires graph { used.old.graph ≡ graph.now }
    requires group { Ascends group.now }
    ensures graph { used.new.graph ≡ graph.now }
    ensures flaw { result ≡ fan_path_flaw graph.now group.now used.old.members j path.now }
    ensures used { result ≡ None → used.new.members ≡ entered used.old.members (steps path.now) }
{
    let Some(ends) = ends_of(path) else {
        return Some(PathFlaw::TooShort);
    };
    if ends.first != j {
        return Some(PathFlaw::BeginsAt(ends.first));
    }
    if !is_earlier(group, j, ends.last) {
        return Some(PathFlaw::EndsAt(ends.last));
    }
    if let Some(flaw) = unlinked_step(graph, path) {
        return Some(flaw);
    }
    match used.enter_all(ends.rest) {
        Some(id) => Some(PathFlaw::Taken(id)),
        None => None,
    }
}

/// The first of the paths that is wrong. They should lead from `j` to members below `j` and share only `j`.
pub(crate) fn flaw_of_fan(
    graph: &Graph,
    group: &[NodeId],
    j: NodeId,
    paths: &Paths,
) -> Option<EntryFlaw>
    requires group { Ascends group.now }
    requires j { Has graph.now.nodes j }
    ensures { result ≡ fan_paths_flaw graph.now group.now (j ∷ []) j 0 paths.now }
{
    if graph.nodes().len() <= Graph::MOST_NODES {
        let mut used: NodeSet<'_, WORDS> = NodeSet::new(graph);
        return flaw_of_fan_by(graph, group, &mut used, j, paths);
    }
    prove!(graph.nodes().len() <= Graph::MOST_OF_ANY);
    let mut used: NodeSet<'_, ALL_WORDS> = NodeSet::new(graph);
    flaw_of_fan_by(graph, group, &mut used, j, paths)
}

/// The same, by a set that is empty at first.
fn flaw_of_fan_by<const W: usize>(
    graph: &Graph,
    group: &[NodeId],
    used: &mut NodeSet<'_, W>,
    j: NodeId,
    paths: &Paths,
) -> Option<EntryFlaw>
    requires used { used.old ≡ record { graph = graph.now; members = [] } }
    requires group { Ascends group.now }
    requires j { Has graph.now.nodes j }
    ensures { result ≡ fan_paths_flaw graph.now group.now (j ∷ []) j 0 paths.now }
{
    used.enter(j);
    for (at, path) in paths.iter().enumerate() {
        if let Some(flaw) = take_fan_path(graph, group, used, j, path) {
            return Some(EntryFlaw::Path { at, flaw });
        }
    }
    None
}
