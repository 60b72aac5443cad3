//! A judge of the paths that a piece asks for, which knows lists of ids and links and nothing else.
use ov_fans::Piece;
use ov_graph::Graph;
use ov_ids::{NodeId, is_ascending};
use ov_lists::Paths;
use std::alloc::{AllocError, Global};

/// Where paths lead: from a node to another one, or else to members of a group that are lower than it.
#[derive(Clone, Copy)]
pub(crate) struct Sought<'a> {
    from: NodeId,
    other: Option<NodeId>,
    group: &'a [NodeId],
}

/// The member at a place, counted from 1.
fn member(group: &[NodeId], place: u16) -> Option<NodeId> {
    let before = (place as usize).checked_sub(1)?;
    group.get(before).copied()
}

impl<'a> Sought<'a> {
    /// Where the paths of a piece lead, unless a member that it names is not there.
    pub(crate) fn of(group: &'a [NodeId], piece: Piece) -> Option<Sought<'a>> {
        let from = member(group, piece.source())?;
        let other = match piece {
            Piece::Pair { j, .. } => Some(member(group, j)?),
            Piece::Fan { .. } => None,
        };
        Some(Sought { from, other, group })
    }

    fn ends_at(&self, end: NodeId) -> bool {
        match self.other {
            Some(other) => end == other,
            None => end < self.from && self.group.contains(&end),
        }
    }

    /// Each node of the list is linked to the next one, from the node where paths begin to one where they end.
    fn leads(&self, graph: &Graph, path: &[NodeId]) -> bool {
        for (node, next) in path.iter().zip(path.iter().skip(1)) {
            if !graph.linked(*node, *next) {
                return false;
            }
        }
        match path.last() {
            Some(end) => path.first().copied() == Some(self.from) && self.ends_at(*end),
            None => false,
        }
    }

    /// The nodes of a path that no other path may have: not the first one, nor the other node to which all lead.
    fn own<'p>(&self, path: &'p [NodeId]) -> &'p [NodeId] {
        let after = match path.split_first() {
            Some((_, after)) => after,
            None => path,
        };
        match after.split_last() {
            Some((_, inner)) if self.other.is_some() => inner,
            _ => after,
        }
    }

    /// The nodes that all paths have, and each path's own ones, ascending.
    fn nodes_once(&self, alloc: Global, paths: &Paths) -> Result<Vec<NodeId>, AllocError> {
        let mut nodes = Vec::new(alloc);
        nodes.push(self.from)?;
        if let Some(other) = self.other {
            nodes.push(other)?;
        }
        for path in paths.iter() {
            nodes.extend_from_slice(self.own(path))?;
        }
        nodes.sort_unstable();
        Ok(nodes)
    }

    /// These are paths over links, which lead from where they begin to where they end. They have no other node in
    /// common, none has a node twice, and none meets a node of `off`.
    pub(crate) fn are_paths(
        &self,
        alloc: Global,
        graph: &Graph,
        paths: &Paths,
        off: &[u32],
    ) -> Result<bool, AllocError> {
        for path in paths.iter() {
            if !self.leads(graph, path) {
                return Ok(false);
            }
        }
        let nodes = self.nodes_once(alloc, paths)?;
        Ok(is_ascending(&nodes) && is_off(&nodes, off))
    }
}

fn is_off(nodes: &[NodeId], off: &[u32]) -> bool {
    for node in nodes {
        if off.contains(&node.number()) {
            return false;
        }
    }
    true
}
