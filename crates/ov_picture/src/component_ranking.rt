use ov_drawing::{Drawing, DrawnNode, NodeClass};
use ov_ids::NodeId;
use std::alloc::{AllocError, Global};

/// A connected component that the crash leaves.
#[derive(Clone, Copy)]
pub(crate) struct Component {
    /// Its number, from 1, in the order of the lowest ids, as `overlay analyse` counts.
    pub(crate) number: usize,
    /// How many nodes it has.
    pub(crate) size: usize,
    /// Which node of the picture it has, if it has near or far.
    pub(crate) with: Main,
    /// Its rank, from 0: near's is first, then comes that of far, and then the others, the largest first.
    pub(crate) rank: usize,
}

/// A node that gives a component its rank.
#[derive(Clone, Copy)]
pub(crate) enum Main {
    Near,
    Far,
    Neither,
}

/// A component by what ranks it: whether it has near, far or neither, how few nodes it has, and its place in the order
/// of numbers.
type Ranked = (usize, usize, usize);

/// The connected components that the crash leaves, which are none if every two members are linked.
#[derive(Drop)]
pub(crate) struct RankedComponents {
    /// The components in the order of their numbers.
    all: Vec<Component>,
    /// The same components in the order of their ranks.
    ranked: Vec<Ranked>,
    /// The place in `all` of the component of each node, in the order of nodes. A node of the cut has none.
    places: Vec<Option<usize>>,
}

impl RankedComponents {
    /// The components of the survivors of a drawing.
    pub(crate) fn new(alloc: Global, drawing: &Drawing) -> Result<RankedComponents, AllocError> {
        let nodes = drawing.nodes.as_slice();
        let mut components = RankedComponents {
            all: Vec::with_capacity(alloc, drawing.components.len())?,
            ranked: Vec::new(alloc),
            places: Vec::with_capacity(alloc, nodes.len())?,
        };
        components.places.resize(nodes.len(), None)?;
        for place in 0..drawing.components.len() {
            let members = drawing.components.get(place).unwrap_or(&[]);
            components.add(nodes, members)?;
        }
        components.ranked = ranked(alloc, &components.all)?;
        components.put_ranks();
        Ok(components)
    }

    /// How many components there are.
    pub(crate) fn len(&self) -> usize {
        self.all.len()
    }

    /// The component of this rank.
    pub(crate) fn ranked(&self, rank: usize) -> Option<Component> {
        let (_, _, place) = self.ranked.get(rank)?;
        self.all.get(*place).copied()
    }

    /// How many nodes the components have that are of this rank or a higher one.
    pub(crate) fn nodes_from(&self, rank: usize) -> usize {
        let mut nodes: usize = 0;
        for component in &self.all {
            if component.rank >= rank {
                nodes = nodes.saturating_add(component.size);
            }
        }
        nodes
    }

    /// The component of the node at a place.
    pub(crate) fn of(&self, at: usize) -> Option<Component> {
        let place = self.places.get(at).copied().flatten()?;
        self.all.get(place).copied()
    }

    /// Takes in the next component, which has these members.
    fn add(&mut self, nodes: &[DrawnNode], members: &[NodeId]) -> Result<(), AllocError> {
        let mut with = Main::Neither;
        for id in members {
            let at = place_of(nodes, id.0);
            if let Some(place) = self.places.get_mut(at) {
                *place = Some(self.all.len());
            }
            with = match nodes.get(at).map(|node| node.class) {
                Some(NodeClass::Near) => Main::Near,
                Some(NodeClass::Far) => Main::Far,
                _ => with,
            };
        }
        self.all.push(Component {
            number: self.all.len().saturating_add(1),
            size: members.len(),
            with,
            rank: 0,
        })?;
        Ok(())
    }

    /// Says of each component which rank it has.
    fn put_ranks(&mut self) {
        for (rank, (_, _, place)) in self.ranked.iter().enumerate() {
            if let Some(component) = self.all.get_mut(*place) {
                component.rank = rank;
            }
        }
    }
}

/// These components in the order of their ranks.
fn ranked(alloc: Global, all: &[Component]) -> Result<Vec<Ranked>, AllocError> {
    let mut found = Vec::with_capacity(alloc, all.len())?;
    for (place, component) in all.iter().enumerate() {
        let part: usize = match component.with {
            Main::Near => 0,
            Main::Far => 1,
            Main::Neither => 2,
        };
        found.push((part, usize::MAX - component.size, place))?;
    }
    found.sort_unstable();
    Ok(found)
}

/// The place of the node with this number, or 0.
pub(crate) fn place_of(nodes: &[DrawnNode], id: u32) -> usize {
    nodes
        .binary_search_by_key(&id, |node| node.id.0)
        .unwrap_or(0)
}
