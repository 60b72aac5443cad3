use crate::component_ranking::RankedComponents;
use ov_drawing::{Band, DrawnNode, NodeClass};
use std::alloc::{AllocError, Global};
use std::ops::Range;

/// The nodes of each part of a picture, by their places in the order of nodes.
#[derive(Drop)]
pub(crate) struct Bands {
    /// All nodes of a linked certificate.
    pub(crate) whole: Vec<usize>,
    /// The near side, near first, component by component.
    pub(crate) side: Vec<usize>,
    pub(crate) cut: Vec<usize>,
    /// The other survivors, far first, component by component.
    pub(crate) far: Vec<usize>,
}

impl Bands {
    /// The parts of these nodes.
    pub(crate) fn new(
        alloc: Global,
        nodes: &[DrawnNode],
        components: &RankedComponents,
    ) -> Result<Bands, AllocError> {
        let mut bands = Bands {
            whole: members_of(alloc, nodes, Band::Whole, NodeClass::Unparted)?,
            side: members_of(alloc, nodes, Band::Side, NodeClass::Near)?,
            cut: members_of(alloc, nodes, Band::Cut, NodeClass::Cut)?,
            far: members_of(alloc, nodes, Band::Far, NodeClass::Far)?,
        };
        bands.side.sort_by_key(|at| rank_of(components, *at))?;
        bands.far.sort_by_key(|at| rank_of(components, *at))?;
        Ok(bands)
    }
}

/// The rank of the component of the node at a place.
fn rank_of(components: &RankedComponents, at: usize) -> usize {
    components.of(at).map_or(0, |component| component.rank)
}

/// The nodes of a part, from the first node of this class on, and then those before it.
fn members_of(
    alloc: Global,
    nodes: &[DrawnNode],
    band: Band,
    first: NodeClass,
) -> Result<Vec<usize>, AllocError> {
    let start = nodes
        .iter()
        .position(|node| node.class == first)
        .unwrap_or(0);
    let mut members = Vec::new(alloc);
    push_members(&mut members, nodes, band, start..nodes.len())?;
    push_members(&mut members, nodes, band, 0..start)?;
    Ok(members)
}

/// Appends the nodes of a part that are at places of this range.
fn push_members(
    members: &mut Vec<usize>,
    nodes: &[DrawnNode],
    band: Band,
    places: Range<usize>,
) -> Result<(), AllocError> {
    for at in places {
        if let Some(node) = nodes.get(at)
            && node.class.band() == band
        {
            members.push(at)?;
        }
    }
    Ok(())
}
