use ov_graph::{Graph, GraphFault};
use ov_ids::NodeId;
use std::alloc::Global;
use std::fmt::{Display, Formatter, Result as Written, Write};

/// The routers. The id of a router is its place here.
static ROUTERS: [&str; 7] = [
    "Aarau",
    "Bern",
    "Chur",
    "Davos",
    "Engelberg",
    "Flims",
    "Glarus",
];

/// The cables, each from a router to a later one, in order.
static CABLES: [(u32, u32); 10] = [
    (0, 1),
    (0, 2),
    (0, 4),
    (1, 2),
    (1, 3),
    (2, 3),
    (3, 5),
    (3, 6),
    (4, 5),
    (5, 6),
];

/// The routers that have an office, in order.
pub(crate) static OFFICES: [u32; 4] = [0, 2, 5, 6];

/// The network. It is refused if the table of cables is not in order.
pub(crate) fn network(alloc: Global) -> Result<Graph, GraphFault> {
    let mut nodes = Vec::new(alloc);
    for place in 0..ROUTERS.len() {
        nodes.push(NodeId(place as u32))?;
    }
    let links = CABLES.map(|(low, high)| (NodeId(low), NodeId(high)));
    Graph::new(alloc, &nodes, &links)
}

/// The names of these routers.
#[derive(Drop)]
pub(crate) struct Names<'a>(pub(crate) &'a [NodeId]);

impl<'a> Display for Names<'a> {
    fn fmt<W: Write>(&self, f: &mut Formatter<W>) -> Written {
        for id in self.0 {
            let name = ROUTERS.get(id.number() as usize).unwrap_or(&"?");
            write!(f, " {name}")?;
        }
        Ok(())
    }
}
