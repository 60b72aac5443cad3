ghost use Rattle.std.specs.Prelude.{◌≡◌};
ghost use Rattle.ov_graph.specs.Links.{most_of};

use crate::graph::Graph;

/// How many nodes a graph may have. (Chosen here.)
#[derive(Clone, Copy)]
pub enum SizeLimit {
    /// As many as `Graph::new` takes: 1,024.
    Usual,
    /// As many as any graph may have: 32,768.
    Large,
}

impl SizeLimit {
    /// The most nodes within the limit.
    pub fn most(self) -> usize
        ensures { result ≡ most_of self }
    {
        match self {
            SizeLimit::Usual => Graph::MOST_NODES,
            SizeLimit::Large => Graph::MOST_OF_ANY,
        }
    }
}
