ghost use Rattle.ov_net.specs.Theorems.{LinksStay, OneGraph, OneStep};

/// Entries that come later do not change the graph after the first entries of a journal.
pub fn links_stay()
    ensures { LinksStay }
{}

/// After the first entries of a journal there is at most one graph.
pub fn one_graph()
    ensures { OneGraph }
{}

/// A world, an event and its random words fix the next world and the event's entry. Nothing is left to the code.
pub fn one_step()
    ensures { OneStep }
{}
