ghost use Rattle.ov_dump.specs.Theorems.{OneGraph};

/// A dump and a choice fix the graph and the names that follow. Nothing is left to the code.
pub fn one_graph()
    ensures { OneGraph }
{}
