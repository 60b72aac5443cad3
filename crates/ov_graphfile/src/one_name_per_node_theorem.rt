ghost use Rattle.ov_graphfile.specs.Theorems.{OneName};

/// A file that says a graph gives a node one name at most.
pub fn one_name()
    ensures { OneName }
{}
