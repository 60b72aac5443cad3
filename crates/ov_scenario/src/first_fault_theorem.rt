ghost use Rattle.ov_scenario.specs.Scenarios.{FirstLineHasTheFault};

/// The line whose fault a scenario file has is the first of its lines at fault, and a file with a fault says no
/// scenario.
pub fn first_line_has_the_fault()
    ensures { FirstLineHasTheFault }
{}
