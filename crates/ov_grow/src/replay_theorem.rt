ghost use Rattle.ov_grow.specs.Theorems.{EveryRunRefusesNothing};

/// The main theorem. If each line of a scenario was accepted when its core was made, a run of the scenario refuses no
/// line: it prints the line of each entry and of each report, and it makes the same world, the same snapshots, and
/// reports about the same moments, graphs and groups with the same number, cut, near, far and side; or else memory ran
/// out at a line, which is then refused with 99 though no refusal applies to it, and all lines before it were accepted.
/// However a run ends, what it has printed until then are the lines of accepted events and analyses, or memory ran out.
/// And lines that are accepted print one text and make one world.
pub fn every_run_refuses_nothing()
    ensures { EveryRunRefusesNothing }
{}
