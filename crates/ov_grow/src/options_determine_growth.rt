ghost use Rattle.ov_grow.specs.Growing.{LogChangesNothing, OneGrowth};

/// The options alone decide what is grown: the text, the world and the phases.
pub fn one_growth()
    ensures { OneGrowth }
{}

/// A log of broadcasts that is kept changes nothing else: the text, the world and the phases are those of growing that
/// keeps none.
pub fn log_changes_nothing()
    ensures { LogChangesNothing }
{}
