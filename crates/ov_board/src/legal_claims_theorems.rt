ghost use Rattle.ov_board.specs.Theorems.{EndsDone, StaysLegal};

/// The claims are legal before the first claim, and each of the three steps keeps them legal.
pub fn stays_legal()
    ensures { StaysLegal }
{}

/// If there is a worker and all workers have ended, every number below `least` was claimed and not skipped. `least` is
/// then the lowest number that failed, or the total if none failed.
pub fn ends_done()
    ensures { EndsDone }
{}
