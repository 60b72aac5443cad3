ghost use Rattle.std.specs.Prelude.{◌≡◌};
ghost use Rattle.ov_run_meaning.specs.Strict.{strictness_of};

/// What a run does when a line is refused as it runs.
#[derive(Clone, Copy, Debug, PartialEq, Eq)]
pub enum Strictness {
    /// The number of the refusal is printed, and the run goes on.
    Lenient,
    /// Nothing is printed of the line, and the run ends.
    Strict,
}

impl Strictness {
    /// What a run does for which strictness is asked, or not.
    pub fn of(is_strict: bool) -> Strictness
        ensures { result ≡ strictness_of is_strict }
    {
        if is_strict {
            Strictness::Strict
        } else {
            Strictness::Lenient
        }
    }
}
