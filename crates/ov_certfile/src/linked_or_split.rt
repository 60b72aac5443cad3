ghost use Rattle.std.specs.Prelude.{◌≡◌};
ghost use Rattle.ov_certfile.specs.Kinds.{verdict_text};

/// What a file claims of its group: every two members are linked, or some nodes split the group. It is the value at the
/// key `verdict`.
#[derive(Clone, Copy, Debug, PartialEq, Eq)]
pub enum Verdict {
    /// Every two members are linked.
    Linked,
    /// Some nodes split the group.
    Split,
}

impl Verdict {
    /// The text of the verdict in a file.
    pub(crate) fn text(self) -> &'static str
        ensures { result.now ≡ verdict_text self }
    {
        match self {
            Verdict::Linked => "linked",
            Verdict::Split => "split",
        }
    }
}
