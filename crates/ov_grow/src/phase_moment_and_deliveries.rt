/// How a phase ended.
#[derive(Clone, Copy, Debug, PartialEq, Eq)]
pub struct PhaseEnd {
    /// The moment of the snapshot, of which a report is filed.
    pub moment: u32,
    /// How many deliveries there were after it.
    pub deliveries: u32,
}
