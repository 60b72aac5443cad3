/// What is measured beside the numbers that each row has.
#[derive(Clone, Copy)]
pub struct Measures {
    /// What the broadcasts of each phase cost.
    pub costs: bool,
    /// The shape of the links of each phase's snapshot.
    pub shape: bool,
}
