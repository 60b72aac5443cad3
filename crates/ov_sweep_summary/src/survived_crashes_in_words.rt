use std::fmt::{Display, Formatter, Result, Write};

/// The number of an overlay. It is shown in words, with how many crashes the overlay survives.
#[derive(Clone, Copy)]
pub struct Survival {
    /// The fewest crashes that split it, 0 if it is split or has a single node.
    pub k: u32,
    /// Whether k 0 means that it is split.
    pub is_split: bool,
}

impl Display for Survival {
    fn fmt<W: Write>(&self, f: &mut Formatter<W>) -> Result {
        match self.k {
            0 if self.is_split => write!(f, "k 0: split already, so it survives none"),
            0 => write!(f, "k 0: a single node"),
            1 => write!(f, "k 1: one crash may split it, so it survives none"),
            2 => write!(f, "k 2: survives any 1 crash"),
            k => {
                let survived = k - 1;
                write!(f, "k {k}: survives any {survived} crashes")
            }
        }
    }
}
