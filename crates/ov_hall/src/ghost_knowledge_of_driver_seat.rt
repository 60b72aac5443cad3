use ov_snap::{Mark, Ticket};
use std::collections::LinkedList;

/// What a seat at the table knows: the logs that it keeps, and the drivers that it stands for. No value of it is made.
pub struct View {
    /// The log, if the seat keeps it.
    pub kept: LinkedList<LinkedList<Mark>>,
    /// The drivers that the seat stands for.
    pub tickets: LinkedList<Ticket>,
}
