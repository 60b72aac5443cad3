//! The log of several drivers of one core, as contracts see it.
use crate::snapshot_core::Core;
use std::collections::LinkedList;

/// A mark: which driver did something to the core, whether it filed a report or made an event happen, and the core
/// after that. No value of it is made.
pub struct Mark {
    /// The driver.
    pub driver: u64,
    /// Whether a report was filed. Otherwise an event happened.
    pub filed: bool,
    /// The core after it.
    pub after: Core,
}

/// A driver, and the log that it has seen. No value of it is made.
pub struct Ticket {
    /// The driver.
    pub driver: u64,
    /// The marks that it has seen, in order.
    pub seen: LinkedList<Mark>,
}
