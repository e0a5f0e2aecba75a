//! The verdict on a log: the first law that it breaks, and where.

/// The laws of a log, in the order in which they are looked at.
#[derive(Clone, Copy, Debug, PartialEq, Eq)]
pub enum Law {
    /// Calls are submitted in their turn, tasks settle once, in the states of their outcomes, and
    /// nothing stands behind the end.
    Settling,
    /// Tasks that get their outcomes by attempts are launched, once their inputs have values, or take their values
    /// from the memo where their keys are stored; values of cached apps settle once they are stored.
    Launch,
    /// Attempts end as their bodies do, follow failed ones within the limit, and settle their tasks.
    Attempt,
    /// A launched attempt is started at the one manager, and ends there.
    Manager,
    /// The end stands, as the last entry.
    Completeness,
}

/// The first law that is broken, and the first entry that breaks it, counted from 1. A log that doesn't
/// end breaks completeness at the entry behind its last.
#[derive(Clone, Copy, Debug, PartialEq, Eq)]
pub struct Breach {
    pub law: Law,
    pub entry: usize,
}
