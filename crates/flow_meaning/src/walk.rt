//! What a body asks for while it runs, and what it is answered.

use flow_base::{Items, Names, Outcome, Value};

/// What a body asks for.
#[derive(Drop)]
pub enum Request {
    /// A call of the app of this number, with these names of outputs.
    Call {
        app: u32,
        arguments: Items,
        names: Names,
    },
    /// `result` of a future or an output.
    WaitValue(Value),
    /// `exception` of a future or an output.
    WaitName(Value),
    /// This value is to be printed.
    Print(Value),
    /// What was stored so far is to be written.
    Checkpoint,
}

/// What a body is answered.
#[derive(Drop)]
pub enum Answer {
    /// The future of a call.
    Called(Value),
    /// The outcome of the task that was waited for.
    Outcome(Outcome),
    /// What was asked for is done.
    Go,
}
