//! Futures.

use flow_base::Path;

/// The future of a task: the task's path, and the number of outputs of its app.
#[derive(Drop)]
pub struct AppFuture {
    pub path: Path,
    pub outputs: u32,
}

/// The future of one output of a task: the task's path, and the output's index, counted from 0.
#[derive(Drop)]
pub struct DataFuture {
    pub path: Path,
    pub index: u32,
}
