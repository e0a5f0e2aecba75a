//! The agenda of a kernel as contracts see it: the graph of callbacks and the queues, and how they follow the tasks.
#![tactic(auto)]
