//! The command: its words, what is done for them, what is printed, and how a call ends.
#![tactic(auto)]

mod answers;
mod lines;
mod output;
mod over_memory;
mod print;
mod status;
mod store;
mod top;
mod words;

pub use over_memory::in_memory;
pub use status::Status;
pub use top::modern;
