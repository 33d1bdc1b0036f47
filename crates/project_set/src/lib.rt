//! The conversion of a project: what is written for its sources, or all that is refused of them.
#![tactic(auto)]

mod comments;
mod conversion;
mod laws;
mod map;
mod refusals;
mod report;
mod rewrite;
mod variables;

pub use conversion::{ConvertError, Outputs, convert};
pub use laws::{conversions_do_the_same, sources_are_typed, written_is_proper};
