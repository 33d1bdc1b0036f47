//! Expressions of FORTRAN 77: the trees that their symbols are (`build`).
#![tactic(auto)]

mod build_error;
mod builder;
mod feed;
mod group;
mod laws;
mod opening;
mod stack;
mod symbol;

pub use build_error::BuildError;
pub use builder::build;
pub use laws::{grouped_expressions, one_tree};
pub use symbol::{Symbol, Symbols};
