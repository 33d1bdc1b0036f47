//! Reads headers and declarations of FORTRAN 77, each by its form.
#![tactic(auto)]

mod blocks;
mod data_statement;
mod declarator;
mod header;
mod length;
mod letters;
mod others;
mod size;
mod typed;

pub use blocks::common;
pub use data_statement::data;
pub use header::{block_data, function, program, subroutine};
pub use letters::implicit;
pub use others::{dimension, equivalence, external, intrinsic, parameter, save};
pub use size::{character_size, integer_size, logical_size};
pub use typed::{characters, integers, logicals};
