//! Which source programs are converted, and what they mean: their storage and their FORTRAN 77 meaning.
#![tactic(auto)]

mod laws;
mod unit;

pub use laws::{one_source, sources_are_read};
pub use unit::{main_program, unit_name};
