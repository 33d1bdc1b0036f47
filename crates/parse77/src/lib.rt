//! Statements of FORTRAN 77 (`read_statements`), and the units that they are (`parse_deck`).
#![tactic(auto)]

mod branch;
mod control;
mod deck;
mod joining;
mod laws;
mod plain;
mod reader;
mod showing;
mod sort;
mod statements;
mod whole;

pub use deck::{ParseError, parse_deck, read_accepted};
pub use laws::{
    files_are_units, one_list_of_units, one_statement, statements_are_read, statements_are_spelled,
    units_keep_statements,
};
pub use reader::read_statements;
pub use showing::shown;
