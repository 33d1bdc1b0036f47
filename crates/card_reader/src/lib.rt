//! Reads a file of fixed-form FORTRAN 77 into its statements and comments.
#![tactic(auto)]

mod card;
mod cards_error;
mod check;
mod columns;
mod deck;
mod fault;
mod laws;
mod lines;
mod reader;
mod scan;

pub use card::{Card, Cards};
pub use cards_error::CardsError;
pub use deck::Deck;
pub use laws::{cards_are_marked, comments_stand_between_statements, kept_is_by_pieces};
pub use reader::read_cards;
pub use scan::Scan;
