//! The printer of Fortran 90 programs in free form, and the room that their lines take.
#![tactic(auto)]

mod expression;
mod line;
mod program;
mod room;
mod statement;
mod symbol;

pub use program::print;
pub use room::{is_short_assignment, room_behind};
