//! The order of statements of FORTRAN 77 programs: what each counts as, which names and labels it uses, and statement functions.
#![tactic(auto)]

mod counts;
mod mark;
mod names;
mod naming;
mod read;
mod settling;
mod uses;

pub use counts::{counts_as, first_standing, is_misplaced, keyword, next_standing, sort_in};
pub use mark::{Counts, Fault, Mark, Sort, Standing, Stray, UnitKind};
pub use names::{Labels, Names};
pub use naming::last_name;
pub use read::{ReadStatement, Statements};
pub use settling::settle;
