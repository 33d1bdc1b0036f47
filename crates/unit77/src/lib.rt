//! Units of FORTRAN 77 programs: their trees, and how statements one after another are nested in them.
#![tactic(auto)]

mod check;
mod checker;
mod laws;
pub mod limits;
mod loops;
mod nester;
mod refusing;
mod tree;
mod units;

pub use laws::{
    nests_or_not, one_nesting, one_program, own_lists, program_or_not, statements_stand,
};
pub use refusing::file_refusals;
pub use tree::{
    Arm77, Arms77, Body77, DeclaredLine77, Declareds, DoHead, EndIf, HeaderLine77, Item77, Items77,
    StmtFunction, StmtFunctions, Unit77, Units77,
};
pub use units::nest_units;
