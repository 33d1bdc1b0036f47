//! Typing of a FORTRAN 77 unit: what each of its names is, and what its statements are refused for.
#![tactic(auto)]

mod before;
mod entity;
mod expression_findings;
mod findings;
mod items;
mod laws;
mod operands;
mod statement_findings;
mod typing;

pub use entity::{Entities, Entity, EntityKind, TypeError};
pub use laws::{operands_are_those_of_the_table, typed_units_have_one_meaning};
pub use typing::{Typed, has_no_equivalence, type_unit};
