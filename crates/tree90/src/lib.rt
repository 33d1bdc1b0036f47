//! Fortran 90 programs as trees, with the definitions of their text and their meaning.
#![tactic(auto)]

mod laws;
mod names;
mod tree;

pub use expr_tree::{BinaryOp as Binary90, Expr as Expr90, Exprs as Exprs90, UnaryOp as Unary90};
pub use laws::{one_reading, printed_is_read};
pub use names::{LONGEST_STEM, MOST_NAMES, Names, a_fresh_name, one_fresh_name};
pub use tree::{
    Declared90, Declared90s, Item90, Items90, Program90, Simple90, Stmt90, Stmts90, Type90, Unit90,
    Unit90s, UnitKind90,
};
