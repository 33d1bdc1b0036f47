//! The tree of an expression, which FORTRAN 77 and Fortran 90 share.
#![tactic(auto)]

mod tree;

pub use tree::{BinaryOp, Expr, Exprs, UnaryOp};
