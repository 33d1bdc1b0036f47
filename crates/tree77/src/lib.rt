//! FORTRAN 77 statements as trees, with the definitions of their spelling.
#![tactic(auto)]

mod statement;

pub use expr_tree::{BinaryOp, Expr, Exprs, UnaryOp};
pub use statement::{
    Block77, Control77, DataGroup77, DataValue77, Declarator77, Declarators77, Declared77,
    Dimension77, Dimensions77, Equation77, FileControl77, FormatRef77, Header77, Implicit77,
    Labels77, Length77, Letters77, Listed77, Listeds77, Names77, Range77, ReadBy77, Saved77,
    Statement77, Stmt77, Times77, Type77, UnitRef77,
};
