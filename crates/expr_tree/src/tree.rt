// The tree of an expression, which both languages share.
use sqlite_items::{Boxed, Items};
use text_base::{Bytes, Name};

/// A sign (X3.9 section 6.1; ISO/IEC 1539:1991 section 7.1.1) or `.NOT.` (X3.9 section 6.4).
#[derive(Clone, Copy, Debug, PartialEq, Eq)]
pub enum UnaryOp {
    Plus,
    Minus,
    Not,
}

/// An operator between two operands (X3.9 sections 6.1 to 6.4).
#[derive(Clone, Copy, Debug, PartialEq, Eq)]
pub enum BinaryOp {
    Power,
    Times,
    Over,
    Plus,
    Minus,
    Concat,
    Lt,
    Le,
    Eq,
    Ne,
    Gt,
    Ge,
    And,
    Or,
    Eqv,
    Neqv,
}

/// An expression (X3.9 section 6).
///
/// `Int`, `Bool` and `Text` are constants (X3.9 sections 4.3, 4.7 and 4.8); `Text` has the characters that the constant
/// stands for. `Name` is a name alone. `Call` is an array element or a function reference (X3.9 sections 5.3 and 15.2):
/// its form doesn't tell which. `Substring` has the variable or array element, and its bounds where they are written
/// (X3.9 section 5.7). `Paren` is an expression in parentheses.
#[cycle(tree)]
#[derive(Debug, Drop)]
pub enum Expr {
    Int(i32),
    Bool(bool),
    Text(Bytes),
    Name(Name),
    Call(Name, Exprs),
    Substring(Boxed<Expr>, Option<Boxed<Expr>>, Option<Boxed<Expr>>),
    Unary(UnaryOp, Boxed<Expr>),
    Binary(BinaryOp, Boxed<Expr>, Boxed<Expr>),
    Paren(Boxed<Expr>),
}

/// A list of expressions, which contracts see as the list.
pub type Exprs = Items<Expr>;
