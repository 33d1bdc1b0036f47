// Values of expressions, operations on them, and why a run may fault.
use crate::Bytes;

/// The value of a scalar (X3.9 section 4; ISO/IEC 1539:1991 section 4.3): an integer, a logical, or the characters of a
/// character value.
#[derive(Debug, Drop)]
pub enum Value {
    Integer(i32),
    Logical(bool),
    Text(Bytes),
}

/// Why a run may fault.
///
/// `Undefined`: a place is read that holds no value of the type (X3.9 section 17). `Overflow`: the exact result of an
/// operation is below -2147483648 or above 2147483647. `ZeroDivide`: a divisor is 0, or the base of a negative power is.
/// `Subscript` and `Substring`: a subscript or a bound of a substring is out of its bounds (X3.9 sections 5.4.3 and 5.7.1).
/// `CharRange`: CHAR of a number that no character has, or ICHAR of a value that isn't one character. `ArgumentLength`: an
/// actual argument is shorter than its dummy. `ExpressionDefined`: what is defined is an expression and no variable.
/// `InputOutput`: a transfer failed without a way out.
#[derive(Clone, Copy, Debug, PartialEq, Eq)]
pub enum RunFault {
    Undefined,
    Overflow,
    ZeroDivide,
    Subscript,
    Substring,
    CharRange,
    ArgumentLength,
    ExpressionDefined,
    InputOutput,
}

/// An operator or an intrinsic function (X3.9 sections 6 and 15.10; ISO/IEC 1539:1991 sections 7.1 and 13).
///
/// `Positive` and `Negative` are the signs; the operators stand in the order of their precedence; then the intrinsic
/// functions by their names.
#[derive(Clone, Copy, Debug, PartialEq, Eq)]
pub enum Op {
    Power,
    Times,
    Over,
    Positive,
    Negative,
    Plus,
    Minus,
    Concat,
    Lt,
    Le,
    Eq,
    Ne,
    Gt,
    Ge,
    Not,
    And,
    Or,
    Eqv,
    Neqv,
    Abs,
    Iabs,
    Mod,
    Sign,
    Isign,
    Dim,
    Idim,
    Max,
    Max0,
    Min,
    Min0,
    Len,
    Index,
    Char,
    Ichar,
    Lge,
    Lgt,
    Lle,
    Llt,
}
