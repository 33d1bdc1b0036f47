// The lexemes of an expression.
use crate::long_name::LongName;
use expr_tree::BinaryOp;
use text_base::Bytes;

/// A lexeme of an expression, a syntactic item of it (X3.9 section 2.2): an integer constant with its digits; a real,
/// complex or Hollerith constant; a logical or character constant with its value; a name of any length; an alternate return
/// specifier; an operator; `.NOT.`; or a mark. It lends the characters of the statement; a character constant has its own.
#[derive(Drop)]
pub enum Lexeme<'a> {
    Integer(&'a [u8]),
    Constant,
    Logical(bool),
    Characters(Bytes),
    Name(LongName<'a>),
    Alternate,
    Operator(BinaryOp),
    Not,
    Open,
    Close,
    Comma,
    Colon,
}
