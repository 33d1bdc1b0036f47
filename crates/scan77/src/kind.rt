// The kind of a statement.
use crate::Word;

/// The kind of a statement: a FORMAT with a label (X3.9 section 13.1), a DO (X3.9 section 11.10), an assignment or a
/// statement function (X3.9 sections 10 and 15.4), or the statement of a keyword; that of a keyword whose statement isn't
/// accepted; a FUNCTION statement that begins with a type that isn't accepted (X3.9 section 15.5.1); or no statement.
#[derive(Clone, Copy, Debug, PartialEq, Eq)]
pub enum Kind {
    Format,
    Do,
    Assign,
    Keyword(Word),
    Unsupported(Word),
    RefusedFunction(Word),
    Nothing,
}
