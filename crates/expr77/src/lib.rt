//! Expressions of FORTRAN 77: from their tokens by their lexemes to their trees (`parse_expr`, `read_expr`).
#![tactic(auto)]

mod gathering;
mod laws;
mod lexeme;
mod lexeme_reading;
mod long_name;
mod number;
mod parse_error;
mod parsing;
mod part;

pub use laws::{
    constants_are_quoted, constants_stop, expressions_are_cut, expressions_are_read,
    expressions_stop, one_expression, outcomes_are_spelled,
};
pub use lexeme_reading::{is_label, quoted_text};
pub use long_name::{is_word, name_of};
pub use number::{behind_mark, character, digits_here, run_here};
pub use parse_error::ParseError;
pub use parsing::{Progress, parse_expr, read_expr};
pub use part::{
    Part, deep_parenthesis, great_number, lower_part, name_too_long, small_value, unsupported,
};
