// Why tokens are no expression.
ghost use Rattle.std.specs.Prelude.{◌≡◌};
ghost use Rattle.expr77.specs.declared.parse_error.ParseError.TheVariants.{Memory};

use std::alloc::AllocError;
use text_base::Refusals;
use thiserror::Error;

/// Why tokens aren't read as an expression.
#[derive(Debug, Drop, Error)]
pub enum ParseError {
    /// The tokens are refused: they spell no expression, or a part of it is refused. The list has one refusal.
    #[error("the tokens are refused as an expression")]
    Refused(Refusals),
    /// Memory is wanted. Nothing is known of the tokens.
    #[error("memory is wanted")]
    Memory,
}

impl From<AllocError> for ParseError {
    ghost from_gives = { λ _ e. e ≡ Memory };

    fn from(_error: AllocError) -> ParseError {
        ParseError::Memory
    }
}
