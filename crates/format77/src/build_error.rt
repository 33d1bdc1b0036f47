// Why some lexemes give no tree.
ghost use Rattle.std.specs.Prelude.{◌≡◌};
ghost use Rattle.format77.specs.declared.build_error.BuildError.TheVariants.{Memory};

use std::alloc::AllocError;
use thiserror::Error;

/// Why some lexemes give no tree.
#[derive(Debug, Drop, Error)]
pub enum BuildError {
    /// The parentheses of the lexemes do not match (X3.9 section 13.1.1).
    #[error("the parentheses of a format do not match")]
    NotSpelled,
    /// Memory is wanted. Nothing is known of the lexemes.
    #[error("memory is wanted")]
    Memory,
}

impl From<AllocError> for BuildError {
    ghost from_gives = { λ _ e. e ≡ Memory };

    fn from(_error: AllocError) -> BuildError {
        BuildError::Memory
    }
}
