// Why some symbols give no tree.
ghost use Rattle.std.specs.Prelude.{◌≡◌};
ghost use Rattle.group77.specs.declared.build_error.BuildError.TheVariants.{Memory};

use std::alloc::AllocError;
use thiserror::Error;

/// Why some symbols give no tree.
#[derive(Debug, Drop, Error)]
pub enum BuildError {
    /// The symbols are no expression (X3.9 section 6).
    #[error("the symbols are no expression")]
    NotSpelled,
    /// Memory is wanted. Nothing is known of the symbols.
    #[error("memory is wanted")]
    Memory,
}

impl From<AllocError> for BuildError {
    ghost from_gives = { λ _ e. e ≡ Memory };

    fn from(_error: AllocError) -> BuildError {
        BuildError::Memory
    }
}
