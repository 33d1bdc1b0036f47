// Why pieces are not cut into tokens.
ghost use Rattle.std.specs.Prelude.{◌≡◌};
ghost use Rattle.scan77.specs.declared.scan_error.ScanError.TheVariants.{Memory};

use std::alloc::AllocError;
use thiserror::Error;

/// Why pieces aren't cut into tokens.
#[derive(Debug, Drop, Error)]
pub enum ScanError {
    /// Behind some tokens a character constant isn't closed, or a character begins no token: the pieces have no cut.
    #[error("a character constant is not closed, or a character begins no token")]
    NoToken,
    /// Memory is wanted. Nothing is known of the pieces.
    #[error("memory is wanted")]
    Memory,
}

impl From<AllocError> for ScanError {
    ghost from_gives = { λ _ e. e ≡ Memory };

    fn from(_error: AllocError) -> ScanError {
        ScanError::Memory
    }
}
