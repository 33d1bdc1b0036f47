// Why a file has no statements to give.
ghost use Rattle.std.specs.Prelude.{◌≡◌};
ghost use Rattle.card_reader.specs.declared.cards_error.CardsError.TheVariants.{Memory};

use std::alloc::AllocError;
use text_base::Refusals;
use thiserror::Error;

/// Why a file isn't read into statements (X3.9 section 3): it is refused, or memory is wanted.
#[derive(Debug, Drop, Error)]
pub enum CardsError {
    /// The file is refused. The list says where and why.
    #[error("the file is refused")]
    Refused(Refusals),
    /// Want of memory. Nothing is known of the file.
    #[error("memory is wanted")]
    Memory,
}

impl From<AllocError> for CardsError {
    ghost from_gives = { λ _ e. e ≡ Memory };

    fn from(_error: AllocError) -> CardsError {
        CardsError::Memory
    }
}
