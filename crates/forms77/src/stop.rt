// Why a form isn't read.
ghost use Rattle.std.specs.Prelude.{◌≡◌};
ghost use Rattle.forms77.specs.declared.stop.Stop.TheVariants.{Memory};

use std::alloc::AllocError;
use thiserror::Error;

/// Why tokens aren't read by a form.
#[derive(Clone, Copy, Debug, PartialEq, Eq, Error)]
pub enum Stop {
    /// They don't begin with what has the form, or more stands behind it.
    #[error("the tokens don't have the form")]
    NotSpelled,
    /// Memory is wanted. Nothing is known of the tokens.
    #[error("memory is wanted")]
    Memory,
}

impl From<AllocError> for Stop {
    ghost from_gives = { λ _ e. e ≡ Memory };

    fn from(_error: AllocError) -> Stop {
        Stop::Memory
    }
}
