// Why an operation gives no value.
ghost use Rattle.std.specs.Prelude.{◌≡◌};
ghost use Rattle.value_ops.specs.declared.error.OpError.TheVariants.{Memory};

use std::alloc::AllocError;
use text_base::RunFault;
use thiserror::Error;

/// Why an operation gives no value: it faults, or memory is wanted.
#[derive(Debug, Drop, Error)]
pub enum OpError {
    /// The operation faults. It does so at each run with these values.
    #[error("the operation faults")]
    Fault(RunFault),
    /// Want of memory. Nothing is known of what the operation gives.
    #[error("memory is wanted")]
    Memory,
}

impl From<AllocError> for OpError {
    ghost from_gives = { λ _ e. e ≡ Memory };

    fn from(_error: AllocError) -> OpError {
        OpError::Memory
    }
}
