// A sink of text, which may take a piece in parts.
ghost use Rattle.std.specs.Prelude.{◌≡◌, ◌≤◌, ◌<◌, List, ℕ, Option, length, IfOk, IsErrOf, Ok};
ghost use Rattle.std.specs.Io.KnownBytes.{append_known};
ghost use Rattle.text_base.specs.Faults.{Rose};
ghost use Rattle.text_base.specs.Put.{taken};

use thiserror::Error;

/// How a put fails: the text can't be written, or memory is wanted for it.
#[derive(Clone, Copy, Debug, PartialEq, Eq, Error)]
pub enum SinkError {
    #[error("the text could not be written")]
    Failed,
    #[error("memory is wanted")]
    Memory,
}

/// A sink of bytes. No call changes whether it tells what was written, and no count ever falls.
pub trait Sink {
    /// The bytes written, where it tells.
    ghost written: { Self → Option (List ℕ) };

    /// How many calls have failed.
    ghost faults: { Self → ℕ };

    /// How many calls have wanted memory.
    ghost denials: { Self → ℕ };

    /// No call counts a fault.
    ghost reliable: { Self → Type 0 };

    /// Appends a first part of the piece, and answers its length in bytes. `Failed`: a fault, which is counted. `Memory`: memory
    /// is wanted, which is counted. After an error nothing was appended. 0 for a piece that isn't empty is counted as a fault,
    /// and a caller treats it as one.
    fn put(&mut self, piece: &[u8]) -> Result<usize, SinkError>
        ensures part { IfOk result (λ count. count ≤ length piece.now) }
        ensures appends { written self.new ≡ append_known (written self.old) (taken result piece.now) }
        ensures failed { IsErrOf result SinkError.Failed → Rose (faults self.old) (faults self.new) }
        ensures stuck { result ≡ Ok 0 → 0 < length piece.now → Rose (faults self.old) (faults self.new) }
        ensures denied { IsErrOf result SinkError.Memory → Rose (denials self.old) (denials self.new) }
        ensures still { IfOk result (λ count. (0 < count → faults self.new ≡ faults self.old) × (denials self.new ≡ denials self.old)) }
        ensures count { faults self.old ≤ faults self.new }
        ensures denial_count { denials self.old ≤ denials self.new }
        ensures reliable { reliable self.old → reliable self.new × (faults self.new ≡ faults self.old) };
}
