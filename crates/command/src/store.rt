// The writing of the outputs, and how it fails.
ghost use Rattle.std.specs.Prelude.{◌≡◌, ◌≤◌, ◌∷◌, [], ℕ, List, OnOk, OnErr, IsErrOf};
ghost use Rattle.text_base.specs.Faults.{Rose};
ghost use Rattle.text_base.specs.Files.{with_file, SameBut};
ghost use Rattle.command.specs.Outputs.{with_files, PartlyWritten};
ghost use Rattle.command.specs.Views.{texts_of};
ghost use Rattle.command.specs.Lines.{fault_line, StoppedLine};

use crate::output::Output;
use text_base::{Bytes, Shelf, ShelfWrite};
use thiserror::Error;

/// Why the writing of outputs stopped.
#[derive(Debug, Drop, Error)]
pub enum StoreError {
    /// A write failed. This is the line that is owed for its output.
    #[error("an output could not be written")]
    Failed(Bytes),
    /// Memory is wanted by the shelf.
    #[error("memory is wanted")]
    Memory,
}

// Stores one output. Where the write fails, its line is handed back.
fn store<S: Shelf>(shelf: &mut S, output: Output<'_>) -> Result<(), StoreError>
    ensures whole { OnOk result (S.held shelf.new ≡ with_file (S.held shelf.old) output.entry.name.now output.entry.bytes.now) }
    ensures others { OnErr result (SameBut output.entry.name.now (S.held shelf.old) (S.held shelf.new)) }
    ensures failed { (line : List ℕ) → IsErrOf result (StoreError.Failed line)
        → (line ≡ fault_line output.entry.name.now) × Rose (S.write_faults shelf.old) (S.write_faults shelf.new) }
    ensures denied { IsErrOf result StoreError.Memory → Rose (S.denials shelf.old) (S.denials shelf.new) }
    ensures write_count { S.write_faults shelf.old ≤ S.write_faults shelf.new }
    ensures denial_count { S.denials shelf.old ≤ S.denials shelf.new }
    ensures read_count { S.read_faults shelf.new ≡ S.read_faults shelf.old }
    ensures absence_count { S.absences shelf.new ≡ S.absences shelf.old }
    ensures reliable { S.reliable shelf.old → S.reliable shelf.new × (S.write_faults shelf.new ≡ S.write_faults shelf.old) }
{
    match shelf.write(output.name, output.bytes) {
        Ok(()) => Ok(()),
        Err(ShelfWrite::Failed) => Err(StoreError::Failed(output.line)),
        Err(ShelfWrite::Memory) => Err(StoreError::Memory),
    }
}

/// Stores the outputs of a source in their order, up to the first that fails. Only the shelf takes memory.
pub fn store_outputs<S: Shelf>(
    shelf: &mut S,
    text: Output<'_>,
    map: Output<'_>,
    report: Output<'_>,
) -> Result<(), StoreError>
    ensures whole { OnOk result (S.held shelf.new ≡ with_files (texts_of (text.entry ∷ map.entry ∷ report.entry ∷ [])) (S.held shelf.old)) }
    ensures partly { PartlyWritten (texts_of (text.entry ∷ map.entry ∷ report.entry ∷ [])) (S.held shelf.old) (S.held shelf.new) }
    ensures failed { (line : List ℕ) → IsErrOf result (StoreError.Failed line)
        → StoppedLine (texts_of (text.entry ∷ map.entry ∷ report.entry ∷ [])) (S.held shelf.old) (S.held shelf.new) line
        × Rose (S.write_faults shelf.old) (S.write_faults shelf.new) }
    ensures denied { IsErrOf result StoreError.Memory → Rose (S.denials shelf.old) (S.denials shelf.new) }
    ensures read_count { S.read_faults shelf.new ≡ S.read_faults shelf.old }
    ensures absence_count { S.absences shelf.new ≡ S.absences shelf.old }
    ensures reliable { S.reliable shelf.old → S.reliable shelf.new × (S.write_faults shelf.new ≡ S.write_faults shelf.old) }
{
    store(shelf, text)?;
    store(shelf, map)?;
    store(shelf, report)
}
