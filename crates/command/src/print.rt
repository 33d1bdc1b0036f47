// The printing of an answer, and how it may end.
ghost use Rattle.std.specs.Prelude.{◌≡◌, ◌≤◌, List, ℕ, OnOk, OnErr, IsErrOf};
ghost use Rattle.std.specs.Io.KnownBytes.{append_known};
ghost use Rattle.text_base.specs.Faults.{Rose};
ghost use Rattle.command.specs.Print.{IsPrefix, Says};
ghost use Rattle.command.specs.Views.{status_of, text_of};

use crate::Status;
use crate::answers::Answer;
use std::alloc::AllocError;
use text_base::{Sink, SinkError};

// Puts the whole text, in as many pieces as the sink takes. A call that takes nothing of a piece counts as failed.
fn print<O: Sink>(out: &mut O, text: &[u8]) -> Result<(), SinkError>
    ensures whole { OnOk result (O.written out.new ≡ append_known (O.written out.old) text.now) }
    ensures part { OnErr result ((part : List ℕ) × IsPrefix part text.now × (O.written out.new ≡ append_known (O.written out.old) part)) }
    ensures failed { IsErrOf result SinkError.Failed → Rose (O.faults out.old) (O.faults out.new) }
    ensures denied { IsErrOf result SinkError.Memory → Rose (O.denials out.old) (O.denials out.new) }
    ensures count { O.faults out.old ≤ O.faults out.new }
    ensures denial_count { O.denials out.old ≤ O.denials out.new }
    ensures reliable { O.reliable out.old → O.reliable out.new × (O.faults out.new ≡ O.faults out.old) }
{
    let mut rest = text;
    while !rest.is_empty() {
        let count = out.put(rest)?;
        if count == 0 {
            return Err(SinkError::Failed);
        }
        rest = &rest[count..];
    }
    Ok(())
}

// Prints the text of a status, and the line that is owed where the sink fails at a text that is owed whole.
fn say_text<O: Sink>(out: &mut O, status: Status, text: &[u8]) -> Status
    ensures says { (printed : List ℕ) × (O.written out.new ≡ append_known (O.written out.old) printed)
        × Says (record { faults = O.faults out.old; denials = O.denials out.old }) (record { faults = O.faults out.new; denials = O.denials out.new })
        status text.now result printed }
    ensures reliable { O.reliable out.old → O.faults out.new ≡ O.faults out.old }
{
    let outcome = print(out, text);
    match status {
        Status::Done | Status::Refused => match outcome {
            Ok(()) => status,
            Err(SinkError::Failed) => {
                let _ = print(out, b"WRITE FAULT output\n");
                Status::WriteFault
            }
            Err(SinkError::Memory) => {
                let _ = print(out, b"MEMORY\n");
                Status::Memory
            }
        },
        _ => status,
    }
}

/// Prints what was answered, and answers the status that comes. The report and the refusals are owed whole: where the sink fails
/// or wants memory for them, that is the status, and its line is printed after what was taken.
pub fn say<O: Sink>(out: &mut O, outcome: &Result<Answer, AllocError>) -> Status
    ensures says { (printed : List ℕ) × (O.written out.new ≡ append_known (O.written out.old) printed)
        × Says (record { faults = O.faults out.old; denials = O.denials out.old }) (record { faults = O.faults out.new; denials = O.denials out.new })
        (status_of outcome.now) (text_of outcome.now) result printed }
    ensures reliable { O.reliable out.old → O.faults out.new ≡ O.faults out.old }
{
    match outcome {
        Ok(answer) => say_text(out, answer.status, answer.text.as_slice()),
        Err(_) => say_text(out, Status::Memory, b"MEMORY\n"),
    }
}
