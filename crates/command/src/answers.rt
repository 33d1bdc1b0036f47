// What is done for the words, before anything is printed.
ghost use Rattle.std.specs.Prelude.{◌≡◌, ◌≤◌, ◌++◌, string_bytes, Some, IfOk, IsErrOf};
ghost use Rattle.text_base.specs.Faults.{Rose};
ghost use Rattle.text_base.specs.Files.{HasFile, LacksFile};
ghost use Rattle.command.specs.Words.{words_of, map_name, report_name, form};
ghost use Rattle.command.specs.Outputs.{PartlyWritten, named_texts};
ghost use Rattle.command.specs.Lines.{line_with};
ghost use Rattle.command.specs.Answers.{Answers, IsPartly};
ghost use Rattle.command.specs.Store.{Wrote};
ghost use Rattle.command.specs.Views.{command_of, status_of, text_of};

use crate::Status;
use crate::lines::{line_with, refusal_text};
use crate::output::Output;
use crate::store::{StoreError, store_outputs};
use crate::words::{Request, read_words};
use project_set::{ConvertError, Outputs, convert};
use std::alloc::{AllocError, Global};
use text_base::{Bytes, Shelf, ShelfRead};

/// A status, and the text that is to be printed for it.
#[derive(Drop)]
pub struct Answer {
    pub status: Status,
    pub text: Bytes,
}

// The bytes of a file.
fn load<S: Shelf>(alloc: Global, shelf: &mut S, name: &str) -> Result<Vec<u8>, ShelfRead>
    ensures unchanged { S.held shelf.new ≡ S.held shelf.old }
    ensures whole { IfOk result (λ bytes. HasFile (S.held shelf.old) name.now bytes.items) }
    ensures missing { IsErrOf result ShelfRead.Missing → LacksFile (S.held shelf.old) name.now }
    ensures absent { IsErrOf result ShelfRead.Missing → Rose (S.absences shelf.old) (S.absences shelf.new) }
    ensures failed { IsErrOf result ShelfRead.Failed → Rose (S.read_faults shelf.old) (S.read_faults shelf.new) }
    ensures write_count { S.write_faults shelf.new ≡ S.write_faults shelf.old }
    ensures denial_count { S.denials shelf.new ≡ S.denials shelf.old }
    ensures reliable { S.reliable shelf.old → S.reliable shelf.new × (S.read_faults shelf.new ≡ S.read_faults shelf.old) }
{
    let mut bytes = Vec::new(alloc);
    shelf.read(name, &mut bytes)?;
    Ok(bytes)
}

// A status, with a line of a word or two and a name.
fn line_answer(alloc: Global, status: Status, words: &str, name: &str) -> Result<Answer, AllocError>
    ensures status { IfOk result (λ answer. answer.status ≡ status) }
    ensures text { IfOk result (λ answer. answer.text ≡ line_with words.now name.now) }
{
    let text = line_with(alloc, words, name)?;
    Ok(Answer { status, text })
}

// Writes the texts of a source. The lines that may be owed are made before the first write, and the report is the text that is
// answered, so that no memory is taken later but by the shelf.
fn write_texts<S: Shelf>(
    alloc: Global,
    request: &Request<'_>,
    shelf: &mut S,
    made: Outputs,
) -> Result<Answer, AllocError>
    requires map { string_bytes request.now.map ≡ map_name request.now.out.now }
    requires report { string_bytes request.now.report ≡ report_name request.now.out.now }
    ensures wrote { Wrote (status_of result) (named_texts request.now.out.now made.text made.map made.report) made.report
        (S.held shelf.old) (S.held shelf.new) (Rose (S.write_faults shelf.old) (S.write_faults shelf.new))
        (Rose (S.denials shelf.old) (S.denials shelf.new)) (text_of result) }
    ensures partly { PartlyWritten (named_texts request.now.out.now made.text made.map made.report) (S.held shelf.old) (S.held shelf.new) }
    ensures read_count { S.read_faults shelf.new ≡ S.read_faults shelf.old }
    ensures absence_count { S.absences shelf.new ≡ S.absences shelf.old }
    ensures reliable { S.reliable shelf.old → S.reliable shelf.new × (S.write_faults shelf.new ≡ S.write_faults shelf.old) }
{
    let Outputs { text, map, report } = made;
    let first = Output::new(alloc, request.out, text.as_slice())?;
    let second = Output::new(alloc, request.map.as_str(), map.as_slice())?;
    let third = Output::new(alloc, request.report.as_str(), report.as_slice())?;
    match store_outputs(shelf, first, second, third) {
        Ok(()) => Ok(Answer {
            status: Status::Done,
            text: report,
        }),
        Err(StoreError::Failed(line)) => Ok(Answer {
            status: Status::WriteFault,
            text: line,
        }),
        Err(StoreError::Memory) => Err(AllocError),
    }
}

// Converts the bytes of the file.
fn answer_bytes<S: Shelf>(
    alloc: Global,
    request: &Request<'_>,
    shelf: &mut S,
    bytes: &[u8],
) -> Result<Answer, AllocError>
    requires map { string_bytes request.now.map ≡ map_name request.now.out.now }
    requires report { string_bytes request.now.report ≡ report_name request.now.out.now }
    requires has { HasFile (S.held shelf.old) request.now.file.now bytes.now }
    ensures answers { Answers (status_of result) (Some (command_of request.now)) (S.held shelf.old) (S.held shelf.new) ⊥ ⊥
        (Rose (S.write_faults shelf.old) (S.write_faults shelf.new)) (Rose (S.denials shelf.old) (S.denials shelf.new)) (text_of result) }
    ensures partly { IsPartly (Some (command_of request.now)) (S.held shelf.old) (S.held shelf.new) }
    ensures read_count { S.read_faults shelf.new ≡ S.read_faults shelf.old }
    ensures reliable { S.reliable shelf.old → S.reliable shelf.new × (S.write_faults shelf.new ≡ S.write_faults shelf.old) }
{
    match convert(alloc, bytes) {
        Ok(made) => write_texts(alloc, request, shelf, made),
        Err(ConvertError::Refused(refusals)) => {
            let text = refusal_text(alloc, request.file, refusals.as_slice())?;
            let status = Status::Refused;
            Ok(Answer { status, text })
        }
        Err(ConvertError::Memory) => Err(AllocError),
    }
}

// Reads the file and converts it.
fn answer_request<S: Shelf>(
    alloc: Global,
    request: &Request<'_>,
    shelf: &mut S,
) -> Result<Answer, AllocError>
    requires map { string_bytes request.now.map ≡ map_name request.now.out.now }
    requires report { string_bytes request.now.report ≡ report_name request.now.out.now }
    ensures answers { Answers (status_of result) (Some (command_of request.now)) (S.held shelf.old) (S.held shelf.new)
        (Rose (S.read_faults shelf.old) (S.read_faults shelf.new)) (Rose (S.absences shelf.old) (S.absences shelf.new))
        (Rose (S.write_faults shelf.old) (S.write_faults shelf.new)) (Rose (S.denials shelf.old) (S.denials shelf.new)) (text_of result) }
    ensures partly { IsPartly (Some (command_of request.now)) (S.held shelf.old) (S.held shelf.new) }
    ensures reliable { S.reliable shelf.old → (S.read_faults shelf.new ≡ S.read_faults shelf.old) × (S.write_faults shelf.new ≡ S.write_faults shelf.old) }
{
    match load(alloc, shelf, request.file) {
        Ok(bytes) => answer_bytes(alloc, request, shelf, &bytes),
        Err(ShelfRead::Missing) => line_answer(alloc, Status::Missing, "MISSING ", request.file),
        Err(ShelfRead::Failed) => {
            line_answer(alloc, Status::ReadFault, "READ FAULT ", request.file)
        }
        Err(ShelfRead::Memory) => Err(AllocError),
    }
}

/// Does what the words ask for, and answers the status that is wanted and the text that is to be printed for it. It fails where
/// memory is wanted: then the shelf holds what it held, or memory is wanted by one of its writes, which it counted.
pub fn answer_words<S: Shelf>(
    alloc: Global,
    words: &[String],
    shelf: &mut S,
) -> Result<Answer, AllocError>
    ensures answers { Answers (status_of result) (form (words_of words.now)) (S.held shelf.old) (S.held shelf.new)
        (Rose (S.read_faults shelf.old) (S.read_faults shelf.new)) (Rose (S.absences shelf.old) (S.absences shelf.new))
        (Rose (S.write_faults shelf.old) (S.write_faults shelf.new)) (Rose (S.denials shelf.old) (S.denials shelf.new)) (text_of result) }
    ensures partly { IsPartly (form (words_of words.now)) (S.held shelf.old) (S.held shelf.new) }
    ensures reliable { S.reliable shelf.old → (S.read_faults shelf.new ≡ S.read_faults shelf.old) × (S.write_faults shelf.new ≡ S.write_faults shelf.old) }
{
    match read_words(alloc, words)? {
        Some(request) => answer_request(alloc, &request, shelf),
        None => {
            let text = Bytes::from_slice(alloc, b"USAGE: modern one FILE OUT\n")?;
            let status = Status::Usage;
            Ok(Answer { status, text })
        }
    }
}
