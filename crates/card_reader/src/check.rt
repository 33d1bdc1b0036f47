// What is refused of the lines of a file.
ghost use Rattle.std.specs.Prelude.{◌≡◌, ◌<◌, None, Some, IfOk, IfErr, IfSome};
ghost use Rattle.std.specs.Option.{option_map};
ghost use Rattle.text_base.specs.Kept.{scan_start, scan_all};
ghost use Rattle.text_base.specs.Lines.{label_of, statement_field};
ghost use Rattle.text_base.specs.LineRefusals.{is_bad};
ghost use Rattle.text_base.specs.declared.limits.TheConstants.{GREATEST_COUNT};
ghost use Rattle.card_reader.specs.Check as reading;
ghost use Rattle.card_reader.specs.Check.{state_of};
ghost use Rattle.card_reader.specs.Fault.{fault_of, fault_in};
ghost use Rattle.card_reader.specs.Scan.{scan_of};

use crate::columns::{FIELD, column_6, is_comment, is_initial, label_of, statement_text};
use crate::fault::{Fault, filled_fault, label_fault, long_fault};
use crate::scan::Scan;
use text_base::Cause;
use text_base::limits::MOST_CONTINUED;

/// The lines so far of a statement: what their characters say of those that follow, and how many continuation lines
/// there are since the last initial line.
#[derive(Clone, Copy, Drop)]
pub struct State {
    scan: Scan,
    continued: u32,
}

/// Whether a character with this mark can't stand in a statement.
fn is_bad(byte: u8, mark: u8) -> bool
    ensures { result ≡ is_bad byte mark }
{
    byte < 32 || byte == 127 || (127 < byte && mark == 0)
}

/// What some characters say of those that follow, or the column of the first bad one. The first stands in column 7.
fn read_text(scan: Scan, text: &[u8]) -> Result<Scan, usize>
    ensures good { IfOk result (λ after. (reading.bad_in_field (scan_of scan) text.now ≡ None) × (scan_of after ≡ scan_all (scan_of scan) text.now)) }
    ensures bad { IfErr result (λ column. reading.bad_in_field (scan_of scan) text.now ≡ Some column) }
{
    let mut after = scan;
    for (index, byte) in text.iter().enumerate() {
        if is_bad(*byte, after.mark(*byte)) {
            return Err(index + 7);
        }
        after = after.after(*byte);
    }
    Ok(after)
}

/// What the field of a line says of the characters that follow, or the column of its first bad one. The blanks that it is
/// padded with are taken at once.
fn read_field(scan: Scan, line: &[u8]) -> Result<Scan, usize>
    ensures good { IfOk result (λ after. (reading.bad_in_field (scan_of scan) (statement_field line.now) ≡ None) × (scan_of after ≡ scan_all (scan_of scan) (statement_field line.now))) }
    ensures bad { IfErr result (λ column. reading.bad_in_field (scan_of scan) (statement_field line.now) ≡ Some column) }
{
    let text = statement_text(line);
    match read_text(scan, text) {
        Ok(after) => Ok(after.after_blanks((FIELD - text.len()) as u32)),
        Err(column) => Err(column),
    }
}

/// What the characters of a line say of those that follow, or the first bad one in columns 6 to 72.
fn read_characters(scan: Scan, line: &[u8]) -> Result<Scan, Fault>
    ensures fault { fault_in result ≡ reading.read_character (scan_of scan) line.now }
    ensures after { IfOk result (λ after. scan_of after ≡ scan_all (scan_of scan) (statement_field line.now)) }
{
    let cause = Cause::BadCharacter;
    if is_bad(column_6(line), 0) {
        return Err(Fault { cause, number: 6 });
    }
    match read_field(scan, line) {
        Ok(after) => Ok(after),
        Err(number) => Err(Fault { cause, number }),
    }
}

/// An initial line: what its characters say of those that follow, or what is wrong with it.
fn read_initial(line: &[u8]) -> Result<Scan, Fault>
    ensures fault { fault_in result ≡ reading.read_initial line.now }
    ensures after { IfOk result (λ after. scan_of after ≡ scan_all (scan_start (label_of line.now)) (statement_field line.now)) }
{
    if let Some(fault) = long_fault(line) {
        return Err(fault);
    }
    if let Some(fault) = label_fault(line) {
        return Err(fault);
    }
    read_characters(Scan::start(label_of(line)), line)
}

/// A continuation line of a statement that was begun, likewise. There are at most `MOST_CONTINUED` since the last initial line.
fn read_continuation(state: State, line: &[u8]) -> Result<Scan, Fault>
    ensures fault { fault_in result ≡ reading.read_continuation (Some (state_of state)) line.now }
    ensures after { IfOk result (λ after. scan_of after ≡ scan_all (scan_of state.scan) (statement_field line.now)) }
{
    if let Some(fault) = long_fault(line) {
        return Err(fault);
    }
    if let Some(fault) = filled_fault(line) {
        return Err(fault);
    }
    if state.continued == MOST_CONTINUED {
        let cause = Cause::TooManyContinuations;
        return Err(Fault { cause, number: 6 });
    }
    read_characters(state.scan, line)
}

/// What is wrong with a continuation line that no initial line stands before.
fn unbegun_fault(line: &[u8]) -> Fault
    ensures { Some (fault_of result) ≡ reading.read_continuation None line.now }
{
    if let Some(fault) = long_fault(line) {
        return fault;
    }
    if let Some(fault) = filled_fault(line) {
        return fault;
    }
    let cause = Cause::ContinuationFirst;
    Fault { cause, number: 6 }
}

/// What the lines after a refused initial line go on with: the characters of the statement before it, or of one without label
/// and characters.
fn scan_anew(state: Option<State>) -> Scan
    ensures { scan_of result ≡ (reading.state_anew (option_map state_of state)).scan }
{
    match state {
        None => Scan::start(0),
        Some(state) => state.scan,
    }
}

/// The statement behind an initial line, after the lines so far of the statement before it, and what is wrong with the line.
/// One that is refused is left out.
fn after_initial(before: Option<State>, line: &[u8]) -> (State, Option<Fault>)
    ensures fault { option_map fault_of result.1 ≡ reading.read_initial line.now }
    ensures state { state_of result.0 ≡ reading.state_new (option_map state_of before) (option_map fault_of result.1) line.now }
{
    let (scan, fault) = match read_initial(line) {
        Ok(scan) => (scan, None),
        Err(fault) => (scan_anew(before), Some(fault)),
    };
    (State { scan, continued: 0 }, fault)
}

/// The statement behind one more continuation line, and what is wrong with the line. One that is refused leaves no
/// characters.
fn after_continuation(state: State, line: &[u8]) -> (State, Option<Fault>)
    requires { state.continued < GREATEST_COUNT }
    ensures fault { option_map fault_of result.1 ≡ reading.read_continuation (Some (state_of state)) line.now }
    ensures state { state_of result.0 ≡ reading.state_more (option_map fault_of result.1) line.now (state_of state) }
{
    let (scan, fault) = match read_continuation(state, line) {
        Ok(scan) => (scan, None),
        Err(fault) => (state.scan, Some(fault)),
    };
    let continued = state.continued + 1;
    (State { scan, continued }, fault)
}

/// The statement behind one more line, and what is wrong with the line.
pub fn after_line(state: Option<State>, line: &[u8]) -> (Option<State>, Option<Fault>)
    requires { IfSome state (λ state. state.continued < GREATEST_COUNT) }
    ensures fault { option_map fault_of result.1 ≡ reading.read_fault (option_map state_of state) line.now }
    ensures state { option_map state_of result.0 ≡ reading.state_after (option_map state_of state) (option_map fault_of result.1) line.now }
{
    if is_comment(line) {
        return (state, long_fault(line));
    }
    if is_initial(line) {
        let (state, fault) = after_initial(state, line);
        return (Some(state), fault);
    }
    match state {
        None => (None, Some(unbegun_fault(line))),
        Some(state) => {
            let (state, fault) = after_continuation(state, line);
            (Some(state), fault)
        }
    }
}
