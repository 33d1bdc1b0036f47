// The statements of a file, and the program that they are.
use crate::forms::write_as_read;
use crate::table::rows_of;
use crate::tables::statements::STATEMENTS;
use card_reader::{Card, read_cards};
use order77::ReadStatement;
use parse77::{ParseError, parse_deck, read_statements, shown};
use program77::{main_program, unit_name};
use std::alloc::{AllocError, Global};
use std::process::Abort;
use std::test::Fail;
use text_base::{Bytes, Place};
use unit77::{Unit77, Units77};

fn add_place(alloc: Global, place: Place, out: &mut Bytes) -> Result<(), AllocError> {
    let Place { file, line } = place;
    out.extend(format!(in alloc; "{file}:{line} ")?.as_bytes())
}

// The label of a statement, if it has one.
fn add_label(alloc: Global, label: u32, out: &mut Bytes) -> Result<(), AllocError> {
    if label == 0 {
        return Ok(());
    }
    out.extend(format!(in alloc; "label {label} ")?.as_bytes())
}

// That a refusal stands elsewhere than its statement.
fn add_elsewhere(read: &ReadStatement, out: &mut Bytes) -> Result<(), AllocError> {
    match &read.refusal {
        Some(refusal) if refusal.get().place != read.place => out.extend(b"elsewhere "),
        _ => Ok(()),
    }
}

// The place of a statement, its label, what it is read as, its characters and a stroke.
fn add_statement(
    alloc: Global,
    read: &ReadStatement,
    card: &Card,
    out: &mut Bytes,
) -> Result<(), AllocError> {
    add_place(alloc, read.place, out)?;
    add_elsewhere(read, out)?;
    add_label(alloc, read.label, out)?;
    write_as_read(alloc, read, out)?;
    out.push(b' ')?;
    out.extend(shown(alloc, card)?.as_slice())?;
    out.push(b'|')
}

fn add_statements(
    alloc: Global,
    statements: &[ReadStatement],
    cards: &[Card],
    out: &mut Bytes,
) -> Result<(), AllocError> {
    for (read, card) in statements.iter().zip(cards) {
        add_statement(alloc, read, card, out)?;
    }
    let count = statements.len();
    out.extend(format!(in alloc; "{count}")?.as_bytes())
}

// What is said of the statements of a file, and how many there are.
fn statements_told(alloc: Global, file: &[u8]) -> Result<Bytes, Fail> {
    let mut said = Bytes::new(alloc);
    let deck = read_cards(alloc, 7, file)?;
    let statements = read_statements(alloc, &deck)?;
    add_statements(alloc, statements.as_slice(), deck.statements(), &mut said)?;
    Ok(said)
}

// The place of the END of a unit, its name and how many items it has.
fn add_unit(alloc: Global, unit: &Unit77, out: &mut Bytes) -> Result<(), AllocError> {
    add_place(alloc, unit.end.place, out)?;
    out.extend(unit_name(unit).as_slice())?;
    let count = unit.items.len();
    out.extend(format!(in alloc; " {count}")?.as_bytes())
}

// What is said of the main program that units are.
fn add_main(alloc: Global, units: Units77, out: &mut Bytes) -> Result<(), AllocError> {
    match main_program(units) {
        Some(unit) => add_unit(alloc, &unit, out),
        None => out.extend(b"none"),
    }
}

// What is said of the program that a file is.
fn program_told(rt: &impl Abort, alloc: Global, file: &[u8]) -> Result<Bytes, Fail> {
    let mut said = Bytes::new(alloc);
    let deck = read_cards(alloc, 7, file)?;
    assert!(rt; deck.statements().len() < 4294967295);
    match parse_deck(alloc, &deck) {
        Ok(units) => add_main(alloc, units, &mut said)?,
        Err(ParseError::Refused(_refusals)) => said.extend(b"refused")?,
        Err(ParseError::Memory) => said.extend(b"memory")?,
    }
    Ok(said)
}

#[test]
fn statements_and_programs_are_read(rt: HostRuntime) -> Result<(), Fail> {
    let alloc = rt.alloc();
    for row in rows_of(alloc, STATEMENTS, 18, 3)?.iter() {
        row.check(&rt, 1, statements_told(alloc, row.field(0))?.as_slice());
        row.check(&rt, 2, program_told(&rt, alloc, row.field(0))?.as_slice());
    }
    Ok(())
}
