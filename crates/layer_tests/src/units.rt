// The units of files: what is refused of them, and their trees.
use crate::expressions::{write_refusal, write_tree};
use crate::forms::{
    write_all_as_read, write_called, write_condition, write_declared, write_header,
    write_progression, write_simple,
};
use crate::help::{answered, check};
use crate::table::{Row, rows_of};
use crate::tables::units::{READ_UNITS, REFUSED_UNITS};
use card_reader::read_cards;
use command::Status;
use order77::{ReadStatement, settle};
use parse77::{ParseError, files_are_units, parse_deck, read_accepted, read_statements};
use sqlite_items::Items;
use std::alloc::{AllocError, Global};
use std::process::Abort;
use std::test::Fail;
use text_base::{Bytes, Name, Place, Refusal, Refusals};
use tree77::{Expr, Statement77, Stmt77};
use unit77::{
    Arm77, Body77, DeclaredLine77, DoHead, EndIf, HeaderLine77, Item77, StmtFunction, Unit77,
    file_refusals, nest_units,
};

type Written = Result<(), AllocError>;

// Trees.

// Writes where a statement stands: its number; its line, unless this is the next number; its label, if it has one.
fn write_spot(alloc: Global, number: u32, label: u32, place: Place, out: &mut Bytes) -> Written {
    let Place { file, line } = place;
    if file != 7 {
        out.extend(b"elsewhere ")?;
    }
    out.extend(format!(in alloc; "{number}")?.as_bytes())?;
    if line != number.saturating_add(1) {
        out.extend(format!(in alloc; ":{line}")?.as_bytes())?;
    }
    if label != 0 {
        out.extend(format!(in alloc; "/{label}")?.as_bytes())?;
    }
    out.push(b' ')
}

fn write_end(alloc: Global, end: &EndIf, word: &[u8], out: &mut Bytes) -> Written {
    write_spot(alloc, end.number, end.label, end.place, out)?;
    out.extend(word)
}

fn write_do(alloc: Global, head: &DoHead, out: &mut Bytes) -> Written {
    let terminal = head.terminal;
    out.extend(format!(in alloc; "do {terminal} ")?.as_bytes())?;
    write_progression(alloc, &head.var, &head.from, &head.to, &head.by, out)
}

// Writes the statement of an arm: IF, ELSE IF or ELSE.
fn write_test(alloc: Global, is_first: bool, test: &Option<Expr>, out: &mut Bytes) -> Written {
    if !is_first {
        out.extend(b"else")?;
    }
    match test {
        Some(test) => {
            if !is_first {
                out.push(b' ')?;
            }
            write_condition(alloc, test, out)?;
            out.extend(b"then")
        }
        None => Ok(()),
    }
}

#[cycle(items)]
fn write_arm(alloc: Global, is_first: bool, arm: &Arm77, out: &mut Bytes) -> Written {
    write_spot(alloc, arm.number, arm.label, arm.place, out)?;
    write_test(alloc, is_first, &arm.test, out)?;
    write_list(alloc, arm.items.as_slice(), out)
}

// Writes arms with a blank behind each.
#[cycle(items)]
fn write_arms(alloc: Global, arms: &[Arm77], out: &mut Bytes) -> Written {
    for (index, arm) in arms.iter().enumerate() {
        write_arm(alloc, index == 0, arm, out)?;
        out.push(b' ')?;
    }
    Ok(())
}

#[cycle(items)]
fn write_item(alloc: Global, item: &Item77, out: &mut Bytes) -> Written {
    write_spot(alloc, item.number, item.label, item.place, out)?;
    match &item.body {
        Body77::Simple(statement) => write_simple(alloc, statement, out),
        Body77::Guarded(condition, statement) => {
            write_condition(alloc, condition, out)?;
            write_simple(alloc, statement.get(), out)
        }
        Body77::If(arms, end) => {
            out.extend(b"block ")?;
            write_arms(alloc, arms.as_slice(), out)?;
            write_end(alloc, end, b"end if", out)
        }
        Body77::Do(head, items) => {
            write_do(alloc, head, out)?;
            write_list(alloc, items.as_slice(), out)
        }
    }
}

#[cycle(items)]
fn write_items(alloc: Global, items: &[Item77], out: &mut Bytes) -> Written {
    if items.is_empty() {
        return out.push(b'-');
    }
    for (index, item) in items.iter().enumerate() {
        if index > 0 {
            out.extend(b"; ")?;
        }
        write_item(alloc, item, out)?;
    }
    Ok(())
}

// Writes a list in parentheses.
#[cycle(items)]
fn write_list(alloc: Global, items: &[Item77], out: &mut Bytes) -> Written {
    out.extend(b" ( ")?;
    write_items(alloc, items, out)?;
    out.extend(b" )")
}

fn write_header_line(alloc: Global, header: &Option<HeaderLine77>, out: &mut Bytes) -> Written {
    match header {
        Some(line) => {
            write_spot(alloc, line.number, line.label, line.place, out)?;
            write_header(alloc, &line.header, out)
        }
        None => out.push(b'-'),
    }
}

fn write_declared_lines(alloc: Global, lines: &[DeclaredLine77], out: &mut Bytes) -> Written {
    if lines.is_empty() {
        return out.push(b'-');
    }
    for (index, line) in lines.iter().enumerate() {
        if index > 0 {
            out.extend(b"; ")?;
        }
        write_spot(alloc, line.number, line.label, line.place, out)?;
        write_declared(alloc, &line.declared, out)?;
    }
    Ok(())
}

fn write_function(alloc: Global, function: &StmtFunction, out: &mut Bytes) -> Written {
    write_spot(alloc, function.number, function.label, function.place, out)?;
    write_called(&function.name, function.dummies.as_slice(), out)?;
    out.extend(b" := ")?;
    write_tree(alloc, &function.value, out)
}

fn write_functions(alloc: Global, functions: &[StmtFunction], out: &mut Bytes) -> Written {
    if functions.is_empty() {
        return out.push(b'-');
    }
    for (index, function) in functions.iter().enumerate() {
        if index > 0 {
            out.extend(b"; ")?;
        }
        write_function(alloc, function, out)?;
    }
    Ok(())
}

fn write_unit(alloc: Global, unit: &Unit77, out: &mut Bytes) -> Written {
    out.extend(b"unit ")?;
    write_spot(alloc, unit.number, 0, unit.place, out)?;
    out.extend(b"| ")?;
    write_header_line(alloc, &unit.header, out)?;
    out.extend(b" | ")?;
    write_declared_lines(alloc, unit.declared.as_slice(), out)?;
    out.extend(b" | ")?;
    write_functions(alloc, unit.functions.as_slice(), out)?;
    out.extend(b" | ")?;
    write_items(alloc, unit.items.as_slice(), out)?;
    out.extend(b" | ")?;
    write_end(alloc, &unit.end, b"end", out)
}

fn write_units(alloc: Global, units: &[Unit77], out: &mut Bytes) -> Written {
    for (index, unit) in units.iter().enumerate() {
        if index > 0 {
            out.extend(b" & ")?;
        }
        write_unit(alloc, unit, out)?;
    }
    Ok(())
}

// Refusals.

// Writes refusals with semicolons between them, each with its line.
pub fn write_refusals(alloc: Global, refusals: &[Refusal], out: &mut Bytes) -> Written {
    for (index, refusal) in refusals.iter().enumerate() {
        if index > 0 {
            out.extend(b"; ")?;
        }
        let Place { file, line } = refusal.place;
        if file != 7 {
            out.extend(b"elsewhere ")?;
        }
        out.extend(format!(in alloc; "{line}: ")?.as_bytes())?;
        write_refusal(alloc, refusal, out)?;
    }
    Ok(())
}

// Writes refusals as they are printed of the file t.f.
fn write_printed(alloc: Global, refusals: &[Refusal], out: &mut Bytes) -> Written {
    for refusal in refusals {
        let line = refusal.place.line;
        let number = refusal.cause.number();
        let text = refusal.cause.text();
        out.extend(format!(in alloc; "t.f:{line}: {number} {text} ")?.as_bytes())?;
        out.extend(refusal.name.as_slice())?;
        out.push(b'\n')?;
    }
    Ok(())
}

/// What is said of a file: its units, or all that is refused of it.
pub fn told(rt: &impl Abort, alloc: Global, file: &[u8]) -> Result<Bytes, Fail> {
    let mut said = Bytes::new(alloc);
    let deck = read_cards(alloc, 7, file)?;
    assert!(rt; deck.statements().len() < 4294967295);
    match parse_deck(alloc, &deck) {
        Ok(units) => write_units(alloc, units.as_slice(), &mut said)?,
        Err(ParseError::Refused(list)) => write_refusals(alloc, list.as_slice(), &mut said)?,
        Err(ParseError::Memory) => said.extend(b"memory")?,
    }
    Ok(said)
}

// What is said of a file, statement by statement and then as units.
fn told_by_parts(rt: &impl Abort, alloc: Global, file: &[u8]) -> Result<Bytes, Fail> {
    files_are_units();
    let mut said = Bytes::new(alloc);
    let deck = read_cards(alloc, 7, file)?;
    assert!(rt; deck.statements().len() < 4294967295);
    match read_accepted(alloc, &deck) {
        Ok(statements) => {
            assert!(rt; statements.len() < 4294967295);
            let units = nest_units(alloc, statements)?;
            write_units(alloc, units.as_slice(), &mut said)?;
        }
        Err(ParseError::Refused(list)) => write_refusals(alloc, list.as_slice(), &mut said)?,
        Err(ParseError::Memory) => said.extend(b"memory")?,
    }
    Ok(said)
}

#[test]
fn units_are_read(rt: HostRuntime) -> Result<(), Fail> {
    let alloc = rt.alloc();
    for row in rows_of(alloc, READ_UNITS, 47, 2)?.iter() {
        row.check(&rt, 1, told(&rt, alloc, row.field(0))?.as_slice());
        row.check(&rt, 1, told_by_parts(&rt, alloc, row.field(0))?.as_slice());
    }
    Ok(())
}

// All that is refused of the statements of a file, each of which is read.
fn refusals_of(rt: &impl Abort, alloc: Global, file: &[u8]) -> Result<Refusals, Fail> {
    let deck = read_cards(alloc, 7, file)?;
    let statements = read_statements(alloc, &deck)?;
    assert!(rt; statements.len() < 4294967295);
    Ok(file_refusals(alloc, statements.as_slice())?)
}

// The top call refuses the file with these refusals, which are printed.
fn check_printed(
    rt: &impl Abort,
    alloc: Global,
    file: &[u8],
    refusals: &[Refusal],
) -> Result<(), Fail> {
    let mut printed = Bytes::new(alloc);
    write_printed(alloc, refusals, &mut printed)?;
    let answer = answered(rt, alloc, file, 7)?;
    assert_eq!(rt; answer.status, Status::Refused);
    check(rt, answer.out.bytes(), printed.as_slice());
    Ok(())
}

// The file of a row is refused of its statements, before what isn't converted yet.
fn check_refused(rt: &impl Abort, alloc: Global, row: &Row) -> Result<(), Fail> {
    row.check(rt, 1, told(rt, alloc, row.field(0))?.as_slice());
    let refusals = refusals_of(rt, alloc, row.field(0))?;
    let mut said = Bytes::new(alloc);
    write_refusals(alloc, refusals.as_slice(), &mut said)?;
    row.check(rt, 1, said.as_slice());
    check_printed(rt, alloc, row.field(0), refusals.as_slice())
}

#[test]
fn units_are_refused(rt: HostRuntime) -> Result<(), Fail> {
    let alloc = rt.alloc();
    for row in rows_of(alloc, REFUSED_UNITS, 216, 2)?.iter() {
        check_refused(&rt, alloc, row)?;
    }
    Ok(())
}

// The assignment or statement function F(I) = 1, as it is read by itself.
fn assignment(alloc: Global, line: u32) -> Result<ReadStatement, AllocError> {
    let mut names = Items::new(alloc);
    names.push(Expr::Name(Name::new(b"I")))?;
    let variable = Expr::Call(Name::new(b"F"), names);
    let statement = Statement77::Simple(Stmt77::Assign(variable, Expr::Int(1)));
    Ok(read(line, statement))
}

// A statement of which nothing is refused.
fn read(line: u32, statement: Statement77) -> ReadStatement {
    ReadStatement {
        label: 0,
        place: Place { file: 7, line },
        statement: Some(statement),
        refusal: None,
    }
}

#[test]
fn statement_functions_are_told_from_assignments(rt: HostRuntime) -> Result<(), Fail> {
    let alloc = rt.alloc();
    let mut statements = Vec::new(alloc);
    statements.push(assignment(alloc, 1)?)?;
    statements.push(read(2, Statement77::Simple(Stmt77::Continue)))?;
    statements.push(assignment(alloc, 3)?)?;
    statements.push(read(4, Statement77::End))?;
    statements.push(assignment(alloc, 5)?)?;
    let settled = settle(alloc, statements)?;
    let mut said = Bytes::new(alloc);
    write_all_as_read(alloc, settled.as_slice(), &mut said)?;
    let wanted = b"F[I] := 1|continue|F[I] = 1|end|F[I] := 1";
    check(&rt, said.as_slice(), wanted);
    Ok(())
}
