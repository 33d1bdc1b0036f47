// The kinds of statements.
use crate::help::statement_of;
use crate::table::rows_of;
use crate::tables::kinds::{WITH_LABEL, WITHOUT_LABEL};
use scan77::{Kind, classify};
use std::alloc::{AllocError, Global};
use std::process::Abort;
use std::test::Fail;
use text_base::Bytes;

fn lower_case(alloc: Global, bytes: &[u8]) -> Result<Bytes, AllocError> {
    let mut made = Bytes::new(alloc);
    for byte in bytes {
        made.push(byte.to_ascii_lowercase())?;
    }
    Ok(made)
}

// What is said of a kind: one or two words.
fn told(alloc: Global, kind: Kind) -> Result<Bytes, AllocError> {
    let (sort, word) = match kind {
        Kind::Format => ("format", ""),
        Kind::Do => ("do", ""),
        Kind::Assign => ("assign", ""),
        Kind::Keyword(word) => ("keyword ", word.text()),
        Kind::Unsupported(word) => ("unsupported ", word.shown()),
        Kind::RefusedFunction(word) => ("function ", word.text()),
        Kind::Nothing => ("no statement", ""),
    };
    let mut said = Bytes::from_slice(alloc, sort.as_bytes())?;
    said.extend(word.as_bytes())?;
    Ok(said)
}

// What is said of the kind of a statement.
fn kind_of(alloc: Global, head: &[u8], statement: &[u8]) -> Result<Bytes, Fail> {
    let read = statement_of(alloc, head, statement)?;
    Ok(told(alloc, classify(read.label, read.pieces.all()))?)
}

// Each statement has its kind, in upper and in lower case.
fn check_kinds(
    rt: &impl Abort,
    alloc: Global,
    table: &str,
    count: usize,
    head: &[u8],
) -> Result<(), Fail> {
    for row in rows_of(alloc, table, count, 2)?.iter() {
        let upper = kind_of(alloc, head, row.field(0))?;
        row.check(rt, 1, upper.as_slice());
        let statement = lower_case(alloc, row.field(0))?;
        let lower = kind_of(alloc, head, statement.as_slice())?;
        row.check(rt, 1, lower.as_slice());
    }
    Ok(())
}

#[test]
fn statements_have_kinds(rt: HostRuntime) -> Result<(), Fail> {
    check_kinds(&rt, rt.alloc(), WITHOUT_LABEL, 66, b"     0")
}

#[test]
fn statements_with_a_label_have_kinds(rt: HostRuntime) -> Result<(), Fail> {
    check_kinds(&rt, rt.alloc(), WITH_LABEL, 6, b"   10 ")
}
