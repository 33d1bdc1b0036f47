// Whole files: what is converted, and what is refused of them.
use crate::help::{answered, check, held, outputs};
use crate::table::{Row, rows_of};
use crate::tables::files::{CONVERTED, REFUSED};
use command::Status;
use std::alloc::Global;
use std::process::Abort;
use std::test::Fail;

// The file of a row is converted, where a call of the sink takes so many bytes.
fn check_converted(rt: &impl Abort, alloc: Global, row: &Row, most: usize) -> Result<(), Fail> {
    let answer = answered(rt, alloc, row.field(0), most)?;
    assert_eq!(rt; answer.status, Status::Done, "row {}", row.number);
    row.check(rt, 3, answer.out.bytes());
    row.check(rt, 1, held(&answer.shelf, "o"));
    row.check(rt, 2, held(&answer.shelf, "o.map"));
    row.check(rt, 3, held(&answer.shelf, "o.report"));
    Ok(())
}

#[test]
fn files_are_converted(rt: HostRuntime) -> Result<(), Fail> {
    for row in rows_of(rt.alloc(), CONVERTED, 19, 4)?.iter() {
        check_converted(&rt, rt.alloc(), row, 2)?;
        check_converted(&rt, rt.alloc(), row, 7)?;
    }
    Ok(())
}

// The file of a row is refused, and nothing is written for it.
fn check_refused(rt: &impl Abort, alloc: Global, row: &Row) -> Result<(), Fail> {
    let answer = answered(rt, alloc, row.field(0), 7)?;
    assert_eq!(rt; answer.status, Status::Refused, "row {}", row.number);
    assert_eq!(rt; answer.status.code(), 1);
    row.check(rt, 1, answer.out.bytes());
    check(rt, outputs(alloc, &answer.shelf)?.as_slice(), b"");
    Ok(())
}

#[test]
fn what_is_not_converted_is_refused(rt: HostRuntime) -> Result<(), Fail> {
    for row in rows_of(rt.alloc(), REFUSED, 50, 2)?.iter() {
        check_refused(&rt, rt.alloc(), row)?;
    }
    Ok(())
}

#[test]
fn a_large_file_is_refused(rt: HostRuntime) -> Result<(), Fail> {
    let alloc = rt.alloc();
    let source = vec![in alloc; b'C'; 16777217]?;
    let answer = answered(&rt, alloc, &source, 7)?;
    assert_eq!(rt; answer.status, Status::Refused);
    let printed = b"t.f:0: 1 FileTooLarge 16777217\n";
    check(&rt, answer.out.bytes(), printed);
    Ok(())
}
