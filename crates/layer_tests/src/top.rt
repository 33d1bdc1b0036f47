// The top call: its words, its statuses, what is written and what is printed.
use crate::help::{answered, check, held, outputs, words_of};
use crate::table::{Row, rows_of};
use crate::tables::answers::ANSWERS;
use command::{Status, in_memory, modern};
use std::alloc::{AllocError, Global};
use std::fs::{self, Files};
use std::os::unix::fs::symlink;
use std::process::Abort;
use std::test::Fail;
use text_base::{DiskShelf, MemoryShelf, MemorySink, Shelf, StdSink};

const SOURCE: &[u8] =
    b"C     FIRST\n      PROGRAM T\n      I = 1\n*     NEXT\n      J = I + 2 - 5\n\n      STOP\n      END\n";

const TEXT: &[u8] =
    b"!     FIRST\nPROGRAM T\n  IMPLICIT NONE\n  SAVE\n  INTEGER :: I\n  INTEGER :: J\n  I = 1\n!     NEXT\n  J = I + 2 - 5\n\n  STOP\nEND PROGRAM T\n";

const MAP: &[u8] = b"T.I 0 1 I T:I 1\nT.J 0 1 I T:J 1\n";

const REPORT: &[u8] = b"UNITS 1\nWEBS 0\nKEPT 0\nARRAYS 0\nCUT 0\n";

// The shelf of a row of answers, whose calls fail as the row has it.
fn failing_shelf(alloc: Global, row: &Row) -> Result<MemoryShelf, AllocError> {
    let mut shelf = MemoryShelf::new(alloc);
    shelf.hold("t.f", SOURCE)?;
    shelf.hold("r.f", b"C\n")?;
    shelf.fail_read(row.number_at(1))?;
    shelf.fail_write(row.number_at(2))?;
    Ok(shelf)
}

fn check_answer(rt: &impl Abort, alloc: Global, row: &Row) -> Result<(), Fail> {
    let words = words_of(alloc, row.field(0))?;
    let mut shelf = failing_shelf(alloc, row)?;
    let most = row.number_at(4) as usize;
    assert!(rt; most > 0);
    let mut out = MemorySink::new(alloc, most);
    out.fail_put(row.number_at(3))?;
    let status = modern(alloc, &words, &mut shelf, &mut out);
    let said = format!(in alloc; "{status:?} {}", status.code())?;
    row.check(rt, 5, said.as_bytes());
    row.check(rt, 6, out.bytes());
    row.check(rt, 7, outputs(alloc, &shelf)?.as_slice());
    Ok(())
}

#[test]
fn words_are_answered(rt: HostRuntime) -> Result<(), Fail> {
    for row in rows_of(rt.alloc(), ANSWERS, 36, 8)?.iter() {
        check_answer(&rt, rt.alloc(), row)?;
    }
    Ok(())
}

#[test]
fn an_absent_file_is_missing(rt: HostRuntime) -> Result<(), Fail> {
    let alloc = rt.alloc();
    let words = words_of(alloc, b"one/gone.f/x.f90/")?;
    let mut shelf = MemoryShelf::new(alloc);
    let mut out = MemorySink::new(alloc, 7);
    let status = modern(alloc, &words, &mut shelf, &mut out);
    assert_eq!(rt; status, Status::Missing);
    assert_eq!(rt; status.code(), 4);
    check(&rt, out.bytes(), b"MISSING gone.f\n");
    assert!(rt; shelf.held("x.f90").is_none());
    Ok(())
}

#[test]
fn a_file_is_converted(rt: HostRuntime) -> Result<(), Fail> {
    let alloc = rt.alloc();
    let words = words_of(alloc, b"one/t.f/t.f90/")?;
    let mut shelf = MemoryShelf::new(alloc);
    shelf.hold("t.f", SOURCE)?;
    let mut out = MemorySink::new(alloc, 3);
    let status = in_memory(alloc, &words, &mut shelf, &mut out);
    assert_eq!(rt; status, Status::Done);
    assert_eq!(rt; status.code(), 0);
    check(&rt, out.bytes(), REPORT);
    check(&rt, held(&shelf, "t.f"), SOURCE);
    check(&rt, held(&shelf, "t.f90"), TEXT);
    check(&rt, held(&shelf, "t.f90.map"), MAP);
    check(&rt, held(&shelf, "t.f90.report"), REPORT);
    Ok(())
}

#[test]
fn a_dead_sink_leaves_the_outputs(rt: HostRuntime) -> Result<(), Fail> {
    let alloc = rt.alloc();
    let words = words_of(alloc, b"one/t.f/o/")?;
    let mut shelf = MemoryShelf::new(alloc);
    shelf.hold("t.f", SOURCE)?;
    let mut out = MemorySink::new(alloc, 7);
    for put in 1..=100u64 {
        out.fail_put(put)?;
    }
    assert_eq!(rt;
        modern(alloc, &words, &mut shelf, &mut out),
        Status::WriteFault
    );
    check(&rt, out.bytes(), b"");
    check(&rt, held(&shelf, "o"), TEXT);
    check(&rt, held(&shelf, "o.map"), MAP);
    check(&rt, held(&shelf, "o.report"), REPORT);
    Ok(())
}

/// All bytes but LF in four lines, each after the mark, and then the rest.
fn with_every_byte(alloc: Global, mark: u8, rest: &[u8]) -> Result<Vec<u8>, Fail> {
    let mut made = Vec::new(alloc);
    for number in 0..256usize {
        if number % 64 == 0 {
            made.push(b'\n')?;
            made.push(mark)?;
        }
        if number != 10 {
            made.push(number as u8)?;
        }
    }
    made.push(b'\n')?;
    made.extend_from_slice(rest)?;
    Ok(made)
}

#[test]
fn comments_keep_every_byte(rt: HostRuntime) -> Result<(), Fail> {
    let alloc = rt.alloc();
    let source = with_every_byte(alloc, b'C', SOURCE)?;
    let text = with_every_byte(alloc, b'!', TEXT)?;
    let answer = answered(&rt, alloc, source.as_slice(), 7)?;
    assert_eq!(rt; answer.status, Status::Done);
    check(&rt, answer.out.bytes(), REPORT);
    check(&rt, held(&answer.shelf, "o"), text.as_slice());
    Ok(())
}

#[test]
fn a_real_file_is_converted(rt: HostRuntime) -> Result<(), Fail> {
    let alloc = rt.alloc();
    let mut shelf = DiskShelf::new(rt.alloc(), &rt);
    let mut out = StdSink::new(&rt);
    shelf.write("real.f", SOURCE)?;
    let mut bytes = Vec::new(alloc);
    shelf.read("real.f", &mut bytes)?;
    check(&rt, bytes.as_slice(), SOURCE);
    let gone = words_of(alloc, b"one/gone.f/real.f90/")?;
    assert_eq!(rt; modern(alloc, &gone, &mut shelf, &mut out), Status::Missing);
    let words = words_of(alloc, b"one/real.f/real.f90/")?;
    assert_eq!(rt; modern(alloc, &words, &mut shelf, &mut out), Status::Done);
    let text = fs::read(&rt, "real.f90")?;
    check(&rt, text.as_slice(), TEXT);
    Ok(())
}

// Asks for a conversion of which an output is the file that is read, which stays as it was.
fn keeps_source<R: Files + Abort>(
    rt: &R,
    alloc: Global,
    file: &str,
    out: &str,
    said: &[u8],
) -> Result<(), Fail> {
    let mut words = Vec::new(alloc);
    for word in ["one", file, out] {
        words.push(format!(in alloc; "{word}")?)?;
    }
    let mut shelf = DiskShelf::new(alloc, rt);
    let mut sink = MemorySink::new(alloc, 7);
    assert_eq!(rt;
        modern(alloc, &words, &mut shelf, &mut sink),
        Status::WriteFault
    );
    check(rt, sink.bytes(), said);
    let mut source = Vec::new(alloc);
    shelf.read(file, &mut source)?;
    check(rt, source.as_slice(), SOURCE);
    Ok(())
}

#[test]
fn a_source_is_never_written(rt: HostRuntime) -> Result<(), Fail> {
    let alloc = rt.alloc();
    fs::write(&rt, "own.f", SOURCE)?;
    symlink(&rt, "own.f", "link.f90")?;
    rt.hard_link("own.f", "name.f90")?;
    rt.hard_link("own.f", "third.map")?;
    keeps_source(&rt, alloc, "own.f", "./own.f", b"WRITE FAULT ./own.f\n")?;
    keeps_source(&rt, alloc, "own.f", "link.f90", b"WRITE FAULT link.f90\n")?;
    keeps_source(&rt, alloc, "own.f", "name.f90", b"WRITE FAULT name.f90\n")?;
    keeps_source(&rt, alloc, "link.f90", "own.f", b"WRITE FAULT own.f\n")?;
    keeps_source(&rt, alloc, "own.f", "third", b"WRITE FAULT third.map\n")
}
