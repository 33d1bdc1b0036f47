// Bytes, names, comments, causes, shelf and sink.
use crate::help::{check, held};
use std::alloc::{AllocError, Global};
use std::test::Fail;
use std::{fs, process};
use text_base::{
    Bytes, Cause, DiskShelf, MemoryShelf, MemorySink, Name, Place, Remarks, Shelf, ShelfRead,
    ShelfWrite, Sink, SinkError, StdSink, not_built,
};

// The number and the text of a cause, and a stroke.
fn add_cause(alloc: Global, cause: Cause, out: &mut Bytes) -> Result<(), AllocError> {
    let number = cause.number();
    out.extend(format!(in alloc; "{number} ")?.as_bytes())?;
    out.extend(cause.text().as_bytes())?;
    out.push(b'|')
}

#[test]
fn causes(rt: HostRuntime) -> Result<(), Fail> {
    let causes = [
        Cause::FileTooLarge,
        Cause::LineTooLong,
        Cause::BadLabelField,
        Cause::ContinuationFirst,
        Cause::TooManyContinuations,
        Cause::BadCharacter,
        Cause::NotAStatement,
        Cause::Unsupported,
        Cause::ConstantRange,
        Cause::NameTooLong,
        Cause::MissingEnd,
        Cause::MainCount,
        Cause::StatementTooLong,
        Cause::NotBuilt,
    ];
    let mut said = Bytes::new(rt.alloc());
    for cause in causes {
        add_cause(rt.alloc(), cause, &mut said)?;
    }
    let wanted =
        b"1 FileTooLarge|2 LineTooLong|3 BadLabelField|4 ContinuationFirst|5 TooManyContinuations|6 BadCharacter|7 NotAStatement|8 Unsupported|9 ConstantRange|10 NameTooLong|13 MissingEnd|29 MainCount|37 StatementTooLong|99 NotBuilt|";
    check(&rt, said.as_slice(), wanted);
    Ok(())
}

#[test]
fn bytes(rt: HostRuntime) -> Result<(), Fail> {
    let mut bytes = Bytes::new(rt.alloc());
    check(&rt, bytes.as_slice(), b"");
    bytes.push(b'a')?;
    bytes.extend(b"bc")?;
    check(&rt, bytes.as_slice(), b"abc");
    let copy = Bytes::from_slice(rt.alloc(), bytes.as_slice())?;
    check(&rt, copy.as_slice(), b"abc");
    let items = b"de".to_vec(rt.alloc())?;
    check(&rt, Bytes::from_vec(items).as_slice(), b"de");
    Ok(())
}

#[test]
fn names(rt: HostRuntime) {
    for text in ["A", "X_9", "ABCDEFGHIJKLMNOPQRSTUVWXYZ01234"] {
        assert!(rt; Name::is_name(text.as_bytes()), "{text}");
    }
    let longer = "ABCDEFGHIJKLMNOPQRSTUVWXYZ012345";
    for text in [longer, "9A", "_A", "Ab", "a", "A B", ""] {
        assert!(rt; !Name::is_name(text.as_bytes()), "{text}");
    }
    let characters = b"X_9".as_slice();
    assert!(rt; Name::is_name(characters));
    let name = Name::new(characters);
    check(&rt, name.as_slice(), characters);
    check(&rt, name.copy().as_slice(), characters);
}

#[test]
fn remarks(rt: HostRuntime) -> Result<(), Fail> {
    let mut remarks = Remarks::new(rt.alloc());
    assert!(rt; remarks.is_empty());
    remarks.push(true, b" FIRST")?;
    remarks.push(false, b"  ")?;
    let mut more = Remarks::new(rt.alloc());
    more.push(false, b"")?;
    more.push(true, b"!")?;
    remarks.extend(&more)?;
    assert!(rt; !remarks.is_empty());
    check(&rt, remarks.as_slice(), b"! FIRST\n  \n\n!!\n");
    Ok(())
}

#[test]
fn one_refusal(rt: HostRuntime) -> Result<(), Fail> {
    let refusals = not_built(rt.alloc(), 3)?;
    assert_eq!(rt; refusals.len(), 1);
    for refusal in refusals.as_slice() {
        assert_eq!(rt; refusal.place, Place { file: 3, line: 0 });
        assert_eq!(rt; refusal.cause, Cause::NotBuilt);
        check(&rt, refusal.name.as_slice(), b"0");
    }
    Ok(())
}

fn read_word(read: Result<(), ShelfRead>) -> &'static str {
    match read {
        Ok(()) => "read ",
        Err(ShelfRead::Missing) => "missing ",
        Err(ShelfRead::Failed) => "failed ",
        Err(ShelfRead::Memory) => "memory ",
    }
}

fn write_word(write: Result<(), ShelfWrite>) -> &'static str {
    match write {
        Ok(()) => "written ",
        Err(ShelfWrite::Failed) => "failed ",
        Err(ShelfWrite::Memory) => "memory ",
    }
}

// What the reads of some names answer, and what they read.
fn reads(alloc: Global, shelf: &mut MemoryShelf, names: &[&str]) -> Result<Bytes, AllocError> {
    let mut said = Bytes::new(alloc);
    let mut into = Vec::new(alloc);
    for name in names {
        said.extend(read_word(shelf.read(name, &mut into)).as_bytes())?;
    }
    said.extend(into.as_slice())?;
    Ok(said)
}

// What a write of a name answers, and what is held for it then.
fn written(
    alloc: Global,
    shelf: &mut MemoryShelf,
    name: &str,
    bytes: &[u8],
) -> Result<Bytes, AllocError> {
    let mut said = Bytes::new(alloc);
    said.extend(write_word(shelf.write(name, bytes)).as_bytes())?;
    said.extend(held(shelf, name))?;
    Ok(said)
}

#[test]
fn memory_shelf(rt: HostRuntime) -> Result<(), Fail> {
    let alloc = rt.alloc();
    let mut shelf = MemoryShelf::new(alloc);
    shelf.hold("a.f", b"one")?;
    shelf.fail_read(2)?;
    shelf.fail_write(1)?;
    let said = reads(alloc, &mut shelf, &["a.f", "a.f", "b.f", "a.f"])?;
    check(&rt, said.as_slice(), b"read failed missing read oneone");
    let said = written(alloc, &mut shelf, "a.f", b"two")?;
    check(&rt, said.as_slice(), b"failed one");
    let said = written(alloc, &mut shelf, "a.f", b"two")?;
    check(&rt, said.as_slice(), b"written two");
    assert!(rt; shelf.held("b.f").is_none());
    Ok(())
}

// How many bytes a call took, or that it failed, and a stroke.
fn add_put(
    alloc: Global,
    put: Result<usize, SinkError>,
    out: &mut Bytes,
) -> Result<(), AllocError> {
    match put {
        Ok(count) => out.extend(format!(in alloc; "{count}|")?.as_bytes()),
        Err(SinkError::Failed) => out.extend(b"failed|"),
        Err(SinkError::Memory) => out.extend(b"memory|"),
    }
}

// What four calls of a sink answer, of which the second fails, and the bytes that it has then.
fn puts(alloc: Global, sink: &mut MemorySink) -> Result<Bytes, AllocError> {
    let mut said = Bytes::new(alloc);
    for bytes in [b"abcd".as_slice(), b"abcd", b"ab", b""] {
        add_put(alloc, sink.put(bytes), &mut said)?;
    }
    said.extend(sink.bytes())?;
    Ok(said)
}

#[test]
fn memory_sink(rt: HostRuntime) -> Result<(), Fail> {
    let mut sink = MemorySink::new(rt.alloc(), 1);
    sink.fail_put(2)?;
    let said = puts(rt.alloc(), &mut sink)?;
    check(&rt, said.as_slice(), b"1|failed|1|0|aa");
    let mut sink = MemorySink::new(rt.alloc(), 3);
    sink.fail_put(2)?;
    let said = puts(rt.alloc(), &mut sink)?;
    check(&rt, said.as_slice(), b"3|failed|2|0|abcab");
    Ok(())
}

// What a file of the disk answers that is written, read, removed and read again, and what was read.
fn disk(rt: &HostRuntime, name: &str) -> Result<Bytes, Fail> {
    let mut said = Bytes::new(rt.alloc());
    let mut into = Vec::new(rt.alloc());
    let mut shelf = DiskShelf::new(rt.alloc(), rt);
    said.extend(write_word(shelf.write(name, b"      END\n")).as_bytes())?;
    said.extend(read_word(shelf.read(name, &mut into)).as_bytes())?;
    fs::remove_file(rt, name)?;
    said.extend(read_word(shelf.read(name, &mut into)).as_bytes())?;
    said.extend(into.as_slice())?;
    Ok(said)
}

#[test]
fn outside(rt: HostRuntime) -> Result<(), Fail> {
    let number = process::id(rt.process());
    let name = format!(in rt.alloc(); "/tmp/text_base_{number}.f")?;
    let said = disk(&rt, name.as_str())?;
    check(&rt, said.as_slice(), b"written read missing       END\n");
    let mut said = Bytes::new(rt.alloc());
    let mut sink = StdSink::new(&rt);
    add_put(rt.alloc(), sink.put(b"a few bytes\n"), &mut said)?;
    add_put(rt.alloc(), sink.put(b""), &mut said)?;
    check(&rt, said.as_slice(), b"12|0|");
    Ok(())
}
