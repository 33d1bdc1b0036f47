// Names that are taken, and names that are made.
use crate::help::{check, parts_of};
use crate::table::{Row, rows_of};
use crate::tables::names::NAMES;
use std::alloc::{AllocError, Global};
use std::process::Abort;
use std::test::Fail;
use text_base::chars::{are_name_bytes, is_upper};
use text_base::{Bytes, Name};
use tree90::Names;

fn take(rt: &impl Abort, names: &mut Names, name: &[u8]) -> Result<(), AllocError> {
    assert!(rt; Name::is_name(name));
    names.take(&Name::new(name))
}

// Makes a name, and says it with a stroke behind it.
fn make(
    rt: &impl Abort,
    names: &mut Names,
    base: &[u8],
    said: &mut Bytes,
) -> Result<(), AllocError> {
    assert!(rt; !base.is_empty());
    assert!(rt; is_upper(base[0]));
    assert!(rt; are_name_bytes(base));
    said.extend(names.fresh(base)?.as_slice())?;
    said.push(b'/')
}

fn check_names(rt: &impl Abort, alloc: Global, row: &Row) -> Result<(), Fail> {
    let mut names = Names::new(alloc);
    let mut said = Bytes::new(alloc);
    let taken = parts_of(alloc, row.field(0))?;
    let bases = parts_of(alloc, row.field(1))?;
    for name in taken.iter() {
        take(rt, &mut names, name.as_slice())?;
    }
    for base in bases.iter() {
        make(rt, &mut names, base.as_slice(), &mut said)?;
    }
    row.check(rt, 2, said.as_slice());
    let count = taken.len().saturating_add(bases.len());
    assert_eq!(rt; names.count(), count, "row {}", row.number);
    Ok(())
}

#[test]
fn names_are_made(rt: HostRuntime) -> Result<(), Fail> {
    for row in rows_of(rt.alloc(), NAMES, 12, 3)?.iter() {
        check_names(&rt, rt.alloc(), row)?;
    }
    Ok(())
}

#[test]
fn names_are_cut(rt: HostRuntime) -> Result<(), Fail> {
    let mut names = Names::new(rt.alloc());
    let mut said = Bytes::new(rt.alloc());
    assert_eq!(rt; names.count(), 0);
    for name in [b"A", b"B", b"A"] {
        take(&rt, &mut names, name)?;
    }
    assert_eq!(rt; names.count(), 2);
    names.cut(2);
    assert_eq!(rt; names.count(), 2);
    names.cut(1);
    assert_eq!(rt; names.count(), 1);
    make(&rt, &mut names, b"A", &mut said)?;
    make(&rt, &mut names, b"B", &mut said)?;
    check(&rt, said.as_slice(), b"A_1/B/");
    names.cut(0);
    assert_eq!(rt; names.count(), 0);
    Ok(())
}
