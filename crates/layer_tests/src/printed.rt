// The text of Fortran 90 expressions, and how much room they take.
use crate::expressions::write_tree;
use crate::help::statement_of;
use crate::table::rows_of;
use crate::tables::printed::{EXPRESSIONS, PARENTHESES};
use expr77::parse_expr;
use free_printer::{print, room_behind};
use scan77::cut;
use sqlite_items::Items;
use std::alloc::Global;
use std::test::Fail;
use text_base::{Bytes, Name, Remarks};
use tree90::{Expr90, Item90, Program90, Simple90, Stmt90, Unit90, UnitKind90};

// The expression that a text is.
fn expression(alloc: Global, text: &[u8]) -> Result<Expr90, Fail> {
    let read = statement_of(alloc, b"      ", text)?;
    let tokens = cut(alloc, read.pieces.all())?;
    Ok(parse_expr(alloc, read.place, tokens.as_slice())?)
}

// The program T with the one statement X = value.
fn program(alloc: Global, value: Expr90) -> Result<Program90, Fail> {
    let mut body = Items::new(alloc);
    body.push(Stmt90::Simple(Simple90::Assign(Expr90::Name(Name::new(b"X")), value)))?;
    let mut items = Items::new(alloc);
    items.push(Item90 {
        comments: Remarks::new(alloc),
        body,
    })?;
    let mut units = Items::new(alloc);
    units.push(Unit90 {
        kind: UnitKind90::Main,
        name: Name::new(b"T"),
        declared: Items::new(alloc),
        items,
        head: Remarks::new(alloc),
        inner: Remarks::new(alloc),
        tail: Remarks::new(alloc),
    })?;
    Ok(Program90 {
        units,
        tail: Remarks::new(alloc),
    })
}

// The text of the program without what stands before and behind the expression.
fn printed(alloc: Global, value: Expr90) -> Result<Bytes, Fail> {
    let text = print(alloc, &program(alloc, value)?)?;
    let line = text
        .as_slice()
        .strip_prefix(b"PROGRAM T\n  IMPLICIT NONE\n  SAVE\n  X = ")
        .ok_or("another head")?;
    let line = line
        .strip_suffix(b"\nEND PROGRAM T\n")
        .ok_or("another end")?;
    Ok(Bytes::from_slice(alloc, line)?)
}

#[test]
fn expressions_are_printed(rt: HostRuntime) -> Result<(), Fail> {
    let alloc = rt.alloc();
    for row in rows_of(alloc, EXPRESSIONS, 12, 2)?.iter() {
        let value = expression(alloc, row.field(0))?;
        let length = row.field(1).len();
        let short = length.saturating_sub(1);
        let rest = 500usize.saturating_sub(length);
        assert_eq!(rt; room_behind(&value, length), Some(0), "row {}", row.number);
        assert_eq!(rt; room_behind(&value, short), None, "row {}", row.number);
        assert_eq!(rt; room_behind(&value, 500), Some(rest), "row {}", row.number);
        row.check(&rt, 1, printed(alloc, value)?.as_slice());
    }
    Ok(())
}

// The tree of the expression that a text is.
fn tree(alloc: Global, text: &[u8]) -> Result<Bytes, Fail> {
    let mut tree = Bytes::new(alloc);
    write_tree(alloc, &expression(alloc, text)?, &mut tree)?;
    Ok(tree)
}

#[test]
fn parentheses_are_kept(rt: HostRuntime) -> Result<(), Fail> {
    let alloc = rt.alloc();
    for row in rows_of(alloc, PARENTHESES, 39, 3)?.iter() {
        row.check(&rt, 1, tree(alloc, row.field(0))?.as_slice());
        let text = printed(alloc, expression(alloc, row.field(0))?)?;
        row.check(&rt, 2, text.as_slice());
        row.check(&rt, 1, tree(alloc, text.as_slice())?.as_slice());
    }
    Ok(())
}
