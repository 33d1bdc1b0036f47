// The typing of units: their entities, and what is refused of them.
use crate::table::rows_of;
use crate::tables::typing::{REFUSED_TYPES, TYPED_UNITS};
use crate::units::write_refusals;
use card_reader::read_cards;
use implicit_types::{Entity, EntityKind, TypeError, has_no_equivalence, type_unit};
use names77::Scalar;
use parse77::parse_deck;
use std::alloc::{AllocError, Global};
use std::process::Abort;
use std::test::Fail;
use text_base::{Bytes, Value};
use unit77::Unit77;

type Written = Result<(), AllocError>;

fn kind_text(kind: EntityKind) -> &'static str {
    match kind {
        EntityKind::Variable => "Variable",
        EntityKind::Dummy => "Dummy",
        EntityKind::Constant => "Constant",
        EntityKind::Function => "Function",
        EntityKind::External => "External",
        EntityKind::Subroutine => "Subroutine",
        EntityKind::StmtFunction => "StmtFunction",
        EntityKind::Intrinsic => "Intrinsic",
    }
}

// Writes the type of a name: with its length where it has characters, and `-` where it has none.
fn write_type(alloc: Global, entity: &Entity, out: &mut Bytes) -> Written {
    match (entity.scalar, entity.length) {
        (None, _) => out.push(b'-'),
        (Some(Scalar::Integer), _) => out.extend(b"integer"),
        (Some(Scalar::Logical), _) => out.extend(b"logical"),
        (Some(Scalar::Text), None) => out.extend(b"character*(*)"),
        (Some(Scalar::Text), Some(length)) => {
            out.extend(format!(in alloc; "character*{length}")?.as_bytes())
        }
    }
}

// Writes the value of a constant behind a blank.
fn write_value(alloc: Global, value: &Option<Value>, out: &mut Bytes) -> Written {
    match value {
        None => Ok(()),
        Some(Value::Integer(number)) => out.extend(format!(in alloc; " {number}")?.as_bytes()),
        Some(Value::Logical(true)) => out.extend(b" .TRUE."),
        Some(Value::Logical(false)) => out.extend(b" .FALSE."),
        Some(Value::Text(text)) => {
            out.extend(b" '")?;
            out.extend(text.as_slice())?;
            out.push(b'\'')
        }
    }
}

// Writes entities with a semicolon and a blank between them.
fn write_entities(alloc: Global, entities: &[Entity], out: &mut Bytes) -> Written {
    for (index, entity) in entities.iter().enumerate() {
        if index > 0 {
            out.extend(b"; ")?;
        }
        out.extend(entity.name.as_slice())?;
        out.push(b' ')?;
        out.extend(kind_text(entity.kind).as_bytes())?;
        out.push(b' ')?;
        write_type(alloc, entity, out)?;
        write_value(alloc, &entity.value, out)?;
    }
    Ok(())
}

// Writes the entities of a unit, or all that is refused of it.
fn write_unit(rt: &impl Abort, alloc: Global, unit: &Unit77, out: &mut Bytes) -> Written {
    let has_none = has_no_equivalence(unit);
    assert!(rt; has_none);
    match type_unit(alloc, unit) {
        Ok(typed) => write_entities(alloc, typed.entities(), out),
        Err(TypeError::Refused(list)) => write_refusals(alloc, list.as_slice(), out),
        Err(TypeError::Memory) => out.extend(b"memory"),
    }
}

// What is said of the units of a file.
fn told(rt: &impl Abort, alloc: Global, file: &[u8]) -> Result<Bytes, Fail> {
    let mut said = Bytes::new(alloc);
    let deck = read_cards(alloc, 7, file)?;
    assert!(rt; deck.statements().len() < 4294967295);
    match parse_deck(alloc, &deck) {
        Ok(units) => {
            for unit in units.as_slice() {
                write_unit(rt, alloc, unit, &mut said)?;
            }
        }
        Err(_) => said.extend(b"no units")?,
    }
    Ok(said)
}

#[test]
fn units_are_typed(rt: HostRuntime) -> Result<(), Fail> {
    let alloc = rt.alloc();
    for row in rows_of(alloc, TYPED_UNITS, 150, 2)?.iter() {
        row.check(&rt, 1, told(&rt, alloc, row.field(0))?.as_slice());
    }
    Ok(())
}

#[test]
fn types_are_refused(rt: HostRuntime) -> Result<(), Fail> {
    let alloc = rt.alloc();
    for row in rows_of(alloc, REFUSED_TYPES, 282, 2)?.iter() {
        row.check(&rt, 1, told(&rt, alloc, row.field(0))?.as_slice());
    }
    Ok(())
}
