// The text of a program.
ghost use Rattle.std.specs.Prelude.{◌≡◌, ◌++◌, codes, map, flat_map, IfOk, OnOk};
ghost use Rattle.text_base.specs.Remarks.{remarks_text};
ghost use Rattle.tree90.specs.Plain.{object_of, declared_of, unit_of, program_of};
ghost use Rattle.tree90.specs.Printed.{line, declared_text, unit_text, printed};

use crate::line::write_line;
use crate::statement::write_items;
use std::alloc::{AllocError, Global};
use text_base::{Bytes, Name};
use tree90::{Declared90, Program90, Type90, Unit90};

/// The one text of the program with its comments (ISO/IEC 1539:1991 section 3.3). It fails for want of memory alone.
pub fn print(alloc: Global, program: &Program90) -> Result<Bytes, AllocError>
    ensures { IfOk result (λ text. text ≡ printed (program_of program.now)) }
{
    let mut out = Bytes::new(alloc);
    write_units(&mut out, program.units.as_slice())?;
    out.extend(program.tail.as_slice())?;
    Ok(out)
}

// Appends the lines of some units.
fn write_units(out: &mut Bytes, units: &[Unit90]) -> Result<(), AllocError>
    ensures { OnOk result (out.new ≡ out.old ++ flat_map unit_text (map unit_of units.now)) }
{
    for unit in units {
        write_unit(out, unit)?;
    }
    Ok(())
}

// Appends the lines of a unit.
fn write_unit(out: &mut Bytes, unit: &Unit90) -> Result<(), AllocError>
    ensures { OnOk result (out.new ≡ out.old ++ unit_text (unit_of unit.now)) }
{
    write_header(out, unit)?;
    write_declarations(out, unit.declared.as_slice())?;
    write_items(out, 1, unit.items.as_slice())?;
    write_end(out, unit)
}

// Appends the header with the comments round it, and the fixed lines.
fn write_header(out: &mut Bytes, unit: &Unit90) -> Result<(), AllocError>
    ensures { OnOk result (out.new ≡ out.old ++ (remarks_text unit.now.head ++ line 0 (codes "PROGRAM " ++ unit.now.name) ++ remarks_text unit.now.inner ++ line 1 (codes "IMPLICIT NONE") ++ line 1 (codes "SAVE"))) }
{
    out.extend(unit.head.as_slice())?;
    write_line(out, 0, b"PROGRAM ", unit.name.as_slice())?;
    out.extend(unit.inner.as_slice())?;
    write_line(out, 1, b"IMPLICIT NONE", b"")?;
    write_line(out, 1, b"SAVE", b"")
}

// Appends the comments that stand before END alone, and the END line.
fn write_end(out: &mut Bytes, unit: &Unit90) -> Result<(), AllocError>
    ensures { OnOk result (out.new ≡ out.old ++ (remarks_text unit.now.tail ++ line 0 (codes "END PROGRAM " ++ unit.now.name))) }
{
    out.extend(unit.tail.as_slice())?;
    write_line(out, 0, b"END PROGRAM ", unit.name.as_slice())
}

// Appends the lines of some declarations.
fn write_declarations(out: &mut Bytes, declared: &[Declared90]) -> Result<(), AllocError>
    ensures { OnOk result (out.new ≡ out.old ++ flat_map declared_text (map declared_of declared.now)) }
{
    for declaration in declared {
        write_declaration(out, declaration)?;
    }
    Ok(())
}

// Appends the line of a declaration.
fn write_declaration(out: &mut Bytes, declared: &Declared90) -> Result<(), AllocError>
    ensures { OnOk result (out.new ≡ out.old ++ declared_text (declared_of declared.now)) }
{
    match declared {
        Declared90::Object(kind, name) => write_object(out, *kind, name),
    }
}

// Appends the line of a scalar object.
fn write_object(out: &mut Bytes, kind: Type90, name: &Name) -> Result<(), AllocError>
    ensures { OnOk result (out.new ≡ out.old ++ declared_text (object_of kind name.now)) }
{
    match kind {
        Type90::Integer => write_line(out, 1, b"INTEGER :: ", name.as_slice()),
    }
}
