// The map: where each place of the source's storage stands in the written program.
ghost use Rattle.std.specs.Prelude.{◌≡◌, ◌++◌, IfOk, OnOk};
ghost use Rattle.project_set.specs.MapText.{map_line_text, line_of, lines_text};

use std::alloc::{AllocError, Global};
use text_base::{Bytes, Name};

/// The text of the map of a unit: a line for each of its variables. It fails for want of memory alone.
pub fn map_of(alloc: Global, unit: &Name, variables: &[Name]) -> Result<Bytes, AllocError>
    ensures { IfOk result (λ text. text ≡ lines_text unit.now variables.now) }
{
    let mut out = Bytes::new(alloc);
    for variable in variables {
        write_line(&mut out, unit, variable)?;
    }
    Ok(out)
}

/// Appends the line of a variable. It is its own sequence, of one integer place, and the object of its name
/// in its unit.
fn write_line(out: &mut Bytes, unit: &Name, variable: &Name) -> Result<(), AllocError>
    ensures { OnOk result (out.new ≡ out.old ++ map_line_text (line_of unit.now variable.now)) }
{
    write_parts(out, unit, b".", variable)?;
    out.extend(b" 0 1 I ")?;
    write_parts(out, unit, b":", variable)?;
    out.extend(b" 1\n")
}

fn write_parts(
    out: &mut Bytes,
    unit: &Name,
    separator: &[u8],
    variable: &Name,
) -> Result<(), AllocError>
    ensures { OnOk result (out.new ≡ out.old ++ unit.now ++ separator.now ++ variable.now) }
{
    out.extend(unit.as_slice())?;
    out.extend(separator)?;
    out.extend(variable.as_slice())
}
