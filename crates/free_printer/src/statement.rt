// The text of statements with the comments before them.
ghost use Rattle.std.specs.Prelude.{◌≡◌, ◌++◌, map, flat_map, OnOk};
ghost use Rattle.tree90.specs.Plain.{action_of, stmt_of};
ghost use Rattle.tree90.specs.Printed.{action_text, stmt_text};
ghost use Rattle.free_printer.specs.Statement.{item_text};

use crate::expression::write_expr;
use crate::line::indent;
use std::alloc::AllocError;
use text_base::Bytes;
use tree90::{Item90, Simple90, Stmt90};

/// Appends the lines of some items.
pub fn write_items(out: &mut Bytes, level: usize, items: &[Item90]) -> Result<(), AllocError>
    ensures { OnOk result (out.new ≡ out.old ++ flat_map (item_text level) items.now) }
{
    for item in items {
        write_item(out, level, item)?;
    }
    Ok(())
}

// Appends the comments of an item, which are never indented, and the lines of its statements.
fn write_item(out: &mut Bytes, level: usize, item: &Item90) -> Result<(), AllocError>
    ensures { OnOk result (out.new ≡ out.old ++ item_text level item.now) }
{
    out.extend(item.comments.as_slice())?;
    write_stmts(out, level, item.body.as_slice())
}

// Appends the lines of some statements.
fn write_stmts(out: &mut Bytes, level: usize, stmts: &[Stmt90]) -> Result<(), AllocError>
    ensures { OnOk result (out.new ≡ out.old ++ flat_map (stmt_text level) (map stmt_of stmts.now)) }
{
    for stmt in stmts {
        write_stmt(out, level, stmt)?;
    }
    Ok(())
}

// Appends the lines of a statement.
fn write_stmt(out: &mut Bytes, level: usize, stmt: &Stmt90) -> Result<(), AllocError>
    ensures { OnOk result (out.new ≡ out.old ++ stmt_text level (stmt_of stmt.now)) }
{
    match stmt {
        Stmt90::Simple(simple) => {
            indent(out, level)?;
            write_simple(out, simple)?;
            out.push(b'\n')
        }
    }
}

// Appends a simple statement.
fn write_simple(out: &mut Bytes, simple: &Simple90) -> Result<(), AllocError>
    ensures { OnOk result (out.new ≡ out.old ++ action_text (action_of simple.now)) }
{
    match simple {
        Simple90::Assign(variable, value) => {
            write_expr(out, variable)?;
            out.extend(b" = ")?;
            write_expr(out, value)
        }
        Simple90::Stop => out.extend(b"STOP"),
    }
}
