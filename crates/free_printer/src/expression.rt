// The text of an expression.
ghost use Rattle.std.specs.Prelude.{◌≡◌, ◌++◌, codes, map, OnOk};
ghost use Rattle.std.specs.Option.{option_map};
ghost use Rattle.std.specs.Fmt.{signed_decimal};
ghost use Rattle.expr_tree.specs.Plain.{exprs_of, bound_of, expr_of};
ghost use Rattle.tree90.specs.Printed.{doubled, expr_text, exprs_text, bound_text};
ghost use Rattle.free_printer.specs.Expression.{separator, quoted};

use crate::symbol::{logical_text, operator_text, sign_text};
use itoa::Buffer;
use sqlite_items::Boxed;
use std::alloc::AllocError;
use text_base::Bytes;
use tree90::{Expr90, Exprs90};

/// Appends an expression. It fails for want of memory alone.
#[cycle(expression)]
#[tactic(auto, using(crate::proofs::Joining::joining))]
pub fn write_expr(out: &mut Bytes, expr: &Expr90) -> Result<(), AllocError>
    ensures { OnOk result (out.new ≡ out.old ++ expr_text (expr_of expr.now)) }
{
    match expr {
        Expr90::Int(value) => write_integer(out, *value),
        Expr90::Bool(value) => out.extend(logical_text(*value).as_bytes()),
        Expr90::Text(characters) => write_quoted(out, characters.as_slice()),
        Expr90::Name(name) => out.extend(name.as_slice()),
        Expr90::Call(name, arguments) => {
            out.extend(name.as_slice())?;
            out.push(b'(')?;
            write_arguments(out, arguments)?;
            out.push(b')')
        }
        Expr90::Substring(variable, from, to) => {
            write_expr(out, variable.get())?;
            out.push(b'(')?;
            write_bound(out, from)?;
            out.push(b':')?;
            write_bound(out, to)?;
            out.push(b')')
        }
        Expr90::Unary(sign, operand) => {
            out.extend(sign_text(*sign).as_bytes())?;
            write_expr(out, operand.get())
        }
        Expr90::Binary(operator, left, right) => {
            write_expr(out, left.get())?;
            out.push(b' ')?;
            out.extend(operator_text(*operator).as_bytes())?;
            out.push(b' ')?;
            write_expr(out, right.get())
        }
        Expr90::Paren(inner) => {
            out.push(b'(')?;
            write_expr(out, inner.get())?;
            out.push(b')')
        }
    }
}

// Appends expressions with commas between them.
#[cycle(expression)]
fn write_arguments(out: &mut Bytes, arguments: &Exprs90) -> Result<(), AllocError>
    ensures { OnOk result (out.new ≡ out.old ++ exprs_text (exprs_of (map expr_of arguments.now))) }
{
    for (place, argument) in arguments.as_slice().iter().enumerate() {
        out.extend(separator(place))?;
        write_expr(out, argument)?;
    }
    Ok(())
}

// Appends a bound of a substring, where it is written.
#[cycle(expression)]
fn write_bound(out: &mut Bytes, bound: &Option<Boxed<Expr90>>) -> Result<(), AllocError>
    ensures { OnOk result (out.new ≡ out.old ++ bound_text (bound_of (option_map expr_of bound.now))) }
{
    match bound {
        None => Ok(()),
        Some(bound) => write_expr(out, bound.get()),
    }
}

/// What stands before the argument at this place, counted from 0.
pub fn separator(place: usize) -> &'static [u8]
    ensures { result.now ≡ separator place }
{
    if place == 0 { b"" } else { b", " }
}

// Appends an integer.
fn write_integer(out: &mut Bytes, value: i32) -> Result<(), AllocError>
    ensures { OnOk result (out.new ≡ out.old ++ signed_decimal value) }
{
    let mut buffer = Buffer::new();
    out.extend(buffer.format(value).as_bytes())
}

// Appends a character constant (ISO/IEC 1539:1991 section 4.3.2.1).
fn write_quoted(out: &mut Bytes, characters: &[u8]) -> Result<(), AllocError>
    ensures { OnOk result (out.new ≡ out.old ++ (codes "'" ++ doubled characters.now ++ codes "'")) }
{
    out.push(b'\'')?;
    for character in characters {
        write_character(out, *character)?;
    }
    out.push(b'\'')
}

// Appends a character of a character constant, an apostrophe twice.
fn write_character(out: &mut Bytes, character: u8) -> Result<(), AllocError>
    ensures { OnOk result (out.new ≡ out.old ++ quoted character) }
{
    if character == b'\'' {
        out.push(b'\'')?;
    }
    out.push(character)
}
