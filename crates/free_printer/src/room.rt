// The room that an expression takes, without its text.
ghost use Rattle.std.specs.Prelude.{◌≡◌, ◌+◌, ◌-◌, ◌++◌, codes, map, length, nat_le, Some, None, if◌then◌else◌};
ghost use Rattle.std.specs.Option.{option_map};
ghost use Rattle.std.specs.Fmt.{signed_decimal};
ghost use Rattle.text_base.specs.Trees.{assign};
ghost use Rattle.text_base.specs.declared.limits.TheConstants.{LONGEST_WRITTEN};
ghost use Rattle.expr_tree.specs.Plain.{exprs_of, bound_of, expr_of};
ghost use Rattle.tree90.specs.Tree.{simple};
ghost use Rattle.tree90.specs.Printed.{doubled, expr_text, exprs_text, bound_text, action_text, stmt_text};
ghost use Rattle.free_printer.specs.Room.{room_left};
ghost use Rattle.free_printer.specs.Expression.{quoted};

use crate::expression::separator;
use crate::line::blanks;
use crate::symbol::{logical_text, operator_text, sign_text};
use itoa::Buffer;
use sqlite_items::Boxed;
use text_base::limits::LONGEST_WRITTEN;
use tree90::{Expr90, Exprs90};

/// What is left of some room behind the text of an expression, or nothing where the text is longer. No text is made.
#[cycle(room)]
#[tactic(auto, using(crate::proofs::Joining::measuring))]
pub fn room_behind(expr: &Expr90, room: usize) -> Option<usize>
    ensures { result ≡ (if nat_le (length (expr_text (expr_of expr.now))) room then Some (room - length (expr_text (expr_of expr.now))) else None) }
{
    match expr {
        Expr90::Int(value) => room_behind_integer(*value, room),
        Expr90::Bool(value) => room.checked_sub(logical_text(*value).len()),
        Expr90::Text(characters) => room_behind_quoted(characters.as_slice(), room),
        Expr90::Name(name) => room.checked_sub(name.as_slice().len()),
        Expr90::Call(name, arguments) => {
            let room = room.checked_sub(name.as_slice().len())?;
            let room = room.checked_sub(2)?;
            room_behind_arguments(arguments, room)
        }
        Expr90::Substring(variable, from, to) => {
            let room = room_behind(variable.get(), room)?;
            let room = room.checked_sub(3)?;
            let room = room_behind_bound(from, room)?;
            room_behind_bound(to, room)
        }
        Expr90::Unary(sign, operand) => {
            let room = room.checked_sub(sign_text(*sign).len())?;
            room_behind(operand.get(), room)
        }
        Expr90::Binary(operator, left, right) => {
            let room = room_behind(left.get(), room)?;
            let room = room.checked_sub(2)?;
            let room = room.checked_sub(operator_text(*operator).len())?;
            room_behind(right.get(), room)
        }
        Expr90::Paren(inner) => {
            let room = room.checked_sub(2)?;
            room_behind(inner.get(), room)
        }
    }
}

// The same of expressions with commas between them.
#[cycle(room)]
fn room_behind_arguments(arguments: &Exprs90, room: usize) -> Option<usize>
    ensures { result ≡ room_left (length (exprs_text (exprs_of (map expr_of arguments.now)))) room }
{
    let mut left = room;
    for (place, argument) in arguments.as_slice().iter().enumerate() {
        left = left.checked_sub(separator(place).len())?;
        left = room_behind(argument, left)?;
    }
    Some(left)
}

// The same of a bound of a substring, where it is written.
#[cycle(room)]
fn room_behind_bound(bound: &Option<Boxed<Expr90>>, room: usize) -> Option<usize>
    ensures { result ≡ room_left (length (bound_text (bound_of (option_map expr_of bound.now)))) room }
{
    match bound {
        None => Some(room),
        Some(bound) => room_behind(bound.get(), room),
    }
}

// The same of an integer.
fn room_behind_integer(value: i32, room: usize) -> Option<usize>
    ensures { result ≡ room_left (length (signed_decimal value)) room }
{
    let mut buffer = Buffer::new();
    room.checked_sub(buffer.format(value).len())
}

// The same of a character constant.
fn room_behind_quoted(characters: &[u8], room: usize) -> Option<usize>
    ensures { result ≡ room_left (length (codes "'" ++ doubled characters.now ++ codes "'")) room }
{
    let mut left = room.checked_sub(2)?;
    for character in characters {
        left = left.checked_sub(width(*character))?;
    }
    Some(left)
}

// How many characters a character of a character constant takes.
fn width(character: u8) -> usize
    ensures { result ≡ length (quoted character) }
{
    if character == b'\'' { 2 } else { 1 }
}

/// Whether the line of an assignment at this level has at most `LONGEST_WRITTEN` characters before its LF. No text is made.
pub fn is_short_assignment(variable: &Expr90, value: &Expr90, level: usize) -> bool
    ensures { result ≡ nat_le (length (stmt_text level (simple (assign (expr_of variable.now) (expr_of value.now))))) (LONGEST_WRITTEN + 1) }
{
    room_behind_assignment(variable, value, LONGEST_WRITTEN - blanks(level)).is_some()
}

// The room behind an assignment without its blanks and its LF.
fn room_behind_assignment(variable: &Expr90, value: &Expr90, room: usize) -> Option<usize>
    ensures { result ≡ room_left (length (action_text (assign (expr_of variable.now) (expr_of value.now)))) room }
{
    let room = room_behind(variable, room)?;
    let room = room.checked_sub(3)?;
    room_behind(value, room)
}
