// Two parts of a statement as one.
ghost use Rattle.std.specs.Prelude.{◌≡◌, [], Some, None, IfOk};
ghost use Rattle.std.specs.Option.{option_map};
ghost use Rattle.expr_tree.specs.Plain.{expr_of};
ghost use Rattle.tree77.specs.FormTable as sort;
ghost use Rattle.tree77.specs.StatementPlain.{declared_of, header_of, simple_of, statement_of, type_of};
ghost use Rattle.tree77.specs.Statements as plain;
ghost use Rattle.scan77.specs.PieceSlice.{slice_of};
ghost use Rattle.expr77.specs.Views.{plain_part};
ghost use Rattle.forms77.specs.Whole.{whole_of};
ghost use Rattle.parse77.specs.Reading as reading;
ghost use Rattle.parse77.specs.Sort.{size_sort};
ghost use Rattle.parse77.specs.Views.{read_made, only, as_test, as_simple, as_type, as_untyped};

use crate::sort::{ControlSort, SizeSort, Sort};
use crate::whole::{Read, whole};
use expr77::{Part, lower_part};
use forms77::discard;
use scan77::PieceSlice;
use sqlite_items::Boxed;
use std::alloc::{AllocError, Global};
use text_base::Name;
use tree77::{Declared77, Expr, Header77, Names77, Statement77, Stmt77, Type77};

/// The lower of two parts, the first of equal ones.
fn lower<'a>(first: Option<Part<'a>>, second: Option<Part<'a>>) -> Option<Part<'a>>
    ensures { option_map plain_part result ≡ reading.lower_of (option_map plain_part first.entry) (option_map plain_part second.entry) }
{
    match second {
        None => first,
        Some(part) => lower_part(first, Some(part)),
    }
}

/// The condition of the beginning of a block IF. `None` of other statements.
fn test_in(statement: Statement77) -> Option<Expr>
    ensures { option_map (λ x. plain.if_then (expr_of x)) result ≡ as_test (statement_of statement) }
{
    match statement {
        Statement77::IfThen(test) => Some(test),
        other => {
            discard(other);
            None
        }
    }
}

/// A simple statement. `None` of other statements.
fn simple_in(alloc: Global, statement: Statement77) -> Result<Option<Boxed<Stmt77>>, AllocError>
    ensures { IfOk result (λ made. option_map (λ a. plain.simple (simple_of a)) made ≡ as_simple (statement_of statement)) }
{
    match statement {
        Statement77::Simple(simple) => Ok(Some(Boxed::new(alloc, simple)?)),
        other => {
            discard(other);
            Ok(None)
        }
    }
}

/// The type of a declaration without names. `None` of other statements.
fn declared_type(declared: Declared77) -> Option<Type77>
    ensures { option_map (λ t. plain.declared (plain.typed (type_of t) [])) result ≡ as_type (plain.declared (declared_of declared)) }
{
    match declared {
        Declared77::Typed(of, names) => { if names.is_empty() { Some(of) } else { None } }
        _other => None,
    }
}

/// The same of a statement.
fn type_in(statement: Statement77) -> Option<Type77>
    ensures { option_map (λ t. plain.declared (plain.typed (type_of t) [])) result ≡ as_type (statement_of statement) }
{
    match statement {
        Statement77::Declared(declared) => declared_type(declared),
        other => {
            discard(other);
            None
        }
    }
}

/// The name and the dummies of a FUNCTION header without a type. `None` of other headers.
fn untyped_header(header: Header77) -> Option<(Name, Names77)>
    ensures { option_map (λ p. plain.header (plain.function None p.0 p.1)) result ≡ as_untyped (plain.header (header_of header)) }
{
    match header {
        Header77::Function(of, name, dummies) => match of {
            None => Some((name, dummies)),
            Some(_type) => None,
        },
        Header77::Program(_name) => None,
        Header77::Subroutine(_name, _dummies) => None,
        Header77::BlockData(_name) => None,
    }
}

/// The same of a statement.
fn untyped_in(statement: Statement77) -> Option<(Name, Names77)>
    ensures { option_map (λ p. plain.header (plain.function None p.0 p.1)) result ≡ as_untyped (statement_of statement) }
{
    match statement {
        Statement77::Header(header) => untyped_header(header),
        other => {
            discard(other);
            None
        }
    }
}

/// What was read, where it is a condition.
fn condition<'a>(read: Read<'a>) -> Option<(Expr, Option<Part<'a>>)>
    ensures { option_map (λ p. (plain.if_then (expr_of p.0), option_map plain_part p.1)) result ≡ only as_test (read_made read.entry) }
{
    let (statement, lowest) = read?;
    let test = test_in(statement)?;
    Some((test, lowest))
}

/// What was read, where it is a type alone.
fn type_alone<'a>(read: Read<'a>) -> Option<(Type77, Option<Part<'a>>)>
    ensures { option_map (λ p. (plain.declared (plain.typed (type_of p.0) []), option_map plain_part p.1)) result ≡ only as_type (read_made read.entry) }
{
    let (statement, lowest) = read?;
    let of = type_in(statement)?;
    Some((of, lowest))
}

/// What was read, where it is a simple statement. It fails for want of memory alone.
pub fn simple<'a>(
    alloc: Global,
    read: Read<'a>,
) -> Result<Option<(Boxed<Stmt77>, Option<Part<'a>>)>, AllocError>
    ensures { IfOk result (λ made. option_map (λ p. (plain.simple (simple_of p.0), option_map plain_part p.1)) made ≡ only as_simple (read_made read.entry)) }
{
    let Some((statement, lowest)) = read else {
        return Ok(None);
    };
    match simple_in(alloc, statement)? {
        Some(simple) => Ok(Some((simple, lowest))),
        None => Ok(None),
    }
}

/// What was read, where it is a FUNCTION statement without a type.
pub fn untyped<'a>(read: Read<'a>) -> Option<((Name, Names77), Option<Part<'a>>)>
    ensures { option_map (λ p. (plain.header (plain.function None p.0.0 p.0.1), option_map plain_part p.1)) result ≡ only as_untyped (read_made read.entry) }
{
    let (statement, lowest) = read?;
    let header = untyped_in(statement)?;
    Some((header, lowest))
}

/// A simple statement under the condition that these pieces are (X3.9 section 11.5).
#[tactic(auto, using(crate::proofs::Joined::tested))]
pub fn guard<'a>(
    alloc: Global,
    front: PieceSlice<'a>,
    simple: Boxed<Stmt77>,
    second: Option<Part<'a>>,
) -> Result<Read<'a>, AllocError>
    ensures { IfOk result (λ made. read_made made ≡ reading.joined reading.guards (whole_of sort.condition_sort (slice_of front.entry)) (Some (plain.simple (simple_of simple), option_map plain_part second.entry))) }
{
    let read = whole(alloc, Sort::Control(ControlSort::Condition), front)?;
    match condition(read) {
        Some((test, first)) => Ok(Some((Statement77::Guarded(test, simple), lower(first, second)))),
        None => {
            discard(simple);
            Ok(None)
        }
    }
}

/// A FUNCTION statement behind a type, of which these pieces are the length (X3.9 section 15.5.1).
#[tactic(auto, using(crate::proofs::Joined::sized))]
pub fn typed<'a>(
    alloc: Global,
    of: SizeSort,
    size: PieceSlice<'a>,
    header: (Name, Names77),
    second: Option<Part<'a>>,
) -> Result<Read<'a>, AllocError>
    ensures { IfOk result (λ made. read_made made ≡ reading.joined reading.with_type (whole_of (size_sort of) (slice_of size.entry)) (Some (plain.header (plain.function None header.0 header.1), option_map plain_part second.entry))) }
{
    let read = whole(alloc, Sort::Size(of), size)?;
    let (name, dummies) = header;
    match type_alone(read) {
        Some((of, first)) => Ok(Some((
            Statement77::Header(Header77::Function(Some(of), name, dummies)),
            lower(first, second),
        ))),
        None => {
            discard(dummies);
            Ok(None)
        }
    }
}
