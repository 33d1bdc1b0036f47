// Types of names.
ghost use Rattle.std.specs.Prelude.{◌≡◌, ◌++◌, map, flat_map, slice_index, IfOk, OnOk};
ghost use Rattle.std.specs.Option.{option_map};
ghost use Rattle.tree77.specs.StatementPlain.{type_of, implicit_of, declared_of};
ghost use Rattle.names77.specs.Notes as notes;
ghost use Rattle.names77.specs.Types as plain;
ghost use Rattle.names77.specs.Views.{kind_shown, shown_type, shown_initial, shown_initials, shown_line, shown_lines, shown_row, lent_length};

use crate::lines::{Line, Part};
use crate::role::Role;
use crate::table::Row;
use sqlite_items::Items;
use std::alloc::{AllocError, Global};
use text_base::Op;
use tree77::{Declared77, Implicit77, Length77, Type77};
use value_ops::intrinsic;

/// A type (X3.9 section 4.1).
#[derive(Clone, Copy, Debug, PartialEq, Eq)]
pub enum Scalar {
    Integer,
    Logical,
    Text,
}

/// The type that a name is given, with its length of characters; where it has none, it is 1 (X3.9 section 8.4).
#[derive(Clone, Copy)]
pub struct NameType<'a> {
    pub scalar: Scalar,
    pub length: Option<&'a Length77>,
}

/// The type of the names that begin with letters from one to another (X3.9 section 8.5).
#[derive(Clone, Copy)]
pub struct Initial<'a> {
    pub of: NameType<'a>,
    pub from: u8,
    pub to: u8,
}

/// The types of first letters in the order of the text, which contracts see as the list.
pub type Initials<'a> = Items<Initial<'a>>;

/// The type that a declaration gives a name: its own length counts before that of the type.
pub fn type_with<'a>(of: &'a Type77, own: Option<&'a Length77>) -> NameType<'a>
    ensures { shown_type result ≡ notes.type_with (type_of of.now) (lent_length own.entry) }
{
    match of {
        Type77::Integer => NameType {
            scalar: Scalar::Integer,
            length: None,
        },
        Type77::Logical => NameType {
            scalar: Scalar::Logical,
            length: None,
        },
        Type77::Character(length) => NameType {
            scalar: Scalar::Text,
            length: own.or(length.as_ref()),
        },
    }
}

// ---- by first letters

// Adds the type that a part of an IMPLICIT gives first letters.
fn implicit_initials<'a>(
    found: &mut Initials<'a>,
    implicit: &'a Implicit77,
) -> Result<(), AllocError>
    ensures { OnOk result (shown_initials found.new ≡ shown_initials found.old ++ plain.implicit_initials (implicit_of implicit.now)) }
{
    let of = type_with(&implicit.of, None);
    for letters in implicit.letters.as_slice() {
        found.push(Initial {
            of,
            from: letters.from,
            to: letters.to,
        })?;
    }
    Ok(())
}

// Adds the types that the parts of an IMPLICIT give first letters.
fn implicits_initials<'a>(
    found: &mut Initials<'a>,
    implicits: &'a [Implicit77],
) -> Result<(), AllocError>
    ensures { OnOk result (shown_initials found.new ≡ shown_initials found.old ++ flat_map plain.implicit_initials (map implicit_of implicits.now)) }
{
    for implicit in implicits {
        implicit_initials(found, implicit)?;
    }
    Ok(())
}

/// Adds the types that an IMPLICIT gives first letters; other statements give none.
pub fn add_initials<'a>(found: &mut Initials<'a>, line: Line<'a>) -> Result<(), AllocError>
    ensures { OnOk result (shown_initials found.new ≡ shown_initials found.old ++ plain.line_initials (shown_line line.entry)) }
{
    match line.part {
        Part::Declared(Declared77::Implicit(implicits)) => {
            implicits_initials(found, implicits.as_slice())
        }
        _ => Ok(()),
    }
}

/// The types that the statements of a unit give first letters. It fails for want of memory alone.
pub fn initials_of<'a>(alloc: Global, lines: &[Line<'a>]) -> Result<Initials<'a>, AllocError>
    ensures { IfOk result (λ initials. shown_initials initials ≡ plain.initials_of (shown_lines lines.now)) }
{
    let mut initials = Items::new(alloc);
    for line in lines {
        add_initials(&mut initials, *line)?;
    }
    Ok(initials)
}

// Whether a letter stands from one to another.
fn is_between(from: u8, to: u8, letter: u8) -> bool
    ensures { result ≡ plain.is_between from to letter }
{
    from <= letter && letter <= to
}

// The type of the names that begin with a letter, without IMPLICIT.
fn usual_type<'a>(letter: u8) -> Option<NameType<'a>>
    ensures { option_map shown_type result ≡ plain.usual_type letter }
{
    if is_between(b'I', b'N', letter) {
        Some(NameType {
            scalar: Scalar::Integer,
            length: None,
        })
    } else {
        None
    }
}

// The type of the names that begin with a letter.
fn letter_type<'a>(initials: &[Initial<'a>], letter: u8) -> Option<NameType<'a>>
    ensures { option_map shown_type result ≡ plain.letter_type (map shown_initial initials.now) letter }
{
    let mut found = usual_type(letter);
    for initial in initials {
        if is_between(initial.from, initial.to, letter) {
            found = Some(initial.of);
        }
    }
    found
}

// The first letter of a name.
fn first_letter(name: &[u8]) -> u8
    ensures { result ≡ slice_index name.now 0 }
{
    match name {
        [first, ..] => *first,
        [] => 0,
    }
}

/// The type of a name by its first letter, `None` where it is real. Of two IMPLICITs with that letter the later counts. It takes
/// no memory.
pub fn implicit_type<'a>(initials: &[Initial<'a>], name: &[u8]) -> Option<NameType<'a>>
    ensures { option_map shown_type result ≡ plain.implicit_type (map shown_initial initials.now) name.now }
{
    letter_type(initials, first_letter(name))
}

// ---- of intrinsic functions

// The type of what an intrinsic function gives.
fn given_scalar(op: Op) -> Scalar
    ensures { kind_shown result ≡ plain.given_kind op }
{
    match op {
        Op::Char => Scalar::Text,
        Op::Lge | Op::Lgt | Op::Lle | Op::Llt => Scalar::Logical,
        _ => Scalar::Integer,
    }
}

// The type of an intrinsic function, where a name is that of one.
fn intrinsic_type<'a>(name: &[u8]) -> Option<NameType<'a>>
    ensures { option_map shown_type result ≡ plain.intrinsic_type name.now }
{
    let op = intrinsic(name)?;
    Some(NameType {
        scalar: given_scalar(op),
        length: None,
    })
}

// ---- of names

/// The type of a name by its declaration or else by its first letter, `None` where it is real.
pub fn declared_type<'a>(
    initials: &[Initial<'a>],
    name: &[u8],
    row: &Row<'a>,
) -> Option<NameType<'a>>
    ensures { option_map shown_type result ≡ plain.declared_type (map shown_initial initials.now) name.now (shown_row row.now) }
{
    match row.typed {
        Some(typed) => Some(typed),
        None => implicit_type(initials, name),
    }
}

/// The type of a name in a role. An intrinsic function has its own; subroutines, procedures of which no more is known, and
/// main programs have none.
pub fn type_as<'a>(
    initials: &[Initial<'a>],
    name: &[u8],
    row: &Row<'a>,
    role: Role,
) -> Option<NameType<'a>>
    ensures { option_map shown_type result ≡ plain.type_as (map shown_initial initials.now) name.now (shown_row row.now) role }
{
    match role {
        Role::External | Role::Subroutine | Role::Unit => None,
        Role::Intrinsic => intrinsic_type(name).or(declared_type(initials, name, row)),
        Role::Variable
        | Role::Dummy
        | Role::Constant
        | Role::Result
        | Role::Function
        | Role::StmtFunction => declared_type(initials, name, row),
    }
}

impl Role {
    /// Whether names in this role have types.
    pub fn has_type(self) -> bool
        ensures { result ≡ plain.has_type self }
    {
        !matches!(self, Role::External | Role::Subroutine | Role::Unit)
    }
}
