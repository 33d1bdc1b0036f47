// What a unit says of its names: their roles, types, lengths and values.
ghost use Rattle.std.specs.Prelude.{◌≡◌, IfOk};
ghost use Rattle.std.specs.Option.{option_map};
ghost use Rattle.std.specs.Borrow.{Bor};
ghost use Rattle.text_base.specs.Values.{value_of};
ghost use Rattle.text_base.specs.declared.operation.Value.{Value as Declared};
ghost use Rattle.names77.specs.Known as plain;
ghost use Rattle.names77.specs.Views.{kind_shown, lent_length, shown_constants, shown_lines, shown_type, shown_known};

use crate::constants::{Constants, constants_of, is_length, length_in};
use crate::lines::Line;
use crate::role::Role;
use crate::roles::{Roles, roles_of};
use crate::statement_notes::notes_of;
use crate::table::{Table, rows_of};
use crate::types::{Initials, NameType, Scalar, initials_of, type_as};
use std::alloc::{AllocError, Global};
use text_base::Value;
use tree77::Length77;

/// What all statements of a unit say of its names.
#[derive(Drop)]
pub struct Known<'a> {
    pub table: Table<'a>,
    pub roles: Roles<'a>,
    pub initials: Initials<'a>,
    pub constants: Constants<'a>,
}

/// What the statements of a unit say of its names. It fails for want of memory alone.
pub fn know<'a>(alloc: Global, lines: &[Line<'a>]) -> Result<Known<'a>, AllocError>
    ensures { IfOk result (λ k. shown_known k ≡ plain.known (shown_lines lines.now)) }
{
    let notes = notes_of(alloc, lines)?;
    let table = rows_of(alloc, notes.as_slice())?;
    let roles = roles_of(alloc, &table, notes.as_slice())?;
    let initials = initials_of(alloc, lines)?;
    let constants = constants_of(alloc, &table, initials.as_slice(), lines)?;
    Ok(Known {
        table,
        roles,
        initials,
        constants,
    })
}

// The length of the characters of a value.
fn text_length(value: Option<&Value>) -> Option<u32>
    ensures { result ≡ plain.text_length (option_map (λ (b : Bor Declared). value_of b.now) value.entry) }
{
    match value {
        Some(Value::Text(text)) => {
            let count = text.as_slice().len();
            if is_length(count) {
                Some(count as u32)
            } else {
                None
            }
        }
        _ => None,
    }
}

impl<'a> Known<'a> {
    /// The role of a name.
    pub fn role(&self, name: &[u8]) -> Role
        ensures { result ≡ plain.role_in (shown_known self.now) name.now }
    {
        self.roles.allowed(name).first_role()
    }

    /// The type of a name, `None` where it is real or has none.
    pub fn name_type(&self, name: &[u8]) -> Option<NameType<'a>>
        ensures { option_map shown_type result ≡ plain.type_in (shown_known self.now) name.now }
    {
        let row = self.table.row(name);
        type_as(self.initials.as_slice(), name, &row, self.role(name))
    }

    /// The type of a name without its length.
    pub fn scalar(&self, name: &[u8]) -> Option<Scalar>
        ensures { option_map kind_shown result ≡ plain.kind_in (shown_known self.now) name.now }
    {
        Some(self.name_type(name)?.scalar)
    }

    /// Whether a name is real by the rules on types (X3.9 section 4.1.2).
    pub fn is_real(&self, name: &[u8]) -> bool
        ensures { result ≡ plain.is_real (shown_known self.now) name.now }
    {
        self.role(name).has_type() && self.name_type(name).is_none()
    }

    /// Whether a name is that of an array.
    pub fn is_array(&self, name: &[u8]) -> bool
        ensures { result ≡ plain.is_array (shown_known self.now) name.now }
    {
        self.table.row(name).shape.is_some()
    }

    // The length of a name of characters that is given one.
    fn length_as(
        &self,
        alloc: Global,
        name: &[u8],
        length: Option<&Length77>,
    ) -> Result<Option<u32>, AllocError>
        ensures { IfOk result (λ n. n ≡ plain.length_as (shown_constants self.now.constants) name.now (plain.role_in (shown_known self.now) name.now) (lent_length length.entry)) }
    {
        match (self.role(name), length) {
            (Role::Constant, Some(Length77::Assumed)) => {
                Ok(text_length(self.constants.value(name)))
            }
            _ => length_in(alloc, &self.constants, length),
        }
    }

    /// The length of a name of characters, where it is known: `None` for other names, for dummies with the length `*`, and where it is outside 1 to 32767. It fails for want of memory alone.
    pub fn name_length(&self, alloc: Global, name: &[u8]) -> Result<Option<u32>, AllocError>
        ensures { IfOk result (λ n. n ≡ plain.name_length (shown_known self.now) name.now) }
    {
        match self.name_type(name) {
            Some(
                NameType {
                    scalar: Scalar::Text,
                    length,
                },
            ) => self.length_as(alloc, name, length),
            _ => Ok(None),
        }
    }
}
