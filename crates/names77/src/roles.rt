// The roles that names may have by what is said of them.
ghost use Rattle.std.specs.Prelude.{◌≡◌, [], IfOk, OnOk};
ghost use Rattle.names77.specs.RoleTables.{allowed_in, referred_as, given_as, allowed_as, with_role, roles_of};
ghost use Rattle.names77.specs.Notes.{given_to};
ghost use Rattle.names77.specs.Views.{shown_fact, shown_notes, shown_row, shown_table, shown_roles};

use crate::notes::{Fact, Note};
use crate::role::{Allowed, Role};
use crate::table::{Row, Table};
use indexmap::IndexMap;
use std::alloc::{AllocError, Global};
use value_ops::intrinsic;

/// What each name of a unit may be.
#[derive(Drop)]
pub struct Roles<'a> {
    pub map: IndexMap<&'a [u8], Allowed>,
}

/// What a name before a list in parentheses may be: an array, a statement function of the unit, the unit's own function, an
/// intrinsic function unless EXTERNAL names it, or else another function (X3.9 sections 15.2 and 18.2).
pub fn referred_as<'a>(name: &[u8], row: &Row<'a>) -> Allowed
    ensures { result ≡ referred_as name.now (shown_row row.now) }
{
    if row.shape.is_some() {
        Allowed::Dimensioned
    } else if row.dummies.is_some() {
        Allowed::Only(Role::StmtFunction)
    } else if row.is_result {
        Allowed::Only(Role::Result)
    } else if row.is_intrinsic || (!row.is_external && intrinsic(name).is_some()) {
        Allowed::Only(Role::Intrinsic)
    } else {
        Allowed::Only(Role::Function)
    }
}

// What an actual argument may be: a procedure too where a declaration names it.
fn given_as<'a>(row: &Row<'a>) -> Allowed
    ensures { result ≡ given_as (shown_row row.now) }
{
    if row.is_external || row.is_intrinsic {
        Allowed::Anything
    } else {
        Allowed::Valued
    }
}

// What an item of the list behind a name may be: a procedure only where a function of its own is called.
fn given_to<'a>(table: &Table<'a>, name: &[u8], function: &[u8]) -> Allowed
    ensures { result ≡ allowed_as (shown_table table.now) name.now (given_to function.now) }
{
    match referred_as(function, &table.row(function)) {
        Allowed::Only(Role::Function | Role::Result) => given_as(&table.row(name)),
        _ => Allowed::Valued,
    }
}

/// What a fact about a name allows, by what the whole unit says.
pub fn allowed_as<'a>(table: &Table<'a>, note: Note<'a>) -> Allowed
    ensures { result ≡ allowed_as (shown_table table.now) note.entry.key.now (shown_fact note.entry.fact) }
{
    match note.fact {
        Fact::Referred(_) => referred_as(note.key, &table.row(note.key)),
        Fact::Given => given_as(&table.row(note.key)),
        Fact::GivenTo(function) => given_to(table, note.key, function),
        fact => fact.allowed(),
    }
}

impl<'a> Roles<'a> {
    /// No names.
    pub fn new(alloc: Global) -> Roles<'a>
        ensures { shown_roles result ≡ [] }
    {
        Roles {
            map: IndexMap::new(alloc),
        }
    }

    /// What a name may be by what is said of it.
    #[tactic(auto, using(crate::proofs::Rows::role_looked_up))]
    pub fn allowed(&self, name: &[u8]) -> Allowed
        ensures { result ≡ allowed_in (shown_roles self.now) name.now }
    {
        self.map.get(name).copied().unwrap_or(Allowed::Anything)
    }

    /// One more thing that is said of a name. Where it doesn't agree with the earlier ones, those count.
    pub fn add(&mut self, name: &'a [u8], allowed: Allowed) -> Result<(), AllocError>
        ensures { OnOk result (shown_roles self.new ≡ with_role (shown_roles self.old) (record { key = name.entry.now; fact = allowed })) }
    {
        let both = self.allowed(name).narrowed(allowed);
        self.map.insert(name, both)?;
        Ok(())
    }
}

/// What each name of a unit may be, by all its notes and their table. It fails for want of memory alone.
#[tactic(auto, using(crate::proofs::Rows::one_role, std::proofs::lemmas::Grind::common_steps))]
pub fn roles_of<'a>(
    alloc: Global,
    table: &Table<'a>,
    notes: &[Note<'a>],
) -> Result<Roles<'a>, AllocError>
    ensures { IfOk result (λ roles. shown_roles roles ≡ roles_of (shown_table table.now) (shown_notes notes.now)) }
{
    let mut roles = Roles::new(alloc);
    for note in notes {
        roles.add(note.key, allowed_as(table, *note))?;
    }
    Ok(roles)
}
