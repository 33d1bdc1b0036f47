// The variables of a unit.
ghost use Rattle.std.specs.Prelude.{◌≡◌, IsTrue, IfOk, filter, map};
ghost use Rattle.std.specs.List.{list_all};
ghost use Rattle.text_base.specs.Chars.{is_name};
ghost use Rattle.implicit_types.specs.Typing as typing;
ghost use Rattle.implicit_types.specs.Views.{shown_entity};
ghost use Rattle.program77.specs.Typing.{is_variable};

use implicit_types::{Entity, EntityKind};
use sqlite_items::Items;
use std::alloc::{AllocError, Global};
use text_base::Name;

// Whether an entity is a variable.
fn is_variable(entity: &Entity) -> bool
    ensures { result ≡ is_variable (shown_entity entity.now) }
{
    matches!(entity.kind, EntityKind::Variable)
}

/// The names of the variables among a unit's entities, by first appearance. It fails for want of memory alone.
pub fn variables(alloc: Global, entities: &[Entity]) -> Result<Items<Name>, AllocError>
    requires { IsTrue (list_all (λ (e : typing.Entity). is_name e.name) (filter is_variable (map shown_entity entities.now))) }
    ensures { IfOk result (λ names. names ≡ map (λ (e : typing.Entity). e.name) (filter is_variable (map shown_entity entities.now))) }
{
    let mut names = Items::new(alloc);
    for entity in entities {
        if is_variable(entity) {
            names.push(Name::new(entity.name.as_slice()))?;
        }
    }
    Ok(names)
}
