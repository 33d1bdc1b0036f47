// The names of a unit, and why a unit is refused.
ghost use Rattle.std.specs.Prelude.{◌≡◌};
ghost use Rattle.implicit_types.specs.declared.entity.TypeError.TheVariants.{Memory};

use names77::Scalar;
use sqlite_items::Items;
use std::alloc::AllocError;
use text_base::{Bytes, Refusals, Value};
use thiserror::Error;

/// What a name is in its unit (X3.9 section 18.2). The name of a function is `Function` in its own unit too; `External` is a
/// procedure that EXTERNAL names and that is neither referenced nor called.
#[derive(Clone, Copy, Debug, PartialEq, Eq)]
pub enum EntityKind {
    Variable,
    Dummy,
    Constant,
    Function,
    External,
    Subroutine,
    StmtFunction,
    Intrinsic,
}

/// A name of a unit: its characters; what it is; its type, `None` for subroutines and for procedures of which no more is known; the length of
/// characters, `None` for other types and where it is `*`; and the value of a constant.
#[derive(Debug, Drop)]
pub struct Entity {
    pub name: Bytes,
    pub kind: EntityKind,
    pub scalar: Option<Scalar>,
    pub length: Option<u32>,
    pub value: Option<Value>,
}

/// A list of entities, which contracts see as the list.
pub type Entities = Items<Entity>;

/// Why a unit isn't typed: the refusals of its statements, or want of memory.
#[derive(Debug, Drop, Error)]
pub enum TypeError {
    /// The refusals of the unit's statements in the order of the text, one a statement.
    #[error("the unit is refused")]
    Refused(Refusals),
    /// Want of memory. Nothing is known of the unit.
    #[error("memory is wanted")]
    Memory,
}

impl From<AllocError> for TypeError {
    ghost from_gives = { λ _ e. e ≡ Memory };

    fn from(_error: AllocError) -> TypeError {
        TypeError::Memory
    }
}
