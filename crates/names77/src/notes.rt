// What is said of names.
ghost use Rattle.std.specs.Prelude.{◌≡◌};
ghost use Rattle.order77.specs.Names.{is_among};
ghost use Rattle.names77.specs.Roles.{allowed_by};
ghost use Rattle.names77.specs.Rows.{is_standing};
ghost use Rattle.names77.specs.Views.{shown_fact};

use crate::role::{Allowed, Role};
use crate::types::NameType;
use expr_tree::Expr;
use sqlite_items::Items;
use text_base::Name;
use tree77::Dimension77;

/// Where a name stands: in the expression of a statement function, with its name and its dummies (X3.9 section 15.4), or not.
#[derive(Clone, Copy)]
pub enum Around<'a> {
    Elsewhere,
    Inside(&'a [u8], &'a [Name]),
}

/// What is said of a name.
///
/// It gets a type or dimensions. It is the name of the main program or BLOCK DATA, of the function, of a subroutine, or one of
/// the unit's dummies. It stands in COMMON, EQUIVALENCE, EXTERNAL or INTRINSIC, or as an object of DATA. It is a constant with
/// a value, or a statement function with dummies. It is a dummy of a statement function, which it may not be where its name is an
/// earlier one's or the function's, or stands before a list. A list in parentheses follows it. Its value is used. It stands where a variable must stand: it is assigned,
/// read, counted or saved, or has a substring. It stands alone as an actual argument of a subroutine, or as an item of the list
/// behind a name.
#[derive(Clone, Copy)]
pub enum Fact<'a> {
    Typed(NameType<'a>),
    Shaped(&'a [Dimension77]),
    Titled,
    Result,
    Subroutine,
    Dummy,
    Common,
    Equivalent,
    External,
    Intrinsic,
    Initial,
    Constant(&'a Expr),
    Function(&'a [Name]),
    Parameter(bool),
    Referred(Around<'a>),
    Valued,
    Variable,
    Given,
    GivenTo(&'a [u8]),
}

impl<'a> Fact<'a> {
    /// What a fact allows a name to be by itself; before a list, or alone in one, it may be anything that the whole unit makes it.
    pub fn allowed(self) -> Allowed
        ensures { result ≡ allowed_by (shown_fact self.entry) }
    {
        match self {
            Fact::Typed(_) | Fact::Referred(_) | Fact::Given | Fact::GivenTo(_) =>
                Allowed::Anything,
            Fact::Shaped(_) => Allowed::Dimensioned,
            Fact::Titled => Allowed::Only(Role::Unit),
            Fact::Result => Allowed::Only(Role::Result),
            Fact::Subroutine => Allowed::Only(Role::Subroutine),
            Fact::Dummy => Allowed::Only(Role::Dummy),
            Fact::Common | Fact::Equivalent => Allowed::Only(Role::Variable),
            Fact::External => Allowed::Procedure,
            Fact::Intrinsic => Allowed::Only(Role::Intrinsic),
            Fact::Constant(_) => Allowed::Only(Role::Constant),
            Fact::Function(_) => Allowed::Only(Role::StmtFunction),
            Fact::Initial | Fact::Parameter(_) | Fact::Valued => Allowed::Valued,
            Fact::Variable => Allowed::Definable,
        }
    }

    /// Whether a name stands elsewhere than as a dummy of a statement function.
    pub fn is_standing(self) -> bool
        ensures { result ≡ is_standing (shown_fact self.entry) }
    {
        match self {
            Fact::Parameter(_) => false,
            _ => true,
        }
    }
}

/// Something that is said of a name, by its characters.
#[derive(Clone, Copy)]
pub struct Note<'a> {
    pub key: &'a [u8],
    pub fact: Fact<'a>,
}

/// Notes in the order of the text, which contracts see as the list.
pub type Notes<'a> = Items<Note<'a>>;

/// Whether a name is among others.
pub fn is_among(names: &[Name], name: &[u8]) -> bool
    ensures { result ≡ is_among names.now name.now }
{
    names.iter().any(|other| name == other.as_slice())
}
