//! What the statements of a FORTRAN 77 unit say of its names.
#![tactic(auto)]

mod constants;
mod declared_notes;
mod expression_notes;
mod known;
mod laws;
pub mod limits;
mod lines;
mod notes;
mod role;
mod roles;
mod statement_notes;
mod table;
mod types;

pub use constants::{Constants, binary_op, constants_of, copied, evaluated, length_in, unary_op};
pub use known::{Known, know};
pub use laws::{roles_are_narrowed, text_is_kept};
pub use lines::{Line, Lines, Part, text_of};
pub use notes::{Around, Fact, Note, Notes, is_among};
pub use role::{Allowed, Role};
pub use roles::{Roles, allowed_as, referred_as, roles_of};
pub use statement_notes::{line_notes, notes_of};
pub use table::{Row, Table, rows_of};
pub use types::{
    Initial, Initials, NameType, Scalar, add_initials, declared_type, implicit_type, type_as,
    type_with,
};
