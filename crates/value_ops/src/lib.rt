//! Operations on scalar values: the operators and the intrinsic functions of both languages.
#![tactic(auto)]

mod error;
mod fitting;
mod integer;
mod intrinsics;
mod laws;
mod logical;
mod operands;
mod operation;
mod text;

pub use error::OpError;
pub use fitting::fits;
pub use integer::{BinaryInt, int_op};
pub use intrinsics::{gives_integer, intrinsic};
pub use laws::{
    blanks_at_the_end_dont_count, index_is_the_first_place, operations_fault_in_three_ways,
    powers_are_products, quotients_are_truncated, types_tell_what_is_given, values_are_storable,
};
pub use logical::{BinaryLog, log_op};
pub use operation::apply;
