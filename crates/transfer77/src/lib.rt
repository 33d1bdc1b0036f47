//! The readers of input and output statements of FORTRAN 77, behind their keywords (X3.9 section 12).
#![tactic(auto)]

mod controls;
mod formats;
mod settings;
mod specifiers;
mod statements;

pub use controls::{control, file_control};
pub use formats::{format, unit};
pub use specifiers::Keywords;
pub use statements::{close, open, print, read, rewind, write};
