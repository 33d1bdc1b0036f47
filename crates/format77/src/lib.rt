//! Formats of FORTRAN 77 (X3.9 section 13): how their texts are spelled, and what they are read as.
#![tactic(auto)]

mod before;
mod build_error;
mod builder;
mod format_read;
mod laws;
mod lexeme;
mod lexeme_reading;
mod number;
mod progress;
mod reading;
mod refused_part;
mod sort;
mod texts;
mod widths;

pub use build_error::BuildError;
pub use builder::Builder;
pub use format_read::FormatRead;
pub use laws::{
    bodies_are_read, one_spelled_format, read_formats_are_spelled, spelled_formats_are_read,
    texts_are_read, worked_formats,
};
pub use lexeme::Lexeme;
pub use reading::{read_format, read_format_text};
