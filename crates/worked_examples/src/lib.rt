//! Examples from the bytes of a source to the store, which the checker computes from the definitions.
#![tactic(auto)]

mod commands;
mod free_form;
mod keeping;
mod kinds;
mod matching;
mod numbers;
mod operating;
mod reading;
mod refusing;
mod running;
mod skeleton;
mod spelling;
mod writing;

pub use commands::command_line;
pub use free_form::{improper_programs, loose_reading, tokens_of_lines};
pub use keeping::{kept_deck, kept_marks, kept_pieces, tokens_of_pieces};
pub use kinds::{keywords, kinds_of_statements};
pub use matching::{unfit_maps, unmatched_programs};
pub use numbers::{causes_of_refusals, limits};
pub use operating::{intrinsic_functions, operation_rows, types_of_expressions};
pub use reading::{accepted_sources, sources, whole_deck};
pub use refusing::{continuation_lines, large_files, refused_files};
pub use running::{
    operations, order_of_operands, overflow_run, product_run, short_run, undefined_run, whole_run,
    written_run,
};
pub use skeleton::skeletons;
pub use spelling::{spelled_expressions, spelled_statements};
pub use writing::{comment_positions, printed_parts, storage, whole_reading, whole_texts};
