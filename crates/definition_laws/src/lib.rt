//! Laws between independent words of the definitions, so that a wrong definition shows.
#![tactic(auto)]

mod comments;
mod faults;
mod files_accepted;
mod lines;
mod lines_accepted;
mod printing;
mod runs;
mod storage;
mod texts;

pub use comments::{
    a_comment_is_its_line, all_comments_have_positions, positions_tell_entries,
    written_comments_are_those_of_the_source,
};
pub use faults::{
    converted_sources_fault_in_two_ways, faults_have_causes, source_expressions_give_values,
    written_expressions_give_values,
};
pub use files_accepted::files_are_accepted;
pub use lines::{a_file_is_its_lines, columns_are_bytes};
pub use lines_accepted::lines_are_accepted;
pub use printing::owed_lines_are_whole;
pub use runs::{source_runs_are_steady, written_runs_are_steady};
pub use storage::{
    a_store_keeps_what_is_defined, each_variable_has_a_line, each_variable_has_a_place,
    objects_keep_what_is_defined, variables_are_names,
};
pub use texts::{map_texts_tell_lines, report_texts_tell_counts};
