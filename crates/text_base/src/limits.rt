// The limits on sources and on written texts, each once: code and definitions cite them from here.

/// The most bytes of one source file: 16 MiB.
pub const LARGEST_FILE: usize = 16_777_216;

/// The most bytes of all source files of a project together: 64 MiB.
pub const LARGEST_PROJECT: usize = 67_108_864;

/// The most bytes of an input line, without the CR at its end.
pub const LONGEST_LINE: usize = 132;

/// The last column that is read of a line of a statement (X3.9 section 3.2); what stands behind it is cut off.
pub const LAST_COLUMN: usize = 72;

/// The most continuation lines of one statement.
pub const MOST_CONTINUED: u32 = 99;

/// The most characters of a name.
pub const LONGEST_NAME: usize = 31;

/// The greatest integer, and the greatest integer constant.
pub const GREATEST_INTEGER: u64 = 2_147_483_647;

/// The greatest count that is read before the H of a FORMAT; a greater one counts as this. A statement has fewer characters.
pub const GREATEST_COUNT: u32 = 4_294_967_295;

/// How deep the parentheses of a statement may nest.
pub const DEEPEST_NESTING: usize = 200;

/// The most characters of a written line.
pub const LONGEST_WRITTEN: usize = 132;

/// The most blanks that a written line begins with.
pub const MOST_INDENTED: usize = 60;

/// The most characters of a statement that its refusal shows.
pub const MOST_SHOWN: usize = 12;
