// What is written for a whole program.
ghost use Rattle.std.specs.Prelude.{◌≡◌, codes};
ghost use Rattle.program77.specs.Layout.{layout_of};
ghost use Rattle.tree90.specs.FreeText.{SpellsText};
ghost use Rattle.tree90.specs.Printed.{expr_text};
ghost use Rattle.tree90.specs.Proper.{IsProper};
ghost use Rattle.project_set.specs.Conversion.{program_text, program_map, program_report};
ghost use Rattle.project_set.specs.MapText.{map_line_text};
ghost use Rattle.project_set.specs.Positions.{source_positions, written_positions};
ghost use Rattle.project_set.specs.Rewrite.{written};
ghost use Rattle.worked_examples.specs.Printed.{printed_expressions, map_lines};
ghost use Rattle.worked_examples.specs.Tables.{Gives};
ghost use Rattle.worked_examples.specs.Sources.{whole_source, product_source};
ghost use Rattle.worked_examples.specs.Read.{whole_comments, whole_program, undefined_program, product_program};
ghost use Rattle.worked_examples.specs.Written.{whole_text, product_text, whole_map, whole_report, whole_written, whole_positions, whole_layout};

use crate::reading::{accepted_sources, sources};
use project_set::written_is_proper;
use tree90::printed_is_read;

/// The three texts, byte for byte; a text with a product; and a map in which a variable that is only read stands behind the one on
/// its left.
pub fn whole_texts()
    ensures text { program_text whole_source whole_program ≡ whole_text }
    ensures product { program_text product_source product_program ≡ product_text }
    ensures map { program_map whole_program ≡ whole_map }
    ensures read_only { program_map undefined_program ≡ codes "T.I 0 1 I T:I 1\nT.J 0 1 I T:J 1\nT.K 0 1 I T:K 1\n" }
    ensures report { program_report whole_source whole_program ≡ whole_report }
{}

/// Expressions and lines of a map, as they are written.
pub fn printed_parts()
    ensures expressions { Gives expr_text printed_expressions }
    ensures map_lines { Gives map_line_text map_lines }
{}

/// The program that is written. Its text is read as it, and it is proper.
pub fn whole_reading()
    ensures written { written whole_comments whole_program ≡ whole_written }
    ensures spelled { SpellsText whole_text whole_written }
    ensures proper { IsProper whole_written }
{
    sources();
    accepted_sources();
    written_is_proper();
    printed_is_read();
}

/// The comments of the source and of what is written, at their positions.
pub fn comment_positions()
    ensures source { source_positions whole_source whole_program ≡ whole_positions }
    ensures written { written_positions whole_written ≡ whole_positions }
{}

/// The storage of the program.
pub fn storage()
    ensures { layout_of whole_program ≡ whole_layout }
{}
