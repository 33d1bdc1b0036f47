// What holds of what is written.
ghost use Rattle.project_set.specs.Laws.{WrittenIsProper, ConversionsDoTheSame};
ghost use Rattle.project_set.specs.Typed.{SourcesAreTyped};

use implicit_types::typed_units_have_one_meaning;
use program77::sources_are_read;
use tree90::{one_reading, printed_is_read};

/// The variables of a source that is converted are integers, and the names of its statements that don't stand before parentheses;
/// no function has the name of one of them, nothing has the program's name, and each part of each statement has the type that its
/// place needs (X3.9 sections 4.1.2, 6 and 18.2).
pub fn sources_are_typed()
    ensures { SourcesAreTyped }
{
    sources_are_read();
    typed_units_have_one_meaning();
}

/// What is written for a source that is converted is a proper program: one main program whose names are declared once
/// each, in which each part has a form that can be written, and no line has more than 132 characters (ISO/IEC 1539:1991
/// section 3.3.1).
pub fn written_is_proper()
    ensures { WrittenIsProper }
{
    sources_are_read();
    sources_are_typed();
}

/// The text of a source that is converted has exactly one reading, which is a proper program. It does what the source does,
/// by the map, and has the same comments at the same positions.
pub fn conversions_do_the_same()
    ensures { ConversionsDoTheSame }
{
    sources_are_typed();
    written_is_proper();
    one_reading();
    printed_is_read();
}
