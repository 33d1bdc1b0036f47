// What holds of the definitions of a free-form text.
ghost use Rattle.std.specs.Prelude.{◌≡◌, ℕ, List};
ghost use Rattle.tree90.specs.Tree.{FreeProgram};
ghost use Rattle.tree90.specs.FreeText.{SpellsText};
ghost use Rattle.tree90.specs.Printed.{printed};
ghost use Rattle.tree90.specs.Proper.{IsWritable};

use group77::one_tree;

/// A text has at most one reading: one program, with one list of comments at each place.
pub fn one_reading()
    ensures { (text : List ℕ) (p q : FreeProgram) → SpellsText text p → SpellsText text q → p ≡ q }
{
    one_tree();
}

/// The text of a program that can be written is read as that program.
pub fn printed_is_read()
    ensures { (p : FreeProgram) → IsWritable p → SpellsText (printed p) p }
{}
