// Free-form texts, and programs that aren't proper.
ghost use Rattle.std.specs.Prelude.{All};
ghost use Rattle.tree90.specs.FreeText.{SpellsText};
ghost use Rattle.tree90.specs.FreeTokens.{tokens};
ghost use Rattle.worked_examples.specs.FreeForm.{token_lines, loose_text, loose_program, improper, IsImproper};
ghost use Rattle.worked_examples.specs.Tables.{Gives};

/// Lines of free form with their tokens.
pub fn tokens_of_lines()
    ensures { Gives tokens token_lines }
{}

/// A text that isn't laid out as one that is written, and its program.
pub fn loose_reading()
    ensures { SpellsText loose_text loose_program }
{}

/// None of these programs is proper.
pub fn improper_programs()
    ensures { All IsImproper improper }
{}
