// What holds of the definitions of source programs.
ghost use Rattle.std.specs.Prelude.{◌≡◌, ◌∷◌, [], ℕ, IsTrue, List, map, Some};
ghost use Rattle.text_base.specs.Cards.{Card};
ghost use Rattle.unit77.specs.CardPrograms.{AreUnitsOf};
ghost use Rattle.unit77.specs.Programs.{ProgramUnit};
ghost use Rattle.names77.specs.Text.{text_of};
ghost use Rattle.parse77.specs.Statement.{file_readings};
ghost use Rattle.program77.specs.Built.{Built, SpellsBuilt};
ghost use Rattle.program77.specs.Plain.{is_converted, one_converted};
ghost use Rattle.program77.specs.Source.{IsSource};
ghost use Rattle.program77.specs.SourceReading.{read_card, read_of, reading_card, text_from, read_unit, read_source};
ghost use Rattle.program77.specs.Tree.{SourceProgram};

use parse77::{files_are_units, statements_are_spelled};

/// The reading of cards and of sources as functions: they give what is converted of them, and nothing else is.
pub fn sources_are_read()
    ensures built_found { (card : Card) (b : Built) → read_card card ≡ Some b → SpellsBuilt card b }
    ensures built_only { (card : Card) (b : Built) → SpellsBuilt card b → read_card card ≡ Some b }
    ensures read_alike { (cards : List Card) → map reading_card (file_readings cards) ≡ map read_of cards }
    ensures unit_read { (cards : List Card) (us : List ProgramUnit) → AreUnitsOf cards us → read_unit (map read_of cards) ≡ one_converted us }
    ensures text_read { (cards : List Card) (unit : ProgramUnit) → AreUnitsOf cards (unit ∷ []) → IsTrue (is_converted unit) → text_from 0 (map read_of cards) ≡ text_of unit }
    ensures source_found { (file : ℕ) (bytes : List ℕ) (p : SourceProgram) → read_source file bytes ≡ Some p → IsSource file bytes p }
    ensures source_only { (file : ℕ) (bytes : List ℕ) (p : SourceProgram) → IsSource file bytes p → read_source file bytes ≡ Some p }
{
    statements_are_spelled();
    files_are_units();
}

/// A source has at most one program.
pub fn one_source()
    ensures { (file : ℕ) (bytes : List ℕ) (p q : SourceProgram) → IsSource file bytes p → IsSource file bytes q → p ≡ q }
{
    sources_are_read();
}
