// What holds of the definitions of statements and of files.
ghost use Rattle.std.specs.Prelude.{◌≡◌, ℕ, List, [], Option, Some, map, flat_map};
ghost use Rattle.text_base.specs.Cards.{Card};
ghost use Rattle.text_base.specs.Pieces.{Piece};
ghost use Rattle.tree77.specs.CardSpelling.{SpellsCard, IsRefusedCard};
ghost use Rattle.tree77.specs.Lexemes.{Part, first_lowest};
ghost use Rattle.tree77.specs.Spelling.{IsWideStatement, SpellsStatement, IsRefusedStatement};
ghost use Rattle.tree77.specs.Statements.{Statement};
ghost use Rattle.unit77.specs.CardPrograms.{AreUnitsOf};
ghost use Rattle.unit77.specs.Laws.{AreReadOrRefused, IsProgram};
ghost use Rattle.unit77.specs.Programs.{ProgramUnit, reading_of, unit_lines};
ghost use Rattle.parse77.specs.Reading.{read_statement, accepted, rejected, outcome_of, card_outcome};
ghost use Rattle.parse77.specs.Statement.{deck_refusals, file_readings};

use format77::bodies_are_read;
use forms77::{forms_are_read, groups_are_split, sizes_are_split};
use scan77::{one_kind, one_list_of_pieces};
use unit77::{one_program, program_or_not, statements_stand};

/// The reading of a statement as a function gives what its pieces spell, with the lowest part of them that is refused, and
/// all that they spell.
pub fn statements_are_read()
    ensures found { (label : ℕ) (pieces : List Piece) (s : Statement) (lowest : Option Part) → read_statement label pieces ≡ Some (s, lowest) → (ps : List Part) × IsWideStatement label pieces s ps × (lowest ≡ first_lowest ps) }
    ensures only { (label : ℕ) (pieces : List Piece) (s : Statement) (ps : List Part) → IsWideStatement label pieces s ps → read_statement label pieces ≡ Some (s, first_lowest ps) }
{
    one_kind();
    forms_are_read();
    groups_are_split();
    sizes_are_split();
    bodies_are_read();
}

/// The outcome of statements and of cards as functions: they give what is spelled or why it is refused, and all that is spelled
/// and each reason.
pub fn statements_are_spelled()
    ensures spelled { (label : ℕ) (pieces : List Piece) (s : Statement) → outcome_of label pieces ≡ accepted s → SpellsStatement label pieces s }
    ensures read { (label : ℕ) (pieces : List Piece) (s : Statement) → SpellsStatement label pieces s → outcome_of label pieces ≡ accepted s }
    ensures refused { (label : ℕ) (pieces : List Piece) (p : Part) → outcome_of label pieces ≡ rejected p → IsRefusedStatement label pieces p }
    ensures found_refused { (label : ℕ) (pieces : List Piece) (p : Part) → IsRefusedStatement label pieces p → outcome_of label pieces ≡ rejected p }
    ensures card_found { (card : Card) (s : Statement) → card_outcome card ≡ accepted s → SpellsCard card s }
    ensures card_only { (card : Card) (s : Statement) → SpellsCard card s → card_outcome card ≡ accepted s }
    ensures card_refused { (card : Card) (p : Part) → card_outcome card ≡ rejected p → IsRefusedCard card p }
    ensures card_refused_only { (card : Card) (p : Part) → IsRefusedCard card p → card_outcome card ≡ rejected p }
{
    one_list_of_pieces();
    statements_are_read();
}

/// Pieces spell at most one statement, are refused for at most one part, and not both.
pub fn one_statement()
    ensures spelled { (label : ℕ) (pieces : List Piece) (s t : Statement) → SpellsStatement label pieces s → SpellsStatement label pieces t → s ≡ t }
    ensures refused { (label : ℕ) (pieces : List Piece) (p q : Part) → IsRefusedStatement label pieces p → IsRefusedStatement label pieces q → p ≡ q }
    ensures apart { (label : ℕ) (pieces : List Piece) (s : Statement) (p : Part) → SpellsStatement label pieces s → IsRefusedStatement label pieces p → ⊥ }
{
    statements_are_spelled();
}

/// Nothing is refused of the statements of a file exactly where they are the units of some program, and their readings are those
/// of the cards.
pub fn files_are_units()
    ensures found { (cards : List Card) → deck_refusals cards ≡ [] → (us : List ProgramUnit) × AreUnitsOf cards us }
    ensures only { (cards : List Card) (us : List ProgramUnit) → AreUnitsOf cards us → deck_refusals cards ≡ [] }
    ensures as_read { (cards : List Card) (us : List ProgramUnit) → IsProgram (file_readings cards) us → AreUnitsOf cards us }
    ensures read { (cards : List Card) (us : List ProgramUnit) → AreUnitsOf cards us → IsProgram (file_readings cards) us }
    ensures or_refused { (cards : List Card) → AreReadOrRefused (file_readings cards) }
{
    statements_are_spelled();
    program_or_not();
}

/// A file is the units of at most one program.
pub fn one_list_of_units()
    ensures { (cards : List Card) (us vs : List ProgramUnit) → AreUnitsOf cards us → AreUnitsOf cards vs → us ≡ vs }
{
    files_are_units();
    one_program();
}

/// The statements of the units of a file, in order, are those of its cards as they are read.
pub fn units_keep_statements()
    ensures { (cards : List Card) (us : List ProgramUnit) → AreUnitsOf cards us → map reading_of (flat_map unit_lines us) ≡ file_readings cards }
{
    files_are_units();
    statements_stand();
}
