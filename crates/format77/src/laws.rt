// What holds of the spelling of formats.
ghost use Rattle.std.specs.Prelude.{◌≡◌, ℕ, List, map, All, codes, Some};
ghost use Rattle.text_base.specs.Pieces.{Piece, plain_pieces};
ghost use Rattle.text_base.specs.Formats.{FormatItems, SpellsFormat, IsRefusedFormat, SpellsNoFormat};
ghost use Rattle.format77.specs.Reading.{accepted, refused, no_format, format_of};
ghost use Rattle.format77.specs.Rows.{rows, IsOutcome, deep, deep_text};
ghost use Rattle.format77.specs.TextReading.{items_and_parts, read_text};
ghost use Rattle.tree77.specs.Forms.{IsFormatText};
ghost use Rattle.tree77.specs.Lexemes.{Part};
ghost use Rattle.tree77.specs.Spelling.{IsFormatBody};
ghost use Rattle.tree77.specs.Statements as stmt;
ghost use Rattle.tree77.specs.Statements.{Statement};

use scan77::one_list_of_format_pieces;

/// No pieces spell two formats, nor are refused with two words; and none spell a format and are refused.
pub fn one_spelled_format()
    ensures spelled { (depth : ℕ) (pieces : List Piece) (x y : FormatItems) → SpellsFormat depth pieces x → SpellsFormat depth pieces y → x ≡ y }
    ensures refused { (depth : ℕ) (pieces : List Piece) (p q : List ℕ) → IsRefusedFormat depth pieces p → IsRefusedFormat depth pieces q → p ≡ q }
    ensures apart { (depth : ℕ) (pieces : List Piece) (x : FormatItems) (p : List ℕ) → SpellsFormat depth pieces x → IsRefusedFormat depth pieces p → ⊥ }
{}

/// What the reading gives is what the pieces spell, or with which word they are refused, or that they spell none.
pub fn read_formats_are_spelled()
    ensures accepted { (depth : ℕ) (pieces : List Piece) (items : FormatItems) → format_of depth pieces ≡ accepted items → SpellsFormat depth pieces items }
    ensures refused { (depth : ℕ) (pieces : List Piece) (word : List ℕ) → format_of depth pieces ≡ refused word → IsRefusedFormat depth pieces word }
    ensures none { (depth : ℕ) (pieces : List Piece) → format_of depth pieces ≡ no_format → SpellsNoFormat pieces }
{}

/// Each format that is spelled is read to its tree, each that is refused to its word, and where none is spelled none is read.
pub fn spelled_formats_are_read()
    ensures accepted { (depth : ℕ) (pieces : List Piece) (items : FormatItems) → SpellsFormat depth pieces items → format_of depth pieces ≡ accepted items }
    ensures refused { (depth : ℕ) (pieces : List Piece) (word : List ℕ) → IsRefusedFormat depth pieces word → format_of depth pieces ≡ refused word }
    ensures none { (depth : ℕ) (pieces : List Piece) → SpellsNoFormat pieces → format_of depth pieces ≡ no_format }
{}

/// The characters of a character constant are read as the format that they are, with the parts of it that are refused, and as
/// no format where they are none.
pub fn texts_are_read()
    ensures found { (characters : List ℕ) (items : FormatItems) (parts : List Part) → read_text characters ≡ Some (items, parts) → IsFormatText characters items parts }
    ensures only { (characters : List ℕ) (items : FormatItems) (parts : List Part) → IsFormatText characters items parts → read_text characters ≡ Some (items, parts) }
{
    one_list_of_format_pieces();
}

/// The pieces of a FORMAT behind its keyword are read as the statement that they spell, with the parts of it that are refused,
/// and as no format where they spell none.
pub fn bodies_are_read()
    ensures found { (pieces : List Piece) (items : FormatItems) (parts : List Part) → items_and_parts (format_of 0 pieces) ≡ Some (items, parts) → IsFormatBody pieces (stmt.declared (stmt.format items)) parts }
    ensures only { (pieces : List Piece) (s : Statement) (parts : List Part) → IsFormatBody pieces s parts
        → (items : FormatItems) × (s ≡ stmt.declared (stmt.format items)) × (items_and_parts (format_of 0 pieces) ≡ Some (items, parts)) }
{}

/// What these formats spell, worked by hand, and so what they are read as.
pub fn worked_formats()
    ensures spelled { All (λ row. IsOutcome 0 row.0 row.1) rows }
    ensures nested { format_of 1 (plain_pieces (deep_text 199)) ≡ accepted (deep 198) }
    ensures too_deep { format_of 1 (plain_pieces (deep_text 200)) ≡ refused (codes "DEPTH") }
    ensures read { map (λ row. format_of 0 row.0) rows ≡ map (λ row. row.1) rows }
{}
