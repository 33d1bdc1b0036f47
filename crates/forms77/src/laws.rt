// What holds of statements that have a form.
ghost use Rattle.std.specs.Prelude.{◌≡◌, ◌++◌, ℕ, true, codes, List, map, Option, Some};
ghost use Rattle.text_base.specs.Pieces.{Piece, plain};
ghost use Rattle.text_base.specs.Trees.{Expr};
ghost use Rattle.tree77.specs.FormTable.{Sort, arithmetic_sort, condition_sort, then_sort};
ghost use Rattle.tree77.specs.Forms.{behind_group, stays};
ghost use Rattle.tree77.specs.Lexemes.{Lexeme, Part, first_lowest, IsWideExpression};
ghost use Rattle.tree77.specs.Spelling.{HasForm, sort_in, size_sorts};
ghost use Rattle.tree77.specs.Statements.{Statement};
ghost use Rattle.scan77.specs.PieceSlice.{split_group, split_size};
ghost use Rattle.forms77.specs.Whole.{whole_of};

use expr77::{constants_are_quoted, expressions_are_cut, expressions_are_read, expressions_stop};
use format77::texts_are_read;
use scan77::{cuts_are_parted, one_cut};

/// What all pieces are read as by the form of a sort is what they stand for by it, and the part of the lowest cause among
/// those of them that are refused; and pieces that have the form are read so.
pub fn forms_are_read()
    ensures found { (k : Sort) (pieces : List Piece) (s : Statement) (lowest : Option Part) → whole_of k pieces ≡ Some (s, lowest) → (ps : List Part) × HasForm k pieces s ps × (lowest ≡ first_lowest ps) }
    ensures only { (k : Sort) (pieces : List Piece) (s : Statement) (ps : List Part) → HasForm k pieces s ps → whole_of k pieces ≡ Some (s, first_lowest ps) }
{
    one_cut();
    cuts_are_parted();
    expressions_stop();
    expressions_are_cut();
    expressions_are_read();
    constants_are_quoted();
    texts_are_read();
}

/// A condition in parentheses is parted from what stands behind it by its own pieces, and so is what stands before the labels
/// of an arithmetic IF or before THEN. The two parts are all pieces.
pub fn groups_are_split()
    ensures condition { (front under : List Piece) (s : Statement) (ps : List Part) → HasForm condition_sort front s ps → split_group (front ++ under) ≡ Some (front, under) }
    ensures labels { (rest : List Piece) (s : Statement) (ps : List Part) → HasForm arithmetic_sort rest s ps → (front : List Piece) × (under : List Piece) × (split_group rest ≡ Some (front, under)) × (behind_group 0 rest ≡ under) }
    ensures block { (rest : List Piece) (s : Statement) (ps : List Part) → HasForm then_sort rest s ps → (front : List Piece) × (under : List Piece) × (split_group rest ≡ Some (front, under)) × (behind_group 0 rest ≡ under) }
    ensures parted { (pieces front under : List Piece) → split_group pieces ≡ Some (front, under) → (pieces ≡ front ++ under) × (behind_group 0 pieces ≡ under) }
{}

/// What stands between a type and FUNCTION is parted from it by its own pieces. The two parts are all pieces.
pub fn sizes_are_split()
    ensures size { (k : Sort) (word : List ℕ) (size rest : List Piece) (s : Statement) (ps : List Part) → sort_in size_sorts word ≡ Some k → HasForm k size s ps → split_size (size ++ (map plain (codes "FUNCTION") ++ rest)) ≡ Some (size, map plain (codes "FUNCTION") ++ rest) }
    ensures parted { (pieces size rest : List Piece) → split_size pieces ≡ Some (size, rest) → pieces ≡ size ++ rest }
{}

/// The marks that end an expression among others don't restrict it: none stands in one outside parentheses.
pub fn expressions_stay()
    ensures { (pieces : List Piece) (lexemes : List Lexeme) (x : Expr) → IsWideExpression pieces lexemes x → stays (codes "),=:") 0 pieces ≡ true }
{
    expressions_stop();
}
