// What holds of the definitions of expressions.
ghost use Rattle.std.specs.Prelude.{◌≡◌, ◌≢◌, ◌++◌, [], ℕ, true, List, Option, Some};
ghost use Rattle.std.specs.List.{list_all};
ghost use Rattle.text_base.specs.Formats.{quoted};
ghost use Rattle.text_base.specs.Pieces.{Piece};
ghost use Rattle.text_base.specs.Trees.{Expr};
ghost use Rattle.tree77.specs.Tokens.{Token, IsCut};
ghost use Rattle.tree77.specs.Lexemes.{Lexeme, Part, parts_from, AreLexemes, IsWideExpression, SpellsExpression, IsRefusedExpression};
ghost use Rattle.tree77.specs.Stops.{Stops, until_stop, Begins};
ghost use Rattle.tree77.specs.Forms.{stays};
ghost use Rattle.tree77.specs.FormWords.{is_constant};
ghost use Rattle.expr77.specs.Constants.{is_ending, is_alone, EndsAt, until_mark};
ghost use Rattle.expr77.specs.Gathering.{keep};
ghost use Rattle.expr77.specs.LexemeReading.{quoted_value};
ghost use Rattle.expr77.specs.Outcome.{accepted, refused, expression_of, outcome_of};

use group77::grouped_expressions;
use scan77::one_cut;

/// No pieces have two expressions, accepted or wide, nor two refusals; and none have an accepted expression and a refusal.
pub fn one_expression()
    ensures wide { (pieces : List Piece) (lexemes others : List Lexeme) (x y : Expr) → IsWideExpression pieces lexemes x → IsWideExpression pieces others y → (lexemes ≡ others) × (x ≡ y) }
    ensures spelled { (pieces : List Piece) (x y : Expr) → SpellsExpression pieces x → SpellsExpression pieces y → x ≡ y }
    ensures refused { (pieces : List Piece) (p q : Part) → IsRefusedExpression pieces p → IsRefusedExpression pieces q → p ≡ q }
    ensures apart { (pieces : List Piece) (x : Expr) (p : Part) → SpellsExpression pieces x → IsRefusedExpression pieces p → ⊥ }
{
    one_cut();
    grouped_expressions();
}

/// What the reading of tokens gives is what their pieces spell, or why they are refused.
pub fn outcomes_are_spelled()
    ensures accepted { (pieces : List Piece) (tokens : List Token) (x : Expr) → IsCut pieces tokens → outcome_of tokens ≡ accepted x → SpellsExpression pieces x }
    ensures refused { (pieces : List Piece) (tokens : List Token) (p : Part) → IsCut pieces tokens → outcome_of tokens ≡ refused p → IsRefusedExpression pieces p }
{
    one_cut();
    grouped_expressions();
}

/// The reading of tokens gives exactly the expression that their pieces spell, where so many parentheses are open before it,
/// and the lowest of its refused parts and of the one before it.
pub fn expressions_are_read()
    ensures found { (pieces : List Piece) (tokens : List Token) (depth : ℕ) (lowest : Option Part) (x : Expr) (next : Option Part) → IsCut pieces tokens → expression_of depth lowest tokens ≡ Some (x, next)
        → (lexemes : List Lexeme) × IsWideExpression pieces lexemes x × (next ≡ keep lowest (parts_from depth lexemes)) }
    ensures only { (pieces : List Piece) (tokens : List Token) (depth : ℕ) (lowest : Option Part) (lexemes : List Lexeme) (x : Expr) → IsCut pieces tokens → IsWideExpression pieces lexemes x
        → expression_of depth lowest tokens ≡ Some (x, keep lowest (parts_from depth lexemes)) }
{
    one_cut();
    grouped_expressions();
}

/// A text is read as a character constant exactly where it is its value, which has a character, between apostrophes, with
/// each apostrophe in it doubled (X3.9 section 4.8.1).
pub fn constants_are_quoted()
    ensures found { (text value : List ℕ) → quoted_value text ≡ Some value → (text ≡ quoted value) × (value ≢ []) }
    ensures only { (value : List ℕ) → value ≢ [] → quoted_value (quoted value) ≡ Some value }
{}

/// An expression begins with a letter, a digit, an opening parenthesis, a point, a sign or a character constant. The
/// first mark outside parentheses that stops one is where it ends, so that it is known where an expression ends before
/// it is read, and pieces begin with one expression at most that stops.
pub fn expressions_stop()
    ensures begin { (pieces : List Piece) (lexemes : List Lexeme) (x : Expr) → IsWideExpression pieces lexemes x → Begins pieces }
    ensures stop { (pieces rest : List Piece) (lexemes : List Lexeme) (x : Expr) → IsWideExpression pieces lexemes x → Stops rest → until_stop 0 (pieces ++ rest) ≡ (pieces, rest) }
    ensures split { (pieces others rest behind : List Piece) (lexemes more : List Lexeme) (x y : Expr) → IsWideExpression pieces lexemes x → IsWideExpression others more y → Stops rest → Stops behind
        → pieces ++ rest ≡ others ++ behind → (pieces ≡ others) × (rest ≡ behind) }
{}

/// In a constant alone, which may have a sign, and in a name stands none of the marks that end one, but in parentheses: the
/// first of these marks outside parentheses is where it ends (X3.9 section 9.1).
pub fn constants_stop()
    ensures alone { (pieces : List Piece) (lexemes : List Lexeme) (x : Expr) → IsWideExpression pieces lexemes x → is_constant x ≡ true → is_alone lexemes ≡ true }
    ensures stay { (marks : List ℕ) (pieces : List Piece) (lexemes : List Lexeme) → AreLexemes pieces lexemes → is_alone lexemes ≡ true → list_all is_ending marks ≡ true → stays marks 0 pieces ≡ true }
    ensures stop { (marks : List ℕ) (pieces rest : List Piece) (lexemes : List Lexeme) → AreLexemes pieces lexemes → is_alone lexemes ≡ true → list_all is_ending marks ≡ true → EndsAt marks rest
        → until_mark marks 0 (pieces ++ rest) ≡ (pieces, rest) }
{}

/// Pieces that spell an expression can be cut into tokens.
pub fn expressions_are_cut()
    ensures { (pieces : List Piece) (lexemes : List Lexeme) (x : Expr) → IsWideExpression pieces lexemes x → (tokens : List Token) × IsCut pieces tokens }
{}
