// What holds of the definitions of kept text, statements and comments.
ghost use Rattle.std.specs.Prelude.{◌≡◌, ◌<◌, ◌≤◌, All, ℕ, List, length};
ghost use Rattle.text_base.specs.Kept.{is_format, IsMarked, kept};
ghost use Rattle.text_base.specs.Cards.{cards, comments};
ghost use Rattle.text_base.specs.declared.limits.TheConstants.{GREATEST_COUNT, LARGEST_FILE};
ghost use Rattle.text_base.specs.CommentLines.{comments_by_lines};

/// The marks of a statement are those of its pieces, plain text and kept text in turn, and no others.
pub fn kept_is_by_pieces()
    ensures marked { (label : ℕ) (text : List ℕ) → IsMarked (is_format label text) text (kept label text) }
    ensures only { (label : ℕ) (text marks : List ℕ) → IsMarked (is_format label text) text marks → marks ≡ kept label text }
{}

/// What is counted before a comment are the statements of the file whose last line stands before it.
pub fn comments_stand_between_statements()
    ensures { (bytes : List ℕ) → comments bytes ≡ comments_by_lines bytes }
{}

/// The statements of a file have the marks of their characters, and fewer characters than the greatest count.
pub fn cards_are_marked()
    ensures marked { (file : ℕ) (bytes : List ℕ) → All (λ card. card.kept ≡ kept card.label card.text) (cards file bytes) }
    ensures short { (file : ℕ) (bytes : List ℕ) → length bytes ≤ LARGEST_FILE → All (λ card. length card.text < GREATEST_COUNT) (cards file bytes) }
{}
