// What holds of the definitions of pieces, kinds and tokens.
ghost use Rattle.std.specs.Prelude.{◌≡◌, ◌++◌, ◌∷◌, ℕ, true, List, [], map, flat_map, Some, None};
ghost use Rattle.std.specs.List.{list_all};
ghost use Rattle.text_base.specs.Chars.{is_name_byte};
ghost use Rattle.text_base.specs.Kept.{is_format, kept, read_characters};
ghost use Rattle.text_base.specs.Pieces.{Piece, plain, IsPieces, piece_text};
ghost use Rattle.tree77.specs.Kinds.{outline, outline_of, Kind, IsKind, IsFormat};
ghost use Rattle.tree77.specs.Tokens.{Token, IsCut, IsStuck, StopsAt, token_pieces, run, mark, is_mark};
ghost use Rattle.scan77.specs.KindReading.{read_kind};
ghost use Rattle.scan77.specs.PieceReading.{pieces_of, format_pieces_of};
ghost use Rattle.scan77.specs.TokenReading.{no_token, read_tokens, AllFormed};

/// A statement has one list of pieces, which the reading of its characters one after another gives, and their characters
/// are those of the statement as they are read.
pub fn one_list_of_pieces()
    ensures found { (label : ℕ) (text : List ℕ) → IsPieces (is_format label text) text (pieces_of label text) }
    ensures only { (label : ℕ) (text : List ℕ) (pieces : List Piece) → IsPieces (is_format label text) text pieces → pieces ≡ pieces_of label text }
    ensures joined { (label : ℕ) (text : List ℕ) → flat_map piece_text (pieces_of label text) ≡ read_characters text (kept label text) }
{}

/// A text in a FORMAT has one list of pieces, which the reading of its characters one after another gives.
pub fn one_list_of_format_pieces()
    ensures found { (text : List ℕ) → IsPieces true text (format_pieces_of text) }
    ensures only { (text : List ℕ) (pieces : List Piece) → IsPieces true text pieces → pieces ≡ format_pieces_of text }
{}

/// The outline of the pieces of a statement is the one of its characters and marks.
pub fn outlines_are_equal()
    ensures { (label : ℕ) (text : List ℕ) → outline_of (pieces_of label text) ≡ outline text (kept label text) }
{}

/// A statement has one kind, which the reading of its kind as a function gives.
pub fn one_kind()
    ensures found { (label : ℕ) (text : List ℕ) → IsKind label text (read_kind label text) }
    ensures only { (label : ℕ) (text : List ℕ) (kind : Kind) → IsKind label text kind → kind ≡ read_kind label text }
{}

/// A statement is a FORMAT by its own characters, on which its kept text depends, exactly where it is one without its
/// blanks and with its kept text aside.
pub fn one_format()
    ensures found { (label : ℕ) (text : List ℕ) → is_format label text ≡ true → IsFormat label (outline text (kept label text)) }
    ensures only { (label : ℕ) (text : List ℕ) → IsFormat label (outline text (kept label text)) → is_format label text ≡ true }
{}

/// Pieces are cut into tokens in one way at most, which the reading of pieces one after another gives. The pieces of the
/// tokens are those that were cut, their characters too, each token is formed as its kind says, and where a token ends the
/// next begins. There is no cut exactly where, behind
/// tokens, a character constant doesn't end or a character begins no token.
pub fn one_cut()
    ensures found { (pieces : List Piece) (tokens : List Token) → read_tokens pieces no_token ≡ Some tokens → IsCut pieces tokens }
    ensures only { (pieces : List Piece) (tokens : List Token) → IsCut pieces tokens → read_tokens pieces no_token ≡ Some tokens }
    ensures pieces { (pieces : List Piece) (tokens : List Token) → IsCut pieces tokens → pieces ≡ flat_map token_pieces tokens }
    ensures formed { (pieces : List Piece) (tokens : List Token) → IsCut pieces tokens → AllFormed tokens }
    ensures joined { (pieces : List Piece) (tokens : List Token) → IsCut pieces tokens → flat_map (λ t. t.text) tokens ≡ flat_map piece_text pieces }
    ensures next { (pieces : List Piece) (token : Token) (tokens : List Token) → IsCut pieces (token ∷ tokens) → (rest : List Piece) × (pieces ≡ token_pieces token ++ rest) × IsCut rest tokens }
    ensures stuck { (pieces : List Piece) → read_tokens pieces no_token ≡ None → IsStuck pieces }
    ensures uncut { (pieces : List Piece) (tokens : List Token) → IsStuck pieces → IsCut pieces tokens → ⊥ }
{}

/// A cut of pieces can be parted between any two of its tokens, and at any mark among the pieces. Where a word stands first
/// and is the beginning of the first run, the rest of the run is left, and then the other tokens.
pub fn cuts_are_parted()
    ensures tokens { (pieces : List Piece) (tokens more : List Token) → IsCut pieces (tokens ++ more) → (before : List Piece) × (after : List Piece) × (pieces ≡ before ++ after) × IsCut before tokens × IsCut after more }
    ensures at_mark { (before after : List Piece) (c : ℕ) (tokens : List Token) → is_mark c ≡ true → IsCut (before ++ plain c ∷ after) tokens
        → (first : List Token) × (rest : List Token) × (tokens ≡ first ++ record { kind = mark; text = c ∷ [] } ∷ rest) × IsCut before first × IsCut after rest }
    ensures in_run { (w u : List ℕ) (rest : List Piece) (more : List Token) → IsCut (map plain w ++ rest) (record { kind = run; text = w ++ u } ∷ more)
        → (behind : List Piece) × (rest ≡ map plain u ++ behind) × (list_all is_name_byte u ≡ true) × StopsAt is_name_byte behind × IsCut behind more }
{}
