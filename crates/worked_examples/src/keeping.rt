// Labels, kept text, pieces and tokens.
ghost use Rattle.std.specs.Prelude.{◌≡◌, true, false, codes, All};
ghost use Rattle.text_base.specs.Cards.{cards};
ghost use Rattle.text_base.specs.Kept.{is_format, IsMarked};
ghost use Rattle.text_base.specs.Pieces.{IsPieces};
ghost use Rattle.tree77.specs.Tokens.{IsCut, IsStuck};
ghost use Rattle.worked_examples.specs.KeptText.{kept_source, kept_cards, format_text, format_marks, format_pieces, constant_text, constant_marks, constant_pieces, unlabelled_text, open_text, open_pieces, cuts, uncut};
ghost use Rattle.worked_examples.specs.Statements.{outside};
ghost use Rattle.worked_examples.specs.Tables.{Holds};

use card_reader::kept_is_by_pieces;
use scan77::{one_cut, one_list_of_pieces};

/// The statements of a file with their labels and marks.
pub fn kept_deck()
    ensures { cards 0 kept_source ≡ kept_cards }
{}

/// Text with its marks, in a FORMAT and elsewhere.
pub fn kept_marks()
    ensures format { IsMarked true format_text format_marks }
    ensures constant { IsMarked false constant_text constant_marks }
{
    kept_is_by_pieces();
}

/// Text with its pieces, in a FORMAT and elsewhere. A FORMAT has a label.
pub fn kept_pieces()
    ensures format { IsPieces true format_text format_pieces }
    ensures constant { IsPieces false constant_text constant_pieces }
    ensures unlabelled { IsPieces (is_format 0 unlabelled_text) unlabelled_text (outside (codes "FORMAT(3HAB)")) }
    ensures unclosed { IsPieces false open_text open_pieces }
{
    one_list_of_pieces();
}

/// Each of these has its tokens, and each of those none.
pub fn tokens_of_pieces()
    ensures some { Holds IsCut cuts }
    ensures none { All IsStuck uncut }
{
    one_cut();
}
