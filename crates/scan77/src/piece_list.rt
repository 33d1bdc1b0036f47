// The pieces of a statement.
ghost use Rattle.std.specs.Prelude.{◌≡◌};
ghost use Rattle.scan77.specs.PieceList.{pieces_in};
ghost use Rattle.scan77.specs.PieceSlice.{slice_of};

use crate::PieceSlice;
use crate::mark::Mark;
use sqlite_items::Items;
use std::marker::Model;
use text_base::Bytes;

/// The pieces of a statement, which contracts see as their list: each character outside kept text (X3.9 section 3.1.6), and
/// each kept text whole, which is a character constant with its apostrophes (X3.9 section 4.8) or the text of an nH
/// (X3.9 section 13.5.2). They are kept as all their characters and a mark for each.
#[derive(Debug, Drop)]
pub struct Pieces {
    text: Bytes,
    marks: Items<Mark>,
}

impl Model for Pieces {
    ghost use Rattle.std.specs.Prelude.{List};
    ghost use Rattle.text_base.specs.Pieces.{Piece};
    ghost use Rattle.scan77.specs.PieceList.{pieces_in};

    ghost Value = { List Piece };

    ghost view = { λ pieces. pieces_in pieces.text pieces.marks };
}

impl Pieces {
    /// The pieces that characters with their marks are.
    pub(crate) fn from_marked(text: Bytes, marks: Items<Mark>) -> Pieces
        ensures { result ≡ pieces_in text marks }
    {
        Pieces { text, marks }
    }

    /// All pieces, lent.
    pub fn all(&self) -> PieceSlice<'_>
        ensures { slice_of result ≡ self.now }
    {
        PieceSlice::of(self.text.as_slice(), self.marks.as_slice())
    }
}
