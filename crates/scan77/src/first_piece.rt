// The first piece of some pieces, and the pieces before a last one.
ghost use Rattle.std.specs.Prelude.{◌≡◌, ◌<◌, length, IfSome, slice_get};
ghost use Rattle.std.specs.Option.{option_map};
ghost use Rattle.scan77.specs.FirstPiece.{piece_of, before_plain, is_plain_mark};
ghost use Rattle.scan77.specs.PieceParts.{IsBehind};
ghost use Rattle.scan77.specs.PieceSlice.{slice_of, uncons_piece};

use crate::PieceSlice;
use crate::mark::Mark;
use crate::piece_parts::{before, behind_kept};

/// A piece: a character outside kept text, a kept text, or a character constant that doesn't end.
#[derive(Clone, Copy, Debug)]
pub enum FirstPiece<'a> {
    Plain(u8),
    Whole(&'a [u8]),
    Broken(&'a [u8]),
}

/// Whether the character at this place is outside kept text.
fn is_plain_at(marks: &[Mark], index: usize) -> bool
    ensures { result ≡ is_plain_mark (slice_get marks.now index) }
{
    match marks.get(index) {
        None | Some(Mark::Plain) => true,
        Some(_) => false,
    }
}

impl<'a> PieceSlice<'a> {
    /// The first piece, and what is left behind it.
    pub fn split_piece(self) -> Option<(FirstPiece<'a>, PieceSlice<'a>)>
        ensures pieces { option_map (λ r. (piece_of r.0, slice_of r.1)) result ≡ uncons_piece (slice_of self.entry) }
        ensures shorter { IfSome result (λ r. length (slice_of r.1) < length (slice_of self.entry)) }
        ensures text { IfSome result (λ r. length r.1.text.now < length self.entry.text.now) }
        ensures behind { IfSome result (λ r. IsBehind self.entry r.1) }
    {
        let (byte, mark, more) = self.split_first()?;
        match mark {
            Mark::Plain => Some((FirstPiece::Plain(byte), more)),
            Mark::Open => {
                let rest = behind_kept(more);
                Some((FirstPiece::Broken(before(self, rest)), rest))
            }
            Mark::First | Mark::Further => {
                let rest = behind_kept(more);
                Some((FirstPiece::Whole(before(self, rest)), rest))
            }
        }
    }

    /// What is left before a character outside kept text, if it stands at the end.
    pub fn before(self, byte: u8) -> Option<PieceSlice<'a>>
        ensures { option_map slice_of result ≡ before_plain byte (slice_of self.entry) }
    {
        let (last, text) = self.text.split_last()?;
        if !is_plain_at(self.marks, text.len()) {
            return None;
        }
        if *last != byte {
            return None;
        }
        Some(PieceSlice::of(text, self.marks))
    }
}
