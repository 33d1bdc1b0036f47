// A part of the pieces of a statement.
ghost use Rattle.std.specs.Prelude.{◌≡◌, ◌↔◌, ◌∷◌, [], IsTrue, None, IfSome, flat_map};
ghost use Rattle.std.specs.Option.{option_map};
ghost use Rattle.text_base.specs.Pieces.{piece_text};
ghost use Rattle.scan77.specs.PieceList.{with_mark, kept_and_pieces};
ghost use Rattle.scan77.specs.PieceParts.{IsBehind};
ghost use Rattle.scan77.specs.PieceSlice.{slice_of, uncons_plain, behind_plain};

use crate::mark::Mark;

/// A part of the pieces of a statement that begins and ends between pieces. Contracts see it as the list `slice_of` it.
#[derive(Clone, Copy, Debug)]
pub struct PieceSlice<'a> {
    pub(crate) text: &'a [u8],
    pub(crate) marks: &'a [Mark],
}

impl<'a> PieceSlice<'a> {
    /// The pieces that characters with their marks are.
    pub(crate) fn of(text: &'a [u8], marks: &'a [Mark]) -> PieceSlice<'a>
        ensures text { result.text.now ≡ text.now }
        ensures marks { result.marks.now ≡ marks.now }
    {
        PieceSlice { text, marks }
    }

    /// Whether there is no piece.
    pub fn is_empty(self) -> bool
        ensures { IsTrue result ↔ (slice_of self.entry ≡ []) }
    {
        self.text.is_empty()
    }

    /// All characters of the pieces, as they are read.
    pub fn characters(self) -> &'a [u8]
        ensures { result.now ≡ flat_map piece_text (slice_of self.entry) }
    {
        self.text
    }

    /// The first character with its mark, and what is left behind it. A character without a mark is outside kept text.
    pub(crate) fn split_first(self) -> Option<(u8, Mark, PieceSlice<'a>)>
        ensures text { IfSome result (λ r. self.entry.text.now ≡ r.0 ∷ r.2.text.now) }
        ensures pieces { IfSome result (λ r. kept_and_pieces self.entry.text.now self.entry.marks.now ≡ with_mark r.1 r.0 (kept_and_pieces r.2.text.now r.2.marks.now)) }
        ensures behind { IfSome result (λ r. IsBehind self.entry r.2) }
        ensures none { result ≡ None → self.entry.text.now ≡ [] }
    {
        let (byte, text) = self.text.split_first()?;
        match self.marks.split_first() {
            Some((mark, marks)) => Some((*byte, *mark, PieceSlice { text, marks })),
            None => Some((
                *byte,
                Mark::Plain,
                PieceSlice {
                    text,
                    marks: self.marks,
                },
            )),
        }
    }

    /// The first piece, if it is a character outside kept text, and what is left behind it.
    pub(crate) fn split_plain(self) -> Option<(u8, PieceSlice<'a>)>
        ensures pieces { option_map (λ r. (r.0, slice_of r.1)) result ≡ uncons_plain (slice_of self.entry) }
        ensures text { IfSome result (λ r. self.entry.text.now ≡ r.0 ∷ r.1.text.now) }
        ensures behind { IfSome result (λ r. IsBehind self.entry r.1) }
    {
        match self.split_first()? {
            (byte, Mark::Plain, rest) => Some((byte, rest)),
            _ => None,
        }
    }

    /// What is left behind a character outside kept text, if it stands here.
    fn behind_byte(self, byte: u8) -> Option<PieceSlice<'a>>
        ensures { option_map slice_of result ≡ behind_plain (byte ∷ []) (slice_of self.entry) }
    {
        match self.split_plain() {
            Some((character, rest)) => if character == byte { Some(rest) } else { None },
            None => None,
        }
    }

    /// What is left behind a word outside kept text, if it stands here.
    pub fn behind(self, word: &str) -> Option<PieceSlice<'a>>
        ensures { option_map slice_of result ≡ behind_plain word.now (slice_of self.entry) }
    {
        let mut rest = self;
        for byte in word.as_bytes() {
            match rest.behind_byte(*byte) {
                Some(more) => rest = more,
                None => return None,
            }
        }
        Some(rest)
    }
}
