// Parts of the pieces of a statement.
ghost use Rattle.std.specs.Prelude.{◌≡◌, ◌++◌, ◌≤◌, ℕ, List, length, IfSome};
ghost use Rattle.std.specs.Option.{option_map};
ghost use Rattle.text_base.specs.Chars.{is_digit};
ghost use Rattle.text_base.specs.Pieces.{Piece};
ghost use Rattle.tree77.specs.Kinds.{open_after};
ghost use Rattle.scan77.specs.Cutting.{behind_passing};
ghost use Rattle.scan77.specs.PieceList.{kept_and_pieces};
ghost use Rattle.scan77.specs.PieceParts.{IsBehind};
ghost use Rattle.scan77.specs.PieceSlice.{slice_of, split_group, split_size, split_partner, split_digits, digits_or_group};

use crate::mark::Mark;
use crate::outline_reading::open_after;
use crate::{FirstPiece, PieceSlice};
use text_base::chars::is_digit;

/// What is left behind all first digits outside kept text.
#[tactic(auto, using(crate::proofs::PieceParts::behind_nothing, crate::proofs::PieceParts::behind_more))]
pub(crate) fn behind_digits(pieces: PieceSlice<'_>) -> PieceSlice<'_>
    ensures pieces { slice_of result ≡ behind_passing is_digit (slice_of pieces.entry) }
    ensures within { length result.text.now ≤ length pieces.entry.text.now }
    ensures behind { IsBehind pieces.entry result }
{
    let mut rest = pieces;
    while let Some((byte, more)) = rest.split_plain() {
        if !is_digit(byte) {
            return rest;
        }
        rest = more;
    }
    rest
}

/// What is left behind the further characters of a kept text.
#[tactic(auto, using(crate::proofs::PieceParts::behind_nothing, crate::proofs::PieceParts::behind_more))]
pub(crate) fn behind_kept(pieces: PieceSlice<'_>) -> PieceSlice<'_>
    ensures pieces { slice_of result ≡ (kept_and_pieces pieces.entry.text.now pieces.entry.marks.now).1 }
    ensures within { length result.text.now ≤ length pieces.entry.text.now }
    ensures behind { IsBehind pieces.entry result }
{
    let mut rest = pieces;
    while let Some((_, Mark::Further, more)) = rest.split_first() {
        rest = more;
    }
    rest
}

/// The characters of some pieces before what is left of them.
pub(crate) fn before<'a>(pieces: PieceSlice<'a>, rest: PieceSlice<'a>) -> &'a [u8]
    requires { (t : List ℕ) × (pieces.text.now ≡ t ++ rest.text.now) }
    ensures { pieces.entry.text.now ≡ result.now ++ rest.entry.text.now }
{
    let count = pieces.text.len() - rest.text.len();
    &pieces.text[..count]
}

/// The marks of some pieces before what is left of them.
fn marks_before<'a>(pieces: PieceSlice<'a>, rest: PieceSlice<'a>) -> &'a [Mark]
    requires { IsBehind pieces rest }
    ensures { pieces.entry.marks.now ≡ result.now ++ rest.entry.marks.now }
{
    let count = pieces.marks.len() - rest.marks.len();
    &pieces.marks[..count]
}

/// The first pieces, behind which these are left.
fn part_before<'a>(pieces: PieceSlice<'a>, rest: PieceSlice<'a>) -> PieceSlice<'a>
    requires { IsBehind pieces rest }
    ensures { (first : List Piece) → slice_of pieces.entry ≡ first ++ slice_of rest.entry → slice_of result ≡ first }
{
    PieceSlice::of(before(pieces, rest), marks_before(pieces, rest))
}

/// What is left behind the parenthesis with which none is open any more.
fn behind_partner(pieces: PieceSlice<'_>) -> Option<PieceSlice<'_>>
    ensures pieces { option_map slice_of result ≡ option_map (λ r. r.1) (split_partner 0 (slice_of pieces.entry)) }
    ensures behind { IfSome result (λ rest. IsBehind pieces.entry rest) }
{
    let mut rest = pieces;
    let mut depth: usize = 0;
    while let Some((piece, more)) = rest.split_piece() {
        rest = more;
        if let FirstPiece::Plain(byte) = piece {
            depth = open_after(depth, byte);
            if depth == 0 {
                return Some(rest);
            }
        }
    }
    None
}

/// What is left behind a group in parentheses, if one stands here.
fn behind_group(pieces: PieceSlice<'_>) -> Option<PieceSlice<'_>>
    ensures pieces { option_map slice_of result ≡ option_map (λ r. r.1) (split_group (slice_of pieces.entry)) }
    ensures behind { IfSome result (λ rest. IsBehind pieces.entry rest) }
{
    match pieces.split_plain()? {
        (b'(', _) => behind_partner(pieces),
        _ => None,
    }
}

/// What is left behind digits, or else behind a group.
fn behind_digits_or_group(pieces: PieceSlice<'_>) -> Option<PieceSlice<'_>>
    ensures pieces { option_map slice_of result ≡ option_map (λ r. r.1) (digits_or_group (split_digits (slice_of pieces.entry)) (slice_of pieces.entry)) }
    ensures behind { IfSome result (λ rest. IsBehind pieces.entry rest) }
{
    let (byte, _) = pieces.split_plain()?;
    if is_digit(byte) {
        Some(behind_digits(pieces))
    } else {
        behind_group(pieces)
    }
}

/// What is left behind the length of a type.
#[tactic(auto, using(crate::proofs::PieceParts::behind_nothing, crate::proofs::PieceParts::behind_more))]
fn behind_size(pieces: PieceSlice<'_>) -> Option<PieceSlice<'_>>
    ensures pieces { option_map slice_of result ≡ option_map (λ r. r.1) (split_size (slice_of pieces.entry)) }
    ensures behind { IfSome result (λ rest. IsBehind pieces.entry rest) }
{
    match pieces.split_plain() {
        Some((b'*', more)) => behind_digits_or_group(more),
        _ => Some(pieces),
    }
}

impl<'a> PieceSlice<'a> {
    /// The group in parentheses that stands first, and the pieces behind it; `None` where none stands first or its last
    /// parenthesis is missing.
    pub fn split_group(self) -> Option<(PieceSlice<'a>, PieceSlice<'a>)>
        ensures { option_map (λ r. (slice_of r.0, slice_of r.1)) result ≡ split_group (slice_of self.entry) }
    {
        let rest = behind_group(self)?;
        Some((part_before(self, rest), rest))
    }

    /// The length of a type that stands first (X3.9 section 8.4.2), which is a star with digits or a group in parentheses
    /// behind it, or nothing, and the pieces behind it; `None` where neither stands behind a star.
    pub fn split_size(self) -> Option<(PieceSlice<'a>, PieceSlice<'a>)>
        ensures { option_map (λ r. (slice_of r.0, slice_of r.1)) result ≡ split_size (slice_of self.entry) }
    {
        let rest = behind_size(self)?;
        Some((part_before(self, rest), rest))
    }
}
