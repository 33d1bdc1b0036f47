// What stands behind the letters of a refused descriptor.
ghost use Rattle.std.specs.Prelude.{◌≡◌};
ghost use Rattle.scan77.specs.PieceSlice.{slice_of};
ghost use Rattle.format77.specs.Reading.{character_here, behind_one, is_at_digit, wants_number, behind_exponent, behind_fraction, behind_widths, behind_second};

use crate::number::split_digits;
use scan77::{FirstPiece, PieceSlice};
use text_base::chars::is_digit;

/// The character outside kept text that stands here, 0 where none does.
pub fn character_here(pieces: PieceSlice<'_>) -> u8
    ensures { result ≡ character_here (slice_of pieces.entry) }
{
    match pieces.split_piece() {
        Some((FirstPiece::Plain(byte), _)) => byte,
        _ => 0,
    }
}

/// What is left behind one piece.
pub fn behind_one(pieces: PieceSlice<'_>) -> PieceSlice<'_>
    ensures { slice_of result ≡ behind_one (slice_of pieces.entry) }
{
    match pieces.split_piece() {
        Some((_, rest)) => rest,
        None => pieces,
    }
}

/// Whether a digit stands here.
pub fn is_at_digit(pieces: PieceSlice<'_>) -> bool
    ensures { result ≡ is_at_digit (slice_of pieces.entry) }
{
    is_digit(character_here(pieces))
}

/// Behind E and digits, if they stand here. Behind a scale factor (`is_free`) they are its own, unless a point shows that
/// they are those of the next descriptor.
fn behind_exponent(is_free: bool, pieces: PieceSlice<'_>) -> PieceSlice<'_>
    ensures { slice_of result ≡ behind_exponent is_free (slice_of pieces.entry) }
{
    let number = behind_one(pieces);
    let (_, rest) = split_digits(number);
    let is_next = is_free && character_here(rest) == b'.';
    if character_here(pieces) == b'E' && is_at_digit(number) && !is_next {
        rest
    } else {
        pieces
    }
}

/// Behind a point and digits, and E and digits, if they stand here.
fn behind_fraction(is_free: bool, pieces: PieceSlice<'_>) -> PieceSlice<'_>
    ensures { slice_of result ≡ behind_fraction is_free (slice_of pieces.entry) }
{
    let number = behind_one(pieces);
    if character_here(pieces) == b'.' && is_at_digit(number) {
        behind_exponent(is_free, split_digits(number).1)
    } else {
        pieces
    }
}

/// Behind the numbers that follow the letters of a descriptor, if they stand here (X3.9 section 13.5.9.2). Behind a scale
/// factor (`is_free`) digits are its own, unless a letter shows that they are the next item's.
pub fn behind_widths(is_free: bool, pieces: PieceSlice<'_>) -> PieceSlice<'_>
    ensures { slice_of result ≡ behind_widths is_free (slice_of pieces.entry) }
{
    let (_, rest) = split_digits(pieces);
    let is_next = is_free && matches!(character_here(rest), b'H' | b'X');
    if is_at_digit(pieces) && !is_next {
        behind_fraction(is_free, rest)
    } else {
        pieces
    }
}

/// Behind one of two letters, if it stands here.
pub fn behind_second(first: u8, second: u8, pieces: PieceSlice<'_>) -> PieceSlice<'_>
    ensures { slice_of result ≡ behind_second first second (slice_of pieces.entry) }
{
    let character = character_here(pieces);
    if character == first || character == second {
        behind_one(pieces)
    } else {
        pieces
    }
}
