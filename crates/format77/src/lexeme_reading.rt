// Reads one lexeme of a format.
ghost use Rattle.std.specs.Prelude.{◌≡◌, Some, IfOk};
ghost use Rattle.scan77.specs.PieceSlice.{slice_of};
ghost use Rattle.format77.specs.Reading.{letter_i, letter_l, letter_a, letter_x, an_opening, a_sign, letter_b, integers_at, unless_written, refused_at, signed_at, lexeme_by, lexeme_at};
ghost use Rattle.format77.specs.Parts.{number_by, sort_view, read_of};
ghost use Rattle.format77.specs.Views.{lexeme_of};

use crate::lexeme::Lexeme;
use crate::number::{Digits, split_digits};
use crate::sort::Sort;
use crate::texts::{counted, quoted};
use crate::widths::{behind_one, behind_second, behind_widths, character_here, is_at_digit};
use scan77::{FirstPiece, PieceSlice};
use std::alloc::{AllocError, Global};
use text_base::FormatEdit;

/// A lexeme, and what is left behind it.
pub type Read<'a> = (Lexeme, PieceSlice<'a>);

/// Behind `I` and its width: rIw, or rIw.m (X3.9 section 13.5.9.1).
fn integers_at<'a>(count: u16, width: u16, rest: PieceSlice<'a>) -> Option<Read<'a>>
    ensures { read_of result ≡ integers_at count width (slice_of rest.entry) }
{
    if character_here(rest) != b'.' {
        let edit = FormatEdit::Integers(count, width, None);
        return Some((Lexeme::Edit(edit), rest));
    }
    let (digits, rest) = split_digits(behind_one(rest));
    let least = digits.number(0)?;
    if least > width {
        return None;
    }
    let edit = FormatEdit::Integers(count, width, Some(least));
    Some((Lexeme::Edit(edit), rest))
}

/// rIw or rIw.m (X3.9 section 13.5.9.1), behind the `I`.
fn integers<'a>(count: Digits, rest: PieceSlice<'a>) -> Option<Read<'a>>
    ensures { read_of result ≡ lexeme_by letter_i count.is_written (number_by 1 count) (slice_of rest.entry) }
{
    let repeat = count.count()?;
    let (digits, rest) = split_digits(rest);
    let width = digits.number(1)?;
    integers_at(repeat, width, rest)
}

/// rLw (X3.9 section 13.5.10), behind the `L`.
fn logicals<'a>(count: Digits, rest: PieceSlice<'a>) -> Option<Read<'a>>
    ensures { read_of result ≡ lexeme_by letter_l count.is_written (number_by 1 count) (slice_of rest.entry) }
{
    let repeat = count.count()?;
    let (digits, rest) = split_digits(rest);
    let width = digits.number(1)?;
    Some((Lexeme::Edit(FormatEdit::Logicals(repeat, width)), rest))
}

/// rA or rAw (X3.9 section 13.5.11), behind the `A`.
fn texts<'a>(count: Digits, rest: PieceSlice<'a>) -> Option<Read<'a>>
    ensures { read_of result ≡ lexeme_by letter_a count.is_written (number_by 1 count) (slice_of rest.entry) }
{
    let repeat = count.count()?;
    let (digits, rest) = split_digits(rest);
    if !digits.is_written() {
        return Some((Lexeme::Edit(FormatEdit::Texts(repeat, None)), rest));
    }
    let width = digits.number(1)?;
    Some((Lexeme::Edit(FormatEdit::Texts(repeat, Some(width))), rest))
}

/// nX (X3.9 section 13.5.3.2), behind the `X`.
fn blanks<'a>(count: Digits, rest: PieceSlice<'a>) -> Option<Read<'a>>
    ensures { read_of result ≡ lexeme_by letter_x count.is_written (number_by 1 count) (slice_of rest.entry) }
{
    let number = count.number(1)?;
    Some((Lexeme::Edit(FormatEdit::Blanks(number)), rest))
}

/// A parenthesis that opens, and how often its group stands (X3.9 section 13.3).
fn opening<'a>(count: Digits, rest: PieceSlice<'a>) -> Option<Read<'a>>
    ensures { read_of result ≡ lexeme_by an_opening count.is_written (number_by 1 count) (slice_of rest.entry) }
{
    let repeat = count.count()?;
    Some((Lexeme::Opening(repeat), rest))
}

/// A mark, before which no number stands.
fn mark<'a>(count: Digits, lexeme: Lexeme, rest: PieceSlice<'a>) -> Option<Read<'a>>
    ensures { read_of result ≡ unless_written count.is_written (Some (lexeme_of lexeme, slice_of rest.entry)) }
{
    if count.is_written() {
        None
    } else {
        Some((lexeme, rest))
    }
}

/// BN or BZ (X3.9 section 13.5.8), behind the `B`.
fn blank_control<'a>(rest: PieceSlice<'a>) -> Option<Read<'a>>
    ensures { read_of result ≡ refused_at letter_b (slice_of rest.entry) }
{
    if matches!(character_here(rest), b'N' | b'Z') {
        Some((Lexeme::Other, behind_widths(false, behind_one(rest))))
    } else {
        None
    }
}

/// A refused descriptor, behind its first letter.
fn refused_at<'a>(sort: Sort, rest: PieceSlice<'a>) -> Option<Read<'a>>
    ensures { read_of result ≡ refused_at (sort_view sort) (slice_of rest.entry) }
{
    match sort {
        Sort::P => Some((Lexeme::Scale, behind_widths(true, rest))),
        Sort::T => Some((
            Lexeme::Other,
            behind_widths(false, behind_second(b'L', b'R', rest)),
        )),
        Sort::S => Some((
            Lexeme::Other,
            behind_widths(false, behind_second(b'P', b'S', rest)),
        )),
        Sort::B => blank_control(rest),
        Sort::E => Some((Lexeme::Other, behind_widths(false, rest))),
        _ => None,
    }
}

/// Digits and a refused descriptor, behind a sign.
fn signed_at<'a>(rest: PieceSlice<'a>) -> Option<Read<'a>>
    ensures { read_of result ≡ signed_at (slice_of rest.entry) }
{
    if !is_at_digit(rest) {
        return None;
    }
    let (_, rest) = split_digits(rest);
    refused_at(Sort::of(character_here(rest)), behind_one(rest))
}

/// A signed scale factor (X3.9 section 13.5.7), behind its sign.
fn signed<'a>(count: Digits, rest: PieceSlice<'a>) -> Option<Read<'a>>
    ensures { read_of result ≡ lexeme_by a_sign count.is_written (number_by 1 count) (slice_of rest.entry) }
{
    if count.is_written() {
        None
    } else {
        signed_at(rest)
    }
}

/// What begins with a character of this sort, behind it and the digits before it.
fn lexeme_by<'a>(
    alloc: Global,
    sort: Sort,
    count: Digits,
    rest: PieceSlice<'a>,
) -> Result<Option<Read<'a>>, AllocError>
    ensures { IfOk result (λ r. read_of r ≡ lexeme_by (sort_view sort) count.is_written (number_by 1 count) (slice_of rest.entry)) }
{
    match sort {
        Sort::I => Ok(integers(count, rest)),
        Sort::L => Ok(logicals(count, rest)),
        Sort::A => Ok(texts(count, rest)),
        Sort::X => Ok(blanks(count, rest)),
        Sort::H => counted(alloc, count, rest),
        Sort::Opening => Ok(opening(count, rest)),
        Sort::Closing => Ok(mark(count, Lexeme::Closing, rest)),
        Sort::Comma => Ok(mark(count, Lexeme::Comma, rest)),
        Sort::Slash => Ok(mark(count, Lexeme::Slash, rest)),
        Sort::Colon => Ok(mark(count, Lexeme::Colon, rest)),
        Sort::Sign => Ok(signed(count, rest)),
        Sort::P | Sort::T | Sort::S | Sort::B | Sort::E | Sort::Other => Ok(refused_at(sort, rest)),
    }
}

/// Reads the lexeme that stands here (X3.9 sections 13.2 to 13.5).
///
/// In: pieces of a format, behind its first parenthesis or a lexeme.
///
/// Out: the lexeme, and what is left behind it; `None`, where none stands here. An error comes only where memory is wanted.
#[tactic(auto, unfolding(crate::specs::Reading::lexeme_at))]
pub fn lexeme_at<'a>(alloc: Global, pieces: PieceSlice<'a>) -> Result<Option<Read<'a>>, AllocError>
    ensures { IfOk result (λ r. read_of r ≡ lexeme_at (slice_of pieces.entry)) }
{
    let (count, rest) = split_digits(pieces);
    match rest.split_piece() {
        Some((FirstPiece::Plain(byte), rest)) => lexeme_by(alloc, Sort::of(byte), count, rest),
        Some((FirstPiece::Whole(text), rest)) => quoted(alloc, count, text, rest),
        _ => Ok(None),
    }
}
