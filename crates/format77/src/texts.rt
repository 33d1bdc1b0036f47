// Reads the texts of a format.
ghost use Rattle.std.specs.Prelude.{◌≡◌, ◌∷◌, ℕ, List, IfOk};
ghost use Rattle.std.specs.Option.{option_map};
ghost use Rattle.scan77.specs.PieceSlice.{slice_of};
ghost use Rattle.format77.specs.Reading.{giving, letter_h, lexeme_by, quoted_of, undoubled, undoubled_from, unless_written};
ghost use Rattle.format77.specs.Parts.{number_by, read_of, with_value, with_next};
ghost use Rattle.format77.specs.Views.{lexeme_of};

use crate::lexeme::Lexeme;
use crate::lexeme_reading::Read;
use crate::number::Digits;
use scan77::{FirstPiece, PieceSlice};
use std::alloc::{AllocError, Global};
use text_base::{Bytes, FormatEdit};

/// The text of an nH (X3.9 section 13.5.2), behind the `H`: it has as many characters as the number says.
pub fn counted<'a>(
    alloc: Global,
    count: Digits,
    rest: PieceSlice<'a>,
) -> Result<Option<Read<'a>>, AllocError>
    ensures { IfOk result (λ r. read_of r ≡ lexeme_by letter_h count.is_written (number_by 1 count) (slice_of rest.entry)) }
{
    let Some(number) = count.number(1) else {
        return Ok(None);
    };
    let Some((FirstPiece::Whole(text), rest)) = rest.split_piece() else {
        return Ok(None);
    };
    if text.len() != number as usize {
        return Ok(None);
    }
    let text = Bytes::from_slice(alloc, text)?;
    Ok(Some((Lexeme::Edit(FormatEdit::Text(text)), rest)))
}

/// Takes one more character into the value of a text, by whether no single apostrophe stands before it, and says the same
/// of the next. `None`, where a single apostrophe stands before another character.
fn take(value: &mut Bytes, is_even: bool, byte: u8) -> Result<Option<bool>, AllocError>
    ensures { IfOk result (λ next. (t : List ℕ) → with_value value.old (undoubled_from is_even (byte ∷ t)) ≡ with_next value.new next t) }
{
    if byte == b'\'' {
        if is_even {
            return Ok(Some(false));
        }
        value.push(byte)?;
        return Ok(Some(true));
    }
    if !is_even {
        return Ok(None);
    }
    value.push(byte)?;
    Ok(Some(true))
}

/// The characters that those behind an apostrophe stand for, up to the apostrophe at the end (X3.9 section 4.8.1).
/// `None`, where none stands there, or a single one before it.
fn undoubled(alloc: Global, text: &[u8]) -> Result<Option<Bytes>, AllocError>
    ensures { IfOk result (λ r. r ≡ undoubled text.now) }
{
    let mut value = Bytes::new(alloc);
    let mut is_even = true;
    for byte in text {
        match take(&mut value, is_even, *byte)? {
            Some(next) => is_even = next,
            None => return Ok(None),
        }
    }
    if is_even { Ok(None) } else { Ok(Some(value)) }
}

/// The text that a character constant is (X3.9 section 13.5.1), if it isn't empty.
fn quoted_of(alloc: Global, text: &[u8]) -> Result<Option<Lexeme>, AllocError>
    ensures { IfOk result (λ r. option_map lexeme_of r ≡ quoted_of text.now) }
{
    let [b'\'', inside @ ..] = text else {
        return Ok(None);
    };
    let Some(value) = undoubled(alloc, inside)? else {
        return Ok(None);
    };
    if value.as_slice().is_empty() {
        return Ok(None);
    }
    Ok(Some(Lexeme::Edit(FormatEdit::Text(value))))
}

/// An apostrophe text, before which no number stands.
pub fn quoted<'a>(
    alloc: Global,
    count: Digits,
    text: &[u8],
    rest: PieceSlice<'a>,
) -> Result<Option<Read<'a>>, AllocError>
    ensures { IfOk result (λ r. read_of r ≡ unless_written count.is_written (giving (slice_of rest.entry) (quoted_of text.now))) }
{
    if count.is_written() {
        return Ok(None);
    }
    match quoted_of(alloc, text)? {
        Some(lexeme) => Ok(Some((lexeme, rest))),
        None => Ok(None),
    }
}
