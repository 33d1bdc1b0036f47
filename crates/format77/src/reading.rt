// Reads formats.
ghost use Rattle.std.specs.Prelude.{◌≡◌, length, IfOk};
ghost use Rattle.std.specs.Option.{option_map};
ghost use Rattle.scan77.specs.PieceReading.{format_pieces_of};
ghost use Rattle.scan77.specs.PieceSlice.{slice_of};
ghost use Rattle.format77.specs.Reading.{inside_of, lexemes_in, format_of};
ghost use Rattle.format77.specs.State.{HasOutcome, outcome_of, outcome_start};

use crate::build_error::BuildError;
use crate::format_read::FormatRead;
use crate::lexeme_reading::lexeme_at;
use crate::progress::Progress;
use scan77::{PieceSlice, format_pieces};
use sqlite_items::Items;
use std::alloc::{AllocError, Global};

/// The pieces between the parentheses of a format.
fn inside_of<'a>(pieces: PieceSlice<'a>) -> Option<PieceSlice<'a>>
    ensures { option_map slice_of result ≡ inside_of (slice_of pieces.entry) }
{
    pieces.behind("(")?.before(b')')
}

/// Reads the lexemes between the parentheses, of which there is one at least.
fn read_inside(alloc: Global, inside: PieceSlice<'_>) -> Result<FormatRead, BuildError>
    ensures { HasOutcome (outcome_start (lexemes_in (length (slice_of inside.entry)) (slice_of inside.entry))) result }
{
    let mut progress = Progress::new(alloc);
    let mut rest = inside;
    while !rest.is_empty() {
        let Some((lexeme, more)) = lexeme_at(alloc, rest)? else {
            return Err(BuildError::NotSpelled);
        };
        progress = progress.take(alloc, lexeme)?;
        rest = more;
    }
    progress.finish()
}

/// Reads a format (X3.9 section 13).
///
/// In: the pieces of a FORMAT behind its keyword, or those of the characters of a character constant.
///
/// Out: the items of the format; or the word that a refusal shows, where a part of it isn't accepted, of several the first;
/// or that they are no format. An error comes only where memory is wanted.
pub fn read_format(alloc: Global, pieces: PieceSlice<'_>) -> Result<FormatRead, AllocError>
    ensures { IfOk result (λ r. outcome_of r ≡ format_of 0 (slice_of pieces.entry)) }
{
    let Some(inside) = inside_of(pieces) else {
        return Ok(FormatRead::NotSpelled);
    };
    if inside.is_empty() {
        return Ok(FormatRead::Accepted(Items::new(alloc)));
    }
    match read_inside(alloc, inside) {
        Ok(read) => Ok(read),
        Err(BuildError::NotSpelled) => Ok(FormatRead::NotSpelled),
        Err(BuildError::Memory) => Err(AllocError),
    }
}

/// Reads the characters of a character constant as a format (X3.9 section 13.1.2). They are cut into pieces as those of a
/// FORMAT.
///
/// In: the characters that the constant stands for.
///
/// Out: as of `read_format`.
pub fn read_format_text(alloc: Global, characters: &[u8]) -> Result<FormatRead, AllocError>
    ensures { IfOk result (λ r. outcome_of r ≡ format_of 0 (format_pieces_of characters.now)) }
{
    let pieces = format_pieces(alloc, characters)?;
    read_format(alloc, pieces.all())
}
