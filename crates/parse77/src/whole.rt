// Reads the pieces of a statement as a whole.
ghost use Rattle.std.specs.Prelude.{◌≡◌, IfOk};
ghost use Rattle.std.specs.Option.{option_map};
ghost use Rattle.tree77.specs.FormTable.{form_of};
ghost use Rattle.scan77.specs.PieceSlice.{slice_of};
ghost use Rattle.scan77.specs.Token.{tokens_of};
ghost use Rattle.scan77.specs.TokenReading.{read_tokens, no_token};
ghost use Rattle.forms77.specs.Reading.{read};
ghost use Rattle.forms77.specs.Whole.{read_to_end, whole_of};
ghost use Rattle.parse77.specs.Reading.{read_behind};
ghost use Rattle.parse77.specs.Sort.{sort_of};
ghost use Rattle.parse77.specs.Views.{read_made};

use crate::sort::{Sort, read_form};
use expr77::Part;
use forms77::{Feed, Stop, discard};
use scan77::{PieceSlice, ScanError, Token, Tokens, cut, one_cut};
use std::alloc::{AllocError, Global};
use tree77::Statement77;

/// What pieces are read as: a statement, and its lowest part that is refused. `None` where they spell none.
pub type Read<'a> = Option<(Statement77, Option<Part<'a>>)>;

/// The tokens of some pieces. `None` where they can't be cut.
fn tokens<'a>(alloc: Global, pieces: PieceSlice<'a>) -> Result<Option<Tokens<'a>>, AllocError>
    ensures { IfOk result (λ made. option_map tokens_of made ≡ read_tokens (slice_of pieces.entry) no_token) }
{
    one_cut();
    match cut(alloc, pieces) {
        Ok(tokens) => Ok(Some(tokens)),
        Err(ScanError::NoToken) => Ok(None),
        Err(ScanError::Memory) => Err(AllocError),
    }
}

/// What tokens are read as by the form of a sort, to their end.
fn to_end<'a>(
    alloc: Global,
    sort: Sort,
    room: usize,
    tokens: &[Token<'a>],
) -> Result<Read<'a>, AllocError>
    ensures { IfOk result (λ made. read_made made ≡ read_to_end (read (form_of room (sort_of sort))) (tokens_of tokens.now)) }
{
    let mut feed = Feed::new(tokens);
    let statement = match read_form(alloc, sort, room, &mut feed) {
        Ok(statement) => statement,
        Err(Stop::NotSpelled) => return Ok(None),
        Err(Stop::Memory) => return Err(AllocError),
    };
    match feed.finish() {
        Ok(lowest) => Ok(Some((statement, lowest))),
        Err(_) => {
            discard(statement);
            Ok(None)
        }
    }
}

/// What pieces are read as by the form of a sort, as a whole. It fails for want of memory alone.
pub fn whole<'a>(alloc: Global, sort: Sort, pieces: PieceSlice<'a>) -> Result<Read<'a>, AllocError>
    ensures { IfOk result (λ made. read_made made ≡ whole_of (sort_of sort) (slice_of pieces.entry)) }
{
    let Some(tokens) = tokens(alloc, pieces)? else {
        return Ok(None);
    };
    to_end(alloc, sort, pieces.characters().len(), tokens.as_slice())
}

/// What pieces are read as that begin with a word, behind which the form of a sort stands.
pub fn behind<'a>(
    alloc: Global,
    word: &str,
    sort: Sort,
    pieces: PieceSlice<'a>,
) -> Result<Read<'a>, AllocError>
    ensures { IfOk result (λ made. read_made made ≡ read_behind word.now (sort_of sort) (slice_of pieces.entry)) }
{
    let Some(rest) = pieces.behind(word) else {
        return Ok(None);
    };
    whole(alloc, sort, rest)
}
