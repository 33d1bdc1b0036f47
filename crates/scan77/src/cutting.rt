// Cuts the pieces of a statement into tokens.
ghost use Rattle.std.specs.Prelude.{◌≡◌, ◌≢◌, ◌∷◌, ◌++◌, ◌<◌, ◌≤◌, ℕ, List, [], length, true, IfOk, IfSome, Err, None};
ghost use Rattle.text_base.specs.Chars.{is_digit, is_name_byte};
ghost use Rattle.text_base.specs.Pieces.{plain};
ghost use Rattle.tree77.specs.Tokens.{is_mark, begins_none, MayPrecede, IsCut, IsStuck, token_pieces};
ghost use Rattle.scan77.specs.Cutting.{behind_passing, IsFirst};
ghost use Rattle.scan77.specs.PieceSlice.{slice_of};
ghost use Rattle.scan77.specs.Token.{token_kind_of, token_of, tokens_of};
ghost use Rattle.scan77.specs.declared.scan_error.ScanError.TheVariants.{NoToken};

use crate::mark::Mark;
use crate::piece_parts::{before, behind_digits, behind_kept};
use crate::{PieceSlice, ScanError, Token, TokenKind, Tokens};
use sqlite_items::Items;
use std::alloc::Global;
use text_base::chars::{is_digit, is_name_byte, is_upper};

fn is_mark(byte: u8) -> bool
    ensures { result ≡ is_mark byte }
{
    matches!(
        byte,
        b'(' | b')' | b',' | b'=' | b'+' | b'-' | b'*' | b'/' | b':' | b'.'
    )
}

/// What is left behind all first letters, digits and underscores outside kept text.
fn behind_run(pieces: PieceSlice<'_>) -> PieceSlice<'_>
    ensures pieces { slice_of result ≡ behind_passing is_name_byte (slice_of pieces.entry) }
    ensures within { length result.text.now ≤ length pieces.entry.text.now }
{
    let mut rest = pieces;
    while let Some((byte, more)) = rest.split_plain() {
        if !is_name_byte(byte) {
            return rest;
        }
        rest = more;
    }
    rest
}

/// What a token is that begins with this character outside kept text, and what is left behind it. `None` where it begins
/// no token.
fn plain_token<'a>(byte: u8, more: PieceSlice<'a>) -> Option<(TokenKind, PieceSlice<'a>)>
    ensures some { IfSome result (λ r. IsFirst (token_kind_of r.0) (plain byte ∷ slice_of more.entry) (slice_of r.1)) }
    ensures within { IfSome result (λ r. length r.1.text.now ≤ length more.entry.text.now) }
    ensures none { result ≡ None → begins_none byte ≡ true }
{
    if is_upper(byte) {
        Some((TokenKind::Run, behind_run(more)))
    } else if is_digit(byte) {
        Some((TokenKind::Digits, behind_digits(more)))
    } else if is_mark(byte) {
        Some((TokenKind::Mark, more))
    } else {
        None
    }
}

/// What the first token is, and what is left behind it. `None` where the pieces begin with none.
fn first_token<'a>(pieces: PieceSlice<'a>) -> Option<(TokenKind, PieceSlice<'a>)>
    ensures some { IfSome result (λ r. IsFirst (token_kind_of r.0) (slice_of pieces.entry) (slice_of r.1)) }
    ensures shorter { IfSome result (λ r. length r.1.text.now < length pieces.entry.text.now) }
    ensures none { result ≡ None → slice_of pieces.entry ≢ [] → IsStuck (slice_of pieces.entry) }
{
    let (byte, mark, more) = pieces.split_first()?;
    match mark {
        Mark::Plain => plain_token(byte, more),
        Mark::Open => None,
        Mark::First | Mark::Further => Some((TokenKind::Text, behind_kept(more))),
    }
}

/// The first token, and what is left behind it. `None` where the pieces begin with none.
fn next_token<'a>(pieces: PieceSlice<'a>) -> Option<(Token<'a>, PieceSlice<'a>)>
    ensures some { IfSome result (λ r. (slice_of pieces.entry ≡ token_pieces (token_of r.0) ++ slice_of r.1) × MayPrecede (token_of r.0) (slice_of r.1)) }
    ensures shorter { IfSome result (λ r. length r.1.text.now < length pieces.entry.text.now) }
    ensures none { result ≡ None → slice_of pieces.entry ≢ [] → IsStuck (slice_of pieces.entry) }
{
    let (kind, rest) = first_token(pieces)?;
    let text = before(pieces, rest);
    Some((Token { kind, text }, rest))
}

/// Cuts pieces into tokens (X3.9 section 3.1.6): longest runs of letters, digits and underscores that begin with a letter,
/// longest other digits, kept texts and marks.
///
/// In: the pieces of a statement, or a part of them.
///
/// Out: the tokens in order, which lend their characters from the pieces; or `NoToken`, exactly where, behind some tokens, a
/// character constant isn't closed or a character begins no token. `Memory`, where memory is wanted, may come in place of
/// either.
pub fn cut<'a>(alloc: Global, pieces: PieceSlice<'a>) -> Result<Tokens<'a>, ScanError>
    ensures cut { IfOk result (λ tokens. IsCut (slice_of pieces.entry) (tokens_of tokens)) }
    ensures stuck { result ≡ Err NoToken → IsStuck (slice_of pieces.entry) }
{
    let mut tokens = Items::new(alloc);
    let mut rest = pieces;
    while !rest.is_empty() {
        match next_token(rest) {
            Some((token, more)) => {
                tokens.push(token)?;
                rest = more;
            }
            None => return Err(ScanError::NoToken),
        }
    }
    Ok(tokens)
}
