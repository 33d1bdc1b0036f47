// Reads the lexemes of an expression from tokens.
ghost use Rattle.std.specs.Prelude.{◌≡◌, ◌==◌, ◌∷◌, List, ℕ, Some, None, IfOk, false, not};
ghost use Rattle.std.specs.List.{list_any};
ghost use Rattle.std.specs.Option.{option_map, option_and_then};
ghost use Rattle.tree77.specs.Lexemes as plain;
ghost use Rattle.expr77.specs.LexemeReading as reading;
ghost use Rattle.scan77.specs.Token.{tokens_of};
ghost use Rattle.expr77.specs.Views.{number_of, lexeme_of, stand_of};

use crate::lexeme::Lexeme;
use crate::long_name::LongName;
use crate::number::{
    Number, behind_complex, behind_hollerith, behind_mark, digits_here, first_or_0, number_here,
    run_here,
};
use expr_tree::BinaryOp;
use scan77::{Token, TokenKind};
use std::alloc::{AllocError, Global};
use text_base::Bytes;
use text_base::chars::are_digits;

/// What may stand next: an argument or any operand, an operand, or what follows an operand.
#[derive(Clone, Copy)]
pub enum Stand {
    Argument,
    Operand,
    After,
}

/// What may stand behind a lexeme.
pub fn stand_behind(lexeme: &Lexeme<'_>) -> Stand
    ensures { stand_of result ≡ reading.stand_behind (lexeme_of lexeme.now) }
{
    match lexeme {
        Lexeme::Operator(_) => Stand::Operand,
        Lexeme::Not => Stand::Operand,
        Lexeme::Colon => Stand::Operand,
        Lexeme::Open => Stand::Argument,
        Lexeme::Comma => Stand::Argument,
        Lexeme::Integer(_) => Stand::After,
        Lexeme::Constant => Stand::After,
        Lexeme::Logical(_) => Stand::After,
        Lexeme::Characters(_) => Stand::After,
        Lexeme::Name(_) => Stand::After,
        Lexeme::Alternate => Stand::After,
        Lexeme::Close => Stand::After,
    }
}

/// Takes a character of a character constant, where an apostrophe may have been read that isn't doubled yet. Whether one
/// has been read then; `None` behind the last apostrophe.
fn take_quoted(value: &mut Bytes, pending: bool, byte: u8) -> Result<Option<bool>, AllocError>
    ensures { IfOk result (λ next. (t : List ℕ) → reading.with_quoted value.new next t ≡ reading.with_quoted value.old (Some pending) (byte ∷ t)) }
{
    if pending {
        if byte == b'\'' {
            value.push(byte)?;
            return Ok(Some(false));
        }
        return Ok(None);
    }
    if byte == b'\'' {
        return Ok(Some(true));
    }
    value.push(byte)?;
    Ok(Some(false))
}

/// What stands before the last apostrophe, which is the first that isn't doubled.
fn quoted(alloc: Global, text: &[u8]) -> Result<Option<Bytes>, AllocError>
    ensures { IfOk result (λ value. value ≡ reading.read_quoted false text.now) }
{
    let mut value = Bytes::new(alloc);
    let mut pending = false;
    for byte in text {
        match take_quoted(&mut value, pending, *byte)? {
            Some(next) => pending = next,
            None => return Ok(None),
        }
    }
    if pending { Ok(Some(value)) } else { Ok(None) }
}

/// The characters that a character constant stands for (X3.9 section 4.8.1).
///
/// In: a text.
///
/// Out: the characters, where the text is a character constant with its apostrophes; `None` where it is none. An error comes
/// only where memory is wanted.
pub fn quoted_text(alloc: Global, text: &[u8]) -> Result<Option<Bytes>, AllocError>
    ensures { IfOk result (λ value. value ≡ reading.quoted_value text.now) }
{
    match text {
        [b'\'', inside @ ..] => {
            let Some(value) = quoted(alloc, inside)? else {
                return Ok(None);
            };
            if value.as_slice().is_empty() {
                return Ok(None);
            }
            Ok(Some(value))
        }
        _ => Ok(None),
    }
}

/// The operator or logical constant that stands between points (X3.9 sections 4.7.1, 6.3.1 and 6.4.1).
fn word_lexeme<'a>(text: &[u8]) -> Option<Lexeme<'a>>
    ensures { option_map lexeme_of result ≡ reading.read_word text.now }
{
    let lexeme = if text == b"LT".as_slice() {
        Lexeme::Operator(BinaryOp::Lt)
    } else if text == b"LE".as_slice() {
        Lexeme::Operator(BinaryOp::Le)
    } else if text == b"EQ".as_slice() {
        Lexeme::Operator(BinaryOp::Eq)
    } else if text == b"NE".as_slice() {
        Lexeme::Operator(BinaryOp::Ne)
    } else if text == b"GT".as_slice() {
        Lexeme::Operator(BinaryOp::Gt)
    } else if text == b"GE".as_slice() {
        Lexeme::Operator(BinaryOp::Ge)
    } else if text == b"AND".as_slice() {
        Lexeme::Operator(BinaryOp::And)
    } else if text == b"OR".as_slice() {
        Lexeme::Operator(BinaryOp::Or)
    } else if text == b"EQV".as_slice() {
        Lexeme::Operator(BinaryOp::Eqv)
    } else if text == b"NEQV".as_slice() {
        Lexeme::Operator(BinaryOp::Neqv)
    } else if text == b"NOT".as_slice() {
        Lexeme::Not
    } else if text == b"TRUE".as_slice() {
        Lexeme::Logical(true)
    } else if text == b"FALSE".as_slice() {
        Lexeme::Logical(false)
    } else {
        return None;
    };
    Some(lexeme)
}

fn lexeme_of_number<'a>(number: Number<'a>) -> Lexeme<'a>
    ensures { lexeme_of result ≡ reading.lexeme_of_number (number_of number.entry) }
{
    match number {
        Number::Whole(digits) => Lexeme::Integer(digits),
        Number::Real => Lexeme::Constant,
    }
}

fn number_lexeme<'t, 'a>(tokens: &'t [Token<'a>]) -> Option<(Lexeme<'a>, &'t [Token<'a>])>
    ensures { option_map (λ p. (lexeme_of p.0, tokens_of p.1.now)) result ≡ reading.found_number (tokens_of tokens.now) }
{
    let (number, rest) = number_here(tokens)?;
    Some((lexeme_of_number(number), rest))
}

/// What stands behind a point: an operator or a logical constant, and another point.
fn dotted_lexeme<'t, 'a>(rest: &'t [Token<'a>]) -> Option<(Lexeme<'a>, &'t [Token<'a>])>
    ensures { option_map (λ p. (lexeme_of p.0, tokens_of p.1.now)) result ≡ reading.read_dotted (tokens_of rest.now) }
{
    let (word, point) = run_here(rest)?;
    let more = behind_mark(b'.', point)?;
    let lexeme = word_lexeme(word)?;
    Some((lexeme, more))
}

fn point_lexeme<'t, 'a>(
    tokens: &'t [Token<'a>],
    rest: &'t [Token<'a>],
) -> Option<(Lexeme<'a>, &'t [Token<'a>])>
    ensures { option_map (λ p. (lexeme_of p.0, tokens_of p.1.now)) result ≡ reading.point_at (tokens_of tokens.now) (tokens_of rest.now) (reading.digits_here (tokens_of rest.now)) }
{
    match digits_here(rest) {
        Some(_) => number_lexeme(tokens),
        None => dotted_lexeme(rest),
    }
}

fn is_zero(byte: u8) -> bool
    ensures { result ≡ (byte == 48) }
{
    byte == b'0'
}

fn has_other_than_0(text: &[u8]) -> bool
    ensures { result ≡ list_any (λ c. not (c == 48)) text.now }
{
    text.iter().any(|byte| !is_zero(*byte))
}

/// Whether characters are a statement label (X3.9 section 3.4).
pub fn is_label(text: &[u8]) -> bool
    ensures { result ≡ plain.is_label text.now }
{
    are_digits(text) && text.len() <= 5 && has_other_than_0(text)
}

/// What is left behind a statement label, if one stands here.
fn behind_label<'t, 'a>(tokens: &'t [Token<'a>]) -> Option<&'t [Token<'a>]>
    ensures { option_map (λ rest. tokens_of rest.now) result ≡ reading.if_label (reading.digits_here (tokens_of tokens.now)) }
{
    let (digits, rest) = digits_here(tokens)?;
    if is_label(digits) { Some(rest) } else { None }
}

fn is_argument(stand: Stand) -> bool
    ensures { result ≡ reading.is_argument (stand_of stand) }
{
    match stand {
        Stand::Argument => true,
        Stand::Operand => false,
        Stand::After => false,
    }
}

fn is_after(stand: Stand) -> bool
    ensures { result ≡ reading.is_after (stand_of stand) }
{
    match stand {
        Stand::Argument => false,
        Stand::Operand => false,
        Stand::After => true,
    }
}

/// What stands behind a star.
fn star_lexeme<'t, 'a>(stand: Stand, rest: &'t [Token<'a>]) -> (Lexeme<'a>, &'t [Token<'a>])
    ensures { Some (lexeme_of result.0, tokens_of result.1.now) ≡ reading.read_star (stand_of stand) (tokens_of rest.now) }
{
    if let Some(more) = behind_mark(b'*', rest) {
        return (Lexeme::Operator(BinaryOp::Power), more);
    }
    if is_argument(stand) {
        if let Some(more) = behind_label(rest) {
            return (Lexeme::Alternate, more);
        }
    }
    (Lexeme::Operator(BinaryOp::Times), rest)
}

/// What stands behind a slash.
fn slash_lexeme<'t, 'a>(rest: &'t [Token<'a>]) -> (Lexeme<'a>, &'t [Token<'a>])
    ensures { Some (lexeme_of result.0, tokens_of result.1.now) ≡ reading.read_slash (tokens_of rest.now) }
{
    match behind_mark(b'/', rest) {
        Some(more) => (Lexeme::Operator(BinaryOp::Concat), more),
        None => (Lexeme::Operator(BinaryOp::Over), rest),
    }
}

/// A parenthesis that opens, or a complex constant.
fn open_lexeme<'t, 'a>(
    stand: Stand,
    tokens: &'t [Token<'a>],
    rest: &'t [Token<'a>],
) -> (Lexeme<'a>, &'t [Token<'a>])
    ensures { Some (lexeme_of result.0, tokens_of result.1.now) ≡ reading.read_open (stand_of stand) (tokens_of tokens.now) (tokens_of rest.now) }
{
    if !is_after(stand) {
        if let Some(more) = behind_complex(tokens) {
            return (Lexeme::Constant, more);
        }
    }
    (Lexeme::Open, rest)
}

/// The lexeme that begins with a mark, where all tokens and those behind it are given.
fn mark_lexeme<'t, 'a>(
    stand: Stand,
    mark: u8,
    tokens: &'t [Token<'a>],
    rest: &'t [Token<'a>],
) -> Option<(Lexeme<'a>, &'t [Token<'a>])>
    ensures { option_map (λ p. (lexeme_of p.0, tokens_of p.1.now)) result ≡ reading.read_mark (stand_of stand) mark (tokens_of tokens.now) (tokens_of rest.now) }
{
    match mark {
        b'(' => Some(open_lexeme(stand, tokens, rest)),
        b')' => Some((Lexeme::Close, rest)),
        b',' => Some((Lexeme::Comma, rest)),
        b':' => Some((Lexeme::Colon, rest)),
        b'+' => Some((Lexeme::Operator(BinaryOp::Plus), rest)),
        b'-' => Some((Lexeme::Operator(BinaryOp::Minus), rest)),
        b'*' => Some(star_lexeme(stand, rest)),
        b'/' => Some(slash_lexeme(rest)),
        b'.' => point_lexeme(tokens, rest),
        _ => None,
    }
}

fn name_lexeme<'t, 'a>(
    text: &'a [u8],
    rest: &'t [Token<'a>],
) -> Option<(Lexeme<'a>, &'t [Token<'a>])>
    ensures { option_map (λ p. (lexeme_of p.0, tokens_of p.1.now)) result ≡ reading.name_at text.now (tokens_of rest.now) }
{
    let name = LongName::new(text)?;
    Some((Lexeme::Name(name), rest))
}

fn digits_lexeme<'t, 'a>(
    tokens: &'t [Token<'a>],
    rest: &'t [Token<'a>],
) -> Option<(Lexeme<'a>, &'t [Token<'a>])>
    ensures { option_map (λ p. (lexeme_of p.0, tokens_of p.1.now)) result
        ≡ reading.or_found (reading.behind_hollerith (tokens_of rest.now)) plain.constant (reading.found_number (tokens_of tokens.now)) }
{
    match behind_hollerith(rest) {
        Some(more) => Some((Lexeme::Constant, more)),
        None => number_lexeme(tokens),
    }
}

fn text_lexeme<'t, 'a>(
    alloc: Global,
    text: &[u8],
    rest: &'t [Token<'a>],
) -> Result<Option<(Lexeme<'a>, &'t [Token<'a>])>, AllocError>
    ensures { IfOk result (λ found. option_map (λ p. (lexeme_of p.0, tokens_of p.1.now)) found ≡ reading.characters_at text.now (tokens_of rest.now)) }
{
    match quoted_text(alloc, text)? {
        Some(value) => Ok(Some((Lexeme::Characters(value), rest))),
        None => Ok(None),
    }
}

/// The lexeme that stands here (X3.9 section 2.2), and what is left behind it. `None` where none does. An error comes only
/// where memory is wanted.
#[tactic(auto, unfolding(crate::specs::LexemeReading::read_lexeme))]
pub fn lexeme_here<'t, 'a>(
    alloc: Global,
    stand: Stand,
    tokens: &'t [Token<'a>],
) -> Result<Option<(Lexeme<'a>, &'t [Token<'a>])>, AllocError>
    ensures { IfOk result (λ found. option_map (λ p. (lexeme_of p.0, tokens_of p.1.now)) found ≡ reading.read_lexeme (stand_of stand) (tokens_of tokens.now)) }
{
    let [token, rest @ ..] = tokens else {
        return Ok(None);
    };
    let text = token.text;
    match token.kind {
        TokenKind::Run => Ok(name_lexeme(text, rest)),
        TokenKind::Digits => Ok(digits_lexeme(tokens, rest)),
        TokenKind::Text => text_lexeme(alloc, text, rest),
        TokenKind::Mark => Ok(mark_lexeme(stand, first_or_0(text), tokens, rest)),
    }
}
