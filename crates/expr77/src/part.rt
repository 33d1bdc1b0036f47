// Parts of expressions that are refused.
ghost use Rattle.std.specs.Prelude.{◌≡◌, ◌∷◌, [], pos, take, Some, None, if◌then◌else◌};
ghost use Rattle.std.specs.Option.{option_map};
ghost use Rattle.tree77.specs.Lexemes as plain;
ghost use Rattle.expr77.specs.Gathering.{keep};
ghost use Rattle.expr77.specs.Views.{lexeme_of, plain_part, plain_parts};
ghost use Rattle.text_base.specs.declared.refusal.Cause.TheVariants.{Unsupported};

use crate::lexeme::Lexeme;
use text_base::Cause;
use text_base::limits::{DEEPEST_NESTING, GREATEST_INTEGER, LONGEST_NAME, MOST_SHOWN};

/// A part of an expression that is refused: its cause, and the characters that the refusal shows as its name.
#[derive(Clone, Copy)]
pub struct Part<'a> {
    pub cause: Cause,
    pub shown: &'a [u8],
}

/// The value of an integer constant (X3.9 section 4.3.1), where it isn't too great.
pub fn small_value(digits: &[u8]) -> Option<i32>
    ensures { result ≡ (if plain.is_small digits.now then Some (pos (plain.decimal digits.now)) else None) }
{
    let mut value: u64 = 0;
    for digit in digits {
        value = 10 * value + u64::from(digit.saturating_sub(48));
        if value > GREATEST_INTEGER {
            return None;
        }
    }
    Some(value as i32)
}

/// The first characters of a text.
pub fn first(text: &[u8], count: usize) -> &[u8]
    ensures { result.now ≡ take count text.now }
{
    let (shown, _) = text.split_at(text.len().min(count));
    shown
}

/// A form that is refused.
pub fn unsupported<'a>(word: &'a str) -> Option<Part<'a>>
    ensures { plain_parts result ≡ record { cause = Unsupported; shown = word.now } ∷ [] }
{
    Some(Part {
        cause: Cause::Unsupported,
        shown: word.as_bytes(),
    })
}

/// The part that an integer constant is which is too great.
pub fn great_number(digits: &[u8]) -> Option<Part<'_>>
    ensures { plain_parts result ≡ plain.part_of 0 (plain.integer digits.now) }
{
    if small_value(digits).is_some() {
        return None;
    }
    Some(Part {
        cause: Cause::ConstantRange,
        shown: first(digits, MOST_SHOWN),
    })
}

/// The part that a name is which is too long.
pub fn name_too_long(word: &[u8]) -> Option<Part<'_>>
    ensures { plain_parts result ≡ plain.part_of 0 (plain.name word.now) }
{
    if word.len() <= LONGEST_NAME {
        return None;
    }
    Some(Part {
        cause: Cause::NameTooLong,
        shown: first(word, LONGEST_NAME),
    })
}

/// The part that a parenthesis is which is nested too deep, where so many are open before it.
pub fn deep_parenthesis<'a>(depth: usize) -> Option<Part<'a>>
    ensures { plain_parts result ≡ plain.part_of depth plain.opening }
{
    if depth < DEEPEST_NESTING {
        return None;
    }
    unsupported("DEPTH")
}

/// The refused part that a lexeme is, where so many parentheses are open before it.
pub fn refused_part<'a>(depth: usize, lexeme: &Lexeme<'a>) -> Option<Part<'a>>
    ensures { plain_parts result ≡ plain.part_of depth (lexeme_of lexeme.now) }
{
    match lexeme {
        Lexeme::Integer(digits) => great_number(digits),
        Lexeme::Constant => unsupported("CONSTANT"),
        Lexeme::Alternate => unsupported("RETURN"),
        Lexeme::Name(name) => name_too_long(name.as_slice()),
        Lexeme::Open => deep_parenthesis(depth),
        Lexeme::Logical(_) => None,
        Lexeme::Characters(_) => None,
        Lexeme::Operator(_) => None,
        Lexeme::Not => None,
        Lexeme::Close => None,
        Lexeme::Comma => None,
        Lexeme::Colon => None,
    }
}

/// The part of the lower cause; the first of equal ones.
pub fn lower_part<'a>(kept: Option<Part<'a>>, part: Option<Part<'a>>) -> Option<Part<'a>>
    ensures { option_map plain_part result ≡ keep (option_map plain_part kept.entry) (plain_parts part.entry) }
{
    let Some(part) = part else {
        return kept;
    };
    match kept {
        None => Some(part),
        Some(first) => {
            if part.cause.number() < first.cause.number() {
                Some(part)
            } else {
                Some(first)
            }
        }
    }
}
