// Marks, runs, digits and numbers among tokens.
ghost use Rattle.std.specs.Prelude.{◌≡◌, ◌+◌, ◌≤◌, ◌==◌, length, Some, IfSome};
ghost use Rattle.std.specs.Option.{option_map, option_or, option_and_then};
ghost use Rattle.expr77.specs.LexemeReading as reading;
ghost use Rattle.scan77.specs.Token.{token_kind_of, tokens_of};
ghost use Rattle.expr77.specs.Views.{number_of};

use scan77::{Token, TokenKind};
use text_base::chars::are_digits;

/// A number without a sign: an integer constant with its digits, or a real one.
#[derive(Clone, Copy)]
pub enum Number<'a> {
    Whole(&'a [u8]),
    Real,
}

/// The first character, 0 where there is none.
pub fn first_or_0(text: &[u8]) -> u8
    ensures { result ≡ reading.first_or_0 text.now }
{
    match text {
        [] => 0,
        [first, ..] => *first,
    }
}

/// The character of a mark, 0 for other tokens.
pub fn character(token: &Token<'_>) -> u8
    ensures { result ≡ reading.character_of (token_kind_of token.now.kind) token.now.text.now }
{
    match token.kind {
        TokenKind::Mark => first_or_0(token.text),
        TokenKind::Run => 0,
        TokenKind::Digits => 0,
        TokenKind::Text => 0,
    }
}

/// What is left behind a mark, if it stands here.
pub fn behind_mark<'t, 'a>(mark: u8, tokens: &'t [Token<'a>]) -> Option<&'t [Token<'a>]>
    ensures read { option_map (λ rest. tokens_of rest.now) result ≡ reading.behind_mark mark (tokens_of tokens.now) }
    ensures fewer { IfSome result (λ rest. length rest.now + 1 ≤ length tokens.now) }
{
    match tokens {
        [] => None,
        [token, rest @ ..] => {
            if character(token) == mark {
                Some(rest)
            } else {
                None
            }
        }
    }
}

/// The run that stands here, and what is left behind it.
pub fn run_here<'t, 'a>(tokens: &'t [Token<'a>]) -> Option<(&'a [u8], &'t [Token<'a>])>
    ensures read { option_map (λ p. (p.0.now, tokens_of p.1.now)) result ≡ reading.run_here (tokens_of tokens.now) }
    ensures fewer { IfSome result (λ p. length p.1.now + 1 ≤ length tokens.now) }
{
    match tokens {
        [] => None,
        [token, rest @ ..] => match token.kind {
            TokenKind::Run => Some((token.text, rest)),
            TokenKind::Digits => None,
            TokenKind::Text => None,
            TokenKind::Mark => None,
        },
    }
}

/// The digits that stand here, and what is left behind them.
pub fn digits_here<'t, 'a>(tokens: &'t [Token<'a>]) -> Option<(&'a [u8], &'t [Token<'a>])>
    ensures read { option_map (λ p. (p.0.now, tokens_of p.1.now)) result ≡ reading.digits_here (tokens_of tokens.now) }
    ensures fewer { IfSome result (λ p. length p.1.now + 1 ≤ length tokens.now) }
{
    match tokens {
        [] => None,
        [token, rest @ ..] => match token.kind {
            TokenKind::Digits => Some((token.text, rest)),
            TokenKind::Run => None,
            TokenKind::Text => None,
            TokenKind::Mark => None,
        },
    }
}

fn behind_sign<'t, 'a>(tokens: &'t [Token<'a>]) -> Option<&'t [Token<'a>]>
    ensures { option_map (λ rest. tokens_of rest.now) result ≡ option_or (reading.behind_mark 43 (tokens_of tokens.now)) (reading.behind_mark 45 (tokens_of tokens.now)) }
{
    match behind_mark(b'+', tokens) {
        Some(rest) => Some(rest),
        None => behind_mark(b'-', tokens),
    }
}

fn is_exponent_letter(letter: u8) -> bool
    ensures { result ≡ reading.is_exponent_letter letter }
{
    letter == b'E' || letter == b'D'
}

fn behind_signed_digits<'t, 'a>(tokens: &'t [Token<'a>]) -> Option<&'t [Token<'a>]>
    ensures { option_map (λ rest. tokens_of rest.now) result ≡ reading.behind_signed_digits (tokens_of tokens.now) }
{
    let digits = behind_sign(tokens)?;
    let (_, rest) = digits_here(digits)?;
    Some(rest)
}

fn behind_exponent_run<'t, 'a>(run: &[u8], rest: &'t [Token<'a>]) -> Option<&'t [Token<'a>]>
    ensures { option_map (λ r. tokens_of r.now) result ≡ reading.behind_exponent_run run.now (tokens_of rest.now) }
{
    match run {
        [] => None,
        [letter] => {
            if is_exponent_letter(*letter) {
                behind_signed_digits(rest)
            } else {
                None
            }
        }
        [letter, digits @ ..] => {
            if is_exponent_letter(*letter) && are_digits(digits) {
                Some(rest)
            } else {
                None
            }
        }
    }
}

/// What is left behind an exponent, if one stands here: E or D, and a number that may have a sign.
fn behind_exponent<'t, 'a>(tokens: &'t [Token<'a>]) -> Option<&'t [Token<'a>]>
    ensures { option_map (λ rest. tokens_of rest.now) result ≡ reading.behind_exponent (tokens_of tokens.now) }
{
    let (run, rest) = run_here(tokens)?;
    behind_exponent_run(run, rest)
}

/// What is left behind an exponent, or all where none stands here.
fn behind_any_exponent<'t, 'a>(tokens: &'t [Token<'a>]) -> &'t [Token<'a>]
    ensures { tokens_of result.now ≡ reading.or_all (tokens_of tokens.now) (reading.behind_exponent (tokens_of tokens.now)) }
{
    behind_exponent(tokens).unwrap_or(tokens)
}

/// A number whose digits and point have been read: the tokens from the point on, and those behind it.
fn behind_point<'t, 'a>(
    digits: &'a [u8],
    point: &'t [Token<'a>],
    rest: &'t [Token<'a>],
) -> (Number<'a>, &'t [Token<'a>])
    ensures { (number_of result.0, tokens_of result.1.now)
        ≡ reading.behind_point digits.now (tokens_of point.now) (tokens_of rest.now) (reading.behind_exponent (tokens_of rest.now)) (reading.run_here (tokens_of rest.now)) (reading.digits_here (tokens_of rest.now)) }
{
    if let Some(after) = behind_exponent(rest) {
        return (Number::Real, after);
    }
    if let Some(_) = run_here(rest) {
        return (Number::Whole(digits), point);
    }
    match digits_here(rest) {
        Some((_, after)) => (Number::Real, behind_any_exponent(after)),
        None => (Number::Real, rest),
    }
}

/// A number whose first digits have been read.
fn behind_digits<'t, 'a>(digits: &'a [u8], rest: &'t [Token<'a>]) -> (Number<'a>, &'t [Token<'a>])
    ensures { (number_of result.0, tokens_of result.1.now)
        ≡ reading.behind_digits digits.now (tokens_of rest.now) (reading.behind_exponent (tokens_of rest.now)) (reading.behind_mark 46 (tokens_of rest.now)) }
{
    if let Some(after) = behind_exponent(rest) {
        return (Number::Real, after);
    }
    match behind_mark(b'.', rest) {
        Some(more) => behind_point(digits, rest, more),
        None => (Number::Whole(digits), rest),
    }
}

/// What is left behind a point and digits, if they stand here.
fn behind_fraction<'t, 'a>(tokens: &'t [Token<'a>]) -> Option<&'t [Token<'a>]>
    ensures { option_map (λ rest. tokens_of rest.now) result
        ≡ option_map (λ d. reading.or_all d.1 (reading.behind_exponent d.1)) (option_and_then reading.digits_here (reading.behind_mark 46 (tokens_of tokens.now))) }
{
    let digits = behind_mark(b'.', tokens)?;
    let (_, rest) = digits_here(digits)?;
    Some(behind_any_exponent(rest))
}

/// The number without a sign that stands here, if one does (X3.9 sections 4.3 to 4.5).
#[tactic(auto, unfolding(crate::specs::LexemeReading::read_number))]
pub fn number_here<'t, 'a>(tokens: &'t [Token<'a>]) -> Option<(Number<'a>, &'t [Token<'a>])>
    ensures { option_map (λ p. (number_of p.0, tokens_of p.1.now)) result ≡ reading.read_number (tokens_of tokens.now) }
{
    if let Some((digits, rest)) = digits_here(tokens) {
        return Some(behind_digits(digits, rest));
    }
    let rest = behind_fraction(tokens)?;
    Some((Number::Real, rest))
}

fn behind_part<'t, 'a>(tokens: &'t [Token<'a>]) -> Option<&'t [Token<'a>]>
    ensures { option_map (λ rest. tokens_of rest.now) result ≡ reading.behind_part (tokens_of tokens.now) }
{
    let unsigned = behind_sign(tokens).unwrap_or(tokens);
    let (_, rest) = number_here(unsigned)?;
    Some(rest)
}

/// What is left behind a complex constant, if one stands here (X3.9 section 4.6.1).
#[tactic(auto, unfolding(crate::specs::LexemeReading::behind_complex))]
pub fn behind_complex<'t, 'a>(tokens: &'t [Token<'a>]) -> Option<&'t [Token<'a>]>
    ensures { option_map (λ rest. tokens_of rest.now) result ≡ reading.behind_complex (tokens_of tokens.now) }
{
    let real = behind_mark(b'(', tokens)?;
    let comma = behind_part(real)?;
    let imaginary = behind_mark(b',', comma)?;
    let end = behind_part(imaginary)?;
    behind_mark(b')', end)
}

/// What is left behind H and the letters, digits and underscores that follow it, if it stands here.
pub fn behind_hollerith<'t, 'a>(tokens: &'t [Token<'a>]) -> Option<&'t [Token<'a>]>
    ensures { option_map (λ rest. tokens_of rest.now) result ≡ reading.behind_hollerith (tokens_of tokens.now) }
{
    let (run, rest) = run_here(tokens)?;
    if first_or_0(run) == b'H' {
        Some(rest)
    } else {
        None
    }
}
