// What stands first among tokens.
ghost use Rattle.std.specs.Prelude.{◌≡◌, ◌+◌, ◌≤◌, ◌==◌, ◌^◌, ◌<◌, length, false, suc, Some, None, IfSome};
ghost use Rattle.std.specs.Option.{option_map};
ghost use Rattle.tree77.specs.Kinds.{open_after};
ghost use Rattle.tree77.specs.Lexemes as lexeme;
ghost use Rattle.expr77.specs.LexemeReading as reading;
ghost use Rattle.scan77.specs.Token.{token_kind_of, tokens_of};
ghost use Rattle.tree77.specs.Forms.{is_in};
ghost use Rattle.forms77.specs.Reading as form;

use expr77::character;
use scan77::{Token, TokenKind};

/// The kept text that stands here, and what is left behind it.
pub fn kept_here<'t, 'a>(tokens: &'t [Token<'a>]) -> Option<(&'a [u8], &'t [Token<'a>])>
    ensures read { option_map (λ p. (p.0.now, tokens_of p.1.now)) result ≡ form.kept_here (tokens_of tokens.now) }
    ensures fewer { IfSome result (λ p. length p.1.now + 1 ≤ length tokens.now) }
{
    match tokens {
        [] => None,
        [token, rest @ ..] => match token.kind {
            TokenKind::Text => Some((token.text, rest)),
            TokenKind::Run => None,
            TokenKind::Digits => None,
            TokenKind::Mark => None,
        },
    }
}

/// The sort of what stands next: `A` for letters, `0` for digits, `'` for kept text, and marks; 0 is the end.
pub fn next_sort(tokens: &[Token<'_>]) -> u8
    ensures { result ≡ form.next_sort (tokens_of tokens.now) }
{
    match tokens {
        [] => 0,
        [token, ..] => match token.kind {
            TokenKind::Run => b'A',
            TokenKind::Digits => b'0',
            TokenKind::Text => b'\'',
            TokenKind::Mark => character(token),
        },
    }
}

/// The run that stands next; nothing where none does.
pub fn next_text<'a>(tokens: &[Token<'a>]) -> &'a [u8]
    ensures { result.now ≡ form.next_text (tokens_of tokens.now) }
{
    match tokens {
        [] => b"",
        [token, ..] => match token.kind {
            TokenKind::Run => token.text,
            TokenKind::Digits => b"",
            TokenKind::Text => b"",
            TokenKind::Mark => b"",
        },
    }
}

/// What is left behind one token.
pub fn behind_token<'t, 'a>(tokens: &'t [Token<'a>]) -> &'t [Token<'a>]
    ensures { tokens_of result.now ≡ form.behind_token (tokens_of tokens.now) }
{
    match tokens {
        [] => tokens,
        [_, rest @ ..] => rest,
    }
}

/// How many parentheses are open behind a mark.
pub fn open_after(open_: usize, mark: u8) -> usize
    requires { open_ + 1 < 2 ^ 64 }
    ensures value { result ≡ open_after open_ mark }
    ensures bound { result ≤ open_ + 1 }
{
    if mark == b'(' {
        return open_ + 1;
    }
    if mark == b')' {
        return open_.saturating_sub(1);
    }
    open_
}

/// What is left behind the partner of the parenthesis that stands first.
pub fn behind_partner<'t, 'a>(tokens: &'t [Token<'a>]) -> &'t [Token<'a>]
    ensures { tokens_of result.now ≡ form.behind_partner 0 (tokens_of tokens.now) }
{
    let mut open_: usize = 0;
    let mut rest = tokens;
    while let [token, more @ ..] = rest {
        open_ = open_after(open_, character(token));
        rest = more;
        if open_ == 0 {
            return rest;
        }
    }
    rest
}

/// An equals sign stands in the parentheses that stand first, and in no inner ones.
pub fn has_equals(tokens: &[Token<'_>]) -> bool
    ensures { result ≡ form.has_equals 0 (tokens_of tokens.now) }
{
    let mut open_: usize = 0;
    for token in tokens {
        let mark = character(token);
        let after = open_after(open_, mark);
        if after == 0 {
            return false;
        }
        if open_ == 1 && mark == b'=' {
            return true;
        }
        open_ = after;
    }
    false
}

/// A star stands in the outermost parentheses, behind the one that opens them or a comma.
pub fn has_star(tokens: &[Token<'_>]) -> bool
    ensures { result ≡ form.has_star false 0 (tokens_of tokens.now) }
{
    let mut open_: usize = 0;
    let mut after = false;
    for token in tokens {
        let mark = character(token);
        if after && open_ == 1 && mark == b'*' {
            return true;
        }
        after = mark == b'(' || mark == b',';
        open_ = open_after(open_, mark);
    }
    false
}

/// Whether a mark is one of some.
pub fn is_one_of(marks: &str, mark: u8) -> bool
    ensures { result ≡ is_in marks.now mark }
{
    marks.as_bytes().iter().any(|other| mark == *other)
}

/// How many tokens stand before the first of some marks outside parentheses. `None` where a parenthesis is open at the end.
fn count_before(marks: &str, tokens: &[Token<'_>]) -> Option<usize>
    ensures read { result ≡ form.count_before marks.now 0 (tokens_of tokens.now) }
    ensures within { IfSome result (λ k. k ≤ length tokens.now) }
{
    let mut open_: usize = 0;
    let mut before: usize = 0;
    for token in tokens {
        let mark = character(token);
        if open_ == 0 && is_one_of(marks, mark) {
            return Some(before);
        }
        open_ = open_after(open_, mark);
        before += 1;
    }
    if open_ == 0 { Some(before) } else { None }
}

/// The tokens before the first of some marks outside parentheses, and the others. `None` where a parenthesis is open at the
/// end.
#[tactic(auto, using(crate::proofs::Splitting::counted))]
pub fn split<'t, 'a>(
    marks: &str,
    tokens: &'t [Token<'a>],
) -> Option<(&'t [Token<'a>], &'t [Token<'a>])>
    ensures read { option_map (λ p. (tokens_of p.0.now, tokens_of p.1.now)) result ≡ form.split marks.now 0 (tokens_of tokens.now) }
    ensures fewer { IfSome result (λ p. length p.0.now + length p.1.now ≤ length tokens.now) }
{
    let Some(count) = count_before(marks, tokens) else {
        return None;
    };
    Some(tokens.split_at(count))
}
