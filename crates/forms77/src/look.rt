// A look at what is left.
ghost use Rattle.std.specs.Prelude.{◌≡◌};
ghost use Rattle.tree77.specs.Forms.{is_in};
ghost use Rattle.forms77.specs.Reading as form;
ghost use Rattle.forms77.specs.Look.{look_of};
ghost use Rattle.scan77.specs.Token.{tokens_of};

use crate::tokens::{behind_partner, behind_token, has_equals, is_one_of, next_sort, next_text};
use scan77::Token;

/// A look at what is left, by which two forms are told. Sorts are `A` for letters, `0` for digits, `'` for kept text, NUL for
/// the end, and marks.
#[derive(Clone, Copy)]
pub enum Look<'w> {
    /// One of these sorts stands next.
    One(&'w str),
    /// This sort stands next, and one of these behind one token.
    Two(u8, &'w str),
    /// These three sorts stand next.
    Three(u8, u8, u8),
    /// This run stands next, and one of these sorts behind it.
    Text(&'w str, &'w str),
    /// A parenthesis stands next, and one of these sorts behind its partner.
    Group(&'w str),
    /// Parentheses stand next, and an equals sign in them and in no inner ones.
    Equated,
}

/// Whether what is looked for stands next.
pub fn is_ahead(look: Look<'_>, tokens: &[Token<'_>]) -> bool
    ensures { result ≡ form.is_ahead (look_of look.entry) (tokens_of tokens.now) }
{
    match look {
        Look::One(sorts) => is_one_of(sorts, next_sort(tokens)),
        Look::Two(first, sorts) => {
            next_sort(tokens) == first && is_one_of(sorts, next_sort(behind_token(tokens)))
        }
        Look::Three(first, second, third) => {
            let behind = behind_token(tokens);
            next_sort(tokens) == first
                && next_sort(behind) == second
                && next_sort(behind_token(behind)) == third
        }
        Look::Text(word, sorts) => {
            next_text(tokens) == word.as_bytes()
                && is_one_of(sorts, next_sort(behind_token(tokens)))
        }
        Look::Group(sorts) => {
            next_sort(tokens) == b'(' && is_one_of(sorts, next_sort(behind_partner(tokens)))
        }
        Look::Equated => next_sort(tokens) == b'(' && has_equals(tokens),
    }
}
