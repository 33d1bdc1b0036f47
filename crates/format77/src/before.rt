// What may stand behind a lexeme.
ghost use Rattle.std.specs.Prelude.{◌≡◌};
ghost use Rattle.text_base.specs.Formats.{begins_item, ends_item, is_free_before, is_free_behind};
ghost use Rattle.format77.specs.Views.{lexeme_of};
ghost use Rattle.format77.specs.State.{may_by};

use crate::lexeme::Lexeme;

/// What a lexeme says of the next: whether an item ends with it, and whether a comma behind it may be left out (X3.9 section
/// 13.2).
#[derive(Clone, Copy, Debug)]
pub struct Before {
    pub ends_item: bool,
    pub is_free: bool,
}

/// An item begins with it.
fn begins_item(lexeme: &Lexeme) -> bool
    ensures { result ≡ begins_item (lexeme_of lexeme.now) }
{
    match lexeme {
        Lexeme::Closing | Lexeme::Comma => false,
        _ => true,
    }
}

/// A comma before it may be left out.
fn is_free_before(lexeme: &Lexeme) -> bool
    ensures { result ≡ is_free_before (lexeme_of lexeme.now) }
{
    match lexeme {
        Lexeme::Slash | Lexeme::Colon => true,
        _ => false,
    }
}

/// An item ends with it.
fn ends_item(lexeme: &Lexeme) -> bool
    ensures { result ≡ ends_item (lexeme_of lexeme.now) }
{
    match lexeme {
        Lexeme::Opening(_) | Lexeme::Comma => false,
        _ => true,
    }
}

/// A comma behind it may be left out.
fn is_free_behind(lexeme: &Lexeme) -> bool
    ensures { result ≡ is_free_behind (lexeme_of lexeme.now) }
{
    match lexeme {
        Lexeme::Slash | Lexeme::Colon | Lexeme::Scale => true,
        _ => false,
    }
}

impl Before {
    /// Behind this lexeme.
    pub fn of(lexeme: &Lexeme) -> Before
        ensures ends { result.ends_item ≡ ends_item (lexeme_of lexeme.now) }
        ensures free { result.is_free ≡ is_free_behind (lexeme_of lexeme.now) }
    {
        Before {
            ends_item: ends_item(lexeme),
            is_free: is_free_behind(lexeme),
        }
    }

    /// Whether this lexeme may stand next.
    pub fn may_precede(self, lexeme: &Lexeme) -> bool
        ensures { result ≡ may_by self.ends_item self.is_free (lexeme_of lexeme.now) }
    {
        if self.ends_item {
            !begins_item(lexeme) || self.is_free || is_free_before(lexeme)
        } else {
            begins_item(lexeme)
        }
    }
}
