// Names of any length.
ghost use Rattle.std.specs.Prelude.{◌≡◌, IsTrue, Some, None, take, if◌then◌else◌};
ghost use Rattle.text_base.specs.declared.limits.TheConstants.{LONGEST_NAME};
ghost use Rattle.tree77.specs.Kinds as kinds;

use crate::part::first;
use std::marker::Model;
use text_base::Name;
use text_base::chars::{are_name_bytes, is_upper};
use text_base::limits::LONGEST_NAME;

/// A name of any length: letters, digits and underscores, of which the first is a letter. Contracts see its characters.
#[derive(Drop)]
pub struct LongName<'a> {
    text: &'a [u8],
}

impl<'a> Model for LongName<'a> {
    ghost use Rattle.std.specs.Prelude.{List, ℕ, IsTrue};
    ghost use Rattle.tree77.specs.Kinds.{is_word};

    ghost Value = { List ℕ };

    ghost view = { λ word. word.text.now };

    ghost invariant = { λ word. IsTrue (is_word word.text.now) };
}

/// Whether characters are a name of any length.
pub fn is_word(text: &[u8]) -> bool
    ensures { result ≡ kinds.is_word text.now }
{
    match text {
        [] => false,
        [first, rest @ ..] => is_upper(*first) && are_name_bytes(rest),
    }
}

/// The name that stands for one of any length: its first characters, as many as a name may have.
#[tactic(auto, using(crate::proofs::LongNames::first_is_name))]
pub fn name_of(word: &[u8]) -> Name
    requires { IsTrue (kinds.is_word word.now) }
    ensures { result ≡ take LONGEST_NAME word.now }
{
    Name::new(first(word, LONGEST_NAME))
}

impl<'a> LongName<'a> {
    /// The name of any length that the characters are, if they are one.
    pub fn new(text: &'a [u8]) -> Option<LongName<'a>>
        ensures { result ≡ (if kinds.is_word text.now then Some text.now else None) }
    {
        if is_word(text) {
            Some(LongName { text })
        } else {
            None
        }
    }

    /// Lends the characters.
    pub fn as_slice(&self) -> &'a [u8]
        ensures characters { result.now ≡ self.now }
        ensures word { IsTrue (kinds.is_word self.now) }
    {
        self.text
    }
}
