// A symbolic name.
ghost use Rattle.std.specs.Prelude.{◌≡◌, IsTrue};
ghost use Rattle.text_base.specs.Chars.{is_name};

use crate::chars::{are_name_bytes, is_upper};
use crate::limits::LONGEST_NAME;
use arrayvec::ArrayVec;
use std::marker::Model;

/// A symbolic name (X3.9 section 2.2, lengthened to 31 characters): 1 to 31 upper-case letters,
/// digits and underscores, of which the first is a letter. It holds them in place. Contracts see its characters.
#[derive(Debug, Drop)]
pub struct Name {
    characters: ArrayVec<u8, LONGEST_NAME>,
}

impl Model for Name {
    ghost use Rattle.std.specs.Prelude.{List, ℕ, IsTrue};
    ghost use Rattle.text_base.specs.Chars.{is_name};

    ghost Value = { List ℕ };

    ghost view = { λ name. name.characters.items };

    ghost invariant = { λ name. IsTrue (is_name name.characters.items) };
}

impl Name {
    /// Whether the characters are a name.
    pub fn is_name(characters: &[u8]) -> bool
        ensures { result ≡ is_name characters.now }
    {
        match characters {
            [] => false,
            [first, ..] => {
                is_upper(*first) && are_name_bytes(characters) && characters.len() <= LONGEST_NAME
            }
        }
    }

    /// The name of these characters, which must be one. It takes no memory.
    pub fn new(characters: &[u8]) -> Name
        requires { IsTrue (is_name characters.now) }
        ensures { result ≡ characters.now }
    {
        let mut held = ArrayVec::new();
        held.try_extend_from_slice(characters).unwrap();
        Name { characters: held }
    }

    /// A copy. It takes no memory.
    pub fn copy(&self) -> Name
        ensures { result ≡ self.now }
    {
        Name::new(self.as_slice())
    }

    /// Lends the characters.
    pub fn as_slice(&self) -> &[u8]
        ensures characters { result.now ≡ self.now }
        ensures is_name { IsTrue (is_name result.now) }
    {
        self.characters.as_slice()
    }
}
