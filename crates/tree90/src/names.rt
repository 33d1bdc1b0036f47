// Names that are taken, and names that are made so that they are none of them (ISO/IEC 1539:1991 section 3.2.1).
ghost use Rattle.std.specs.Prelude.{◌≡◌, ℕ, ◌<◌, ◌≤◌, false, [], ◌∷◌, ◌++◌, List, length, take, IsTrue, IsErr, IfOk, OnOk, OnErr};
ghost use Rattle.text_base.specs.Chars.{is_name};
ghost use Rattle.tree90.specs.MadeNames.{is_taken, with_taken, is_base, tried, IsFresh};

use arrayvec::ArrayVec;
use indexmap::IndexSet;
use itoa::Buffer;
use std::alloc::{AllocError, Global};
use std::marker::Model;
use text_base::Name;
use text_base::limits::LONGEST_NAME;

/// The most names that can be taken. Their numbers have at most nine digits.
pub const MOST_NAMES: usize = 999_999_999;

/// The most characters of a base that stand before a number: an underscore and nine digits still fit behind them.
pub const LONGEST_STEM: usize = 21;

/// The names that are taken, each once, in the order in which they were taken first. There is room for 999999999.
/// Contracts see the list of their characters.
#[derive(Drop)]
pub struct Names {
    taken: IndexSet<ArrayVec<u8, LONGEST_NAME>>,
}

impl Model for Names {
    ghost use Rattle.std.specs.Prelude.{ℕ, ◌≤◌, List, length, map};
    ghost use Rattle.arrayvec.specs.ArrayVec.{ArrayVec as Held};
    ghost use Rattle.tree90.specs.declared.names.TheConstants.{MOST_NAMES};

    ghost Value = { List (List ℕ) };

    ghost view = { λ names. map (λ (held : Held ℕ). held.items) names.taken.keys };

    ghost invariant = { λ names. length names.taken.keys ≤ MOST_NAMES };
}

impl Names {
    /// No names. It takes no memory yet.
    pub fn new(alloc: Global) -> Names
        ensures { result ≡ [] }
    {
        Names {
            taken: IndexSet::new(alloc),
        }
    }

    /// How many names are taken: at most 999999999.
    pub fn count(&self) -> usize
        ensures count { result ≡ length self.now }
        ensures within { result ≤ MOST_NAMES }
    {
        self.taken.len()
    }

    /// Keeps the first names, as many as said, in the order in which they were taken. At least so many must be taken.
    pub fn cut(&mut self, count: usize)
        requires { count ≤ length self.old }
        ensures { self.new ≡ take count self.old }
    {
        self.taken.truncate(count);
    }

    /// Takes a name: it is the last one where it wasn't taken, and nothing changes where it was. It fails for want of
    /// memory alone, of which 999999999 names leave none, and then nothing has changed; a name that was taken needs none.
    pub fn take(&mut self, name: &Name) -> Result<(), AllocError>
        ensures taken { OnOk result (self.new ≡ with_taken self.old name.now) }
        ensures unchanged { OnErr result (self.new ≡ self.old) }
        ensures was_free { OnErr result (is_taken self.old name.now ≡ false) }
        ensures room { length self.old ≡ MOST_NAMES → is_taken self.old name.now ≡ false → IsErr result }
    {
        let characters = held(name.as_slice());
        if self.has(&characters) {
            return Ok(());
        }
        self.add(characters)
    }

    /// Makes a name from a base, and takes it as the last one. The base begins with a letter and has only upper-case
    /// letters, digits and underscores, any number of them. The name is the base cut to 31 characters where that isn't
    /// taken; else it is the first 21 characters of the base with `_1`, `_2` and so on, the first that isn't taken.
    /// It fails for want of memory alone, of which 999999999 names leave none, and then nothing has changed.
    pub fn fresh(&mut self, base: &[u8]) -> Result<Name, AllocError>
        requires { IsTrue (is_base base.now) }
        ensures made { IfOk result (λ name. IsFresh self.old base.now name) }
        ensures taken { IfOk result (λ name. self.new ≡ self.old ++ name ∷ []) }
        ensures unchanged { OnErr result (self.new ≡ self.old) }
        ensures room { length self.old ≡ MOST_NAMES → IsErr result }
    {
        if self.count() == MOST_NAMES {
            return Err(AllocError);
        }
        let characters = self.first_free(base);
        let name = Name::new(characters.as_slice());
        self.add(characters)?;
        Ok(name)
    }

    // Whether a name is taken.
    fn has(&self, characters: &ArrayVec<u8, LONGEST_NAME>) -> bool
        ensures { result ≡ is_taken self.now characters.now.items }
    {
        self.taken.contains(characters)
    }

    // The first that is tried for a base and isn't taken. It takes no memory.
    fn first_free(&self, base: &[u8]) -> ArrayVec<u8, LONGEST_NAME>
        requires { length self.now < MOST_NAMES }
        ensures { IsFresh self.now base.now result.items }
    {
        let mut number = 0;
        let mut characters = tried(base, 0);
        while self.has(&characters) {
            number += 1;
            characters = tried(base, number);
        }
        characters
    }

    // Adds a name that isn't taken as the last one, where there is room.
    fn add(&mut self, characters: ArrayVec<u8, LONGEST_NAME>) -> Result<(), AllocError>
        requires { is_taken self.old characters.items ≡ false }
        ensures added { OnOk result (self.new ≡ self.old ++ characters.items ∷ []) }
        ensures unchanged { OnErr result (self.new ≡ self.old) }
        ensures room { length self.old ≡ MOST_NAMES → IsErr result }
    {
        if self.taken.len() == MOST_NAMES {
            return Err(AllocError);
        }
        self.taken.insert(characters)?;
        Ok(())
    }
}

// What is tried as a name for a base, by its number.
#[tactic(auto, using(crate::proofs::MadeNameLemmas::decimal_is_short))]
fn tried(base: &[u8], number: usize) -> ArrayVec<u8, LONGEST_NAME>
    requires { number ≤ MOST_NAMES }
    ensures { result.items ≡ tried base.now number }
{
    if number == 0 {
        return held(first_of(base, LONGEST_NAME));
    }
    let mut characters = held(first_of(base, LONGEST_STEM));
    characters.push(b'_');
    characters
        .try_extend_from_slice(Buffer::new().format(number).as_bytes())
        .unwrap();
    characters
}

// At most so many characters of a text, the first ones.
fn first_of(text: &[u8], count: usize) -> &[u8]
    ensures first { result.now ≡ take count text.now }
    ensures at_most { length result.now ≤ count }
{
    if text.len() <= count {
        text
    } else {
        &text[..count]
    }
}

// A copy of characters that are no more than those of a name.
fn held(characters: &[u8]) -> ArrayVec<u8, LONGEST_NAME>
    requires { length characters.now ≤ LONGEST_NAME }
    ensures { result.items ≡ characters.now }
{
    let mut held = ArrayVec::new();
    held.try_extend_from_slice(characters).unwrap();
    held
}

/// At most one name is fresh.
pub fn one_fresh_name()
    ensures { (taken : List (List ℕ)) (base x y : List ℕ) → IsFresh taken base x → IsFresh taken base y → x ≡ y }
{}

/// While fewer than 999999999 names are taken, each base has a fresh name, of at most 31 characters.
pub fn a_fresh_name()
    ensures { (taken : List (List ℕ)) (base : List ℕ) → IsTrue (is_base base) → length taken < MOST_NAMES → (name : List ℕ) × IsFresh taken base name × IsTrue (is_name name) }
{}
