// Reads IMPLICIT (X3.9 section 8.5).
ghost use Rattle.std.specs.Prelude.{◌≡◌, ℕ};
ghost use Rattle.std.specs.Option.{option_map};
ghost use Rattle.forms77.specs.Reading.{read};
ghost use Rattle.forms77.specs.Views.{Gives};
ghost use Rattle.specify77.specs.Parts.{other_types, one_implicit};
ghost use Rattle.tree77.specs.SpecificationForms as form;
ghost use Rattle.tree77.specs.StatementPlain.{type_of, letters_of, implicit_of, declared_of};
ghost use Rattle.tree77.specs.Statements as plain;

use crate::length::{RefusedLength, TypeLength};
use forms77::{Feed, Look, Rule, Stop, list, list_inside, perhaps};
use std::alloc::Global;
use text_base::Name;
use tree77::{Declared77, Implicit77, Letters77, Type77};

/// The letter that a name is, if it is one.
fn letter_of(name: &Name) -> Option<u8>
    ensures { result ≡ form.letter_of name.now }
{
    match name.as_slice() {
        [letter] => Some(*letter),
        _ => None,
    }
}

/// A letter.
struct OneLetter;

impl Rule for OneLetter {
    type Made = u8;

    ghost Plain = { ℕ };

    ghost plain = { λ x. x };

    ghost reader = { λ _. read form.letter };

    fn read(&self, _alloc: Global, feed: &mut Feed<'_, '_>) -> Result<u8, Stop> {
        let name = feed.name()?;
        match letter_of(&name) {
            Some(letter) => Ok(letter),
            None => Err(Stop::NotSpelled),
        }
    }
}

/// The letters from one to another, or one alone. `None` where they aren't in alphabetical order.
fn letters_from(from: u8, to: Option<u8>) -> Option<Letters77>
    ensures { option_map letters_of result ≡ form.letters_of from to }
{
    match to {
        None => Some(Letters77 { from, to: from }),
        Some(to) => {
            if from <= to {
                Some(Letters77 { from, to })
            } else {
                None
            }
        }
    }
}

/// `a`, `a-b`, in alphabetical order.
struct SomeLetters;

impl Rule for SomeLetters {
    type Made = Letters77;

    ghost Plain = { plain.Letters };

    ghost plain = { letters_of };

    ghost reader = { λ _. read form.letters };

    fn read(&self, alloc: Global, feed: &mut Feed<'_, '_>) -> Result<Letters77, Stop> {
        let from = OneLetter.read(alloc, feed)?;
        let to = perhaps(alloc, feed, b'-', &OneLetter)?;
        match letters_from(from, to) {
            Some(letters) => Ok(letters),
            None => Err(Stop::NotSpelled),
        }
    }
}

/// A type that is refused, for which INTEGER stands.
fn refused_type(alloc: Global, feed: &mut Feed<'_, '_>, word: &'static str) -> Result<Type77, Stop>
    ensures { Gives type_of result feed.new (read (form.refused_type word.now) feed.old) }
{
    feed.refuse(word);
    feed.word(word)?;
    perhaps(alloc, feed, b'*', &TypeLength)?;
    Ok(Type77::Integer)
}

/// The other types, which are refused.
fn other_type(alloc: Global, feed: &mut Feed<'_, '_>) -> Result<Type77, Stop>
    ensures { Gives type_of result feed.new (read other_types feed.old) }
{
    if feed.is_ahead(Look::Text("REAL", "\0(*")) {
        return refused_type(alloc, feed, "REAL");
    }
    if feed.is_ahead(Look::Text("DOUBLEPRECISION", "\0(*")) {
        return refused_type(alloc, feed, "DOUBLEPRECISION");
    }
    refused_type(alloc, feed, "COMPLEX")
}

/// A type, with the length of characters where it is written.
fn implicit_type(alloc: Global, feed: &mut Feed<'_, '_>) -> Result<Type77, Stop>
    ensures { Gives type_of result feed.new (read form.implicit_type feed.old) }
{
    if feed.is_ahead(Look::Text("INTEGER", "\0(*")) {
        feed.word("INTEGER")?;
        perhaps(alloc, feed, b'*', &RefusedLength)?;
        return Ok(Type77::Integer);
    }
    if feed.is_ahead(Look::Text("LOGICAL", "\0(*")) {
        feed.word("LOGICAL")?;
        perhaps(alloc, feed, b'*', &RefusedLength)?;
        return Ok(Type77::Logical);
    }
    if feed.is_ahead(Look::Text("CHARACTER", "\0(*")) {
        feed.word("CHARACTER")?;
        let length = perhaps(alloc, feed, b'*', &TypeLength)?;
        return Ok(Type77::Character(length));
    }
    other_type(alloc, feed)
}

/// `type (letters, ..)`.
struct OneImplicit;

impl Rule for OneImplicit {
    type Made = Implicit77;

    ghost Plain = { plain.Implicit };

    ghost plain = { implicit_of };

    ghost reader = { λ _. read one_implicit };

    fn read(&self, alloc: Global, feed: &mut Feed<'_, '_>) -> Result<Implicit77, Stop> {
        let of = implicit_type(alloc, feed)?;
        let letters = list_inside(alloc, feed, &SomeLetters)?;
        Ok(Implicit77 { of, letters })
    }
}

/// `IMPLICIT type (letters, ..), ..` (X3.9 section 8.5).
///
/// In: what is left of the statement behind its keyword.
///
/// Out: the tree; `feed` then stands behind it and has the lowest refused part so far. `NotSpelled` where what is left doesn't
/// begin with this form; `Memory` where memory is wanted.
pub fn implicit(alloc: Global, feed: &mut Feed<'_, '_>) -> Result<Declared77, Stop>
    ensures { Gives declared_of result feed.new (read form.implicit feed.old) }
{
    Ok(Declared77::Implicit(list(alloc, feed, &OneImplicit)?))
}
