// Reads the declarations of types (X3.9 section 8.4).
ghost use Rattle.std.specs.Prelude.{◌≡◌, map};
ghost use Rattle.forms77.specs.Reading.{read};
ghost use Rattle.forms77.specs.Views.{Gives};
ghost use Rattle.tree77.specs.SpecificationForms as form;
ghost use Rattle.tree77.specs.StatementPlain.{length_of, declarator_of, declared_of};
ghost use Rattle.tree77.specs.Statements as plain;

use crate::declarator::{OneDeclarator, some_dimensions};
use crate::length::{OwnLength, RefusedLength, TypeLength};
use forms77::{Feed, Rule, Stop, list, perhaps};
use std::alloc::Global;
use tree77::{Declarator77, Declarators77, Declared77, Length77, Type77};

/// A length behind which a comma may stand, and which is refused.
struct NoLength;

impl Rule for NoLength {
    type Made = Length77;

    ghost Plain = { plain.Length };

    ghost plain = { length_of };

    ghost reader = { λ _. read (form.separated form.refused_length) };

    fn read(&self, alloc: Global, feed: &mut Feed<'_, '_>) -> Result<Length77, Stop> {
        let length = RefusedLength.read(alloc, feed)?;
        feed.take(b',');
        Ok(length)
    }
}

/// A length behind which a comma may stand.
struct SeparatedLength;

impl Rule for SeparatedLength {
    type Made = Length77;

    ghost Plain = { plain.Length };

    ghost plain = { length_of };

    ghost reader = { λ _. read (form.separated form.type_length) };

    fn read(&self, alloc: Global, feed: &mut Feed<'_, '_>) -> Result<Length77, Stop> {
        let length = TypeLength.read(alloc, feed)?;
        feed.take(b',');
        Ok(length)
    }
}

/// The names of a type that has no length; one that stands there is refused.
fn names_of_type(alloc: Global, feed: &mut Feed<'_, '_>) -> Result<Declarators77, Stop>
    ensures { Gives (map declarator_of) result feed.new (read form.names_of_type feed.old) }
{
    perhaps(alloc, feed, b'*', &NoLength)?;
    list(alloc, feed, &OneDeclarator)
}

/// INTEGER: `[*length [,]] name [(dimensions)], ..`, of which a length is refused with LENGTH (X3.9 section 8.4.1).
///
/// In: what is left of the statement behind its keyword.
///
/// Out: the tree; `feed` then stands behind it and has the lowest refused part so far. `NotSpelled` where what is left doesn't
/// begin with this form; `Memory` where memory is wanted.
pub fn integers(alloc: Global, feed: &mut Feed<'_, '_>) -> Result<Declared77, Stop>
    ensures { Gives declared_of result feed.new (read form.integers feed.old) }
{
    let names = names_of_type(alloc, feed)?;
    Ok(Declared77::Typed(Type77::Integer, names))
}

/// LOGICAL: `[*length [,]] name [(dimensions)], ..`, of which a length is refused with LENGTH (X3.9 section 8.4.1).
///
/// In: what is left of the statement behind its keyword.
///
/// Out: the tree; `feed` then stands behind it and has the lowest refused part so far. `NotSpelled` where what is left doesn't
/// begin with this form; `Memory` where memory is wanted.
pub fn logicals(alloc: Global, feed: &mut Feed<'_, '_>) -> Result<Declared77, Stop>
    ensures { Gives declared_of result feed.new (read form.logicals feed.old) }
{
    let names = names_of_type(alloc, feed)?;
    Ok(Declared77::Typed(Type77::Logical, names))
}

/// `name [(dimensions)] [*length]`.
struct OneCharacter;

impl Rule for OneCharacter {
    type Made = Declarator77;

    ghost Plain = { plain.Declarator };

    ghost plain = { declarator_of };

    ghost reader = { λ _. read form.character_declarator };

    fn read(&self, alloc: Global, feed: &mut Feed<'_, '_>) -> Result<Declarator77, Stop> {
        let name = feed.name()?;
        let dimensions = some_dimensions(alloc, feed)?;
        let length = perhaps(alloc, feed, b'*', &OwnLength)?;
        Ok(Declarator77 {
            name,
            dimensions,
            length,
        })
    }
}

/// CHARACTER: `[*length [,]] name [(dimensions)] [*length], ..` (X3.9 section 8.4.2).
///
/// In: what is left of the statement behind its keyword.
///
/// Out: the tree; `feed` then stands behind it and has the lowest refused part so far. `NotSpelled` where what is left doesn't
/// begin with this form; `Memory` where memory is wanted.
pub fn characters(alloc: Global, feed: &mut Feed<'_, '_>) -> Result<Declared77, Stop>
    ensures { Gives declared_of result feed.new (read form.characters feed.old) }
{
    let length = perhaps(alloc, feed, b'*', &SeparatedLength)?;
    let names = list(alloc, feed, &OneCharacter)?;
    Ok(Declared77::Typed(Type77::Character(length), names))
}
