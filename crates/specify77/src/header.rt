// Reads the first statements of program units.
ghost use Rattle.std.specs.Prelude.{◌≡◌, ℕ, List, map, codes, IfOk};
ghost use Rattle.forms77.specs.Reading.{read};
ghost use Rattle.forms77.specs.Views.{Gives};
ghost use Rattle.specify77.specs.Views.{dummy_of};
ghost use Rattle.tree77.specs.ControlForms as form;
ghost use Rattle.tree77.specs.FormWords.{enclosed, grouped};
ghost use Rattle.tree77.specs.StatementPlain.{header_of};

use forms77::{Feed, Rule, Stop, list};
use sqlite_items::Items;
use std::alloc::{AllocError, Global};
use text_base::Name;
use tree77::{Header77, Names77};

/// `PROGRAM name` (X3.9 section 14.1).
///
/// In: what is left of the statement behind its keyword.
///
/// Out: the tree; `feed` then stands behind it and has the lowest refused part so far. `NotSpelled` where what is left doesn't
/// begin with this form.
pub fn program(feed: &mut Feed<'_, '_>) -> Result<Header77, Stop>
    ensures { Gives header_of result feed.new (read form.program feed.old) }
{
    Ok(Header77::Program(feed.name()?))
}

/// A dummy: a name, or none for `*`, which is refused (X3.9 section 15.9.3.5).
struct OneDummy;

impl Rule for OneDummy {
    type Made = Option<Name>;

    ghost Plain = { List (List ℕ) };

    ghost plain = { dummy_of };

    ghost reader = { λ _. read form.dummy };

    fn read(&self, _alloc: Global, feed: &mut Feed<'_, '_>) -> Result<Option<Name>, Stop> {
        if feed.is_at("*") {
            feed.refuse("RETURN");
            feed.mark(b'*')?;
            return Ok(None);
        }
        Ok(Some(feed.name()?))
    }
}

/// Dummies in parentheses, which may be none.
fn enclosed_dummies(alloc: Global, feed: &mut Feed<'_, '_>) -> Result<Items<Option<Name>>, Stop>
    ensures { Gives (map dummy_of) result feed.new (read (enclosed (codes "A*") form.dummy) feed.old) }
{
    feed.open()?;
    let mut dummies = Items::new(alloc);
    if feed.is_at("A*") {
        dummies = list(alloc, feed, &OneDummy)?;
    }
    feed.close()?;
    Ok(dummies)
}

/// The same, or nothing.
fn some_dummies(alloc: Global, feed: &mut Feed<'_, '_>) -> Result<Items<Option<Name>>, Stop>
    ensures { Gives (map dummy_of) result feed.new (read (grouped (codes "A*") form.dummy) feed.old) }
{
    if feed.is_at("(") {
        return enclosed_dummies(alloc, feed);
    }
    Ok(Items::new(alloc))
}

/// The names among dummies, in their order.
fn names_of(alloc: Global, mut dummies: Items<Option<Name>>) -> Result<Names77, AllocError>
    ensures { IfOk result (λ names. names ≡ form.all_names (map dummy_of dummies)) }
{
    let mut names = Vec::new(alloc);
    while let Some(dummy) = dummies.pop() {
        if let Some(name) = dummy {
            names.push(name)?;
        }
    }
    names.reverse();
    Ok(Items::from_vec(names))
}

/// `SUBROUTINE name [([dummy, ..])]` (X3.9 section 15.6.1).
///
/// In: what is left of the statement behind its keyword.
///
/// Out: the tree; `feed` then stands behind it and has the lowest refused part so far. `NotSpelled` where what is left doesn't
/// begin with this form; `Memory` where memory is wanted.
pub fn subroutine(alloc: Global, feed: &mut Feed<'_, '_>) -> Result<Header77, Stop>
    ensures { Gives header_of result feed.new (read form.subroutine feed.old) }
{
    let name = feed.name()?;
    let dummies = some_dummies(alloc, feed)?;
    Ok(Header77::Subroutine(name, names_of(alloc, dummies)?))
}

/// `FUNCTION name ([dummy, ..])` (X3.9 section 15.5.1).
///
/// In: what is left of the statement behind its keyword.
///
/// Out: the tree; `feed` then stands behind it and has the lowest refused part so far. `NotSpelled` where what is left doesn't
/// begin with this form; `Memory` where memory is wanted.
pub fn function(alloc: Global, feed: &mut Feed<'_, '_>) -> Result<Header77, Stop>
    ensures { Gives header_of result feed.new (read form.function feed.old) }
{
    let name = feed.name()?;
    let dummies = enclosed_dummies(alloc, feed)?;
    Ok(Header77::Function(None, name, names_of(alloc, dummies)?))
}

/// `BLOCK DATA [name]` (X3.9 section 16.1).
///
/// In: what is left of the statement behind its keyword.
///
/// Out: the tree; `feed` then stands behind it and has the lowest refused part so far. `NotSpelled` where what is left doesn't
/// begin with this form.
pub fn block_data(feed: &mut Feed<'_, '_>) -> Result<Header77, Stop>
    ensures { Gives header_of result feed.new (read form.block_data feed.old) }
{
    if feed.is_at("A") {
        return Ok(Header77::BlockData(Some(feed.name()?)));
    }
    Ok(Header77::BlockData(None))
}
