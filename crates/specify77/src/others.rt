// Reads PARAMETER, DIMENSION, EQUIVALENCE, EXTERNAL, INTRINSIC and SAVE.
ghost use Rattle.std.specs.Prelude.{◌≡◌, List, map, codes, Some, None, if◌then◌else◌};
ghost use Rattle.expr_tree.specs.Plain.{expr_of};
ghost use Rattle.forms77.specs.Reading.{read};
ghost use Rattle.forms77.specs.Views.{Gives};
ghost use Rattle.specify77.specs.Parts.{shared};
ghost use Rattle.text_base.specs.Trees as tree;
ghost use Rattle.tree77.specs.FormWords as words;
ghost use Rattle.tree77.specs.SpecificationForms as form;
ghost use Rattle.tree77.specs.StatementPlain.{equation_of, saved_of, declared_of};
ghost use Rattle.tree77.specs.Statements as plain;

use crate::declarator::OneArray;
use expr_tree::{Expr, Exprs};
use forms77::{Feed, OneExpression, OneName, Rule, Stop, designator, list, list_inside};
use sqlite_items::Items;
use std::alloc::Global;
use tree77::{Declared77, Equation77, Saved77};

/// `name = e`.
struct OneEquation;

impl Rule for OneEquation {
    type Made = Equation77;

    ghost Plain = { plain.Equation };

    ghost plain = { equation_of };

    ghost reader = { λ _. read form.equation };

    fn read(&self, alloc: Global, feed: &mut Feed<'_, '_>) -> Result<Equation77, Stop> {
        let name = feed.name()?;
        feed.mark(b'=')?;
        let value = OneExpression.read(alloc, feed)?;
        Ok(Equation77 { name, value })
    }
}

/// `PARAMETER (name = e, ..)` (X3.9 section 8.6).
///
/// In: what is left of the statement behind its keyword.
///
/// Out: the tree; `feed` then stands behind it and has the lowest refused part so far. `NotSpelled` where what is left doesn't
/// begin with this form; `Memory` where memory is wanted.
pub fn parameter(alloc: Global, feed: &mut Feed<'_, '_>) -> Result<Declared77, Stop>
    ensures { Gives declared_of result feed.new (read form.parameter feed.old) }
{
    let equations = list_inside(alloc, feed, &OneEquation)?;
    Ok(Declared77::Parameter(equations))
}

/// `DIMENSION name (dimensions), ..` (X3.9 section 8.1).
///
/// In: what is left of the statement behind its keyword.
///
/// Out: the tree; `feed` then stands behind it and has the lowest refused part so far. `NotSpelled` where what is left doesn't
/// begin with this form; `Memory` where memory is wanted.
pub fn dimension(alloc: Global, feed: &mut Feed<'_, '_>) -> Result<Declared77, Stop>
    ensures { Gives declared_of result feed.new (read form.dimension feed.old) }
{
    Ok(Declared77::Dimension(list(alloc, feed, &OneArray)?))
}

/// A variable, an element or a substring.
struct OneDesignator;

impl Rule for OneDesignator {
    type Made = Expr;

    ghost Plain = { tree.Expr };

    ghost plain = { expr_of };

    ghost reader = { λ _. read (words.designator (codes "),=:")) };

    fn read(&self, alloc: Global, feed: &mut Feed<'_, '_>) -> Result<Expr, Stop> {
        designator(alloc, feed, "),=:")
    }
}

/// Whether these are two or more.
fn are_several(exprs: &Exprs) -> bool
    ensures { form.two_or_more (map expr_of exprs.now) ≡ (if result then Some (map expr_of exprs.now) else None) }
{
    match exprs.as_slice() {
        [_, _, ..] => true,
        _ => false,
    }
}

/// Two designators or more in parentheses.
struct OneShare;

impl Rule for OneShare {
    type Made = Exprs;

    ghost Plain = { List tree.Expr };

    ghost plain = { map expr_of };

    ghost reader = { λ _. read shared };

    fn read(&self, alloc: Global, feed: &mut Feed<'_, '_>) -> Result<Exprs, Stop> {
        let designators = list_inside(alloc, feed, &OneDesignator)?;
        if !are_several(&designators) {
            return Err(Stop::NotSpelled);
        }
        Ok(designators)
    }
}

/// `EQUIVALENCE (list), ..` (X3.9 section 8.2).
///
/// In: what is left of the statement behind its keyword.
///
/// Out: the tree; `feed` then stands behind it and has the lowest refused part so far. `NotSpelled` where what is left doesn't
/// begin with this form; `Memory` where memory is wanted.
pub fn equivalence(alloc: Global, feed: &mut Feed<'_, '_>) -> Result<Declared77, Stop>
    ensures { Gives declared_of result feed.new (read form.equivalence feed.old) }
{
    Ok(Declared77::Equivalence(list(alloc, feed, &OneShare)?))
}

/// `EXTERNAL name, ..` (X3.9 section 8.7).
///
/// In: what is left of the statement behind its keyword.
///
/// Out: the tree; `feed` then stands behind it and has the lowest refused part so far. `NotSpelled` where what is left doesn't
/// begin with this form; `Memory` where memory is wanted.
pub fn external(alloc: Global, feed: &mut Feed<'_, '_>) -> Result<Declared77, Stop>
    ensures { Gives declared_of result feed.new (read form.external feed.old) }
{
    Ok(Declared77::External(list(alloc, feed, &OneName)?))
}

/// `INTRINSIC name, ..` (X3.9 section 8.8).
///
/// In: what is left of the statement behind its keyword.
///
/// Out: the tree; `feed` then stands behind it and has the lowest refused part so far. `NotSpelled` where what is left doesn't
/// begin with this form; `Memory` where memory is wanted.
pub fn intrinsic(alloc: Global, feed: &mut Feed<'_, '_>) -> Result<Declared77, Stop>
    ensures { Gives declared_of result feed.new (read form.intrinsic feed.old) }
{
    Ok(Declared77::Intrinsic(list(alloc, feed, &OneName)?))
}

/// A name, or a block between slashes.
struct OneSaved;

impl Rule for OneSaved {
    type Made = Saved77;

    ghost Plain = { plain.Saved };

    ghost plain = { saved_of };

    ghost reader = { λ _. read form.saved };

    fn read(&self, _alloc: Global, feed: &mut Feed<'_, '_>) -> Result<Saved77, Stop> {
        if feed.is_at("/") {
            feed.mark(b'/')?;
            let block = feed.name()?;
            feed.mark(b'/')?;
            return Ok(Saved77::Block(block));
        }
        Ok(Saved77::Name(feed.name()?))
    }
}

/// `SAVE [list]` (X3.9 section 8.9).
///
/// In: what is left of the statement behind its keyword.
///
/// Out: the tree; `feed` then stands behind it and has the lowest refused part so far. `NotSpelled` where what is left doesn't
/// begin with this form; `Memory` where memory is wanted.
pub fn save(alloc: Global, feed: &mut Feed<'_, '_>) -> Result<Declared77, Stop>
    ensures { Gives declared_of result feed.new (read form.save feed.old) }
{
    if feed.is_at("/A") {
        return Ok(Declared77::Save(list(alloc, feed, &OneSaved)?));
    }
    Ok(Declared77::Save(Items::new(alloc)))
}
