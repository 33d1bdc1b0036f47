// Reads names with dimensions (X3.9 section 5.1).
ghost use Rattle.std.specs.Prelude.{◌≡◌, map, Option};
ghost use Rattle.std.specs.Option.{option_map};
ghost use Rattle.expr_tree.specs.Plain.{expr_of};
ghost use Rattle.forms77.specs.Reading.{read};
ghost use Rattle.forms77.specs.Views.{Gives};
ghost use Rattle.specify77.specs.Parts.{dimension_behind};
ghost use Rattle.text_base.specs.Trees as tree;
ghost use Rattle.tree77.specs.SpecificationForms as form;
ghost use Rattle.tree77.specs.StatementPlain.{dimension_of, declarator_of};
ghost use Rattle.tree77.specs.Statements as plain;

use expr_tree::Expr;
use forms77::{Feed, OneExpression, Rule, Stop, list_inside, perhaps};
use sqlite_items::Items;
use std::alloc::Global;
use tree77::{Declarator77, Dimension77, Dimensions77};

/// An upper bound: an expression, or none for `*`.
struct UpperBound;

impl Rule for UpperBound {
    type Made = Option<Expr>;

    ghost Plain = { Option tree.Expr };

    ghost plain = { option_map expr_of };

    ghost reader = { λ _. read form.upper_bound };

    fn read(&self, alloc: Global, feed: &mut Feed<'_, '_>) -> Result<Option<Expr>, Stop> {
        if feed.is_at("*") {
            feed.mark(b'*')?;
            return Ok(None);
        }
        Ok(Some(OneExpression.read(alloc, feed)?))
    }
}

/// What stands behind the first expression of a dimension: a colon and an upper bound, or nothing.
fn dimension_from(alloc: Global, feed: &mut Feed<'_, '_>, first: Expr) -> Result<Dimension77, Stop>
    ensures { Gives dimension_of result feed.new (dimension_behind (expr_of first) feed.old) }
{
    let upper = perhaps(alloc, feed, b':', &UpperBound)?;
    Ok(match upper {
        None => Dimension77 {
            lower: None,
            upper: Some(first),
        },
        Some(upper) => Dimension77 {
            lower: Some(first),
            upper,
        },
    })
}

/// `e`, `e : e`, `e : *`, `*`.
struct OneDimension;

impl Rule for OneDimension {
    type Made = Dimension77;

    ghost Plain = { plain.Dimension };

    ghost plain = { dimension_of };

    ghost reader = { λ _. read form.one_dimension };

    fn read(&self, alloc: Global, feed: &mut Feed<'_, '_>) -> Result<Dimension77, Stop> {
        if feed.is_at("*") {
            feed.mark(b'*')?;
            return Ok(Dimension77 {
                lower: None,
                upper: None,
            });
        }
        let first = OneExpression.read(alloc, feed)?;
        dimension_from(alloc, feed, first)
    }
}

/// Dimensions in parentheses, seven at most (X3.9 section 5.1).
///
/// In: what is left of the statement behind a name.
///
/// Out: the tree; `feed` then stands behind it and has the lowest refused part so far. `NotSpelled` where what is left doesn't
/// begin with this form; `Memory` where memory is wanted.
pub fn dimensions(alloc: Global, feed: &mut Feed<'_, '_>) -> Result<Dimensions77, Stop>
    ensures { Gives (map dimension_of) result feed.new (read form.dimensions feed.old) }
{
    let dimensions = list_inside(alloc, feed, &OneDimension)?;
    if dimensions.len() > 7 {
        return Err(Stop::NotSpelled);
    }
    Ok(dimensions)
}

/// Dimensions in parentheses, seven at most, or none (X3.9 section 5.1).
///
/// In: what is left of the statement behind a name.
///
/// Out: the tree; `feed` then stands behind it and has the lowest refused part so far. `NotSpelled` where what is left doesn't
/// begin with this form; `Memory` where memory is wanted.
pub fn some_dimensions(alloc: Global, feed: &mut Feed<'_, '_>) -> Result<Dimensions77, Stop>
    ensures { Gives (map dimension_of) result feed.new (read form.some_dimensions feed.old) }
{
    if feed.is_at("(") {
        return dimensions(alloc, feed);
    }
    Ok(Items::new(alloc))
}

/// `name [(dimensions)]`.
pub struct OneDeclarator;

impl Rule for OneDeclarator {
    type Made = Declarator77;

    ghost Plain = { plain.Declarator };

    ghost plain = { declarator_of };

    ghost reader = { λ _. read form.declarator };

    fn read(&self, alloc: Global, feed: &mut Feed<'_, '_>) -> Result<Declarator77, Stop> {
        let name = feed.name()?;
        let dimensions = some_dimensions(alloc, feed)?;
        Ok(Declarator77 {
            name,
            dimensions,
            length: None,
        })
    }
}

/// `name (dimensions)` (X3.9 section 8.1).
pub struct OneArray;

impl Rule for OneArray {
    type Made = Declarator77;

    ghost Plain = { plain.Declarator };

    ghost plain = { declarator_of };

    ghost reader = { λ _. read form.array_declarator };

    fn read(&self, alloc: Global, feed: &mut Feed<'_, '_>) -> Result<Declarator77, Stop> {
        let name = feed.name()?;
        let dimensions = dimensions(alloc, feed)?;
        Ok(Declarator77 {
            name,
            dimensions,
            length: None,
        })
    }
}
