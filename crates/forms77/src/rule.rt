// Rules by which parts of statements are read.
ghost use Rattle.std.specs.Prelude.{◌≡◌, ℕ, List, map, Some};
ghost use Rattle.std.specs.Option.{option_map};
ghost use Rattle.expr_tree.specs.Plain.{expr_of};
ghost use Rattle.forms77.specs.Reading as form;
ghost use Rattle.forms77.specs.Reading.{Reader, read};
ghost use Rattle.forms77.specs.Views.{Gives};
ghost use Rattle.forms77.specs.Words.{read_list};
ghost use Rattle.text_base.specs.Trees as tree;
ghost use Rattle.tree77.specs.Forms.{name, label};
ghost use Rattle.tree77.specs.FormWords as words;

use crate::{Feed, Stop};
use expr_tree::Expr;
use sqlite_items::Items;
use std::alloc::Global;
use text_base::Name;

/// A rule by which a part of a statement is read. It is a value of its own, apart from what is read, so that a crate can have
/// rules for the trees of another crate, and several for one tree.
pub trait Rule {
    /// What is read.
    type Made: Drop;

    /// What contracts see of it.
    ghost Plain: { Type 0 };

    ghost plain: { Self.Made → Plain };

    ghost reader: { Self → Reader Plain };

    /// Reads it from what is left. `NotSpelled` where that doesn't begin with it; `Memory` where memory is wanted.
    fn read(&self, alloc: Global, feed: &mut Feed<'_, '_>) -> Result<Self::Made, Stop>
        ensures { Gives plain result feed.new (reader self.now feed.old) };
}

/// An expression.
pub struct OneExpression;

impl Rule for OneExpression {
    type Made = Expr;

    ghost Plain = { tree.Expr };

    ghost plain = { expr_of };

    ghost reader = { λ _. read words.expression };

    fn read(&self, alloc: Global, feed: &mut Feed<'_, '_>) -> Result<Expr, Stop> {
        feed.portion(alloc, false, "),=:")
    }
}

/// A name.
pub struct OneName;

impl Rule for OneName {
    type Made = Name;

    ghost Plain = { List ℕ };

    ghost plain = { λ x. x };

    ghost reader = { λ _. read name };

    fn read(&self, _alloc: Global, feed: &mut Feed<'_, '_>) -> Result<Name, Stop> {
        feed.name()
    }
}

/// A label.
pub struct OneLabel;

impl Rule for OneLabel {
    type Made = u32;

    ghost Plain = { ℕ };

    ghost plain = { λ x. x };

    ghost reader = { λ _. read label };

    fn read(&self, _alloc: Global, feed: &mut Feed<'_, '_>) -> Result<u32, Stop> {
        feed.label()
    }
}

/// Whether a mark stands next, which is taken then.
pub fn flag(feed: &mut Feed<'_, '_>, mark: u8) -> bool
    ensures { read (words.flag mark) feed.old ≡ Some (result, feed.new) }
{
    feed.take(mark)
}

/// A value behind a mark, if that stands here.
pub fn perhaps<R: Rule>(
    alloc: Global,
    feed: &mut Feed<'_, '_>,
    mark: u8,
    rule: &R,
) -> Result<Option<R::Made>, Stop>
    ensures { Gives (option_map R.plain) result feed.new (form.read_perhaps mark (R.reader rule.now) feed.old) }
{
    if !feed.take(mark) {
        return Ok(None);
    }
    Ok(Some(rule.read(alloc, feed)?))
}

/// None, one or more, each of which begins with one of these sorts.
pub fn many<R: Rule>(
    alloc: Global,
    feed: &mut Feed<'_, '_>,
    sorts: &str,
    rule: &R,
) -> Result<Items<R::Made>, Stop>
    ensures { Gives (map R.plain) result feed.new (form.read_all sorts.now (R.reader rule.now) feed.old) }
{
    let turns = feed.len();
    let mut items = Items::new(alloc);
    for _ in 0..turns {
        if !feed.is_at(sorts) {
            return Ok(items);
        }
        items.push(rule.read(alloc, feed)?)?;
    }
    Ok(items)
}

/// One or more, with commas between them.
pub fn list<R: Rule>(
    alloc: Global,
    feed: &mut Feed<'_, '_>,
    rule: &R,
) -> Result<Items<R::Made>, Stop>
    ensures { Gives (map R.plain) result feed.new (read_list (R.reader rule.now) feed.old) }
{
    let mut items = Items::new(alloc);
    items.push(rule.read(alloc, feed)?)?;
    let turns = feed.len();
    for _ in 0..turns {
        if !feed.is_at(",") {
            return Ok(items);
        }
        feed.mark(b',')?;
        items.push(rule.read(alloc, feed)?)?;
    }
    Ok(items)
}

/// What is read in parentheses.
pub fn inside<R: Rule>(alloc: Global, feed: &mut Feed<'_, '_>, rule: &R) -> Result<R::Made, Stop>
    ensures { Gives R.plain result feed.new (form.read_inside (R.reader rule.now) feed.old) }
{
    feed.open()?;
    let made = rule.read(alloc, feed)?;
    feed.close()?;
    Ok(made)
}

/// One or more in parentheses, with commas between them.
pub fn list_inside<R: Rule>(
    alloc: Global,
    feed: &mut Feed<'_, '_>,
    rule: &R,
) -> Result<Items<R::Made>, Stop>
    ensures { Gives (map R.plain) result feed.new (form.read_inside (read_list (R.reader rule.now)) feed.old) }
{
    feed.open()?;
    let items = list(alloc, feed, rule)?;
    feed.close()?;
    Ok(items)
}
