// Reads lists of input, output and DATA, in which implied DO lists stand.
ghost use Rattle.std.specs.Prelude.{◌≡◌, ◌∷◌, [], map};
ghost use Rattle.expr_tree.specs.Plain.{expr_of};
ghost use Rattle.text_base.specs.Trees as tree;
ghost use Rattle.tree77.specs.ControlForms as control;
ghost use Rattle.tree77.specs.FormWords.{made, listed};
ghost use Rattle.tree77.specs.ListForms as form;
ghost use Rattle.tree77.specs.StatementPlain.{listed_of, range_of};
ghost use Rattle.tree77.specs.Statements as plain;
ghost use Rattle.forms77.specs.Leaf.{leaf_form, last_range, behind_items};
ghost use Rattle.forms77.specs.Reading.{read};
ghost use Rattle.forms77.specs.Views.{Gives};

use crate::rule::{OneExpression, Rule, list, perhaps};
use crate::shape::{designator, element};
use crate::{Feed, Look, Stop};
use expr_tree::Expr;
use sqlite_items::{Boxed, Items};
use std::alloc::Global;
use tree77::{Listed77, Listeds77, Range77};

/// What an item is, where it is no implied DO list.
#[derive(Clone, Copy)]
pub enum Leaf {
    /// An item of output: an expression.
    Output,
    /// An item of input: a variable, an element or a substring.
    Input,
    /// An item of an implied DO list of DATA: an element.
    Element,
}

/// Takes `name = e, e [, e]`, the values of a DO variable (X3.9 section 11.10).
pub fn range(alloc: Global, feed: &mut Feed<'_, '_>) -> Result<Range77, Stop>
    ensures { Gives range_of result feed.new (read control.range feed.old) }
{
    let variable = feed.name()?;
    feed.mark(b'=')?;
    let from = OneExpression.read(alloc, feed)?;
    feed.mark(b',')?;
    let to = OneExpression.read(alloc, feed)?;
    let by = perhaps(alloc, feed, b',', &OneExpression)?;
    Ok(Range77 {
        variable,
        from,
        to,
        by,
    })
}

/// Takes what an item is that is no implied DO list.
fn lone_expr(alloc: Global, feed: &mut Feed<'_, '_>, leaf: Leaf) -> Result<Expr, Stop>
    ensures { Gives expr_of result feed.new (read (leaf_form leaf) feed.old) }
{
    match leaf {
        Leaf::Output => OneExpression.read(alloc, feed),
        Leaf::Input => designator(alloc, feed, "),=:"),
        Leaf::Element => element(alloc, feed, "),=:"),
    }
}

/// Takes an item that is no implied DO list.
#[tactic(auto, using(tree77::proofs::Equations::listed_equations))]
fn lone_item(alloc: Global, feed: &mut Feed<'_, '_>, leaf: Leaf) -> Result<Listed77, Stop>
    ensures { Gives listed_of result feed.new (read (made plain.item (leaf_form leaf)) feed.old) }
{
    Ok(Listed77::Item(lone_expr(alloc, feed, leaf)?))
}

/// Takes an item, in which lists nest so deep at most.
#[cycle(items)]
fn item(alloc: Global, feed: &mut Feed<'_, '_>, leaf: Leaf, room: usize) -> Result<Listed77, Stop>
    ensures { Gives listed_of result feed.new (read (form.item (leaf_form leaf) room) feed.old) }
{
    if room == 0 || !feed.is_ahead(Look::Equated) {
        return lone_item(alloc, feed, leaf);
    }
    implied(alloc, feed, leaf, room - 1)
}

/// Takes an implied DO list (X3.9 sections 9.3 and 12.8.2.3), in which lists nest so deep at most.
#[cycle(items)]
#[tactic(auto, using(tree77::proofs::Equations::listed_equations))]
fn implied(
    alloc: Global,
    feed: &mut Feed<'_, '_>,
    leaf: Leaf,
    room: usize,
) -> Result<Listed77, Stop>
    ensures { Gives listed_of result feed.new (read (form.implied_do (form.item (leaf_form leaf) room) room) feed.old) }
{
    feed.open()?;
    let first = item(alloc, feed, leaf, room)?;
    let (items, range) = items_behind(alloc, feed, leaf, room, first)?;
    feed.close()?;
    Ok(Listed77::Loop(items, Boxed::new(alloc, range)?))
}

/// Takes the items behind the first of an implied DO list, and the values of its variable. All items, with the first.
#[cycle(items)]
fn items_behind(
    alloc: Global,
    feed: &mut Feed<'_, '_>,
    leaf: Leaf,
    room: usize,
    first: Listed77,
) -> Result<(Listeds77, Range77), Stop>
    ensures { Gives (λ r. (map listed_of r.0, range_of r.1)) result feed.new (behind_items (listed_of first ∷ []) (read (form.items_and_range (form.item (leaf_form leaf) room) room) feed.old)) }
{
    let mut items = Items::new(alloc);
    items.push(first)?;
    for _ in 0..room {
        if feed.is_ahead(Look::Three(b',', b'A', b'=')) {
            return range_behind(alloc, feed, items);
        }
        feed.mark(b',')?;
        items.push(item(alloc, feed, leaf, room)?)?;
    }
    range_behind(alloc, feed, items)
}

/// Takes a comma and the values of a DO variable, behind these items.
fn range_behind(
    alloc: Global,
    feed: &mut Feed<'_, '_>,
    items: Listeds77,
) -> Result<(Listeds77, Range77), Stop>
    ensures { Gives (λ r. (map listed_of r.0, range_of r.1)) result feed.new (behind_items (map listed_of items) (read last_range feed.old)) }
{
    feed.mark(b',')?;
    let range = range(alloc, feed)?;
    Ok((items, range))
}

/// The rule of an item, in which lists nest so deep at most.
#[derive(Clone, Copy)]
struct OneItem {
    leaf: Leaf,
    room: usize,
}

impl Rule for OneItem {
    type Made = Listed77;

    ghost Plain = { plain.Listed };

    ghost plain = { listed_of };

    ghost reader = { λ rule. read (form.item (leaf_form rule.leaf) rule.room) };

    fn read(&self, alloc: Global, feed: &mut Feed<'_, '_>) -> Result<Listed77, Stop> {
        item(alloc, feed, self.leaf, self.room)
    }
}

/// The rule of what DATA gives values to (X3.9 section 9.1).
#[derive(Clone, Copy)]
struct OneObject {
    room: usize,
}

impl Rule for OneObject {
    type Made = Listed77;

    ghost Plain = { plain.Listed };

    ghost plain = { listed_of };

    ghost reader = { λ rule. read (form.data_object rule.room) };

    #[tactic(auto, using(tree77::proofs::Equations::listed_equations))]
    fn read(&self, alloc: Global, feed: &mut Feed<'_, '_>) -> Result<Listed77, Stop> {
        if feed.is_ahead(Look::Equated) {
            return implied(alloc, feed, Leaf::Element, self.room);
        }
        Ok(Listed77::Item(designator(alloc, feed, "),/")?))
    }
}

/// Takes a list of what is written, in which lists nest so deep at most.
pub fn output_items(alloc: Global, feed: &mut Feed<'_, '_>, room: usize) -> Result<Listeds77, Stop>
    ensures { Gives (map listed_of) result feed.new (read (listed (form.output_item room)) feed.old) }
{
    let rule = OneItem {
        leaf: Leaf::Output,
        room,
    };
    list(alloc, feed, &rule)
}

/// Takes a list of what is read, in which lists nest so deep at most.
pub fn input_items(alloc: Global, feed: &mut Feed<'_, '_>, room: usize) -> Result<Listeds77, Stop>
    ensures { Gives (map listed_of) result feed.new (read (listed (form.input_item room)) feed.old) }
{
    let rule = OneItem {
        leaf: Leaf::Input,
        room,
    };
    list(alloc, feed, &rule)
}

/// Takes a list of what DATA gives values to, in which lists nest so deep at most.
pub fn data_objects(alloc: Global, feed: &mut Feed<'_, '_>, room: usize) -> Result<Listeds77, Stop>
    ensures { Gives (map listed_of) result feed.new (read (listed (form.data_object room)) feed.old) }
{
    list(alloc, feed, &OneObject { room })
}
