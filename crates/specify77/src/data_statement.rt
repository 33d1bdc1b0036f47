// Reads DATA (X3.9 section 9).
ghost use Rattle.std.specs.Prelude.{◌≡◌, ◌∷◌, map, Some};
ghost use Rattle.std.specs.Option.{option_map};
ghost use Rattle.expr_tree.specs.Plain.{expr_of};
ghost use Rattle.forms77.specs.Reading.{read};
ghost use Rattle.forms77.specs.Views.{Gives};
ghost use Rattle.text_base.specs.Trees as tree;
ghost use Rattle.tree77.specs.SpecificationForms as form;
ghost use Rattle.tree77.specs.StatementPlain.{times_of, value_of, data_group_of, declared_of};
ghost use Rattle.tree77.specs.Statements as plain;

use expr_tree::Expr;
use forms77::{Feed, Rule, Stop, constant, data_objects, flag, list, many, perhaps};
use sqlite_items::Items;
use std::alloc::Global;
use tree77::{DataGroup77, DataValue77, Declared77, Times77};

/// How often a constant counts: an integer constant or the name of one.
#[tactic(auto, using(expr_tree::proofs::Equations::expr_equations))]
fn times_from(count: Expr) -> Option<Times77>
    ensures { option_map times_of result ≡ form.times_of (expr_of count) }
{
    match count {
        Expr::Int(count) => Some(Times77::Number(count)),
        Expr::Name(name) => Some(Times77::Name(name)),
        Expr::Text(_) => None,
        Expr::Bool(_) => None,
        Expr::Call(_, _) => None,
        Expr::Substring(_, _, _) => None,
        Expr::Unary(_, _) => None,
        Expr::Binary(_, _, _) => None,
        Expr::Paren(_) => None,
    }
}

/// `r*constant`, if the first may be a count.
fn repeated(count: Expr, constant: Expr) -> Option<DataValue77>
    ensures { option_map value_of result ≡ form.value_of (expr_of count) (Some (expr_of constant)) }
{
    match times_from(count) {
        Some(times) => Some(DataValue77 { times, constant }),
        None => None,
    }
}

/// A constant.
struct OneConstant;

impl Rule for OneConstant {
    type Made = Expr;

    ghost Plain = { tree.Expr };

    ghost plain = { expr_of };

    ghost reader = { λ _. read form.data_constant };

    fn read(&self, alloc: Global, feed: &mut Feed<'_, '_>) -> Result<Expr, Stop> {
        constant(alloc, feed, ",/*")
    }
}

/// A constant, which may stand behind `r*`.
struct OneValue;

impl Rule for OneValue {
    type Made = DataValue77;

    ghost Plain = { plain.Value };

    ghost plain = { value_of };

    ghost reader = { λ _. read form.value };

    fn read(&self, alloc: Global, feed: &mut Feed<'_, '_>) -> Result<DataValue77, Stop> {
        let first = OneConstant.read(alloc, feed)?;
        let Some(constant) = perhaps(alloc, feed, b'*', &OneConstant)? else {
            return Ok(DataValue77 {
                times: Times77::Once,
                constant: first,
            });
        };
        match repeated(first, constant) {
            Some(value) => Ok(value),
            None => Err(Stop::NotSpelled),
        }
    }
}

/// `objects / values /`, of a statement of so many characters.
#[derive(Clone, Copy)]
struct OneGroup {
    room: usize,
}

impl Rule for OneGroup {
    type Made = DataGroup77;

    ghost Plain = { plain.DataGroup };

    ghost plain = { data_group_of };

    ghost reader = { λ group. read (form.data_group group.room) };

    fn read(&self, alloc: Global, feed: &mut Feed<'_, '_>) -> Result<DataGroup77, Stop> {
        let objects = data_objects(alloc, feed, self.room)?;
        feed.mark(b'/')?;
        let values = list(alloc, feed, &OneValue)?;
        feed.mark(b'/')?;
        Ok(DataGroup77 { objects, values })
    }
}

/// The same behind a comma or none.
#[derive(Clone, Copy)]
struct NextGroup {
    room: usize,
}

impl Rule for NextGroup {
    type Made = DataGroup77;

    ghost Plain = { plain.DataGroup };

    ghost plain = { data_group_of };

    ghost reader = { λ group. read (form.next_group group.room) };

    fn read(&self, alloc: Global, feed: &mut Feed<'_, '_>) -> Result<DataGroup77, Stop> {
        flag(feed, b',');
        Ok(OneGroup { room: self.room }.read(alloc, feed)?)
    }
}

/// `DATA objects / values / [[,] objects / values /] ..` (X3.9 section 9.1).
///
/// In: what is left of the statement behind its keyword, and in `room` how many characters this has: lists nest no deeper.
///
/// Out: the tree; `feed` then stands behind it and has the lowest refused part so far. `NotSpelled` where what is left doesn't
/// begin with this form; `Memory` where memory is wanted.
pub fn data(alloc: Global, feed: &mut Feed<'_, '_>, room: usize) -> Result<Declared77, Stop>
    ensures { Gives declared_of result feed.new (read (form.data_ room) feed.old) }
{
    let first = OneGroup { room }.read(alloc, feed)?;
    let others = many(alloc, feed, ",A0'(.+-", &NextGroup { room })?;
    let mut groups = Items::new(alloc);
    groups.push(first)?;
    groups.append(others)?;
    Ok(Declared77::Data(groups))
}
