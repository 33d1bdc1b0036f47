// Reads assignments and control statements behind their keywords.
ghost use Rattle.std.specs.Prelude.{◌≡◌, Some, map};
ghost use Rattle.std.specs.Option.{option_map};
ghost use Rattle.expr_tree.specs.Plain.{expr_of, exprs_of};
ghost use Rattle.text_base.specs.Trees as tree;
ghost use Rattle.tree77.specs.ControlForms as form;
ghost use Rattle.tree77.specs.StatementPlain.{simple_of, statement_of};
ghost use Rattle.tree77.specs.Statements as plain;
ghost use Rattle.forms77.specs.Reading.{read};
ghost use Rattle.forms77.specs.Views.{Gives};
ghost use Rattle.parse77.specs.ControlParts as part;

use expr_tree::{Expr, Exprs};
use forms77::{
    Feed, OneExpression, OneLabel, Rule, Stop, inside, list, list_inside, range, text_of,
};
use sqlite_items::{Boxed, Items};
use std::alloc::Global;
use text_base::{Bytes, Name, StopCode};
use tree77::{Statement77, Stmt77};

/// What a value is assigned to an element or reference with these subscripts: where there are none, a statement function
/// is defined (X3.9 section 15.4).
#[tactic(auto, using(expr_tree::proofs::Equations::expr_equations))]
fn assigned_call(alloc: Global, name: Name, subscripts: Exprs, value: Expr) -> Statement77
    ensures { option_map statement_of (Some result) ≡ form.assigned (tree.call name (exprs_of (map expr_of subscripts))) (expr_of value) }
{
    if subscripts.is_empty() {
        Statement77::StmtFunction(name, Items::new(alloc), value)
    } else {
        Statement77::Simple(Stmt77::Assign(Expr::Call(name, subscripts), value))
    }
}

/// An assignment.
fn assign(target: Expr, value: Expr) -> Option<Statement77>
    ensures { option_map statement_of result ≡ Some (plain.simple (plain.assign (expr_of target) (expr_of value))) }
{
    Some(Statement77::Simple(Stmt77::Assign(target, value)))
}

/// What it is that a value is assigned to an expression. `None` where it may not be.
#[tactic(auto, using(expr_tree::proofs::Equations::expr_equations))]
fn assigned(alloc: Global, target: Expr, value: Expr) -> Option<Statement77>
    ensures { option_map statement_of result ≡ form.assigned (expr_of target) (expr_of value) }
{
    match target {
        Expr::Name(name) => assign(Expr::Name(name), value),
        Expr::Call(name, subscripts) => Some(assigned_call(alloc, name, subscripts, value)),
        Expr::Substring(of, from, to) => assign(Expr::Substring(of, from, to), value),
        Expr::Int(_value) => None,
        Expr::Bool(_value) => None,
        Expr::Text(_text) => None,
        Expr::Unary(_sign, _operand) => None,
        Expr::Binary(_operator, _left, _right) => None,
        Expr::Paren(_inside) => None,
    }
}

/// `variable = e`, `name() = e` (X3.9 sections 10.1 and 15.4).
pub fn assignment(alloc: Global, feed: &mut Feed<'_, '_>) -> Result<Statement77, Stop>
    ensures { Gives statement_of result feed.new (read form.assignment feed.old) }
{
    let target = feed.portion(alloc, true, "),=:")?;
    feed.mark(b'=')?;
    let value = OneExpression.read(alloc, feed)?;
    match assigned(alloc, target, value) {
        Some(statement) => Ok(statement),
        None => Err(Stop::NotSpelled),
    }
}

/// `GO TO (label, ..) [,] e` (X3.9 section 11.2).
fn computed(alloc: Global, feed: &mut Feed<'_, '_>) -> Result<Stmt77, Stop>
    ensures { Gives simple_of result feed.new (read form.computed feed.old) }
{
    let labels = list_inside(alloc, feed, &OneLabel)?;
    feed.take(b',');
    let index = OneExpression.read(alloc, feed)?;
    Ok(Stmt77::Computed(labels, index))
}

/// `GO TO name [[,] (label, ..)]`, which is refused (X3.9 section 11.3).
fn assigned_goto(alloc: Global, feed: &mut Feed<'_, '_>) -> Result<Stmt77, Stop>
    ensures { Gives simple_of result feed.new (read form.assigned_goto feed.old) }
{
    feed.refuse("GOTO");
    feed.name()?;
    if feed.is_at(",(") {
        feed.take(b',');
        list_inside(alloc, feed, &OneLabel)?;
        return Ok(Stmt77::Continue);
    }
    Ok(Stmt77::Continue)
}

/// `GO TO label` (X3.9 section 11.1), and the others.
pub fn goto(alloc: Global, feed: &mut Feed<'_, '_>) -> Result<Stmt77, Stop>
    ensures { Gives simple_of result feed.new (read form.goto feed.old) }
{
    if feed.is_at("(") {
        return computed(alloc, feed);
    }
    if feed.is_at("A") {
        return assigned_goto(alloc, feed);
    }
    Ok(Stmt77::Goto(feed.label()?))
}

/// `(e) label, label, label` (X3.9 section 11.4).
pub fn arithmetic(alloc: Global, feed: &mut Feed<'_, '_>) -> Result<Stmt77, Stop>
    ensures { Gives simple_of result feed.new (read form.arithmetic feed.old) }
{
    let test = inside(alloc, feed, &OneExpression)?;
    let negative = feed.label()?;
    feed.mark(b',')?;
    let zero = feed.label()?;
    feed.mark(b',')?;
    let positive = feed.label()?;
    Ok(Stmt77::Arithmetic(test, negative, zero, positive))
}

/// `(e)`.
pub fn condition(alloc: Global, feed: &mut Feed<'_, '_>) -> Result<Expr, Stop>
    ensures { Gives expr_of result feed.new (read form.condition feed.old) }
{
    inside(alloc, feed, &OneExpression)
}

/// `(e) THEN` (X3.9 sections 11.6 and 11.7).
pub fn then_block(alloc: Global, feed: &mut Feed<'_, '_>) -> Result<Expr, Stop>
    ensures { Gives expr_of result feed.new (read form.then_block feed.old) }
{
    let test = inside(alloc, feed, &OneExpression)?;
    feed.word("THEN")?;
    Ok(test)
}

/// `DO label [,] name = e, e [, e]` (X3.9 section 11.10).
pub fn do_(alloc: Global, feed: &mut Feed<'_, '_>) -> Result<Statement77, Stop>
    ensures { Gives statement_of result feed.new (read form.do_ feed.old) }
{
    let terminal = feed.label()?;
    feed.take(b',');
    let range = Boxed::new(alloc, range(alloc, feed)?)?;
    Ok(Statement77::Do(terminal, range))
}

/// RETURN; an expression is refused (X3.9 section 15.8).
pub fn return_(alloc: Global, feed: &mut Feed<'_, '_>) -> Result<Stmt77, Stop>
    ensures { Gives simple_of result feed.new (read form.return_ feed.old) }
{
    if feed.is_at("A0'(.+-") {
        feed.refuse("RETURN");
        OneExpression.read(alloc, feed)?;
        return Ok(Stmt77::Return);
    }
    Ok(Stmt77::Return)
}

/// STOP with up to five digits.
fn digits_stop(alloc: Global, feed: &mut Feed<'_, '_>) -> Result<Stmt77, Stop>
    ensures { Gives simple_of result feed.new (read part.digits_stop feed.old) }
{
    let digits = feed.numeral()?;
    if digits.len() > 5 {
        return Err(Stop::NotSpelled);
    }
    let code = Bytes::from_slice(alloc, digits)?;
    Ok(Stmt77::Stop(Some(StopCode::Digits(code))))
}

/// STOP with a character constant.
fn text_stop(alloc: Global, feed: &mut Feed<'_, '_>) -> Result<Stmt77, Stop>
    ensures { Gives simple_of result feed.new (read part.text_stop feed.old) }
{
    let code = OneExpression.read(alloc, feed)?;
    match text_of(code) {
        Some(text) => Ok(Stmt77::Stop(Some(StopCode::Text(text)))),
        None => Err(Stop::NotSpelled),
    }
}

/// `STOP [digits]`, `STOP text` (X3.9 section 11.12).
pub fn stop(alloc: Global, feed: &mut Feed<'_, '_>) -> Result<Stmt77, Stop>
    ensures { Gives simple_of result feed.new (read form.stop feed.old) }
{
    if feed.is_at("0") {
        return digits_stop(alloc, feed);
    }
    if feed.is_at("'") {
        return text_stop(alloc, feed);
    }
    Ok(Stmt77::Stop(None))
}

/// An actual argument.
struct OneActual;

impl Rule for OneActual {
    type Made = Expr;

    ghost Plain = { tree.Expr };

    ghost plain = { expr_of };

    ghost reader = { λ _. read form.actual };

    #[tactic(auto, using(expr_tree::proofs::Equations::expr_equations))]
    fn read(&self, alloc: Global, feed: &mut Feed<'_, '_>) -> Result<Expr, Stop> {
        if feed.is_at("*") {
            feed.refuse("RETURN");
            feed.mark(b'*')?;
            feed.label()?;
            return Ok(Expr::Int(0));
        }
        OneExpression.read(alloc, feed)
    }
}

/// The actual arguments in parentheses, which may be none.
fn actuals(alloc: Global, feed: &mut Feed<'_, '_>) -> Result<Exprs, Stop>
    ensures { Gives (map expr_of) result feed.new (read part.actuals feed.old) }
{
    if !feed.is_at("(") {
        return Ok(Items::new(alloc));
    }
    feed.open()?;
    let mut actuals = Items::new(alloc);
    if feed.is_at("A0'(.+-*") {
        actuals = list(alloc, feed, &OneActual)?;
    }
    feed.close()?;
    Ok(actuals)
}

/// `CALL name [([actual, ..])]` (X3.9 section 15.6.2).
pub fn call(alloc: Global, feed: &mut Feed<'_, '_>) -> Result<Stmt77, Stop>
    ensures { Gives simple_of result feed.new (read form.call feed.old) }
{
    let name = feed.name()?;
    let actuals = actuals(alloc, feed)?;
    Ok(Stmt77::Call(name, actuals))
}
