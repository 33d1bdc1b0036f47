// What expressions may be defined, and which are constants.
ghost use Rattle.std.specs.Prelude.{◌≡◌, true, map};
ghost use Rattle.std.specs.Option.{option_map};
ghost use Rattle.expr_tree.specs.Plain.{expr_of, exprs_of, unary_of};
ghost use Rattle.forms77.specs.Reading.{read};
ghost use Rattle.tree77.specs.Forms.{portion, seen};
ghost use Rattle.tree77.specs.FormWords as words;
ghost use Rattle.forms77.specs.Views.{Gives};

use crate::{Feed, Stop};
use expr_tree::{Expr, Exprs, UnaryOp};
use std::alloc::Global;
use text_base::{Bytes, Name};

fn are_some(exprs: &Exprs) -> bool
    ensures { result ≡ words.are_some (exprs_of (map expr_of exprs.now)) }
{
    match exprs.as_slice() {
        [] => false,
        [_, ..] => true,
    }
}

fn is_sign(sign: UnaryOp) -> bool
    ensures { result ≡ words.is_sign (unary_of sign) }
{
    match sign {
        UnaryOp::Plus => true,
        UnaryOp::Minus => true,
        UnaryOp::Not => false,
    }
}

/// Whether an expression is a variable, an element or a substring (X3.9 sections 5.3, 5.4 and 5.7).
#[tactic(auto, using(expr_tree::proofs::Equations::expr_equations))]
pub fn is_designator(expr: &Expr) -> bool
    ensures { result ≡ words.is_designator (expr_of expr.now) }
{
    match expr {
        Expr::Name(_) => true,
        Expr::Call(_, subscripts) => are_some(subscripts),
        Expr::Substring(_, _, _) => true,
        Expr::Int(_) => false,
        Expr::Bool(_) => false,
        Expr::Text(_) => false,
        Expr::Unary(_, _) => false,
        Expr::Binary(_, _, _) => false,
        Expr::Paren(_) => false,
    }
}

/// Whether an expression is an integer constant.
#[tactic(auto, using(expr_tree::proofs::Equations::expr_equations))]
pub fn is_integer(expr: &Expr) -> bool
    ensures { result ≡ words.is_integer (expr_of expr.now) }
{
    match expr {
        Expr::Int(_) => true,
        Expr::Name(_) => false,
        Expr::Call(_, _) => false,
        Expr::Substring(_, _, _) => false,
        Expr::Bool(_) => false,
        Expr::Text(_) => false,
        Expr::Unary(_, _) => false,
        Expr::Binary(_, _, _) => false,
        Expr::Paren(_) => false,
    }
}

/// Whether an expression is a constant or a name, which may have a sign (X3.9 section 9.1).
#[tactic(auto, using(expr_tree::proofs::Equations::expr_equations))]
pub fn is_constant(expr: &Expr) -> bool
    ensures { result ≡ words.is_constant (expr_of expr.now) }
{
    match expr {
        Expr::Int(_) => true,
        Expr::Name(_) => true,
        Expr::Bool(_) => true,
        Expr::Text(_) => true,
        Expr::Unary(sign, value) => is_sign(*sign) && is_integer(value.get()),
        Expr::Call(_, _) => false,
        Expr::Substring(_, _, _) => false,
        Expr::Binary(_, _, _) => false,
        Expr::Paren(_) => false,
    }
}

/// Whether an expression is an array element.
#[tactic(auto, using(expr_tree::proofs::Equations::expr_equations))]
pub fn is_element(expr: &Expr) -> bool
    ensures { result ≡ words.is_element (expr_of expr.now) }
{
    match expr {
        Expr::Call(_, subscripts) => are_some(subscripts),
        Expr::Name(_) => false,
        Expr::Substring(_, _, _) => false,
        Expr::Int(_) => false,
        Expr::Bool(_) => false,
        Expr::Text(_) => false,
        Expr::Unary(_, _) => false,
        Expr::Binary(_, _, _) => false,
        Expr::Paren(_) => false,
    }
}

/// The characters of a character constant.
#[tactic(auto, using(expr_tree::proofs::Equations::expr_equations))]
pub fn text_of(expr: Expr) -> Option<Bytes>
    ensures { result ≡ words.text_of (expr_of expr) }
{
    match expr {
        Expr::Text(text) => Some(text),
        Expr::Int(_) => None,
        Expr::Bool(_) => None,
        Expr::Name(_) => None,
        Expr::Call(_, _) => None,
        Expr::Substring(_, _, _) => None,
        Expr::Unary(_, _) => None,
        Expr::Binary(_, _, _) => None,
        Expr::Paren(_) => None,
    }
}

/// The name of a variable.
#[tactic(auto, using(expr_tree::proofs::Equations::expr_equations))]
pub fn variable_of(expr: Expr) -> Option<Name>
    ensures { result ≡ words.variable_of (expr_of expr) }
{
    match expr {
        Expr::Name(name) => Some(name),
        Expr::Text(_) => None,
        Expr::Int(_) => None,
        Expr::Bool(_) => None,
        Expr::Call(_, _) => None,
        Expr::Substring(_, _, _) => None,
        Expr::Unary(_, _) => None,
        Expr::Binary(_, _, _) => None,
        Expr::Paren(_) => None,
    }
}

/// Takes a variable, an element or a substring, up to one of some marks.
pub fn designator(alloc: Global, feed: &mut Feed<'_, '_>, marks: &str) -> Result<Expr, Stop>
    ensures { Gives expr_of result feed.new (read (words.designator marks.now) feed.old) }
{
    let expr = feed.portion(alloc, true, marks)?;
    if !is_designator(&expr) {
        return Err(Stop::NotSpelled);
    }
    Ok(expr)
}

/// Takes a constant or a name, which may have a sign, up to one of some marks.
pub fn constant(alloc: Global, feed: &mut Feed<'_, '_>, marks: &str) -> Result<Expr, Stop>
    ensures { Gives expr_of result feed.new (read (words.constant marks.now) feed.old) }
{
    let expr = feed.portion(alloc, true, marks)?;
    if !is_constant(&expr) {
        return Err(Stop::NotSpelled);
    }
    Ok(expr)
}

/// Takes an array element, up to one of some marks.
pub fn element(alloc: Global, feed: &mut Feed<'_, '_>, marks: &str) -> Result<Expr, Stop>
    ensures { Gives expr_of result feed.new (read (seen words.if_element (portion true marks.now)) feed.old) }
{
    let expr = feed.portion(alloc, true, marks)?;
    if !is_element(&expr) {
        return Err(Stop::NotSpelled);
    }
    Ok(expr)
}

/// Takes an integer constant, up to one of some marks.
pub fn integer(alloc: Global, feed: &mut Feed<'_, '_>, marks: &str) -> Result<Expr, Stop>
    ensures { Gives expr_of result feed.new (read (words.integer marks.now) feed.old) }
{
    let expr = feed.portion(alloc, true, marks)?;
    if !is_integer(&expr) {
        return Err(Stop::NotSpelled);
    }
    Ok(expr)
}
