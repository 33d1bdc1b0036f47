// Reads lengths of characters (X3.9 section 8.4.2).
ghost use Rattle.std.specs.Prelude.{◌≡◌, pos};
ghost use Rattle.forms77.specs.Reading.{read};
ghost use Rattle.forms77.specs.Views.{Gives};
ghost use Rattle.text_base.specs.Trees.{int};
ghost use Rattle.tree77.specs.Forms.{inside, small_or_0};
ghost use Rattle.tree77.specs.SpecificationForms as form;
ghost use Rattle.tree77.specs.StatementPlain.{length_of};
ghost use Rattle.tree77.specs.Statements as plain;

use expr_tree::Expr;
use expr77::{great_number, unsupported};
use forms77::{Feed, Look, OneExpression, Rule, Stop, integer, perhaps, value_or_0};
use std::alloc::Global;
use tree77::Length77;

/// A length in parentheses: an expression, or `*`.
fn length_inside(alloc: Global, feed: &mut Feed<'_, '_>) -> Result<Length77, Stop>
    ensures { Gives length_of result feed.new (read form.length_inside feed.old) }
{
    if feed.is_at("*") {
        feed.mark(b'*')?;
        return Ok(Length77::Assumed);
    }
    Ok(Length77::Given(OneExpression.read(alloc, feed)?))
}

/// A length with its parentheses.
fn enclosed_length(alloc: Global, feed: &mut Feed<'_, '_>) -> Result<Length77, Stop>
    ensures { Gives length_of result feed.new (read (inside form.length_inside) feed.old) }
{
    feed.open()?;
    let length = length_inside(alloc, feed)?;
    feed.close()?;
    Ok(length)
}

/// Digits, or none.
struct SomeDigits;

impl Rule for SomeDigits {
    type Made = ();

    ghost Plain = { Unit {0} };

    ghost plain = { λ x. x };

    ghost reader = { λ _. read form.some_digits };

    fn read(&self, _alloc: Global, feed: &mut Feed<'_, '_>) -> Result<(), Stop> {
        if feed.is_at("0") {
            feed.numeral()?;
        }
        Ok(())
    }
}

/// The length that digits are.
#[tactic(auto, using(expr_tree::proofs::Equations::expr_equations))]
fn given_number(digits: &[u8]) -> Length77
    ensures { length_of result ≡ plain.given (int (pos (small_or_0 digits.now))) }
{
    Length77::Given(Expr::Int(value_or_0(digits)))
}

/// What stands for a real constant, which is refused.
#[tactic(auto, using(expr_tree::proofs::Equations::expr_equations))]
fn no_length() -> Length77
    ensures { length_of result ≡ form.zero_length }
{
    Length77::Given(Expr::Int(0))
}

/// Digits are an integer constant. Behind a point they are a real one, which is refused.
fn digits_first(alloc: Global, feed: &mut Feed<'_, '_>) -> Result<Length77, Stop>
    ensures { Gives length_of result feed.new (read form.digits_first feed.old) }
{
    let held = feed.hold();
    let digits = feed.numeral()?;
    match perhaps(alloc, feed, b'.', &SomeDigits)? {
        None => {
            feed.release(held, great_number(digits));
            Ok(given_number(digits))
        }
        Some(()) => {
            feed.release(held, unsupported("CONSTANT"));
            Ok(no_length())
        }
    }
}

/// A real constant that begins with its point, which is refused.
fn point_first(feed: &mut Feed<'_, '_>) -> Result<Length77, Stop>
    ensures { Gives length_of result feed.new (read form.point_first feed.old) }
{
    feed.refuse("CONSTANT");
    feed.mark(b'.')?;
    feed.numeral()?;
    Ok(no_length())
}

/// An integer constant, for which a real constant may stand.
fn plain_length(alloc: Global, feed: &mut Feed<'_, '_>) -> Result<Length77, Stop>
    ensures { Gives length_of result feed.new (read form.plain_length feed.old) }
{
    if feed.is_at(".") {
        return point_first(feed);
    }
    digits_first(alloc, feed)
}

/// The length of a type, behind its star.
pub struct TypeLength;

impl Rule for TypeLength {
    type Made = Length77;

    ghost Plain = { plain.Length };

    ghost plain = { length_of };

    ghost reader = { λ _. read form.type_length };

    fn read(&self, alloc: Global, feed: &mut Feed<'_, '_>) -> Result<Length77, Stop> {
        if feed.is_at("(") {
            return enclosed_length(alloc, feed);
        }
        plain_length(alloc, feed)
    }
}

/// The own length of a name, behind its star.
pub struct OwnLength;

impl Rule for OwnLength {
    type Made = Length77;

    ghost Plain = { plain.Length };

    ghost plain = { length_of };

    ghost reader = { λ _. read form.own_length };

    fn read(&self, alloc: Global, feed: &mut Feed<'_, '_>) -> Result<Length77, Stop> {
        if feed.is_ahead(Look::One("(")) {
            return enclosed_length(alloc, feed);
        }
        Ok(Length77::Given(integer(alloc, feed, ",")?))
    }
}

/// The length of a type that has none, which is refused.
pub struct RefusedLength;

impl Rule for RefusedLength {
    type Made = Length77;

    ghost Plain = { plain.Length };

    ghost plain = { length_of };

    ghost reader = { λ _. read form.refused_length };

    fn read(&self, alloc: Global, feed: &mut Feed<'_, '_>) -> Result<Length77, Stop> {
        feed.refuse("LENGTH");
        TypeLength.read(alloc, feed)
    }
}
