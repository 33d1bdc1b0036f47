// Reads what stands between a type and FUNCTION (X3.9 section 15.5.1).
ghost use Rattle.std.specs.Prelude.{◌≡◌, codes};
ghost use Rattle.forms77.specs.Reading.{read};
ghost use Rattle.forms77.specs.Views.{Gives};
ghost use Rattle.tree77.specs.Forms.{inside, refused};
ghost use Rattle.tree77.specs.FormWords.{unsupported};
ghost use Rattle.tree77.specs.SpecificationForms as form;
ghost use Rattle.tree77.specs.StatementPlain.{length_of, type_of};
ghost use Rattle.tree77.specs.Statements as plain;

use expr_tree::Expr;
use forms77::{Feed, OneExpression, Rule, Stop, perhaps};
use std::alloc::Global;
use tree77::{Length77, Type77};

/// A length in parentheses: an expression, or `*`, which is refused.
fn function_inside(alloc: Global, feed: &mut Feed<'_, '_>) -> Result<Length77, Stop>
    ensures { Gives length_of result feed.new (read form.function_inside feed.old) }
{
    if feed.is_at("*") {
        feed.refuse("LENGTH");
        feed.mark(b'*')?;
        return Ok(Length77::Assumed);
    }
    Ok(Length77::Given(OneExpression.read(alloc, feed)?))
}

/// The length of a function, behind its star.
struct FunctionLength;

impl Rule for FunctionLength {
    type Made = Length77;

    ghost Plain = { plain.Length };

    ghost plain = { length_of };

    ghost reader = { λ _. read form.function_length };

    #[tactic(auto, using(expr_tree::proofs::Equations::expr_equations))]
    fn read(&self, alloc: Global, feed: &mut Feed<'_, '_>) -> Result<Length77, Stop> {
        if feed.is_at("(") {
            feed.open()?;
            let length = function_inside(alloc, feed)?;
            feed.close()?;
            return Ok(length);
        }
        Ok(Length77::Given(Expr::Int(feed.number()?)))
    }
}

/// The length of a function of a type that has none, which is refused.
struct RefusedSize;

impl Rule for RefusedSize {
    type Made = Length77;

    ghost Plain = { plain.Length };

    ghost plain = { length_of };

    ghost reader = { λ _. read (refused (unsupported (codes "LENGTH")) form.function_length) };

    fn read(&self, alloc: Global, feed: &mut Feed<'_, '_>) -> Result<Length77, Stop> {
        feed.refuse("LENGTH");
        FunctionLength.read(alloc, feed)
    }
}

/// INTEGER, with a length that is refused or none (X3.9 section 15.5.1).
///
/// In: what is left behind the type, of what stands before FUNCTION.
///
/// Out: the tree; `feed` then stands behind it and has the lowest refused part so far. `NotSpelled` where what is left doesn't
/// begin with this form; `Memory` where memory is wanted.
pub fn integer_size(alloc: Global, feed: &mut Feed<'_, '_>) -> Result<Type77, Stop>
    ensures { Gives type_of result feed.new (read form.integer_size feed.old) }
{
    perhaps(alloc, feed, b'*', &RefusedSize)?;
    Ok(Type77::Integer)
}

/// LOGICAL, with a length that is refused or none (X3.9 section 15.5.1).
///
/// In: what is left behind the type, of what stands before FUNCTION.
///
/// Out: the tree; `feed` then stands behind it and has the lowest refused part so far. `NotSpelled` where what is left doesn't
/// begin with this form; `Memory` where memory is wanted.
pub fn logical_size(alloc: Global, feed: &mut Feed<'_, '_>) -> Result<Type77, Stop>
    ensures { Gives type_of result feed.new (read form.logical_size feed.old) }
{
    perhaps(alloc, feed, b'*', &RefusedSize)?;
    Ok(Type77::Logical)
}

/// CHARACTER, with its length where it is written (X3.9 section 15.5.1).
///
/// In: what is left behind the type, of what stands before FUNCTION.
///
/// Out: the tree; `feed` then stands behind it and has the lowest refused part so far. `NotSpelled` where what is left doesn't
/// begin with this form; `Memory` where memory is wanted.
pub fn character_size(alloc: Global, feed: &mut Feed<'_, '_>) -> Result<Type77, Stop>
    ensures { Gives type_of result feed.new (read form.character_size feed.old) }
{
    Ok(Type77::Character(perhaps(alloc, feed, b'*', &FunctionLength)?))
}
