// What an open parenthesis belongs to, and what is made of it.
#![tactic(auto, using(expr_tree::proofs::Equations::expr_equations))]

ghost use Rattle.std.specs.Prelude.{◌≡◌, map};
ghost use Rattle.std.specs.Option.{option_map};
ghost use Rattle.expr_tree.specs.Plain.{expr_of, bound_of};
ghost use Rattle.group77.specs.Building as machine;
ghost use Rattle.group77.specs.Symbol.{grammar_symbol, Gives, GivesSeen};
ghost use Rattle.group77.specs.BuilderViews.{opening_of, is_listing};

use crate::build_error::BuildError;
use crate::group::group;
use crate::symbol::{Symbol, Symbols};
use expr_tree::{Expr, Exprs};
use sqlite_items::Boxed;
use std::alloc::Global;
use text_base::Name;

/// What an open parenthesis belongs to: an expression in parentheses; an array element, a function reference or a substring of
/// a variable, with what has been read in it, which may be an array element as long as no alternate return specifier is among
/// it; a substring of an array element; or a substring whose lower bound has been read.
#[derive(Drop)]
pub enum Opening {
    Group,
    List {
        name: Name,
        arguments: Exprs,
        is_element: bool,
    },
    Part(Expr),
    Bound(Expr, Option<Boxed<Expr>>),
}

impl Opening {
    /// Whether arguments may stand behind it.
    pub fn is_list(&self) -> bool
        ensures { result ≡ is_listing (opening_of self.now) }
    {
        matches!(self, Opening::List { .. })
    }

    /// Whether it is an array element that a parenthesis behind these symbols ends.
    pub fn is_element(&self, symbols: &Symbols) -> bool
        ensures { result ≡ machine.is_element (opening_of self.now) (map grammar_symbol symbols.now) }
    {
        match self {
            Opening::List {
                arguments,
                is_element,
                ..
            } => *is_element && !is_bare(arguments, symbols) && !is_specifier(symbols),
            _ => false,
        }
    }
}

/// What a parenthesis behind an operand belongs to: to an array element, or to a name.
fn opening_behind_operand(
    alloc: Global,
    operand: Expr,
    is_element: bool,
) -> Result<Opening, BuildError>
    ensures { GivesSeen opening_of result (machine.behind_operand is_element (expr_of operand)) }
{
    if is_element {
        return Ok(Opening::Part(operand));
    }
    match operand {
        Expr::Name(name) => Ok(Opening::List {
            name,
            arguments: Exprs::new(alloc),
            is_element: true,
        }),
        Expr::Int(_) => Err(BuildError::NotSpelled),
        Expr::Bool(_) => Err(BuildError::NotSpelled),
        Expr::Text(_) => Err(BuildError::NotSpelled),
        Expr::Call(..) => Err(BuildError::NotSpelled),
        Expr::Substring(..) => Err(BuildError::NotSpelled),
        Expr::Unary(..) => Err(BuildError::NotSpelled),
        Expr::Binary(..) => Err(BuildError::NotSpelled),
        Expr::Paren(_) => Err(BuildError::NotSpelled),
    }
}

/// What a parenthesis behind a symbol belongs to, where this is an operand, else `NotSpelled`.
pub fn opening_behind(
    alloc: Global,
    symbol: Symbol,
    is_element: bool,
) -> Result<Opening, BuildError>
    ensures { GivesSeen opening_of result (machine.behind_symbol is_element (grammar_symbol symbol)) }
{
    match symbol {
        Symbol::Operand(operand) => opening_behind_operand(alloc, operand, is_element),
        _other => Err(BuildError::NotSpelled),
    }
}

/// The variable or array element that a substring is part of, where a colon stands here, else `NotSpelled`.
pub fn parent_of(of: Opening) -> Result<Expr, BuildError>
    ensures { GivesSeen expr_of result (machine.parent_in (opening_of of)) }
{
    match of {
        Opening::List {
            name,
            arguments,
            ..
        } => {
            if arguments.is_empty() {
                return Ok(Expr::Name(name));
            }
            Err(BuildError::NotSpelled)
        }
        Opening::Part(element) => Ok(element),
        Opening::Group => Err(BuildError::NotSpelled),
        Opening::Bound(..) => Err(BuildError::NotSpelled),
    }
}

/// Whether an alternate return specifier stands alone.
pub fn is_specifier(symbols: &Symbols) -> bool
    ensures { result ≡ machine.is_specifier (map grammar_symbol symbols.now) }
{
    matches!(symbols.as_slice(), [Symbol::Alternate])
}

/// The tree of an argument or a subscript: of an expression, or 0 for an alternate return specifier. `NotSpelled` where the
/// symbols are neither. `Memory` may come in place of either.
pub fn argument(alloc: Global, symbols: Symbols) -> Result<Expr, BuildError>
    ensures { Gives result (machine.read_argument (map grammar_symbol symbols)) }
{
    if is_specifier(&symbols) {
        return Ok(Expr::Int(0));
    }
    group(alloc, symbols)
}

/// A bound of a substring, `None` where none is written. `NotSpelled` where the symbols are no expression. `Memory` may come in
/// place of either.
pub fn bound(alloc: Global, symbols: Symbols) -> Result<Option<Boxed<Expr>>, BuildError>
    ensures { GivesSeen (λ x. bound_of (option_map expr_of x)) result (machine.read_bound (map grammar_symbol symbols)) }
{
    if symbols.is_empty() {
        return Ok(None);
    }
    let value = group(alloc, symbols)?;
    Ok(Some(Boxed::new(alloc, value)?))
}

/// Whether nothing stands in a list.
fn is_bare(arguments: &Exprs, symbols: &Symbols) -> bool
    ensures { result ≡ machine.is_bare (map expr_of arguments.now) (map grammar_symbol symbols.now) }
{
    matches!((arguments.as_slice(), symbols.as_slice()), ([], []))
}

/// The array element or function reference that a parenthesis ends.
fn closed_list(
    alloc: Global,
    name: Name,
    mut arguments: Exprs,
    symbols: Symbols,
) -> Result<Expr, BuildError>
    ensures { Gives result (machine.close_list name (map expr_of arguments) (map grammar_symbol symbols)) }
{
    if is_bare(&arguments, &symbols) {
        return Ok(Expr::Call(name, Exprs::new(alloc)));
    }
    let last = argument(alloc, symbols)?;
    arguments.push(last)?;
    Ok(Expr::Call(name, arguments))
}

/// The tree that a parenthesis ends, where these symbols stand before it. `NotSpelled` where they are none. `Memory` may come in
/// place of either.
pub fn closed(alloc: Global, of: Opening, symbols: Symbols) -> Result<Expr, BuildError>
    ensures { Gives result (machine.close_level (opening_of of) (map grammar_symbol symbols)) }
{
    match of {
        Opening::Group => {
            let inside = group(alloc, symbols)?;
            Ok(Expr::Paren(Boxed::new(alloc, inside)?))
        }
        Opening::List {
            name,
            arguments,
            ..
        } => closed_list(alloc, name, arguments, symbols),
        Opening::Part(_) => Err(BuildError::NotSpelled),
        Opening::Bound(parent, from) => {
            let to = bound(alloc, symbols)?;
            let parent = Boxed::new(alloc, parent)?;
            Ok(Expr::Substring(parent, from, to))
        }
    }
}
