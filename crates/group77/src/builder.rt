// Builds the tree of an expression from its symbols.
ghost use Rattle.std.specs.Prelude.{◌≡◌, [], Some, Err, map, IfOk};
ghost use Rattle.text_base.specs.Trees as tree;
ghost use Rattle.expr_tree.specs.Plain.{expr_of, binary_of};
ghost use Rattle.tree77.specs.Expressions.{IsExpression};
ghost use Rattle.group77.specs.Building as machine;
ghost use Rattle.group77.specs.Symbol.{grammar_symbol, Gives, GivesSeen};
ghost use Rattle.group77.specs.BuilderViews.{opening_of, level_of, state_of, is_in_list};
ghost use Rattle.group77.specs.declared.build_error.BuildError.TheVariants.{NotSpelled};

use crate::build_error::BuildError;
use crate::feed::{Sort, is_of};
use crate::group::group;
use crate::opening::{Opening, argument, bound, closed, is_specifier, opening_behind, parent_of};
use crate::stack::Stack;
use crate::symbol::{Symbol, Symbols};
use expr_tree::{BinaryOp, Expr};
use std::alloc::Global;

/// An open parenthesis: what it belongs to, and the operands and operators before it.
#[derive(Drop)]
struct Level {
    before: Symbols,
    of: Opening,
}

/// The open parentheses, the innermost on top, the operands and operators behind it, and whether an array element stands last.
#[derive(Drop)]
struct Builder {
    levels: Stack<Level>,
    symbols: Symbols,
    is_element: bool,
}

/// A further parenthesis is open, behind these symbols, and nothing stands in it yet.
fn opened(
    alloc: Global,
    mut levels: Stack<Level>,
    before: Symbols,
    of: Opening,
) -> Result<Builder, BuildError>
    ensures { GivesSeen state_of result (Some (machine.open_level (map level_of levels) (map grammar_symbol before) (opening_of of))) }
{
    levels.push(Level { before, of })?;
    Ok(Builder {
        levels,
        symbols: Symbols::new(alloc),
        is_element: false,
    })
}

impl Builder {
    /// No parenthesis is open, and no symbol has been taken; there is room for so many.
    fn new(alloc: Global, count: usize) -> Result<Builder, BuildError>
        ensures { GivesSeen state_of result (Some (machine.standing [] [])) }
    {
        Ok(Builder {
            levels: Stack::new(alloc),
            symbols: Symbols::from_vec(Vec::with_capacity(alloc, count)?),
            is_element: false,
        })
    }

    /// Whether an operand stands last.
    #[tactic(auto, using(crate::proofs::BuilderSteps::last_ends))]
    fn is_after(&self) -> bool
        ensures { result ≡ machine.is_after (map grammar_symbol self.now.symbols) }
    {
        match self.symbols.as_slice().last() {
            Some(last) => last.ends(),
            None => false,
        }
    }

    /// Puts a symbol last.
    fn push(self, symbol: Symbol) -> Result<Builder, BuildError>
        ensures { GivesSeen state_of result (Some (machine.push (grammar_symbol symbol) (state_of self))) }
    {
        let Builder {
            levels,
            mut symbols,
            ..
        } = self;
        symbols.push(symbol)?;
        Ok(Builder {
            levels,
            symbols,
            is_element: false,
        })
    }

    /// Takes an operand, which stands behind none.
    fn operand(self, operand: Expr) -> Result<Builder, BuildError>
        ensures { GivesSeen state_of result (machine.step_operand (expr_of operand) (state_of self)) }
    {
        if self.is_after() {
            return Err(BuildError::NotSpelled);
        }
        self.push(Symbol::Operand(operand))
    }

    /// Takes an operator, which stands behind an operand or is a sign.
    fn operator(self, op: BinaryOp) -> Result<Builder, BuildError>
        ensures { GivesSeen state_of result (machine.step_operator (binary_of op) (state_of self)) }
    {
        if self.is_after() || is_of(op, Sort::Sum) {
            return self.push(Symbol::Operator(op));
        }
        Err(BuildError::NotSpelled)
    }

    /// Takes `.NOT.`, which stands behind no operand.
    fn not_sign(self) -> Result<Builder, BuildError>
        ensures { GivesSeen state_of result (machine.step_not (state_of self)) }
    {
        if self.is_after() {
            return Err(BuildError::NotSpelled);
        }
        self.push(Symbol::Not)
    }

    /// Whether the innermost open parenthesis may have arguments.
    #[tactic(auto, using(crate::proofs::BuilderSteps::in_list_at, crate::proofs::BuilderSteps::in_list_nowhere))]
    fn is_in_list(&self) -> bool
        ensures { result ≡ is_in_list (map level_of self.now.levels) }
    {
        match self.levels.top() {
            Some(level) => level.of.is_list(),
            None => false,
        }
    }

    /// Takes an alternate return specifier, which stands alone in its argument.
    fn alternate(self) -> Result<Builder, BuildError>
        ensures { GivesSeen state_of result (machine.step_alternate (map level_of self.levels) (map grammar_symbol self.symbols)) }
    {
        if self.is_in_list() && self.symbols.is_empty() {
            return self.push(Symbol::Alternate);
        }
        Err(BuildError::NotSpelled)
    }

    /// Opens a parenthesis. Behind a name or an array element it belongs to it; behind other operands none may stand.
    #[tactic(auto, using(crate::proofs::BuilderSteps::opens_group))]
    fn open(self, alloc: Global) -> Result<Builder, BuildError>
        ensures { let symbols = map grammar_symbol self.symbols in GivesSeen state_of result (machine.opening_at self.is_element (map level_of self.levels) symbols (machine.split_last symbols)) }
    {
        if !self.is_after() {
            return opened(alloc, self.levels, self.symbols, Opening::Group);
        }
        let Builder {
            levels,
            mut symbols,
            is_element,
        } = self;
        let Some(last) = symbols.pop() else {
            return Err(BuildError::NotSpelled);
        };
        let of = opening_behind(alloc, last, is_element)?;
        opened(alloc, levels, symbols, of)
    }

    /// Takes a comma, which ends an argument or a subscript.
    fn comma(self, alloc: Global) -> Result<Builder, BuildError>
        ensures { GivesSeen state_of result (machine.step_comma (map level_of self.levels) (map grammar_symbol self.symbols)) }
    {
        let Builder {
            mut levels,
            symbols,
            ..
        } = self;
        let Some(Level { before, of }) = levels.pop() else {
            return Err(BuildError::NotSpelled);
        };
        let Opening::List {
            name,
            mut arguments,
            is_element,
        } = of
        else {
            return Err(BuildError::NotSpelled);
        };
        let is_element = is_element && !is_specifier(&symbols);
        let last = argument(alloc, symbols)?;
        arguments.push(last)?;
        let of = Opening::List {
            name,
            arguments,
            is_element,
        };
        opened(alloc, levels, before, of)
    }

    /// Takes a colon, which ends the lower bound of a substring.
    fn colon(self, alloc: Global) -> Result<Builder, BuildError>
        ensures { GivesSeen state_of result (machine.step_colon (map level_of self.levels) (map grammar_symbol self.symbols)) }
    {
        let Builder {
            mut levels,
            symbols,
            ..
        } = self;
        let Some(Level { before, of }) = levels.pop() else {
            return Err(BuildError::NotSpelled);
        };
        let parent = parent_of(of)?;
        let from = bound(alloc, symbols)?;
        opened(alloc, levels, before, Opening::Bound(parent, from))
    }

    /// Closes the innermost parenthesis: what it belongs to and what stands in it are one operand.
    fn close(self, alloc: Global) -> Result<Builder, BuildError>
        ensures { GivesSeen state_of result (machine.step_closing (map level_of self.levels) (map grammar_symbol self.symbols)) }
    {
        let Builder {
            mut levels,
            symbols,
            ..
        } = self;
        let Some(Level { mut before, of }) = levels.pop() else {
            return Err(BuildError::NotSpelled);
        };
        let is_element = of.is_element(&symbols);
        let operand = closed(alloc, of, symbols)?;
        before.push(Symbol::Operand(operand))?;
        Ok(Builder {
            levels,
            symbols: before,
            is_element,
        })
    }

    /// Takes the next symbol.
    fn step(self, alloc: Global, symbol: Symbol) -> Result<Builder, BuildError>
        ensures { GivesSeen state_of result (machine.step (grammar_symbol symbol) (state_of self)) }
    {
        match symbol {
            Symbol::Operand(operand) => self.operand(operand),
            Symbol::Alternate => self.alternate(),
            Symbol::Operator(op) => self.operator(op),
            Symbol::Not => self.not_sign(),
            Symbol::Open => self.open(alloc),
            Symbol::Close => self.close(alloc),
            Symbol::Comma => self.comma(alloc),
            Symbol::Colon => self.colon(alloc),
        }
    }

    /// The tree, where no parenthesis is open at the end.
    fn finish(self, alloc: Global) -> Result<Expr, BuildError>
        ensures { Gives result (machine.finish (state_of self)) }
    {
        let Builder {
            mut levels,
            symbols,
            ..
        } = self;
        match levels.pop() {
            Some(_) => Err(BuildError::NotSpelled),
            None => group(alloc, symbols),
        }
    }
}

/// What the machine builds from all symbols. One symbol alone is grouped as it stands.
#[tactic(auto, unfolding(crate::specs::Building::build), using(crate::proofs::GroupLaw::one_built))]
fn build_all(alloc: Global, symbols: Symbols) -> Result<Expr, BuildError>
    ensures { Gives result (machine.build (map grammar_symbol symbols)) }
{
    if symbols.len() == 1 {
        return group(alloc, symbols);
    }
    let mut builder = Builder::new(alloc, symbols.len())?;
    let mut left = Stack::from_items(alloc, symbols)?;
    while let Some(symbol) = left.pop() {
        builder = builder.step(alloc, symbol)?;
    }
    builder.finish(alloc)
}

/// Builds the tree of an expression from its symbols (X3.9 section 6).
///
/// In: the symbols, in order; their trees become parts of the tree.
///
/// Out: the one tree that the symbols are; or `NotSpelled`, exactly where they are no expression. `Memory`, where memory is
/// wanted, may come in place of either.
pub fn build(alloc: Global, symbols: Symbols) -> Result<Expr, BuildError>
    ensures found { IfOk result (λ x. IsExpression (map grammar_symbol symbols) (expr_of x)) }
    ensures none { result ≡ Err NotSpelled → (x : tree.Expr) → IsExpression (map grammar_symbol symbols) x → ⊥ }
{
    build_all(alloc, symbols)
}
