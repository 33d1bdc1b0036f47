// The symbols that are left to be grouped.
ghost use Rattle.std.specs.Prelude.{◌≡◌, ◌∷◌, ◌↔◌, [], map, length, slice_get, IfOk, IsTrue, MatchOption};
ghost use Rattle.std.specs.Option.{option_map};
ghost use Rattle.expr_tree.specs.Plain.{binary_of};
ghost use Rattle.group77.specs.Grouping as grouping;
ghost use Rattle.group77.specs.Groups as groups;
ghost use Rattle.group77.specs.Groups.{symbols_left, GivesAndLeaves};
ghost use Rattle.group77.specs.Symbol.{grammar_symbol};

use crate::build_error::BuildError;
use crate::stack::Stack;
use crate::symbol::{Symbol, Symbols};
use expr_tree::{BinaryOp, Expr};
use std::alloc::{AllocError, Global};

/// A sort of operators: those of one precedence (X3.9 section 6.5).
#[derive(Clone, Copy)]
pub enum Sort {
    Power,
    Product,
    Sum,
    Concat,
    Relation,
    Conjunction,
    Disjunction,
    Equivalence,
}

/// Whether an operator is one of the sort.
pub fn is_of(op: BinaryOp, sort: Sort) -> bool
    ensures { result ≡ groups.test_of sort (binary_of op) }
{
    match sort {
        Sort::Power => matches!(op, BinaryOp::Power),
        Sort::Product => matches!(op, BinaryOp::Times | BinaryOp::Over),
        Sort::Sum => matches!(op, BinaryOp::Plus | BinaryOp::Minus),
        Sort::Concat => matches!(op, BinaryOp::Concat),
        Sort::Relation => matches!(
            op,
            BinaryOp::Lt | BinaryOp::Le | BinaryOp::Eq | BinaryOp::Ne | BinaryOp::Gt | BinaryOp::Ge
        ),
        Sort::Conjunction => matches!(op, BinaryOp::And),
        Sort::Disjunction => matches!(op, BinaryOp::Or),
        Sort::Equivalence => matches!(op, BinaryOp::Eqv | BinaryOp::Neqv),
    }
}

/// The symbols that are left, the next one on top.
#[derive(Drop)]
pub struct Feed {
    symbols: Stack<Symbol>,
}

impl Feed {
    /// All symbols are left. It fails for want of memory alone.
    #[tactic(auto, unfolding(crate::specs::Groups::symbols_left))]
    pub fn new(alloc: Global, symbols: Symbols) -> Result<Feed, AllocError>
        ensures { IfOk result (λ feed. symbols_left feed ≡ map grammar_symbol symbols) }
    {
        Ok(Feed {
            symbols: Stack::from_items(alloc, symbols)?,
        })
    }

    /// How many symbols are left.
    #[tactic(auto, unfolding(crate::specs::Groups::symbols_left))]
    pub fn len(&self) -> usize
        ensures { result ≡ length (symbols_left self.now) }
    {
        self.symbols.len()
    }

    /// Whether no symbol is left.
    pub fn is_empty(&self) -> bool
        ensures { IsTrue result ↔ (symbols_left self.now ≡ []) }
    {
        self.symbols.is_empty()
    }

    /// The symbol that stands next.
    fn peek(&self) -> Option<&Symbol>
        ensures { option_map (λ s. grammar_symbol s.now) result ≡ slice_get (symbols_left self.now) 0 }
    {
        self.symbols.top()
    }

    /// Takes the symbol that stands next.
    fn take(&mut self) -> Option<Symbol>
        ensures { MatchOption result ((symbols_left self.old ≡ []) × (symbols_left self.new ≡ [])) (λ s. symbols_left self.old ≡ grammar_symbol s ∷ symbols_left self.new) }
    {
        self.symbols.pop()
    }

    /// The operator that stands next, if one does.
    fn operator_here(&self) -> Option<BinaryOp>
        ensures { option_map binary_of result ≡ groups.operator_here (symbols_left self.now) }
    {
        match self.peek()? {
            Symbol::Operator(op) => Some(*op),
            _ => None,
        }
    }

    /// Whether `.NOT.` stands next.
    fn is_at_not(&self) -> bool
        ensures { result ≡ groups.is_at_not (symbols_left self.now) }
    {
        matches!(self.peek(), Some(Symbol::Not))
    }

    /// Takes the operator that stands next, if it is one of the sort.
    pub fn take_operator(&mut self, sort: Sort) -> Option<BinaryOp>
        ensures { groups.OperatorTaken sort (symbols_left self.old) (option_map binary_of result) (symbols_left self.new) }
    {
        let op = self.operator_here()?;
        if !is_of(op, sort) {
            return None;
        }
        self.take();
        Some(op)
    }

    /// Takes `.NOT.`, if it stands next.
    pub fn take_not(&mut self) -> bool
        ensures { groups.NotTaken (symbols_left self.old) result (symbols_left self.new) }
    {
        let found = self.is_at_not();
        if found {
            self.take();
        }
        found
    }

    /// Takes the operand that stands next. `NotSpelled` where none stands there.
    pub fn take_operand(&mut self) -> Result<Expr, BuildError>
        ensures { GivesAndLeaves result (symbols_left self.new) (grouping.read_operand (symbols_left self.old)) }
    {
        match self.take() {
            Some(Symbol::Operand(operand)) => Ok(operand),
            _ => Err(BuildError::NotSpelled),
        }
    }
}
