// Groups operands and operators into a tree.
ghost use Rattle.std.specs.Prelude.{◌≡◌, map, length, IfOk};
ghost use Rattle.text_base.specs.Trees as plain;
ghost use Rattle.expr_tree.specs.Plain.{expr_of, unary_of, binary_of};
ghost use Rattle.group77.specs.Grouping as grouping;
ghost use Rattle.group77.specs.Groups.{symbols_left, reader_of, test_of, GivesAndLeaves};
ghost use Rattle.group77.specs.Symbol.{grammar_symbol, Gives};

use crate::build_error::BuildError;
use crate::feed::{Feed, Sort};
use crate::symbol::{Symbol, Symbols};
use expr_tree::{BinaryOp, Expr, UnaryOp};
use sqlite_items::Boxed;
use std::alloc::{AllocError, Global};

/// A rule of the grammar of expressions, from the one that binds closest (X3.9 section 6.5).
#[derive(Clone, Copy)]
enum Rule {
    Factor,
    Term,
    Signed,
    Sum,
    Concatenation,
    Relation,
    Negation,
    Conjunction,
    Disjunction,
    Equivalence,
}

/// The tree of a sign or `.NOT.` and its operand.
#[tactic(auto, using(expr_tree::proofs::Equations::expr_equations))]
fn unary(alloc: Global, op: UnaryOp, operand: Expr) -> Result<Expr, AllocError>
    ensures { IfOk result (λ x. expr_of x ≡ plain.unary (unary_of op) (expr_of operand)) }
{
    Ok(Expr::Unary(op, Boxed::new(alloc, operand)?))
}

/// The tree of an operator and its two operands.
#[tactic(auto, using(expr_tree::proofs::Equations::expr_equations))]
fn binary(alloc: Global, op: BinaryOp, left: Expr, right: Expr) -> Result<Expr, AllocError>
    ensures { IfOk result (λ x. expr_of x ≡ plain.binary (binary_of op) (expr_of left) (expr_of right)) }
{
    Ok(Expr::Binary(op, Boxed::new(alloc, left)?, Boxed::new(alloc, right)?))
}

/// The sign that an operator is.
fn sign_of(op: BinaryOp) -> UnaryOp
    ensures { unary_of result ≡ grouping.sign_of (binary_of op) }
{
    match op {
        BinaryOp::Plus => UnaryOp::Plus,
        _ => UnaryOp::Minus,
    }
}

/// Reads an operand, or an operand and a power of it; powers group from the right (X3.9 section 6.1.2).
#[tactic(auto, using(crate::proofs::FactorSteps::factor_steps))]
fn factor(alloc: Global, feed: &mut Feed) -> Result<Expr, BuildError>
    ensures { GivesAndLeaves result (symbols_left feed.new) (grouping.read_factor (symbols_left feed.old)) }
{
    let base = feed.take_operand()?;
    let Some(op) = feed.take_operator(Sort::Power) else {
        return Ok(base);
    };
    let exponent = factor(alloc, feed)?;
    Ok(binary(alloc, op, base, exponent)?)
}

/// Reads operands with operators of one sort between them, which group from the left.
#[cycle(rule)]
fn chain(
    alloc: Global,
    sort: Sort,
    first: Rule,
    next: Rule,
    feed: &mut Feed,
) -> Result<Expr, BuildError>
    ensures { GivesAndLeaves result (symbols_left feed.new) (grouping.read_chain (test_of sort) (reader_of first) (reader_of next) (symbols_left feed.old)) }
{
    let mut grouped = read(alloc, first, feed)?;
    for _ in 0..feed.len() {
        let Some(op) = feed.take_operator(sort) else {
            return Ok(grouped);
        };
        let operand = read(alloc, next, feed)?;
        grouped = binary(alloc, op, grouped, operand)?;
    }
    Ok(grouped)
}

/// Reads a term, which may have a sign before it (X3.9 section 6.1.2).
#[cycle(rule)]
#[tactic(auto, unfolding(crate::specs::Grouping::read_signed))]
fn signed(alloc: Global, feed: &mut Feed) -> Result<Expr, BuildError>
    ensures { GivesAndLeaves result (symbols_left feed.new) (grouping.read_signed (symbols_left feed.old)) }
{
    let Some(op) = feed.take_operator(Sort::Sum) else {
        return read(alloc, Rule::Term, feed);
    };
    let operand = read(alloc, Rule::Term, feed)?;
    Ok(unary(alloc, sign_of(op), operand)?)
}

/// Reads an operand, or two with a relation between them (X3.9 section 6.3).
#[cycle(rule)]
#[tactic(auto, unfolding(crate::specs::Grouping::read_relation))]
fn relation(alloc: Global, feed: &mut Feed) -> Result<Expr, BuildError>
    ensures { GivesAndLeaves result (symbols_left feed.new) (grouping.read_relation (symbols_left feed.old)) }
{
    let left = read(alloc, Rule::Concatenation, feed)?;
    let Some(op) = feed.take_operator(Sort::Relation) else {
        return Ok(left);
    };
    let right = read(alloc, Rule::Concatenation, feed)?;
    Ok(binary(alloc, op, left, right)?)
}

/// Reads a relation, which may have `.NOT.` before it (X3.9 section 6.4.2).
#[cycle(rule)]
#[tactic(auto, unfolding(crate::specs::Grouping::read_negation))]
fn negation(alloc: Global, feed: &mut Feed) -> Result<Expr, BuildError>
    ensures { GivesAndLeaves result (symbols_left feed.new) (grouping.read_negation (symbols_left feed.old)) }
{
    if !feed.take_not() {
        return read(alloc, Rule::Relation, feed);
    }
    let operand = read(alloc, Rule::Relation, feed)?;
    Ok(unary(alloc, UnaryOp::Not, operand)?)
}

/// Reads the front of what is left by a rule.
#[cycle(rule)]
#[tactic(auto, unfolding(crate::specs::Grouping::read_term, crate::specs::Grouping::read_sum, crate::specs::Grouping::read_concatenation, crate::specs::Grouping::read_conjunction, crate::specs::Grouping::read_disjunction, crate::specs::Grouping::read_equivalence))]
fn read(alloc: Global, rule: Rule, feed: &mut Feed) -> Result<Expr, BuildError>
    ensures { GivesAndLeaves result (symbols_left feed.new) (reader_of rule (symbols_left feed.old)) }
{
    match rule {
        Rule::Factor => factor(alloc, feed),
        Rule::Term => chain(alloc, Sort::Product, Rule::Factor, Rule::Factor, feed),
        Rule::Signed => signed(alloc, feed),
        Rule::Sum => chain(alloc, Sort::Sum, Rule::Signed, Rule::Term, feed),
        Rule::Concatenation => chain(alloc, Sort::Concat, Rule::Sum, Rule::Sum, feed),
        Rule::Relation => relation(alloc, feed),
        Rule::Negation => negation(alloc, feed),
        Rule::Conjunction => {
            chain(
                alloc,
                Sort::Conjunction,
                Rule::Negation,
                Rule::Negation,
                feed,
            )
        }
        Rule::Disjunction => chain(
            alloc,
            Sort::Disjunction,
            Rule::Conjunction,
            Rule::Conjunction,
            feed,
        ),
        Rule::Equivalence => chain(
            alloc,
            Sort::Equivalence,
            Rule::Disjunction,
            Rule::Disjunction,
            feed,
        ),
    }
}

/// The tree of one symbol, which is an operand.
#[tactic(auto, using(crate::proofs::GroupLaw::one_grouped))]
fn alone(mut symbols: Symbols) -> Result<Expr, BuildError>
    requires { length symbols ≡ 1 }
    ensures { Gives result (grouping.group (map grammar_symbol symbols)) }
{
    match symbols.pop() {
        Some(Symbol::Operand(operand)) => Ok(operand),
        _ => Err(BuildError::NotSpelled),
    }
}

/// The tree of operands and operators, by precedence (X3.9 section 6.5). `NotSpelled` where they are no expression. `Memory` may
/// come in place of either.
#[tactic(auto, unfolding(crate::specs::Grouping::group))]
pub fn group(alloc: Global, symbols: Symbols) -> Result<Expr, BuildError>
    ensures { Gives result (grouping.group (map grammar_symbol symbols)) }
{
    if symbols.len() == 1 {
        return alone(symbols);
    }
    let mut feed = Feed::new(alloc, symbols)?;
    let tree = read(alloc, Rule::Equivalence, &mut feed)?;
    if feed.is_empty() {
        Ok(tree)
    } else {
        Err(BuildError::NotSpelled)
    }
}
