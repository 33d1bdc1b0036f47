// What is refused of the statements of a file.
ghost use Rattle.std.specs.Prelude.{ℕ, ◌≡◌, ◌∷◌, ◌++◌, [], map, IfOk, OnOk};
ghost use Rattle.std.specs.List.{list_all};
ghost use Rattle.text_base.specs.Trees.{assign, name};
ghost use Rattle.card_reader.specs.Deck.{card_of};
ghost use Rattle.expr_tree.specs.Plain.{expr_of, unary_of, binary_of};
ghost use Rattle.program77.specs.Built.{action, built_of, built_simple};
ghost use Rattle.tree77.specs.StatementPlain.{header_of, simple_of, statement_of};
ghost use Rattle.tree77.specs.Statements as s;
ghost use Rattle.order77.specs.ReadViews.{reading_at, readings_of};
ghost use Rattle.program77.specs.SourceReading.{read_of, reading_card};
ghost use Rattle.project_set.specs.Refusals.{is_sign, is_arithmetic, is_integer_function, is_built, is_built_statement, is_built_as, not_built_at, unbuilt_refusals};

use card_reader::Card;
use free_printer::is_short_assignment;
use order77::ReadStatement;
use parse77::shown;
use sqlite_items::Items;
use std::alloc::{AllocError, Global};
use text_base::{Cause, Name, Refusal, Refusals};
use tree77::{BinaryOp, Expr, Header77, Statement77, Stmt77, UnaryOp};
use value_ops::{gives_integer, intrinsic};

// Whether the operator gives an integer, of an integer.
fn is_sign(op: UnaryOp) -> bool
    ensures { result ≡ is_sign (unary_of op) }
{
    match op {
        UnaryOp::Plus => true,
        UnaryOp::Minus => true,
        UnaryOp::Not => false,
    }
}

// Whether the operator gives an integer, of integers.
fn is_arithmetic(op: BinaryOp) -> bool
    ensures { result ≡ is_arithmetic (binary_of op) }
{
    match op {
        BinaryOp::Power => true,
        BinaryOp::Times => true,
        BinaryOp::Over => true,
        BinaryOp::Plus => true,
        BinaryOp::Minus => true,
        _ => false,
    }
}

// Whether the name is that of an intrinsic function that gives an integer, of one integer or of two.
fn is_integer_function(name: &Name) -> bool
    ensures { result ≡ is_integer_function name.now }
{
    match intrinsic(name.as_slice()) {
        Some(op) => gives_integer(op, 1) || gives_integer(op, 2),
        None => false,
    }
}

// Whether the expression can be converted.
#[cycle(built)]
#[tactic(auto, using(expr_tree::proofs::Equations::expr_equations, crate::proofs::BuiltLemmas::built_each))]
fn is_built_expr(expr: &Expr) -> bool
    ensures { result ≡ is_built (expr_of expr.now) }
{
    match expr {
        Expr::Int(_) => true,
        Expr::Name(_) => true,
        Expr::Call(function, arguments) => {
            is_integer_function(function) && are_built_exprs(arguments.as_slice())
        }
        Expr::Unary(op, operand) => is_sign(*op) && is_built_expr(operand.get()),
        Expr::Binary(op, left, right) => {
            is_arithmetic(*op) && (is_built_expr(left.get()) && is_built_expr(right.get()))
        }
        Expr::Paren(inner) => is_built_expr(inner.get()),
        Expr::Bool(_) => false,
        Expr::Text(_) => false,
        Expr::Substring(_, _, _) => false,
    }
}

#[cycle(built)]
fn are_built_exprs(exprs: &[Expr]) -> bool
    ensures { result ≡ list_all (λ x. is_built (expr_of x)) exprs.now }
{
    for expr in exprs {
        if !is_built_expr(expr) {
            return false;
        }
    }
    true
}

// Whether the line that is written for the assignment is short enough is asked last, since it takes longest.
#[tactic(auto, using(expr_tree::proofs::Equations::expr_equations))]
fn is_variable_built(variable: &Name, value: &Expr) -> bool
    ensures { result ≡ is_built_statement (action (assign (name variable.now) (expr_of value.now))) }
{
    is_built_expr(value) && is_short_assignment(&Expr::Name(variable.copy()), value, 1)
}

// Whether the assignment can be converted.
#[tactic(auto, using(expr_tree::proofs::Equations::expr_equations))]
fn is_assignment_built(variable: &Expr, value: &Expr) -> bool
    ensures { result ≡ is_built_as (built_simple (s.assign (expr_of variable.now) (expr_of value.now))) }
{
    match variable {
        Expr::Name(name) => is_variable_built(name, value),
        Expr::Int(_) => false,
        Expr::Bool(_) => false,
        Expr::Text(_) => false,
        Expr::Call(_, _) => false,
        Expr::Substring(_, _, _) => false,
        Expr::Unary(_, _) => false,
        Expr::Binary(_, _, _) => false,
        Expr::Paren(_) => false,
    }
}

// Whether the simple statement can be converted. The line of STOP is short.
fn is_simple_built(statement: &Stmt77) -> bool
    ensures { result ≡ is_built_as (built_simple (simple_of statement.now)) }
{
    match statement {
        Stmt77::Assign(variable, value) => is_assignment_built(variable, value),
        Stmt77::Continue => true,
        Stmt77::Stop(None) => true,
        Stmt77::Stop(Some(_)) => false,
        Stmt77::Goto(_) => false,
        Stmt77::Computed(_, _) => false,
        Stmt77::Arithmetic(_, _, _, _) => false,
        Stmt77::Return => false,
        Stmt77::Call(_, _) => false,
        Stmt77::Read(_, _) => false,
        Stmt77::Write(_, _) => false,
        Stmt77::Print(_, _) => false,
        Stmt77::Open(_) => false,
        Stmt77::Close(_) => false,
        Stmt77::Rewind(_) => false,
    }
}

// Whether the header is a PROGRAM statement.
fn is_header_built(header: &Header77) -> bool
    ensures { result ≡ is_built_as (built_of (s.header (header_of header.now))) }
{
    match header {
        Header77::Program(_) => true,
        Header77::Subroutine(_, _) => false,
        Header77::Function(_, _, _) => false,
        Header77::BlockData(_) => false,
    }
}

// Whether the statement can be converted.
fn is_statement_built(statement: &Statement77) -> bool
    ensures { result ≡ is_built_as (built_of (statement_of statement.now)) }
{
    match statement {
        Statement77::Header(header) => is_header_built(header),
        Statement77::Simple(simple) => is_simple_built(simple),
        Statement77::End => true,
        Statement77::Declared(_) => false,
        Statement77::StmtFunction(_, _, _) => false,
        Statement77::Guarded(_, _) => false,
        Statement77::IfThen(_) => false,
        Statement77::ElseIf(_) => false,
        Statement77::Else => false,
        Statement77::EndIf => false,
        Statement77::Do(_, _) => false,
    }
}

// Whether a statement that was read has no label, and can be converted.
fn is_built(read: &ReadStatement) -> bool
    ensures { (n : ℕ) → result ≡ is_built_as (reading_card (reading_at n read.now)).spelled }
{
    if read.label != 0 || read.refusal.is_some() {
        return false;
    }
    match &read.statement {
        Some(statement) => is_statement_built(statement),
        None => false,
    }
}

// Appends the refusal of a card that can't be converted, which names its first characters.
fn refuse(alloc: Global, refusals: &mut Refusals, card: &Card) -> Result<(), AllocError>
    ensures { OnOk result (refusals.new ≡ refusals.old ++ not_built_at (card_of card.now) ∷ []) }
{
    let name = shown(alloc, card)?;
    refusals.push(Refusal {
        place: card.place,
        cause: Cause::NotBuilt,
        name,
    })?;
    Ok(())
}

/// The refusals of the statements that can't be converted, in their order.
///
/// In: the statements of a file as they stand there, and as they were read.
///
/// Out: a refusal for each that has a label, or isn't converted yet. It fails for want of memory alone.
pub fn unbuilt_refusals(
    alloc: Global,
    cards: &[Card],
    statements: &[ReadStatement],
) -> Result<Refusals, AllocError>
    requires { map reading_card (readings_of statements.now) ≡ map read_of (map card_of cards.now) }
    ensures { IfOk result (λ list. list ≡ unbuilt_refusals (map card_of cards.now)) }
{
    let mut refusals = Items::new(alloc);
    for (card, read) in cards.iter().zip(statements) {
        if !is_built(read) {
            refuse(alloc, &mut refusals, card)?;
        }
    }
    Ok(refusals)
}
