// Statement functions are told from assignments to array elements.
ghost use Rattle.std.specs.Prelude.{◌≡◌, ◌∷◌, ◌++◌, ◌&&◌, ◌||◌, [], ℕ, not, map, IfOk, OnOk};
ghost use Rattle.text_base.specs.Trees as t;
ghost use Rattle.expr_tree.specs.Plain.{expr_of, exprs_of};
ghost use Rattle.tree77.specs.Statements as s;
ghost use Rattle.tree77.specs.StatementPlain.{statement_of};
ghost use Rattle.order77.specs.Counts.{counts_action, is_end};
ghost use Rattle.order77.specs.Names.{arrays, within};
ghost use Rattle.order77.specs.NameSets.{with_names, names_in};
ghost use Rattle.order77.specs.ReadViews.{reading_at, readings_from, readings_of};
ghost use Rattle.order77.specs.Settling.{are_names, names_among, has_form, as_function, arrays_ahead, is_text, functions, settled_as, settled};

use crate::counts::{counts_action, counts_as};
use crate::mark::Counts;
use crate::names::Names;
use crate::read::ReadStatement;
use expr_tree::{Expr, Exprs};
use sqlite_items::Items;
use std::alloc::{AllocError, Global};
use text_base::Name;
use tree77::{Names77, Statement77, Stmt77};

// ---- the form of a statement function

// Whether an expression is a name.
#[tactic(auto, using(expr_tree::proofs::Equations::expr_equations))]
fn is_name(expr: &Expr) -> bool
    ensures { result ≡ are_names (exprs_of (expr_of expr.now ∷ [])) }
{
    match expr {
        Expr::Name(_) => true,
        Expr::Int(_) => false,
        Expr::Bool(_) => false,
        Expr::Text(_) => false,
        Expr::Call(_, _) => false,
        Expr::Substring(_, _, _) => false,
        Expr::Unary(_, _) => false,
        Expr::Binary(_, _, _) => false,
        Expr::Paren(_) => false,
    }
}

// Whether all expressions are names.
fn are_names(exprs: &[Expr]) -> bool
    ensures { result ≡ are_names (exprs_of (map expr_of exprs.now)) }
{
    for expr in exprs {
        if !is_name(expr) {
            return false;
        }
    }
    true
}

// Whether a variable is a name, none of these arrays, with names in parentheses.
#[tactic(auto, using(expr_tree::proofs::Equations::expr_equations))]
fn is_headed(held: &Names, variable: &Expr) -> bool
    ensures { (value : t.Expr) → result ≡ has_form (names_in held.now) (s.simple (s.assign (expr_of variable.now) value)) }
{
    match variable {
        Expr::Call(name, arguments) => {
            !held.has(name.as_slice()) && are_names(arguments.as_slice())
        }
        Expr::Int(_) => false,
        Expr::Bool(_) => false,
        Expr::Text(_) => false,
        Expr::Name(_) => false,
        Expr::Substring(_, _, _) => false,
        Expr::Unary(_, _) => false,
        Expr::Binary(_, _, _) => false,
        Expr::Paren(_) => false,
    }
}

// Whether a statement has the form of a statement function whose name is none of these arrays.
fn has_form(held: &Names, statement: &Statement77) -> bool
    ensures { result ≡ has_form (names_in held.now) (statement_of statement.now) }
{
    match statement {
        Statement77::Simple(Stmt77::Assign(variable, _)) => is_headed(held, variable),
        _ => false,
    }
}

// Whether what a statement of a file spells has that form.
#[tactic(auto, using(crate::proofs::SettlingLemmas::text_steps))]
fn is_text(held: &Names, read: &ReadStatement) -> bool
    ensures { (n : ℕ) → result ≡ is_text (names_in held.now) (reading_at n read.now) }
{
    match &read.statement {
        Some(statement) => has_form(held, statement),
        None => false,
    }
}

// ---- which statements are statement functions

// Whether a statement counts as END.
fn is_end(counts: Counts) -> bool
    ensures { result ≡ is_end counts }
{
    counts == Counts::End
}

// Adds the arrays that a statement of a file declares.
#[tactic(auto, using(crate::proofs::SettlingLemmas::text_steps))]
fn add_arrays<'a>(held: &mut Names<'a>, read: &'a ReadStatement) -> Result<(), AllocError>
    ensures { OnOk result ((n : ℕ) → names_in held.new ≡ with_names (names_in held.old) (within arrays (reading_at n read.now))) }
{
    match &read.statement {
        Some(statement) => held.add_arrays(statement),
        None => Ok(()),
    }
}

// The arrays that are declared before the first END.
fn arrays_ahead<'a>(alloc: Global, statements: &'a [ReadStatement]) -> Result<Names<'a>, AllocError>
    ensures { IfOk result (λ names. (n : ℕ) → names_in names ≡ with_names [] (arrays_ahead (readings_from n statements.now))) }
{
    let mut held = Names::new(alloc);
    for read in statements {
        if is_end(counts_as(read)) {
            return Ok(held);
        }
        add_arrays(&mut held, read)?;
    }
    Ok(held)
}

// Whether a statement is a statement function, behind an executable statement of its unit or behind none.
fn is_function(is_executed: bool, held: &Names, read: &ReadStatement) -> bool
    ensures { (n : ℕ) → result ≡ (not is_executed && is_text (names_in held.now) (reading_at n read.now)) }
{
    !is_executed && is_text(held, read)
}

// Whether an executable statement stands before the next statement, behind one that is a statement function or none and isn't END.
fn executes(is_executed: bool, is_function: bool, counts: Counts) -> bool
    ensures { result ≡ (is_executed || (not is_function && counts_action counts)) }
{
    is_executed || (!is_function && counts_action(counts))
}

// Which statements are statement functions.
fn functions(alloc: Global, statements: &[ReadStatement]) -> Result<Vec<bool>, AllocError>
    ensures { IfOk result (λ flags. flags.items ≡ functions (readings_of statements.now)) }
{
    let mut flags = Vec::with_capacity(alloc, statements.len())?;
    let mut held = arrays_ahead(alloc, statements)?;
    let mut is_executed = false;
    for (i, read) in statements.iter().enumerate() {
        let counts = counts_as(read);
        if is_end(counts) {
            flags.push(false)?;
            held = arrays_ahead(alloc, &statements[i + 1..])?;
            is_executed = false;
        } else {
            let is_function = is_function(is_executed, &held, read);
            flags.push(is_function)?;
            is_executed = executes(is_executed, is_function, counts);
        }
    }
    Ok(flags)
}

// ---- statement functions in place of assignments

// Adds an expression that is a name.
#[tactic(auto, using(crate::proofs::UseLemmas::expr_steps))]
fn add_name(names: &mut Vec<Name>, expr: Expr) -> Result<(), AllocError>
    ensures { OnOk result (names.new.items ≡ names.old.items ++ names_among (exprs_of (expr_of expr ∷ []))) }
{
    match expr {
        Expr::Name(name) => {
            names.push(name)?;
            Ok(())
        }
        Expr::Int(_value) => Ok(()),
        Expr::Bool(_value) => Ok(()),
        Expr::Text(_value) => Ok(()),
        Expr::Call(_name, _arguments) => Ok(()),
        Expr::Substring(_variable, _from, _to) => Ok(()),
        Expr::Unary(_sign, _operand) => Ok(()),
        Expr::Binary(_operator, _left, _right) => Ok(()),
        Expr::Paren(_inner) => Ok(()),
    }
}

// The names among expressions.
fn names_among(alloc: Global, mut exprs: Exprs) -> Result<Names77, AllocError>
    ensures { IfOk result (λ names. names ≡ names_among (exprs_of (map expr_of exprs))) }
{
    let mut names = Vec::new(alloc);
    while let Some(expr) = exprs.pop() {
        add_name(&mut names, expr)?;
    }
    names.reverse();
    Ok(Items::from_vec(names))
}

// The statement function that has the form of an assignment. What isn't of the form stays an assignment.
#[tactic(auto, using(expr_tree::proofs::Equations::expr_equations))]
fn function_of(alloc: Global, variable: Expr, value: Expr) -> Result<Statement77, AllocError>
    ensures { IfOk result (λ made. statement_of made ≡ as_function (s.simple (s.assign (expr_of variable) (expr_of value)))) }
{
    match variable {
        Expr::Call(name, arguments) => {
            let dummies = names_among(alloc, arguments)?;
            Ok(Statement77::StmtFunction(name, dummies, value))
        }
        other => Ok(Statement77::Simple(Stmt77::Assign(other, value))),
    }
}

// The statement function in place of a statement that has its form. Another one stays as it is.
fn as_function(alloc: Global, statement: Statement77) -> Result<Statement77, AllocError>
    ensures { IfOk result (λ made. statement_of made ≡ as_function (statement_of statement)) }
{
    match statement {
        Statement77::Simple(Stmt77::Assign(variable, value)) => function_of(alloc, variable, value),
        other => Ok(other),
    }
}

// Puts a statement function in the place of an assignment, where it is one.
fn settle_one(alloc: Global, is_function: bool, read: &mut ReadStatement) -> Result<(), AllocError>
    ensures { OnOk result ((n : ℕ) → reading_at n read.new ≡ settled_as (is_function, reading_at n read.old)) }
{
    if is_function {
        if let Some(statement) = read.statement.take() {
            read.statement = Some(as_function(alloc, statement)?);
        }
    }
    Ok(())
}

/// The statements of a file, in which statement functions are told from assignments (X3.9 section 15.4): one with dummies has the
/// form of an assignment to an array element.
///
/// In: the statements of the file as they were read.
///
/// Out: the same statements; those of the form whose name no declaration of their unit makes an array, before the first executable
/// statement of their unit, are statement functions. It fails for want of memory alone.
pub fn settle(
    alloc: Global,
    mut statements: Vec<ReadStatement>,
) -> Result<Vec<ReadStatement>, AllocError>
    ensures { IfOk result (λ made. readings_of made.items ≡ settled (readings_of statements.items)) }
{
    let flags = functions(alloc, statements.as_slice())?;
    for (i, read) in statements.iter_mut().enumerate() {
        settle_one(alloc, flags[i], read)?;
    }
    Ok(statements)
}
