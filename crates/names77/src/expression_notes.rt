// What expressions and lists of items say of names.
ghost use Rattle.std.specs.Prelude.{◌≡◌, ◌∷◌, ◌++◌, [], map, OnOk};
ghost use Rattle.std.specs.Option.{option_map};
ghost use Rattle.expr_tree.specs.Plain.{expr_of, exprs_of, bound_of};
ghost use Rattle.tree77.specs.StatementPlain.{range_of, listed_of, listed_items};
ghost use Rattle.names77.specs.Notes as plain;
ghost use Rattle.names77.specs.Views.{shown_notes, shown_fact, shown_around};

use crate::notes::{Around, Fact, Note, Notes, is_among};
use expr_tree::Expr;
use sqlite_items::Boxed;
use std::alloc::AllocError;
use text_base::Name;
use tree77::{Listed77, Range77};

impl<'a> Fact<'a> {
    // What is said of a name before a list in parentheses, where this would be said of it alone.
    fn before_list(self, around: Around<'a>) -> Fact<'a>
        ensures { shown_fact result ≡ plain.before_list (shown_around around.entry) (shown_fact self.entry) }
    {
        match self {
            Fact::Equivalent | Fact::Initial | Fact::Variable => self,
            _ => Fact::Referred(around),
        }
    }

    // What is said of a name before a substring, where this would be said of it alone.
    fn before_substring(self) -> Fact<'a>
        ensures { shown_fact result ≡ plain.before_substring (shown_fact self.entry) }
    {
        match self {
            Fact::Equivalent | Fact::Initial => self,
            _ => Fact::Variable,
        }
    }
}

// ---- names

/// Adds what is said of a name.
#[tactic(auto, using(crate::proofs::NoteLemmas::note_steps))]
pub fn add_note<'a>(notes: &mut Notes<'a>, name: &'a Name, fact: Fact<'a>) -> Result<(), AllocError>
    ensures { OnOk result (shown_notes notes.new ≡ shown_notes notes.old ++ plain.note name.now (shown_fact fact.entry) ∷ []) }
{
    notes.push(Note {
        key: name.as_slice(),
        fact,
    })
}

// Adds what is said of a name alone.
fn name_notes<'a>(
    notes: &mut Notes<'a>,
    around: Around<'a>,
    fact: Fact<'a>,
    name: &'a Name,
) -> Result<(), AllocError>
    ensures { OnOk result (shown_notes notes.new ≡ shown_notes notes.old ++ plain.name_notes (shown_around around.entry) name.now (shown_fact fact.entry)) }
{
    match around {
        Around::Inside(_, dummies) if is_among(dummies, name.as_slice()) => Ok(()),
        _ => add_note(notes, name, fact),
    }
}

// Adds what is said of a name before a list; a dummy of a statement function has none.
fn head_notes<'a>(
    notes: &mut Notes<'a>,
    around: Around<'a>,
    fact: Fact<'a>,
    name: &'a Name,
) -> Result<(), AllocError>
    ensures { OnOk result (shown_notes notes.new ≡ shown_notes notes.old ++ plain.head_notes (shown_around around.entry) name.now (shown_fact fact.entry)) }
{
    match around {
        Around::Inside(_, dummies) if is_among(dummies, name.as_slice()) => {
            add_note(notes, name, Fact::Parameter(true))
        }
        _ => add_note(notes, name, fact.before_list(around)),
    }
}

// ---- expressions

/// Adds what an expression says, of which `fact` is said where it is a name alone.
#[cycle(expressions)]
#[tactic(auto, using(crate::proofs::NoteLemmas::expr_steps))]
pub fn expr_notes<'a>(
    notes: &mut Notes<'a>,
    around: Around<'a>,
    fact: Fact<'a>,
    expr: &'a Expr,
) -> Result<(), AllocError>
    ensures { OnOk result (shown_notes notes.new ≡ shown_notes notes.old ++ plain.expr_notes (shown_around around.entry) (shown_fact fact.entry) (expr_of expr.now)) }
{
    match expr {
        Expr::Int(_) => Ok(()),
        Expr::Bool(_) => Ok(()),
        Expr::Text(_) => Ok(()),
        Expr::Name(name) => name_notes(notes, around, fact, name),
        Expr::Call(name, items) => {
            head_notes(notes, around, fact, name)?;
            exprs_notes(
                notes,
                around,
                Fact::GivenTo(name.as_slice()),
                items.as_slice(),
            )
        }
        Expr::Substring(variable, from, to) => {
            expr_notes(notes, around, fact.before_substring(), variable.get())?;
            bound_notes(notes, around, from)?;
            bound_notes(notes, around, to)
        }
        Expr::Unary(_, operand) => expr_notes(notes, around, Fact::Valued, operand.get()),
        Expr::Binary(_, left, right) => {
            expr_notes(notes, around, Fact::Valued, left.get())?;
            expr_notes(notes, around, Fact::Valued, right.get())
        }
        Expr::Paren(inner) => expr_notes(notes, around, Fact::Valued, inner.get()),
    }
}

// Adds what expressions say, of which `fact` is said where one is a name alone.
#[cycle(expressions)]
#[tactic(auto, using(crate::proofs::NoteLemmas::note_steps))]
fn exprs_notes<'a>(
    notes: &mut Notes<'a>,
    around: Around<'a>,
    fact: Fact<'a>,
    exprs: &'a [Expr],
) -> Result<(), AllocError>
    ensures { OnOk result (shown_notes notes.new ≡ shown_notes notes.old ++ plain.exprs_notes (shown_around around.entry) (shown_fact fact.entry) (exprs_of (map expr_of exprs.now))) }
{
    for expr in exprs {
        expr_notes(notes, around, fact, expr)?;
    }
    Ok(())
}

// Adds what a bound of a substring says.
#[cycle(expressions)]
fn bound_notes<'a>(
    notes: &mut Notes<'a>,
    around: Around<'a>,
    bound: &'a Option<Boxed<Expr>>,
) -> Result<(), AllocError>
    ensures { OnOk result (shown_notes notes.new ≡ shown_notes notes.old ++ plain.bound_notes (shown_around around.entry) (bound_of (option_map expr_of bound.now))) }
{
    match bound {
        Some(bound) => expr_notes(notes, around, Fact::Valued, bound.get()),
        None => Ok(()),
    }
}

/// Adds what an expression says whose value is used.
pub fn value_notes<'a>(notes: &mut Notes<'a>, expr: &'a Expr) -> Result<(), AllocError>
    ensures { OnOk result (shown_notes notes.new ≡ shown_notes notes.old ++ plain.value_notes (expr_of expr.now)) }
{
    expr_notes(notes, Around::Elsewhere, Fact::Valued, expr)
}

/// Adds what an expression says whose value is used, where there is one.
pub fn option_notes<'a>(notes: &mut Notes<'a>, expr: &'a Option<Expr>) -> Result<(), AllocError>
    ensures { OnOk result (shown_notes notes.new ≡ shown_notes notes.old ++ plain.option_notes (option_map expr_of expr.now)) }
{
    match expr {
        Some(expr) => value_notes(notes, expr),
        None => Ok(()),
    }
}

// ---- lists of items

/// Adds what a DO variable and its values say: the first, the last, and the increment where there is one.
#[tactic(auto, using(crate::proofs::NoteLemmas::note_steps))]
pub fn counter_notes<'a>(
    notes: &mut Notes<'a>,
    counter: &'a Name,
    first: &'a Expr,
    last: &'a Expr,
    step: &'a Option<Expr>,
) -> Result<(), AllocError>
    ensures { OnOk result (shown_notes notes.new ≡ shown_notes notes.old ++ plain.range_notes (record { variable = counter.now; from = expr_of first.now; to = expr_of last.now; by = option_map expr_of step.now })) }
{
    add_note(notes, counter, Fact::Variable)?;
    value_notes(notes, first)?;
    value_notes(notes, last)?;
    option_notes(notes, step)
}

/// Adds what the values of a DO variable say.
pub fn range_notes<'a>(notes: &mut Notes<'a>, range: &'a Range77) -> Result<(), AllocError>
    ensures { OnOk result (shown_notes notes.new ≡ shown_notes notes.old ++ plain.range_notes (range_of range.now)) }
{
    counter_notes(notes, &range.variable, &range.from, &range.to, &range.by)
}

// Adds what an item of a list says, of which `fact` is said where it is a name alone.
#[cycle(items)]
#[tactic(auto, using(crate::proofs::NoteLemmas::listed_steps))]
fn listed_notes<'a>(
    notes: &mut Notes<'a>,
    fact: Fact<'a>,
    listed: &'a Listed77,
) -> Result<(), AllocError>
    ensures { OnOk result (shown_notes notes.new ≡ shown_notes notes.old ++ plain.listed_notes (shown_fact fact.entry) (listed_of listed.now)) }
{
    match listed {
        Listed77::Item(expr) => expr_notes(notes, Around::Elsewhere, fact, expr),
        Listed77::Loop(items, range) => {
            listeds_notes(notes, fact, items.as_slice())?;
            range_notes(notes, range.get())
        }
    }
}

/// Adds what the items of a list say, of which `fact` is said where one is a name alone.
#[cycle(items)]
#[tactic(auto, using(crate::proofs::NoteLemmas::note_steps))]
pub fn listeds_notes<'a>(
    notes: &mut Notes<'a>,
    fact: Fact<'a>,
    items: &'a [Listed77],
) -> Result<(), AllocError>
    ensures { OnOk result (shown_notes notes.new ≡ shown_notes notes.old ++ plain.listeds_notes (shown_fact fact.entry) (listed_items items.now)) }
{
    for item in items {
        listed_notes(notes, fact, item)?;
    }
    Ok(())
}
