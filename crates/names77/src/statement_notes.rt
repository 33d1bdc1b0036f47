// What statements say of names.
ghost use Rattle.std.specs.Prelude.{◌≡◌, ◌++◌, map, flat_map, IfOk, OnOk};
ghost use Rattle.expr_tree.specs.Plain.{expr_of};
ghost use Rattle.tree77.specs.StatementPlain.{unit_ref_of, control_of, file_control_of, read_by_of, simple_of};
ghost use Rattle.unit77.specs.Views.{range_of_head};
ghost use Rattle.names77.specs.Notes as plain;
ghost use Rattle.names77.specs.Views.{shown_notes, shown_line, shown_lines};

use crate::declared_notes::{declared_notes, function_notes, header_notes};
use crate::expression_notes::{
    add_note, counter_notes, expr_notes, listeds_notes, option_notes, value_notes,
};
use crate::lines::{Line, Part};
use crate::notes::{Around, Fact, Notes};
use expr_tree::Expr;
use sqlite_items::Items;
use std::alloc::{AllocError, Global};
use text_base::Name;
use tree77::{Control77, FileControl77, ReadBy77, Stmt77, UnitRef77};
use unit77::DoHead;

// ---- input and output

// Adds what a unit of input and output says.
fn unit_notes<'a>(notes: &mut Notes<'a>, unit: &'a UnitRef77) -> Result<(), AllocError>
    ensures { OnOk result (shown_notes notes.new ≡ shown_notes notes.old ++ plain.unit_notes (unit_ref_of unit.now)) }
{
    match unit {
        UnitRef77::Star => Ok(()),
        UnitRef77::Given(expr) => value_notes(notes, expr),
    }
}

// Adds that a name is a variable, where there is one.
fn variable_notes<'a>(notes: &mut Notes<'a>, name: &'a Option<Name>) -> Result<(), AllocError>
    ensures { OnOk result (shown_notes notes.new ≡ shown_notes notes.old ++ plain.variable_notes name.now) }
{
    match name {
        Some(name) => add_note(notes, name, Fact::Variable),
        None => Ok(()),
    }
}

// Adds what the control list of a READ or WRITE says.
#[tactic(auto, using(crate::proofs::NoteLemmas::note_steps))]
fn control_notes<'a>(notes: &mut Notes<'a>, control: &'a Control77) -> Result<(), AllocError>
    ensures { OnOk result (shown_notes notes.new ≡ shown_notes notes.old ++ plain.control_notes (control_of control.now)) }
{
    unit_notes(notes, &control.unit)?;
    variable_notes(notes, &control.iostat)
}

// Adds what directs a READ says.
fn read_notes<'a>(notes: &mut Notes<'a>, by: &'a ReadBy77) -> Result<(), AllocError>
    ensures { OnOk result (shown_notes notes.new ≡ shown_notes notes.old ++ plain.read_notes (read_by_of by.now)) }
{
    match by {
        ReadBy77::Control(control) => control_notes(notes, control),
        ReadBy77::Format(_) => Ok(()),
    }
}

// Adds what the control list of an OPEN, CLOSE or REWIND says.
#[tactic(auto, using(crate::proofs::NoteLemmas::note_steps))]
fn file_notes<'a>(notes: &mut Notes<'a>, control: &'a FileControl77) -> Result<(), AllocError>
    ensures { OnOk result (shown_notes notes.new ≡ shown_notes notes.old ++ plain.file_notes (file_control_of control.now)) }
{
    value_notes(notes, &control.unit)?;
    option_notes(notes, &control.file)?;
    option_notes(notes, &control.status)?;
    variable_notes(notes, &control.iostat)
}

// ---- statements

// Adds what the actual arguments of a subroutine say.
#[tactic(auto, using(crate::proofs::NoteLemmas::note_steps))]
fn actual_notes<'a>(notes: &mut Notes<'a>, actuals: &'a [Expr]) -> Result<(), AllocError>
    ensures { OnOk result (shown_notes notes.new ≡ shown_notes notes.old ++ flat_map (plain.expr_notes plain.elsewhere plain.given) (map expr_of actuals.now)) }
{
    for actual in actuals {
        expr_notes(notes, Around::Elsewhere, Fact::Given, actual)?;
    }
    Ok(())
}

// Adds what a simple statement says.
#[tactic(auto, using(crate::proofs::NoteLemmas::note_steps))]
fn simple_notes<'a>(notes: &mut Notes<'a>, statement: &'a Stmt77) -> Result<(), AllocError>
    ensures { OnOk result (shown_notes notes.new ≡ shown_notes notes.old ++ plain.simple_notes (simple_of statement.now)) }
{
    match statement {
        Stmt77::Assign(variable, value) => {
            expr_notes(notes, Around::Elsewhere, Fact::Variable, variable)?;
            value_notes(notes, value)
        }
        Stmt77::Computed(_, value) | Stmt77::Arithmetic(value, _, _, _) => {
            value_notes(notes, value)
        }
        Stmt77::Call(name, actuals) => {
            add_note(notes, name, Fact::Subroutine)?;
            actual_notes(notes, actuals.as_slice())
        }
        Stmt77::Read(by, items) => {
            read_notes(notes, by.get())?;
            listeds_notes(notes, Fact::Variable, items.as_slice())
        }
        Stmt77::Write(control, items) => {
            control_notes(notes, control.get())?;
            listeds_notes(notes, Fact::Valued, items.as_slice())
        }
        Stmt77::Print(_, items) => listeds_notes(notes, Fact::Valued, items.as_slice()),
        Stmt77::Open(control) | Stmt77::Close(control) | Stmt77::Rewind(control) => {
            file_notes(notes, control.get())
        }
        Stmt77::Goto(_) | Stmt77::Continue | Stmt77::Return | Stmt77::Stop(_) => Ok(()),
    }
}

// Adds what a DO says.
fn head_notes<'a>(notes: &mut Notes<'a>, head: &'a DoHead) -> Result<(), AllocError>
    ensures { OnOk result (shown_notes notes.new ≡ shown_notes notes.old ++ plain.range_notes (range_of_head head.now)) }
{
    counter_notes(notes, &head.var, &head.from, &head.to, &head.by)
}

/// Adds what a statement says of names, in the order of the text.
#[tactic(auto, using(crate::proofs::NoteLemmas::note_steps))]
pub fn line_notes<'a>(notes: &mut Notes<'a>, line: Line<'a>) -> Result<(), AllocError>
    ensures { OnOk result (shown_notes notes.new ≡ shown_notes notes.old ++ plain.line_notes (shown_line line.entry)) }
{
    match line.part {
        Part::Header(header) => header_notes(notes, header),
        Part::Declared(declared) => declared_notes(notes, declared),
        Part::Function(function) => function_notes(notes, function),
        Part::Simple(statement) => simple_notes(notes, statement),
        Part::Guarded(test, statement) => {
            value_notes(notes, test)?;
            simple_notes(notes, statement)
        }
        Part::IfThen(test) | Part::ElseIf(test) => value_notes(notes, test),
        Part::Else | Part::EndIf => Ok(()),
        Part::Do(head) => head_notes(notes, head),
    }
}

/// What statements say of names, in the order of the text. It fails for want of memory alone.
#[tactic(auto, using(crate::proofs::NoteLemmas::note_steps))]
pub fn notes_of<'a>(alloc: Global, lines: &[Line<'a>]) -> Result<Notes<'a>, AllocError>
    ensures { IfOk result (λ notes. shown_notes notes ≡ plain.notes_of (shown_lines lines.now)) }
{
    let mut notes = Items::new(alloc);
    for line in lines {
        line_notes(&mut notes, *line)?;
    }
    Ok(notes)
}
