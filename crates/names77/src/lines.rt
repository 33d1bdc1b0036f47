// The statements of a unit in the order of the text.
ghost use Rattle.std.specs.Prelude.{◌≡◌, ◌≤◌, ◌∷◌, ◌++◌, if◌then◌else◌, map, take, drop, length, IfOk, OnOk};
ghost use Rattle.names77.specs.Text.{merged, text_of, first_lines, other_lines};
ghost use Rattle.names77.specs.Views.{shown_part, shown_line, shown_lines};
ghost use Rattle.unit77.specs.Tree.{first_line, flat, flat_arms};
ghost use Rattle.unit77.specs.UnitViews.{header_lines, declared_line, function_line, unit_of};
ghost use Rattle.unit77.specs.Views as view;
ghost use Rattle.unit77.specs.Views.{line, items_of, body_of, arm_of, parts_from, arms_from};

use expr_tree::Expr;
use sqlite_items::Items;
use std::alloc::{AllocError, Global};
use text_base::Place;
use tree77::{Declared77, Header77, Stmt77};
use unit77::{
    Arm77, Body77, DeclaredLine77, DoHead, EndIf, HeaderLine77, Item77, StmtFunction, Unit77,
};

/// A statement by itself, without those inside it.
#[derive(Clone, Copy)]
pub enum Part<'a> {
    Header(&'a Header77),
    Declared(&'a Declared77),
    Function(&'a StmtFunction),
    Simple(&'a Stmt77),
    Guarded(&'a Expr, &'a Stmt77),
    IfThen(&'a Expr),
    ElseIf(&'a Expr),
    Else,
    EndIf,
    Do(&'a DoHead),
}

/// A statement in its place, with its number and label.
#[derive(Clone, Copy)]
pub struct Line<'a> {
    pub number: u32,
    pub label: u32,
    pub place: Place,
    pub part: Part<'a>,
}

/// Statements one after another, which contracts see as the list.
pub type Lines<'a> = Items<Line<'a>>;

/// All statements of a unit but its END, in the order of the text.
///
/// A list of the unit is taken in its order. Declarations and statement functions stand among the executable statements by
/// their numbers. It fails for want of memory alone.
pub fn text_of<'a>(alloc: Global, unit: &'a Unit77) -> Result<Lines<'a>, AllocError>
    ensures { IfOk result (λ lines. shown_lines lines ≡ text_of (unit_of unit.now)) }
{
    let declared = declared_lines(alloc, unit.declared.as_slice())?;
    let functions = function_lines(alloc, unit.functions.as_slice())?;
    let mut executable = Items::new(alloc);
    add_items(&mut executable, unit.items.as_slice())?;
    let behind = merged(alloc, declared.as_slice(), functions.as_slice())?;
    let behind = merged(alloc, behind.as_slice(), executable.as_slice())?;
    let mut text = header_lines(alloc, &unit.header)?;
    text.append(behind)?;
    Ok(text)
}

// ---- the lists of a unit

// The header, where there is one.
fn header_lines<'a>(
    alloc: Global,
    header: &'a Option<HeaderLine77>,
) -> Result<Lines<'a>, AllocError>
    ensures { IfOk result (λ lines. shown_lines lines ≡ header_lines header.now) }
{
    let mut lines = Items::new(alloc);
    if let Some(header) = header {
        lines.push(Line {
            number: header.number,
            label: header.label,
            place: header.place,
            part: Part::Header(&header.header),
        })?;
    }
    Ok(lines)
}

// The declarations.
fn declared_lines<'a>(
    alloc: Global,
    declared: &'a [DeclaredLine77],
) -> Result<Lines<'a>, AllocError>
    ensures { IfOk result (λ lines. shown_lines lines ≡ map declared_line declared.now) }
{
    let mut lines = Items::new(alloc);
    for line in declared {
        lines.push(Line {
            number: line.number,
            label: line.label,
            place: line.place,
            part: Part::Declared(&line.declared),
        })?;
    }
    Ok(lines)
}

// The statement functions.
fn function_lines<'a>(alloc: Global, functions: &'a [StmtFunction]) -> Result<Lines<'a>, AllocError>
    ensures { IfOk result (λ lines. shown_lines lines ≡ map function_line functions.now) }
{
    let mut lines = Items::new(alloc);
    for function in functions {
        lines.push(Line {
            number: function.number,
            label: function.label,
            place: function.place,
            part: Part::Function(function),
        })?;
    }
    Ok(lines)
}

// ---- nested lists

// Where a statement stands: its number, its label and its place.
#[derive(Clone, Copy)]
struct Spot {
    number: u32,
    label: u32,
    place: Place,
}

// Where an arm would stand that an IF lacks.
const NO_ARM: Spot = Spot {
    number: 0,
    label: 0,
    place: Place { file: 0, line: 0 },
};

impl Spot {
    // Whether it is the same as another.
    fn is(self, other: Spot) -> bool
        ensures { result ≡ view.is_at self.number self.label self.place other.number other.label other.place }
    {
        other.number == self.number
            && other.label == self.label
            && other.place.file == self.place.file
            && other.place.line == self.place.line
    }

    // A statement that stands there.
    fn line<'a>(self, part: Part<'a>) -> Line<'a>
        ensures { shown_line result ≡ line self.number self.label self.place (shown_part part.entry) }
    {
        Line {
            number: self.number,
            label: self.label,
            place: self.place,
            part,
        }
    }
}

// The statement that an arm begins with: IF or, if another arm stands before it, ELSE IF; or ELSE.
fn arm_part<'a>(is_if: bool, test: &'a Option<Expr>) -> Part<'a>
    ensures { shown_part result ≡ view.arm_statement is_if test.now }
{
    match test {
        Some(test) => {
            if is_if {
                Part::IfThen(test)
            } else {
                Part::ElseIf(test)
            }
        }
        None => Part::Else,
    }
}

// The statement that an arm begins with. That of the first arm stands where the IF stands, and is an IF if the arm begins there.
#[tactic(auto, using(crate::proofs::NestedLemmas::arm_out))]
fn arm_line<'a>(at: Spot, is_first: bool, arm: &'a Arm77) -> Line<'a>
    ensures { shown_line result ≡ (if is_first then line at.number at.label at.place (view.arm_statement (view.is_at at.number at.label at.place (arm_of arm.now).number (arm_of arm.now).label (arm_of arm.now).place) (arm_of arm.now).test) else (view.later (arm_of arm.now)).head) }
{
    let here = Spot {
        number: arm.number,
        label: arm.label,
        place: arm.place,
    };
    if is_first {
        at.line(arm_part(at.is(here), &arm.test))
    } else {
        here.line(arm_part(false, &arm.test))
    }
}

// Adds the statements of items.
#[cycle(nested)]
fn add_items<'a>(lines: &mut Lines<'a>, items: &'a [Item77]) -> Result<(), AllocError>
    ensures { OnOk result (shown_lines lines.new ≡ shown_lines lines.old ++ flat (items_of items.now)) }
{
    for item in items {
        let at = Spot {
            number: item.number,
            label: item.label,
            place: item.place,
        };
        add_body(lines, at, &item.body)?;
    }
    Ok(())
}

// Adds the statements of an item that stands there.
#[cycle(nested)]
#[tactic(auto, using(crate::proofs::NestedLemmas::bodies))]
fn add_body<'a>(lines: &mut Lines<'a>, at: Spot, body: &'a Body77) -> Result<(), AllocError>
    ensures { OnOk result (shown_lines lines.new ≡ shown_lines lines.old ++ flat (body_of body.now at.number at.label at.place)) }
{
    match body {
        Body77::Simple(statement) => lines.push(at.line(Part::Simple(statement))),
        Body77::Guarded(test, statement) => {
            lines.push(at.line(Part::Guarded(test, statement.get())))
        }
        Body77::If(arms, end) => {
            add_arms(lines, at, arms.as_slice())?;
            lines.push(Line {
                number: end.number,
                label: end.label,
                place: end.place,
                part: Part::EndIf,
            })
        }
        Body77::Do(head, items) => {
            lines.push(at.line(Part::Do(head)))?;
            add_items(lines, items.as_slice())
        }
    }
}

// Adds the statements of the arms of an IF that stands there, but not its END IF. An IF has an arm; where one has none, ELSE
// stands for it.
#[cycle(nested)]
fn add_arms<'a>(lines: &mut Lines<'a>, at: Spot, arms: &'a [Arm77]) -> Result<(), AllocError>
    ensures { OnOk result (shown_lines lines.new ≡ shown_lines lines.old ++ first_line (arms_from (parts_from at.number at.label at.place (map arm_of arms.now))) ∷ flat_arms (arms_from (parts_from at.number at.label at.place (map arm_of arms.now)))) }
{
    if arms.is_empty() {
        return lines.push(NO_ARM.line(Part::Else));
    }
    for (index, arm) in arms.iter().enumerate() {
        lines.push(arm_line(at, index == 0, arm))?;
        add_items(lines, arm.items.as_slice())?;
    }
    Ok(())
}

// ---- merging

// How many statements don't stand behind a number.
fn count_before<'a>(lines: &[Line<'a>], number: u32) -> usize
    ensures first { shown_lines (take result lines.now) ≡ first_lines number (shown_lines lines.now) }
    ensures others { shown_lines (drop result lines.now) ≡ other_lines number (shown_lines lines.now) }
    ensures within { result ≤ length lines.now }
{
    let mut count = 0;
    for line in lines {
        if number < line.number {
            return count;
        }
        count += 1;
    }
    count
}

// Adds statements.
fn add_all<'a>(lines: &mut Lines<'a>, added: &[Line<'a>]) -> Result<(), AllocError>
    ensures { OnOk result (lines.new ≡ lines.old ++ added.now) }
{
    for line in added {
        lines.push(*line)?;
    }
    Ok(())
}

// Two lists, each in the order of the text, as one.
fn merged<'a>(
    alloc: Global,
    first: &[Line<'a>],
    second: &[Line<'a>],
) -> Result<Lines<'a>, AllocError>
    ensures { IfOk result (λ lines. shown_lines lines ≡ merged (shown_lines first.now) (shown_lines second.now)) }
{
    let mut lines = Items::new(alloc);
    let mut taken = 0;
    for line in second {
        let end = taken + count_before(&first[taken..], line.number);
        add_all(&mut lines, &first[taken..end])?;
        lines.push(*line)?;
        taken = end;
    }
    add_all(&mut lines, &first[taken..])?;
    Ok(lines)
}
