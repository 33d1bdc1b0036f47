// The pass over the statements of a file that finds what is refused of their order, their nesting and their units.
ghost use Rattle.std.specs.Prelude.{◌≡◌, ℕ, ◌<◌, ◌^◌, ◌-◌, suc, false, [], ◌∷◌, ◌++◌, length, flat_map, List, IfOk, OnOk};
ghost use Rattle.std.specs.List.{list_any};
ghost use Rattle.std.specs.Option.{option_map};
ghost use Rattle.tree77.specs.StatementPlain.{statement_of};
ghost use Rattle.unit77.specs.Checking.{IsSound, open_of};
ghost use Rattle.order77.specs.Counts.{Reading, counts_as, is_end};
ghost use Rattle.order77.specs.Names.{is_among, as_list, jumps, uses, constants};
ghost use Rattle.order77.specs.NameSets.{names_in, labels_in, with_names, with_labels};
ghost use Rattle.unit77.specs.Passing.{IsNoted, IsPass, IsGoing};
ghost use Rattle.order77.specs.ReadViews.{reading_at, readings_of};
ghost use Rattle.unit77.specs.Units as plain;
ghost use Rattle.unit77.specs.Units.{is_out_of_order, missing, nesting_strays, open_behind, strays_at, strays_where, end_strays};

use crate::checker::Checker;
use crate::limits::MOST_LABELS;
use order77::{
    Counts, Fault, Labels, Mark, Names, ReadStatement, Sort, Standing, Stray, counts_as,
    first_standing, is_misplaced, next_standing, sort_in,
};
use sqlite_items::Items;
use std::alloc::{AllocError, Global};
use tree77::Statement77;

/// Whether it is END.
fn is_end(counts: Counts) -> bool
    ensures { result ≡ is_end counts }
{
    counts == Counts::End
}

/// Whether a PARAMETER, if it is one, gives a value to a name that was used.
fn is_late(used: &Names, statement: &Option<Statement77>) -> bool
    ensures { result ≡ list_any (is_among (names_in used.now)) (flat_map constants (as_list (option_map statement_of statement.now))) }
{
    match statement {
        Some(statement) => used.is_late(statement),
        None => false,
    }
}

/// Adds the names whose values a statement uses.
fn add_uses<'a>(used: &mut Names<'a>, statement: &'a Option<Statement77>) -> Result<(), AllocError>
    ensures { OnOk result (names_in used.new ≡ with_names (names_in used.old) (flat_map uses (as_list (option_map statement_of statement.now)))) }
{
    match statement {
        Some(statement) => used.add_uses(statement),
        None => Ok(()),
    }
}

/// Adds the labels that the jumps of a statement name.
fn add_jumps(targets: &mut Labels, statement: &Option<Statement77>) -> Result<(), AllocError>
    ensures { OnOk result (labels_in targets.new ≡ with_labels (labels_in targets.old) (flat_map jumps (as_list (option_map statement_of statement.now)))) }
{
    match statement {
        Some(statement) => targets.add_jumps(statement),
        None => Ok(()),
    }
}

/// Refuses a statement, where it is wrong.
fn refuse(checker: &mut Checker, is_wrong: bool, stray: Stray) -> Result<(), AllocError>
    ensures strays { OnOk result (checker.new.strays ≡ checker.old.strays ++ strays_where is_wrong stray) }
    ensures others { OnOk result (open_of checker.new ≡ open_of checker.old) }
    ensures sound { OnOk result ((n : ℕ) → IsSound n checker.old → IsSound n checker.new) }
{
    if is_wrong {
        checker.add(stray)?;
    }
    Ok(())
}

/// Goes on behind a statement, which is nested where it has a sort.
fn nest(
    checker: &mut Checker,
    alloc: Global,
    number: u32,
    label: u32,
    sort: Option<Sort>,
) -> Result<(), AllocError>
    requires { IsSound number checker.old }
    ensures open { OnOk result ((r : Reading) → r.number ≡ number → r.label ≡ label → open_of checker.new ≡ open_behind sort (open_of checker.old) r) }
    ensures strays { OnOk result ((r : Reading) → r.number ≡ number → r.label ≡ label → checker.new.strays ≡ checker.old.strays ++ nesting_strays sort (open_of checker.old) r) }
    ensures sound { OnOk result (IsSound (suc number) checker.new) }
{
    match sort {
        Some(sort) => checker.take(
            alloc,
            Mark {
                number,
                label,
                sort,
            },
        ),
        None => Ok(()),
    }
}

/// What the pass keeps of the statements of a unit so far.
#[derive(Drop)]
struct Pass<'a> {
    standing: Standing,
    /// The names whose values were used.
    used: Names<'a>,
    /// The labels that jumps name.
    targets: Labels,
    checker: Checker,
}

impl<'a> Pass<'a> {
    /// No statement of a unit stands before.
    fn new(alloc: Global) -> Pass<'a>
        ensures pass { IsPass [] result }
        ensures strays { result.checker.strays ≡ [] }
        ensures sound { IsSound 0 result.checker }
    {
        Pass {
            standing: first_standing(),
            used: Names::new(alloc),
            targets: Labels::new(alloc),
            checker: Checker::new(alloc),
        }
    }

    /// Whether the next statement, which counts as this, stands where it may not stand.
    fn is_out_of_order(&self, counts: Counts, read: &ReadStatement) -> bool
        ensures { (n : ℕ) (before : List Reading) → IsNoted before self.now → counts_as (reading_at n read.now) ≡ counts → result ≡ is_out_of_order before (reading_at n read.now) }
    {
        is_misplaced(self.standing, counts) || is_late(&self.used, &read.statement)
    }

    /// Goes on behind the next statement, which counts as this and isn't END, but for its nesting.
    fn note(&mut self, counts: Counts, read: &'a ReadStatement) -> Result<(), AllocError>
        ensures noted { OnOk result ((n : ℕ) (before : List Reading) → IsNoted before self.old → counts_as (reading_at n read.now) ≡ counts → is_end counts ≡ false → IsNoted (before ++ reading_at n read.now ∷ []) self.new) }
        ensures others { OnOk result (self.new.checker ≡ self.old.checker) }
    {
        self.standing = next_standing(self.standing, counts);
        add_uses(&mut self.used, &read.statement)?;
        add_jumps(&mut self.targets, &read.statement)
    }

    /// Takes the next statement, which isn't END.
    fn take(
        &mut self,
        alloc: Global,
        number: u32,
        read: &'a ReadStatement,
    ) -> Result<(), AllocError>
        requires { IsSound number self.old.checker }
        ensures strays { OnOk result ((before : List Reading) → IsPass before self.old → is_end (counts_as (reading_at number read.now)) ≡ false → self.new.checker.strays ≡ self.old.checker.strays ++ strays_at before (reading_at number read.now)) }
        ensures pass { OnOk result ((before : List Reading) → IsPass before self.old → is_end (counts_as (reading_at number read.now)) ≡ false → IsPass (before ++ reading_at number read.now ∷ []) self.new) }
        ensures sound { OnOk result (IsSound (suc number) self.new.checker) }
    {
        let counts = counts_as(read);
        let is_wrong = self.is_out_of_order(counts, read);
        refuse(
            &mut self.checker,
            is_wrong,
            Stray {
                number,
                fault: Fault::Order,
            },
        )?;
        self.note(counts, read)?;
        nest(
            &mut self.checker,
            alloc,
            number,
            read.label,
            sort_in(counts),
        )?;
        Ok(())
    }

    /// Takes END.
    fn end(&mut self, alloc: Global, number: u32, read: &ReadStatement) -> Result<(), AllocError>
        ensures strays { OnOk result ((before : List Reading) → IsPass before self.old → self.new.checker.strays ≡ self.old.checker.strays ++ end_strays before (reading_at number read.now)) }
        ensures pass { OnOk result (IsPass [] self.new) }
        ensures sound { OnOk result (IsSound (suc number) self.new.checker) }
    {
        let mark = Mark {
            number,
            label: read.label,
            sort: Sort::Leaving,
        };
        self.checker.end(alloc, mark)?;
        let are_many = self.targets.count() > MOST_LABELS;
        let stray = Stray {
            number,
            fault: Fault::Labels,
        };
        refuse(&mut self.checker, are_many, stray)?;
        self.standing = first_standing();
        self.used = Names::new(alloc);
        self.targets = Labels::new(alloc);
        Ok(())
    }

    /// Takes the next statement.
    fn step(
        &mut self,
        alloc: Global,
        number: u32,
        read: &'a ReadStatement,
    ) -> Result<(), AllocError>
        requires { IsSound number self.old.checker }
        ensures going { OnOk result ((all : List Stray) (n : ℕ) (left : List Reading) → IsGoing all n (reading_at number read.now ∷ left) self.old → IsGoing all number left self.new) }
        ensures sound { OnOk result (IsSound (suc number) self.new.checker) }
    {
        if is_end(counts_as(read)) {
            self.end(alloc, number, read)?;
            Ok(())
        } else {
            self.take(alloc, number, read)?;
            Ok(())
        }
    }

    /// Takes the end of the file, behind the statement with this number.
    fn finish(&mut self, alloc: Global, number: u32) -> Result<(), AllocError>
        ensures { OnOk result ((before : List Reading) → IsPass before self.old → self.new.checker.strays ≡ self.old.checker.strays ++ missing before number) }
    {
        if self.standing.is_first {
            return Ok(());
        }
        self.checker.finish(alloc)?;
        self.checker.add(Stray {
            number,
            fault: Fault::MissingEnd,
        })
    }
}

/// The statements of a file that are refused for their order, their nesting or their units, in the order in which they come to
/// light.
pub fn file_strays(alloc: Global, statements: &[ReadStatement]) -> Result<Items<Stray>, AllocError>
    requires room { length statements.now < 2 ^ 32 - 1 }
    ensures { IfOk result (λ made. made ≡ plain.file_strays (readings_of statements.now)) }
{
    let mut pass = Pass::new(alloc);
    let mut last = 0;
    let mut number = 0;
    for read in statements {
        pass.step(alloc, number, read)?;
        last = number;
        number += 1;
    }
    pass.finish(alloc, last)?;
    let Pass { checker, .. } = pass;
    let Checker { strays, .. } = checker;
    Ok(strays)
}
