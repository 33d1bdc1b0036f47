// The pass that finds what is refused of the nesting of statements.
ghost use Rattle.std.specs.Prelude.{◌≡◌, ℕ, ◌&&◌, ◌||◌, ◌≤◌, ◌<◌, not, nat_lt, suc, false, [], ◌∷◌, ◌++◌, if◌then◌else◌, All, IfOk, OnOk, fold, map, take, length};
ghost use Rattle.unit77.specs.Nesting.{names, named};
ghost use Rattle.unit77.specs.Running.{is_if, is_arm};
ghost use Rattle.unit77.specs.Refusals.{without, next, next_open, is_wrong, naming, strays, terminal_of, lacking, wrong, is_loop, has_if, loops, unended, at_end};
ghost use Rattle.unit77.specs.Units.{mark_strays, strays_where};
ghost use Rattle.unit77.specs.Checking.{opens, loops_from, with_ended, IsInnermost, IsEnded, open_of, IsSound};

use crate::limits::MOST_NESTED;
use crate::loops::{OpenLoop, OpenLoops};
use order77::{Fault, Mark, Sort, Stray};
use sqlite_items::Items;
use std::alloc::{AllocError, Global};

/// Whether a statement is a DO whose terminal statement has the label.
fn names(label: u32, sort: Sort) -> bool
    ensures { result ≡ names label sort }
{
    match sort {
        Sort::Do(terminal) => terminal == label,
        _ => false,
    }
}

/// Whether an arm may stand behind the statement's.
fn is_if(sort: Sort) -> bool
    ensures { result ≡ is_if sort }
{
    match sort {
        Sort::If | Sort::ElseIf => true,
        _ => false,
    }
}

/// Whether a statement begins an arm.
fn is_arm(sort: Sort) -> bool
    ensures { result ≡ is_arm sort }
{
    match sort {
        Sort::If | Sort::ElseIf | Sort::Else => true,
        _ => false,
    }
}

/// Whether a statement is a DO.
fn is_loop(sort: Sort) -> bool
    ensures { result ≡ is_loop sort }
{
    match sort {
        Sort::Do(_) => true,
        _ => false,
    }
}

/// The label of the terminal statement of a DO.
fn terminal_of(sort: Sort) -> u32
    ensures { result ≡ terminal_of sort }
{
    match sort {
        Sort::Do(terminal) => terminal,
        _ => 0,
    }
}

/// A DO without terminal statement in its own list is refused.
fn lacking(mark: Mark) -> Stray
    ensures { result ≡ lacking mark }
{
    Stray {
        number: mark.number,
        fault: Fault::Terminal(terminal_of(mark.sort)),
    }
}

/// A statement that nests wrongly is refused.
fn wrong(mark: Mark) -> Stray
    ensures { result ≡ wrong mark }
{
    Stray {
        number: mark.number,
        fault: Fault::Nesting,
    }
}

/// Refuses a statement that nests wrongly.
fn refuse_wrong(is_wrong: bool, mark: Mark, strays: &mut Items<Stray>) -> Result<(), AllocError>
    ensures { OnOk result (strays.new ≡ strays.old ++ (if is_wrong then wrong mark ∷ [] else [])) }
{
    if is_wrong {
        strays.push(wrong(mark))?;
    }
    Ok(())
}

/// Refuses a construct behind which more are open than may be.
fn refuse_deep(count: usize, mark: Mark, strays: &mut Items<Stray>) -> Result<(), AllocError>
    ensures { OnOk result (strays.new ≡ strays.old ++ strays_where (nat_lt MOST_NESTED count) (record { number = mark.number; fault = Fault.Depth })) }
{
    if count > MOST_NESTED {
        strays.push(Stray {
            number: mark.number,
            fault: Fault::Depth,
        })?;
    }
    Ok(())
}

/// Takes the innermost open construct off the stack, with what was ended above it.
fn innermost(stack: &mut Items<Option<Mark>>) -> Option<Mark>
    ensures { IsInnermost stack.old result stack.new }
{
    while let Some(last) = stack.pop() {
        if last.is_some() {
            return last;
        }
    }
    None
}

/// Ends the DOs that name the label and inside which no other construct is open. `loops` are all that name it.
fn end_inner(
    label: u32,
    stack: &mut Items<Option<Mark>>,
    loops: &mut Items<OpenLoop>,
) -> Result<(), AllocError>
    requires { loops.old ≡ loops_from label 0 stack.old }
    ensures loops { OnOk result (loops.new ≡ loops_from label 0 stack.new) }
    ensures ended { OnOk result (IsEnded label stack.old stack.new) }
    ensures others { OnOk result (strays label (opens stack.new) ≡ naming label (opens stack.new)) }
{
    while let Some(mark) = innermost(stack) {
        if !names(label, mark.sort) {
            stack.push(Some(mark))?;
            return Ok(());
        }
        let _ended = loops.pop();
    }
    Ok(())
}

/// Ends DOs inside which another construct is open, and refuses them.
fn end_outer(
    loops: &[OpenLoop],
    stack: &mut Items<Option<Mark>>,
    strays: &mut Items<Stray>,
) -> Result<(), AllocError>
    requires { All (λ p. p.at < length stack.old) loops.now }
    ensures stack { OnOk result (stack.new ≡ fold with_ended stack.old loops.now) }
    ensures strays { OnOk result (strays.new ≡ strays.old ++ map (λ p. lacking p.mark) loops.now) }
{
    for open in loops {
        stack.set(open.at, None);
        strays.push(lacking(open.mark))?;
    }
    Ok(())
}

/// Refuses DOs without terminal statement in their own list.
fn refuse(loops: &[Mark], strays: &mut Items<Stray>) -> Result<(), AllocError>
    ensures { OnOk result (strays.new ≡ strays.old ++ map lacking loops.now) }
{
    for mark in loops {
        strays.push(lacking(*mark))?;
    }
    Ok(())
}

/// What is open at the end of a unit.
#[derive(Drop)]
struct AtEnd {
    /// The DOs, the innermost last.
    loops: Items<Mark>,
    /// How many of them END doesn't end.
    count: usize,
    /// Whether a block IF is open, or END has the label of a DO.
    is_refused: bool,
}

/// Looks through what is open at an END with the label.
fn look_at_end(alloc: Global, label: u32, stack: &[Option<Mark>]) -> Result<AtEnd, AllocError>
    ensures loops { IfOk result (λ a. a.loops ≡ loops (opens stack.now)) }
    ensures unended { IfOk result (λ a. take a.count a.loops ≡ unended label (opens stack.now)) }
    ensures within { IfOk result (λ a. a.count ≤ length a.loops) }
    ensures refused { IfOk result (λ a. a.is_refused ≡ (has_if (opens stack.now) || named label (opens stack.now))) }
{
    let mut loops = Items::new(alloc);
    let mut count = 0;
    let mut has_if = false;
    let mut is_named = false;
    for begun in stack {
        let Some(mark) = begun else {
            continue;
        };
        let is_name = names(label, mark.sort);
        if is_loop(mark.sort) {
            loops.push(*mark)?;
        } else {
            has_if = true;
        }
        if is_name {
            is_named = true;
        } else {
            count = loops.len();
        }
    }
    Ok(AtEnd {
        loops,
        count,
        is_refused: has_if || is_named,
    })
}

/// The constructs that are open behind the statements of a unit so far, and what is refused of their nesting.
#[derive(Drop)]
pub struct Checker {
    /// The constructs in the order in which they began. A DO that ended where another construct was open inside is `None`, until
    /// that has ended.
    pub stack: Items<Option<Mark>>,
    /// The open DOs by their labels.
    pub loops: OpenLoops,
    /// How many constructs are open.
    pub count: usize,
    /// What is refused, as it comes to light.
    pub strays: Items<Stray>,
}

impl Checker {
    /// Nothing is open.
    pub fn new(alloc: Global) -> Checker
        ensures open { open_of result ≡ [] }
        ensures strays { result.strays ≡ [] }
        ensures sound { IsSound 0 result }
    {
        Checker {
            stack: Items::new(alloc),
            loops: OpenLoops::new(alloc),
            count: 0,
            strays: Items::new(alloc),
        }
    }

    /// Refuses a statement for another cause.
    pub fn add(&mut self, stray: Stray) -> Result<(), AllocError>
        ensures strays { OnOk result (self.new.strays ≡ self.old.strays ++ stray ∷ []) }
        ensures others { OnOk result (open_of self.new ≡ open_of self.old) }
        ensures sound { OnOk result ((n : ℕ) → IsSound n self.old → IsSound n self.new) }
    {
        self.strays.push(stray)
    }

    /// Ends the DOs that name the statement's label.
    fn end_loops(&mut self, alloc: Global, mark: Mark, may_end: bool) -> Result<(), AllocError>
        requires { IsSound mark.number self.old }
        ensures open { OnOk result (open_of self.new ≡ without mark.label (open_of self.old)) }
        ensures strays { OnOk result (self.new.strays ≡ self.old.strays ++ ((if not may_end && named mark.label (open_of self.old) then wrong mark ∷ [] else []) ++ map lacking (strays mark.label (open_of self.old)))) }
        ensures sound { OnOk result (IsSound mark.number self.new) }
    {
        let mut loops = self.loops.take(alloc, mark.label);
        self.count -= loops.len();
        let is_wrong = !may_end && loops.len() > 0;
        refuse_wrong(is_wrong, mark, &mut self.strays)?;
        end_inner(mark.label, &mut self.stack, &mut loops)?;
        end_outer(loops.as_slice(), &mut self.stack, &mut self.strays)
    }

    /// Begins a construct.
    fn begin(&mut self, alloc: Global, mark: Mark) -> Result<(), AllocError>
        requires { IsSound mark.number self.old }
        ensures open { OnOk result (open_of self.new ≡ mark ∷ open_of self.old) }
        ensures strays { OnOk result (self.new.strays ≡ self.old.strays ++ strays_where (nat_lt MOST_NESTED (suc (length (open_of self.old)))) (record { number = mark.number; fault = Fault.Depth })) }
        ensures sound { OnOk result (IsSound (suc mark.number) self.new) }
    {
        self.loops.note(alloc, self.stack.len(), mark)?;
        self.stack.push(Some(mark))?;
        self.count += 1;
        refuse_deep(self.count, mark, &mut self.strays)
    }

    /// Takes an ELSE IF or ELSE.
    fn part(&mut self, mark: Mark) -> Result<(), AllocError>
        requires sound { IsSound mark.number self.old }
        requires arm { is_loop mark.sort ≡ false }
        ensures open { OnOk result (open_of self.new ≡ next_open Sort.ElseIf mark (open_of self.old)) }
        ensures strays { OnOk result (self.new.strays ≡ self.old.strays ++ (if is_wrong Sort.ElseIf mark.label (open_of self.old) then wrong mark ∷ [] else [])) }
        ensures sound { OnOk result (IsSound mark.number self.new) }
    {
        let Some(head) = innermost(&mut self.stack) else {
            return self.strays.push(wrong(mark));
        };
        if is_if(head.sort) {
            return self.stack.push(Some(mark));
        }
        self.stack.push(Some(head))?;
        self.strays.push(wrong(mark))
    }

    /// Takes an END IF.
    fn close(&mut self, mark: Mark) -> Result<(), AllocError>
        requires { IsSound mark.number self.old }
        ensures open { OnOk result (open_of self.new ≡ next_open Sort.EndIf mark (open_of self.old)) }
        ensures strays { OnOk result (self.new.strays ≡ self.old.strays ++ (if is_wrong Sort.EndIf mark.label (open_of self.old) then wrong mark ∷ [] else [])) }
        ensures sound { OnOk result (IsSound mark.number self.new) }
    {
        let Some(head) = innermost(&mut self.stack) else {
            return self.strays.push(wrong(mark));
        };
        if is_arm(head.sort) {
            self.count -= 1;
            return Ok(());
        }
        self.stack.push(Some(head))?;
        self.strays.push(wrong(mark))
    }

    /// Takes the next statement of a unit but END.
    pub fn take(&mut self, alloc: Global, mark: Mark) -> Result<(), AllocError>
        requires sound { IsSound mark.number self.old }
        ensures open { OnOk result (open_of self.new ≡ next (open_of self.old) mark) }
        ensures strays { OnOk result (self.new.strays ≡ self.old.strays ++ mark_strays (open_of self.old) mark) }
        ensures sound { OnOk result (IsSound (suc mark.number) self.new) }
    {
        match mark.sort {
            Sort::Plain => self.end_loops(alloc, mark, true),
            Sort::Leaving => self.end_loops(alloc, mark, false),
            Sort::Do(_) | Sort::If => {
                self.end_loops(alloc, mark, false)?;
                self.begin(alloc, mark)
            }
            Sort::ElseIf | Sort::Else => self.part(mark),
            Sort::EndIf => self.close(mark),
        }
    }

    /// Takes the END of a unit. The next unit begins with nothing open.
    pub fn end(&mut self, alloc: Global, mark: Mark) -> Result<(), AllocError>
        ensures open { OnOk result (open_of self.new ≡ []) }
        ensures strays { OnOk result (self.new.strays ≡ self.old.strays ++ at_end (open_of self.old) mark) }
        ensures sound { OnOk result (IsSound (suc mark.number) self.new) }
    {
        let AtEnd {
            loops,
            count,
            is_refused,
        } = look_at_end(alloc, mark.label, self.stack.as_slice())?;
        refuse_wrong(is_refused, mark, &mut self.strays)?;
        let (unended, _) = loops.as_slice().split_at(count);
        refuse(unended, &mut self.strays)?;
        self.stack = Items::new(alloc);
        self.loops = OpenLoops::new(alloc);
        self.count = 0;
        Ok(())
    }

    /// Takes the end of the file in a unit without END.
    pub fn finish(&mut self, alloc: Global) -> Result<(), AllocError>
        ensures { OnOk result (self.new.strays ≡ self.old.strays ++ map lacking (loops (open_of self.old))) }
    {
        let AtEnd {
            loops,
            count: _,
            is_refused: _,
        } = look_at_end(alloc, 0, self.stack.as_slice())?;
        refuse(loops.as_slice(), &mut self.strays)
    }
}
