// The pass that nests.
ghost use Rattle.std.specs.Prelude.{◌≡◌, ◌∷◌, true, false, OnOk};
ghost use Rattle.unit77.specs.Nesting.{names, mark, sort, is_executable};
ghost use Rattle.unit77.specs.Running.{state, step, join, start, ended, parted, closed, heads, fits, may_part, may_close};
ghost use Rattle.unit77.specs.Tree.{done, loop};
ghost use Rattle.unit77.specs.Views as view;
ghost use Rattle.unit77.specs.Views.{line, state_of, stack_of, items_of, item_of, body_of, arm_of, open_of, arms_in, head_in, arm_statement};
ghost use Rattle.tree77.specs.StatementPlain.{range_of, statement_of};
ghost use Rattle.tree77.specs.Statements as s;

use crate::tree::{Arm77, Arms77, Body77, DoHead, EndIf, Item77, Items77};
use expr_tree::Expr;
use sqlite_items::Items;
use std::alloc::{AllocError, Global};
use std::mem;
use text_base::Place;
use tree77::{Range77, Statement77};

/// Where a statement stands: its number, its label and its place.
#[derive(Clone, Copy)]
pub struct Spot {
    pub number: u32,
    pub label: u32,
    pub place: Place,
}

/// What an open list belongs to: a DO; or a block IF with its earlier arms, and where its open arm begins, with its condition.
#[derive(Drop)]
pub enum Construct {
    Do(DoHead),
    If(Arms77, Spot, Option<Expr>),
}

/// An open construct: the list that it stands in, where it begins, and what it is.
#[derive(Drop)]
pub struct Open {
    pub before: Items77,
    pub at: Spot,
    pub construct: Construct,
}

/// The list that grows, and the constructs that it stands in, the innermost last.
#[derive(Drop)]
pub struct Nester {
    pub items: Items77,
    pub open: Items<Open>,
}

/// A DO statement.
fn do_head(terminal: u32, range: Range77) -> DoHead
    ensures { view.do_statement result ≡ s.do_ terminal (range_of range) }
{
    DoHead {
        terminal,
        var: range.variable,
        from: range.from,
        to: range.to,
        by: range.by,
    }
}

/// Whether a construct is a DO whose terminal statement has the label.
fn is_named(label: u32, last: &Open) -> bool
    ensures { result ≡ names label (sort (open_of last.now).head) }
{
    match &last.construct {
        Construct::Do(head) => head.terminal == label,
        Construct::If(_, _, _) => false,
    }
}

/// An item in its place.
#[tactic(auto, using(crate::proofs::Plains::item_is))]
fn item(at: Spot, body: Body77) -> Item77
    ensures { item_of result ≡ body_of body at.number at.label at.place }
{
    Item77 {
        number: at.number,
        label: at.label,
        place: at.place,
        body,
    }
}

/// An arm in its place.
#[tactic(auto, using(crate::proofs::Plains::arm_is))]
fn arm(at: Spot, test: Option<Expr>, items: Items77) -> Arm77
    ensures { arm_of result ≡ record { number = at.number; label = at.label; place = at.place; test = test; items = items_of items } }
{
    Arm77 {
        number: at.number,
        label: at.label,
        place: at.place,
        test,
        items,
    }
}

/// An END IF in its place.
pub(crate) fn end_if(at: Spot) -> EndIf
    ensures { result ≡ record { number = at.number; label = at.label; place = at.place } }
{
    EndIf {
        number: at.number,
        label: at.label,
        place: at.place,
    }
}

#[tactic(auto, using(crate::proofs::Plains::pushes))]
impl Nester {
    /// No statement has been taken.
    pub fn new(alloc: Global) -> Nester
        ensures { state_of result ≡ start }
    {
        Nester {
            items: Items::new(alloc),
            open: Items::new(alloc),
        }
    }

    /// Begins a construct.
    fn enter(&mut self, alloc: Global, at: Spot, construct: Construct) -> Result<(), AllocError>
        ensures { OnOk result (state_of self.new ≡ state done (record { before = items_of self.old.items; arms = arms_in at construct; head = head_in at construct } ∷ stack_of self.old.open)) }
    {
        let before = mem::replace(&mut self.items, Items::new(alloc));
        self.open.push(Open {
            before,
            at,
            construct,
        })
    }

    /// Ends an arm, and begins the next.
    fn part(&mut self, alloc: Global, at: Spot, test: Option<Expr>) -> Result<(), AllocError>
        requires { may_part (heads (stack_of self.old.open)) ≡ true }
        ensures { OnOk result (state_of self.new ≡ parted (line at.number at.label at.place (arm_statement false test)) (items_of self.old.items) (stack_of self.old.open)) }
    {
        let Some(
            Open {
                before,
                at: first,
                construct,
            },
        ) = self.open.pop()
        else {
            return Ok(());
        };
        let Construct::If(mut arms, here, last) = construct else {
            return Ok(());
        };
        let items = mem::replace(&mut self.items, Items::new(alloc));
        arms.push(arm(here, last, items))?;
        self.open.push(Open {
            before,
            at: first,
            construct: Construct::If(arms, at, test),
        })
    }

    /// Ends an IF.
    fn close(&mut self, at: Spot) -> Result<(), AllocError>
        requires { may_close (heads (stack_of self.old.open)) ≡ true }
        ensures { OnOk result (state_of self.new ≡ closed (line at.number at.label at.place s.end_if) (items_of self.old.items) (stack_of self.old.open)) }
    {
        let Some(
            Open {
                before,
                at: first,
                construct,
            },
        ) = self.open.pop()
        else {
            return Ok(());
        };
        let Construct::If(mut arms, here, last) = construct else {
            return Ok(());
        };
        let items = mem::replace(&mut self.items, before);
        arms.push(arm(here, last, items))?;
        self.items.push(item(first, Body77::If(arms, end_if(at))))
    }

    /// Ends a DO.
    fn end(&mut self, last: Open, label: u32) -> Result<(), AllocError>
        requires { names label (sort (open_of last).head) ≡ true }
        ensures items { OnOk result (items_of self.new.items ≡ join (items_of last.before) (loop (open_of last).head (items_of self.old.items) done)) }
        ensures others { OnOk result (self.new.open ≡ self.old.open) }
    {
        let Open {
            before,
            at,
            construct,
        } = last;
        let Construct::Do(head) = construct else {
            return Ok(());
        };
        let inside = mem::replace(&mut self.items, before);
        self.items.push(item(at, Body77::Do(head, inside)))
    }

    /// Takes an item, and ends the innermost DOs that name its label.
    fn take(&mut self, at: Spot, body: Body77) -> Result<(), AllocError>
        ensures { OnOk result (state_of self.new ≡ ended at.label (join (items_of self.old.items) (body_of body at.number at.label at.place)) (stack_of self.old.open)) }
    {
        self.items.push(item(at, body))?;
        while let Some(last) = self.open.pop() {
            if !is_named(at.label, &last) {
                self.open.push(last)?;
                return Ok(());
            }
            self.end(last, at.label)?;
        }
        Ok(())
    }

    /// Takes the next statement, which fits where it stands.
    #[tactic(auto, using(crate::proofs::Plains::taking))]
    pub fn step(
        &mut self,
        alloc: Global,
        at: Spot,
        statement: Statement77,
    ) -> Result<(), AllocError>
        requires executable { is_executable (statement_of statement) ≡ true }
        requires fits { fits (heads (stack_of self.old.open)) (mark (line at.number at.label at.place (statement_of statement))) ≡ true }
        ensures { OnOk result (state_of self.new ≡ step (state_of self.old) (line at.number at.label at.place (statement_of statement))) }
    {
        match statement {
            Statement77::Simple(simple) => self.take(at, Body77::Simple(simple)),
            Statement77::Guarded(test, simple) => self.take(at, Body77::Guarded(test, simple)),
            Statement77::Do(terminal, range) => {
                let head = do_head(terminal, range.into_inner());
                self.enter(alloc, at, Construct::Do(head))
            }
            Statement77::IfThen(test) => {
                let construct = Construct::If(Items::new(alloc), at, Some(test));
                self.enter(alloc, at, construct)
            }
            Statement77::ElseIf(test) => self.part(alloc, at, Some(test)),
            Statement77::Else => self.part(alloc, at, None),
            Statement77::EndIf => self.close(at),
            Statement77::Header(_header) => Ok(()),
            Statement77::Declared(_declared) => Ok(()),
            Statement77::StmtFunction(_name, _dummies, _value) => Ok(()),
            Statement77::End => Ok(()),
        }
    }
}
