// The Fortran 90 program that is written for a FORTRAN 77 program and its comments.
ghost use Rattle.std.specs.Prelude.{◌≡◌, ◌≢◌, ◌+◌, ℕ, List, [], ◌∷◌, ◌++◌, length, map, IfOk};
ghost use Rattle.text_base.specs.Cards.{Comment};
ghost use Rattle.text_base.specs.declared.refusal.Place.{Place};
ghost use Rattle.program77.specs.Plain as source;
ghost use Rattle.unit77.specs.Views.{body_of, item_of, items_of};
ghost use Rattle.tree77.specs.StatementPlain.{simple_of};
ghost use Rattle.tree77.specs.Statements as plain;
ghost use Rattle.program77.specs.Typing.{variables};
ghost use Rattle.tree90.specs.Plain as free;
ghost use Rattle.tree90.specs.Tree.{simple, integer_object};
ghost use Rattle.project_set.specs.Comments.{groups_at, ArePlaced};
ghost use Rattle.project_set.specs.Rewrite.{remarks_at, statements_of, with_tail, written_list, written};

use crate::comments::Comments;
use program77::unit_name;
use sqlite_items::Items;
use std::alloc::{AllocError, Global};
use text_base::{Name, Remarks};
use tree77::Stmt77;
use tree90::{
    Declared90, Declared90s, Item90, Items90, Program90, Simple90, Stmt90, Stmts90, Type90, Unit90,
    UnitKind90,
};
use unit77::{Body77, Item77, Items77, Unit77};

/// What is written for the program of a unit, statement for statement, with a declaration for each variable.
///
/// In: the unit, whose expressions become those of the written program; its variables; and the comments of its file.
///
/// Out: the program with its comments. It fails for want of memory alone.
pub fn rewritten(
    alloc: Global,
    unit: Unit77,
    names: &[Name],
    comments: Comments,
) -> Result<Program90, AllocError>
    requires counted { length comments.before ≡ length unit.items + 1 }
    requires named { names.now ≡ variables (source.source_of unit) }
    ensures { IfOk result (λ made. (cs : List Comment) → ArePlaced cs (length comments.before) comments → free.program_of made ≡ written cs (record { units = source.source_of unit ∷ [] })) }
{
    let Comments {
        head,
        inner,
        mut before,
        tail: behind,
    } = comments;
    let tail = last(&mut before);
    let name = unit_name(&unit);
    let items = rewritten_items(alloc, unit.items, before)?;
    let declared = declarations(alloc, names)?;
    let unit = Unit90 {
        kind: UnitKind90::Main,
        name,
        declared,
        items,
        head,
        inner,
        tail,
    };
    let mut units = Items::new(alloc);
    units.push(unit)?;
    Ok(Program90 {
        units,
        tail: behind,
    })
}

/// A scalar integer for each name.
fn declarations(alloc: Global, names: &[Name]) -> Result<Declared90s, AllocError>
    ensures { IfOk result (λ made. map free.declared_of made ≡ map integer_object names.now) }
{
    let mut made = Items::new(alloc);
    for name in names {
        made.push(Declared90::Object(Type90::Integer, name.copy()))?;
    }
    Ok(made)
}

/// The items with the comments before each. They are made from the last to the first, as they are taken from their list.
fn rewritten_items(
    alloc: Global,
    mut items: Items77,
    mut comments: Items<Remarks>,
) -> Result<Items90, AllocError>
    requires { length comments ≡ length items }
    ensures { IfOk result (λ made. (cs : List Comment) (k : ℕ) → comments ≡ groups_at cs k (length items) → with_tail (free.listed_of [] made) (remarks_at cs (k + length items)) ≡ written_list cs k [] (source.code_of (items_of items))) }
{
    let mut made = Vec::with_capacity(alloc, items.len())?;
    while let Some(item) = items.pop() {
        let item = rewritten_item(alloc, last(&mut comments), item)?;
        made.push(item)?;
    }
    made.reverse();
    Ok(Items::from_vec(made))
}

/// Takes the last of some comments.
fn last(comments: &mut Items<Remarks>) -> Remarks
    requires { comments.old ≢ [] }
    ensures { comments.old ≡ comments.new ++ result ∷ [] }
{
    comments.pop().unwrap()
}

/// What is written for an item, with the comments before it.
#[tactic(auto, using(unit77::proofs::Plains::item_is))]
fn rewritten_item(alloc: Global, comments: Remarks, item: Item77) -> Result<Item90, AllocError>
    ensures comments { IfOk result (λ made. made.comments ≡ comments) }
    ensures body { IfOk result (λ made. map free.stmt_of made.body ≡ statements_of (source.first_stmt (item_of item))) }
{
    let body = rewritten_body(alloc, item.body)?;
    Ok(Item90 { comments, body })
}

/// What is written for the first statement of an item. It is asked for items that are converted.
#[tactic(auto, using(crate::proofs::ItemLemmas::bodies))]
fn rewritten_body(alloc: Global, body: Body77) -> Result<Stmts90, AllocError>
    ensures { (number label : ℕ) (place : Place) → IfOk result (λ made. map free.stmt_of made ≡ statements_of (source.first_stmt (body_of body number label place))) }
{
    match body {
        Body77::Simple(statement) => rewritten_simple(alloc, statement),
        Body77::Guarded(_condition, _statement) => Ok(Items::new(alloc)),
        Body77::If(_arms, _end) => Ok(Items::new(alloc)),
        Body77::Do(_head, _items) => Ok(Items::new(alloc)),
    }
}

/// The one statement that is written for this one, or none for a CONTINUE. It is asked for statements that are converted.
fn rewritten_simple(alloc: Global, statement: Stmt77) -> Result<Stmts90, AllocError>
    ensures { IfOk result (λ made. map free.stmt_of made ≡ statements_of (source.stmt_of (plain.simple (simple_of statement)))) }
{
    match statement {
        Stmt77::Assign(variable, value) => {
            one_statement(alloc, Simple90::Assign(variable, value))
        }
        Stmt77::Stop(_) => one_statement(alloc, Simple90::Stop),
        _ => Ok(Items::new(alloc)),
    }
}

fn one_statement(alloc: Global, stmt: Simple90) -> Result<Stmts90, AllocError>
    ensures { IfOk result (λ made. map free.stmt_of made ≡ simple (free.action_of stmt) ∷ []) }
{
    let made = Vec::from_array(alloc, [Stmt90::Simple(stmt)])?;
    Ok(Items::from_vec(made))
}
