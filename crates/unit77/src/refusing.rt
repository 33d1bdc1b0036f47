// What is refused of the statements of a file, one refusal a statement.
ghost use Rattle.std.specs.Prelude.{◌≡◌, ℕ, ◌++◌, ◌<◌, ◌^◌, ◌-◌, [], ◌∷◌, length, map, flat_map, Some, List, IfOk, OnOk};
ghost use Rattle.std.specs.Option.{option_map};
ghost use Rattle.tree77.specs.StatementPlain.{statement_of};
ghost use Rattle.unit77.specs.FileRefusals as plain;
ghost use Rattle.unit77.specs.FileRefusals.{fault_cause, fault_shown, fault_refusal};
ghost use Rattle.order77.specs.Keywords.{keyword};
ghost use Rattle.order77.specs.Names.{as_list};
ghost use Rattle.order77.specs.ReadViews.{reading_at, readings_of};
ghost use Rattle.unit77.specs.Slots.{keep_fault, AreLowest, refusal_with};

use crate::check::file_strays;
use order77::{Fault, ReadStatement, Stray, keyword, last_name};
use sqlite_items::Items;
use std::alloc::{AllocError, Global};
use text_base::{Bytes, Cause, Refusal, Refusals};

/// The cause of a refusal for a fault.
fn cause(fault: Fault) -> Cause
    ensures { result ≡ fault_cause fault }
{
    match fault {
        Fault::Depth | Fault::Labels => Cause::Unsupported,
        Fault::Order => Cause::StatementOrder,
        Fault::MissingEnd => Cause::MissingEnd,
        Fault::Nesting | Fault::Terminal(_) => Cause::BadNesting,
    }
}

/// The lower one of the faults of a statement, the first of equal ones.
fn lower(kept: Option<Fault>, fault: Fault) -> Fault
    ensures { Some result ≡ keep_fault kept fault }
{
    match kept {
        None => fault,
        Some(first) => {
            if cause(fault).number() < cause(first).number() {
                fault
            } else {
                first
            }
        }
    }
}

/// Keeps the fault of a statement in its slot, where it has one, unless a lower one is there.
fn keep(slots: &mut [Option<Fault>], stray: Stray)
    ensures { (count : ℕ) (strays : List Stray) → AreLowest slots.old count strays → AreLowest slots.new count (strays ++ stray ∷ []) }
{
    let number = stray.number as usize;
    if number < slots.len() {
        slots[number] = Some(lower(slots[number], stray.fault));
    }
}

/// The lowest fault of each of so many statements.
fn lowest_faults(
    alloc: Global,
    count: usize,
    strays: &[Stray],
) -> Result<Vec<Option<Fault>>, AllocError>
    ensures { IfOk result (λ slots. AreLowest slots.items count strays.now) }
{
    let mut slots = vec![in alloc; None; count]?;
    for stray in strays {
        keep(&mut slots, *stray);
    }
    Ok(slots)
}

/// The keyword of a statement, none where it has no spelling.
fn keyword_of(statement: &Option<tree77::Statement77>) -> &'static str
    ensures { result.now ≡ flat_map (λ x. x) (map keyword (as_list (option_map statement_of statement.now))) }
{
    match statement {
        Some(statement) => keyword(statement),
        None => "",
    }
}

/// What the refusal of a statement for a fault shows.
fn shown(
    alloc: Global,
    unit: &[u8],
    read: &ReadStatement,
    fault: Fault,
) -> Result<Bytes, AllocError>
    ensures { IfOk result (λ made. (n : ℕ) → made ≡ fault_shown unit.now (reading_at n read.now) fault) }
{
    match fault {
        Fault::Depth => Bytes::from_slice(alloc, b"DEPTH"),
        Fault::Labels => Bytes::from_slice(alloc, b"LABELS"),
        Fault::Terminal(label) => {
            let digits = format!(in alloc; "{label}")?;
            Ok(Bytes::from_vec(digits.into_bytes()))
        }
        Fault::MissingEnd => Bytes::from_slice(alloc, unit),
        Fault::Order | Fault::Nesting => {
            Bytes::from_slice(alloc, keyword_of(&read.statement).as_bytes())
        }
    }
}

/// The refusal of a statement for a fault.
fn fault_refusal(
    alloc: Global,
    unit: &[u8],
    read: &ReadStatement,
    fault: Fault,
) -> Result<Refusal, AllocError>
    ensures { IfOk result (λ made. (n : ℕ) → made ≡ fault_refusal unit.now (reading_at n read.now) fault) }
{
    let name = shown(alloc, unit, read, fault)?;
    Ok(Refusal {
        place: read.place,
        cause: cause(fault),
        name,
    })
}

/// A copy of a refusal.
fn copy(alloc: Global, refusal: &Refusal) -> Result<Refusal, AllocError>
    ensures { IfOk result (λ made. made ≡ refusal.now) }
{
    let name = Bytes::from_slice(alloc, refusal.name.as_slice())?;
    Ok(Refusal {
        place: refusal.place,
        cause: refusal.cause,
        name,
    })
}

/// The refusal of a statement with this lowest fault.
fn refusal(
    alloc: Global,
    unit: &[u8],
    slot: Option<Fault>,
    read: &ReadStatement,
) -> Result<Option<Refusal>, AllocError>
    ensures { IfOk result (λ made. (n : ℕ) → made ≡ refusal_with unit.now slot (reading_at n read.now)) }
{
    match (slot, &read.refusal) {
        (None, None) => Ok(None),
        (None, Some(own)) => Ok(Some(copy(alloc, own.get())?)),
        (Some(fault), None) => Ok(Some(fault_refusal(alloc, unit, read, fault)?)),
        (Some(fault), Some(own)) => {
            let own = own.get();
            if own.cause.number() < cause(fault).number() {
                Ok(Some(copy(alloc, own)?))
            } else {
                Ok(Some(fault_refusal(alloc, unit, read, fault)?))
            }
        }
    }
}

/// Adds a refusal, where there is one.
fn add(refusals: &mut Refusals, refusal: Option<Refusal>) -> Result<(), AllocError>
    ensures { OnOk result (refusals.new ≡ refusals.old ++ as_list refusal) }
{
    if let Some(refusal) = refusal {
        refusals.push(refusal)?;
    }
    Ok(())
}

/// What is refused of the statements of a file: of each statement of itself, or for its order, its nesting or its unit (X3.9
/// sections 2.4, 3.5 and 11).
///
/// In: the statements of the file as they were read, statement functions told from assignments.
///
/// Out: one refusal for each statement that has one, in order: the lowest cause, among equal ones the first. It fails for want of
/// memory alone.
pub fn file_refusals(alloc: Global, statements: &[ReadStatement]) -> Result<Refusals, AllocError>
    requires room { length statements.now < 2 ^ 32 - 1 }
    ensures { IfOk result (λ list. list ≡ plain.file_refusals (readings_of statements.now)) }
{
    let strays = file_strays(alloc, statements)?;
    let slots = lowest_faults(alloc, statements.len(), strays.as_slice())?;
    let unit = last_name(statements);
    let mut refusals = Items::new(alloc);
    for (number, read) in statements.iter().enumerate() {
        let refusal = refusal(alloc, unit, slots[number], read)?;
        add(&mut refusals, refusal)?;
    }
    Ok(refusals)
}
