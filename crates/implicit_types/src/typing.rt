// The typing of a unit.
ghost use Rattle.std.specs.Prelude.{◌≡◌, ◌++◌, map, IfOk, OnOk, IsTrue};
ghost use Rattle.std.specs.List.{list_any};
ghost use Rattle.std.specs.Option.{option_map};
ghost use Rattle.std.specs.Borrow.{Bor};
ghost use Rattle.text_base.specs.Values.{value_of};
ghost use Rattle.text_base.specs.declared.operation.Value.{Value as OfCode};
ghost use Rattle.unit77.specs.declared.tree.DeclaredLine77.{DeclaredLine77 as Declared};
ghost use Rattle.unit77.specs.UnitViews.{declared_line, unit_of};
ghost use Rattle.names77.specs.Views.{shown_known, shown_line, shown_lines, shown_row};
ghost use Rattle.implicit_types.specs.Findings.{along};
ghost use Rattle.implicit_types.specs.NameFindings.{nothing, with_line};
ghost use Rattle.implicit_types.specs.Typing as plain;
ghost use Rattle.implicit_types.specs.Views.{shown_findings, shown_before, shown_entity, shown_refusal, IsTyping};

use crate::before::Before;
use crate::entity::{Entities, Entity, EntityKind, TypeError};
use crate::findings::{Findings, lowest};
use crate::statement_findings::statement_findings;
use names77::{Known, Line, Role, Row, copied, know, line_notes, text_of};
use sqlite_items::Items;
use std::alloc::{AllocError, Global};
use text_base::{Bytes, Refusal, Refusals, Value};
use tree77::Declared77;
use unit77::{DeclaredLine77, Unit77};

/// A typed unit: the unit, and its entities by first appearance.
#[derive(Drop)]
pub struct Typed<'a> {
    unit: &'a Unit77,
    entities: Entities,
}

impl<'a> Typed<'a> {
    /// Lends the unit.
    pub fn unit(&self) -> &'a Unit77
        ensures { result.now ≡ self.now.unit.now }
    {
        self.unit
    }

    /// Lends the entities by first appearance.
    pub fn entities(&self) -> &[Entity]
        ensures { result.now ≡ self.now.entities }
    {
        self.entities.as_slice()
    }
}

// Whether one of some declarations is an EQUIVALENCE.
fn has_equivalence(lines: &[DeclaredLine77]) -> bool
    ensures { result ≡ list_any (λ (l : Declared). plain.is_equivalence (declared_line l).statement) lines.now }
{
    lines
        .iter()
        .any(|line| matches!(line.declared, Declared77::Equivalence(_)))
}

/// Whether a unit has no EQUIVALENCE.
#[tactic(auto, using(crate::proofs::TypingLemmas::any_mapped))]
pub fn has_no_equivalence(unit: &Unit77) -> bool
    ensures { result ≡ plain.has_no_equivalence (unit_of unit.now) }
{
    !has_equivalence(unit.declared.as_slice())
}

/// Types a unit: what each of its names is (X3.9 sections 4, 5, 8, 9, 15 and 18.2).
///
/// The unit has no EQUIVALENCE. Statements are refused, one refusal each, in the order of the text, where a name is real, gets two
/// types, dimension lists, places in COMMON or roles, where a part has a wrong type, where an array has a wrong number of
/// subscripts, and where a constant or a length has no value that it may have. Want of memory is the other error.
pub fn type_unit<'a>(alloc: Global, unit: &'a Unit77) -> Result<Typed<'a>, TypeError>
    requires { IsTrue (plain.has_no_equivalence (unit_of unit.now)) }
    ensures { IsTyping unit.now result }
{
    let text = text_of(alloc, unit)?;
    let lines = text.as_slice();
    let known = know(alloc, lines)?;
    let refusals = refusals(alloc, &known, lines)?;
    if !refusals.is_empty() {
        return Err(TypeError::Refused(refusals));
    }
    let entities = entities(alloc, &known)?;
    Ok(Typed { unit, entities })
}

// ---- refusals

// The refusals of the statements of a unit in the order of the text. It fails for want of memory alone.
#[tactic(auto, using(crate::proofs::TypingLemmas::along_steps))]
fn refusals<'a>(
    alloc: Global,
    known: &Known<'_>,
    lines: &[Line<'a>],
) -> Result<Refusals, AllocError>
    ensures { IfOk result (λ refusals. map shown_refusal refusals ≡ along (with_line (shown_known known.now)) (plain.line_refusals (shown_known known.now)) nothing (shown_lines lines.now)) }
{
    let mut refusals = Items::new(alloc);
    let mut before = Before::new(alloc);
    for line in lines {
        refuse_line(alloc, &mut refusals, known, &mut before, *line)?;
    }
    Ok(refusals)
}

// Adds the refusal of a statement, where something is found at it, and takes what it says of names.
#[tactic(auto, using(crate::proofs::TypingLemmas::joining))]
fn refuse_line<'a>(
    alloc: Global,
    refusals: &mut Refusals,
    known: &Known<'_>,
    before: &mut Before<'a>,
    line: Line<'a>,
) -> Result<(), AllocError>
    ensures refused { OnOk result (map shown_refusal refusals.new ≡ map shown_refusal refusals.old ++ plain.line_refusals (shown_known known.now) (shown_before before.old) (shown_line line.entry)) }
    ensures taken { OnOk result (shown_before before.new ≡ with_line (shown_known known.now) (shown_before before.old) (shown_line line.entry)) }
{
    let findings = line_findings(alloc, known, before, line)?;
    if let Some(finding) = lowest(findings.as_slice()) {
        let name = Bytes::from_slice(alloc, finding.name)?;
        refusals.push(Refusal {
            place: line.place,
            cause: finding.cause,
            name,
        })?;
    }
    Ok(())
}

// What is found at a statement. What it says of names is taken.
fn line_findings<'a>(
    alloc: Global,
    known: &Known<'_>,
    before: &mut Before<'a>,
    line: Line<'a>,
) -> Result<Findings<'a>, AllocError>
    ensures found { IfOk result (λ findings. shown_findings findings ≡ plain.line_findings (shown_known known.now) (shown_before before.old) (shown_line line.entry)) }
    ensures taken { OnOk result (shown_before before.new ≡ with_line (shown_known known.now) (shown_before before.old) (shown_line line.entry)) }
{
    let mut notes = Items::new(alloc);
    line_notes(&mut notes, line)?;
    let mut findings = Items::new(alloc);
    before.check_notes(alloc, &mut findings, known, notes.as_slice())?;
    statement_findings(&mut findings, known, line.part)?;
    Ok(findings)
}

// ---- entities

// The entities of a unit by first appearance. It fails for want of memory alone.
fn entities(alloc: Global, known: &Known<'_>) -> Result<Entities, AllocError>
    ensures { IfOk result (λ entities. map shown_entity entities ≡ plain.entities_of (shown_known known.now)) }
{
    let mut entities = Items::new(alloc);
    for (name, row) in known.table.map.iter() {
        add_entity(alloc, &mut entities, known, *name, row)?;
    }
    Ok(entities)
}

// Adds the entity that a name is, where it is one.
#[tactic(auto, using(crate::proofs::TypingLemmas::joining))]
fn add_entity(
    alloc: Global,
    entities: &mut Entities,
    known: &Known<'_>,
    name: &[u8],
    row: &Row<'_>,
) -> Result<(), AllocError>
    ensures { OnOk result (map shown_entity entities.new ≡ map shown_entity entities.old ++ plain.row_entities (shown_known known.now) (name.now, shown_row row.now)) }
{
    if row.stands {
        if let Some(kind) = entity_kind(known.role(name)) {
            entities.push(entity(alloc, known, name, kind)?)?;
        }
    }
    Ok(())
}

// What a name in a role is; the name of a main program or BLOCK DATA is none of the unit's entities.
fn entity_kind(role: Role) -> Option<EntityKind>
    ensures { result ≡ plain.entity_kind role }
{
    match role {
        Role::Variable => Some(EntityKind::Variable),
        Role::Dummy => Some(EntityKind::Dummy),
        Role::Constant => Some(EntityKind::Constant),
        Role::Result | Role::Function => Some(EntityKind::Function),
        Role::External => Some(EntityKind::External),
        Role::Subroutine => Some(EntityKind::Subroutine),
        Role::StmtFunction => Some(EntityKind::StmtFunction),
        Role::Intrinsic => Some(EntityKind::Intrinsic),
        Role::Unit => None,
    }
}

// A name of a unit with what is known of it. It fails for want of memory alone.
fn entity(
    alloc: Global,
    known: &Known<'_>,
    name: &[u8],
    kind: EntityKind,
) -> Result<Entity, AllocError>
    ensures { IfOk result (λ entity. shown_entity entity ≡ plain.entity_of (shown_known known.now) name.now kind) }
{
    Ok(Entity {
        name: Bytes::from_slice(alloc, name)?,
        kind,
        scalar: known.scalar(name),
        length: known.name_length(alloc, name)?,
        value: copied_option(alloc, known.constants.value(name))?,
    })
}

// A copy of a value, where there is one. It fails for want of memory alone.
fn copied_option(alloc: Global, value: Option<&Value>) -> Result<Option<Value>, AllocError>
    ensures { IfOk result (λ copy. option_map value_of copy ≡ option_map (λ (b : Bor OfCode). value_of b.now) value.entry) }
{
    match value {
        Some(value) => Ok(Some(copied(alloc, value)?)),
        None => Ok(None),
    }
}
