// What is said before a statement, and what is found at its names.
ghost use Rattle.std.specs.Prelude.{◌≡◌, ◌++◌, fold, IfOk, OnOk};
ghost use Rattle.std.specs.Option.{option_map};
ghost use Rattle.names77.specs.Views.{shown_type, shown_around, shown_fact, shown_note, shown_row, shown_known, shown_notes, lent_length};
ghost use Rattle.implicit_types.specs.NameFindings as plain;
ghost use Rattle.implicit_types.specs.Views.{shown_before, shown_findings};

use crate::findings::{Findings, add};
use names77::{
    Around, Fact, Known, NameType, Note, Role, Roles, Row, Scalar, Table, allowed_as, length_in,
};
use std::alloc::{AllocError, Global};
use text_base::Cause;
use tree77::Length77;

// Whether a list stands behind the name of a statement function in its own expression, or in that of an earlier one, by its rows
// in the whole unit and before the statement.
fn is_early(whole: &Row<'_>, before: &Row<'_>, around: Around<'_>, name: &[u8]) -> bool
    ensures { result ≡ plain.is_early (shown_row whole.now) (shown_row before.now) (shown_around around.entry) name.now }
{
    match around {
        Around::Elsewhere => false,
        Around::Inside(function, _) => {
            whole.dummies.is_some() && (function == name || before.dummies.is_none())
        }
    }
}

// Whether a name gets what it has, by its rows in the whole unit and before the statement.
fn is_repeated(whole: &Row<'_>, before: &Row<'_>, fact: Fact<'_>, name: &[u8]) -> bool
    ensures { result ≡ plain.is_repeated (shown_row whole.now) (shown_row before.now) (shown_fact fact.entry) name.now }
{
    match fact {
        Fact::Typed(_) => before.typed.is_some(),
        Fact::Shaped(_) => before.shape.is_some(),
        Fact::Constant(_) => before.value.is_some(),
        Fact::Function(_) => before.dummies.is_some(),
        Fact::Dummy => before.is_dummy,
        Fact::Common => before.is_common,
        Fact::Parameter(refused) => refused,
        Fact::Referred(around) => is_early(whole, before, around, name),
        _ => false,
    }
}

// Whether a name may have the length `*`.
fn may_be_assumed(role: Role) -> bool
    ensures { result ≡ plain.may_be_assumed role }
{
    matches!(role, Role::Dummy | Role::Constant)
}

// Whether a name may not have a length of characters. It fails for want of memory alone.
fn is_bad_length(
    alloc: Global,
    known: &Known<'_>,
    name: &[u8],
    length: Option<&Length77>,
) -> Result<bool, AllocError>
    ensures { IfOk result (λ bad. bad ≡ plain.is_bad_length (shown_known known.now) name.now (lent_length length.entry)) }
{
    match length {
        Some(Length77::Assumed) => Ok(!may_be_assumed(known.role(name))),
        _ => Ok(length_in(alloc, &known.constants, length)?.is_none()),
    }
}

// Whether a name may not have the length of its type. It fails for want of memory alone.
fn is_badly_typed(
    alloc: Global,
    known: &Known<'_>,
    name: &[u8],
    of: Option<NameType<'_>>,
) -> Result<bool, AllocError>
    ensures { IfOk result (λ bad. bad ≡ plain.is_badly_typed (shown_known known.now) name.now (option_map shown_type of.entry)) }
{
    match of {
        Some(of) if of.scalar == Scalar::Text => is_bad_length(alloc, known, name, of.length),
        _ => Ok(false),
    }
}

// Whether a name gets a type with a bad length, or is a constant without a value. It fails for want of memory alone.
fn is_bad_fact(
    alloc: Global,
    known: &Known<'_>,
    fact: Fact<'_>,
    name: &[u8],
) -> Result<bool, AllocError>
    ensures { IfOk result (λ bad. bad ≡ plain.is_bad_fact (shown_known known.now) (shown_fact fact.entry) name.now) }
{
    match fact {
        Fact::Typed(of) => is_badly_typed(alloc, known, name, Some(of)),
        Fact::Constant(_) => Ok(known.constants.value(name).is_none()),
        _ => Ok(false),
    }
}

/// What the statements before one say of names.
#[derive(Drop)]
pub struct Before<'a> {
    pub table: Table<'a>,
    pub roles: Roles<'a>,
}

impl<'a> Before<'a> {
    /// Nothing is said.
    pub fn new(alloc: Global) -> Before<'a>
        ensures { shown_before result ≡ plain.nothing }
    {
        Before {
            table: Table::new(alloc),
            roles: Roles::new(alloc),
        }
    }

    // Whether a name gets a role beside the one that it has.
    fn is_clashing(&self, known: &Known<'_>, note: Note<'_>) -> bool
        ensures { result ≡ plain.is_clashing (shown_known known.now) (shown_before self.now).roles (shown_note note.entry) }
    {
        let allowed = allowed_as(&known.table, note);
        !self.roles.allowed(note.key).agrees(allowed)
    }

    // Whether a name gets what it has, or a role beside the one that it has.
    fn is_redeclared(&self, known: &Known<'_>, note: Note<'_>) -> bool
        ensures { result ≡ plain.is_redeclared (shown_known known.now) (shown_before self.now) (shown_note note.entry) }
    {
        let whole = known.table.row(note.key);
        let before = self.table.row(note.key);
        is_repeated(&whole, &before, note.fact, note.key) || self.is_clashing(known, note)
    }

    // Whether a name stands here first and may not have the length that IMPLICIT gives it. It fails for want of memory alone.
    fn is_badly_initialed(
        &self,
        alloc: Global,
        known: &Known<'_>,
        name: &[u8],
    ) -> Result<bool, AllocError>
        ensures { IfOk result (λ bad. bad ≡ plain.is_badly_initialed (shown_known known.now) (shown_before self.now) name.now) }
    {
        if self.table.has(name) || known.table.row(name).typed.is_some() {
            return Ok(false);
        }
        is_badly_typed(alloc, known, name, known.name_type(name))
    }

    // Whether a name has no length or value that it may have. It fails for want of memory alone.
    fn is_bad_constant(
        &self,
        alloc: Global,
        known: &Known<'_>,
        note: Note<'_>,
    ) -> Result<bool, AllocError>
        ensures { IfOk result (λ bad. bad ≡ plain.is_bad_constant (shown_known known.now) (shown_before self.now) (shown_note note.entry)) }
    {
        Ok(
            is_bad_fact(alloc, known, note.fact, note.key)?
                || self.is_badly_initialed(alloc, known, note.key)?,
        )
    }

    // Adds what is found at a name.
    #[tactic(auto, using(crate::proofs::TypingLemmas::joining))]
    fn check_note(
        &self,
        alloc: Global,
        findings: &mut Findings<'a>,
        known: &Known<'_>,
        note: Note<'a>,
    ) -> Result<(), AllocError>
        ensures { OnOk result (shown_findings findings.new ≡ shown_findings findings.old ++ plain.note_findings (shown_known known.now) (shown_before self.now) (shown_note note.entry)) }
    {
        if known.is_real(note.key) {
            let is_first = !self.table.has(note.key);
            return add(findings, Cause::RealType, note.key, is_first);
        }
        let is_redeclared = self.is_redeclared(known, note);
        let is_bad = self.is_bad_constant(alloc, known, note)?;
        add(findings, Cause::Redeclared, note.key, is_redeclared)?;
        add(findings, Cause::BadConstant, note.key, is_bad)
    }

    // Takes what is said of a name.
    fn take(&mut self, known: &Known<'_>, note: Note<'a>) -> Result<(), AllocError>
        ensures { OnOk result (shown_before self.new ≡ plain.noted (shown_known known.now) (shown_before self.old) (shown_note note.entry)) }
    {
        self.table.add(note)?;
        self.roles.add(note.key, allowed_as(&known.table, note))
    }

    /// Adds what is found at the names of a statement, and takes what it says of them.
    #[tactic(auto, using(crate::proofs::TypingLemmas::along_steps))]
    pub fn check_notes(
        &mut self,
        alloc: Global,
        findings: &mut Findings<'a>,
        known: &Known<'_>,
        notes: &[Note<'a>],
    ) -> Result<(), AllocError>
        ensures found { OnOk result (shown_findings findings.new ≡ shown_findings findings.old ++ plain.notes_findings (shown_known known.now) (shown_before self.old) (shown_notes notes.now)) }
        ensures taken { OnOk result (shown_before self.new ≡ fold (plain.noted (shown_known known.now)) (shown_before self.old) (shown_notes notes.now)) }
    {
        for note in notes {
            self.check_note(alloc, findings, known, *note)?;
            self.take(known, *note)?;
        }
        Ok(())
    }
}
