// What headers, declarations and statement functions say of names.
ghost use Rattle.std.specs.Prelude.{◌≡◌, ◌∷◌, ◌++◌, ◌||◌, [], map, flat_map, OnOk};
ghost use Rattle.std.specs.Option.{option_map};
ghost use Rattle.std.specs.Str.{bytes_eq};
ghost use Rattle.expr_tree.specs.Plain.{expr_of};
ghost use Rattle.tree77.specs.StatementPlain.{length_of, type_of, dimension_of, declarator_of, equation_of, implicit_of, block_of, saved_of, times_of, value_of, data_group_of, declared_of, header_of};
ghost use Rattle.order77.specs.Names.{is_among};
ghost use Rattle.names77.specs.Notes as plain;
ghost use Rattle.names77.specs.Views.{shown_notes, shown_fact};

use crate::expression_notes::{expr_notes, listeds_notes, option_notes, value_notes};
use crate::notes::{Around, Fact, Note, Notes, is_among};
use crate::types::type_with;
use expr_tree::{Expr, Exprs};
use std::alloc::AllocError;
use text_base::Name;
use tree77::{
    Block77, DataGroup77, DataValue77, Declarator77, Declared77, Dimension77, Equation77, Header77,
    Implicit77, Length77, Saved77, Times77, Type77,
};
use unit77::StmtFunction;

/// A part of a declaration that says something of names.
trait Says {
    ghost use Rattle.std.specs.Prelude.{List};
    ghost use Rattle.names77.specs.Notes.{Note};

    // what it says, in order
    ghost said: { Self → List Note };

    /// Adds what it says.
    fn add_notes<'a>(&'a self, notes: &mut Notes<'a>) -> Result<(), AllocError>
        ensures { OnOk result (shown_notes notes.new ≡ shown_notes notes.old ++ said self.now) };
}

// Adds what parts say, one after another.
#[tactic(auto, using(crate::proofs::DeclaredLemmas::note_steps))]
fn all_notes<'a, T: Says>(notes: &mut Notes<'a>, parts: &'a [T]) -> Result<(), AllocError>
    ensures { OnOk result (shown_notes notes.new ≡ shown_notes notes.old ++ flat_map T.said parts.now) }
{
    for part in parts {
        part.add_notes(notes)?;
    }
    Ok(())
}

// Adds one note.
#[tactic(auto, using(crate::proofs::DeclaredLemmas::shown_append))]
fn name_note<'a>(notes: &mut Notes<'a>, name: &'a Name, fact: Fact<'a>) -> Result<(), AllocError>
    ensures { OnOk result (shown_notes notes.new ≡ shown_notes notes.old ++ plain.note name.now (shown_fact fact.entry) ∷ []) }
{
    notes.push(Note {
        key: name.as_slice(),
        fact,
    })
}

// Adds the same of each name.
#[tactic(auto, using(crate::proofs::DeclaredLemmas::note_steps))]
fn names_notes<'a>(
    notes: &mut Notes<'a>,
    fact: Fact<'a>,
    names: &'a [Name],
) -> Result<(), AllocError>
    ensures { OnOk result (shown_notes notes.new ≡ shown_notes notes.old ++ plain.names_notes (shown_fact fact.entry) names.now) }
{
    for name in names {
        name_note(notes, name, fact)?;
    }
    Ok(())
}

// ---- types and declarators

// Adds what a length of characters says, where there is one.
fn length_notes<'a>(notes: &mut Notes<'a>, length: &'a Option<Length77>) -> Result<(), AllocError>
    ensures { OnOk result (shown_notes notes.new ≡ shown_notes notes.old ++ plain.length_notes (option_map length_of length.now)) }
{
    match length {
        Some(Length77::Given(expr)) => value_notes(notes, expr),
        Some(Length77::Assumed) => Ok(()),
        None => Ok(()),
    }
}

// Adds what a type says.
fn type_notes<'a>(notes: &mut Notes<'a>, of: &'a Type77) -> Result<(), AllocError>
    ensures { OnOk result (shown_notes notes.new ≡ shown_notes notes.old ++ plain.type_notes (type_of of.now)) }
{
    match of {
        Type77::Character(length) => length_notes(notes, length),
        Type77::Integer | Type77::Logical => Ok(()),
    }
}

impl Says for Dimension77 {
    ghost said = { λ d. plain.dimension_notes (dimension_of d) };

    fn add_notes<'a>(&'a self, notes: &mut Notes<'a>) -> Result<(), AllocError> {
        option_notes(notes, &self.lower)?;
        option_notes(notes, &self.upper)
    }
}

// Adds what the dimensions of a name say.
#[tactic(auto, using(crate::proofs::DeclaredLemmas::shape_steps))]
fn shape_notes<'a>(
    notes: &mut Notes<'a>,
    name: &'a Name,
    dimensions: &'a [Dimension77],
) -> Result<(), AllocError>
    ensures { OnOk result (shown_notes notes.new ≡ shown_notes notes.old ++ plain.shape_notes name.now (map dimension_of dimensions.now)) }
{
    match dimensions {
        [] => Ok(()),
        [_, ..] => {
            name_note(notes, name, Fact::Shaped(dimensions))?;
            all_notes(notes, dimensions)
        }
    }
}

// Its dimensions alone: its type, or that it stands in COMMON, is said beside it.
impl Says for Declarator77 {
    ghost said = { λ d. plain.array_notes (declarator_of d) };

    fn add_notes<'a>(&'a self, notes: &mut Notes<'a>) -> Result<(), AllocError> {
        shape_notes(notes, &self.name, self.dimensions.as_slice())
    }
}

// Adds what a name says that a type statement declares.
#[tactic(auto, using(crate::proofs::DeclaredLemmas::of_parts))]
fn typed_note<'a>(
    notes: &mut Notes<'a>,
    of: &'a Type77,
    declarator: &'a Declarator77,
) -> Result<(), AllocError>
    ensures { OnOk result (shown_notes notes.new ≡ shown_notes notes.old ++ plain.typed_notes (type_of of.now) (declarator_of declarator.now)) }
{
    let given = type_with(of, declarator.length.as_ref());
    name_note(notes, &declarator.name, Fact::Typed(given))?;
    declarator.add_notes(notes)?;
    length_notes(notes, &declarator.length)
}

// Adds what the names say that a type statement declares.
#[tactic(auto, using(crate::proofs::DeclaredLemmas::note_steps))]
fn typed_notes<'a>(
    notes: &mut Notes<'a>,
    of: &'a Type77,
    declarators: &'a [Declarator77],
) -> Result<(), AllocError>
    ensures { OnOk result (shown_notes notes.new ≡ shown_notes notes.old ++ flat_map (plain.typed_notes (type_of of.now)) (map declarator_of declarators.now)) }
{
    for declarator in declarators {
        typed_note(notes, of, declarator)?;
    }
    Ok(())
}

// Adds what a member of COMMON says.
#[tactic(auto, using(crate::proofs::DeclaredLemmas::of_parts))]
fn member_notes<'a>(notes: &mut Notes<'a>, member: &'a Declarator77) -> Result<(), AllocError>
    ensures { OnOk result (shown_notes notes.new ≡ shown_notes notes.old ++ plain.member_notes (declarator_of member.now)) }
{
    name_note(notes, &member.name, Fact::Common)?;
    member.add_notes(notes)
}

#[tactic(auto, using(crate::proofs::DeclaredLemmas::note_steps))]
impl Says for Block77 {
    ghost said = { λ b. plain.block_notes (block_of b) };

    fn add_notes<'a>(&'a self, notes: &mut Notes<'a>) -> Result<(), AllocError> {
        for member in self.members.as_slice() {
            member_notes(notes, member)?;
        }
        Ok(())
    }
}

impl Says for Implicit77 {
    ghost said = { λ i. plain.type_notes (type_of i.of) };

    fn add_notes<'a>(&'a self, notes: &mut Notes<'a>) -> Result<(), AllocError> {
        type_notes(notes, &self.of)
    }
}

#[tactic(auto, using(crate::proofs::DeclaredLemmas::of_parts))]
impl Says for Equation77 {
    ghost said = { λ e. plain.equation_notes (equation_of e) };

    fn add_notes<'a>(&'a self, notes: &mut Notes<'a>) -> Result<(), AllocError> {
        name_note(notes, &self.name, Fact::Constant(&self.value))?;
        value_notes(notes, &self.value)
    }
}

impl Says for Saved77 {
    ghost said = { λ x. plain.saved_notes (saved_of x) };

    fn add_notes<'a>(&'a self, notes: &mut Notes<'a>) -> Result<(), AllocError> {
        match self {
            Saved77::Name(name) => name_note(notes, name, Fact::Variable),
            Saved77::Block(_) => Ok(()),
        }
    }
}

// ---- EQUIVALENCE and DATA

// A member of EQUIVALENCE.
impl Says for Expr {
    ghost said = { λ e. plain.expr_notes plain.elsewhere plain.equivalent (expr_of e) };

    fn add_notes<'a>(&'a self, notes: &mut Notes<'a>) -> Result<(), AllocError> {
        expr_notes(notes, Around::Elsewhere, Fact::Equivalent, self)
    }
}

// The members of EQUIVALENCE in one pair of parentheses.
#[tactic(auto, using(crate::proofs::DeclaredLemmas::of_parts))]
impl Says for Exprs {
    ghost said = { λ x. flat_map (plain.expr_notes plain.elsewhere plain.equivalent) (map expr_of x) };

    fn add_notes<'a>(&'a self, notes: &mut Notes<'a>) -> Result<(), AllocError> {
        all_notes(notes, self.as_slice())
    }
}

// Adds what a repeat count of DATA says, where it is a constant's name.
fn times_notes<'a>(notes: &mut Notes<'a>, times: &'a Times77) -> Result<(), AllocError>
    ensures { OnOk result (shown_notes notes.new ≡ shown_notes notes.old ++ plain.times_notes (times_of times.now)) }
{
    match times {
        Times77::Name(name) => name_note(notes, name, Fact::Valued),
        Times77::Once => Ok(()),
        Times77::Number(_) => Ok(()),
    }
}

impl Says for DataValue77 {
    ghost said = { λ v. plain.data_value_notes (value_of v) };

    fn add_notes<'a>(&'a self, notes: &mut Notes<'a>) -> Result<(), AllocError> {
        times_notes(notes, &self.times)?;
        value_notes(notes, &self.constant)
    }
}

#[tactic(auto, using(crate::proofs::DeclaredLemmas::of_parts))]
impl Says for DataGroup77 {
    ghost said = { λ g. plain.group_notes (data_group_of g) };

    fn add_notes<'a>(&'a self, notes: &mut Notes<'a>) -> Result<(), AllocError> {
        listeds_notes(notes, Fact::Initial, self.objects.as_slice())?;
        all_notes(notes, self.values.as_slice())
    }
}

// ---- declarations

/// Adds what a declaration says. It fails for want of memory alone.
#[tactic(auto, using(crate::proofs::DeclaredLemmas::of_parts))]
pub fn declared_notes<'a>(notes: &mut Notes<'a>, declared: &'a Declared77) -> Result<(), AllocError>
    ensures { OnOk result (shown_notes notes.new ≡ shown_notes notes.old ++ plain.declared_notes (declared_of declared.now)) }
{
    match declared {
        Declared77::Implicit(implicits) => all_notes(notes, implicits.as_slice()),
        Declared77::Parameter(equations) => all_notes(notes, equations.as_slice()),
        Declared77::Typed(of, declarators) => {
            type_notes(notes, of)?;
            typed_notes(notes, of, declarators.as_slice())
        }
        Declared77::Dimension(declarators) => all_notes(notes, declarators.as_slice()),
        Declared77::Common(blocks) => all_notes(notes, blocks.as_slice()),
        Declared77::Equivalence(classes) => all_notes(notes, classes.as_slice()),
        Declared77::External(names) => names_notes(notes, Fact::External, names.as_slice()),
        Declared77::Intrinsic(names) => names_notes(notes, Fact::Intrinsic, names.as_slice()),
        Declared77::Save(saved) => all_notes(notes, saved.as_slice()),
        Declared77::Data(groups) => all_notes(notes, groups.as_slice()),
        Declared77::Format(_) => Ok(()),
    }
}

// ---- headers

// Adds what FUNCTION says of its name, with its type where it is written.
#[tactic(auto, using(crate::proofs::DeclaredLemmas::of_parts))]
fn result_notes<'a>(
    notes: &mut Notes<'a>,
    of: &'a Option<Type77>,
    name: &'a Name,
) -> Result<(), AllocError>
    ensures { OnOk result (shown_notes notes.new ≡ shown_notes notes.old ++ plain.result_notes (option_map type_of of.now) name.now) }
{
    if let Some(of) = of {
        type_notes(notes, of)?;
        name_note(notes, name, Fact::Typed(type_with(of, None)))?;
    }
    name_note(notes, name, Fact::Result)
}

/// Adds what the header of a unit says. It fails for want of memory alone.
#[tactic(auto, using(crate::proofs::DeclaredLemmas::of_parts))]
pub fn header_notes<'a>(notes: &mut Notes<'a>, header: &'a Header77) -> Result<(), AllocError>
    ensures { OnOk result (shown_notes notes.new ≡ shown_notes notes.old ++ plain.header_notes (header_of header.now)) }
{
    match header {
        Header77::Program(name) => name_note(notes, name, Fact::Titled),
        Header77::Subroutine(name, dummies) => {
            name_note(notes, name, Fact::Subroutine)?;
            names_notes(notes, Fact::Dummy, dummies.as_slice())
        }
        Header77::Function(of, name, dummies) => {
            result_notes(notes, of, name)?;
            names_notes(notes, Fact::Dummy, dummies.as_slice())
        }
        Header77::BlockData(Some(name)) => name_note(notes, name, Fact::Titled),
        Header77::BlockData(None) => Ok(()),
    }
}

// ---- statement functions

// Whether a dummy has the name of its statement function or of a dummy before it.
fn is_taken(function: &Name, before: &[Name], dummy: &Name) -> bool
    ensures { result ≡ (bytes_eq function.now dummy.now || is_among before.now dummy.now) }
{
    function.as_slice() == dummy.as_slice() || is_among(before, dummy.as_slice())
}

// Adds what the dummies of a statement function say, each with whether its name is the function's or an earlier one's. They
// are few, so each is compared with those before it.
#[tactic(auto, using(crate::proofs::DeclaredLemmas::parameter_step))]
fn parameter_notes<'a>(
    notes: &mut Notes<'a>,
    function: &Name,
    dummies: &'a [Name],
) -> Result<(), AllocError>
    ensures { OnOk result (shown_notes notes.new ≡ shown_notes notes.old ++ plain.parameter_notes function.now [] dummies.now) }
{
    for (index, dummy) in dummies.iter().enumerate() {
        let repeated = is_taken(function, &dummies[..index], dummy);
        name_note(notes, dummy, Fact::Parameter(repeated))?;
    }
    Ok(())
}

/// Adds what a statement function says. It fails for want of memory alone.
#[tactic(auto, using(crate::proofs::DeclaredLemmas::of_parts))]
pub fn function_notes<'a>(
    notes: &mut Notes<'a>,
    function: &'a StmtFunction,
) -> Result<(), AllocError>
    ensures { OnOk result (shown_notes notes.new ≡ shown_notes notes.old ++ plain.function_notes function.now.name function.now.dummies (expr_of function.now.value)) }
{
    let dummies = function.dummies.as_slice();
    name_note(notes, &function.name, Fact::Function(dummies))?;
    parameter_notes(notes, &function.name, dummies)?;
    let around = Around::Inside(function.name.as_slice(), dummies);
    expr_notes(notes, around, Fact::Valued, &function.value)
}
