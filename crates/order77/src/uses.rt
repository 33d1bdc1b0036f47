// The names that parts of statements use, and those that declarations give dimensions.
ghost use Rattle.std.specs.Prelude.{◌≡◌, ◌∷◌, ◌++◌, [], ℕ, List, map, flat_map, OnOk};
ghost use Rattle.std.specs.Option.{option_map};
ghost use Rattle.text_base.specs.Names.{expr_names, exprs_names, bound_names};
ghost use Rattle.expr_tree.specs.Plain.{expr_of, exprs_of, bound_of};
ghost use Rattle.tree77.specs.Statements.{Block};
ghost use Rattle.tree77.specs.StatementPlain.{length_of, type_of, dimension_of, declarator_of, equation_of, implicit_of, block_of, range_of, listed_of, listed_items, times_of, value_of, data_group_of, declared_of, header_of};
ghost use Rattle.order77.specs.Names as plain;
ghost use Rattle.order77.specs.NameSets.{lent};

use sqlite_items::{Boxed, Items};
use std::alloc::AllocError;
use text_base::Name;
use tree77::{
    Block77, DataGroup77, DataValue77, Declarator77, Declared77, Dimension77, Equation77, Expr,
    Exprs, Header77, Implicit77, Length77, Listed77, Range77, Times77, Type77,
};

/// Names that were found, as their characters, which contracts see as the list.
pub type Found<'a> = Items<&'a [u8]>;

/// A part of a statement that uses names.
trait Uses {
    ghost use Rattle.std.specs.Prelude.{ℕ, List};

    // the names that it uses, in order
    ghost names_used: { Self → List (List ℕ) };

    /// Adds the names that it uses.
    fn add_uses<'a>(&'a self, found: &mut Found<'a>) -> Result<(), AllocError>
        ensures { OnOk result (lent found.new ≡ lent found.old ++ names_used self.now) };
}

// Adds the names that parts use, one after another.
#[tactic(auto, using(crate::proofs::UseLemmas::use_steps))]
fn all_uses<'a, T: Uses>(found: &mut Found<'a>, parts: &'a [T]) -> Result<(), AllocError>
    ensures { OnOk result (lent found.new ≡ lent found.old ++ flat_map T.names_used parts.now) }
{
    for part in parts {
        part.add_uses(found)?;
    }
    Ok(())
}

// Adds a name.
#[tactic(auto, using(crate::proofs::UseLemmas::lent_append))]
fn name_use<'a>(found: &mut Found<'a>, name: &'a Name) -> Result<(), AllocError>
    ensures { OnOk result (lent found.new ≡ lent found.old ++ name.now ∷ []) }
{
    found.push(name.as_slice())
}

// ---- expressions

/// Adds the names of an expression.
#[cycle(expressions)]
#[tactic(auto, using(crate::proofs::UseLemmas::expr_steps))]
pub fn expr_uses<'a>(found: &mut Found<'a>, expr: &'a Expr) -> Result<(), AllocError>
    ensures { OnOk result (lent found.new ≡ lent found.old ++ expr_names (expr_of expr.now)) }
{
    match expr {
        Expr::Int(_) => Ok(()),
        Expr::Bool(_) => Ok(()),
        Expr::Text(_) => Ok(()),
        Expr::Name(name) => name_use(found, name),
        Expr::Call(function, arguments) => {
            name_use(found, function)?;
            exprs_uses(found, arguments.as_slice())
        }
        Expr::Substring(variable, from, to) => {
            expr_uses(found, variable.get())?;
            bound_uses(found, from)?;
            bound_uses(found, to)
        }
        Expr::Unary(_, operand) => expr_uses(found, operand.get()),
        Expr::Binary(_, left, right) => {
            expr_uses(found, left.get())?;
            expr_uses(found, right.get())
        }
        Expr::Paren(inner) => expr_uses(found, inner.get()),
    }
}

// Adds the names of expressions.
#[cycle(expressions)]
#[tactic(auto, using(crate::proofs::UseLemmas::use_steps))]
fn exprs_uses<'a>(found: &mut Found<'a>, exprs: &'a [Expr]) -> Result<(), AllocError>
    ensures { OnOk result (lent found.new ≡ lent found.old ++ exprs_names (exprs_of (map expr_of exprs.now))) }
{
    for expr in exprs {
        expr_uses(found, expr)?;
    }
    Ok(())
}

// Adds the names of a bound of a substring.
#[cycle(expressions)]
fn bound_uses<'a>(found: &mut Found<'a>, bound: &'a Option<Boxed<Expr>>) -> Result<(), AllocError>
    ensures { OnOk result (lent found.new ≡ lent found.old ++ bound_names (bound_of (option_map expr_of bound.now))) }
{
    match bound {
        Some(bound) => expr_uses(found, bound.get()),
        None => Ok(()),
    }
}

// Adds the names of the bounds of a substring.
fn bounds_uses<'a>(
    found: &mut Found<'a>,
    from: &'a Option<Boxed<Expr>>,
    to: &'a Option<Boxed<Expr>>,
) -> Result<(), AllocError>
    ensures { OnOk result (lent found.new ≡ lent found.old ++ (bound_names (bound_of (option_map expr_of from.now)) ++ bound_names (bound_of (option_map expr_of to.now)))) }
{
    bound_uses(found, from)?;
    bound_uses(found, to)
}

// Adds the names of an expression, where there is one.
fn option_uses<'a>(found: &mut Found<'a>, expr: &'a Option<Expr>) -> Result<(), AllocError>
    ensures { OnOk result (lent found.new ≡ lent found.old ++ plain.option_uses (option_map expr_of expr.now)) }
{
    match expr {
        Some(expr) => expr_uses(found, expr),
        None => Ok(()),
    }
}

// ---- declarators

// Adds the names of a length of characters, where there is one.
fn length_uses<'a>(found: &mut Found<'a>, length: &'a Option<Length77>) -> Result<(), AllocError>
    ensures { OnOk result (lent found.new ≡ lent found.old ++ plain.length_uses (option_map length_of length.now)) }
{
    match length {
        Some(Length77::Given(expr)) => expr_uses(found, expr),
        Some(Length77::Assumed) => Ok(()),
        None => Ok(()),
    }
}

// Adds the names of a type.
fn type_uses<'a>(found: &mut Found<'a>, of: &'a Type77) -> Result<(), AllocError>
    ensures { OnOk result (lent found.new ≡ lent found.old ++ plain.type_uses (type_of of.now)) }
{
    match of {
        Type77::Character(length) => length_uses(found, length),
        Type77::Integer | Type77::Logical => Ok(()),
    }
}

impl Uses for Dimension77 {
    ghost names_used = { λ d. plain.dimension_uses (dimension_of d) };

    fn add_uses<'a>(&'a self, found: &mut Found<'a>) -> Result<(), AllocError> {
        option_uses(found, &self.lower)?;
        option_uses(found, &self.upper)
    }
}

#[tactic(auto, using(crate::proofs::UseLemmas::of_parts))]
impl Uses for Declarator77 {
    ghost names_used = { λ d. plain.declarator_uses (declarator_of d) };

    fn add_uses<'a>(&'a self, found: &mut Found<'a>) -> Result<(), AllocError> {
        all_uses(found, self.dimensions.as_slice())?;
        length_uses(found, &self.length)
    }
}

#[tactic(auto, using(crate::proofs::UseLemmas::of_parts))]
impl Uses for Block77 {
    ghost names_used = { λ b. flat_map plain.declarator_uses (block_of b).members };

    fn add_uses<'a>(&'a self, found: &mut Found<'a>) -> Result<(), AllocError> {
        all_uses(found, self.members.as_slice())
    }
}

impl Uses for Equation77 {
    ghost names_used = { λ e. expr_names (expr_of e.value) };

    fn add_uses<'a>(&'a self, found: &mut Found<'a>) -> Result<(), AllocError> {
        expr_uses(found, &self.value)
    }
}

impl Uses for Implicit77 {
    ghost names_used = { λ i. plain.type_uses (type_of i.of) };

    fn add_uses<'a>(&'a self, found: &mut Found<'a>) -> Result<(), AllocError> {
        type_uses(found, &self.of)
    }
}

// ---- EQUIVALENCE

// Adds the names in the subscripts and bounds of a member of EQUIVALENCE.
#[tactic(auto, using(crate::proofs::UseLemmas::expr_steps))]
fn member_uses<'a>(found: &mut Found<'a>, member: &'a Expr) -> Result<(), AllocError>
    ensures { OnOk result (lent found.new ≡ lent found.old ++ plain.member_uses (expr_of member.now)) }
{
    match member {
        Expr::Call(_, subscripts) => exprs_uses(found, subscripts.as_slice()),
        Expr::Substring(variable, from, to) => {
            member_uses(found, variable.get())?;
            bounds_uses(found, from, to)
        }
        Expr::Int(_) => Ok(()),
        Expr::Bool(_) => Ok(()),
        Expr::Text(_) => Ok(()),
        Expr::Name(_) => Ok(()),
        Expr::Unary(_, _) => Ok(()),
        Expr::Binary(_, _, _) => Ok(()),
        Expr::Paren(_) => Ok(()),
    }
}

// Adds the names of members of EQUIVALENCE.
#[tactic(auto, using(crate::proofs::UseLemmas::use_steps))]
fn members_uses<'a>(found: &mut Found<'a>, members: &'a [Expr]) -> Result<(), AllocError>
    ensures { OnOk result (lent found.new ≡ lent found.old ++ flat_map plain.member_uses (map expr_of members.now)) }
{
    for member in members {
        member_uses(found, member)?;
    }
    Ok(())
}

// Adds the names of an EQUIVALENCE.
#[tactic(auto, using(crate::proofs::UseLemmas::use_steps))]
fn equivalence_uses<'a>(found: &mut Found<'a>, classes: &'a [Exprs]) -> Result<(), AllocError>
    ensures { OnOk result (lent found.new ≡ lent found.old ++ flat_map (λ (x : List Expr). flat_map plain.member_uses (map expr_of x)) classes.now) }
{
    for class in classes {
        members_uses(found, class.as_slice())?;
    }
    Ok(())
}

// ---- DATA

// Adds the names of an implied DO: its variable, and those of its values.
fn range_uses<'a>(found: &mut Found<'a>, range: &'a Range77) -> Result<(), AllocError>
    ensures { OnOk result (lent found.new ≡ lent found.old ++ plain.range_uses (range_of range.now)) }
{
    name_use(found, &range.variable)?;
    expr_uses(found, &range.from)?;
    expr_uses(found, &range.to)?;
    option_uses(found, &range.by)
}

// Adds the names of an item of a list.
#[cycle(items)]
#[tactic(auto, using(crate::proofs::UseLemmas::listed_steps))]
fn listed_uses<'a>(found: &mut Found<'a>, listed: &'a Listed77) -> Result<(), AllocError>
    ensures { OnOk result (lent found.new ≡ lent found.old ++ plain.listed_uses (listed_of listed.now)) }
{
    match listed {
        Listed77::Item(expr) => expr_uses(found, expr),
        Listed77::Loop(items, range) => {
            listeds_uses(found, items.as_slice())?;
            range_uses(found, range.get())
        }
    }
}

// Adds the names of the items of a list.
#[cycle(items)]
#[tactic(auto, using(crate::proofs::UseLemmas::use_steps))]
fn listeds_uses<'a>(found: &mut Found<'a>, items: &'a [Listed77]) -> Result<(), AllocError>
    ensures { OnOk result (lent found.new ≡ lent found.old ++ plain.listeds_uses (listed_items items.now)) }
{
    for item in items {
        listed_uses(found, item)?;
    }
    Ok(())
}

// Adds the constant that says how often a value counts, where it is one.
fn times_uses<'a>(found: &mut Found<'a>, times: &'a Times77) -> Result<(), AllocError>
    ensures { OnOk result (lent found.new ≡ lent found.old ++ plain.times_uses (times_of times.now)) }
{
    match times {
        Times77::Name(name) => name_use(found, name),
        Times77::Once => Ok(()),
        Times77::Number(_) => Ok(()),
    }
}

impl Uses for DataValue77 {
    ghost names_used = { λ v. plain.value_uses (value_of v) };

    fn add_uses<'a>(&'a self, found: &mut Found<'a>) -> Result<(), AllocError> {
        times_uses(found, &self.times)?;
        expr_uses(found, &self.constant)
    }
}

#[tactic(auto, using(crate::proofs::UseLemmas::of_parts))]
impl Uses for DataGroup77 {
    ghost names_used = { λ g. plain.group_uses (data_group_of g) };

    fn add_uses<'a>(&'a self, found: &mut Found<'a>) -> Result<(), AllocError> {
        listeds_uses(found, self.objects.as_slice())?;
        all_uses(found, self.values.as_slice())
    }
}

// ---- declarations

/// Adds the names that the header of a unit uses: in the length before FUNCTION.
pub fn header_uses<'a>(found: &mut Found<'a>, header: &'a Header77) -> Result<(), AllocError>
    ensures { OnOk result (lent found.new ≡ lent found.old ++ plain.header_uses (header_of header.now)) }
{
    match header {
        Header77::Function(Some(of), _, _) => type_uses(found, of),
        Header77::Function(None, _, _)
        | Header77::Program(_)
        | Header77::Subroutine(_, _)
        | Header77::BlockData(_) => Ok(()),
    }
}

/// Adds the names that a declaration uses.
#[tactic(auto, using(crate::proofs::UseLemmas::of_parts))]
pub fn declared_uses<'a>(found: &mut Found<'a>, declared: &'a Declared77) -> Result<(), AllocError>
    ensures { OnOk result (lent found.new ≡ lent found.old ++ plain.declared_uses (declared_of declared.now)) }
{
    match declared {
        Declared77::Implicit(implicits) => all_uses(found, implicits.as_slice()),
        Declared77::Parameter(equations) => all_uses(found, equations.as_slice()),
        Declared77::Typed(of, declarators) => {
            type_uses(found, of)?;
            all_uses(found, declarators.as_slice())
        }
        Declared77::Dimension(declarators) => all_uses(found, declarators.as_slice()),
        Declared77::Common(blocks) => all_uses(found, blocks.as_slice()),
        Declared77::Equivalence(classes) => equivalence_uses(found, classes.as_slice()),
        Declared77::Data(groups) => all_uses(found, groups.as_slice()),
        Declared77::External(_) => Ok(()),
        Declared77::Intrinsic(_) => Ok(()),
        Declared77::Save(_) => Ok(()),
        Declared77::Format(_) => Ok(()),
    }
}

// ---- arrays

// Adds a name, where it has dimensions.
#[tactic(auto, using(crate::proofs::UseLemmas::array_or_not))]
fn array_use<'a>(found: &mut Found<'a>, declarator: &'a Declarator77) -> Result<(), AllocError>
    ensures { OnOk result (lent found.new ≡ lent found.old ++ plain.arrays_among (declarator_of declarator.now ∷ [])) }
{
    if declarator.dimensions.is_empty() {
        Ok(())
    } else {
        name_use(found, &declarator.name)
    }
}

// Adds the names that have dimensions.
fn arrays_among<'a>(
    found: &mut Found<'a>,
    declarators: &'a [Declarator77],
) -> Result<(), AllocError>
    ensures { OnOk result (lent found.new ≡ lent found.old ++ plain.arrays_among (map declarator_of declarators.now)) }
{
    for declarator in declarators {
        array_use(found, declarator)?;
    }
    Ok(())
}

// Adds the members of COMMON that have dimensions.
#[tactic(auto, using(crate::proofs::UseLemmas::use_steps))]
fn common_arrays<'a>(found: &mut Found<'a>, blocks: &'a [Block77]) -> Result<(), AllocError>
    ensures { OnOk result (lent found.new ≡ lent found.old ++ flat_map (λ (b : Block). plain.arrays_among b.members) (map block_of blocks.now)) }
{
    for block in blocks {
        arrays_among(found, block.members.as_slice())?;
    }
    Ok(())
}

/// Adds the names that a declaration gives dimensions.
pub fn declared_arrays<'a>(
    found: &mut Found<'a>,
    declared: &'a Declared77,
) -> Result<(), AllocError>
    ensures { OnOk result (lent found.new ≡ lent found.old ++ plain.declared_arrays (declared_of declared.now)) }
{
    match declared {
        Declared77::Typed(_, declarators) => arrays_among(found, declarators.as_slice()),
        Declared77::Dimension(declarators) => arrays_among(found, declarators.as_slice()),
        Declared77::Common(blocks) => common_arrays(found, blocks.as_slice()),
        Declared77::Implicit(_)
        | Declared77::Parameter(_)
        | Declared77::Equivalence(_)
        | Declared77::External(_)
        | Declared77::Intrinsic(_)
        | Declared77::Save(_)
        | Declared77::Data(_)
        | Declared77::Format(_) => Ok(()),
    }
}
