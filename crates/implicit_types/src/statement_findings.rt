// What is found at the parts of statements.
ghost use Rattle.std.specs.Prelude.{◌≡◌, ◌++◌, map, flat_map, true, false, OnOk};
ghost use Rattle.std.specs.Option.{option_map};
ghost use Rattle.expr_tree.specs.Plain.{expr_of};
ghost use Rattle.tree77.specs.StatementPlain.{length_of, type_of, dimension_of, declarator_of, block_of, equation_of, implicit_of, data_group_of, simple_of, declared_of, header_of};
ghost use Rattle.tree77.specs.Statements as s;
ghost use Rattle.unit77.specs.Views.{do_statement};
ghost use Rattle.names77.specs.Notes.{elsewhere};
ghost use Rattle.names77.specs.Views.{kind_shown, shown_known, shown_part};
ghost use Rattle.implicit_types.specs.PartFindings as plain;
ghost use Rattle.implicit_types.specs.Views.{shown_findings};

use crate::expression_findings::{
    Standing, expr_findings, mismatch, option_findings, value_findings, variable_findings,
};
use crate::findings::Findings;
use crate::items::{
    ItemUse, do_findings, file_findings, is_apart_do, items_findings, listeds_findings,
    read_findings, transfer_findings,
};
use crate::operands::{expr_scalar, is_apart, may_agree};
use expr_tree::Expr;
use names77::{Around, Known, Part, Scalar};
use std::alloc::AllocError;
use tree77::{
    Block77, DataGroup77, Declarator77, Declared77, Dimension77, Equation77, Header77, Implicit77,
    Length77, Stmt77, Type77,
};
use unit77::{DoHead, StmtFunction};

/// A part of a statement at which something may be found.
trait Checked {
    ghost use Rattle.std.specs.Prelude.{List};
    ghost use Rattle.names77.specs.Known as names;
    ghost use Rattle.implicit_types.specs.Findings.{Finding};

    // what is found, in order
    ghost found_at: { Self → names.Known → List Finding };

    /// Adds what is found.
    fn check<'a>(&'a self, findings: &mut Findings<'a>, known: &Known<'_>) -> Result<(), AllocError>
        ensures { OnOk result (shown_findings findings.new ≡ shown_findings findings.old ++ found_at self.now (shown_known known.now)) };
}

// Adds what is found at parts, one after another.
#[tactic(auto, using(crate::proofs::PartLemmas::part_steps))]
fn check_all<'a, T: Checked>(
    findings: &mut Findings<'a>,
    known: &Known<'_>,
    parts: &'a [T],
) -> Result<(), AllocError>
    ensures { OnOk result (shown_findings findings.new ≡ shown_findings findings.old ++ flat_map (λ part. T.found_at part (shown_known known.now)) parts.now) }
{
    for part in parts {
        part.check(findings, known)?;
    }
    Ok(())
}

// ---- declarations

// Adds what is found at a length of characters.
fn length_findings<'a>(
    findings: &mut Findings<'a>,
    known: &Known<'_>,
    length: &'a Option<Length77>,
) -> Result<(), AllocError>
    ensures { OnOk result (shown_findings findings.new ≡ shown_findings findings.old ++ plain.length_findings (shown_known known.now) (option_map length_of length.now)) }
{
    match length {
        Some(Length77::Given(expr)) => value_findings(findings, known, expr),
        Some(Length77::Assumed) => Ok(()),
        None => Ok(()),
    }
}

// Adds what is found at a type.
fn type_findings<'a>(
    findings: &mut Findings<'a>,
    known: &Known<'_>,
    of: &'a Type77,
) -> Result<(), AllocError>
    ensures { OnOk result (shown_findings findings.new ≡ shown_findings findings.old ++ plain.type_findings (shown_known known.now) (type_of of.now)) }
{
    match of {
        Type77::Character(length) => length_findings(findings, known, length),
        Type77::Integer | Type77::Logical => Ok(()),
    }
}

#[tactic(auto, using(crate::proofs::PartLemmas::of_parts))]
impl Checked for Dimension77 {
    ghost found_at = { λ d k. plain.dimension_findings k (dimension_of d) };

    fn check<'a>(
        &'a self,
        findings: &mut Findings<'a>,
        known: &Known<'_>,
    ) -> Result<(), AllocError> {
        option_findings(findings, known, &self.lower)?;
        option_findings(findings, known, &self.upper)
    }
}

#[tactic(auto, using(crate::proofs::PartLemmas::of_parts))]
impl Checked for Declarator77 {
    ghost found_at = { λ d k. plain.declarator_findings k (declarator_of d) };

    fn check<'a>(
        &'a self,
        findings: &mut Findings<'a>,
        known: &Known<'_>,
    ) -> Result<(), AllocError> {
        check_all(findings, known, self.dimensions.as_slice())?;
        length_findings(findings, known, &self.length)
    }
}

#[tactic(auto, using(crate::proofs::PartLemmas::of_parts))]
impl Checked for Block77 {
    ghost found_at = { λ b k. plain.block_findings k (block_of b) };

    fn check<'a>(
        &'a self,
        findings: &mut Findings<'a>,
        known: &Known<'_>,
    ) -> Result<(), AllocError> {
        check_all(findings, known, self.members.as_slice())
    }
}

impl Checked for Implicit77 {
    ghost found_at = { λ i k. plain.type_findings k (implicit_of i).type };

    fn check<'a>(
        &'a self,
        findings: &mut Findings<'a>,
        known: &Known<'_>,
    ) -> Result<(), AllocError> {
        type_findings(findings, known, &self.of)
    }
}

#[tactic(auto, using(crate::proofs::PartLemmas::of_parts))]
impl Checked for Equation77 {
    ghost found_at = { λ e k. plain.equation_findings k (equation_of e) };

    fn check<'a>(
        &'a self,
        findings: &mut Findings<'a>,
        known: &Known<'_>,
    ) -> Result<(), AllocError> {
        let left = known.scalar(self.name.as_slice());
        let are_unlike = !may_agree(left, expr_scalar(known, &self.value));
        mismatch(findings, b"=", are_unlike)?;
        value_findings(findings, known, &self.value)
    }
}

impl Checked for DataGroup77 {
    ghost found_at = { λ g k. plain.group_findings k (data_group_of g) };

    fn check<'a>(
        &'a self,
        findings: &mut Findings<'a>,
        known: &Known<'_>,
    ) -> Result<(), AllocError> {
        listeds_findings(findings, known, ItemUse::Data, self.objects.as_slice())
    }
}

// Adds what is found at a declaration.
#[tactic(auto, using(crate::proofs::PartLemmas::of_parts))]
fn declared_findings<'a>(
    findings: &mut Findings<'a>,
    known: &Known<'_>,
    declared: &'a Declared77,
) -> Result<(), AllocError>
    ensures { OnOk result (shown_findings findings.new ≡ shown_findings findings.old ++ plain.declared_findings (shown_known known.now) (declared_of declared.now)) }
{
    match declared {
        Declared77::Implicit(implicits) => check_all(findings, known, implicits.as_slice()),
        Declared77::Parameter(equations) => check_all(findings, known, equations.as_slice()),
        Declared77::Typed(of, declarators) => {
            type_findings(findings, known, of)?;
            check_all(findings, known, declarators.as_slice())
        }
        Declared77::Dimension(declarators) => check_all(findings, known, declarators.as_slice()),
        Declared77::Common(blocks) => check_all(findings, known, blocks.as_slice()),
        Declared77::Data(groups) => check_all(findings, known, groups.as_slice()),
        Declared77::Equivalence(_) => Ok(()),
        Declared77::External(_) => Ok(()),
        Declared77::Intrinsic(_) => Ok(()),
        Declared77::Save(_) => Ok(()),
        Declared77::Format(_) => Ok(()),
    }
}

// Adds what is found at the header of a unit.
fn header_findings<'a>(
    findings: &mut Findings<'a>,
    known: &Known<'_>,
    header: &'a Header77,
) -> Result<(), AllocError>
    ensures { OnOk result (shown_findings findings.new ≡ shown_findings findings.old ++ plain.header_findings (shown_known known.now) (header_of header.now)) }
{
    match header {
        Header77::Function(Some(of), _, _) => type_findings(findings, known, of),
        Header77::Function(None, _, _)
        | Header77::Program(_)
        | Header77::Subroutine(_, _)
        | Header77::BlockData(_) => Ok(()),
    }
}

// Adds what is found at a statement function.
#[tactic(auto, using(crate::proofs::PartLemmas::of_parts))]
fn function_findings<'a>(
    findings: &mut Findings<'a>,
    known: &Known<'_>,
    function: &'a StmtFunction,
) -> Result<(), AllocError>
    ensures { OnOk result (shown_findings findings.new ≡ shown_findings findings.old ++ plain.function_findings (shown_known known.now) function.now.name function.now.dummies (expr_of function.now.value)) }
{
    let left = known.scalar(function.name.as_slice());
    let are_unlike = !may_agree(left, expr_scalar(known, &function.value));
    mismatch(findings, b"=", are_unlike)?;
    let around = Around::Inside(function.name.as_slice(), function.dummies.as_slice());
    let value = Standing {
        whole: false,
        is_place: false,
    };
    expr_findings(findings, known, around, value, &function.value)
}

// ---- executable statements

// Adds what is found at a part that has this type.
#[tactic(auto, using(crate::proofs::PartLemmas::of_parts))]
fn part_findings<'a>(
    findings: &mut Findings<'a>,
    known: &Known<'_>,
    word: &'a [u8],
    wanted: Scalar,
    expr: &'a Expr,
) -> Result<(), AllocError>
    ensures { OnOk result (shown_findings findings.new ≡ shown_findings findings.old ++ plain.part_findings (shown_known known.now) word.entry.now (kind_shown wanted) (expr_of expr.now)) }
{
    let is_apart = is_apart(known, wanted, expr);
    mismatch(findings, word, is_apart)?;
    value_findings(findings, known, expr)
}

// Adds what is found at an assignment.
#[tactic(auto, using(crate::proofs::PartLemmas::of_parts))]
fn assign_findings<'a>(
    findings: &mut Findings<'a>,
    known: &Known<'_>,
    variable: &'a Expr,
    value: &'a Expr,
) -> Result<(), AllocError>
    ensures { OnOk result (shown_findings findings.new ≡ shown_findings findings.old ++ plain.simple_findings (shown_known known.now) (s.assign (expr_of variable.now) (expr_of value.now))) }
{
    variable_findings(findings, known, variable)?;
    let are_unlike = !may_agree(expr_scalar(known, variable), expr_scalar(known, value));
    mismatch(findings, b"=", are_unlike)?;
    value_findings(findings, known, value)
}

// Adds what is found at the actual arguments of a CALL.
#[tactic(auto, using(crate::proofs::PartLemmas::part_steps))]
fn actual_findings<'a>(
    findings: &mut Findings<'a>,
    known: &Known<'_>,
    actuals: &'a [Expr],
) -> Result<(), AllocError>
    ensures { OnOk result (shown_findings findings.new ≡ shown_findings findings.old ++ flat_map (plain.expr_findings (shown_known known.now) elsewhere true false) (map expr_of actuals.now)) }
{
    let actual = Standing {
        whole: true,
        is_place: false,
    };
    for expr in actuals {
        expr_findings(findings, known, Around::Elsewhere, actual, expr)?;
    }
    Ok(())
}

// Adds what is found at a simple statement.
fn simple_findings<'a>(
    findings: &mut Findings<'a>,
    known: &Known<'_>,
    statement: &'a Stmt77,
) -> Result<(), AllocError>
    ensures { OnOk result (shown_findings findings.new ≡ shown_findings findings.old ++ plain.simple_findings (shown_known known.now) (simple_of statement.now)) }
{
    match statement {
        Stmt77::Assign(variable, value) => assign_findings(findings, known, variable, value),
        Stmt77::Computed(_, expr) => {
            part_findings(findings, known, b"GOTO", Scalar::Integer, expr)
        }
        Stmt77::Arithmetic(expr, _, _, _) => {
            part_findings(findings, known, b"IF", Scalar::Integer, expr)
        }
        Stmt77::Call(_, actuals) => actual_findings(findings, known, actuals.as_slice()),
        Stmt77::Read(by, items) => read_findings(findings, known, by.get(), items.as_slice()),
        Stmt77::Write(control, items) => transfer_findings(
            findings,
            known,
            b"WRITE",
            ItemUse::Written,
            control.get(),
            items.as_slice(),
        ),
        Stmt77::Print(_, items) => {
            items_findings(
                findings,
                known,
                b"PRINT",
                ItemUse::Written,
                items.as_slice(),
            )
        }
        Stmt77::Open(control) => file_findings(findings, known, b"OPEN", control.get()),
        Stmt77::Close(control) => file_findings(findings, known, b"CLOSE", control.get()),
        Stmt77::Rewind(control) => file_findings(findings, known, b"REWIND", control.get()),
        Stmt77::Goto(_) => Ok(()),
        Stmt77::Continue => Ok(()),
        Stmt77::Return => Ok(()),
        Stmt77::Stop(_) => Ok(()),
    }
}

// Adds what is found at a DO.
#[tactic(auto, using(crate::proofs::PartLemmas::of_parts))]
fn head_findings<'a>(
    findings: &mut Findings<'a>,
    known: &Known<'_>,
    head: &'a DoHead,
) -> Result<(), AllocError>
    ensures { OnOk result (shown_findings findings.new ≡ shown_findings findings.old ++ plain.statement_findings (shown_known known.now) (do_statement head.now)) }
{
    let is_apart = is_apart_do(known, &head.var, &head.from, &head.to, &head.by);
    mismatch(findings, b"DO", is_apart)?;
    do_findings(findings, known, &head.var, &head.from, &head.to, &head.by)
}

/// Adds what is found at the parts of a statement, from left to right: wrong types, wrong numbers of subscripts and arguments, and
/// arrays without subscripts where elements must stand. Keywords come first, an operator between its operands, a name before its
/// list.
#[tactic(auto, using(crate::proofs::PartLemmas::of_parts))]
pub fn statement_findings<'a>(
    findings: &mut Findings<'a>,
    known: &Known<'_>,
    part: Part<'a>,
) -> Result<(), AllocError>
    ensures { OnOk result (shown_findings findings.new ≡ shown_findings findings.old ++ plain.statement_findings (shown_known known.now) (shown_part part.entry)) }
{
    match part {
        Part::Header(header) => header_findings(findings, known, header),
        Part::Declared(declared) => declared_findings(findings, known, declared),
        Part::Function(function) => function_findings(findings, known, function),
        Part::Simple(statement) => simple_findings(findings, known, statement),
        Part::Guarded(test, statement) => {
            part_findings(findings, known, b"IF", Scalar::Logical, test)?;
            simple_findings(findings, known, statement)
        }
        Part::IfThen(test) => part_findings(findings, known, b"IF", Scalar::Logical, test),
        Part::ElseIf(test) => part_findings(findings, known, b"ELSEIF", Scalar::Logical, test),
        Part::Else => Ok(()),
        Part::EndIf => Ok(()),
        Part::Do(head) => head_findings(findings, known, head),
    }
}
