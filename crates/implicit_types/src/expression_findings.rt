// What is found at the parts of expressions.
ghost use Rattle.std.specs.Prelude.{◌≡◌, ◌∷◌, ◌++◌, [], not, map, zip, OnOk};
ghost use Rattle.std.specs.List.{list_all, list_any};
ghost use Rattle.std.specs.Option.{option_map};
ghost use Rattle.expr_tree.specs.Plain.{expr_of, exprs_of, bound_of, unary_of, binary_of};
ghost use Rattle.names77.specs.RoleTables.{is_called};
ghost use Rattle.names77.specs.Known.{kind_in};
ghost use Rattle.tree77.specs.Lexemes.{operator_text};
ghost use Rattle.names77.specs.Views.{kind_shown, shown_known, shown_around};
ghost use Rattle.text_base.specs.declared.refusal.Cause.TheVariants.{TypeMismatch};
ghost use Rattle.text_base.specs.Operators.{unary_op, binary_op};
ghost use Rattle.implicit_types.specs.Operands.{may_agree, takes, kind_of, is_apart};
ghost use Rattle.implicit_types.specs.PartFindings as plain;
ghost use Rattle.implicit_types.specs.Views.{shown_findings};

use crate::findings::{Findings, add};
use crate::operands::{expr_scalar, is_apart, may_agree, takes_arguments, takes_one, takes_two};
use expr_tree::{BinaryOp, Expr, UnaryOp};
use names77::{Allowed, Around, Known, Role, Scalar, binary_op, is_among, referred_as, unary_op};
use sqlite_items::Boxed;
use std::alloc::AllocError;
use text_base::{Cause, Name, Op};
use value_ops::intrinsic;

/// What may stand in the place of an expression: whether a whole array may, and whether a variable, an array element or a
/// substring must.
#[derive(Clone, Copy)]
pub struct Standing {
    pub whole: bool,
    pub is_place: bool,
}

// A value, which is no whole array.
const VALUE: Standing = Standing {
    whole: false,
    is_place: false,
};

// A variable, an array element or a substring.
const PLACE: Standing = Standing {
    whole: false,
    is_place: true,
};

/// Adds a finding of a name, where it is one and the name isn't real.
pub fn of_name<'a>(
    findings: &mut Findings<'a>,
    known: &Known<'_>,
    cause: Cause,
    name: &'a [u8],
    found: bool,
) -> Result<(), AllocError>
    ensures { OnOk result (shown_findings findings.new ≡ shown_findings findings.old ++ plain.of_name (shown_known known.now) cause name.entry.now found) }
{
    add(findings, cause, name, found && !known.is_real(name))
}

/// Adds that a part has a wrong type, named by an operator or a keyword.
pub fn mismatch<'a>(
    findings: &mut Findings<'a>,
    word: &'a [u8],
    found: bool,
) -> Result<(), AllocError>
    ensures { OnOk result (shown_findings findings.new ≡ shown_findings findings.old ++ plain.mismatch word.entry.now found) }
{
    add(findings, Cause::TypeMismatch, word, found)
}

// ---- lists behind names

// Whether one of some expressions has a type other than this one.
fn any_apart(known: &Known<'_>, wanted: Scalar, exprs: &[Expr]) -> bool
    ensures { result ≡ list_any (λ e. is_apart (shown_known known.now) (kind_shown wanted) (expr_of e)) exprs.now }
{
    exprs.iter().any(|expr| is_apart(known, wanted, expr))
}

// Whether an array has another number of dimensions.
fn has_other_count(known: &Known<'_>, name: &[u8], subscripts: &[Expr]) -> bool
    ensures { result ≡ plain.has_other_count (shown_known known.now) name.now (exprs_of (map expr_of subscripts.now)) }
{
    match known.table.row(name).shape {
        Some(dimensions) => dimensions.len() != subscripts.len(),
        None => true,
    }
}

// Adds what is found at the subscripts of an array.
#[tactic(auto, using(crate::proofs::FindingLemmas::lists))]
fn subscript_findings<'a>(
    findings: &mut Findings<'a>,
    known: &Known<'_>,
    name: &'a [u8],
    subscripts: &[Expr],
) -> Result<(), AllocError>
    ensures { OnOk result (shown_findings findings.new ≡ shown_findings findings.old ++ plain.subscript_findings (shown_known known.now) name.entry.now (exprs_of (map expr_of subscripts.now))) }
{
    let are_apart = any_apart(known, Scalar::Integer, subscripts);
    let are_others = has_other_count(known, name, subscripts);
    of_name(findings, known, Cause::TypeMismatch, name, are_apart)?;
    of_name(findings, known, Cause::SubscriptCount, name, are_others)
}

// Whether arguments fit an intrinsic function.
fn fits_intrinsic(known: &Known<'_>, op: Option<Op>, arguments: &[Expr]) -> bool
    ensures { result ≡ plain.fits_intrinsic (shown_known known.now) op (exprs_of (map expr_of arguments.now)) }
{
    match op {
        Some(op) => takes_arguments(known, op, arguments),
        None => true,
    }
}

// Whether an argument agrees with a dummy.
fn agrees(known: &Known<'_>, dummy: &Name, argument: &Expr) -> bool
    ensures { result ≡ may_agree (kind_in (shown_known known.now) dummy.now) (kind_of (shown_known known.now) (expr_of argument.now)) }
{
    may_agree(known.scalar(dummy.as_slice()), expr_scalar(known, argument))
}

// Whether arguments agree with dummies one by one, as far as both go.
fn agree_in_turn(known: &Known<'_>, dummies: &[Name], arguments: &[Expr]) -> bool
    ensures { result ≡ list_all (λ p. may_agree (kind_in (shown_known known.now) p.0) (kind_of (shown_known known.now) (expr_of p.1))) (zip dummies.now arguments.now) }
{
    dummies
        .iter()
        .zip(arguments)
        .all(|(dummy, argument)| agrees(known, dummy, argument))
}

// Whether arguments fit a statement function that has such dummies.
#[tactic(auto, using(crate::proofs::FindingLemmas::dummies_each))]
fn fits_dummies(known: &Known<'_>, dummies: &[Name], arguments: &[Expr]) -> bool
    ensures { result ≡ plain.fits_dummies (shown_known known.now) dummies.now (exprs_of (map expr_of arguments.now)) }
{
    dummies.len() == arguments.len() && agree_in_turn(known, dummies, arguments)
}

// Whether arguments fit a function, which is a statement function where its dummies are known.
fn fits_function(known: &Known<'_>, dummies: Option<&[Name]>, arguments: &[Expr]) -> bool
    ensures { result ≡ plain.fits_function (shown_known known.now) (option_map (λ d. d.now) dummies.entry) (exprs_of (map expr_of arguments.now)) }
{
    match dummies {
        Some(dummies) => fits_dummies(known, dummies, arguments),
        None => true,
    }
}

// What a name before a list may be.
fn referred_in(known: &Known<'_>, name: &[u8]) -> Allowed
    ensures { result ≡ plain.referred_in (shown_known known.now) name.now }
{
    referred_as(name, &known.table.row(name))
}

// Whether arguments fit what their name may be.
fn fits_arguments(known: &Known<'_>, allowed: Allowed, name: &[u8], arguments: &[Expr]) -> bool
    ensures { result ≡ plain.fits_arguments (shown_known known.now) allowed name.now (exprs_of (map expr_of arguments.now)) }
{
    match allowed {
        Allowed::Only(Role::Intrinsic) => fits_intrinsic(known, intrinsic(name), arguments),
        Allowed::Only(Role::StmtFunction) => {
            fits_function(known, known.table.row(name).dummies, arguments)
        }
        _ => true,
    }
}

// Adds what is found at a name before a list that is no array.
fn other_findings<'a>(
    findings: &mut Findings<'a>,
    known: &Known<'_>,
    is_place: bool,
    name: &'a [u8],
    arguments: &[Expr],
) -> Result<(), AllocError>
    ensures { OnOk result (shown_findings findings.new ≡ shown_findings findings.old ++ plain.other_findings (shown_known known.now) is_place name.entry.now (exprs_of (map expr_of arguments.now))) }
{
    if is_place {
        of_name(findings, known, Cause::SubscriptCount, name, true)
    } else {
        let fits = fits_arguments(known, referred_in(known, name), name, arguments);
        of_name(findings, known, Cause::TypeMismatch, name, !fits)
    }
}

// Adds what is found at a name and the list behind it.
fn list_findings<'a>(
    findings: &mut Findings<'a>,
    known: &Known<'_>,
    is_place: bool,
    name: &'a [u8],
    list: &[Expr],
) -> Result<(), AllocError>
    ensures { OnOk result (shown_findings findings.new ≡ shown_findings findings.old ++ plain.list_findings (shown_known known.now) is_place name.entry.now (exprs_of (map expr_of list.now))) }
{
    if known.is_array(name) {
        subscript_findings(findings, known, name, list)
    } else {
        other_findings(findings, known, is_place, name, list)
    }
}

// Whether a name is called elsewhere than in its statement.
fn is_called(allowed: Allowed) -> bool
    ensures { result ≡ is_called allowed }
{
    matches!(allowed, Allowed::Only(Role::Function | Role::Result))
}

// Whether whole arrays may stand in the list behind a name.
fn takes_arrays(known: &Known<'_>, name: &[u8]) -> bool
    ensures { result ≡ plain.takes_arrays (shown_known known.now) name.now }
{
    !known.is_array(name) && is_called(referred_in(known, name))
}

// ---- names, substrings and operators

// Whether a name is that of an array, and no dummy of the statement function that it stands in.
fn is_array_there(known: &Known<'_>, around: Around<'_>, name: &[u8]) -> bool
    ensures { result ≡ plain.is_array_there (shown_known known.now) (shown_around around.entry) name.now }
{
    let is_array = known.is_array(name);
    match around {
        Around::Elsewhere => is_array,
        Around::Inside(_, dummies) => is_array && !is_among(dummies, name),
    }
}

// How a sign or `.NOT.` is written.
fn sign_text(sign: UnaryOp) -> &'static [u8]
    ensures { result.now ≡ plain.sign_text (unary_of sign) }
{
    match sign {
        UnaryOp::Plus => b"+".as_slice(),
        UnaryOp::Minus => b"-".as_slice(),
        UnaryOp::Not => b".NOT.".as_slice(),
    }
}

// How an operator is written.
fn operator_text(operator: BinaryOp) -> &'static [u8]
    ensures { result.now ≡ operator_text (binary_of operator) }
{
    match operator {
        BinaryOp::Power => b"**".as_slice(),
        BinaryOp::Times => b"*".as_slice(),
        BinaryOp::Over => b"/".as_slice(),
        BinaryOp::Plus => b"+".as_slice(),
        BinaryOp::Minus => b"-".as_slice(),
        BinaryOp::Concat => b"//".as_slice(),
        BinaryOp::Lt => b".LT.".as_slice(),
        BinaryOp::Le => b".LE.".as_slice(),
        BinaryOp::Eq => b".EQ.".as_slice(),
        BinaryOp::Ne => b".NE.".as_slice(),
        BinaryOp::Gt => b".GT.".as_slice(),
        BinaryOp::Ge => b".GE.".as_slice(),
        BinaryOp::And => b".AND.".as_slice(),
        BinaryOp::Or => b".OR.".as_slice(),
        BinaryOp::Eqv => b".EQV.".as_slice(),
        BinaryOp::Neqv => b".NEQV.".as_slice(),
    }
}

// The name that has a substring; no characters where there is none.
#[tactic(auto, using(expr_tree::proofs::Equations::expr_equations))]
fn substring_name<'a>(variable: &'a Expr) -> &'a [u8]
    ensures { result.now ≡ plain.substring_name (expr_of variable.now) }
{
    match variable {
        Expr::Name(name) | Expr::Call(name, _) => name.as_slice(),
        Expr::Int(_) | Expr::Bool(_) | Expr::Text(_) | Expr::Substring(_, _, _) => b"".as_slice(),
        Expr::Unary(_, _) | Expr::Binary(_, _, _) | Expr::Paren(_) => b"".as_slice(),
    }
}

// Whether a bound of a substring is no integer.
fn is_apart_bound(known: &Known<'_>, bound: &Option<Boxed<Expr>>) -> bool
    ensures { result ≡ plain.is_apart_bound (shown_known known.now) (bound_of (option_map expr_of bound.now)) }
{
    match bound {
        Some(expr) => is_apart(known, Scalar::Integer, expr.get()),
        None => false,
    }
}

// Adds that what has a substring is no characters, or a bound of it no integer.
fn substring_findings<'a>(
    findings: &mut Findings<'a>,
    known: &Known<'_>,
    variable: &'a Expr,
    from: &Option<Boxed<Expr>>,
    to: &Option<Boxed<Expr>>,
) -> Result<(), AllocError>
    ensures { OnOk result (shown_findings findings.new ≡ shown_findings findings.old ++ plain.of_name (shown_known known.now) TypeMismatch (plain.substring_name (expr_of variable.now)) (plain.is_wrong_substring (shown_known known.now) (expr_of variable.now) (bound_of (option_map expr_of from.now)) (bound_of (option_map expr_of to.now)))) }
{
    let is_wrong = is_apart(known, Scalar::Text, variable)
        || is_apart_bound(known, from)
        || is_apart_bound(known, to);
    of_name(
        findings,
        known,
        Cause::TypeMismatch,
        substring_name(variable),
        is_wrong,
    )
}

// Adds that the operand of a sign or `.NOT.` doesn't fit it.
fn sign_findings<'a>(
    findings: &mut Findings<'a>,
    known: &Known<'_>,
    sign: UnaryOp,
    operand: &Expr,
) -> Result<(), AllocError>
    ensures { OnOk result (shown_findings findings.new ≡ shown_findings findings.old ++ plain.mismatch (plain.sign_text (unary_of sign)) (not (takes (unary_op (unary_of sign)) (kind_of (shown_known known.now) (expr_of operand.now) ∷ [])))) }
{
    let fits = takes_one(unary_op(sign), expr_scalar(known, operand));
    mismatch(findings, sign_text(sign), !fits)
}

// Adds that the operands of an operator don't fit it.
fn operator_findings<'a>(
    findings: &mut Findings<'a>,
    known: &Known<'_>,
    operator: BinaryOp,
    left: &Expr,
    right: &Expr,
) -> Result<(), AllocError>
    ensures { OnOk result (shown_findings findings.new ≡ shown_findings findings.old ++ plain.mismatch (operator_text (binary_of operator)) (not (takes (binary_op (binary_of operator)) (kind_of (shown_known known.now) (expr_of left.now) ∷ kind_of (shown_known known.now) (expr_of right.now) ∷ [])))) }
{
    let fits = takes_two(
        binary_op(operator),
        expr_scalar(known, left),
        expr_scalar(known, right),
    );
    mismatch(findings, operator_text(operator), !fits)
}

// ---- expressions

/// Adds what is found at an expression, from left to right.
#[cycle(expressions)]
#[tactic(auto, using(crate::proofs::FindingLemmas::expr_steps))]
pub fn expr_findings<'a>(
    findings: &mut Findings<'a>,
    known: &Known<'_>,
    around: Around<'a>,
    standing: Standing,
    expr: &'a Expr,
) -> Result<(), AllocError>
    ensures { OnOk result (shown_findings findings.new ≡ shown_findings findings.old ++ plain.expr_findings (shown_known known.now) (shown_around around.entry) standing.whole standing.is_place (expr_of expr.now)) }
{
    match expr {
        Expr::Int(_) | Expr::Bool(_) | Expr::Text(_) => Ok(()),
        Expr::Name(name) => {
            let name = name.as_slice();
            let found = !standing.whole && is_array_there(known, around, name);
            of_name(findings, known, Cause::SubscriptCount, name, found)
        }
        Expr::Call(name, list) => {
            let name = name.as_slice();
            let whole = takes_arrays(known, name);
            list_findings(findings, known, standing.is_place, name, list.as_slice())?;
            exprs_findings(findings, known, around, whole, list.as_slice())
        }
        Expr::Substring(variable, from, to) => {
            let variable = variable.get();
            substring_findings(findings, known, variable, from, to)?;
            expr_findings(findings, known, around, PLACE, variable)?;
            bound_findings(findings, known, around, from)?;
            bound_findings(findings, known, around, to)
        }
        Expr::Unary(sign, operand) => {
            sign_findings(findings, known, *sign, operand.get())?;
            expr_findings(findings, known, around, VALUE, operand.get())
        }
        Expr::Binary(operator, left, right) => {
            expr_findings(findings, known, around, VALUE, left.get())?;
            operator_findings(findings, known, *operator, left.get(), right.get())?;
            expr_findings(findings, known, around, VALUE, right.get())
        }
        Expr::Paren(inner) => expr_findings(findings, known, around, VALUE, inner.get()),
    }
}

// Adds what is found at expressions, one after another.
#[cycle(expressions)]
#[tactic(auto, using(std::proofs::lemmas::Grind::common_steps, crate::proofs::FindingLemmas::steps))]
fn exprs_findings<'a>(
    findings: &mut Findings<'a>,
    known: &Known<'_>,
    around: Around<'a>,
    whole: bool,
    exprs: &'a [Expr],
) -> Result<(), AllocError>
    ensures { OnOk result (shown_findings findings.new ≡ shown_findings findings.old ++ plain.exprs_findings (shown_known known.now) (shown_around around.entry) whole (exprs_of (map expr_of exprs.now))) }
{
    let standing = Standing {
        whole,
        is_place: false,
    };
    for expr in exprs {
        expr_findings(findings, known, around, standing, expr)?;
    }
    Ok(())
}

// Adds what is found at a bound of a substring.
#[cycle(expressions)]
fn bound_findings<'a>(
    findings: &mut Findings<'a>,
    known: &Known<'_>,
    around: Around<'a>,
    bound: &'a Option<Boxed<Expr>>,
) -> Result<(), AllocError>
    ensures { OnOk result (shown_findings findings.new ≡ shown_findings findings.old ++ plain.bound_findings (shown_known known.now) (shown_around around.entry) (bound_of (option_map expr_of bound.now))) }
{
    match bound {
        Some(expr) => expr_findings(findings, known, around, VALUE, expr.get()),
        None => Ok(()),
    }
}

/// Adds what is found at an expression whose value is used.
pub fn value_findings<'a>(
    findings: &mut Findings<'a>,
    known: &Known<'_>,
    expr: &'a Expr,
) -> Result<(), AllocError>
    ensures { OnOk result (shown_findings findings.new ≡ shown_findings findings.old ++ plain.value_findings (shown_known known.now) (expr_of expr.now)) }
{
    expr_findings(findings, known, Around::Elsewhere, VALUE, expr)
}

/// Adds what is found at an expression whose value is used, where there is one.
pub fn option_findings<'a>(
    findings: &mut Findings<'a>,
    known: &Known<'_>,
    expr: &'a Option<Expr>,
) -> Result<(), AllocError>
    ensures { OnOk result (shown_findings findings.new ≡ shown_findings findings.old ++ plain.option_findings (shown_known known.now) (option_map expr_of expr.now)) }
{
    match expr {
        Some(expr) => value_findings(findings, known, expr),
        None => Ok(()),
    }
}

/// Adds what is found at an expression that must be a variable, an array element or a substring.
pub fn variable_findings<'a>(
    findings: &mut Findings<'a>,
    known: &Known<'_>,
    expr: &'a Expr,
) -> Result<(), AllocError>
    ensures { OnOk result (shown_findings findings.new ≡ shown_findings findings.old ++ plain.variable_findings (shown_known known.now) (expr_of expr.now)) }
{
    expr_findings(findings, known, Around::Elsewhere, PLACE, expr)
}
