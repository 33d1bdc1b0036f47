// The types of expressions, and which types operands and arguments may have.
ghost use Rattle.std.specs.Prelude.{◌≡◌, ◌∷◌, [], map};
ghost use Rattle.std.specs.List.{list_all};
ghost use Rattle.std.specs.Option.{option_map};
ghost use Rattle.expr_tree.specs.Plain.{expr_of, exprs_of, unary_of, binary_of};
ghost use Rattle.text_base.specs.Operations.{is_kind};
ghost use Rattle.names77.specs.Views.{kind_shown, shown_known};
ghost use Rattle.implicit_types.specs.Operands as plain;
ghost use Rattle.implicit_types.specs.OperandViews.{shown_operands};

use expr_tree::Expr;
use names77::{Known, Scalar, binary_op, unary_op};
use text_base::Op;

/// Whether a type may be this one; a real name's may be any.
pub fn may_be(scalar: Option<Scalar>, wanted: Scalar) -> bool
    ensures { result ≡ plain.may_be (option_map kind_shown scalar) (kind_shown wanted) }
{
    match scalar {
        Some(scalar) => is_scalar(scalar, wanted),
        None => true,
    }
}

// Whether two types are one.
fn is_scalar(scalar: Scalar, wanted: Scalar) -> bool
    ensures { result ≡ is_kind (kind_shown scalar) (kind_shown wanted) }
{
    scalar == wanted
}

/// Whether the types of two expressions may agree.
pub fn may_agree(first: Option<Scalar>, second: Option<Scalar>) -> bool
    ensures { result ≡ plain.may_agree (option_map kind_shown first) (option_map kind_shown second) }
{
    match second {
        Some(second) => may_be(first, second),
        None => true,
    }
}

// The type that an operator gives.
fn operator_scalar(op: Op) -> Scalar
    ensures { kind_shown result ≡ plain.operator_kind op }
{
    match op {
        Op::Concat => Scalar::Text,
        Op::Lt | Op::Le | Op::Eq | Op::Ne | Op::Gt | Op::Ge => Scalar::Logical,
        Op::Not | Op::And | Op::Or | Op::Eqv | Op::Neqv => Scalar::Logical,
        _ => Scalar::Integer,
    }
}

/// The type of an expression; `None` for names that are real or have none (X3.9 section 6).
#[tactic(auto, using(expr_tree::proofs::Equations::expr_equations))]
pub fn expr_scalar(known: &Known<'_>, expr: &Expr) -> Option<Scalar>
    ensures { option_map kind_shown result ≡ plain.kind_of (shown_known known.now) (expr_of expr.now) }
{
    match expr {
        Expr::Int(_) => Some(Scalar::Integer),
        Expr::Bool(_) => Some(Scalar::Logical),
        Expr::Text(_) | Expr::Substring(_, _, _) => Some(Scalar::Text),
        Expr::Name(name) | Expr::Call(name, _) => known.scalar(name.as_slice()),
        Expr::Unary(sign, _) => Some(operator_scalar(unary_op(*sign))),
        Expr::Binary(operator, _, _) => Some(operator_scalar(binary_op(*operator))),
        Expr::Paren(inner) => expr_scalar(known, inner.get()),
    }
}

/// Whether an expression has a type other than this one.
pub fn is_apart(known: &Known<'_>, wanted: Scalar, expr: &Expr) -> bool
    ensures { result ≡ plain.is_apart (shown_known known.now) (kind_shown wanted) (expr_of expr.now) }
{
    !may_be(expr_scalar(known, expr), wanted)
}

// Whether an operation takes so many operands.
fn takes_count(op: Op, count: usize) -> bool
    ensures { result ≡ plain.is_count (plain.count_of op) count }
{
    match op {
        Op::Positive | Op::Negative | Op::Not => count == 1,
        Op::Abs | Op::Iabs | Op::Len | Op::Char | Op::Ichar => count == 1,
        Op::Max | Op::Max0 | Op::Min | Op::Min0 => 2 <= count,
        _ => count == 2,
    }
}

// The type of all operands of an operation; `None` for relations, which take two integers or two texts.
fn operand_scalar(op: Op) -> Option<Scalar>
    ensures { shown_operands (option_map kind_shown result) ≡ plain.operands_of op }
{
    match op {
        Op::Lt | Op::Le | Op::Eq | Op::Ne | Op::Gt | Op::Ge => None,
        Op::Not | Op::And | Op::Or | Op::Eqv | Op::Neqv => Some(Scalar::Logical),
        Op::Concat | Op::Len | Op::Index | Op::Ichar => Some(Scalar::Text),
        Op::Lge | Op::Lgt | Op::Lle | Op::Llt => Some(Scalar::Text),
        _ => Some(Scalar::Integer),
    }
}

/// Whether the operand of a sign or `.NOT.` fits it.
pub fn takes_one(op: Op, operand: Option<Scalar>) -> bool
    ensures { result ≡ plain.takes op (option_map kind_shown operand ∷ []) }
{
    takes_count(op, 1) && may_be_operand(operand_scalar(op), operand)
}

// Whether a type may be that of an operand alone.
fn may_be_operand(wanted: Option<Scalar>, operand: Option<Scalar>) -> bool
    ensures { result ≡ plain.may_be_operands (shown_operands (option_map kind_shown wanted)) (option_map kind_shown operand ∷ []) }
{
    match wanted {
        Some(wanted) => may_be(operand, wanted),
        None => may_be(operand, Scalar::Integer) || may_be(operand, Scalar::Text),
    }
}

/// Whether the operands of an operator fit it.
pub fn takes_two(op: Op, left: Option<Scalar>, right: Option<Scalar>) -> bool
    ensures { result ≡ plain.takes op (option_map kind_shown left ∷ option_map kind_shown right ∷ []) }
{
    takes_count(op, 2) && may_be_operands(operand_scalar(op), left, right)
}

// Whether types may be those of two operands.
fn may_be_operands(wanted: Option<Scalar>, left: Option<Scalar>, right: Option<Scalar>) -> bool
    ensures { result ≡ plain.may_be_operands (shown_operands (option_map kind_shown wanted)) (option_map kind_shown left ∷ option_map kind_shown right ∷ []) }
{
    match wanted {
        Some(wanted) => may_both_be(left, right, wanted),
        None => may_both_be(left, right, Scalar::Integer) || may_both_be(left, right, Scalar::Text),
    }
}

// Whether two types may be this one.
fn may_both_be(left: Option<Scalar>, right: Option<Scalar>, wanted: Scalar) -> bool
    ensures { result ≡ plain.may_all_be (kind_shown wanted) (option_map kind_shown left ∷ option_map kind_shown right ∷ []) }
{
    may_be(left, wanted) && may_be(right, wanted)
}

/// Whether the arguments of an intrinsic function fit it by their number and types (X3.9 section 15.10).
#[tactic(auto, using(crate::proofs::OperandLemmas::arguments))]
pub fn takes_arguments(known: &Known<'_>, op: Op, arguments: &[Expr]) -> bool
    ensures { result ≡ plain.takes op (plain.kinds_of (shown_known known.now) (exprs_of (map expr_of arguments.now))) }
{
    takes_count(op, arguments.len()) && may_be_arguments(known, operand_scalar(op), arguments)
}

// Whether the types of arguments may be those of operands.
#[tactic(auto, using(crate::proofs::OperandLemmas::arguments))]
fn may_be_arguments(known: &Known<'_>, wanted: Option<Scalar>, arguments: &[Expr]) -> bool
    ensures { result ≡ plain.may_be_operands (shown_operands (option_map kind_shown wanted)) (plain.kinds_of (shown_known known.now) (exprs_of (map expr_of arguments.now))) }
{
    match wanted {
        Some(wanted) => may_all_be(known, wanted, arguments),
        None => {
            may_all_be(known, Scalar::Integer, arguments)
                || may_all_be(known, Scalar::Text, arguments)
        }
    }
}

// Whether the types of all these expressions may be this one.
fn may_all_be(known: &Known<'_>, wanted: Scalar, exprs: &[Expr]) -> bool
    ensures { result ≡ list_all (λ e. plain.may_be (plain.kind_of (shown_known known.now) (expr_of e)) (kind_shown wanted)) exprs.now }
{
    exprs
        .iter()
        .all(|expr| may_be(expr_scalar(known, expr), wanted))
}
