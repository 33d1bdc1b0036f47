// Which values fit an operation.
ghost use Rattle.std.specs.Prelude.{◌≡◌, ◌≢◌, ◌∷◌, [], map, IsTrue, ◌↔◌};
ghost use Rattle.std.specs.List.{list_all};
ghost use Rattle.std.specs.Option.{is_some};
ghost use Rattle.std.specs.Cmp.Lexicographic.{pointwise};
ghost use Rattle.text_base.specs.Values.{value_of, kind_of, integers, logicals, characters};
ghost use Rattle.text_base.specs.Operations.{outcome, unfit, is_kind, from_related, from_two_or_more};

use text_base::{Op, Value};

/// Whether values fit an operation by their number and their types (X3.9 sections 6 and 15.10; ISO/IEC 1539:1991 sections 7.1.2
/// and 13). Operators take as many as they have operands, MAX and MIN two or more, and other intrinsic functions one or two.
#[tactic(auto, using(crate::proofs::FitTypes::fits_where))]
pub fn fits(op: Op, values: &[Value]) -> bool
    ensures { IsTrue result ↔ (outcome op (map value_of values.now) ≢ unfit) }
{
    match op {
        Op::Positive | Op::Negative | Op::Abs | Op::Iabs | Op::Char => is_integer(values),
        Op::Power | Op::Times | Op::Over | Op::Plus | Op::Minus => are_integers(values),
        Op::Mod | Op::Sign | Op::Isign | Op::Dim | Op::Idim => are_integers(values),
        Op::Max | Op::Max0 | Op::Min | Op::Min0 => are_two_or_more(values),
        Op::Lt | Op::Le | Op::Eq | Op::Ne | Op::Gt | Op::Ge => are_related(values),
        Op::Not => is_logical(values),
        Op::And | Op::Or | Op::Eqv | Op::Neqv => are_logicals(values),
        Op::Len | Op::Ichar => is_text(values),
        Op::Concat | Op::Index | Op::Lge | Op::Lgt | Op::Lle | Op::Llt => are_texts(values),
    }
}

// One integer.
fn is_integer(values: &[Value]) -> bool
    ensures { result ≡ pointwise is_kind (integers ∷ []) (map kind_of (map value_of values.now)) }
{
    matches!(values, [Value::Integer(_)])
}

// Two integers.
fn are_integers(values: &[Value]) -> bool
    ensures { result ≡ pointwise is_kind (integers ∷ integers ∷ []) (map kind_of (map value_of values.now)) }
{
    matches!(values, [Value::Integer(_), Value::Integer(_)])
}

// Two integers or more.
#[tactic(auto, using(std::proofs::lemmas::Grind::common_steps, crate::proofs::FitTypes::map_twice))]
fn are_two_or_more(values: &[Value]) -> bool
    ensures { result ≡ is_some (from_two_or_more (map kind_of (map value_of values.now))) }
{
    2 <= values.len() && all_integers(values)
}

// Integers alone.
fn all_integers(values: &[Value]) -> bool
    ensures { result ≡ list_all (λ value. is_kind integers (kind_of (value_of value))) values.now }
{
    values
        .iter()
        .all(|value| matches!(value, Value::Integer(_)))
}

// Two integers, or two texts.
fn are_related(values: &[Value]) -> bool
    ensures { result ≡ is_some (from_related (map kind_of (map value_of values.now))) }
{
    are_integers(values) || are_texts(values)
}

// One logical.
fn is_logical(values: &[Value]) -> bool
    ensures { result ≡ pointwise is_kind (logicals ∷ []) (map kind_of (map value_of values.now)) }
{
    matches!(values, [Value::Logical(_)])
}

// Two logicals.
fn are_logicals(values: &[Value]) -> bool
    ensures { result ≡ pointwise is_kind (logicals ∷ logicals ∷ []) (map kind_of (map value_of values.now)) }
{
    matches!(values, [Value::Logical(_), Value::Logical(_)])
}

// One text.
fn is_text(values: &[Value]) -> bool
    ensures { result ≡ pointwise is_kind (characters ∷ []) (map kind_of (map value_of values.now)) }
{
    matches!(values, [Value::Text(_)])
}

// Two texts.
fn are_texts(values: &[Value]) -> bool
    ensures { result ≡ pointwise is_kind (characters ∷ characters ∷ []) (map kind_of (map value_of values.now)) }
{
    matches!(values, [Value::Text(_), Value::Text(_)])
}
