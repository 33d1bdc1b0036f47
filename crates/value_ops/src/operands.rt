// The values that an operation takes, by their number and types.
ghost use Rattle.std.specs.Prelude.{◌≡◌, ◌∷◌, [], map, true, Bool};
ghost use Rattle.std.specs.Int.{int_max, int_min};
ghost use Rattle.std.specs.Option.{is_some};
ghost use Rattle.std.specs.declared.cmp.Ordering.{Ordering as Order};
ghost use Rattle.std.specs.Cmp.Lexicographic.{pointwise};
ghost use Rattle.text_base.specs.Values.{value_of, kind_of, integer, logical, string, integers, logicals, characters};
ghost use Rattle.text_base.specs.Operations.{is_kind, from_related, from_two_or_more, related, texts_related, all_integers, outermost, computes};

use crate::text::compare_texts;
use std::cmp::Ordering;
use text_base::Value;

/// The integer that is the only value.
pub fn one_integer(values: &[Value]) -> i32
    requires { pointwise is_kind (integers ∷ []) (map kind_of (map value_of values.now)) ≡ true }
    ensures { map value_of values.now ≡ integer result ∷ [] }
{
    match values {
        [Value::Integer(a)] => *a,
        _ => unreachable!(),
    }
}

/// The integers that are the two values.
pub fn two_integers(values: &[Value]) -> (i32, i32)
    requires { pointwise is_kind (integers ∷ integers ∷ []) (map kind_of (map value_of values.now)) ≡ true }
    ensures { map value_of values.now ≡ integer result.0 ∷ integer result.1 ∷ [] }
{
    match values {
        [Value::Integer(a), Value::Integer(b)] => (*a, *b),
        _ => unreachable!(),
    }
}

/// The logical that is the only value.
pub fn one_logical(values: &[Value]) -> bool
    requires { pointwise is_kind (logicals ∷ []) (map kind_of (map value_of values.now)) ≡ true }
    ensures { map value_of values.now ≡ logical result ∷ [] }
{
    match values {
        [Value::Logical(a)] => *a,
        _ => unreachable!(),
    }
}

/// The logicals that are the two values.
pub fn two_logicals(values: &[Value]) -> (bool, bool)
    requires { pointwise is_kind (logicals ∷ logicals ∷ []) (map kind_of (map value_of values.now)) ≡ true }
    ensures { map value_of values.now ≡ logical result.0 ∷ logical result.1 ∷ [] }
{
    match values {
        [Value::Logical(a), Value::Logical(b)] => (*a, *b),
        _ => unreachable!(),
    }
}

/// The characters that are the only value.
pub fn one_text(values: &[Value]) -> &[u8]
    requires { pointwise is_kind (characters ∷ []) (map kind_of (map value_of values.now)) ≡ true }
    ensures { map value_of values.now ≡ string result.now ∷ [] }
{
    match values {
        [Value::Text(a)] => a.as_slice(),
        _ => unreachable!(),
    }
}

/// The characters that are the two values.
pub fn two_texts(values: &[Value]) -> (&[u8], &[u8])
    requires { pointwise is_kind (characters ∷ characters ∷ []) (map kind_of (map value_of values.now)) ≡ true }
    ensures { map value_of values.now ≡ string result.0.now ∷ string result.1.now ∷ [] }
{
    match values {
        [Value::Text(a), Value::Text(b)] => (a.as_slice(), b.as_slice()),
        _ => unreachable!(),
    }
}

/// How two integers or two texts compare (X3.9 section 6.3; ISO/IEC 1539:1991 section 7.2.3).
pub fn compare(values: &[Value]) -> Ordering
    requires { is_some (from_related (map kind_of (map value_of values.now))) ≡ true }
    ensures { (test : Order → Bool) → related test (map value_of values.now) ≡ computes (logical (test result)) }
{
    match values {
        [Value::Integer(a), Value::Integer(b)] => a.cmp(b),
        [Value::Text(a), Value::Text(b)] => compare_texts(a.as_slice(), b.as_slice()),
        _ => unreachable!(),
    }
}

/// How two texts compare, as LGE, LGT, LLE and LLT do it.
pub fn compare_characters(values: &[Value]) -> Ordering
    requires { pointwise is_kind (characters ∷ characters ∷ []) (map kind_of (map value_of values.now)) ≡ true }
    ensures { (test : Order → Bool) → texts_related test (map value_of values.now) ≡ computes (logical (test result)) }
{
    let (a, b) = two_texts(values);
    compare_texts(a, b)
}

// The integer that is the first of two values or more, and the values after it.
fn first_integer(values: &[Value]) -> (i32, &[Value])
    requires { is_some (from_two_or_more (map kind_of (map value_of values.now))) ≡ true }
    ensures { values.now ≡ Value.Integer result.0 ∷ result.1.now }
{
    match values {
        [Value::Integer(first), rest @ ..] => (*first, rest),
        _ => unreachable!(),
    }
}

/// The greatest of two integers or more.
pub fn greatest(values: &[Value]) -> i32
    requires { is_some (from_two_or_more (map kind_of (map value_of values.now))) ≡ true }
    ensures { outermost int_max (all_integers (map value_of values.now)) ≡ computes (integer result) }
{
    let (mut greatest, rest) = first_integer(values);
    for value in rest {
        if let Value::Integer(z) = value {
            greatest = greatest.max(*z);
        }
    }
    greatest
}

/// The least of two integers or more.
pub fn least(values: &[Value]) -> i32
    requires { is_some (from_two_or_more (map kind_of (map value_of values.now))) ≡ true }
    ensures { outermost int_min (all_integers (map value_of values.now)) ≡ computes (integer result) }
{
    let (mut least, rest) = first_integer(values);
    for value in rest {
        if let Value::Integer(z) = value {
            least = least.min(*z);
        }
    }
    least
}
