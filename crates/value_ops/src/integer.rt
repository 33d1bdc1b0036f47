// Operations on integers.
ghost use Rattle.std.specs.Prelude.{◌≡◌, ◌∷◌, [], neg_ℤ, int_div};
ghost use Rattle.text_base.specs.Values.{integer};
ghost use Rattle.text_base.specs.Operations.{outcome, in_range, magnitude, with_sign, excess, raised, remainder, divided};
ghost use Rattle.value_ops.specs.Answers.{integer_op, answered, reciprocal};

use text_base::RunFault;

/// An operator between two integers (X3.9 section 6.1; ISO/IEC 1539:1991 section 7.2.1).
#[derive(Clone, Copy, Debug, PartialEq, Eq)]
pub enum BinaryInt {
    Power,
    Times,
    Over,
    Plus,
    Minus,
}

/// What an operator between two integers gives, exactly. A quotient is truncated toward zero, and so is the reciprocal that a
/// negative power is (X3.9 section 6.1.5).
///
/// It faults with `ZeroDivide` where a divisor is 0, or the base of a negative power is, and with `Overflow` where the exact
/// result is below -2147483648 or above 2147483647. A power takes time in the number of bits of its exponent.
#[tactic(auto, using(crate::proofs::Ranges::exact))]
pub fn int_op(op: BinaryInt, a: i32, b: i32) -> Result<i32, RunFault>
    ensures { answered result ≡ outcome (integer_op op) (integer a ∷ integer b ∷ []) }
{
    match op {
        BinaryInt::Power => power(a, b),
        BinaryInt::Times => a.checked_mul(b).ok_or(RunFault::Overflow),
        BinaryInt::Over => quotient(a, b),
        BinaryInt::Plus => a.checked_add(b).ok_or(RunFault::Overflow),
        BinaryInt::Minus => a.checked_sub(b).ok_or(RunFault::Overflow),
    }
}

// A power.
#[tactic(auto, using(crate::proofs::Ranges::exact))]
fn power(base: i32, exponent: i32) -> Result<i32, RunFault>
    ensures { answered result ≡ raised base exponent }
{
    if exponent < 0 {
        return reciprocal(base, exponent % 2 == 0);
    }
    base.checked_pow(exponent as u32).ok_or(RunFault::Overflow)
}

// 1 divided by a power of the base, whose exponent is above 0.
fn reciprocal(base: i32, is_even: bool) -> Result<i32, RunFault>
    ensures { answered result ≡ reciprocal base is_even }
{
    match base {
        0 => Err(RunFault::ZeroDivide),
        1 => Ok(1),
        -1 => Ok(if is_even { 1 } else { -1 }),
        _ => Ok(0),
    }
}

// A quotient.
#[tactic(auto, using(crate::proofs::Ranges::exact))]
fn quotient(a: i32, b: i32) -> Result<i32, RunFault>
    ensures { answered result ≡ divided a b }
{
    if b == 0 {
        return Err(RunFault::ZeroDivide);
    }
    a.checked_div(b).ok_or(RunFault::Overflow)
}

/// What is left of a division, with the sign of the dividend, as MOD gives it (X3.9 section 15.10; ISO/IEC 1539:1991 section
/// 13.13). It faults with `ZeroDivide` where the divisor is 0, and in no other way.
pub fn remainder(a: i32, b: i32) -> Result<i32, RunFault>
    ensures { answered result ≡ remainder a b }
{
    if b == 0 {
        return Err(RunFault::ZeroDivide);
    }
    Ok(a.wrapping_rem(b))
}

/// The negative of an integer. It faults with `Overflow` at -2147483648 alone.
#[tactic(auto, using(crate::proofs::Ranges::exact))]
pub fn negative(a: i32) -> Result<i32, RunFault>
    ensures { answered result ≡ in_range (neg_ℤ a) }
{
    a.checked_neg().ok_or(RunFault::Overflow)
}

/// An integer without its sign, as ABS gives it. It faults with `Overflow` at -2147483648 alone.
pub fn magnitude(a: i32) -> Result<i32, RunFault>
    ensures { answered result ≡ in_range (magnitude a) }
{
    if a < 0 { negative(a) } else { Ok(a) }
}

/// The first integer with the sign of the second, as SIGN gives it: 0 has the sign of what is above 0. It faults with `Overflow`
/// at -2147483648 with such a sign alone.
pub fn with_sign(a: i32, b: i32) -> Result<i32, RunFault>
    ensures { answered result ≡ in_range (with_sign a b) }
{
    if (a < 0) == (b < 0) {
        Ok(a)
    } else {
        negative(a)
    }
}

/// How far the first integer is above the second, as DIM gives it, or 0 where it isn't. It faults with `Overflow` where that is
/// above 2147483647.
#[tactic(auto, using(crate::proofs::Ranges::exact))]
pub fn excess(a: i32, b: i32) -> Result<i32, RunFault>
    ensures { answered result ≡ in_range (excess a b) }
{
    if a < b {
        return Ok(0);
    }
    a.checked_sub(b).ok_or(RunFault::Overflow)
}
