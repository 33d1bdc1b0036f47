// Which names are those of intrinsic functions, and what they take.
ghost use Rattle.std.specs.Prelude.{◌≡◌, replicate, Some};
ghost use Rattle.text_base.specs.ExpressionKinds.{are_same};
ghost use Rattle.text_base.specs.Operations.{outcome_kind};
ghost use Rattle.text_base.specs.Operators.{intrinsic};
ghost use Rattle.text_base.specs.Values.{integers};

use text_base::Op;

/// The intrinsic function of a name (X3.9 section 15.10; ISO/IEC 1539:1991 section 13).
///
/// In: the characters of the name, in upper case.
///
/// Out: the operation; `None` where the name is that of none of the 19 intrinsic functions that `Op` has.
#[tactic(auto, unfolding(text_base::specs::Operators::intrinsic))]
pub fn intrinsic(name: &[u8]) -> Option<Op>
    ensures { result ≡ intrinsic name.now }
{
    if b"ABS".as_slice() == name {
        Some(Op::Abs)
    } else if b"IABS".as_slice() == name {
        Some(Op::Iabs)
    } else if b"MOD".as_slice() == name {
        Some(Op::Mod)
    } else if b"SIGN".as_slice() == name {
        Some(Op::Sign)
    } else if b"ISIGN".as_slice() == name {
        Some(Op::Isign)
    } else if b"DIM".as_slice() == name {
        Some(Op::Dim)
    } else if b"IDIM".as_slice() == name {
        Some(Op::Idim)
    } else if b"MAX".as_slice() == name {
        Some(Op::Max)
    } else if b"MAX0".as_slice() == name {
        Some(Op::Max0)
    } else if b"MIN".as_slice() == name {
        Some(Op::Min)
    } else if b"MIN0".as_slice() == name {
        Some(Op::Min0)
    } else if b"LEN".as_slice() == name {
        Some(Op::Len)
    } else if b"INDEX".as_slice() == name {
        Some(Op::Index)
    } else if b"CHAR".as_slice() == name {
        Some(Op::Char)
    } else if b"ICHAR".as_slice() == name {
        Some(Op::Ichar)
    } else if b"LGE".as_slice() == name {
        Some(Op::Lge)
    } else if b"LGT".as_slice() == name {
        Some(Op::Lgt)
    } else if b"LLE".as_slice() == name {
        Some(Op::Lle)
    } else if b"LLT".as_slice() == name {
        Some(Op::Llt)
    } else {
        None
    }
}

/// Whether an operation gives an integer, where it has so many operands that are integers.
#[tactic(auto, using(crate::proofs::IntegerKinds::gives))]
pub fn gives_integer(op: Op, count: usize) -> bool
    ensures { result ≡ are_same (outcome_kind op (replicate count integers)) (Some integers) }
{
    match op {
        Op::Positive => count == 1,
        Op::Negative => count == 1,
        Op::Abs => count == 1,
        Op::Iabs => count == 1,
        Op::Power => count == 2,
        Op::Times => count == 2,
        Op::Over => count == 2,
        Op::Plus => count == 2,
        Op::Minus => count == 2,
        Op::Mod => count == 2,
        Op::Sign => count == 2,
        Op::Isign => count == 2,
        Op::Dim => count == 2,
        Op::Idim => count == 2,
        Op::Max => 2 <= count,
        Op::Max0 => 2 <= count,
        Op::Min => 2 <= count,
        Op::Min0 => 2 <= count,
        _ => false,
    }
}
