// Operations by the table.
ghost use Rattle.std.specs.Prelude.{◌≡◌, ◌≢◌, map, true, false, IfOk, IfErr};
ghost use Rattle.text_base.specs.Values.{value_of};
ghost use Rattle.text_base.specs.declared.operation.Op.TheVariants as op;
ghost use Rattle.text_base.specs.Operations.{outcome, unfit, computes};
ghost use Rattle.value_ops.specs.Answers.{answered, integer_op, logical_op, IsFaultOf};

use crate::error::OpError;
use crate::integer::{BinaryInt, excess, int_op, magnitude, negative, remainder, with_sign};
use crate::logical::{BinaryLog, log_op};
use crate::operands::{
    compare, compare_characters, greatest, least, one_integer, one_logical, one_text, two_integers,
    two_logicals, two_texts,
};
use crate::text::{character, count, joined, number_of, place_in};
use std::alloc::Global;
use text_base::{Op, RunFault, Value};

/// What an operator or an intrinsic function gives of values that have been evaluated (X3.9 sections 6 and 15.10; ISO/IEC
/// 1539:1991 sections 7.2 and 13). The values are those that the operation takes, in their order: `fits` tests it.
///
/// It faults with `Overflow` where an exact result is below -2147483648 or above 2147483647, LEN and INDEX included; with
/// `ZeroDivide` where a divisor is 0, the second value of MOD included, or the base of a negative power is; and with
/// `CharRange` at CHAR of an integer below 0 or above 255 and at ICHAR of characters that aren't one. Memory is taken for the
/// characters that `//` and CHAR give, and wanted at no other operation.
pub fn apply(alloc: Global, op: Op, values: &[Value]) -> Result<Value, OpError>
    requires { outcome op (map value_of values.now) ≢ unfit }
    ensures computed { IfOk result (λ v. outcome op (map value_of values.now) ≡ computes (value_of v)) }
    ensures faulted { IfErr result (IsFaultOf (outcome op (map value_of values.now))) }
{
    match op {
        Op::Power => arithmetic(BinaryInt::Power, values),
        Op::Times => arithmetic(BinaryInt::Times, values),
        Op::Over => arithmetic(BinaryInt::Over, values),
        Op::Positive => Ok(Value::Integer(one_integer(values))),
        Op::Negative => whole(negative(one_integer(values))),
        Op::Plus => arithmetic(BinaryInt::Plus, values),
        Op::Minus => arithmetic(BinaryInt::Minus, values),
        Op::Concat => concatenation(alloc, values),
        Op::Lt => Ok(Value::Logical(compare(values).is_lt())),
        Op::Le => Ok(Value::Logical(compare(values).is_le())),
        Op::Eq => Ok(Value::Logical(compare(values).is_eq())),
        Op::Ne => Ok(Value::Logical(compare(values).is_ne())),
        Op::Gt => Ok(Value::Logical(compare(values).is_gt())),
        Op::Ge => Ok(Value::Logical(compare(values).is_ge())),
        Op::Not => Ok(Value::Logical(!one_logical(values))),
        Op::And => Ok(logic(BinaryLog::And, values)),
        Op::Or => Ok(logic(BinaryLog::Or, values)),
        Op::Eqv => Ok(logic(BinaryLog::Eqv, values)),
        Op::Neqv => Ok(logic(BinaryLog::Neqv, values)),
        Op::Abs | Op::Iabs => whole(magnitude(one_integer(values))),
        Op::Mod => left_over(values),
        Op::Sign | Op::Isign => signed(values),
        Op::Dim | Op::Idim => difference(values),
        Op::Max | Op::Max0 => Ok(Value::Integer(greatest(values))),
        Op::Min | Op::Min0 => Ok(Value::Integer(least(values))),
        Op::Len => whole(count(one_text(values).len())),
        Op::Index => place(values),
        Op::Char => character(alloc, one_integer(values)),
        Op::Ichar => whole(number_of(one_text(values))),
        Op::Lge => Ok(Value::Logical(compare_characters(values).is_ge())),
        Op::Lgt => Ok(Value::Logical(compare_characters(values).is_gt())),
        Op::Lle => Ok(Value::Logical(compare_characters(values).is_le())),
        Op::Llt => Ok(Value::Logical(compare_characters(values).is_lt())),
    }
}

// An integer or a fault.
fn whole(answer: Result<i32, RunFault>) -> Result<Value, OpError>
    ensures computed { IfOk result (λ v. answered answer ≡ computes (value_of v)) }
    ensures faulted { IfErr result (IsFaultOf (answered answer)) }
{
    match answer {
        Ok(z) => Ok(Value::Integer(z)),
        Err(fault) => Err(OpError::Fault(fault)),
    }
}

// An operator between two integers.
fn arithmetic(op: BinaryInt, values: &[Value]) -> Result<Value, OpError>
    requires { outcome (integer_op op) (map value_of values.now) ≢ unfit }
    ensures computed { IfOk result (λ v. outcome (integer_op op) (map value_of values.now) ≡ computes (value_of v)) }
    ensures faulted { IfErr result (IsFaultOf (outcome (integer_op op) (map value_of values.now))) }
{
    let (a, b) = two_integers(values);
    whole(int_op(op, a, b))
}

// An operator between two logicals.
fn logic(op: BinaryLog, values: &[Value]) -> Value
    requires { outcome (logical_op op) (map value_of values.now) ≢ unfit }
    ensures { outcome (logical_op op) (map value_of values.now) ≡ computes (value_of result) }
{
    let (a, b) = two_logicals(values);
    Value::Logical(log_op(op, a, b))
}

// MOD.
fn left_over(values: &[Value]) -> Result<Value, OpError>
    requires { outcome op.Mod (map value_of values.now) ≢ unfit }
    ensures computed { IfOk result (λ v. outcome op.Mod (map value_of values.now) ≡ computes (value_of v)) }
    ensures faulted { IfErr result (IsFaultOf (outcome op.Mod (map value_of values.now))) }
{
    let (a, b) = two_integers(values);
    whole(remainder(a, b))
}

// SIGN and ISIGN.
fn signed(values: &[Value]) -> Result<Value, OpError>
    requires { outcome op.Sign (map value_of values.now) ≢ unfit }
    ensures computed { IfOk result (λ v. outcome op.Sign (map value_of values.now) ≡ computes (value_of v)) }
    ensures faulted { IfErr result (IsFaultOf (outcome op.Sign (map value_of values.now))) }
{
    let (a, b) = two_integers(values);
    whole(with_sign(a, b))
}

// DIM and IDIM.
fn difference(values: &[Value]) -> Result<Value, OpError>
    requires { outcome op.Dim (map value_of values.now) ≢ unfit }
    ensures computed { IfOk result (λ v. outcome op.Dim (map value_of values.now) ≡ computes (value_of v)) }
    ensures faulted { IfErr result (IsFaultOf (outcome op.Dim (map value_of values.now))) }
{
    let (a, b) = two_integers(values);
    whole(excess(a, b))
}

// INDEX.
fn place(values: &[Value]) -> Result<Value, OpError>
    requires { outcome op.Index (map value_of values.now) ≢ unfit }
    ensures computed { IfOk result (λ v. outcome op.Index (map value_of values.now) ≡ computes (value_of v)) }
    ensures faulted { IfErr result (IsFaultOf (outcome op.Index (map value_of values.now))) }
{
    let (text, part) = two_texts(values);
    whole(count(place_in(text, part)))
}

// Concatenation.
fn concatenation(alloc: Global, values: &[Value]) -> Result<Value, OpError>
    requires { outcome op.Concat (map value_of values.now) ≢ unfit }
    ensures computed { IfOk result (λ v. outcome op.Concat (map value_of values.now) ≡ computes (value_of v)) }
    ensures faulted { IfErr result (IsFaultOf (outcome op.Concat (map value_of values.now))) }
{
    let (a, b) = two_texts(values);
    Ok(Value::Text(joined(alloc, a, b)?))
}
