// Operations on values, and which of them intrinsic functions are.
use crate::help::{parts_of, shown};
use crate::table::{Row, rows_of};
use crate::tables::operations::{INTEGERS, INTRINSICS, OPERATIONS};
use std::alloc::{AllocError, Global};
use std::process::Abort;
use std::test::Fail;
use text_base::{Bytes, Op, RunFault, Value};
use value_ops::{
    BinaryInt, BinaryLog, OpError, apply, fits, gives_integer, int_op, intrinsic, log_op,
};

const OPERATIONS_IN_ORDER: [Op; 38] = [
    Op::Power,
    Op::Times,
    Op::Over,
    Op::Positive,
    Op::Negative,
    Op::Plus,
    Op::Minus,
    Op::Concat,
    Op::Lt,
    Op::Le,
    Op::Eq,
    Op::Ne,
    Op::Gt,
    Op::Ge,
    Op::Not,
    Op::And,
    Op::Or,
    Op::Eqv,
    Op::Neqv,
    Op::Abs,
    Op::Iabs,
    Op::Mod,
    Op::Sign,
    Op::Isign,
    Op::Dim,
    Op::Idim,
    Op::Max,
    Op::Max0,
    Op::Min,
    Op::Min0,
    Op::Len,
    Op::Index,
    Op::Char,
    Op::Ichar,
    Op::Lge,
    Op::Lgt,
    Op::Lle,
    Op::Llt,
];

// The operation that has a name.
fn named(alloc: Global, name: &[u8]) -> Result<Op, Fail> {
    let mut found = None;
    for op in OPERATIONS_IN_ORDER {
        if format!(in alloc; "{op:?}")?.as_bytes() == name {
            found = Some(op);
        }
    }
    Ok(found.ok_or("no operation has the name")?)
}

// The value that a word is.
fn value_of(alloc: Global, word: &[u8]) -> Result<Value, Fail> {
    match word {
        b"T" => Ok(Value::Logical(true)),
        b"F" => Ok(Value::Logical(false)),
        [b'\'', text @ .., b'\''] => Ok(Value::Text(Bytes::from_slice(alloc, text)?)),
        _ => Ok(Value::Integer(shown(word).parse::<i32>()?)),
    }
}

fn values_of(alloc: Global, words: &[u8]) -> Result<Vec<Value>, Fail> {
    let mut values = Vec::new(alloc);
    for word in parts_of(alloc, words)?.iter() {
        values.push(value_of(alloc, word.as_slice())?)?;
    }
    Ok(values)
}

fn write_integer(alloc: Global, value: i32, out: &mut Bytes) -> Result<(), AllocError> {
    out.extend(format!(in alloc; "{value}")?.as_bytes())
}

fn write_logical(value: bool, out: &mut Bytes) -> Result<(), AllocError> {
    out.push(if value { b'T' } else { b'F' })
}

fn write_text(text: &[u8], out: &mut Bytes) -> Result<(), AllocError> {
    out.push(b'\'')?;
    out.extend(text)?;
    out.push(b'\'')
}

fn write_fault(alloc: Global, fault: RunFault, out: &mut Bytes) -> Result<(), AllocError> {
    out.extend(format!(in alloc; "{fault:?}")?.as_bytes())
}

fn write_value(alloc: Global, value: &Value, out: &mut Bytes) -> Result<(), AllocError> {
    match value {
        Value::Integer(value) => write_integer(alloc, *value, out),
        Value::Logical(value) => write_logical(*value, out),
        Value::Text(text) => write_text(text.as_slice(), out),
    }
}

// What is said of what an operation gives.
fn given(alloc: Global, op: Op, values: &[Value]) -> Result<Bytes, AllocError> {
    let mut out = Bytes::new(alloc);
    if !fits(op, values) {
        out.extend(b"unfit")?;
        return Ok(out);
    }
    match apply(alloc, op, values) {
        Ok(value) => write_value(alloc, &value, &mut out)?,
        Err(OpError::Fault(fault)) => write_fault(alloc, fault, &mut out)?,
        Err(OpError::Memory) => out.extend(b"memory")?,
    }
    Ok(out)
}

fn between_integers(op: Op) -> Option<BinaryInt> {
    match op {
        Op::Power => Some(BinaryInt::Power),
        Op::Times => Some(BinaryInt::Times),
        Op::Over => Some(BinaryInt::Over),
        Op::Plus => Some(BinaryInt::Plus),
        Op::Minus => Some(BinaryInt::Minus),
        _ => None,
    }
}

fn between_logicals(op: Op) -> Option<BinaryLog> {
    match op {
        Op::And => Some(BinaryLog::And),
        Op::Or => Some(BinaryLog::Or),
        Op::Eqv => Some(BinaryLog::Eqv),
        Op::Neqv => Some(BinaryLog::Neqv),
        _ => None,
    }
}

// What is said of what an operator between two integers gives.
fn given_of_integers(alloc: Global, op: BinaryInt, a: i32, b: i32) -> Result<Bytes, AllocError> {
    let mut out = Bytes::new(alloc);
    match int_op(op, a, b) {
        Ok(value) => write_integer(alloc, value, &mut out)?,
        Err(fault) => write_fault(alloc, fault, &mut out)?,
    }
    Ok(out)
}

// An operator between two integers gives the same by itself.
fn check_integers(
    rt: &impl Abort,
    alloc: Global,
    row: &Row,
    op: Op,
    a: i32,
    b: i32,
) -> Result<(), Fail> {
    if let Some(op) = between_integers(op) {
        row.check(rt, 2, given_of_integers(alloc, op, a, b)?.as_slice());
    }
    Ok(())
}

// An operator between two logicals gives the same by itself.
fn check_logicals(
    rt: &impl Abort,
    alloc: Global,
    row: &Row,
    op: Op,
    a: bool,
    b: bool,
) -> Result<(), Fail> {
    if let Some(op) = between_logicals(op) {
        let mut out = Bytes::new(alloc);
        write_logical(log_op(op, a, b), &mut out)?;
        row.check(rt, 2, out.as_slice());
    }
    Ok(())
}

#[test]
fn operations_give_values(rt: HostRuntime) -> Result<(), Fail> {
    let alloc = rt.alloc();
    for row in rows_of(alloc, OPERATIONS, 296, 3)?.iter() {
        let op = named(alloc, row.field(0))?;
        let values = values_of(alloc, row.field(1))?;
        row.check(&rt, 2, given(alloc, op, &values)?.as_slice());
        match values.as_slice() {
            [Value::Integer(a), Value::Integer(b)] => check_integers(&rt, alloc, row, op, *a, *b)?,
            [Value::Logical(a), Value::Logical(b)] => check_logicals(&rt, alloc, row, op, *a, *b)?,
            _ => {}
        }
    }
    Ok(())
}

// The name of the operation that an intrinsic function is.
fn intrinsic_told(alloc: Global, name: &[u8]) -> Result<String, AllocError> {
    match intrinsic(name) {
        Some(op) => format!(in alloc; "{op:?}"),
        None => format!(in alloc; "none"),
    }
}

#[test]
fn intrinsic_functions_have_names(rt: HostRuntime) -> Result<(), Fail> {
    let alloc = rt.alloc();
    for row in rows_of(alloc, INTRINSICS, 27, 2)?.iter() {
        row.check(&rt, 1, intrinsic_told(alloc, row.field(0))?.as_bytes());
    }
    Ok(())
}

// Of how many integers an operation gives an integer.
fn counts_told(alloc: Global, op: Op) -> Result<Bytes, AllocError> {
    let mut out = Bytes::new(alloc);
    for (count, digit) in b"01234".iter().enumerate() {
        if gives_integer(op, count) {
            out.push(*digit)?;
        }
    }
    Ok(out)
}

#[test]
fn integers_are_given_of_integers(rt: HostRuntime) -> Result<(), Fail> {
    let alloc = rt.alloc();
    for row in rows_of(alloc, INTEGERS, 38, 2)?.iter() {
        let op = named(alloc, row.field(0))?;
        row.check(&rt, 1, counts_told(alloc, op)?.as_slice());
    }
    Ok(())
}
