// Expressions, from the characters of a statement.
use crate::help::statement_of;
use crate::table::rows_of;
use crate::tables::expressions::{NESTING, NO_EXPRESSIONS, OPERATORS, PRIMARIES, REFUSED_PARTS};
use expr77::{ParseError, parse_expr};
use scan77::cut;
use sqlite_items::Boxed;
use std::alloc::{AllocError, Global};
use std::process::Abort;
use std::test::Fail;
use text_base::{Bytes, Name, Place, Refusal};
use tree77::{BinaryOp, Expr, UnaryOp};

fn sign(op: UnaryOp) -> &'static str {
    match op {
        UnaryOp::Plus => "+",
        UnaryOp::Minus => "-",
        UnaryOp::Not => "not ",
    }
}

fn operator(op: BinaryOp) -> &'static str {
    match op {
        BinaryOp::Power => "**",
        BinaryOp::Times => "*",
        BinaryOp::Over => "/",
        BinaryOp::Plus => "+",
        BinaryOp::Minus => "-",
        BinaryOp::Concat => "//",
        BinaryOp::Lt => " lt ",
        BinaryOp::Le => " le ",
        BinaryOp::Eq => " eq ",
        BinaryOp::Ne => " ne ",
        BinaryOp::Gt => " gt ",
        BinaryOp::Ge => " ge ",
        BinaryOp::And => " and ",
        BinaryOp::Or => " or ",
        BinaryOp::Eqv => " eqv ",
        BinaryOp::Neqv => " neqv ",
    }
}

fn write_number(alloc: Global, value: i32, out: &mut Bytes) -> Result<(), AllocError> {
    let text = format!(in alloc; "{value}")?;
    out.extend(text.as_bytes())
}

fn write_truth(value: bool, out: &mut Bytes) -> Result<(), AllocError> {
    if value {
        out.extend(b"true")
    } else {
        out.extend(b"false")
    }
}

// Writes a reference with its actual arguments.
#[cycle(tree)]
fn write_call(
    alloc: Global,
    name: &Name,
    actuals: &[Expr],
    out: &mut Bytes,
) -> Result<(), AllocError> {
    out.extend(name.as_slice())?;
    out.push(b'[')?;
    for (index, actual) in actuals.iter().enumerate() {
        if index > 0 {
            out.push(b',')?;
        }
        write_tree(alloc, actual, out)?;
    }
    out.push(b']')
}

#[cycle(tree)]
fn write_bound(
    alloc: Global,
    bound: &Option<Boxed<Expr>>,
    out: &mut Bytes,
) -> Result<(), AllocError> {
    match bound {
        Some(value) => write_tree(alloc, value.get(), out),
        None => Ok(()),
    }
}

/// Writes a tree: braces stand around each operator with its operands, parentheses where the source has them.
#[cycle(tree)]
pub fn write_tree(alloc: Global, tree: &Expr, out: &mut Bytes) -> Result<(), AllocError> {
    match tree {
        Expr::Int(value) => write_number(alloc, *value, out),
        Expr::Bool(value) => write_truth(*value, out),
        Expr::Text(text) => {
            out.push(b'"')?;
            out.extend(text.as_slice())?;
            out.push(b'"')
        }
        Expr::Name(name) => out.extend(name.as_slice()),
        Expr::Call(name, actuals) => write_call(alloc, name, actuals.as_slice(), out),
        Expr::Substring(parent, from, to) => {
            write_tree(alloc, parent.get(), out)?;
            out.push(b'<')?;
            write_bound(alloc, from, out)?;
            out.push(b':')?;
            write_bound(alloc, to, out)?;
            out.push(b'>')
        }
        Expr::Unary(op, operand) => {
            out.push(b'{')?;
            out.extend(sign(*op).as_bytes())?;
            write_tree(alloc, operand.get(), out)?;
            out.push(b'}')
        }
        Expr::Binary(op, left, right) => {
            out.push(b'{')?;
            write_tree(alloc, left.get(), out)?;
            out.extend(operator(*op).as_bytes())?;
            write_tree(alloc, right.get(), out)?;
            out.push(b'}')
        }
        Expr::Paren(inside) => {
            out.push(b'(')?;
            write_tree(alloc, inside.get(), out)?;
            out.push(b')')
        }
    }
}

/// Writes the number and the name of a refusal.
pub fn write_refusal(alloc: Global, refusal: &Refusal, out: &mut Bytes) -> Result<(), AllocError> {
    let number = refusal.cause.number();
    let text = format!(in alloc; "{number} ")?;
    out.extend(text.as_bytes())?;
    out.extend(refusal.name.as_slice())
}

fn write_refusals(alloc: Global, refusals: &[Refusal], out: &mut Bytes) -> Result<(), AllocError> {
    for refusal in refusals {
        if refusal.place != (Place { file: 3, line: 1 }) {
            out.extend(b"elsewhere ")?;
        }
        write_refusal(alloc, refusal, out)?;
    }
    Ok(())
}

fn write_error(alloc: Global, error: &ParseError, out: &mut Bytes) -> Result<(), AllocError> {
    match error {
        ParseError::Refused(refusals) => write_refusals(alloc, refusals.as_slice(), out),
        ParseError::Memory => out.extend(b"memory"),
    }
}

// What is said of an answer: the tree, or the number and the name of the one refusal, which stands at line 1 of file 3.
fn told(alloc: Global, answer: &Result<Expr, ParseError>) -> Result<Bytes, AllocError> {
    let mut out = Bytes::new(alloc);
    match answer {
        Ok(tree) => write_tree(alloc, tree, &mut out)?,
        Err(error) => write_error(alloc, error, &mut out)?,
    }
    Ok(out)
}

// What is said of the expression that a text is.
fn parsed(alloc: Global, text: &[u8]) -> Result<Bytes, Fail> {
    let read = statement_of(alloc, b"      ", text)?;
    let tokens = cut(alloc, read.pieces.all())?;
    let answer = parse_expr(alloc, read.place, tokens.as_slice());
    Ok(told(alloc, &answer)?)
}

// What is said of each text is as the table has it.
fn check_expressions(
    rt: &impl Abort,
    alloc: Global,
    table: &str,
    count: usize,
) -> Result<(), Fail> {
    for row in rows_of(alloc, table, count, 2)?.iter() {
        let said = parsed(alloc, row.field(0))?;
        row.check(rt, 1, said.as_slice());
    }
    Ok(())
}

#[test]
fn operators_group_by_precedence(rt: HostRuntime) -> Result<(), Fail> {
    check_expressions(&rt, rt.alloc(), OPERATORS, 24)
}

#[test]
fn primaries_are_read(rt: HostRuntime) -> Result<(), Fail> {
    check_expressions(&rt, rt.alloc(), PRIMARIES, 21)
}

#[test]
fn parts_are_refused(rt: HostRuntime) -> Result<(), Fail> {
    check_expressions(&rt, rt.alloc(), REFUSED_PARTS, 31)
}

#[test]
fn other_texts_are_no_expression(rt: HostRuntime) -> Result<(), Fail> {
    check_expressions(&rt, rt.alloc(), NO_EXPRESSIONS, 38)
}

#[test]
fn parentheses_nest_to_200(rt: HostRuntime) -> Result<(), Fail> {
    check_expressions(&rt, rt.alloc(), NESTING, 4)
}
