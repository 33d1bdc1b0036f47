// The values of constants and of lengths.
ghost use Rattle.std.specs.Prelude.{◌≡◌, ◌∷◌, [], map, fold, pos, length, IfOk, OnOk};
ghost use Rattle.std.specs.Option.{option_map};
ghost use Rattle.std.specs.Borrow.{Bor};
ghost use Rattle.text_base.specs.Values.{value_of, integer};
ghost use Rattle.text_base.specs.Operations.{outcome};
ghost use Rattle.text_base.specs.Operators.{unary_op, binary_op};
ghost use Rattle.text_base.specs.declared.operation.Value.{Value as Declared};
ghost use Rattle.expr_tree.specs.Plain.{expr_of, unary_of, binary_of};
ghost use Rattle.tree77.specs.StatementPlain.{equation_of, length_of};
ghost use Rattle.names77.specs.Rows.{row_in};
ghost use Rattle.names77.specs.Types.{are_characters};
ghost use Rattle.names77.specs.Constants as plain;
ghost use Rattle.names77.specs.Views.{shown_table, shown_type, shown_initial, shown_line, shown_lines, shown_row, shown_constants, kind_shown, lent_length};

use crate::limits::GREATEST_LENGTH;
use crate::lines::{Line, Part};
use crate::table::{Row, Table};
use crate::types::{Initial, NameType, Scalar, add_initials, declared_type, implicit_type};
use expr_tree::{BinaryOp, Expr, UnaryOp};
use indexmap::IndexMap;
use sqlite_items::Items;
use std::alloc::{AllocError, Global};
use text_base::{Bytes, Op, Value};
use tree77::{Declared77, Equation77, Length77};
use value_ops::{OpError, apply, fits};

/// The constants of a unit and their values, `None` where one has none.
#[derive(Drop)]
pub struct Constants<'a> {
    pub map: IndexMap<&'a [u8], Option<Value>>,
}

impl<'a> Constants<'a> {
    /// No constants.
    pub fn new(alloc: Global) -> Constants<'a>
        ensures { shown_constants result ≡ [] }
    {
        Constants {
            map: IndexMap::new(alloc),
        }
    }

    /// Lends the value of a constant, where it is one and has one.
    pub fn value(&self, name: &[u8]) -> Option<&Value>
        ensures { option_map (λ (b : Bor Declared). value_of b.now) result ≡ plain.constant_in (shown_constants self.now) name.now }
    {
        self.map.get(name)?.as_ref()
    }

    // Whether a name is no constant of the unit, or has its value.
    #[tactic(auto, using(crate::proofs::ConstantLemmas::has_looked_up, crate::proofs::Rows::shown_some))]
    fn is_settled(&self, table: &Table<'a>, name: &[u8]) -> bool
        ensures { result ≡ plain.is_settled (shown_table table.now) (shown_constants self.now) name.now }
    {
        self.map.contains_key(name) | table.row(name).value.is_none()
    }

    // Gives a constant the value that a PARAMETER gives it, where it has none yet.
    fn add(
        &mut self,
        alloc: Global,
        types: Types<'a, '_>,
        equation: &'a Equation77,
    ) -> Result<(), AllocError>
        ensures { OnOk result (shown_constants self.new ≡ plain.with_equation (shown_table types.entry.table.now) (map shown_initial types.entry.all.now) (map shown_initial types.entry.early.now) (shown_constants self.old) (equation_of equation.now)) }
    {
        let name = equation.name.as_slice();
        if self.is_settled(types.table, name) {
            return Ok(());
        }
        let value = equation_value(alloc, self, types, equation)?;
        self.map.insert(name, value)?;
        Ok(())
    }
}

// ---- expressions

/// The operation that a sign is, or `.NOT.`.
pub fn unary_op(op: UnaryOp) -> Op
    ensures { result ≡ unary_op (unary_of op) }
{
    match op {
        UnaryOp::Plus => Op::Positive,
        UnaryOp::Minus => Op::Negative,
        UnaryOp::Not => Op::Not,
    }
}

/// The operation that an operator between two operands is.
pub fn binary_op(op: BinaryOp) -> Op
    ensures { result ≡ binary_op (binary_of op) }
{
    match op {
        BinaryOp::Power => Op::Power,
        BinaryOp::Times => Op::Times,
        BinaryOp::Over => Op::Over,
        BinaryOp::Plus => Op::Plus,
        BinaryOp::Minus => Op::Minus,
        BinaryOp::Concat => Op::Concat,
        BinaryOp::Lt => Op::Lt,
        BinaryOp::Le => Op::Le,
        BinaryOp::Eq => Op::Eq,
        BinaryOp::Ne => Op::Ne,
        BinaryOp::Gt => Op::Gt,
        BinaryOp::Ge => Op::Ge,
        BinaryOp::And => Op::And,
        BinaryOp::Or => Op::Or,
        BinaryOp::Eqv => Op::Eqv,
        BinaryOp::Neqv => Op::Neqv,
    }
}

// What an operation gives of values, where they fit it and it doesn't fault.
fn computed(alloc: Global, op: Op, values: &[Value]) -> Result<Option<Value>, AllocError>
    ensures { IfOk result (λ v. option_map value_of v ≡ plain.value_computed (outcome op (map value_of values.now))) }
{
    if !fits(op, values) {
        return Ok(None);
    }
    match apply(alloc, op, values) {
        Ok(value) => Ok(Some(value)),
        Err(OpError::Fault(_)) => Ok(None),
        Err(OpError::Memory) => Err(AllocError),
    }
}

// What an operation gives of one value, where there is one.
fn of_one(alloc: Global, op: Op, value: Option<Value>) -> Result<Option<Value>, AllocError>
    ensures { IfOk result (λ v. option_map value_of v ≡ plain.applied op (option_map (λ a. a ∷ []) (option_map value_of value))) }
{
    match value {
        Some(value) => computed(alloc, op, &[value]),
        None => Ok(None),
    }
}

// What an operation gives of two values, where there are both.
fn of_two(
    alloc: Global,
    op: Op,
    left: Option<Value>,
    right: Option<Value>,
) -> Result<Option<Value>, AllocError>
    ensures { IfOk result (λ v. option_map value_of v ≡ plain.applied op (plain.both (option_map value_of left) (option_map value_of right))) }
{
    match (left, right) {
        (Some(left), Some(right)) => computed(alloc, op, &[left, right]),
        _ => Ok(None),
    }
}

/// A copy of a value. It fails for want of memory alone.
pub fn copied(alloc: Global, value: &Value) -> Result<Value, AllocError>
    ensures { IfOk result (λ v. value_of v ≡ value_of value.now) }
{
    match value {
        Value::Integer(number) => Ok(Value::Integer(*number)),
        Value::Logical(truth) => Ok(Value::Logical(*truth)),
        Value::Text(text) => Ok(Value::Text(Bytes::from_slice(alloc, text.as_slice())?)),
    }
}

// A copy of the value of a constant, where it is one and has one.
fn constant_value<'a>(
    alloc: Global,
    constants: &Constants<'a>,
    name: &[u8],
) -> Result<Option<Value>, AllocError>
    ensures { IfOk result (λ v. option_map value_of v ≡ plain.constant_in (shown_constants constants.now) name.now) }
{
    match constants.value(name) {
        Some(value) => Ok(Some(copied(alloc, value)?)),
        None => Ok(None),
    }
}

/// The value of an expression, where it is one of constants that doesn't fault (X3.9 section 6.7). It fails for want of memory
/// alone.
#[tactic(auto, using(expr_tree::proofs::Equations::expr_equations))]
pub fn evaluated<'a>(
    alloc: Global,
    constants: &Constants<'a>,
    expr: &Expr,
) -> Result<Option<Value>, AllocError>
    ensures { IfOk result (λ v. option_map value_of v ≡ plain.evaluated (shown_constants constants.now) (expr_of expr.now)) }
{
    match expr {
        Expr::Int(number) => Ok(Some(Value::Integer(*number))),
        Expr::Bool(truth) => Ok(Some(Value::Logical(*truth))),
        Expr::Text(text) => Ok(Some(Value::Text(Bytes::from_slice(alloc, text.as_slice())?))),
        Expr::Name(name) => constant_value(alloc, constants, name.as_slice()),
        Expr::Call(_, _) | Expr::Substring(_, _, _) => Ok(None),
        Expr::Unary(op, operand) => {
            let value = evaluated(alloc, constants, operand.get())?;
            of_one(alloc, unary_op(*op), value)
        }
        Expr::Binary(op, left, right) => {
            let first = evaluated(alloc, constants, left.get())?;
            let second = evaluated(alloc, constants, right.get())?;
            of_two(alloc, binary_op(*op), first, second)
        }
        Expr::Paren(inner) => evaluated(alloc, constants, inner.get()),
    }
}

// ---- lengths

/// Whether a number may be a length.
pub fn is_length(count: usize) -> bool
    ensures { result ≡ plain.is_length count }
{
    (1..=GREATEST_LENGTH).contains(&count)
}

// The length that an integer is, where it may be one.
fn number_length(number: i32) -> Option<u32>
    ensures { result ≡ plain.as_length (Some (integer number)) }
{
    let count = u32::try_from(number).ok()?;
    is_length(count as usize).then_some(count)
}

// The length that a value is, where it may be one.
fn as_length(value: Option<Value>) -> Option<u32>
    ensures { result ≡ plain.as_length (option_map value_of value) }
{
    match value {
        Some(Value::Integer(number)) => number_length(number),
        _ => None,
    }
}

/// The length that is written, 1 where none is; `None` where it is `*`, no constant, or outside 1 to 32767. It fails for want of
/// memory alone.
pub fn length_in<'a>(
    alloc: Global,
    constants: &Constants<'a>,
    length: Option<&Length77>,
) -> Result<Option<u32>, AllocError>
    ensures { IfOk result (λ n. n ≡ plain.length_in (shown_constants constants.now) (lent_length length.entry)) }
{
    match length {
        None => Ok(Some(1)),
        Some(Length77::Assumed) => Ok(None),
        Some(Length77::Given(expr)) => Ok(as_length(evaluated(alloc, constants, expr)?)),
    }
}

// ---- constants

// Characters of a length: those behind it are cut off, and blanks follow where there are too few.
fn fitted(count: usize, mut text: Bytes) -> Result<Bytes, AllocError>
    ensures { IfOk result (λ made. made ≡ plain.fitted count text) }
{
    text.truncate(count);
    for _ in text.as_slice().len()..count {
        text.push(b' ')?;
    }
    Ok(text)
}

// Characters with their own length, where it may be one.
fn whole(text: Bytes) -> Option<Value>
    ensures { option_map value_of result ≡ plain.whole text }
{
    if is_length(text.as_slice().len()) {
        Some(Value::Text(text))
    } else {
        None
    }
}

// Characters as a constant with a length has them.
fn as_characters<'a>(
    alloc: Global,
    constants: &Constants<'a>,
    length: Option<&Length77>,
    text: Bytes,
) -> Result<Option<Value>, AllocError>
    ensures { IfOk result (λ v. option_map value_of v ≡ plain.as_characters (shown_constants constants.now) (lent_length length.entry) text) }
{
    if let Some(Length77::Assumed) = length {
        return Ok(whole(text));
    }
    match length_in(alloc, constants, length)? {
        Some(count) => Ok(Some(Value::Text(fitted(count as usize, text)?))),
        None => Ok(None),
    }
}

// A value as a constant of a type has it.
fn as_constant<'a>(
    alloc: Global,
    constants: &Constants<'a>,
    typed: NameType<'_>,
    value: Value,
) -> Result<Option<Value>, AllocError>
    ensures { IfOk result (λ v. option_map value_of v ≡ plain.as_constant (shown_constants constants.now) (kind_shown typed.entry.scalar) (lent_length typed.entry.length) (value_of value)) }
{
    match (typed.scalar, value) {
        (Scalar::Integer, Value::Integer(number)) => Ok(Some(Value::Integer(number))),
        (Scalar::Logical, Value::Logical(truth)) => Ok(Some(Value::Logical(truth))),
        (Scalar::Text, Value::Text(text)) => as_characters(alloc, constants, typed.length, text),
        _ => Ok(None),
    }
}

// A value as a constant of a type has it, where there is one; without a type it stays.
fn as_typed<'a>(
    alloc: Global,
    constants: &Constants<'a>,
    typed: Option<NameType<'_>>,
    value: Option<Value>,
) -> Result<Option<Value>, AllocError>
    ensures { IfOk result (λ v. option_map value_of v ≡ plain.as_typed (shown_constants constants.now) (option_map shown_type typed.entry) (option_map value_of value)) }
{
    match (typed, value) {
        (Some(typed), Some(value)) => as_constant(alloc, constants, typed, value),
        (None, value) => Ok(value),
        (Some(_), None) => Ok(None),
    }
}

// The types by which constants get their values: the table of the whole unit, the types of all first letters, and of those that
// are given before a PARAMETER.
#[derive(Clone, Copy)]
struct Types<'a, 'b> {
    table: &'b Table<'a>,
    all: &'b [Initial<'a>],
    early: &'b [Initial<'a>],
}

// The type that a constant has before its PARAMETER.
fn early_type<'a>(initials: &[Initial<'a>], name: &[u8], row: &Row<'a>) -> Option<NameType<'a>>
    ensures { option_map shown_type result ≡ plain.early_type (map shown_initial initials.now) name.now (shown_row row.now) }
{
    if row.is_late {
        implicit_type(initials, name)
    } else {
        declared_type(initials, name, row)
    }
}

// Whether a type is that of characters.
fn are_characters(of: Option<NameType<'_>>) -> bool
    ensures { result ≡ are_characters (option_map shown_type of.entry) }
{
    match of {
        Some(of) => of.scalar == Scalar::Text,
        None => false,
    }
}

// Whether a constant of characters isn't known to be one before its PARAMETER.
fn is_untyped(types: Types<'_, '_>, name: &[u8]) -> bool
    ensures { result ≡ plain.is_untyped (map shown_initial types.entry.all.now) (map shown_initial types.entry.early.now) name.now (row_in (shown_table types.entry.table.now) name.now) }
{
    let row = types.table.row(name);
    are_characters(declared_type(types.all, name, &row))
        && !are_characters(early_type(types.early, name, &row))
}

// The value that a PARAMETER gives a constant, behind these.
fn equation_value<'a>(
    alloc: Global,
    constants: &Constants<'a>,
    types: Types<'a, '_>,
    equation: &Equation77,
) -> Result<Option<Value>, AllocError>
    ensures { IfOk result (λ v. option_map value_of v ≡ plain.equation_value (shown_table types.entry.table.now) (map shown_initial types.entry.all.now) (map shown_initial types.entry.early.now) (shown_constants constants.now) (equation_of equation.now)) }
{
    let name = equation.name.as_slice();
    if is_untyped(types, name) {
        return Ok(None);
    }
    let typed = declared_type(types.all, name, &types.table.row(name));
    let value = evaluated(alloc, constants, &equation.value)?;
    as_typed(alloc, constants, typed, value)
}

// Adds the constants of a PARAMETER.
fn add_equations<'a>(
    alloc: Global,
    constants: &mut Constants<'a>,
    types: Types<'a, '_>,
    equations: &'a [Equation77],
) -> Result<(), AllocError>
    ensures { OnOk result (shown_constants constants.new ≡ fold (plain.with_equation (shown_table types.entry.table.now) (map shown_initial types.entry.all.now) (map shown_initial types.entry.early.now)) (shown_constants constants.old) (map equation_of equations.now)) }
{
    for equation in equations {
        constants.add(alloc, types, equation)?;
    }
    Ok(())
}

// Adds the constants of a statement.
fn add_constants<'a>(
    alloc: Global,
    constants: &mut Constants<'a>,
    types: Types<'a, '_>,
    line: Line<'a>,
) -> Result<(), AllocError>
    ensures { OnOk result (shown_constants constants.new ≡ fold (plain.with_equation (shown_table types.entry.table.now) (map shown_initial types.entry.all.now) (map shown_initial types.entry.early.now)) (shown_constants constants.old) (plain.line_equations (shown_line line.entry))) }
{
    match line.part {
        Part::Declared(Declared77::Parameter(equations)) => {
            add_equations(alloc, constants, types, equations.as_slice())
        }
        _ => Ok(()),
    }
}

/// The constants of a unit, by the table of all its notes and the types of all first letters. It fails for want of memory alone.
#[tactic(auto, using(std::proofs::lemmas::Grind::common_steps))]
pub fn constants_of<'a>(
    alloc: Global,
    table: &Table<'a>,
    all_initials: &[Initial<'a>],
    lines: &[Line<'a>],
) -> Result<Constants<'a>, AllocError>
    ensures { IfOk result (λ constants. shown_constants constants ≡ plain.constants_of (shown_table table.now) (map shown_initial all_initials.now) (shown_lines lines.now)) }
{
    let mut constants = Constants::new(alloc);
    let mut initials = Items::new(alloc);
    for line in lines {
        let types = Types {
            table,
            all: all_initials,
            early: initials.as_slice(),
        };
        add_constants(alloc, &mut constants, types, *line)?;
        add_initials(&mut initials, *line)?;
    }
    Ok(constants)
}
