// What is found at the items of lists and in transfers.
ghost use Rattle.std.specs.Prelude.{◌≡◌, ◌++◌, map, Some, OnOk};
ghost use Rattle.std.specs.Option.{option_map};
ghost use Rattle.text_base.specs.Trees as t;
ghost use Rattle.expr_tree.specs.Plain.{expr_of};
ghost use Rattle.tree77.specs.StatementPlain.{dimension_of, range_of, listed_of, listed_items, unit_ref_of, format_ref_of, control_of, read_by_of, file_control_of};
ghost use Rattle.names77.specs.Views.{kind_shown, shown_known, shown_row};
ghost use Rattle.implicit_types.specs.PartFindings as plain;
ghost use Rattle.implicit_types.specs.Views.{shown_findings};

use crate::expression_findings::{
    Standing, expr_findings, mismatch, of_name, option_findings, value_findings,
};
use crate::findings::{Findings, add};
use crate::operands::{expr_scalar, is_apart, may_be};
use expr_tree::Expr;
use names77::{Around, Known, Row, Scalar};
use std::alloc::AllocError;
use text_base::{Cause, Name};
use tree77::{
    Control77, Dimension77, FileControl77, FormatRef77, Listed77, Range77, ReadBy77, UnitRef77,
};

/// What an item of a list is for: input, output, or DATA.
#[derive(Clone, Copy, Debug, PartialEq, Eq)]
pub enum ItemUse {
    Read,
    Written,
    Data,
}

// ---- names

// Whether a name has another type than integer.
fn is_apart_name(known: &Known<'_>, name: &Name) -> bool
    ensures { result ≡ plain.is_apart_status (shown_known known.now) (Some name.now) }
{
    !may_be(known.scalar(name.as_slice()), Scalar::Integer)
}

// Adds what is found at a name alone whose value is used.
fn name_findings<'a>(
    findings: &mut Findings<'a>,
    known: &Known<'_>,
    name: &'a Name,
) -> Result<(), AllocError>
    ensures { OnOk result (shown_findings findings.new ≡ shown_findings findings.old ++ plain.value_findings (shown_known known.now) (t.name name.now)) }
{
    let is_array = known.is_array(name.as_slice());
    of_name(
        findings,
        known,
        Cause::SubscriptCount,
        name.as_slice(),
        is_array,
    )
}

// Whether the variable of IOSTAT has another type than integer.
fn is_apart_status(known: &Known<'_>, iostat: &Option<Name>) -> bool
    ensures { result ≡ plain.is_apart_status (shown_known known.now) iostat.now }
{
    match iostat {
        Some(name) => is_apart_name(known, name),
        None => false,
    }
}

// Adds what is found at the variable of IOSTAT.
fn status_findings<'a>(
    findings: &mut Findings<'a>,
    known: &Known<'_>,
    iostat: &'a Option<Name>,
) -> Result<(), AllocError>
    ensures { OnOk result (shown_findings findings.new ≡ shown_findings findings.old ++ plain.status_findings (shown_known known.now) iostat.now) }
{
    match iostat {
        Some(name) => name_findings(findings, known, name),
        None => Ok(()),
    }
}

// Whether an expression, where there is one, has another type.
fn is_apart_option(known: &Known<'_>, wanted: Scalar, expr: &Option<Expr>) -> bool
    ensures { result ≡ plain.is_apart_option (shown_known known.now) (kind_shown wanted) (option_map expr_of expr.now) }
{
    match expr {
        Some(expr) => is_apart(known, wanted, expr),
        None => false,
    }
}

// ---- DO

/// Whether a DO variable or one of its values has another type than integer.
pub fn is_apart_do(
    known: &Known<'_>,
    variable: &Name,
    from: &Expr,
    to: &Expr,
    by: &Option<Expr>,
) -> bool
    ensures { result ≡ plain.is_apart_range (shown_known known.now) (plain.range variable.now (expr_of from.now) (expr_of to.now) (option_map expr_of by.now)) }
{
    is_apart_name(known, variable)
        || is_apart(known, Scalar::Integer, from)
        || is_apart(known, Scalar::Integer, to)
        || is_apart_option(known, Scalar::Integer, by)
}

/// Adds what is found at a DO variable and its values.
#[tactic(auto, using(crate::proofs::PartLemmas::of_parts))]
pub fn do_findings<'a>(
    findings: &mut Findings<'a>,
    known: &Known<'_>,
    variable: &'a Name,
    from: &'a Expr,
    to: &'a Expr,
    by: &'a Option<Expr>,
) -> Result<(), AllocError>
    ensures { OnOk result (shown_findings findings.new ≡ shown_findings findings.old ++ plain.range_findings (shown_known known.now) (plain.range variable.now (expr_of from.now) (expr_of to.now) (option_map expr_of by.now))) }
{
    name_findings(findings, known, variable)?;
    value_findings(findings, known, from)?;
    value_findings(findings, known, to)?;
    option_findings(findings, known, by)
}

// Whether the variable of an implied DO list or one of its values has another type than integer.
fn is_apart_range(known: &Known<'_>, range: &Range77) -> bool
    ensures { result ≡ plain.is_apart_range (shown_known known.now) (range_of range.now) }
{
    is_apart_do(known, &range.variable, &range.from, &range.to, &range.by)
}

// Adds what is found at the values of an implied DO list.
fn range_findings<'a>(
    findings: &mut Findings<'a>,
    known: &Known<'_>,
    range: &'a Range77,
) -> Result<(), AllocError>
    ensures { OnOk result (shown_findings findings.new ≡ shown_findings findings.old ++ plain.range_findings (shown_known known.now) (range_of range.now)) }
{
    do_findings(
        findings,
        known,
        &range.variable,
        &range.from,
        &range.to,
        &range.by,
    )
}

// ---- items

// Whether an expression is the constant 1.
#[tactic(auto, using(crate::proofs::PartLemmas::expr_steps))]
fn is_one(expr: &Expr) -> bool
    ensures { result ≡ plain.is_one (expr_of expr.now) }
{
    match expr {
        Expr::Int(value) => *value == 1,
        Expr::Bool(_) => false,
        Expr::Text(_) => false,
        Expr::Name(_) => false,
        Expr::Call(_, _) => false,
        Expr::Substring(_, _, _) => false,
        Expr::Unary(_, _) => false,
        Expr::Binary(_, _, _) => false,
        Expr::Paren(_) => false,
    }
}

// Whether a dimension is `*`, or is read as if it were: it is written `1`.
fn is_star(lower: &Option<Expr>, upper: &Option<Expr>) -> bool
    ensures { result ≡ plain.is_star (option_map expr_of lower.now) (option_map expr_of upper.now) }
{
    match (lower, upper) {
        (_, None) => true,
        (None, Some(upper)) => is_one(upper),
        (Some(_), Some(_)) => false,
    }
}

// Whether the last dimension is.
#[tactic(auto, using(std::proofs::lemmas::List::take_more, crate::proofs::PartLemmas::no_end_more))]
fn has_no_end(dimensions: &[Dimension77]) -> bool
    ensures { result ≡ plain.has_no_end (map dimension_of dimensions.now) }
{
    let mut has_no_end = false;
    for dimension in dimensions {
        has_no_end = is_star(&dimension.lower, &dimension.upper);
    }
    has_no_end
}

// Whether a name is a whole dummy array whose last dimension is `*`.
fn is_endless(row: &Row<'_>) -> bool
    ensures { result ≡ plain.is_endless (shown_row row.now) }
{
    match row.shape {
        Some(dimensions) => row.is_dummy && has_no_end(dimensions),
        None => false,
    }
}

// Adds that an item is a whole dummy array whose last dimension is `*`.
#[tactic(auto, using(crate::proofs::PartLemmas::expr_steps))]
fn endless_findings<'a>(
    findings: &mut Findings<'a>,
    known: &Known<'_>,
    item: &'a Expr,
) -> Result<(), AllocError>
    ensures { OnOk result (shown_findings findings.new ≡ shown_findings findings.old ++ plain.endless_findings (shown_known known.now) (expr_of item.now)) }
{
    match item {
        Expr::Name(name) => {
            let is_endless = is_endless(&known.table.row(name.as_slice()));
            of_name(
                findings,
                known,
                Cause::SubscriptCount,
                name.as_slice(),
                is_endless,
            )
        }
        Expr::Int(_) => Ok(()),
        Expr::Bool(_) => Ok(()),
        Expr::Text(_) => Ok(()),
        Expr::Call(_, _) => Ok(()),
        Expr::Substring(_, _, _) => Ok(()),
        Expr::Unary(_, _) => Ok(()),
        Expr::Binary(_, _, _) => Ok(()),
        Expr::Paren(_) => Ok(()),
    }
}

// Adds what is found at an item that is no list.
fn item_findings<'a>(
    findings: &mut Findings<'a>,
    known: &Known<'_>,
    item_use: ItemUse,
    item: &'a Expr,
) -> Result<(), AllocError>
    ensures { OnOk result (shown_findings findings.new ≡ shown_findings findings.old ++ plain.item_findings (shown_known known.now) item_use (expr_of item.now)) }
{
    let place = Standing {
        whole: true,
        is_place: true,
    };
    match item_use {
        ItemUse::Read => {
            endless_findings(findings, known, item)?;
            expr_findings(findings, known, Around::Elsewhere, place, item)
        }
        ItemUse::Written => {
            endless_findings(findings, known, item)?;
            let value = Standing {
                whole: true,
                is_place: false,
            };
            expr_findings(findings, known, Around::Elsewhere, value, item)
        }
        ItemUse::Data => expr_findings(findings, known, Around::Elsewhere, place, item),
    }
}

// Adds what is found at an item.
#[cycle(items)]
#[tactic(auto, using(crate::proofs::PartLemmas::listed_steps))]
fn listed_findings<'a>(
    findings: &mut Findings<'a>,
    known: &Known<'_>,
    item_use: ItemUse,
    listed: &'a Listed77,
) -> Result<(), AllocError>
    ensures { OnOk result (shown_findings findings.new ≡ shown_findings findings.old ++ plain.listed_findings (shown_known known.now) item_use (listed_of listed.now)) }
{
    match listed {
        Listed77::Item(expr) => item_findings(findings, known, item_use, expr),
        Listed77::Loop(items, range) => {
            listeds_findings(findings, known, item_use, items.as_slice())?;
            range_findings(findings, known, range.get())
        }
    }
}

/// Adds what is found at the items of a list.
#[cycle(items)]
#[tactic(auto, using(crate::proofs::PartLemmas::part_steps))]
pub fn listeds_findings<'a>(
    findings: &mut Findings<'a>,
    known: &Known<'_>,
    item_use: ItemUse,
    items: &'a [Listed77],
) -> Result<(), AllocError>
    ensures { OnOk result (shown_findings findings.new ≡ shown_findings findings.old ++ plain.listeds_findings (shown_known known.now) item_use (listed_items items.now)) }
{
    for item in items {
        listed_findings(findings, known, item_use, item)?;
    }
    Ok(())
}

// Whether the values of a variable in an implied DO list have another type than integer.
#[cycle(implied)]
#[tactic(auto, using(crate::proofs::PartLemmas::listed_steps))]
fn is_apart_listed(known: &Known<'_>, listed: &Listed77) -> bool
    ensures { result ≡ plain.is_apart_listed (shown_known known.now) (listed_of listed.now) }
{
    match listed {
        Listed77::Item(_) => false,
        Listed77::Loop(items, range) => {
            are_apart_listeds(known, items.as_slice()) || is_apart_range(known, range.get())
        }
    }
}

// Whether they have in one of the items.
#[cycle(implied)]
fn are_apart_listeds(known: &Known<'_>, items: &[Listed77]) -> bool
    ensures { result ≡ plain.are_apart_listeds (shown_known known.now) (listed_items items.now) }
{
    let mut are_apart = false;
    for item in items {
        are_apart |= is_apart_listed(known, item);
    }
    are_apart
}

// ---- units

// Whether an expression is a variable, an array element or a substring.
#[tactic(auto, using(crate::proofs::PartLemmas::expr_steps))]
fn is_designator(known: &Known<'_>, expr: &Expr) -> bool
    ensures { result ≡ plain.is_designator (shown_known known.now) (expr_of expr.now) }
{
    match expr {
        Expr::Name(name) => known.table.row(name.as_slice()).value.is_none(),
        Expr::Call(name, _) => known.is_array(name.as_slice()),
        Expr::Substring(_, _, _) => true,
        Expr::Int(_) => false,
        Expr::Bool(_) => false,
        Expr::Text(_) => false,
        Expr::Unary(_, _) => false,
        Expr::Binary(_, _, _) => false,
        Expr::Paren(_) => false,
    }
}

// Whether a unit is an internal file.
fn is_internal(known: &Known<'_>, expr: &Expr) -> bool
    ensures { result ≡ plain.is_internal (shown_known known.now) (expr_of expr.now) }
{
    matches!(expr_scalar(known, expr), Some(Scalar::Text)) && is_designator(known, expr)
}

// Whether a unit is neither an integer nor an internal file.
fn is_wrong_unit(known: &Known<'_>, unit: &UnitRef77) -> bool
    ensures { result ≡ plain.is_wrong_unit (shown_known known.now) (unit_ref_of unit.now) }
{
    match unit {
        UnitRef77::Star => false,
        UnitRef77::Given(expr) => {
            is_apart(known, Scalar::Integer, expr) && !is_internal(known, expr)
        }
    }
}

// Adds what is found at a unit.
fn unit_findings<'a>(
    findings: &mut Findings<'a>,
    known: &Known<'_>,
    unit: &'a UnitRef77,
) -> Result<(), AllocError>
    ensures { OnOk result (shown_findings findings.new ≡ shown_findings findings.old ++ plain.unit_findings (shown_known known.now) (unit_ref_of unit.now)) }
{
    match unit {
        UnitRef77::Star => Ok(()),
        UnitRef77::Given(expr) => value_findings(findings, known, expr),
    }
}

// Whether a format is `*`.
fn is_list_directed(format: &FormatRef77) -> bool
    ensures { result ≡ plain.is_list_directed (format_ref_of format.now) }
{
    match format {
        FormatRef77::Star => true,
        FormatRef77::Label(_) => false,
        FormatRef77::Text(_, _) => false,
    }
}

// Whether a transfer of an internal file is list-directed.
fn is_unsupported(known: &Known<'_>, unit: &UnitRef77, format: &FormatRef77) -> bool
    ensures { result ≡ plain.is_unsupported (shown_known known.now) (unit_ref_of unit.now) (format_ref_of format.now) }
{
    match unit {
        UnitRef77::Star => false,
        UnitRef77::Given(expr) => is_list_directed(format) && is_internal(known, expr),
    }
}

// ---- transfers

/// Adds what is found at a READ.
pub fn read_findings<'a>(
    findings: &mut Findings<'a>,
    known: &Known<'_>,
    by: &'a ReadBy77,
    items: &'a [Listed77],
) -> Result<(), AllocError>
    ensures { OnOk result (shown_findings findings.new ≡ shown_findings findings.old ++ plain.read_findings (shown_known known.now) (read_by_of by.now) (listed_items items.now)) }
{
    match by {
        ReadBy77::Control(control) => {
            transfer_findings(findings, known, b"READ", ItemUse::Read, control, items)
        }
        ReadBy77::Format(_) => items_findings(findings, known, b"READ", ItemUse::Read, items),
    }
}

/// Adds what is found at a transfer with a control list, by its keyword.
#[tactic(auto, using(crate::proofs::PartLemmas::part_steps))]
pub fn transfer_findings<'a>(
    findings: &mut Findings<'a>,
    known: &Known<'_>,
    word: &'a [u8],
    item_use: ItemUse,
    control: &'a Control77,
    items: &'a [Listed77],
) -> Result<(), AllocError>
    ensures { OnOk result (shown_findings findings.new ≡ shown_findings findings.old ++ plain.transfer_findings (shown_known known.now) word.entry.now item_use (control_of control.now) (listed_items items.now)) }
{
    let is_unsupported = is_unsupported(known, &control.unit, &control.format);
    add(findings, Cause::Unsupported, b"CONTROL", is_unsupported)?;
    let is_wrong = is_wrong_unit(known, &control.unit)
        || is_apart_status(known, &control.iostat)
        || are_apart_listeds(known, items);
    mismatch(findings, word, is_wrong)?;
    unit_findings(findings, known, &control.unit)?;
    status_findings(findings, known, &control.iostat)?;
    listeds_findings(findings, known, item_use, items)
}

/// Adds what is found at a transfer without a control list, by its keyword.
#[tactic(auto, using(crate::proofs::PartLemmas::part_steps))]
pub fn items_findings<'a>(
    findings: &mut Findings<'a>,
    known: &Known<'_>,
    word: &'a [u8],
    item_use: ItemUse,
    items: &'a [Listed77],
) -> Result<(), AllocError>
    ensures { OnOk result (shown_findings findings.new ≡ shown_findings findings.old ++ plain.items_findings (shown_known known.now) word.entry.now item_use (listed_items items.now)) }
{
    let are_apart = are_apart_listeds(known, items);
    mismatch(findings, word, are_apart)?;
    listeds_findings(findings, known, item_use, items)
}

// ---- files

// Whether a part of an OPEN, CLOSE or REWIND has a wrong type.
fn is_wrong_file(known: &Known<'_>, control: &FileControl77) -> bool
    ensures { result ≡ plain.is_wrong_file (shown_known known.now) (file_control_of control.now) }
{
    is_apart(known, Scalar::Integer, &control.unit)
        || is_apart_option(known, Scalar::Text, &control.file)
        || is_apart_option(known, Scalar::Text, &control.status)
        || is_apart_status(known, &control.iostat)
}

/// Adds what is found at an OPEN, CLOSE or REWIND, by its keyword.
#[tactic(auto, using(crate::proofs::PartLemmas::part_steps))]
pub fn file_findings<'a>(
    findings: &mut Findings<'a>,
    known: &Known<'_>,
    word: &'a [u8],
    control: &'a FileControl77,
) -> Result<(), AllocError>
    ensures { OnOk result (shown_findings findings.new ≡ shown_findings findings.old ++ plain.file_findings (shown_known known.now) word.entry.now (file_control_of control.now)) }
{
    let is_wrong = is_wrong_file(known, control);
    mismatch(findings, word, is_wrong)?;
    value_findings(findings, known, &control.unit)?;
    option_findings(findings, known, &control.file)?;
    option_findings(findings, known, &control.status)?;
    status_findings(findings, known, &control.iostat)
}
