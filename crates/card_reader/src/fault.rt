// What is wrong with a line.
ghost use Rattle.std.specs.Prelude.{◌≡◌, decimal, IfOk};
ghost use Rattle.std.specs.Option.{option_map};
ghost use Rattle.text_base.specs.LineRefusals as refusals;
ghost use Rattle.text_base.specs.declared.refusal.Cause.TheVariants.{BadLabelField};
ghost use Rattle.card_reader.specs.Fault.{fault_of};

use crate::columns::{is_blank, label_field, label_of};
use std::alloc::{AllocError, Global};
use text_base::chars::is_digit;
use text_base::limits::LONGEST_LINE;
use text_base::{Bytes, Cause, Place, Refusal};

/// A cause, and the number that it names: a column or a length.
#[derive(Clone, Copy, Drop)]
pub struct Fault {
    pub cause: Cause,
    pub number: usize,
}

/// The fault as a refusal at a place. It fails for want of memory alone.
pub fn refusal_at(alloc: Global, place: Place, fault: Fault) -> Result<Refusal, AllocError>
    ensures { IfOk result (λ refusal. refusal ≡ record { place = place; cause = fault.cause; name = decimal fault.number }) }
{
    let number = fault.number;
    let name = format!(in alloc; "{number}")?;
    Ok(Refusal {
        place,
        cause: fault.cause,
        name: Bytes::from_vec(name.into_bytes()),
    })
}

/// A line has at most `LONGEST_LINE` bytes.
pub fn long_fault(line: &[u8]) -> Option<Fault>
    ensures { option_map fault_of result ≡ refusals.long_fault line.now }
{
    if line.len() > LONGEST_LINE {
        Some(Fault {
            cause: Cause::LineTooLong,
            number: line.len(),
        })
    } else {
        None
    }
}

/// The first of columns 1 to 5 that has something other than a digit or a blank.
fn label_column(line: &[u8]) -> Option<usize>
    ensures { result ≡ refusals.label_column line.now }
{
    let field = label_field(line);
    for (index, byte) in field.iter().enumerate() {
        if !(*byte == b' ' || is_digit(*byte)) {
            return Some(index + 1);
        }
    }
    None
}

/// The first of columns 1 to 5 that has something other than a blank.
fn filled_column(line: &[u8]) -> Option<usize>
    ensures { result ≡ refusals.filled_column line.now }
{
    let field = label_field(line);
    for (index, byte) in field.iter().enumerate() {
        if *byte != b' ' {
            return Some(index + 1);
        }
    }
    None
}

/// The label field of a continuation line has blanks alone.
pub fn filled_fault(line: &[u8]) -> Option<Fault>
    ensures { option_map fault_of result ≡ refusals.column_fault BadLabelField (refusals.filled_column line.now) }
{
    column_fault(Cause::BadLabelField, filled_column(line))
}

/// Column 1, where the label is of zeros alone.
fn zero_label(line: &[u8]) -> Option<usize>
    ensures { result ≡ refusals.zero_label line.now }
{
    if !is_blank(label_field(line)) && label_of(line) == 0 {
        Some(1)
    } else {
        None
    }
}

/// The label field of an initial line has digits and blanks alone, and no label of zeros.
pub fn label_fault(line: &[u8]) -> Option<Fault>
    ensures { option_map fault_of result ≡ refusals.label_fault line.now }
{
    let column = match label_column(line) {
        Some(column) => Some(column),
        None => zero_label(line),
    };
    column_fault(Cause::BadLabelField, column)
}

/// A fault that names a column, if there is one.
fn column_fault(cause: Cause, column: Option<usize>) -> Option<Fault>
    ensures { option_map fault_of result ≡ refusals.column_fault cause column }
{
    match column {
        Some(number) => Some(Fault { cause, number }),
        None => None,
    }
}
