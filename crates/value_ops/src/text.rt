// Operations on characters.
ghost use Rattle.std.specs.Prelude.{◌≡◌, ◌++◌, pos, slice_index_or, true, IfOk, IfErr};
ghost use Rattle.text_base.specs.Values.{value_of};
ghost use Rattle.text_base.specs.Operations.{text_cmp, place_in, in_range, character, number_of, computes};
ghost use Rattle.value_ops.specs.Answers.{answered, IsFaultOf};

use crate::error::OpError;
use std::alloc::{AllocError, Global};
use std::cmp::Ordering;
use text_base::{Bytes, RunFault, Value};

// The character at a place that is counted from 0. Past the end there are blanks.
fn character_at(text: &[u8], place: usize) -> u8
    ensures { result ≡ slice_index_or text.now place 32 }
{
    match text.get(place) {
        Some(character) => *character,
        None => b' ',
    }
}

/// How two texts compare. The shorter is followed by blanks up to the length of the longer, and the first characters that differ
/// decide (X3.9 section 6.3.5; ISO/IEC 1539:1991 section 7.2.3).
pub fn compare_texts(a: &[u8], b: &[u8]) -> Ordering
    ensures { result ≡ text_cmp a.now b.now }
{
    for place in 0..a.len().max(b.len()) {
        let order = character_at(a, place).cmp(&character_at(b, place));
        if order.is_ne() {
            return order;
        }
    }
    Ordering::Equal
}

/// The first place, counted from 1, where the part begins in the text, or 0 where it begins nowhere (X3.9 section 15.10;
/// ISO/IEC 1539:1991 section 13.13). A part of no characters begins at 1.
pub fn place_in(text: &[u8], part: &[u8]) -> usize
    ensures { result ≡ place_in text.now part.now }
{
    if part.is_empty() {
        return 1;
    }
    for start in 0..text.len() {
        if text[start..].starts_with(part) {
            return start + 1;
        }
    }
    0
}

/// A number of characters, or a place among them, as an integer. It faults with `Overflow` above 2147483647.
pub fn count(number: usize) -> Result<i32, RunFault>
    ensures { answered result ≡ in_range (pos number) }
{
    match i32::try_from(number) {
        Ok(number) => Ok(number),
        Err(_) => Err(RunFault::Overflow),
    }
}

/// A text followed by another. It fails for want of memory alone (X3.9 section 6.2.1; ISO/IEC 1539:1991 section 7.2.2).
pub fn joined(alloc: Global, a: &[u8], b: &[u8]) -> Result<Bytes, AllocError>
    ensures { IfOk result (λ text. text ≡ a.now ++ b.now) }
{
    let mut text = Bytes::from_slice(alloc, a)?;
    text.extend(b)?;
    Ok(text)
}

/// The character that has a number, as CHAR gives it. Characters are bytes: below 0 and above 255 it faults with `CharRange`.
pub fn character(alloc: Global, number: i32) -> Result<Value, OpError>
    ensures computed { IfOk result (λ v. character number ≡ computes (value_of v)) }
    ensures faulted { IfErr result (IsFaultOf (character number)) }
{
    match u8::try_from(number) {
        Ok(byte) => Ok(Value::Text(Bytes::from_slice(alloc, &[byte])?)),
        Err(_) => Err(OpError::Fault(RunFault::CharRange)),
    }
}

/// The number of a character, as ICHAR gives it. It faults with `CharRange` at other than one character.
pub fn number_of(text: &[u8]) -> Result<i32, RunFault>
    ensures { answered result ≡ number_of text.now }
{
    match text {
        [character] => Ok(i32::from(*character)),
        _ => Err(RunFault::CharRange),
    }
}
