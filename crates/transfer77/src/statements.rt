// Reads the statements of input and output behind their keywords (X3.9 section 12).
ghost use Rattle.std.specs.Prelude.{◌≡◌, map};
ghost use Rattle.expr_tree.specs.Plain.{expr_of};
ghost use Rattle.forms77.specs.Reading as reading;
ghost use Rattle.forms77.specs.Views.{Gives};
ghost use Rattle.tree77.specs.ListForms.{input_item, output_item};
ghost use Rattle.tree77.specs.StatementPlain.{listed_of, file_control_of, simple_of};
ghost use Rattle.tree77.specs.TransferForms as form;
ghost use Rattle.transfer77.specs.Parts as part;

use crate::controls::{control, file_control};
use crate::formats::format;
use crate::specifiers::Keywords;
use expr_tree::Expr;
use forms77::{Feed, Look, OneExpression, Rule, Stop, discard, input_items, output_items};
use sqlite_items::{Boxed, Items};
use std::alloc::Global;
use tree77::{FileControl77, Listeds77, ReadBy77, Stmt77};

/// Takes items that are read, or none; lists in them nest as deep as there is room, at most.
fn some_inputs(alloc: Global, feed: &mut Feed<'_, '_>, room: usize) -> Result<Listeds77, Stop>
    ensures { Gives (map listed_of) result feed.new (reading.read (form.some_items (input_item room)) feed.old) }
{
    if !feed.is_at("A0'(.+-") {
        return Ok(Items::new(alloc));
    }
    input_items(alloc, feed, room)
}

/// Takes items that are written, or none.
fn some_outputs(alloc: Global, feed: &mut Feed<'_, '_>, room: usize) -> Result<Listeds77, Stop>
    ensures { Gives (map listed_of) result feed.new (reading.read (form.some_items (output_item room)) feed.old) }
{
    if !feed.is_at("A0'(.+-") {
        return Ok(Items::new(alloc));
    }
    output_items(alloc, feed, room)
}

/// Takes items that are read behind a comma, or none.
fn inputs_behind(alloc: Global, feed: &mut Feed<'_, '_>, room: usize) -> Result<Listeds77, Stop>
    ensures { Gives (map listed_of) result feed.new (reading.read (part.items_behind (input_item room)) feed.old) }
{
    if !feed.take(b',') {
        return Ok(Items::new(alloc));
    }
    input_items(alloc, feed, room)
}

/// Takes items that are written behind a comma, or none.
fn outputs_behind(alloc: Global, feed: &mut Feed<'_, '_>, room: usize) -> Result<Listeds77, Stop>
    ensures { Gives (map listed_of) result feed.new (reading.read (part.items_behind (output_item room)) feed.old) }
{
    if !feed.take(b',') {
        return Ok(Items::new(alloc));
    }
    output_items(alloc, feed, room)
}

/// `(control) [list]` of READ.
fn read_by_control(alloc: Global, feed: &mut Feed<'_, '_>, room: usize) -> Result<Stmt77, Stop>
    ensures { Gives simple_of result feed.new (reading.read (form.read_by_control room) feed.old) }
{
    let control = ReadBy77::Control(control(alloc, feed, Keywords::Read)?);
    let by = Boxed::new(alloc, control)?;
    match some_inputs(alloc, feed, room) {
        Ok(items) => Ok(Stmt77::Read(by, items)),
        Err(stop) => {
            discard(by);
            Err(stop)
        }
    }
}

/// `format [, list]` of READ.
fn read_by_format(alloc: Global, feed: &mut Feed<'_, '_>, room: usize) -> Result<Stmt77, Stop>
    ensures { Gives simple_of result feed.new (reading.read (form.read_by_format room) feed.old) }
{
    let by = Boxed::new(alloc, ReadBy77::Format(format(alloc, feed)?))?;
    match inputs_behind(alloc, feed, room) {
        Ok(items) => Ok(Stmt77::Read(by, items)),
        Err(stop) => {
            discard(by);
            Err(stop)
        }
    }
}

/// `READ (control) [list]`, `READ format [, list]` (X3.9 section 12.8).
///
/// In: what is left of the statement behind its keyword, and in `room` how many characters this has: lists nest no deeper.
///
/// Out: the tree; `feed` then stands behind it and has the lowest refused part so far. `NotSpelled` where what is left doesn't
/// begin with this form; `Memory` where memory is wanted.
pub fn read(alloc: Global, feed: &mut Feed<'_, '_>, room: usize) -> Result<Stmt77, Stop>
    ensures { Gives simple_of result feed.new (reading.read (form.read room) feed.old) }
{
    if feed.is_ahead(Look::Group(",/*+-.")) {
        return read_by_format(alloc, feed, room);
    }
    if feed.is_ahead(Look::One("(")) {
        return read_by_control(alloc, feed, room);
    }
    read_by_format(alloc, feed, room)
}

/// `WRITE (control) [list]` (X3.9 section 12.8).
///
/// In: what is left of the statement behind its keyword, and in `room` how many characters this has: lists nest no deeper.
///
/// Out: the tree; `feed` then stands behind it and has the lowest refused part so far. `NotSpelled` where what is left doesn't
/// begin with this form; `Memory` where memory is wanted.
pub fn write(alloc: Global, feed: &mut Feed<'_, '_>, room: usize) -> Result<Stmt77, Stop>
    ensures { Gives simple_of result feed.new (reading.read (form.write room) feed.old) }
{
    let control = Boxed::new(alloc, control(alloc, feed, Keywords::Write)?)?;
    match some_outputs(alloc, feed, room) {
        Ok(items) => Ok(Stmt77::Write(control, items)),
        Err(stop) => {
            discard(control);
            Err(stop)
        }
    }
}

/// `PRINT format [, list]` (X3.9 section 12.8).
///
/// In: what is left of the statement behind its keyword, and in `room` how many characters this has: lists nest no deeper.
///
/// Out: the tree; `feed` then stands behind it and has the lowest refused part so far. `NotSpelled` where what is left doesn't
/// begin with this form; `Memory` where memory is wanted.
pub fn print(alloc: Global, feed: &mut Feed<'_, '_>, room: usize) -> Result<Stmt77, Stop>
    ensures { Gives simple_of result feed.new (reading.read (form.print room) feed.old) }
{
    let format = format(alloc, feed)?;
    match outputs_behind(alloc, feed, room) {
        Ok(items) => Ok(Stmt77::Print(format, items)),
        Err(stop) => {
            discard(format);
            Err(stop)
        }
    }
}

/// `OPEN (control)` (X3.9 section 12.10.1).
///
/// In: what is left of the statement behind its keyword.
///
/// Out: the tree; `feed` then stands behind it and has the lowest refused part so far. `NotSpelled` where what is left doesn't
/// begin with this form; `Memory` where memory is wanted.
pub fn open(alloc: Global, feed: &mut Feed<'_, '_>) -> Result<Stmt77, Stop>
    ensures { Gives simple_of result feed.new (reading.read form.open_ feed.old) }
{
    let control = file_control(alloc, feed, Keywords::Open)?;
    Ok(Stmt77::Open(Boxed::new(alloc, control)?))
}

/// `CLOSE (control)` (X3.9 section 12.10.2).
///
/// In: what is left of the statement behind its keyword.
///
/// Out: the tree; `feed` then stands behind it and has the lowest refused part so far. `NotSpelled` where what is left doesn't
/// begin with this form; `Memory` where memory is wanted.
pub fn close(alloc: Global, feed: &mut Feed<'_, '_>) -> Result<Stmt77, Stop>
    ensures { Gives simple_of result feed.new (reading.read form.close_ feed.old) }
{
    let control = file_control(alloc, feed, Keywords::Close)?;
    Ok(Stmt77::Close(Boxed::new(alloc, control)?))
}

/// A unit alone.
fn unit_alone(unit: Expr) -> FileControl77
    ensures { file_control_of result ≡ form.unit_alone (expr_of unit) }
{
    FileControl77 {
        unit,
        file: None,
        status: None,
        iostat: None,
        error: None,
    }
}

/// `REWIND (control)`, `REWIND unit` (X3.9 section 12.10.4).
///
/// In: what is left of the statement behind its keyword.
///
/// Out: the tree; `feed` then stands behind it and has the lowest refused part so far. `NotSpelled` where what is left doesn't
/// begin with this form; `Memory` where memory is wanted.
pub fn rewind(alloc: Global, feed: &mut Feed<'_, '_>) -> Result<Stmt77, Stop>
    ensures { Gives simple_of result feed.new (reading.read form.rewind feed.old) }
{
    if feed.is_ahead(Look::Group("\0")) {
        let control = file_control(alloc, feed, Keywords::Close)?;
        return Ok(Stmt77::Rewind(Boxed::new(alloc, control)?));
    }
    let control = unit_alone(OneExpression.read(alloc, feed)?);
    Ok(Stmt77::Rewind(Boxed::new(alloc, control)?))
}
