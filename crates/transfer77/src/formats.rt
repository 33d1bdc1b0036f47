// Reads units and formats (X3.9 sections 12.3 and 12.4).
ghost use Rattle.forms77.specs.Reading.{read};
ghost use Rattle.forms77.specs.Views.{Gives};
ghost use Rattle.tree77.specs.StatementPlain.{unit_ref_of, format_ref_of};
ghost use Rattle.tree77.specs.TransferForms as form;
ghost use Rattle.transfer77.specs.Parts as part;

use expr77::{is_label, unsupported};
use forms77::{Feed, Look, OneExpression, Rule, Stop, label_number};
use std::alloc::Global;
use tree77::{FormatRef77, UnitRef77};

/// Takes a unit: `*`, or an expression (X3.9 section 12.3).
///
/// In: what is left of the statement.
///
/// Out: the tree; `feed` then stands behind it and has the lowest refused part so far. `NotSpelled` where what is left doesn't
/// begin with this form; `Memory` where memory is wanted.
pub fn unit(alloc: Global, feed: &mut Feed<'_, '_>) -> Result<UnitRef77, Stop>
    ensures { Gives unit_ref_of result feed.new (read form.unit feed.old) }
{
    if feed.is_at("*") {
        feed.mark(b'*')?;
        return Ok(UnitRef77::Star);
    }
    Ok(UnitRef77::Given(OneExpression.read(alloc, feed)?))
}

/// Takes digits as a format: a label, or else they are refused.
fn label_format(feed: &mut Feed<'_, '_>) -> Result<FormatRef77, Stop>
    ensures { Gives format_ref_of result feed.new (read part.label_format feed.old) }
{
    let held = feed.hold();
    let digits = feed.numeral()?;
    if is_label(digits) {
        feed.release(held, None);
        return Ok(FormatRef77::Label(label_number(digits)));
    }
    feed.release(held, unsupported("FORMAT"));
    Ok(FormatRef77::Label(0))
}

/// Takes a character constant that is a format.
fn constant_format(alloc: Global, feed: &mut Feed<'_, '_>) -> Result<FormatRef77, Stop>
    ensures { Gives format_ref_of result feed.new (read part.constant_format feed.old) }
{
    let (text, items) = feed.format_text(alloc)?;
    Ok(FormatRef77::Text(text, items))
}

/// Takes an expression as a format, which is refused.
fn other_format(alloc: Global, feed: &mut Feed<'_, '_>) -> Result<FormatRef77, Stop>
    ensures { Gives format_ref_of result feed.new (read part.other_format feed.old) }
{
    feed.refuse("FORMAT");
    OneExpression.read(alloc, feed)?;
    Ok(FormatRef77::Label(0))
}

/// Takes a format: `*`, a label or a character constant (X3.9 section 12.4); another expression is refused.
///
/// In: what is left of the statement.
///
/// Out: the tree; `feed` then stands behind it and has the lowest refused part so far. `NotSpelled` where what is left doesn't
/// begin with this form; `Memory` where memory is wanted.
pub fn format(alloc: Global, feed: &mut Feed<'_, '_>) -> Result<FormatRef77, Stop>
    ensures { Gives format_ref_of result feed.new (read form.format feed.old) }
{
    if feed.is_at("*") {
        feed.mark(b'*')?;
        return Ok(FormatRef77::Star);
    }
    if feed.is_ahead(Look::Two(b'0', "\0,)")) {
        return label_format(feed);
    }
    if feed.is_ahead(Look::Two(b'\'', "\0,)")) {
        return constant_format(alloc, feed);
    }
    other_format(alloc, feed)
}
