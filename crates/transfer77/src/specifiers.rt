// Reads the specifiers of control lists (X3.9 sections 12.8.1 and 12.10).
ghost use Rattle.std.specs.Prelude.{List, Option};
ghost use Rattle.std.specs.Option.{option_map};
ghost use Rattle.forms77.specs.Reading.{read};
ghost use Rattle.forms77.specs.Views.{Gives};
ghost use Rattle.tree77.specs.FormWords.{behind};
ghost use Rattle.tree77.specs.TransferForms as form;
ghost use Rattle.transfer77.specs.Views.{specifier_of, others_of, specifiers_of, keyword_of};
ghost use Rattle.transfer77.specs.Parts as part;

use crate::formats::{format, unit};
use expr_tree::Expr;
use expr77::unsupported;
use forms77::{Feed, Look, OneExpression, Rule, Stop, discard, is_designator, many, variable_of};
use sqlite_items::Items;
use std::alloc::Global;
use text_base::Name;
use tree77::{FormatRef77, UnitRef77};

/// The statements that have a control list. They differ in the specifiers with a keyword that they take; REWIND takes those
/// of CLOSE.
#[derive(Clone, Copy)]
pub enum Keywords {
    Read,
    Write,
    Open,
    Close,
}

/// A specifier of a control list: a unit or a format without a keyword, one with a keyword, or one that is refused.
#[derive(Drop)]
pub enum Specifier {
    FirstUnit(UnitRef77),
    SecondFormat(FormatRef77),
    Unit(UnitRef77),
    Format(FormatRef77),
    File(Expr),
    Status(Expr),
    Iostat(Name),
    Error(u32),
    Ending(u32),
    Other,
}

/// The specifiers behind the first one.
#[derive(Drop)]
pub struct Others {
    pub second: Specifier,
    pub more: Items<Specifier>,
}

/// All specifiers of a control list.
#[derive(Drop)]
pub struct Specifiers {
    pub first: Specifier,
    pub others: Option<Others>,
}

/// Takes what IOSTAT names: a variable; another designator is refused.
fn iostat(alloc: Global, feed: &mut Feed<'_, '_>) -> Result<Specifier, Stop>
    ensures { Gives specifier_of result feed.new (read form.iostat feed.old) }
{
    let held = feed.hold();
    let expr = feed.portion(alloc, true, "),=:")?;
    if !is_designator(&expr) {
        return Err(Stop::NotSpelled);
    }
    match variable_of(expr) {
        Some(name) => {
            feed.release(held, None);
            Ok(Specifier::Iostat(name))
        }
        None => {
            feed.release(held, unsupported("CONTROL"));
            Ok(Specifier::Other)
        }
    }
}

/// Takes a specifier with another keyword, which is refused.
fn other_specifier(alloc: Global, feed: &mut Feed<'_, '_>) -> Result<Specifier, Stop>
    ensures { Gives specifier_of result feed.new (read form.other_specifier feed.old) }
{
    feed.refuse("CONTROL");
    feed.name()?;
    feed.mark(b'=')?;
    OneExpression.read(alloc, feed)?;
    Ok(Specifier::Other)
}

/// Takes a specifier that each of the statements may have: IOSTAT or ERR; another one is refused.
fn common_specifier(alloc: Global, feed: &mut Feed<'_, '_>) -> Result<Specifier, Stop>
    ensures { Gives specifier_of result feed.new (read form.common_specifier feed.old) }
{
    if feed.is_ahead(Look::Text("IOSTAT", "=")) {
        feed.word("IOSTAT")?;
        feed.mark(b'=')?;
        return iostat(alloc, feed);
    }
    if feed.is_ahead(Look::Text("ERR", "=")) {
        feed.word("ERR")?;
        feed.mark(b'=')?;
        return Ok(Specifier::Error(feed.label()?));
    }
    other_specifier(alloc, feed)
}

/// Takes a specifier with a keyword of WRITE.
fn write_specifier(alloc: Global, feed: &mut Feed<'_, '_>) -> Result<Specifier, Stop>
    ensures { Gives specifier_of result feed.new (read form.write_specifier feed.old) }
{
    if feed.is_ahead(Look::Text("UNIT", "=")) {
        feed.word("UNIT")?;
        feed.mark(b'=')?;
        return Ok(Specifier::Unit(unit(alloc, feed)?));
    }
    if feed.is_ahead(Look::Text("FMT", "=")) {
        feed.word("FMT")?;
        feed.mark(b'=')?;
        return Ok(Specifier::Format(format(alloc, feed)?));
    }
    common_specifier(alloc, feed)
}

/// Takes a specifier with a keyword of READ.
fn read_specifier(alloc: Global, feed: &mut Feed<'_, '_>) -> Result<Specifier, Stop>
    ensures { Gives specifier_of result feed.new (read form.read_specifier feed.old) }
{
    if feed.is_ahead(Look::Text("END", "=")) {
        feed.word("END")?;
        feed.mark(b'=')?;
        return Ok(Specifier::Ending(feed.label()?));
    }
    write_specifier(alloc, feed)
}

/// Takes a specifier with a keyword of CLOSE or REWIND.
fn close_specifier(alloc: Global, feed: &mut Feed<'_, '_>) -> Result<Specifier, Stop>
    ensures { Gives specifier_of result feed.new (read form.close_specifier feed.old) }
{
    if feed.is_ahead(Look::Text("UNIT", "=")) {
        feed.word("UNIT")?;
        feed.mark(b'=')?;
        return Ok(Specifier::Unit(UnitRef77::Given(OneExpression.read(alloc, feed)?)));
    }
    common_specifier(alloc, feed)
}

/// Takes a specifier with a keyword of OPEN.
fn open_specifier(alloc: Global, feed: &mut Feed<'_, '_>) -> Result<Specifier, Stop>
    ensures { Gives specifier_of result feed.new (read form.open_specifier feed.old) }
{
    if feed.is_ahead(Look::Text("FILE", "=")) {
        feed.word("FILE")?;
        feed.mark(b'=')?;
        return Ok(Specifier::File(OneExpression.read(alloc, feed)?));
    }
    if feed.is_ahead(Look::Text("STATUS", "=")) {
        feed.word("STATUS")?;
        feed.mark(b'=')?;
        return Ok(Specifier::Status(OneExpression.read(alloc, feed)?));
    }
    close_specifier(alloc, feed)
}

/// Takes a specifier with a keyword of one of the statements.
fn keyword_specifier(
    alloc: Global,
    feed: &mut Feed<'_, '_>,
    keywords: Keywords,
) -> Result<Specifier, Stop>
    ensures { Gives specifier_of result feed.new (read (keyword_of keywords) feed.old) }
{
    match keywords {
        Keywords::Read => read_specifier(alloc, feed),
        Keywords::Write => write_specifier(alloc, feed),
        Keywords::Open => open_specifier(alloc, feed),
        Keywords::Close => close_specifier(alloc, feed),
    }
}

/// A further specifier, behind its comma.
#[derive(Clone, Copy)]
struct Further(Keywords);

impl Rule for Further {
    type Made = Specifier;

    ghost Plain = { form.Specifier };

    ghost plain = { specifier_of };

    ghost reader = { λ rule. read (behind 44 (keyword_of rule.0)) };

    fn read(&self, alloc: Global, feed: &mut Feed<'_, '_>) -> Result<Specifier, Stop> {
        feed.mark(b',')?;
        keyword_specifier(alloc, feed, self.0)
    }
}

/// Takes the first specifier of a READ or WRITE.
fn transfer_first(
    alloc: Global,
    feed: &mut Feed<'_, '_>,
    keywords: Keywords,
) -> Result<Specifier, Stop>
    ensures { Gives specifier_of result feed.new (read (part.transfer_first (keyword_of keywords)) feed.old) }
{
    if feed.is_ahead(Look::Two(b'A', "=")) {
        return keyword_specifier(alloc, feed, keywords);
    }
    Ok(Specifier::FirstUnit(unit(alloc, feed)?))
}

/// Takes the second specifier of a READ or WRITE.
fn transfer_second(
    alloc: Global,
    feed: &mut Feed<'_, '_>,
    keywords: Keywords,
) -> Result<Specifier, Stop>
    ensures { Gives specifier_of result feed.new (read (part.transfer_second (keyword_of keywords)) feed.old) }
{
    if feed.is_ahead(Look::Two(b'A', "=")) {
        return keyword_specifier(alloc, feed, keywords);
    }
    Ok(Specifier::SecondFormat(format(alloc, feed)?))
}

/// Takes what stands behind the first specifier of a READ or WRITE.
fn transfer_others(
    alloc: Global,
    feed: &mut Feed<'_, '_>,
    keywords: Keywords,
) -> Result<Option<Others>, Stop>
    ensures { Gives (option_map others_of) result feed.new (read (part.transfer_others (keyword_of keywords)) feed.old) }
{
    if !feed.take(b',') {
        return Ok(None);
    }
    let second = transfer_second(alloc, feed, keywords)?;
    match many(alloc, feed, ",", &Further(keywords)) {
        Ok(more) => Ok(Some(Others { second, more })),
        Err(stop) => {
            discard(second);
            Err(stop)
        }
    }
}

/// The specifiers of a READ or WRITE: the unit first, the format second, those behind with keywords.
#[derive(Clone, Copy)]
pub struct TransferSpecifiers(pub Keywords);

impl Rule for TransferSpecifiers {
    type Made = Specifiers;

    ghost Plain = { form.Specifier × Option (form.Specifier × List form.Specifier) };

    ghost plain = { specifiers_of };

    ghost reader = { λ rule. read (form.transfer_specifiers (keyword_of rule.0)) };

    fn read(&self, alloc: Global, feed: &mut Feed<'_, '_>) -> Result<Specifiers, Stop> {
        let first = transfer_first(alloc, feed, self.0)?;
        match transfer_others(alloc, feed, self.0) {
            Ok(others) => Ok(Specifiers { first, others }),
            Err(stop) => {
                discard(first);
                Err(stop)
            }
        }
    }
}

/// Takes the first specifier of an OPEN, CLOSE or REWIND.
fn file_first(alloc: Global, feed: &mut Feed<'_, '_>, keywords: Keywords) -> Result<Specifier, Stop>
    ensures { Gives specifier_of result feed.new (read (part.file_first (keyword_of keywords)) feed.old) }
{
    if feed.is_ahead(Look::Two(b'A', "=")) {
        return keyword_specifier(alloc, feed, keywords);
    }
    Ok(Specifier::FirstUnit(UnitRef77::Given(OneExpression.read(alloc, feed)?)))
}

/// Takes what stands behind the first specifier of an OPEN, CLOSE or REWIND.
fn file_others(
    alloc: Global,
    feed: &mut Feed<'_, '_>,
    keywords: Keywords,
) -> Result<Option<Others>, Stop>
    ensures { Gives (option_map others_of) result feed.new (read (part.file_others (keyword_of keywords)) feed.old) }
{
    if !feed.take(b',') {
        return Ok(None);
    }
    let second = keyword_specifier(alloc, feed, keywords)?;
    match many(alloc, feed, ",", &Further(keywords)) {
        Ok(more) => Ok(Some(Others { second, more })),
        Err(stop) => {
            discard(second);
            Err(stop)
        }
    }
}

/// The specifiers of an OPEN, CLOSE or REWIND: the unit first, those behind with keywords.
#[derive(Clone, Copy)]
pub struct FileSpecifiers(pub Keywords);

impl Rule for FileSpecifiers {
    type Made = Specifiers;

    ghost Plain = { form.Specifier × Option (form.Specifier × List form.Specifier) };

    ghost plain = { specifiers_of };

    ghost reader = { λ rule. read (form.file_specifiers (keyword_of rule.0)) };

    fn read(&self, alloc: Global, feed: &mut Feed<'_, '_>) -> Result<Specifiers, Stop> {
        let first = file_first(alloc, feed, self.0)?;
        match file_others(alloc, feed, self.0) {
            Ok(others) => Ok(Specifiers { first, others }),
            Err(stop) => {
                discard(first);
                Err(stop)
            }
        }
    }
}
