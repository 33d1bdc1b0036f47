// Reads control lists (X3.9 sections 12.8.1 and 12.10).
ghost use Rattle.std.specs.Prelude.{◌≡◌};
ghost use Rattle.std.specs.Option.{option_map, option_and_then};
ghost use Rattle.expr77.specs.Views.{plain_parts};
ghost use Rattle.expr_tree.specs.Plain.{expr_of};
ghost use Rattle.forms77.specs.Reading.{read};
ghost use Rattle.forms77.specs.Views.{Gives};
ghost use Rattle.tree77.specs.StatementPlain.{unit_ref_of, format_ref_of, control_of, file_control_of};
ghost use Rattle.tree77.specs.TransferForms as form;
ghost use Rattle.transfer77.specs.Views.{settings_of, specifiers_of, keyword_of};

use crate::settings::{Settings, collect};
use crate::specifiers::{FileSpecifiers, Keywords, Specifiers, TransferSpecifiers};
use expr_tree::Expr;
use expr77::{Part, unsupported};
use forms77::{Feed, Stop, discard, inside};
use std::alloc::Global;
use tree77::{Control77, FileControl77, FormatRef77, UnitRef77};

#[tactic(auto, using(expr_tree::proofs::Equations::expr_equations))]
fn is_substring(expr: &Expr) -> bool
    ensures { result ≡ form.is_substring (expr_of expr.now) }
{
    match expr {
        Expr::Substring(_, _, _) => true,
        Expr::Name(_) => false,
        Expr::Text(_) => false,
        Expr::Int(_) => false,
        Expr::Bool(_) => false,
        Expr::Call(_, _) => false,
        Expr::Unary(_, _) => false,
        Expr::Binary(_, _, _) => false,
        Expr::Paren(_) => false,
    }
}

/// Whether a unit is an internal file by its form: a substring.
fn is_internal(unit: &UnitRef77) -> bool
    ensures { result ≡ form.is_internal (unit_ref_of unit.now) }
{
    match unit {
        UnitRef77::Given(expr) => is_substring(expr),
        UnitRef77::Star => false,
    }
}

fn is_star(format: &FormatRef77) -> bool
    ensures { result ≡ form.is_star (format_ref_of format.now) }
{
    match format {
        FormatRef77::Star => true,
        FormatRef77::Label(_) => false,
        FormatRef77::Text(_, _) => false,
    }
}

/// The part that a list-directed transfer with an internal file is, which is refused.
fn listed_internal(unit: &UnitRef77, format: &FormatRef77) -> Option<Part<'static>>
    ensures { plain_parts result ≡ form.if_internal (unit_ref_of unit.now) (format_ref_of format.now) }
{
    if is_internal(unit) && is_star(format) {
        return unsupported("CONTROL");
    }
    None
}

/// The control list of a READ or WRITE with what is set, and the part that it is which is refused as a whole: one without a
/// format, or a list-directed one with an internal file. `None` where no unit is set.
fn transfer_control(settings: Settings) -> Option<(Control77, Option<Part<'static>>)>
    ensures { option_map (λ p. (control_of p.0, plain_parts p.1)) result ≡ form.control_of (settings_of settings) }
{
    let Settings {
        unit,
        format,
        file,
        status,
        iostat,
        error,
        ending,
    } = settings;
    discard(file);
    discard(status);
    let Some(unit) = unit else {
        discard(format);
        return None;
    };
    let (format, whole) = match format {
        Some(format) => {
            let whole = listed_internal(&unit, &format);
            (format, whole)
        }
        None => (FormatRef77::Label(0), unsupported("UNFORMATTED")),
    };
    let control = Control77 {
        unit,
        format,
        iostat,
        error,
        ending,
    };
    Some((control, whole))
}

/// The same of specifiers. `None` also where one may not stand.
fn collected_control(specifiers: Specifiers) -> Option<(Control77, Option<Part<'static>>)>
    ensures { option_map (λ p. (control_of p.0, plain_parts p.1)) result ≡ option_and_then form.control_of (form.collected (specifiers_of specifiers)) }
{
    match collect(specifiers) {
        Some(settings) => transfer_control(settings),
        None => None,
    }
}

/// Takes the control list of a READ or WRITE, in parentheses (X3.9 section 12.8.1).
///
/// In: what is left of the statement behind its keyword, and of which statement the specifiers are.
///
/// Out: the tree; `feed` then stands behind it and has the lowest refused part so far. `NotSpelled` where what is left doesn't
/// begin with this form; `Memory` where memory is wanted.
pub fn control(
    alloc: Global,
    feed: &mut Feed<'_, '_>,
    keywords: Keywords,
) -> Result<Control77, Stop>
    ensures { Gives control_of result feed.new (read (form.control (keyword_of keywords)) feed.old) }
{
    let held = feed.hold();
    let specifiers = inside(alloc, feed, &TransferSpecifiers(keywords))?;
    let Some((control, whole)) = collected_control(specifiers) else {
        return Err(Stop::NotSpelled);
    };
    feed.release(held, whole);
    Ok(control)
}

/// The unit that an expression gives.
fn given_unit(unit: Option<UnitRef77>) -> Option<Expr>
    ensures { option_map expr_of result ≡ option_and_then form.given_of (option_map unit_ref_of unit) }
{
    match unit {
        Some(UnitRef77::Given(expr)) => Some(expr),
        Some(UnitRef77::Star) => None,
        None => None,
    }
}

/// The control list of an OPEN, CLOSE or REWIND with what is set. `None` where no unit is set, or `*`.
fn set_file_control(settings: Settings) -> Option<FileControl77>
    ensures { option_map file_control_of result ≡ form.file_control_of (settings_of settings) }
{
    let Settings {
        unit,
        format,
        file,
        status,
        iostat,
        error,
        ..
    } = settings;
    discard(format);
    let Some(unit) = given_unit(unit) else {
        discard(file);
        discard(status);
        return None;
    };
    Some(FileControl77 {
        unit,
        file,
        status,
        iostat,
        error,
    })
}

/// The same of specifiers. `None` also where one may not stand.
fn collected_file_control(specifiers: Specifiers) -> Option<FileControl77>
    ensures { option_map file_control_of result ≡ option_and_then form.file_control_of (form.collected (specifiers_of specifiers)) }
{
    match collect(specifiers) {
        Some(settings) => set_file_control(settings),
        None => None,
    }
}

/// Takes the control list of an OPEN, CLOSE or REWIND, in parentheses (X3.9 section 12.10).
///
/// In: what is left of the statement behind its keyword, and of which statement the specifiers are.
///
/// Out: the tree; `feed` then stands behind it and has the lowest refused part so far. `NotSpelled` where what is left doesn't
/// begin with this form; `Memory` where memory is wanted.
pub fn file_control(
    alloc: Global,
    feed: &mut Feed<'_, '_>,
    keywords: Keywords,
) -> Result<FileControl77, Stop>
    ensures { Gives file_control_of result feed.new (read (form.file_control (keyword_of keywords)) feed.old) }
{
    let specifiers = inside(alloc, feed, &FileSpecifiers(keywords))?;
    match collected_file_control(specifiers) {
        Some(control) => Ok(control),
        None => Err(Stop::NotSpelled),
    }
}
