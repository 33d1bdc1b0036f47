// The main program that a file is.
ghost use Rattle.std.specs.Prelude.{◌≡◌, ◌∷◌, [], map, IfSome};
ghost use Rattle.std.specs.List.{list_all};
ghost use Rattle.std.specs.Option.{option_map};
ghost use Rattle.text_base.specs.Trees as plain;
ghost use Rattle.expr_tree.specs.Plain.{expr_of};
ghost use Rattle.tree77.specs.StatementPlain.{header_of, simple_of};
ghost use Rattle.tree77.specs.Statements as s;
ghost use Rattle.unit77.specs.UnitViews.{declared_line, function_line, header_lines, unit_of};
ghost use Rattle.unit77.specs.Views.{item_of};
ghost use Rattle.program77.specs.Built.{built_of, built_simple};
ghost use Rattle.program77.specs.Plain.{are_converted, is_converted, is_converted_header, is_none, is_program, is_step, one_converted, source_of};
ghost use Rattle.order77.specs.Naming.{header_name, name_or_main};

use text_base::Name;
use tree77::{Expr, Header77, Stmt77};
use unit77::{Body77, DeclaredLine77, HeaderLine77, Item77, StmtFunction, Unit77, Units77};

fn is_program(header: &Header77) -> bool
    ensures { result ≡ is_program (built_of (s.header (header_of header.now))) }
{
    matches!(header, Header77::Program(_))
}

fn is_converted_header(header: &Option<HeaderLine77>) -> bool
    ensures { result ≡ is_converted_header (header_lines header.now) }
{
    match header {
        Some(line) => line.label == 0 && is_program(&line.header),
        None => false,
    }
}

// Whether an assignment to this is converted: it is a name.
#[tactic(auto, using(expr_tree::proofs::Equations::expr_equations))]
fn is_target(variable: &Expr) -> bool
    ensures { (value : plain.Expr) → result ≡ is_step (built_simple (s.assign (expr_of variable.now) value)) }
{
    match variable {
        Expr::Name(_) => true,
        Expr::Int(_) => false,
        Expr::Bool(_) => false,
        Expr::Text(_) => false,
        Expr::Call(_, _) => false,
        Expr::Substring(_, _, _) => false,
        Expr::Unary(_, _) => false,
        Expr::Binary(_, _, _) => false,
        Expr::Paren(_) => false,
    }
}

// An assignment to a name, CONTINUE, or STOP without a code.
fn is_step(statement: &Stmt77) -> bool
    ensures { result ≡ is_step (built_simple (simple_of statement.now)) }
{
    match statement {
        Stmt77::Assign(variable, _) => is_target(variable),
        Stmt77::Continue => true,
        Stmt77::Stop(code) => code.is_none(),
        _ => false,
    }
}

fn is_converted_item(item: &Item77) -> bool
    ensures { result ≡ are_converted (item_of item.now) }
{
    match &item.body {
        Body77::Simple(statement) => item.label == 0 && is_step(statement),
        Body77::Guarded(_, _) => false,
        Body77::If(_, _) => false,
        Body77::Do(_, _) => false,
    }
}

fn are_converted(items: &[Item77]) -> bool
    ensures { result ≡ list_all (λ i. are_converted (item_of i)) items.now }
{
    items.iter().all(|item| is_converted_item(item))
}

fn has_no_declarations(declared: &[DeclaredLine77]) -> bool
    ensures { result ≡ is_none (map declared_line declared.now) }
{
    matches!(declared, [])
}

fn has_no_functions(functions: &[StmtFunction]) -> bool
    ensures { result ≡ is_none (map function_line functions.now) }
{
    matches!(functions, [])
}

/// Whether a unit is converted: it is a main program with PROGRAM, and has no declarations, no statement functions, no labels, and
/// no other statements than assignments to variables, CONTINUE and STOP.
#[tactic(auto, using(crate::proofs::Items::all_converted))]
fn is_converted(unit: &Unit77) -> bool
    ensures { result ≡ is_converted (unit_of unit.now) }
{
    is_converted_header(&unit.header)
        && (has_no_declarations(unit.declared.as_slice())
            && (has_no_functions(unit.functions.as_slice())
                && (are_converted(unit.items.as_slice()) && unit.end.label == 0)))
}

/// The main program that the units of a file are (X3.9 section 14).
///
/// In: the units of the file.
///
/// Out: the unit, if it is the only one and is converted; else `None`.
pub fn main_program(mut units: Units77) -> Option<Unit77>
    ensures whole { IfSome result (λ u. units ≡ u ∷ []) }
    ensures converted { option_map source_of result ≡ one_converted (map unit_of units) }
{
    let unit = units.pop()?;
    if units.is_empty() && is_converted(&unit) {
        Some(unit)
    } else {
        None
    }
}

fn header_name(header: &Header77) -> Name
    ensures { result ≡ name_or_main (header_name (header_of header.now)) }
{
    match header {
        Header77::Program(name) => name.copy(),
        Header77::Subroutine(name, _) => name.copy(),
        Header77::Function(_, name, _) => name.copy(),
        Header77::BlockData(Some(name)) => name.copy(),
        Header77::BlockData(None) => Name::new(b"MAIN"),
    }
}

/// The name of a unit: that in its header, `MAIN` where it has none.
pub fn unit_name(unit: &Unit77) -> Name
    ensures { result ≡ (source_of unit.now).name }
{
    match &unit.header {
        Some(line) => header_name(&line.header),
        None => Name::new(b"MAIN"),
    }
}
