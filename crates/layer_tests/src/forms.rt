// Statements by themselves: what each is read as.
use crate::expressions::{write_refusal, write_tree};
use crate::table::rows_of;
use crate::tables::forms::FORMS;
use card_reader::read_cards;
use order77::ReadStatement;
use parse77::read_statements;
use std::alloc::{AllocError, Global};
use std::test::Fail;
use text_base::{Bytes, FormatEdit, FormatItem, Name, StopCode};
use tree77::{
    Block77, Control77, DataGroup77, DataValue77, Declarator77, Declared77, Dimension77,
    Equation77, Expr, Exprs, FileControl77, FormatRef77, Header77, Implicit77, Length77, Letters77,
    Listed77, Range77, ReadBy77, Saved77, Statement77, Stmt77, Times77, Type77, UnitRef77,
};

type Written = Result<(), AllocError>;

fn write_label(alloc: Global, label: u32, out: &mut Bytes) -> Written {
    out.extend(format!(in alloc; "{label}")?.as_bytes())
}

// Writes names with commas between them.
fn write_names(names: &[Name], out: &mut Bytes) -> Written {
    for (index, name) in names.iter().enumerate() {
        if index > 0 {
            out.push(b',')?;
        }
        out.extend(name.as_slice())?;
    }
    Ok(())
}

// Writes names with a blank before each.
fn write_words(names: &[Name], out: &mut Bytes) -> Written {
    for name in names {
        out.push(b' ')?;
        out.extend(name.as_slice())?;
    }
    Ok(())
}

// Writes expressions with commas between them.
fn write_trees(alloc: Global, trees: &[Expr], out: &mut Bytes) -> Written {
    for (index, tree) in trees.iter().enumerate() {
        if index > 0 {
            out.push(b',')?;
        }
        write_tree(alloc, tree, out)?;
    }
    Ok(())
}

fn write_labels(alloc: Global, labels: &[u32], out: &mut Bytes) -> Written {
    for (index, label) in labels.iter().enumerate() {
        if index > 0 {
            out.push(b',')?;
        }
        write_label(alloc, *label, out)?;
    }
    Ok(())
}

// Types and declared names.

fn write_length(alloc: Global, length: &Option<Length77>, out: &mut Bytes) -> Written {
    match length {
        Some(Length77::Assumed) => out.extend(b"**"),
        Some(Length77::Given(value)) => {
            out.push(b'*')?;
            write_tree(alloc, value, out)
        }
        None => Ok(()),
    }
}

fn write_type(alloc: Global, of: &Type77, out: &mut Bytes) -> Written {
    match of {
        Type77::Integer => out.extend(b"integer"),
        Type77::Logical => out.extend(b"logical"),
        Type77::Character(length) => {
            out.extend(b"character")?;
            write_length(alloc, length, out)
        }
    }
}

fn write_dimension(alloc: Global, dimension: &Dimension77, out: &mut Bytes) -> Written {
    if let Some(lower) = &dimension.lower {
        write_tree(alloc, lower, out)?;
        out.push(b':')?;
    }
    match &dimension.upper {
        Some(upper) => write_tree(alloc, upper, out),
        None => out.push(b'*'),
    }
}

fn write_dimensions(alloc: Global, dimensions: &[Dimension77], out: &mut Bytes) -> Written {
    if dimensions.is_empty() {
        return Ok(());
    }
    out.push(b'[')?;
    for (index, dimension) in dimensions.iter().enumerate() {
        if index > 0 {
            out.push(b',')?;
        }
        write_dimension(alloc, dimension, out)?;
    }
    out.push(b']')
}

// Writes declared names with a blank before each.
fn write_declarators(alloc: Global, declared: &[Declarator77], out: &mut Bytes) -> Written {
    for one in declared {
        out.push(b' ')?;
        out.extend(one.name.as_slice())?;
        write_dimensions(alloc, one.dimensions.as_slice(), out)?;
        write_length(alloc, &one.length, out)?;
    }
    Ok(())
}

// Headers.

/// Writes a name, and its dummies in brackets.
pub fn write_called(name: &Name, dummies: &[Name], out: &mut Bytes) -> Written {
    out.extend(name.as_slice())?;
    out.push(b'[')?;
    write_names(dummies, out)?;
    out.push(b']')
}

fn write_typed(alloc: Global, of: &Option<Type77>, out: &mut Bytes) -> Written {
    match of {
        Some(of) => {
            write_type(alloc, of, out)?;
            out.push(b' ')
        }
        None => Ok(()),
    }
}

/// Writes a header.
pub fn write_header(alloc: Global, header: &Header77, out: &mut Bytes) -> Written {
    match header {
        Header77::Program(name) => {
            out.extend(b"program ")?;
            out.extend(name.as_slice())
        }
        Header77::Subroutine(name, dummies) => {
            out.extend(b"subroutine ")?;
            write_called(name, dummies.as_slice(), out)
        }
        Header77::Function(of, name, dummies) => {
            write_typed(alloc, of, out)?;
            out.extend(b"function ")?;
            write_called(name, dummies.as_slice(), out)
        }
        Header77::BlockData(None) => out.extend(b"block data"),
        Header77::BlockData(Some(name)) => {
            out.extend(b"block data ")?;
            out.extend(name.as_slice())
        }
    }
}

// Declarations.

// Writes letters and ranges of them with commas between them.
fn write_letters(letters: &[Letters77], out: &mut Bytes) -> Written {
    for (index, range) in letters.iter().enumerate() {
        if index > 0 {
            out.push(b',')?;
        }
        out.push(range.from)?;
        if range.to != range.from {
            out.push(b'-')?;
            out.push(range.to)?;
        }
    }
    Ok(())
}

fn write_implicits(alloc: Global, implicits: &[Implicit77], out: &mut Bytes) -> Written {
    for implicit in implicits {
        out.push(b' ')?;
        write_type(alloc, &implicit.of, out)?;
        out.push(b'[')?;
        write_letters(implicit.letters.as_slice(), out)?;
        out.push(b']')?;
    }
    Ok(())
}

fn write_blocks(alloc: Global, blocks: &[Block77], out: &mut Bytes) -> Written {
    for block in blocks {
        out.extend(b" /")?;
        if let Some(name) = &block.name {
            out.extend(name.as_slice())?;
        }
        out.push(b'/')?;
        write_declarators(alloc, block.members.as_slice(), out)?;
    }
    Ok(())
}

fn write_saved(saved: &[Saved77], out: &mut Bytes) -> Written {
    for one in saved {
        match one {
            Saved77::Name(name) => {
                out.push(b' ')?;
                out.extend(name.as_slice())?;
            }
            Saved77::Block(name) => {
                out.extend(b" /")?;
                out.extend(name.as_slice())?;
                out.push(b'/')?;
            }
        }
    }
    Ok(())
}

fn write_values(alloc: Global, values: &[DataValue77], out: &mut Bytes) -> Written {
    for (index, value) in values.iter().enumerate() {
        if index > 0 {
            out.push(b',')?;
        }
        match &value.times {
            Times77::Once => {}
            Times77::Number(count) => out.extend(format!(in alloc; "{count}*")?.as_bytes())?,
            Times77::Name(name) => {
                out.extend(name.as_slice())?;
                out.push(b'*')?;
            }
        }
        write_tree(alloc, &value.constant, out)?;
    }
    Ok(())
}

fn write_groups(alloc: Global, groups: &[DataGroup77], out: &mut Bytes) -> Written {
    for group in groups {
        out.push(b' ')?;
        write_list(alloc, group.objects.as_slice(), out)?;
        out.push(b'/')?;
        write_values(alloc, group.values.as_slice(), out)?;
        out.push(b'/')?;
    }
    Ok(())
}

fn write_equations(alloc: Global, equations: &[Equation77], out: &mut Bytes) -> Written {
    for equation in equations {
        out.push(b' ')?;
        out.extend(equation.name.as_slice())?;
        out.push(b'=')?;
        write_tree(alloc, &equation.value, out)?;
    }
    Ok(())
}

fn write_equivalences(alloc: Global, lists: &[Exprs], out: &mut Bytes) -> Written {
    for list in lists {
        out.extend(b" (")?;
        write_trees(alloc, list.as_slice(), out)?;
        out.push(b')')?;
    }
    Ok(())
}

// The word that a declaration begins with; a type stands in place of one.
fn declared_word(declared: &Declared77) -> &'static str {
    match declared {
        Declared77::Implicit(_) => "implicit:",
        Declared77::Parameter(_) => "parameter:",
        Declared77::Typed(_, _) => "",
        Declared77::Dimension(_) => "dimension:",
        Declared77::Common(_) => "common:",
        Declared77::Equivalence(_) => "equivalence:",
        Declared77::External(_) => "external:",
        Declared77::Intrinsic(_) => "intrinsic:",
        Declared77::Save(_) => "save:",
        Declared77::Data(_) => "data:",
        Declared77::Format(_) => "format: ",
    }
}

/// Writes a declaration.
pub fn write_declared(alloc: Global, declared: &Declared77, out: &mut Bytes) -> Written {
    out.extend(declared_word(declared).as_bytes())?;
    match declared {
        Declared77::Implicit(implicits) => write_implicits(alloc, implicits.as_slice(), out),
        Declared77::Parameter(equations) => write_equations(alloc, equations.as_slice(), out),
        Declared77::Typed(of, names) => {
            write_type(alloc, of, out)?;
            out.push(b':')?;
            write_declarators(alloc, names.as_slice(), out)
        }
        Declared77::Dimension(names) => write_declarators(alloc, names.as_slice(), out),
        Declared77::Common(blocks) => write_blocks(alloc, blocks.as_slice(), out),
        Declared77::Equivalence(lists) => write_equivalences(alloc, lists.as_slice(), out),
        Declared77::External(names) => write_words(names.as_slice(), out),
        Declared77::Intrinsic(names) => write_words(names.as_slice(), out),
        Declared77::Save(saved) => write_saved(saved.as_slice(), out),
        Declared77::Data(groups) => write_groups(alloc, groups.as_slice(), out),
        Declared77::Format(items) => write_format(alloc, items.as_slice(), out),
    }
}

// Formats.

fn write_edit(alloc: Global, edit: &FormatEdit, out: &mut Bytes) -> Written {
    match edit {
        FormatEdit::Integers(count, width, None) => {
            out.extend(format!(in alloc; "{count}i{width}")?.as_bytes())
        }
        FormatEdit::Integers(count, width, Some(least)) => {
            out.extend(format!(in alloc; "{count}i{width}.{least}")?.as_bytes())
        }
        FormatEdit::Logicals(count, width) => {
            out.extend(format!(in alloc; "{count}l{width}")?.as_bytes())
        }
        FormatEdit::Texts(count, None) => out.extend(format!(in alloc; "{count}a")?.as_bytes()),
        FormatEdit::Texts(count, Some(width)) => {
            out.extend(format!(in alloc; "{count}a{width}")?.as_bytes())
        }
        FormatEdit::Blanks(count) => out.extend(format!(in alloc; "{count}x")?.as_bytes()),
        FormatEdit::Text(text) => {
            out.push(b'"')?;
            out.extend(text.as_slice())?;
            out.push(b'"')
        }
    }
}

#[cycle(format)]
fn write_format_item(alloc: Global, item: &FormatItem, out: &mut Bytes) -> Written {
    match item {
        FormatItem::Edit(edit) => write_edit(alloc, edit, out),
        FormatItem::RecordEnd => out.push(b'/'),
        FormatItem::Group(count, items) => {
            out.extend(format!(in alloc; "{count}")?.as_bytes())?;
            write_format(alloc, items.as_slice(), out)
        }
    }
}

// Writes the items of a format in their parentheses, with commas between them.
#[cycle(format)]
fn write_format(alloc: Global, items: &[FormatItem], out: &mut Bytes) -> Written {
    out.push(b'(')?;
    for (index, item) in items.iter().enumerate() {
        if index > 0 {
            out.push(b',')?;
        }
        write_format_item(alloc, item, out)?;
    }
    out.push(b')')
}

// Lists and transfers.

/// Writes a variable of a DO or an implied DO list, its first value, its last one, and the increment, if it is written.
pub fn write_progression(
    alloc: Global,
    variable: &Name,
    from: &Expr,
    to: &Expr,
    by: &Option<Expr>,
    out: &mut Bytes,
) -> Written {
    out.extend(variable.as_slice())?;
    out.push(b'=')?;
    write_tree(alloc, from, out)?;
    out.push(b',')?;
    write_tree(alloc, to, out)?;
    match by {
        Some(by) => {
            out.push(b',')?;
            write_tree(alloc, by, out)
        }
        None => Ok(()),
    }
}

fn write_range(alloc: Global, range: &Range77, out: &mut Bytes) -> Written {
    write_progression(
        alloc,
        &range.variable,
        &range.from,
        &range.to,
        &range.by,
        out,
    )
}

#[cycle(list)]
fn write_listed(alloc: Global, listed: &Listed77, out: &mut Bytes) -> Written {
    match listed {
        Listed77::Item(tree) => write_tree(alloc, tree, out),
        Listed77::Loop(items, range) => {
            out.push(b'(')?;
            write_list(alloc, items.as_slice(), out)?;
            out.push(b';')?;
            write_range(alloc, range.get(), out)?;
            out.push(b')')
        }
    }
}

#[cycle(list)]
fn write_list(alloc: Global, items: &[Listed77], out: &mut Bytes) -> Written {
    for (index, item) in items.iter().enumerate() {
        if index > 0 {
            out.push(b',')?;
        }
        write_listed(alloc, item, out)?;
    }
    Ok(())
}

// Writes a list, if it has items, behind a mark and a blank.
fn write_items(alloc: Global, mark: &[u8], items: &[Listed77], out: &mut Bytes) -> Written {
    if items.is_empty() {
        return Ok(());
    }
    out.extend(mark)?;
    out.push(b' ')?;
    write_list(alloc, items, out)
}

fn write_format_ref(alloc: Global, format: &FormatRef77, out: &mut Bytes) -> Written {
    match format {
        FormatRef77::Star => out.push(b'*'),
        FormatRef77::Label(label) => write_label(alloc, *label, out),
        FormatRef77::Text(text, items) => {
            out.push(b'"')?;
            out.extend(text.as_slice())?;
            out.push(b'"')?;
            write_format(alloc, items.as_slice(), out)
        }
    }
}

fn write_unit(alloc: Global, unit: &UnitRef77, out: &mut Bytes) -> Written {
    out.extend(b"(unit ")?;
    match unit {
        UnitRef77::Star => out.push(b'*'),
        UnitRef77::Given(tree) => write_tree(alloc, tree, out),
    }
}

fn write_iostat(iostat: &Option<Name>, out: &mut Bytes) -> Written {
    match iostat {
        Some(name) => {
            out.extend(b",iostat ")?;
            out.extend(name.as_slice())
        }
        None => Ok(()),
    }
}

fn write_jump(alloc: Global, word: &[u8], label: Option<u32>, out: &mut Bytes) -> Written {
    match label {
        Some(label) => {
            out.extend(word)?;
            write_label(alloc, label, out)
        }
        None => Ok(()),
    }
}

fn write_control(alloc: Global, control: &Control77, out: &mut Bytes) -> Written {
    write_unit(alloc, &control.unit, out)?;
    out.extend(b",format ")?;
    write_format_ref(alloc, &control.format, out)?;
    write_iostat(&control.iostat, out)?;
    write_jump(alloc, b",err ", control.error, out)?;
    write_jump(alloc, b",end ", control.ending, out)?;
    out.push(b')')
}

fn write_specifier(alloc: Global, word: &[u8], tree: &Option<Expr>, out: &mut Bytes) -> Written {
    match tree {
        Some(tree) => {
            out.extend(word)?;
            write_tree(alloc, tree, out)
        }
        None => Ok(()),
    }
}

fn write_file_control(alloc: Global, control: &FileControl77, out: &mut Bytes) -> Written {
    out.extend(b"(unit ")?;
    write_tree(alloc, &control.unit, out)?;
    write_specifier(alloc, b",file ", &control.file, out)?;
    write_specifier(alloc, b",status ", &control.status, out)?;
    write_iostat(&control.iostat, out)?;
    write_jump(alloc, b",err ", control.error, out)?;
    out.push(b')')
}

fn write_read(alloc: Global, by: &ReadBy77, items: &[Listed77], out: &mut Bytes) -> Written {
    match by {
        ReadBy77::Control(control) => {
            out.extend(b"read")?;
            write_control(alloc, control, out)?;
            write_items(alloc, b"", items, out)
        }
        ReadBy77::Format(format) => {
            out.extend(b"read ")?;
            write_format_ref(alloc, format, out)?;
            write_items(alloc, b":", items, out)
        }
    }
}

// Statements.

fn write_stop(code: &Option<StopCode>, out: &mut Bytes) -> Written {
    out.extend(b"stop")?;
    match code {
        Some(StopCode::Digits(digits)) => {
            out.push(b' ')?;
            out.extend(digits.as_slice())
        }
        Some(StopCode::Text(text)) => {
            out.extend(b" \"")?;
            out.extend(text.as_slice())?;
            out.push(b'"')
        }
        None => Ok(()),
    }
}

/// Writes a simple statement.
pub fn write_simple(alloc: Global, statement: &Stmt77, out: &mut Bytes) -> Written {
    match statement {
        Stmt77::Assign(variable, value) => {
            write_tree(alloc, variable, out)?;
            out.extend(b" = ")?;
            write_tree(alloc, value, out)
        }
        Stmt77::Goto(label) => {
            out.extend(b"goto ")?;
            write_label(alloc, *label, out)
        }
        Stmt77::Computed(labels, value) => {
            out.extend(b"goto [")?;
            write_labels(alloc, labels.as_slice(), out)?;
            out.extend(b"] ")?;
            write_tree(alloc, value, out)
        }
        Stmt77::Arithmetic(value, negative, zero, positive) => {
            write_condition(alloc, value, out)?;
            write_labels(alloc, &[*negative, *zero, *positive], out)
        }
        Stmt77::Continue => out.extend(b"continue"),
        Stmt77::Return => out.extend(b"return"),
        Stmt77::Stop(code) => write_stop(code, out),
        Stmt77::Call(name, actuals) => {
            out.extend(b"call ")?;
            out.extend(name.as_slice())?;
            out.push(b'[')?;
            write_trees(alloc, actuals.as_slice(), out)?;
            out.push(b']')
        }
        _ => write_transfer(alloc, statement, out),
    }
}

// Writes a statement of input and output.
fn write_transfer(alloc: Global, statement: &Stmt77, out: &mut Bytes) -> Written {
    match statement {
        Stmt77::Read(by, items) => write_read(alloc, by.get(), items.as_slice(), out),
        Stmt77::Write(control, items) => {
            out.extend(b"write")?;
            write_control(alloc, control.get(), out)?;
            write_items(alloc, b"", items.as_slice(), out)
        }
        Stmt77::Print(format, items) => {
            out.extend(b"print ")?;
            write_format_ref(alloc, format, out)?;
            write_items(alloc, b":", items.as_slice(), out)
        }
        Stmt77::Open(control) => {
            out.extend(b"open")?;
            write_file_control(alloc, control.get(), out)
        }
        Stmt77::Close(control) => {
            out.extend(b"close")?;
            write_file_control(alloc, control.get(), out)
        }
        Stmt77::Rewind(control) => {
            out.extend(b"rewind")?;
            write_file_control(alloc, control.get(), out)
        }
        _ => Ok(()),
    }
}

/// Writes a condition, as it stands behind IF.
pub fn write_condition(alloc: Global, condition: &Expr, out: &mut Bytes) -> Written {
    out.extend(b"if(")?;
    write_tree(alloc, condition, out)?;
    out.extend(b") ")
}

/// Writes a statement in words: braces, brackets and quotation marks stand for what its expressions are, as in the tables of
/// expressions, and brackets around names, dimensions and labels.
pub fn write_statement(alloc: Global, statement: &Statement77, out: &mut Bytes) -> Written {
    match statement {
        Statement77::Header(header) => write_header(alloc, header, out),
        Statement77::Declared(declared) => write_declared(alloc, declared, out),
        Statement77::StmtFunction(name, dummies, value) => {
            write_called(name, dummies.as_slice(), out)?;
            out.extend(b" := ")?;
            write_tree(alloc, value, out)
        }
        Statement77::Simple(simple) => write_simple(alloc, simple, out),
        Statement77::Guarded(condition, simple) => {
            write_condition(alloc, condition, out)?;
            write_simple(alloc, simple.get(), out)
        }
        Statement77::IfThen(condition) => {
            write_condition(alloc, condition, out)?;
            out.extend(b"then")
        }
        Statement77::ElseIf(condition) => {
            out.extend(b"else ")?;
            write_condition(alloc, condition, out)?;
            out.extend(b"then")
        }
        Statement77::Else => out.extend(b"else"),
        Statement77::EndIf => out.extend(b"end if"),
        Statement77::Do(terminal, range) => {
            out.extend(b"do ")?;
            write_label(alloc, *terminal, out)?;
            out.push(b' ')?;
            write_range(alloc, range.get(), out)
        }
        Statement77::End => out.extend(b"end"),
    }
}

/// Writes what a statement is read as: its tree, or number and name of its refusal.
pub fn write_as_read(alloc: Global, read: &ReadStatement, out: &mut Bytes) -> Written {
    match (&read.refusal, &read.statement) {
        (Some(refusal), _) => write_refusal(alloc, refusal.get(), out),
        (None, Some(statement)) => write_statement(alloc, statement, out),
        (None, None) => out.extend(b"neither read nor refused"),
    }
}

/// Writes what statements are read as, with strokes between them.
pub fn write_all_as_read(alloc: Global, statements: &[ReadStatement], out: &mut Bytes) -> Written {
    for (index, read) in statements.iter().enumerate() {
        if index > 0 {
            out.push(b'|')?;
        }
        write_as_read(alloc, read, out)?;
    }
    Ok(())
}

// What is said of the statements of a file.
fn told(alloc: Global, file: &[u8]) -> Result<Bytes, Fail> {
    let mut said = Bytes::new(alloc);
    let deck = read_cards(alloc, 3, file)?;
    let statements = read_statements(alloc, &deck)?;
    write_all_as_read(alloc, statements.as_slice(), &mut said)?;
    Ok(said)
}

#[test]
fn statements_have_forms(rt: HostRuntime) -> Result<(), Fail> {
    let alloc = rt.alloc();
    for row in rows_of(alloc, FORMS, 750, 2)?.iter() {
        row.check(&rt, 1, told(alloc, row.field(0))?.as_slice());
    }
    Ok(())
}
