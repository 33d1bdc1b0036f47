// The sorts of statements that have a form, and their readers.
ghost use Rattle.std.specs.Prelude.{◌≡◌, ℕ, []};
ghost use Rattle.std.specs.Option.{option_map};
ghost use Rattle.tree77.specs.FormTable.{form_of};
ghost use Rattle.tree77.specs.Spelling.{sort_in, keyword_sorts};
ghost use Rattle.tree77.specs.StatementPlain.{statement_of, type_of};
ghost use Rattle.tree77.specs.Statements as plain;
ghost use Rattle.scan77.specs.Word.{word_text};
ghost use Rattle.forms77.specs.Reading.{read};
ghost use Rattle.forms77.specs.Views.{Gives};
ghost use Rattle.parse77.specs.Sort.{header_sort, size_sort, declared_sort, control_sort, transfer_sort, sort_of};

use crate::control;
use forms77::{Feed, Stop};
use scan77::Word;
use sqlite_items::Items;
use std::alloc::Global;
use tree77::{Declared77, Statement77, Stmt77, Type77};

/// The first statements of program units (X3.9 sections 14.1, 15.6.1, 15.5.1 and 16.1).
#[derive(Clone, Copy)]
pub enum HeaderSort {
    Program,
    Subroutine,
    Function,
    BlockData,
}

/// The lengths of types, as they stand before FUNCTION (X3.9 section 15.5.1).
#[derive(Clone, Copy)]
pub enum SizeSort {
    Integer,
    Logical,
    Character,
}

/// Declarations (X3.9 sections 8 and 9).
#[derive(Clone, Copy)]
pub enum DeclaredSort {
    Implicit,
    Parameter,
    Integer,
    Logical,
    Character,
    Dimension,
    Common,
    Equivalence,
    External,
    Intrinsic,
    Save,
    Data,
}

/// Assignments and control statements (X3.9 sections 10, 11 and 15), and the condition of a logical IF.
#[derive(Clone, Copy)]
pub enum ControlSort {
    Assignment,
    GoTo,
    Arithmetic,
    Condition,
    Then,
    ElseIf,
    Else,
    EndIf,
    Do,
    Continue,
    Return,
    Stop,
    End,
    Call,
}

/// Input and output statements (X3.9 section 12).
#[derive(Clone, Copy)]
pub enum TransferSort {
    Read,
    Write,
    Print,
    Open,
    Close,
    Rewind,
}

/// A sort of statements that has a form, or of parts of statements that are told before the whole is read.
#[derive(Clone, Copy)]
pub enum Sort {
    Header(HeaderSort),
    Size(SizeSort),
    Declared(DeclaredSort),
    Control(ControlSort),
    Transfer(TransferSort),
}

/// Reads a header.
fn read_header(
    alloc: Global,
    sort: HeaderSort,
    feed: &mut Feed<'_, '_>,
) -> Result<Statement77, Stop>
    ensures { (room : ℕ) → Gives statement_of result feed.new (read (form_of room (header_sort sort)) feed.old) }
{
    match sort {
        HeaderSort::Program => Ok(Statement77::Header(specify77::program(feed)?)),
        HeaderSort::Subroutine => Ok(Statement77::Header(specify77::subroutine(alloc, feed)?)),
        HeaderSort::Function => Ok(Statement77::Header(specify77::function(alloc, feed)?)),
        HeaderSort::BlockData => Ok(Statement77::Header(specify77::block_data(feed)?)),
    }
}

/// A type alone, as a declaration without names.
fn type_alone(alloc: Global, of: Type77) -> Statement77
    ensures { statement_of result ≡ plain.declared (plain.typed (type_of of) []) }
{
    Statement77::Declared(Declared77::Typed(of, Items::new(alloc)))
}

/// Reads the length of a type.
fn read_size(alloc: Global, sort: SizeSort, feed: &mut Feed<'_, '_>) -> Result<Statement77, Stop>
    ensures { (room : ℕ) → Gives statement_of result feed.new (read (form_of room (size_sort sort)) feed.old) }
{
    match sort {
        SizeSort::Integer => Ok(type_alone(alloc, specify77::integer_size(alloc, feed)?)),
        SizeSort::Logical => Ok(type_alone(alloc, specify77::logical_size(alloc, feed)?)),
        SizeSort::Character => Ok(type_alone(alloc, specify77::character_size(alloc, feed)?)),
    }
}

/// Reads a declaration.
fn read_declared(
    alloc: Global,
    sort: DeclaredSort,
    room: usize,
    feed: &mut Feed<'_, '_>,
) -> Result<Statement77, Stop>
    ensures { Gives statement_of result feed.new (read (form_of room (declared_sort sort)) feed.old) }
{
    match sort {
        DeclaredSort::Implicit => Ok(Statement77::Declared(specify77::implicit(alloc, feed)?)),
        DeclaredSort::Parameter => Ok(Statement77::Declared(specify77::parameter(alloc, feed)?)),
        DeclaredSort::Integer => Ok(Statement77::Declared(specify77::integers(alloc, feed)?)),
        DeclaredSort::Logical => Ok(Statement77::Declared(specify77::logicals(alloc, feed)?)),
        DeclaredSort::Character => Ok(Statement77::Declared(specify77::characters(alloc, feed)?)),
        DeclaredSort::Dimension => Ok(Statement77::Declared(specify77::dimension(alloc, feed)?)),
        DeclaredSort::Common => Ok(Statement77::Declared(specify77::common(alloc, feed)?)),
        DeclaredSort::Equivalence => Ok(Statement77::Declared(specify77::equivalence(
            alloc, feed,
        )?)),
        DeclaredSort::External => Ok(Statement77::Declared(specify77::external(alloc, feed)?)),
        DeclaredSort::Intrinsic => Ok(Statement77::Declared(specify77::intrinsic(alloc, feed)?)),
        DeclaredSort::Save => Ok(Statement77::Declared(specify77::save(alloc, feed)?)),
        DeclaredSort::Data => Ok(Statement77::Declared(specify77::data(alloc, feed, room)?)),
    }
}

/// Reads an assignment or a control statement.
fn read_control(
    alloc: Global,
    sort: ControlSort,
    feed: &mut Feed<'_, '_>,
) -> Result<Statement77, Stop>
    ensures { (room : ℕ) → Gives statement_of result feed.new (read (form_of room (control_sort sort)) feed.old) }
{
    match sort {
        ControlSort::Assignment => control::assignment(alloc, feed),
        ControlSort::GoTo => Ok(Statement77::Simple(control::goto(alloc, feed)?)),
        ControlSort::Arithmetic => Ok(Statement77::Simple(control::arithmetic(alloc, feed)?)),
        ControlSort::Condition => Ok(Statement77::IfThen(control::condition(alloc, feed)?)),
        ControlSort::Then => Ok(Statement77::IfThen(control::then_block(alloc, feed)?)),
        ControlSort::ElseIf => Ok(Statement77::ElseIf(control::then_block(alloc, feed)?)),
        ControlSort::Else => Ok(Statement77::Else),
        ControlSort::EndIf => Ok(Statement77::EndIf),
        ControlSort::Do => control::do_(alloc, feed),
        ControlSort::Continue => Ok(Statement77::Simple(Stmt77::Continue)),
        ControlSort::Return => Ok(Statement77::Simple(control::return_(alloc, feed)?)),
        ControlSort::Stop => Ok(Statement77::Simple(control::stop(alloc, feed)?)),
        ControlSort::End => Ok(Statement77::End),
        ControlSort::Call => Ok(Statement77::Simple(control::call(alloc, feed)?)),
    }
}

/// Reads an input or output statement.
fn read_transfer(
    alloc: Global,
    sort: TransferSort,
    room: usize,
    feed: &mut Feed<'_, '_>,
) -> Result<Statement77, Stop>
    ensures { Gives statement_of result feed.new (read (form_of room (transfer_sort sort)) feed.old) }
{
    match sort {
        TransferSort::Read => Ok(Statement77::Simple(transfer77::read(alloc, feed, room)?)),
        TransferSort::Write => Ok(Statement77::Simple(transfer77::write(alloc, feed, room)?)),
        TransferSort::Print => Ok(Statement77::Simple(transfer77::print(alloc, feed, room)?)),
        TransferSort::Open => Ok(Statement77::Simple(transfer77::open(alloc, feed)?)),
        TransferSort::Close => Ok(Statement77::Simple(transfer77::close(alloc, feed)?)),
        TransferSort::Rewind => Ok(Statement77::Simple(transfer77::rewind(alloc, feed)?)),
    }
}

/// Reads what has the form of a sort, where lists nest no deeper than `room`.
pub fn read_form(
    alloc: Global,
    sort: Sort,
    room: usize,
    feed: &mut Feed<'_, '_>,
) -> Result<Statement77, Stop>
    ensures { Gives statement_of result feed.new (read (form_of room (sort_of sort)) feed.old) }
{
    match sort {
        Sort::Header(sort) => read_header(alloc, sort, feed),
        Sort::Size(sort) => read_size(alloc, sort, feed),
        Sort::Declared(sort) => read_declared(alloc, sort, room, feed),
        Sort::Control(sort) => read_control(alloc, sort, feed),
        Sort::Transfer(sort) => read_transfer(alloc, sort, room, feed),
    }
}

/// The sort that the keyword of a statement tells. `None` where it tells none, or not it alone.
pub fn sort_of_word(word: Word) -> Option<Sort>
    ensures { option_map sort_of result ≡ sort_in keyword_sorts (word_text word) }
{
    match word {
        Word::Program => Some(Sort::Header(HeaderSort::Program)),
        Word::Subroutine => Some(Sort::Header(HeaderSort::Subroutine)),
        Word::Function => Some(Sort::Header(HeaderSort::Function)),
        Word::BlockData => Some(Sort::Header(HeaderSort::BlockData)),
        Word::Implicit => Some(Sort::Declared(DeclaredSort::Implicit)),
        Word::Parameter => Some(Sort::Declared(DeclaredSort::Parameter)),
        Word::Integer => Some(Sort::Declared(DeclaredSort::Integer)),
        Word::Logical => Some(Sort::Declared(DeclaredSort::Logical)),
        Word::Character => Some(Sort::Declared(DeclaredSort::Character)),
        Word::Dimension => Some(Sort::Declared(DeclaredSort::Dimension)),
        Word::Common => Some(Sort::Declared(DeclaredSort::Common)),
        Word::Equivalence => Some(Sort::Declared(DeclaredSort::Equivalence)),
        Word::External => Some(Sort::Declared(DeclaredSort::External)),
        Word::Intrinsic => Some(Sort::Declared(DeclaredSort::Intrinsic)),
        Word::Save => Some(Sort::Declared(DeclaredSort::Save)),
        Word::Data => Some(Sort::Declared(DeclaredSort::Data)),
        Word::GoTo => Some(Sort::Control(ControlSort::GoTo)),
        Word::ElseIf => Some(Sort::Control(ControlSort::ElseIf)),
        Word::Else => Some(Sort::Control(ControlSort::Else)),
        Word::EndIf => Some(Sort::Control(ControlSort::EndIf)),
        Word::Continue => Some(Sort::Control(ControlSort::Continue)),
        Word::Stop => Some(Sort::Control(ControlSort::Stop)),
        Word::End => Some(Sort::Control(ControlSort::End)),
        Word::Call => Some(Sort::Control(ControlSort::Call)),
        Word::Return => Some(Sort::Control(ControlSort::Return)),
        Word::Read => Some(Sort::Transfer(TransferSort::Read)),
        Word::Write => Some(Sort::Transfer(TransferSort::Write)),
        Word::Print => Some(Sort::Transfer(TransferSort::Print)),
        Word::Open => Some(Sort::Transfer(TransferSort::Open)),
        Word::Close => Some(Sort::Transfer(TransferSort::Close)),
        Word::Rewind => Some(Sort::Transfer(TransferSort::Rewind)),
        _ => None,
    }
}
