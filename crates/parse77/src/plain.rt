// Reads all statements but logical IF.
ghost use Rattle.std.specs.Prelude.{◌≡◌, IfOk};
ghost use Rattle.tree77.specs.Spelling.{size_sorts, stand_in, unread_function};
ghost use Rattle.tree77.specs.StatementPlain.{statement_of};
ghost use Rattle.scan77.specs.Kind.{kind_of};
ghost use Rattle.scan77.specs.PieceSlice.{slice_of};
ghost use Rattle.scan77.specs.Word.{word_text};
ghost use Rattle.format77.specs.State.{outcome_of};
ghost use Rattle.parse77.specs.Reading as reading;
ghost use Rattle.parse77.specs.Reading.{no_other};
ghost use Rattle.parse77.specs.Sort.{size_sort};
ghost use Rattle.parse77.specs.Views as views;
ghost use Rattle.parse77.specs.Views.{read_made};

use crate::branch::{Branch, shape_of};
use crate::joining::{self, untyped};
use crate::sort::{ControlSort, HeaderSort, SizeSort, Sort, sort_of_word};
use crate::whole::{Read, behind, whole};
use expr77::unsupported;
use format77::FormatRead;
use scan77::{Kind, PieceSlice, Word};
use sqlite_items::Items;
use std::alloc::{AllocError, Global};
use text_base::Name;
use tree77::{Declared77, Header77, Statement77, Stmt77, Type77};

/// A FORMAT statement with what its format is read as.
fn format_read<'a>(alloc: Global, format: FormatRead) -> Read<'a>
    ensures { read_made result ≡ views.format_read (outcome_of format) }
{
    match format {
        FormatRead::Accepted(items) => {
            Some((Statement77::Declared(Declared77::Format(items)), None))
        }
        FormatRead::Refused(word) => Some((
            Statement77::Declared(Declared77::Format(Items::new(alloc))),
            unsupported(word),
        )),
        FormatRead::NotSpelled => None,
    }
}

/// Reads FORMAT (X3.9 section 13.1).
fn format<'a>(alloc: Global, pieces: PieceSlice<'a>) -> Result<Read<'a>, AllocError>
    ensures { IfOk result (λ made. read_made made ≡ reading.read_format (slice_of pieces.entry)) }
{
    let Some(rest) = pieces.behind("FORMAT") else {
        return Ok(None);
    };
    let format = format77::read_format(alloc, rest)?;
    Ok(format_read(alloc, format))
}

/// Reads what stands behind the type of a FUNCTION statement: its length or none, FUNCTION, a name and dummies.
fn sized<'a>(alloc: Global, sort: SizeSort, pieces: PieceSlice<'a>) -> Result<Read<'a>, AllocError>
    ensures { IfOk result (λ made. read_made made ≡ reading.read_header (size_sort sort) (slice_of pieces.entry)) }
{
    let Some((size, rest)) = pieces.split_size() else {
        return Ok(None);
    };
    let read = behind(alloc, "FUNCTION", Sort::Header(HeaderSort::Function), rest)?;
    match untyped(read) {
        Some((header, second)) => joining::typed(alloc, sort, size, header, second),
        None => Ok(None),
    }
}

/// Reads a FUNCTION statement that begins with a type (X3.9 section 15.5.1).
fn typed<'a>(alloc: Global, pieces: PieceSlice<'a>) -> Result<Read<'a>, AllocError>
    ensures { IfOk result (λ made. read_made made ≡ reading.read_typed size_sorts (slice_of pieces.entry)) }
{
    if let Some(rest) = pieces.behind("INTEGER") {
        return sized(alloc, SizeSort::Integer, rest);
    }
    if let Some(rest) = pieces.behind("LOGICAL") {
        return sized(alloc, SizeSort::Logical, rest);
    }
    if let Some(rest) = pieces.behind("CHARACTER") {
        return sized(alloc, SizeSort::Character, rest);
    }
    Ok(None)
}

/// Reads a FUNCTION statement (X3.9 section 15.5.1).
fn function<'a>(alloc: Global, pieces: PieceSlice<'a>) -> Result<Read<'a>, AllocError>
    ensures { IfOk result (λ made. read_made made ≡ reading.read_function (slice_of pieces.entry)) }
{
    match pieces.behind("FUNCTION") {
        Some(rest) => whole(alloc, Sort::Header(HeaderSort::Function), rest),
        None => typed(alloc, pieces),
    }
}

/// Reads an IF that isn't a logical one (X3.9 sections 11.4 and 11.6).
fn plain_if<'a>(alloc: Global, pieces: PieceSlice<'a>) -> Result<Read<'a>, AllocError>
    ensures { IfOk result (λ made. read_made made ≡ reading.read_if no_other (slice_of pieces.entry)) }
{
    match shape_of(pieces) {
        Branch::Labels(rest) => whole(alloc, Sort::Control(ControlSort::Arithmetic), rest),
        Branch::Block(rest) => whole(alloc, Sort::Control(ControlSort::Then), rest),
        Branch::Guard(_, _) => Ok(None),
        Branch::Other => Ok(None),
    }
}

/// Reads the statement of a keyword that tells its sort.
fn told<'a>(alloc: Global, word: Word, pieces: PieceSlice<'a>) -> Result<Read<'a>, AllocError>
    ensures { IfOk result (λ made. read_made made ≡ views.read_told (word_text word) (slice_of pieces.entry)) }
{
    match sort_of_word(word) {
        Some(sort) => behind(alloc, word.text(), sort, pieces),
        None => Ok(None),
    }
}

/// Reads the statement of a keyword.
fn keyword<'a>(alloc: Global, word: Word, pieces: PieceSlice<'a>) -> Result<Read<'a>, AllocError>
    ensures { IfOk result (λ made. read_made made ≡ reading.read_keyword no_other (word_text word) (slice_of pieces.entry)) }
{
    match word {
        Word::Function => function(alloc, pieces),
        Word::If => plain_if(alloc, pieces),
        _ => told(alloc, word, pieces),
    }
}

/// What stands for a statement that is refused whatever stands behind its keyword: one of its sort, with nothing in it.
fn stands(alloc: Global, word: Word) -> Statement77
    ensures { statement_of result ≡ stand_in (word_text word) }
{
    match word {
        Word::Pause | Word::Assign | Word::Inquire | Word::Backspace | Word::EndFile => {
            Statement77::Simple(Stmt77::Continue)
        }
        Word::Real | Word::DoublePrecision | Word::Complex | Word::Namelist => {
            Statement77::Declared(Declared77::Typed(Type77::Integer, Items::new(alloc)))
        }
        Word::Entry | Word::Include => {
            Statement77::Declared(Declared77::Data(Items::new(alloc)))
        }
        Word::ImplicitNone => Statement77::Declared(Declared77::Implicit(Items::new(alloc))),
        _ => Statement77::End,
    }
}

/// What stands for a FUNCTION statement whose type is refused.
fn unread_function(alloc: Global) -> Statement77
    ensures { statement_of result ≡ unread_function }
{
    let name = Name::new(b"MAIN");
    Statement77::Header(Header77::Function(None, name, Items::new(alloc)))
}

/// Reads a statement of this kind, unless it is a logical IF.
pub fn read_plain<'a>(
    alloc: Global,
    kind: Kind,
    pieces: PieceSlice<'a>,
) -> Result<Read<'a>, AllocError>
    ensures { IfOk result (λ made. read_made made ≡ reading.read_as no_other (kind_of kind) (slice_of pieces.entry)) }
{
    match kind {
        Kind::Format => format(alloc, pieces),
        Kind::Do => behind(alloc, "DO", Sort::Control(ControlSort::Do), pieces),
        Kind::Assign => whole(alloc, Sort::Control(ControlSort::Assignment), pieces),
        Kind::Keyword(word) => keyword(alloc, word, pieces),
        Kind::Unsupported(word) => Ok(Some((stands(alloc, word), unsupported(word.shown())))),
        Kind::RefusedFunction(word) => {
            Ok(Some((unread_function(alloc), unsupported(word.text()))))
        }
        Kind::Nothing => Ok(None),
    }
}
