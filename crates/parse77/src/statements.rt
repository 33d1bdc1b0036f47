// Reads all statements.
ghost use Rattle.std.specs.Prelude.{◌≡◌, IfOk};
ghost use Rattle.scan77.specs.Kind.{kind_of};
ghost use Rattle.scan77.specs.PieceSlice.{slice_of};
ghost use Rattle.scan77.specs.declared.kind.Kind.TheVariants.{Keyword};
ghost use Rattle.parse77.specs.Reading as reading;
ghost use Rattle.parse77.specs.Views.{read_made, read_under};

use crate::branch::{Branch, shape_of};
use crate::joining::{guard, simple};
use crate::plain::read_plain;
use crate::sort::{ControlSort, Sort};
use crate::whole::{Read, whole};
use scan77::{Kind, PieceSlice, Word, classify, one_kind};
use std::alloc::{AllocError, Global};

/// Reads the statement under a logical IF, which is none itself.
fn under<'a>(alloc: Global, pieces: PieceSlice<'a>) -> Result<Read<'a>, AllocError>
    ensures { IfOk result (λ made. read_made made ≡ read_under (slice_of pieces.entry)) }
{
    one_kind();
    let kind = classify(0, pieces);
    read_plain(alloc, kind, pieces)
}

/// Reads a condition, and the statement under it (X3.9 section 11.5).
fn guarded<'a>(
    alloc: Global,
    front: PieceSlice<'a>,
    rest: PieceSlice<'a>,
) -> Result<Read<'a>, AllocError>
    ensures { IfOk result (λ made. read_made made ≡ reading.read_guarded (slice_of front.entry) (slice_of rest.entry)) }
{
    let read = under(alloc, rest)?;
    match simple(alloc, read)? {
        Some((statement, second)) => guard(alloc, front, statement, second),
        None => Ok(None),
    }
}

/// Reads an IF (X3.9 sections 11.4 to 11.6).
fn any_if<'a>(alloc: Global, pieces: PieceSlice<'a>) -> Result<Read<'a>, AllocError>
    ensures { IfOk result (λ made. read_made made ≡ reading.read_if reading.read_guarded (slice_of pieces.entry)) }
{
    match shape_of(pieces) {
        Branch::Labels(rest) => whole(alloc, Sort::Control(ControlSort::Arithmetic), rest),
        Branch::Block(rest) => whole(alloc, Sort::Control(ControlSort::Then), rest),
        Branch::Guard(front, rest) => guarded(alloc, front, rest),
        Branch::Other => Ok(None),
    }
}

/// Reads the statement of a keyword.
fn keyword<'a>(alloc: Global, word: Word, pieces: PieceSlice<'a>) -> Result<Read<'a>, AllocError>
    ensures { IfOk result (λ made. read_made made ≡ reading.read_as reading.read_guarded (kind_of (Keyword word)) (slice_of pieces.entry)) }
{
    match word {
        Word::If => any_if(alloc, pieces),
        _ => read_plain(alloc, Kind::Keyword(word), pieces),
    }
}

/// Reads a statement of this kind.
fn of_kind<'a>(alloc: Global, kind: Kind, pieces: PieceSlice<'a>) -> Result<Read<'a>, AllocError>
    ensures { IfOk result (λ made. read_made made ≡ reading.read_as reading.read_guarded (kind_of kind) (slice_of pieces.entry)) }
{
    match kind {
        Kind::Keyword(word) => keyword(alloc, word, pieces),
        _ => read_plain(alloc, kind, pieces),
    }
}

/// Reads the statement with this label that pieces are. It fails for want of memory alone.
pub fn read_statement<'a>(
    alloc: Global,
    label: u32,
    pieces: PieceSlice<'a>,
) -> Result<Read<'a>, AllocError>
    ensures { IfOk result (λ made. read_made made ≡ reading.read_statement label (slice_of pieces.entry)) }
{
    one_kind();
    let kind = classify(label, pieces);
    of_kind(alloc, kind, pieces)
}
