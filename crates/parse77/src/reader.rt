// Reads the statements of a file.
ghost use Rattle.std.specs.Prelude.{◌≡◌, ℕ, Some, None, map, IfOk};
ghost use Rattle.std.specs.Option.{option_map};
ghost use Rattle.card_reader.specs.Deck.{card_of};
ghost use Rattle.tree77.specs.StatementPlain.{statement_of};
ghost use Rattle.expr77.specs.Views.{plain_part};
ghost use Rattle.scan77.specs.PieceReading.{pieces_of};
ghost use Rattle.scan77.specs.PieceSlice.{slice_of};
ghost use Rattle.parse77.specs.Reading.{outcome_from, rejected};
ghost use Rattle.parse77.specs.Statement.{card_reading, card_readings, file_readings, reading_by, refusal_at};
ghost use Rattle.parse77.specs.Views.{read_made};
ghost use Rattle.order77.specs.ReadViews.{reading_at, readings_of};

use crate::statements::read_statement;
use crate::whole::Read;
use card_reader::{Card, Deck};
use expr77::Part;
use order77::{ReadStatement, settle};
use scan77::{PieceSlice, pieces};
use sqlite_items::Boxed;
use std::alloc::{AllocError, Global};
use text_base::limits::MOST_SHOWN;
use text_base::{Bytes, Cause, Place, Refusal};
use tree77::Statement77;

/// The refusal of a statement for a part of it.
fn refused(alloc: Global, place: Place, part: Part<'_>) -> Result<Boxed<Refusal>, AllocError>
    ensures { IfOk result (λ made. made ≡ refusal_at place (plain_part part.entry)) }
{
    let name = Bytes::from_slice(alloc, part.shown)?;
    Boxed::new(
        alloc,
        Refusal {
            place,
            cause: part.cause,
            name,
        },
    )
}

/// The part that pieces are which spell no statement: their first characters.
fn no_statement(pieces: PieceSlice<'_>) -> Part<'_>
    ensures { rejected (plain_part result) ≡ outcome_from (slice_of pieces.entry) None }
{
    let characters = pieces.characters();
    let (shown, _) = characters.split_at(characters.len().min(MOST_SHOWN));
    Part {
        cause: Cause::NotAStatement,
        shown,
    }
}

/// The refusal of a statement for its lowest part that is refused, if it has one.
fn refusal(
    alloc: Global,
    place: Place,
    lowest: Option<Part<'_>>,
) -> Result<Option<Boxed<Refusal>>, AllocError>
    ensures { IfOk result (λ made. made ≡ option_map (λ p. refusal_at place (plain_part p)) lowest.entry) }
{
    match lowest {
        None => Ok(None),
        Some(part) => Ok(Some(refused(alloc, place, part)?)),
    }
}

/// A card that spells no statement.
fn unspelled(
    alloc: Global,
    card: &Card,
    pieces: PieceSlice<'_>,
) -> Result<ReadStatement, AllocError>
    requires { slice_of pieces ≡ pieces_of (card_of card.now).label (card_of card.now).text }
    ensures { IfOk result (λ made. (n : ℕ) → reading_at n made ≡ reading_by n (card_of card.now) None) }
{
    let refusal = refused(alloc, card.place, no_statement(pieces))?;
    Ok(ReadStatement {
        label: card.label,
        place: card.place,
        statement: None,
        refusal: Some(refusal),
    })
}

/// A card that spells a statement, of which a part may be refused.
fn spelled(
    alloc: Global,
    card: &Card,
    statement: Statement77,
    lowest: Option<Part<'_>>,
) -> Result<ReadStatement, AllocError>
    ensures { IfOk result (λ made. (n : ℕ) → reading_at n made ≡ reading_by n (card_of card.now) (Some (statement_of statement, option_map plain_part lowest.entry))) }
{
    let refusal = refusal(alloc, card.place, lowest)?;
    Ok(ReadStatement {
        label: card.label,
        place: card.place,
        statement: Some(statement),
        refusal,
    })
}

/// A card as it is read.
fn read_as(
    alloc: Global,
    card: &Card,
    pieces: PieceSlice<'_>,
    read: Read<'_>,
) -> Result<ReadStatement, AllocError>
    requires { slice_of pieces ≡ pieces_of (card_of card.now).label (card_of card.now).text }
    ensures { IfOk result (λ made. (n : ℕ) → reading_at n made ≡ reading_by n (card_of card.now) (read_made read.entry)) }
{
    match read {
        None => unspelled(alloc, card, pieces),
        Some((statement, lowest)) => spelled(alloc, card, statement, lowest),
    }
}

/// Reads one statement.
fn read_card(alloc: Global, card: &Card) -> Result<ReadStatement, AllocError>
    ensures { IfOk result (λ made. (n : ℕ) → reading_at n made ≡ card_reading n (card_of card.now)) }
{
    let pieces = pieces(alloc, card)?;
    let all = pieces.all();
    let read = read_statement(alloc, card.label, all)?;
    read_as(alloc, card, all, read)
}

/// Reads all statements, in which statement functions aren't told yet.
fn read_cards(alloc: Global, cards: &[Card]) -> Result<Vec<ReadStatement>, AllocError>
    ensures { IfOk result (λ made. readings_of made.items ≡ card_readings 0 (map card_of cards.now)) }
{
    let mut made = Vec::with_capacity(alloc, cards.len())?;
    for card in cards {
        made.push(read_card(alloc, card)?)?;
    }
    Ok(made)
}

/// Reads the statements of a file (X3.9 section 3), each once: cuts it into pieces, finds its kind, and reads its tokens; and tells
/// statement functions from assignments (X3.9 section 15.4).
///
/// In: what the file was read into.
///
/// Out: one for each statement of the file, in order, with its label, its place, the statement that it spells, and its refusal,
/// which is that of the part of the lowest cause, among equal ones the first, or of the whole where it spells no statement, even
/// with parts that are refused. Where a part is refused the statement is the one that stands for it. An error comes only where
/// memory is wanted.
pub fn read_statements(alloc: Global, deck: &Deck) -> Result<Vec<ReadStatement>, AllocError>
    ensures { IfOk result (λ made. readings_of made.items ≡ file_readings (map card_of deck.now.statements)) }
{
    let statements = read_cards(alloc, deck.statements())?;
    settle(alloc, statements)
}
