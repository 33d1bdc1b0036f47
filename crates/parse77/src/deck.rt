// The units of a file.
ghost use Rattle.std.specs.Prelude.{◌≡◌, ◌<◌, ◌-◌, ◌^◌, [], length, map, IfOk, OnOk};
ghost use Rattle.card_reader.specs.Deck.{card_of};
ghost use Rattle.unit77.specs.CardPrograms.{AreUnitsOf};
ghost use Rattle.order77.specs.ReadViews.{readings_of};
ghost use Rattle.unit77.specs.UnitViews.{unit_of};
ghost use Rattle.parse77.specs.Statement.{deck_refusals, file_readings, RefusesWith};

use crate::laws::files_are_units;
use crate::reader::read_statements;
use card_reader::Deck;
use order77::ReadStatement;
use std::alloc::{AllocError, Global};
use text_base::Refusals;
use thiserror::Error;
use unit77::{Units77, file_refusals, nest_units};

/// Why a file has no units.
#[derive(Debug, Drop, Error)]
pub enum ParseError {
    /// Statements are refused. The list says which and why.
    #[error("the file is refused")]
    Refused(Refusals),
    /// Want of memory. Nothing is known of the file.
    #[error("memory is wanted")]
    Memory,
}

impl From<AllocError> for ParseError {
    ghost use Rattle.parse77.specs.declared.deck.ParseError.TheVariants.{Memory};

    ghost from_gives = { λ _ e. e ≡ Memory };

    fn from(_: AllocError) -> Self {
        ParseError::Memory
    }
}

/// The statements of a file of which nothing is refused, one by one.
///
/// In: what the file was read into, with fewer than 2^32 - 1 statements.
///
/// Out: its statements in order, statement functions told from assignments (X3.9 section 15.4), of which the units are made by
/// `nest_units`. `Refused` comes exactly where a statement is refused, by itself or for its order, its nesting or its unit, with
/// one refusal for each such statement, in order: that of its lowest cause, among equal ones the first from left to right.
/// `Memory` may come in place of either where memory is wanted.
pub fn read_accepted(alloc: Global, deck: &Deck) -> Result<Vec<ReadStatement>, ParseError>
    requires room { length deck.now.statements < 2 ^ 32 - 1 }
    ensures readings { IfOk result (λ made. readings_of made.items ≡ file_readings (map card_of deck.now.statements)) }
    ensures accepted { OnOk result (deck_refusals (map card_of deck.now.statements) ≡ []) }
    ensures refused { RefusesWith (map card_of deck.now.statements) result }
{
    let statements = read_statements(alloc, deck)?;
    let refused = file_refusals(alloc, statements.as_slice())?;
    if !refused.is_empty() {
        return Err(ParseError::Refused(refused));
    }
    Ok(statements)
}

/// The units of a file, with nested lists (X3.9 sections 2.4, 11.6 and 11.10).
///
/// In: what the file was read into, with fewer than 2^32 - 1 statements.
///
/// Out: its units, in order. `Refused` comes exactly where its statements are the units of no program: one refusal for each
/// statement that is refused, as `read_accepted` gives them. `Memory` may come in place of either where memory is wanted.
pub fn parse_deck(alloc: Global, deck: &Deck) -> Result<Units77, ParseError>
    requires room { length deck.now.statements < 2 ^ 32 - 1 }
    ensures units { IfOk result (λ us. AreUnitsOf (map card_of deck.now.statements) (map unit_of us)) }
    ensures refused { RefusesWith (map card_of deck.now.statements) result }
{
    files_are_units();
    let statements = read_accepted(alloc, deck)?;
    Ok(nest_units(alloc, statements)?)
}
