// The conversion of one file.
ghost use Rattle.std.specs.Prelude.{ℕ, ◌≡◌, ◌≤◌, ◌+◌, ◌-◌, ◌∷◌, [], IsTrue, List, length, map, IfOk, OnOk};
ghost use Rattle.text_base.specs.Cards.{Comment, cards, comments};
ghost use Rattle.text_base.specs.Lines.{cut_lines};
ghost use Rattle.text_base.specs.LineRefusals.{card_refusals};
ghost use Rattle.card_reader.specs.Deck.{card_of, deck_comments};
ghost use Rattle.program77.specs.Plain.{source_of};
ghost use Rattle.program77.specs.Typing.{variables};
ghost use Rattle.parse77.specs.Statement.{file_readings};
ghost use Rattle.unit77.specs.UnitViews.{unit_of};
ghost use Rattle.implicit_types.specs.Typing.{has_no_equivalence, refusals_of};
ghost use Rattle.implicit_types.specs.Views.{shown_entity};
ghost use Rattle.order77.specs.ReadViews.{readings_of};
ghost use Rattle.project_set.specs.Comments.{ArePlaced};
ghost use Rattle.tree90.specs.Printed.{printed};
ghost use Rattle.project_set.specs.Conversion.{IsConvertible, IsConversion, RefusesWith, program_map};
ghost use Rattle.project_set.specs.Laws.{IsFaithful};
ghost use Rattle.project_set.specs.Report.{report_text};
ghost use Rattle.parse77.specs.Statement.{deck_refusals};
ghost use Rattle.project_set.specs.Refusals.{refusal_of, refusals, unbuilt_refusals};
ghost use Rattle.project_set.specs.Rewrite.{written};

use crate::comments::Comments;
use crate::laws::{conversions_do_the_same, sources_are_typed};
use crate::map::map_of;
use crate::refusals::unbuilt_refusals;
use crate::report::{Counts, report};
use crate::rewrite::rewritten;
use crate::variables::variables;
use card_reader::{CardsError, Deck, read_cards};
use free_printer::print;
use implicit_types::{TypeError, Typed, type_unit};
use order77::ReadStatement;
use parse77::{ParseError, files_are_units, read_accepted};
use program77::{main_program, sources_are_read, unit_name};
use sqlite_items::Items;
use std::alloc::{AllocError, Global};
use text_base::{Bytes, Name, Refusals, not_built};
use thiserror::Error;
use unit77::{Unit77, nest_units};

/// The texts that are written for one file.
#[derive(Debug, Drop)]
pub struct Outputs {
    pub text: Bytes,
    pub map: Bytes,
    pub report: Bytes,
}

/// Why a file isn't converted.
#[derive(Debug, Drop, Error)]
pub enum ConvertError {
    /// The file is refused. The list says where and why.
    #[error("the file is refused")]
    Refused(Refusals),
    /// Want of memory. Nothing is known of the file.
    #[error("memory is wanted")]
    Memory,
}

impl From<AllocError> for ConvertError {
    ghost use Rattle.project_set.specs.declared.conversion.ConvertError.TheVariants.{Memory};

    ghost from_gives = { λ _ e. e ≡ Memory };

    fn from(_: AllocError) -> Self {
        ConvertError::Memory
    }
}

// The statements and the comments of a file of which no line is refused.
fn read_deck(alloc: Global, bytes: &[u8]) -> Result<Deck, ConvertError>
    ensures cards { IfOk result (λ deck. map card_of deck.statements ≡ cards 0 bytes.now) }
    ensures comments { IfOk result (λ deck. deck_comments deck ≡ comments bytes.now) }
    ensures cut { IfOk result (λ deck. deck.cut ≡ cut_lines bytes.now) }
    ensures accepted { OnOk result (card_refusals 0 bytes.now ≡ []) }
    ensures refused { RefusesWith bytes.now result }
{
    match read_cards(alloc, 0, bytes) {
        Ok(deck) => Ok(deck),
        Err(CardsError::Refused(refusals)) => Err(ConvertError::Refused(refusals)),
        Err(CardsError::Memory) => Err(ConvertError::Memory),
    }
}

/// What is kept of a file of which no line and no statement is refused: its statements as they were read, its comments, and
/// how many of its lines are cut off at column 72.
#[derive(Drop)]
struct Parts {
    statements: Vec<ReadStatement>,
    comments: Comments,
    cut: u32,
}

// The statements of a file of which none is refused.
fn read_deck_statements(
    alloc: Global,
    deck: &Deck,
    bytes: &[u8],
) -> Result<Vec<ReadStatement>, ConvertError>
    requires cards { map card_of deck.now.statements ≡ cards 0 bytes.now }
    requires accepted { card_refusals 0 bytes.now ≡ [] }
    ensures readings { IfOk result (λ made. readings_of made.items ≡ file_readings (cards 0 bytes.now)) }
    ensures accepted { OnOk result (deck_refusals (cards 0 bytes.now) ≡ []) }
    ensures refused { RefusesWith bytes.now result }
{
    match read_accepted(alloc, deck) {
        Ok(statements) => Ok(statements),
        Err(ParseError::Refused(refusals)) => Err(ConvertError::Refused(refusals)),
        Err(ParseError::Memory) => Err(ConvertError::Memory),
    }
}

// The parts of a file, of which the characters of the statements are kept no longer. What is refused of its lines or of its
// statements is refused.
fn read_parts(alloc: Global, bytes: &[u8]) -> Result<Parts, ConvertError>
    ensures statements { IfOk result (λ parts. readings_of parts.statements.items ≡ file_readings (cards 0 bytes.now)) }
    ensures comments { IfOk result (λ parts. 2 ≤ length (cards 0 bytes.now) → ArePlaced (comments bytes.now) (length (cards 0 bytes.now) - 1) parts.comments) }
    ensures cut { IfOk result (λ parts. parts.cut ≡ cut_lines bytes.now) }
    ensures accepted { OnOk result (card_refusals 0 bytes.now ≡ []) }
    ensures statements_accepted { OnOk result (deck_refusals (cards 0 bytes.now) ≡ []) }
    ensures built { OnOk result (unbuilt_refusals (cards 0 bytes.now) ≡ []) }
    ensures refused { RefusesWith bytes.now result }
{
    sources_are_read();
    let deck = read_deck(alloc, bytes)?;
    let statements = read_deck_statements(alloc, &deck, bytes)?;
    let unbuilt = unbuilt_refusals(alloc, deck.statements(), statements.as_slice())?;
    if !unbuilt.is_empty() {
        return Err(ConvertError::Refused(unbuilt));
    }
    let comments = Comments::of(alloc, &deck)?;
    Ok(Parts {
        statements,
        comments,
        cut: deck.cut(),
    })
}

/// A program of one unit and its variables, with the comments of its file, and how many lines of it are cut off at column 72.
#[derive(Drop)]
struct Source {
    unit: Unit77,
    variables: Items<Name>,
    comments: Comments,
    cut: u32,
}

// The typing of a unit. What is refused of its names and their types is refused.
fn typed_unit<'a>(alloc: Global, unit: &'a Unit77) -> Result<Typed<'a>, ConvertError>
    requires { IsTrue (has_no_equivalence (unit_of unit.now)) }
    ensures entities { IfOk result (λ typed. map shown_entity typed.entities ≡ (source_of unit.now).entities) }
    ensures accepted { OnOk result (refusals_of (unit_of unit.now) ≡ []) }
    ensures refused { (bytes : List ℕ) → refusals bytes ≡ map refusal_of (refusals_of (unit_of unit.now)) → RefusesWith bytes result }
{
    match type_unit(alloc, unit) {
        Ok(typed) => Ok(typed),
        Err(TypeError::Refused(refusals)) => Err(ConvertError::Refused(refusals)),
        Err(TypeError::Memory) => Err(ConvertError::Memory),
    }
}

// The program that the bytes are the source of, with their comments. What is refused is refused phase by phase: of the
// lines, of the statements and their units, of those that aren't converted yet, of the statements as one main program, and of its
// names and their types.
fn read_source(alloc: Global, bytes: &[u8]) -> Result<Source, ConvertError>
    ensures found { IfOk result (λ s. IsConvertible bytes.now (record { units = source_of s.unit ∷ [] })) }
    ensures named { IfOk result (λ s. s.variables ≡ variables (source_of s.unit)) }
    ensures counted { IfOk result (λ s. length s.comments.before ≡ length s.unit.items + 1) }
    ensures comments { IfOk result (λ s. ArePlaced (comments bytes.now) (length s.comments.before) s.comments) }
    ensures cut { IfOk result (λ s. s.cut ≡ cut_lines bytes.now) }
    ensures refused { RefusesWith bytes.now result }
{
    files_are_units();
    sources_are_read();
    sources_are_typed();
    let parts = read_parts(alloc, bytes)?;
    let units = nest_units(alloc, parts.statements)?;
    let Some(unit) = main_program(units) else {
        return Err(ConvertError::Refused(not_built(alloc, 0)?));
    };
    let typed = typed_unit(alloc, &unit)?;
    let variables = variables(alloc, typed.entities())?;
    drop(typed);
    Ok(Source {
        unit,
        variables,
        comments: parts.comments,
        cut: parts.cut,
    })
}

// The texts of a program. Its expressions are moved to the written program.
fn written_texts(alloc: Global, source: Source) -> Result<Outputs, AllocError>
    requires counted { length source.comments.before ≡ length source.unit.items + 1 }
    requires named { source.variables ≡ variables (source_of source.unit) }
    ensures text { IfOk result (λ o. (cs : List Comment) → ArePlaced cs (length source.comments.before) source.comments → o.text ≡ printed (written cs (record { units = source_of source.unit ∷ [] }))) }
    ensures map { IfOk result (λ o. o.map ≡ program_map (record { units = source_of source.unit ∷ [] })) }
    ensures report { IfOk result (λ o. o.report ≡ report_text (record { units = 1; webs = 0; kept = 0; arrays = 0; cut = source.cut })) }
{
    let Source {
        unit,
        variables,
        comments,
        cut,
    } = source;
    let map = map_of(alloc, &unit_name(&unit), variables.as_slice())?;
    let program = rewritten(alloc, unit, variables.as_slice(), comments)?;
    Ok(Outputs {
        text: print(alloc, &program)?,
        map,
        report: report(alloc, &Counts::of(1, cut))?,
    })
}

/// Converts a file (X3.9 section 3) to Fortran 90.
///
/// In: its bytes.
///
/// Out: the text of the program, the map of its storage, and the report. Where something is refused of the bytes, `Refused` with
/// all refusals of the first phase that has any: of the lines, of the statements and the units that they are, of statements that
/// aren't converted yet, of them as one main program, of its names and their types. `Memory` may come in place of either where memory is wanted, and tells
/// nothing of the file.
pub fn convert(alloc: Global, bytes: &[u8]) -> Result<Outputs, ConvertError>
    ensures converts { IfOk result (λ o. IsConversion bytes.now o.text o.map o.report) }
    ensures headline { IfOk result (λ o. IsFaithful bytes.now o.text o.map) }
    ensures refused { RefusesWith bytes.now result }
{
    conversions_do_the_same();
    let source = read_source(alloc, bytes)?;
    Ok(written_texts(alloc, source)?)
}
