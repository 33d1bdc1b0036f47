// What a refusal shows of a statement.
ghost use Rattle.std.specs.Prelude.{◌≡◌, take, IfOk};
ghost use Rattle.text_base.specs.Kept.{kept, read_characters};
ghost use Rattle.text_base.specs.declared.limits.TheConstants.{MOST_SHOWN};

use card_reader::Card;
use scan77::{one_list_of_pieces, pieces};
use std::alloc::{AllocError, Global};
use text_base::Bytes;
use text_base::limits::MOST_SHOWN;

/// What a refusal shows of a statement as its name.
///
/// In: the statement, of which its label and its characters count.
///
/// Out: its first 12 characters, or all where they are fewer, as they are read (X3.9 section 3.1.6): outside kept text without
/// blanks, and with lower-case letters as upper case. An error comes only where memory is wanted.
pub fn shown(alloc: Global, card: &Card) -> Result<Bytes, AllocError>
    ensures { IfOk result (λ made. made ≡ take MOST_SHOWN (read_characters card.now.text (kept card.now.label card.now.text))) }
{
    one_list_of_pieces();
    let pieces = pieces(alloc, card)?;
    let characters = pieces.all().characters();
    let (first, _) = characters.split_at(characters.len().min(MOST_SHOWN));
    Bytes::from_slice(alloc, first)
}
