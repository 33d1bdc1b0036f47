// The comments of a file, by where they are written.
ghost use Rattle.std.specs.Prelude.{◌≡◌, ◌≤◌, ◌∷◌, ◌-◌, [], length, map, IfOk};
ghost use Rattle.card_reader.specs.Deck.{deck_comments};
ghost use Rattle.card_reader.specs.declared.card.Card.{Card};
ghost use Rattle.project_set.specs.Comments.{ArePlaced};

use card_reader::{Card, Deck};
use sqlite_items::Items;
use std::alloc::{AllocError, Global};
use text_base::Remarks;

/// The comments of a file of one program unit (X3.9 section 3.2.1), by where they are written: before its header, right
/// after it, before each statement behind the header, and after the last statement. Those before the first statement behind
/// the header are written right after the header, so that none stand before it.
#[derive(Debug, Drop)]
pub struct Comments {
    pub head: Remarks,
    pub inner: Remarks,
    pub before: Items<Remarks>,
    pub tail: Remarks,
}

impl Comments {
    /// Copies of the comments of a file. Of a file with fewer than two statements, which is no program, there are none. It
    /// fails for want of memory alone.
    pub fn of(alloc: Global, deck: &Deck) -> Result<Comments, AllocError>
        ensures { IfOk result (λ made. 2 ≤ length deck.now.statements → ArePlaced (deck_comments deck.now) (length deck.now.statements - 1) made) }
    {
        match deck.statements() {
            [header, first, rest @ ..] => Ok(Comments {
                head: copy(alloc, &header.comments)?,
                inner: copy(alloc, &first.comments)?,
                before: later(alloc, rest)?,
                tail: copy(alloc, deck.tail())?,
            }),
            _ => Ok(Comments {
                head: Remarks::new(alloc),
                inner: Remarks::new(alloc),
                before: Items::new(alloc),
                tail: Remarks::new(alloc),
            }),
        }
    }
}

/// A copy of some comments.
fn copy(alloc: Global, comments: &Remarks) -> Result<Remarks, AllocError>
    ensures { IfOk result (λ made. made ≡ comments.now) }
{
    let mut made = Remarks::new(alloc);
    made.extend(comments)?;
    Ok(made)
}

/// None for the first statement behind a header, and copies of the comments of the later ones.
fn later(alloc: Global, cards: &[Card]) -> Result<Items<Remarks>, AllocError>
    ensures { IfOk result (λ made. made ≡ [] ∷ map (λ (card : Card). card.comments) cards.now) }
{
    let mut made = Vec::with_capacity(alloc, cards.len() + 1)?;
    made.push(Remarks::new(alloc))?;
    for card in cards {
        made.push(copy(alloc, &card.comments)?)?;
    }
    Ok(Items::from_vec(made))
}
