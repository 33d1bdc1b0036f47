// The statements of a file as they were read.
use sqlite_items::{Boxed, Items};
use text_base::{Place, Refusal};
use tree77::Statement77;

/// A statement of a file as it was read: its label, 0 where it has none; the place of its initial line; the statement that it
/// spells, where a part of it is refused the one that stands for it, and `None` where it spells none; and why it is refused, if it
/// is.
#[derive(Debug, Drop)]
pub struct ReadStatement {
    pub label: u32,
    pub place: Place,
    pub statement: Option<Statement77>,
    pub refusal: Option<Boxed<Refusal>>,
}

/// The statements of a file in order, which contracts see as the list.
pub type Statements = Items<ReadStatement>;
