// The tree of a format (X3.9 section 13).
use crate::Bytes;
use sqlite_items::Items;

/// A descriptor that isn't `/`, or a text. A number that says how often it stands is 1 where none is written.
///
/// `Integers` is rIw or rIw.m (X3.9 section 13.5.9.1), `Logicals` rLw (X3.9 section 13.5.10), `Texts` rA or rAw (X3.9
/// section 13.5.11), `Blanks` nX (X3.9 section 13.5.3.2). `Text` has the characters that an apostrophe text or an nH text
/// stands for (X3.9 sections 13.5.1 and 13.5.2).
#[derive(Debug, Drop)]
pub enum FormatEdit {
    Integers(u16, u16, Option<u16>),
    Logicals(u16, u16),
    Texts(u16, Option<u16>),
    Blanks(u16),
    Text(Bytes),
}

/// An item of a format: a descriptor or text; `/` (X3.9 section 13.5.4); or items in parentheses, and how often they
/// stand (X3.9 section 13.3).
#[cycle(format)]
#[derive(Debug, Drop)]
pub enum FormatItem {
    Edit(FormatEdit),
    RecordEnd,
    Group(u16, FormatItems),
}

/// A list of items, which contracts see as the list.
pub type FormatItems = Items<FormatItem>;
