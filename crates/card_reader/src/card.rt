// A statement as it stands in the file.
use sqlite_items::Items;
use text_base::{Bytes, Place, Remarks};

/// A statement (X3.9 section 3): the comments (X3.9 section 3.2.1) between the last line of the statement before it and its
/// own last line; its label, 0 where it has none; the characters of columns 7 to 72 of its initial line and of its
/// continuation lines, each padded with blanks to 66 characters; and the place of its initial line.
#[derive(Debug, Drop)]
pub struct Card {
    pub comments: Remarks,
    pub label: u32,
    pub text: Bytes,
    pub place: Place,
}

/// A list of statements (X3.9 section 3), which contracts see as the list.
pub type Cards = Items<Card>;
