// The characters of a statement with kept text aside.
ghost use Rattle.std.specs.Prelude.{◌≡◌, ◌<◌, length, IfSome};
ghost use Rattle.std.specs.Option.{option_map};
ghost use Rattle.tree77.specs.Kinds.{outline_of};
ghost use Rattle.scan77.specs.PieceSlice.{slice_of};
ghost use Rattle.scan77.specs.Outline.{characters_left, uncons};

use crate::PieceSlice;
use crate::mark::Mark;

/// What is left of a statement: its characters, and a mark for each.
#[derive(Clone, Copy)]
pub struct Outline<'a> {
    text: &'a [u8],
    marks: &'a [Mark],
}

impl<'a> Outline<'a> {
    /// All characters of some pieces.
    pub fn of(pieces: PieceSlice<'a>) -> Outline<'a>
        ensures { characters_left result ≡ outline_of (slice_of pieces.entry) }
    {
        Outline {
            text: pieces.text,
            marks: pieces.marks,
        }
    }

    /// The next character, and what is left behind it. An apostrophe stands for each character of kept text.
    pub fn next(self) -> Option<(u8, Outline<'a>)>
        ensures first { option_map (λ r. (r.0, characters_left r.1)) result ≡ uncons (characters_left self.entry) }
        ensures shorter { IfSome result (λ r. length r.1.text.now < length self.entry.text.now) }
    {
        let (byte, text) = self.text.split_first()?;
        match self.marks.split_first() {
            Some((Mark::Plain, marks)) => Some((*byte, Outline { text, marks })),
            Some((_, marks)) => Some((b'\'', Outline { text, marks })),
            None => Some((
                *byte,
                Outline {
                    text,
                    marks: self.marks,
                },
            )),
        }
    }
}
