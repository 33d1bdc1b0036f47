// Reads the characters of a statement into pieces.
ghost use Rattle.std.specs.Prelude.{◌≡◌, ◌∷◌, ◌++◌, ℕ, List, [], length, IfOk, OnOk, if◌then◌else◌};
ghost use Rattle.text_base.specs.Kept.{scan_after};
ghost use Rattle.card_reader.specs.Scan.{scan_of};
ghost use Rattle.scan77.specs.PieceReading.{no_text, closed, closed_counted, closed_constant, more_constant, more_counted, plain_piece, last_piece, pieces_from, pieces_of, format_pieces_of};
ghost use Rattle.text_base.specs.Pieces.{plain};
ghost use Rattle.scan77.specs.PieceReader.{read_so_far, IsMarked, is_open};

use crate::Pieces;
use crate::mark::Mark;
use card_reader::{Card, Scan};
use sqlite_items::Items;
use std::alloc::{AllocError, Global};
use text_base::Bytes;
use text_base::chars::to_upper;

/// The pieces of a statement as far as they have been read, and the kept text that is being read.
#[derive(Drop)]
pub struct PieceReader {
    text: Bytes,
    marks: Items<Mark>,
    /// Where the kept text that is being read begins, and the end where there is none.
    first: usize,
    /// Whether that is a character constant, and else the text of an nH.
    is_constant: bool,
}

impl PieceReader {
    /// Nothing has been read. There is room for so many characters. It fails for want of memory alone.
    pub fn with_room(alloc: Global, room: usize) -> Result<PieceReader, AllocError>
        ensures nothing { IfOk result (λ reader. read_so_far reader ≡ record { pieces = []; current = no_text }) }
        ensures marked { IfOk result (λ reader. IsMarked reader) }
    {
        Ok(PieceReader {
            text: Bytes::from_vec(Vec::with_capacity(alloc, room)?),
            marks: Items::from_vec(Vec::with_capacity(alloc, room)?),
            first: 0,
            is_constant: false,
        })
    }

    /// The kept text that is being read is whole.
    fn close(&mut self)
        requires { IsMarked self.old }
        ensures pieces { (read_so_far self.new).pieces ≡ (read_so_far self.old).pieces ++ closed (read_so_far self.old).current [] }
        ensures current { (read_so_far self.new).current ≡ no_text }
        ensures closed { self.new.first ≡ length self.new.text }
        ensures constant { self.new.is_constant ≡ self.old.is_constant }
        ensures marked { IsMarked self.new }
    {
        self.first = self.text.as_slice().len();
    }

    /// Appends a character to the kept text that is being read, or begins one with it.
    fn keep(&mut self, byte: u8) -> Result<(), AllocError>
        requires { IsMarked self.old }
        ensures pieces { OnOk result ((read_so_far self.new).pieces ≡ (read_so_far self.old).pieces) }
        ensures current { OnOk result ((read_so_far self.new).current ≡ (if self.old.is_constant then more_constant (read_so_far self.old).current byte else more_counted (read_so_far self.old).current byte)) }
        ensures marked { OnOk result (IsMarked self.new) }
    {
        let mark = if self.first == self.text.as_slice().len() {
            Mark::First
        } else {
            Mark::Further
        };
        self.marks.push(mark)?;
        self.text.push(byte)
    }

    /// Appends a character to the character constant that is being read, or begins one with it.
    fn keep_constant(&mut self, byte: u8) -> Result<(), AllocError>
        requires { IsMarked self.old }
        ensures pieces { OnOk result ((read_so_far self.new).pieces ≡ (read_so_far self.old).pieces ++ closed_counted (read_so_far self.old).current []) }
        ensures current { OnOk result ((read_so_far self.new).current ≡ more_constant (read_so_far self.old).current byte) }
        ensures marked { OnOk result (IsMarked self.new) }
    {
        if !self.is_constant {
            self.close();
            self.is_constant = true;
        }
        self.keep(byte)
    }

    /// Appends a character to the text of an nH that is being read, or begins one with it.
    fn keep_counted(&mut self, byte: u8) -> Result<(), AllocError>
        requires { IsMarked self.old }
        ensures pieces { OnOk result ((read_so_far self.new).pieces ≡ (read_so_far self.old).pieces ++ closed_constant (read_so_far self.old).current []) }
        ensures current { OnOk result ((read_so_far self.new).current ≡ more_counted (read_so_far self.old).current byte) }
        ensures marked { OnOk result (IsMarked self.new) }
    {
        if self.is_constant {
            self.close();
            self.is_constant = false;
        }
        self.keep(byte)
    }

    /// Appends a character outside kept text, where no kept text is being read.
    fn push_plain(&mut self, byte: u8) -> Result<(), AllocError>
        requires marked { IsMarked self.old }
        requires closed { self.old.first ≡ length self.old.text }
        ensures pieces { OnOk result ((read_so_far self.new).pieces ≡ (read_so_far self.old).pieces ++ plain byte ∷ []) }
        ensures current { OnOk result ((read_so_far self.new).current ≡ no_text) }
        ensures marked { OnOk result (IsMarked self.new) }
    {
        self.marks.push(Mark::Plain)?;
        self.text.push(byte)?;
        self.first = self.text.as_slice().len();
        Ok(())
    }

    /// Appends a character outside kept text as it is read, unless it is a blank.
    fn add_plain(&mut self, byte: u8) -> Result<(), AllocError>
        requires { IsMarked self.old }
        ensures pieces { OnOk result ((read_so_far self.new).pieces ≡ (read_so_far self.old).pieces ++ closed (read_so_far self.old).current (plain_piece byte [])) }
        ensures current { OnOk result ((read_so_far self.new).current ≡ no_text) }
        ensures marked { OnOk result (IsMarked self.new) }
    {
        self.close();
        if byte == b' ' {
            return Ok(());
        }
        self.push_plain(to_upper(byte))
    }

    /// Takes one more character of a statement, of which the characters so far say what they do. It fails for want of memory alone.
    pub fn take(&mut self, scan: Scan, byte: u8) -> Result<(), AllocError>
        requires { IsMarked self.old }
        ensures marked { OnOk result (IsMarked self.new) }
        ensures read { OnOk result ((t : List ℕ) → (read_so_far self.new).pieces ++ pieces_from (scan_after (scan_of scan) byte) (read_so_far self.new).current t
            ≡ (read_so_far self.old).pieces ++ pieces_from (scan_of scan) (read_so_far self.old).current (byte ∷ t)) }
    {
        if scan.is_inside() {
            self.keep_constant(byte)
        } else if scan.is_counting() {
            self.keep_counted(byte)
        } else if byte == b'\'' {
            self.keep_constant(byte)
        } else {
            self.add_plain(byte)
        }
    }

    /// Whether a character constant is open.
    fn is_open(&self, scan: Scan) -> bool
        ensures { result ≡ is_open (scan_of scan) self.now.is_constant self.now.first self.now.text }
    {
        scan.is_inside() && self.is_constant && self.first < self.text.as_slice().len()
    }

    /// The pieces at the end of the statement. A character constant that is open there doesn't end.
    pub fn finish(self, scan: Scan) -> Pieces
        requires { IsMarked self }
        ensures { result ≡ (read_so_far self).pieces ++ last_piece (scan_of scan) (read_so_far self).current }
    {
        let is_open = self.is_open(scan);
        let PieceReader {
            text,
            marks,
            first,
            ..
        } = self;
        if !is_open {
            return Pieces::from_marked(text, marks);
        }
        let mut marks = marks;
        marks.set(first, Mark::Open);
        Pieces::from_marked(text, marks)
    }
}

/// Reads characters into pieces, where the characters before them say what this does. It fails for want of memory alone.
fn pieces_behind(alloc: Global, start: Scan, text: &[u8]) -> Result<Pieces, AllocError>
    ensures { IfOk result (λ made. made ≡ pieces_from (scan_of start) no_text text.now) }
{
    let mut reader = PieceReader::with_room(alloc, text.len())?;
    let mut scan = start;
    for byte in text {
        reader.take(scan, *byte)?;
        scan = scan.after(*byte);
    }
    Ok(reader.finish(scan))
}

/// Reads the characters of a statement into pieces (X3.9 section 3.1.6).
///
/// In: the statement, of which its label and its characters count.
///
/// Out: its pieces, in order: outside kept text each character, without blanks and with lower-case letters as upper case, and
/// each kept text whole. An error comes only where memory is wanted.
pub fn pieces(alloc: Global, card: &Card) -> Result<Pieces, AllocError>
    ensures { IfOk result (λ made. made ≡ pieces_of card.now.label card.now.text) }
{
    pieces_behind(alloc, Scan::start(card.label), card.text.as_slice())
}

/// Reads characters into pieces as those of a FORMAT behind its keyword and its parenthesis (X3.9 section 13.5.2).
///
/// In: the characters, as those of a character constant that is a format (X3.9 section 13.1.2).
///
/// Out: their pieces, in order, as those of a statement. An error comes only where memory is wanted.
pub fn format_pieces(alloc: Global, text: &[u8]) -> Result<Pieces, AllocError>
    ensures { IfOk result (λ made. made ≡ format_pieces_of text.now) }
{
    pieces_behind(alloc, Scan::in_format(), text)
}
