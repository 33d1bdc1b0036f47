// Reads a file into its statements and comments, or refuses it.
ghost use Rattle.std.specs.Prelude.{◌≡◌, ◌≤◌, ◌<◌, ◌+◌, ◌-◌, ◌^◌, ◌++◌, ◌∷◌, ◌==◌, [], not, true, None, IfOk, OnOk, IfErr, map, length};
ghost use Rattle.std.specs.List.{list_all};
ghost use Rattle.std.specs.Option.{option_map};
ghost use Rattle.text_base.specs.Lines.{lines, cut_lines};
ghost use Rattle.text_base.specs.Cards as source;
ghost use Rattle.text_base.specs.LineRefusals.{card_refusals, line_refusals, refused_at, too_large};
ghost use Rattle.text_base.specs.declared.limits.TheConstants.{LARGEST_FILE};
ghost use Rattle.card_reader.specs.CardsError.{Refuses};
ghost use Rattle.card_reader.specs.Check.{read_fault, state_after, state_of};
ghost use Rattle.card_reader.specs.Deck.{card_of, deck_comments, with_line};
ghost use Rattle.card_reader.specs.Fault.{fault_of};
ghost use Rattle.card_reader.specs.Reader.{HasCounted};

use crate::check::{State, after_line};
use crate::fault::{Fault, refusal_at};
use crate::lines::next_line;
use crate::{CardsError, Deck};
use sqlite_items::Items;
use std::alloc::{AllocError, Global};
use text_base::limits::LARGEST_FILE;
use text_base::{Cause, Place, Refusals};

/// What is known of a file after some of its lines: the place of the next line, the lines so far of a statement, the
/// refusals, and, where there are none, what was read.
#[derive(Drop)]
struct Reader {
    next: Place,
    state: Option<State>,
    refusals: Refusals,
    deck: Deck,
}

impl Reader {
    // Takes one more line of the file, which has no LF. After the first refusal nothing more is read, but all that is
    // refused is found.
    fn take_line(&mut self, alloc: Global, line: &[u8]) -> Result<(), AllocError>
        requires feedless { list_all (λ c. not (c == 10)) line.now ≡ true }
        requires room { self.old.next.line < 2 ^ 32 - 1 }
        requires counted { HasCounted self.old }
        ensures next { OnOk result (self.new.next ≡ record { file = self.old.next.file; line = self.old.next.line + 1 }) }
        ensures state { OnOk result (option_map state_of self.new.state ≡ state_after (option_map state_of self.old.state) (read_fault (option_map state_of self.old.state) line.now) line.now) }
        ensures refusals { OnOk result (self.new.refusals ≡ self.old.refusals ++ refused_at self.old.next.file self.old.next.line (read_fault (option_map state_of self.old.state) line.now)) }
        ensures deck { OnOk result (self.new.refusals ≡ [] → self.new.deck ≡ with_line self.old.next line.now self.old.deck) }
        ensures counted { OnOk result (HasCounted self.new) }
    {
        let (state, fault) = after_line(self.state, line);
        self.state = state;
        refuse(alloc, self.next, fault, &mut self.refusals)?;
        read_line(alloc, self.next, line, &self.refusals, &mut self.deck)?;
        self.next.line += 1;
        Ok(())
    }
}

// Appends the refusal of a line, if it has a fault.
fn refuse(
    alloc: Global,
    place: Place,
    fault: Option<Fault>,
    refusals: &mut Refusals,
) -> Result<(), AllocError>
    ensures { OnOk result (refusals.new ≡ refusals.old ++ refused_at place.file place.line (option_map fault_of fault)) }
{
    if let Some(fault) = fault {
        refusals.push(refusal_at(alloc, place, fault)?)?;
    }
    Ok(())
}

// Reads a line, which has no LF, if nothing is refused.
fn read_line(
    alloc: Global,
    place: Place,
    line: &[u8],
    refusals: &Refusals,
    deck: &mut Deck,
) -> Result<(), AllocError>
    requires feedless { list_all (λ c. not (c == 10)) line.now ≡ true }
    requires room { deck.old.cut < 2 ^ 32 - 1 }
    ensures read { OnOk result (refusals.now ≡ [] → deck.new ≡ with_line place line.now deck.old) }
    ensures cut { OnOk result (deck.new.cut ≤ deck.old.cut + 1) }
{
    if refusals.is_empty() {
        deck.take_line(alloc, place, line)?;
    }
    Ok(())
}

// Takes the lines of a file one after another.
fn read_lines(alloc: Global, file: u32, bytes: &[u8]) -> Result<Reader, AllocError>
    requires { length bytes.now ≤ LARGEST_FILE }
    ensures refusals { IfOk result (λ reader. reader.refusals ≡ line_refusals file 1 None (lines bytes.now)) }
    ensures cards { IfOk result (λ reader. reader.refusals ≡ [] → map card_of reader.deck.statements ≡ source.cards file bytes.now) }
    ensures comments { IfOk result (λ reader. reader.refusals ≡ [] → deck_comments reader.deck ≡ source.comments bytes.now) }
    ensures cut { IfOk result (λ reader. reader.refusals ≡ [] → reader.deck.cut ≡ cut_lines bytes.now) }
{
    let mut reader = Reader {
        next: Place { file, line: 1 },
        state: None,
        refusals: Items::new(alloc),
        deck: Deck::new(alloc),
    };
    let mut left = bytes;
    while !left.is_empty() {
        let (line, after) = next_line(left);
        reader.take_line(alloc, line)?;
        left = after;
    }
    Ok(reader)
}

// The refusal of a file of this size.
fn too_large(alloc: Global, file: u32, size: usize) -> Result<Refusals, AllocError>
    ensures { IfOk result (λ refusals. refusals ≡ too_large file size ∷ []) }
{
    let place = Place { file, line: 0 };
    let fault = Fault {
        cause: Cause::FileTooLarge,
        number: size,
    };
    let mut refusals = Items::new(alloc);
    refusals.push(refusal_at(alloc, place, fault)?)?;
    Ok(refusals)
}

/// Reads a file of fixed-form FORTRAN 77 (X3.9 section 3) into its statements and its comments.
///
/// In: the number that the file has in places, and its bytes. The file is cut at each LF. A CR directly
/// before an LF, or at the end of the file, isn't part of the line. A line with C, c, * or ! in column 1
/// is a comment, and so is one that has nothing but blanks in columns 1 to 72. Every other line belongs to a statement:
/// it is an initial line where column 6 has a blank or 0, and a continuation line elsewhere. Columns 7 to 72 of its
/// lines are the characters of a statement; comments may stand between them.
///
/// Out: the deck, or `Refused` where the file has more than `LARGEST_FILE` bytes, or a line, in this order of causes, that
/// has more than `LONGEST_LINE` bytes, a bad label field, or, on a continuation line, no initial line before it or
/// `MOST_CONTINUED` continuation lines since it, or a bad character. The list has each such line, in order, with
/// the first of these causes that applies; of the continuation lines of a statement only the first that is too many is
/// refused for that. Either may give way to `Memory`, for want of memory, which says nothing of the file.
pub fn read_cards(alloc: Global, file: u32, bytes: &[u8]) -> Result<Deck, CardsError>
    ensures cards { IfOk result (λ deck. map card_of deck.statements ≡ source.cards file bytes.now) }
    ensures comments { IfOk result (λ deck. deck_comments deck ≡ source.comments bytes.now) }
    ensures cut { IfOk result (λ deck. deck.cut ≡ cut_lines bytes.now) }
    ensures accepted { OnOk result (card_refusals file bytes.now ≡ []) }
    ensures refused { IfErr result (λ error. Refuses file bytes.now error) }
{
    if bytes.len() > LARGEST_FILE {
        return Err(CardsError::Refused(too_large(alloc, file, bytes.len())?));
    }
    let Reader { refusals, deck, .. } = read_lines(alloc, file, bytes)?;
    if refusals.is_empty() {
        Ok(deck)
    } else {
        Err(CardsError::Refused(refusals))
    }
}
