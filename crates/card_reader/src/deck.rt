// What a file was read into.
ghost use Rattle.std.specs.Prelude.{◌≡◌, ◌==◌, ◌<◌, ◌-◌, ◌^◌, not, true, OnOk};
ghost use Rattle.std.specs.List.{list_all};
ghost use Rattle.card_reader.specs.Deck as reading;

use crate::columns::{
    is_blank, is_comment, is_cut, is_initial, is_marked, label_of, statement_field,
};
use crate::lines::behind;
use crate::{Card, Cards};
use sqlite_items::Items;
use std::alloc::{AllocError, Global};
use std::marker::Model;
use std::mem;
use text_base::{Bytes, Place, Remarks};

/// What a file was read into: its statements (X3.9 section 3) in order, each with the comments (X3.9 section 3.2.1) before
/// its last line; the comments behind the last statement; and how many lines of its statements have something after
/// column 72. Contracts see a record of them.
#[derive(Debug, Drop)]
pub struct Deck {
    statements: Cards,
    tail: Remarks,
    cut: u32,
}

impl Model for Deck {
    ghost use Rattle.card_reader.specs.Deck.{Contents};

    ghost Value = { Contents };

    ghost view = { λ deck. record { statements = deck.statements; tail = deck.tail; cut = deck.cut } };
}

impl Deck {
    /// Nothing is read yet.
    pub(crate) fn new(alloc: Global) -> Deck
        ensures { result ≡ reading.empty_deck }
    {
        Deck {
            statements: Items::new(alloc),
            tail: Remarks::new(alloc),
            cut: 0,
        }
    }

    // Puts a comment behind the statements.
    fn take_comment(&mut self, line: &[u8]) -> Result<(), AllocError>
        requires { list_all (λ c. not (c == 10)) line.now ≡ true }
        ensures { OnOk result (self.new ≡ reading.with_comment line.now self.old) }
    {
        if is_marked(line) || !is_blank(line) {
            self.tail.push(true, behind(1, line))
        } else {
            self.tail.push(false, line)
        }
    }

    // Begins a statement, which takes the comments behind the others.
    fn take_initial(&mut self, alloc: Global, place: Place, line: &[u8]) -> Result<(), AllocError>
        ensures { OnOk result (self.new ≡ reading.with_initial place line.now self.old) }
    {
        self.statements.push(Card {
            comments: mem::replace(&mut self.tail, Remarks::new(alloc)),
            label: label_of(line),
            text: Bytes::from_slice(alloc, &statement_field(line))?,
            place,
        })
    }

    // Goes on with the last statement, which takes the comments behind it.
    fn take_continuation(&mut self, alloc: Global, line: &[u8]) -> Result<(), AllocError>
        ensures { OnOk result (self.new ≡ reading.with_continuation line.now self.old) }
    {
        if let Some(mut card) = self.statements.pop() {
            card.comments.extend(&self.tail)?;
            card.text.extend(&statement_field(line))?;
            self.statements.push(card)?;
            self.tail = Remarks::new(alloc);
        }
        Ok(())
    }

    /// Takes one more line of the file, which has no LF. It fails for want of memory alone.
    pub(crate) fn take_line(
        &mut self,
        alloc: Global,
        place: Place,
        line: &[u8],
    ) -> Result<(), AllocError>
        requires feedless { list_all (λ c. not (c == 10)) line.now ≡ true }
        requires room { self.old.cut < 2 ^ 32 - 1 }
        ensures { OnOk result (self.new ≡ reading.with_line place line.now self.old) }
    {
        if is_comment(line) {
            return self.take_comment(line);
        }
        self.cut += u32::from(is_cut(line));
        if is_initial(line) {
            self.take_initial(alloc, place, line)
        } else {
            self.take_continuation(alloc, line)
        }
    }

    /// Lends the statements (X3.9 section 3) in the order of the file.
    pub fn statements(&self) -> &[Card]
        ensures { result.now ≡ self.now.statements }
    {
        self.statements.as_slice()
    }

    /// Lends the comments (X3.9 section 3.2.1) behind the last line of the last statement, or all where there is none.
    pub fn tail(&self) -> &Remarks
        ensures { result.now ≡ self.now.tail }
    {
        &self.tail
    }

    /// How many lines of statements have something other than a blank after column 72, which isn't read.
    pub fn cut(&self) -> u32
        ensures { result ≡ self.now.cut }
    {
        self.cut
    }
}
