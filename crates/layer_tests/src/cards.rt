// The statements, the comments and the refusals of lines of a file.
use crate::help::check;
use crate::table::{Row, rows_of};
use crate::tables::cards::{COMMENTS, REFUSALS, STATEMENTS};
use card_reader::{Card, CardsError, Deck, Scan, read_cards};
use std::alloc::{AllocError, Global};
use std::process::Abort;
use std::test::Fail;
use text_base::{Bytes, Place, Refusal, Refusals};

// The characters of a card, kept text between < and >, without the blanks at its end.
fn add_characters(alloc: Global, card: &Card, out: &mut Bytes) -> Result<(), AllocError> {
    let text = card.text.as_slice();
    let mut rendered = Bytes::new(alloc);
    let mut open = false;
    let mut scan = Scan::start(card.label);
    for byte in text {
        if open != (scan.mark(*byte) == 1) {
            rendered.push(if open { b'>' } else { b'<' })?;
            open = !open;
        }
        rendered.push(*byte)?;
        scan = scan.after(*byte);
    }
    if open {
        rendered.push(b'>')?;
    }
    out.extend(rendered.as_slice().trim_ascii_end())
}

// The cards, each as its label, a colon, its characters and a stroke.
fn rendered(alloc: Global, cards: &[Card]) -> Result<Bytes, AllocError> {
    let mut texts = Bytes::new(alloc);
    for card in cards {
        let label = card.label;
        texts.extend(format!(in alloc; "{label}:")?.as_bytes())?;
        add_characters(alloc, card, &mut texts)?;
        texts.push(b'|')?;
    }
    Ok(texts)
}

// Where something stands: its line, and before it the file, where it is another than file 7.
fn add_place(alloc: Global, place: Place, out: &mut Bytes) -> Result<(), AllocError> {
    let Place { file, line } = place;
    let text = if file == 7 {
        format!(in alloc; "{line}")?
    } else {
        format!(in alloc; "file {file} {line}")?
    };
    out.extend(text.as_bytes())
}

// The places of the cards, with a blank between two.
fn places(alloc: Global, cards: &[Card]) -> Result<Bytes, AllocError> {
    let mut texts = Bytes::new(alloc);
    for card in cards {
        if !texts.as_slice().is_empty() {
            texts.push(b' ')?;
        }
        add_place(alloc, card.place, &mut texts)?;
    }
    Ok(texts)
}

fn check_statements(rt: &impl Abort, alloc: Global, row: &Row) -> Result<(), Fail> {
    let deck = read_cards(alloc, 7, row.field(0))?;
    row.check(rt, 1, rendered(alloc, deck.statements())?.as_slice());
    row.check(rt, 2, places(alloc, deck.statements())?.as_slice());
    Ok(())
}

#[test]
fn statements_are_read(rt: HostRuntime) -> Result<(), Fail> {
    for row in rows_of(rt.alloc(), STATEMENTS, 20, 3)?.iter() {
        check_statements(&rt, rt.alloc(), row)?;
    }
    Ok(())
}

// The comments as they are written, a stroke behind those of each statement.
fn remarked(alloc: Global, deck: &Deck) -> Result<Bytes, AllocError> {
    let mut made = Bytes::new(alloc);
    for card in deck.statements() {
        made.extend(card.comments.as_slice())?;
        made.push(b'|')?;
    }
    made.extend(deck.tail().as_slice())?;
    Ok(made)
}

fn check_comments(rt: &impl Abort, alloc: Global, row: &Row) -> Result<(), Fail> {
    let deck = read_cards(alloc, 7, row.field(0))?;
    row.check(rt, 1, remarked(alloc, &deck)?.as_slice());
    assert_eq!(rt; deck.cut() as u64, row.number_at(2), "row {}", row.number);
    Ok(())
}

#[test]
fn comments_are_read(rt: HostRuntime) -> Result<(), Fail> {
    for row in rows_of(rt.alloc(), COMMENTS, 9, 3)?.iter() {
        check_comments(&rt, rt.alloc(), row)?;
    }
    Ok(())
}

fn refusals_of(answer: Result<Deck, CardsError>) -> Option<Refusals> {
    match answer {
        Ok(_deck) => None,
        Err(CardsError::Refused(refusals)) => Some(refusals),
        Err(CardsError::Memory) => None,
    }
}

// The refusals, each with its place, the text of its cause, its name and a stroke.
fn refused(alloc: Global, refusals: &[Refusal]) -> Result<Bytes, AllocError> {
    let mut texts = Bytes::new(alloc);
    for refusal in refusals {
        add_place(alloc, refusal.place, &mut texts)?;
        texts.push(b' ')?;
        texts.extend(refusal.cause.text().as_bytes())?;
        texts.push(b' ')?;
        texts.extend(refusal.name.as_slice())?;
        texts.push(b'|')?;
    }
    Ok(texts)
}

// What is refused of the lines of file 7.
fn refused_lines(alloc: Global, file: &[u8]) -> Result<Bytes, Fail> {
    let refusals = refusals_of(read_cards(alloc, 7, file)).ok_or("not refused")?;
    Ok(refused(alloc, refusals.as_slice())?)
}

#[test]
fn lines_are_refused(rt: HostRuntime) -> Result<(), Fail> {
    let alloc = rt.alloc();
    for row in rows_of(alloc, REFUSALS, 16, 2)?.iter() {
        row.check(&rt, 1, refused_lines(alloc, row.field(0))?.as_slice());
    }
    Ok(())
}

#[test]
fn a_large_file_is_no_deck(rt: HostRuntime) -> Result<(), Fail> {
    let alloc = rt.alloc();
    let bytes = vec![in alloc; b'C'; 16777217]?;
    let said = refused_lines(alloc, &bytes)?;
    check(&rt, said.as_slice(), b"0 FileTooLarge 16777217|");
    Ok(())
}
