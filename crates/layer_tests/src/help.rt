// What several tests stand on.
use card_reader::{Deck, read_cards};
use command::{Status, modern};
use scan77::{Pieces, pieces};
use std::alloc::{AllocError, Global};
use std::process::Abort;
use std::test::Fail;
use text_base::{Bytes, MemoryShelf, MemorySink, Place};

/// The text that bytes are, for a message.
pub fn shown(bytes: &[u8]) -> &str {
    str::from_utf8(bytes).unwrap_or("bytes that are no text")
}

/// Ends the test unless the bytes are these.
pub fn check(rt: &impl Abort, said: &[u8], wanted: &[u8]) {
    assert!(rt;
        said == wanted,
        "{:?} in place of {:?}",
        shown(said),
        shown(wanted)
    );
}

// The file of one statement with these columns 1 to 6, on as many lines as it needs.
fn file_of(alloc: Global, head: &[u8], statement: &[u8]) -> Result<Bytes, AllocError> {
    let mut file = Bytes::from_slice(alloc, head)?;
    let mut room = 66u8;
    for byte in statement {
        if room == 0 {
            file.extend(b"\n     1")?;
            room = 66;
        }
        file.push(*byte)?;
        room -= 1;
    }
    file.push(b'\n')?;
    Ok(file)
}

/// The statement of a file that has one: its label, its place and its pieces.
#[derive(Drop)]
pub struct OneStatement {
    pub label: u32,
    pub place: Place,
    pub pieces: Pieces,
}

fn one_statement(alloc: Global, deck: &Deck) -> Result<Option<OneStatement>, AllocError> {
    match deck.statements() {
        [card] => Ok(Some(OneStatement {
            label: card.label,
            place: card.place,
            pieces: pieces(alloc, card)?,
        })),
        _ => Ok(None),
    }
}

/// The statement with these columns 1 to 6 and these characters.
pub fn statement_of(alloc: Global, head: &[u8], text: &[u8]) -> Result<OneStatement, Fail> {
    let file = file_of(alloc, head, text)?;
    let deck = read_cards(alloc, 3, file.as_slice())?;
    Ok(one_statement(alloc, &deck)?.ok_or("not one statement")?)
}

/// The words of a text, each of which ends with a stroke.
pub fn words_of(alloc: Global, text: &[u8]) -> Result<Vec<String>, Fail> {
    let mut words = Vec::new(alloc);
    let mut word = String::new(alloc);
    for byte in text {
        if *byte == b'/' {
            words.push(word)?;
            word = String::new(alloc);
        } else {
            word.push(*byte as char)?;
        }
    }
    Ok(words)
}

/// The parts of a text, each of which ends with a stroke.
pub fn parts_of(alloc: Global, text: &[u8]) -> Result<Vec<Bytes>, AllocError> {
    let mut parts = Vec::new(alloc);
    let mut part = Bytes::new(alloc);
    for byte in text {
        if *byte == b'/' {
            parts.push(part)?;
            part = Bytes::new(alloc);
        } else {
            part.push(*byte)?;
        }
    }
    Ok(parts)
}

/// The bytes that a shelf holds under a name.
pub fn held<'a>(shelf: &'a MemoryShelf, name: &str) -> &'a [u8] {
    match shelf.held(name) {
        Some(bytes) => bytes,
        None => b"no file has this name",
    }
}

/// The outputs of the name o that a shelf holds, each with a stroke behind it.
pub fn outputs(alloc: Global, shelf: &MemoryShelf) -> Result<Bytes, AllocError> {
    let mut said = Bytes::new(alloc);
    for name in ["o", "o.map", "o.report"] {
        if shelf.held(name).is_some() {
            said.extend(name.as_bytes())?;
            said.push(b'/')?;
        }
    }
    Ok(said)
}

/// What the top call answered: its status, what the shelf then held, and what was printed.
#[derive(Drop)]
pub struct TopAnswer {
    pub status: Status,
    pub shelf: MemoryShelf,
    pub out: MemorySink,
}

/// What the top call answers to `one t.f o` where t.f has these bytes and a call of the sink takes so many bytes.
pub fn answered(
    rt: &impl Abort,
    alloc: Global,
    source: &[u8],
    most: usize,
) -> Result<TopAnswer, Fail> {
    assert!(rt; most > 0);
    let words = words_of(alloc, b"one/t.f/o/")?;
    let mut shelf = MemoryShelf::new(alloc);
    shelf.hold("t.f", source)?;
    let mut out = MemorySink::new(alloc, most);
    let status = modern(alloc, &words, &mut shelf, &mut out);
    Ok(TopAnswer { status, shelf, out })
}
