// The tokens of statements.
use crate::help::statement_of;
use crate::table::rows_of;
use crate::tables::tokens::{BEHIND_A_KEYWORD, NO_TOKENS, TOKENS};
use scan77::{PieceSlice, ScanError, Token, TokenKind, cut};
use std::alloc::{AllocError, Global};
use std::test::Fail;
use text_base::Bytes;

fn letter(kind: TokenKind) -> u8 {
    match kind {
        TokenKind::Run => b'R',
        TokenKind::Digits => b'D',
        TokenKind::Text => b'T',
        TokenKind::Mark => b'M',
    }
}

fn add_token(token: &Token<'_>, out: &mut Bytes) -> Result<(), AllocError> {
    out.push(letter(token.kind))?;
    out.extend(token.text)?;
    out.push(b'|')
}

// The tokens, each as a letter for its kind, its characters and a stroke.
fn rendered(alloc: Global, tokens: &[Token<'_>]) -> Result<Bytes, AllocError> {
    let mut made = Bytes::new(alloc);
    for token in tokens {
        add_token(token, &mut made)?;
    }
    Ok(made)
}

// What is said of the tokens of some pieces.
fn told(alloc: Global, pieces: PieceSlice<'_>) -> Result<Bytes, Fail> {
    let tokens = cut(alloc, pieces)?;
    Ok(rendered(alloc, tokens.as_slice())?)
}

#[test]
fn statements_have_tokens(rt: HostRuntime) -> Result<(), Fail> {
    let alloc = rt.alloc();
    for row in rows_of(alloc, TOKENS, 10, 3)?.iter() {
        let read = statement_of(alloc, row.field(0), row.field(1))?;
        row.check(&rt, 2, told(alloc, read.pieces.all())?.as_slice());
    }
    Ok(())
}

// Whether the pieces have no tokens.
fn is_refused(alloc: Global, pieces: PieceSlice<'_>) -> bool {
    match cut(alloc, pieces) {
        Ok(_tokens) => false,
        Err(ScanError::NoToken) => true,
        Err(ScanError::Memory) => false,
    }
}

#[test]
fn some_statements_have_no_tokens(rt: HostRuntime) -> Result<(), Fail> {
    let alloc = rt.alloc();
    for row in rows_of(alloc, NO_TOKENS, 10, 1)?.iter() {
        let read = statement_of(alloc, b"      ", row.field(0))?;
        assert!(rt; is_refused(alloc, read.pieces.all()), "row {}", row.number);
    }
    Ok(())
}

// What is said of the tokens behind a keyword.
fn told_behind(alloc: Global, statement: &[u8], word: &str) -> Result<Bytes, Fail> {
    let read = statement_of(alloc, b"      ", statement)?;
    let rest = read.pieces.all().behind(word).ok_or("another word")?;
    told(alloc, rest)
}

#[test]
fn a_keyword_is_left_out_before_cutting(rt: HostRuntime) -> Result<(), Fail> {
    let alloc = rt.alloc();
    for row in rows_of(alloc, BEHIND_A_KEYWORD, 3, 3)?.iter() {
        let word = str::from_utf8(row.field(1))?;
        let said = told_behind(alloc, row.field(0), word)?;
        row.check(&rt, 2, said.as_slice());
    }
    Ok(())
}
