// Reads the parts of an outline, each with what is left behind it.
ghost use Rattle.std.specs.Prelude.{◌≡◌, ◌<◌, [], ◌∷◌, true};
ghost use Rattle.std.specs.Option.{option_map};
ghost use Rattle.text_base.specs.Chars.{is_digit, is_name_byte};
ghost use Rattle.tree77.specs.Kinds.{open_after};
ghost use Rattle.scan77.specs.KindReading as reading;
ghost use Rattle.scan77.specs.Outline.{characters_left};

use crate::outline::Outline;
use text_base::chars::{is_digit, is_name_byte, is_upper};

/// What is left behind a character, if it stands here.
fn behind_byte(at: Outline<'_>, byte: u8) -> Option<Outline<'_>>
    ensures { option_map characters_left result ≡ reading.behind_text (byte ∷ []) (characters_left at.entry) }
{
    match at.next() {
        Some((character, more)) => { if character == byte { Some(more) } else { None } }
        None => None,
    }
}

/// What is left behind a word, if it stands here.
pub fn behind_text<'a>(at: Outline<'a>, word: &str) -> Option<Outline<'a>>
    ensures { option_map characters_left result ≡ reading.behind_text word.now (characters_left at.entry) }
{
    let mut rest = at;
    for byte in word.as_bytes() {
        match behind_byte(rest, *byte) {
            Some(more) => rest = more,
            None => return None,
        }
    }
    Some(rest)
}

/// What is left behind all first characters of a name.
fn behind_name_bytes(at: Outline<'_>) -> Outline<'_>
    ensures { characters_left result ≡ reading.behind_all is_name_byte (characters_left at.entry) }
{
    let mut rest = at;
    while let Some((character, more)) = rest.next() {
        if !is_name_byte(character) {
            return rest;
        }
        rest = more;
    }
    rest
}

/// What is left behind all first digits.
fn behind_digits(at: Outline<'_>) -> Outline<'_>
    ensures { characters_left result ≡ reading.behind_all is_digit (characters_left at.entry) }
{
    let mut rest = at;
    while let Some((character, more)) = rest.next() {
        if !is_digit(character) {
            return rest;
        }
        rest = more;
    }
    rest
}

/// What is left behind the longest name, if one stands here.
pub fn behind_name(at: Outline<'_>) -> Option<Outline<'_>>
    ensures { option_map characters_left result ≡ reading.behind_name (characters_left at.entry) }
{
    let (character, more) = at.next()?;
    if is_upper(character) {
        Some(behind_name_bytes(more))
    } else {
        None
    }
}

/// What is left behind the longest number, if one stands here.
pub fn behind_number(at: Outline<'_>) -> Option<Outline<'_>>
    ensures { option_map characters_left result ≡ reading.behind_number (characters_left at.entry) }
{
    let (character, more) = at.next()?;
    if is_digit(character) {
        Some(behind_digits(more))
    } else {
        None
    }
}

/// What is left behind a comma, if one stands here, and all where none does.
pub fn behind_comma(at: Outline<'_>) -> Outline<'_>
    ensures { characters_left result ≡ reading.behind_comma (characters_left at.entry) }
{
    match at.next() {
        Some((b',', more)) => more,
        _ => at,
    }
}

/// What is left behind the parenthesis that closes.
fn behind_close(at: Outline<'_>) -> Option<Outline<'_>>
    ensures { option_map characters_left result ≡ reading.behind_close 0 (characters_left at.entry) }
{
    let mut rest = at;
    let mut depth: usize = 0;
    while let Some((character, more)) = rest.next() {
        if character == b')' && depth == 0 {
            return Some(more);
        }
        depth = open_after(depth, character);
        rest = more;
    }
    None
}

/// How many parentheses are open after one more character.
pub fn open_after(depth: usize, character: u8) -> usize
    requires { depth < 18446744073709551615 }
    ensures { result ≡ open_after depth character }
{
    match character {
        b'(' => depth + 1,
        b')' => depth.saturating_sub(1),
        _ => depth,
    }
}

/// What is left behind a group in parentheses, if one stands here.
pub fn behind_group(at: Outline<'_>) -> Option<Outline<'_>>
    ensures { option_map characters_left result ≡ reading.behind_group (characters_left at.entry) }
{
    match at.next()? {
        (b'(', more) => behind_close(more),
        _ => None,
    }
}

/// Whether a comma stands outside parentheses.
pub fn has_comma(at: Outline<'_>) -> bool
    ensures { result ≡ reading.has_comma 0 (characters_left at.entry) }
{
    let mut rest = at;
    let mut depth: usize = 0;
    while let Some((character, more)) = rest.next() {
        if character == b',' && depth == 0 {
            return true;
        }
        depth = open_after(depth, character);
        rest = more;
    }
    false
}

/// Whether this is the end of the statement.
fn is_end(at: Outline<'_>) -> bool
    ensures { result ≡ reading.is_end (characters_left at.entry) }
{
    at.next().is_none()
}

/// Whether names with commas between them stand here, and last a parenthesis that closes.
fn reads_names(at: Outline<'_>) -> bool
    ensures { result ≡ reading.reads_names true (characters_left at.entry) }
{
    let mut rest = at;
    let mut begin = true;
    while let Some((character, more)) = rest.next() {
        if begin && !is_upper(character) {
            return false;
        }
        if !begin && character == b')' {
            return is_end(more);
        }
        if !begin && character != b',' && !is_name_byte(character) {
            return false;
        }
        begin = !begin && character == b',';
        rest = more;
    }
    false
}

/// Whether nothing or names stand here, and last a parenthesis that closes.
fn reads_dummies(at: Outline<'_>) -> bool
    ensures { result ≡ reading.reads_dummies (characters_left at.entry) }
{
    match at.next() {
        Some((b')', more)) => is_end(more),
        _ => reads_names(at),
    }
}

/// Whether nothing or names in parentheses stand here, and no more.
pub fn reads_dummy_list(at: Outline<'_>) -> bool
    ensures { result ≡ reading.reads_dummy_list (characters_left at.entry) }
{
    match at.next() {
        Some((b'(', more)) => reads_dummies(more),
        _ => false,
    }
}

/// Whether an equals sign stands here.
pub fn reads_equals(at: Outline<'_>) -> bool
    ensures { result ≡ reading.reads_equals (characters_left at.entry) }
{
    matches!(at.next(), Some((b'=', _)))
}
