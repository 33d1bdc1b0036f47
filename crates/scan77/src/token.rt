// The tokens of a statement.
use sqlite_items::Items;

/// What a token is: a longest run of letters, digits and underscores that begins with a letter; a longest other run of
/// digits; one kept text, which is a character constant with its apostrophes or the text of an nH; or one of the marks
/// `( ) , = + - * / : .`.
#[derive(Clone, Copy, Debug, PartialEq, Eq)]
pub enum TokenKind {
    Run,
    Digits,
    Text,
    Mark,
}

/// A token: its kind, and its characters, which are lent from the pieces.
#[derive(Clone, Copy, Debug)]
pub struct Token<'a> {
    pub kind: TokenKind,
    pub text: &'a [u8],
}

/// A list of tokens, which contracts see as the list.
pub type Tokens<'a> = Items<Token<'a>>;
