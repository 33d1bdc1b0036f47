// The marks of the characters of pieces.

/// What a character is of: it stands outside kept text, or it is the first or a further one of a kept text, or the first
/// of a character constant that doesn't end.
#[derive(Clone, Copy, Debug, PartialEq, Eq)]
pub enum Mark {
    Plain,
    First,
    Further,
    Open,
}
