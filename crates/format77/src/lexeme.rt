// The lexemes of a format.
use text_base::FormatEdit;

/// A lexeme of a format: a descriptor or a text; a mark; or a descriptor that is refused, of which `Scale` is the scale
/// factor (X3.9 section 13.5.7).
#[derive(Debug, Drop)]
pub enum Lexeme {
    Edit(FormatEdit),
    Slash,
    Opening(u16),
    Closing,
    Comma,
    Colon,
    Scale,
    Other,
}
