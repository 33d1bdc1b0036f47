// What pieces are read as.
use text_base::FormatItems;

/// What pieces are read as: the items of a format, the word for which the first refused part of a format is refused, or no
/// format.
#[derive(Debug, Drop)]
pub enum FormatRead {
    Accepted(FormatItems),
    Refused(&'static str),
    NotSpelled,
}
