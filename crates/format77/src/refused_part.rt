// The parts of a format that are refused.
ghost use Rattle.std.specs.Prelude.{◌≡◌, suc};
ghost use Rattle.text_base.specs.Formats.{refused_word};
ghost use Rattle.format77.specs.Views.{lexeme_of};
ghost use Rattle.format77.specs.State.{word_of, words_of, kept_words};

use crate::lexeme::Lexeme;
use text_base::limits::DEEPEST_NESTING;

/// Why a part of a format is refused: it is a descriptor that isn't accepted, or parentheses nest too deep.
#[derive(Clone, Copy, Debug)]
pub enum RefusedPart {
    Edit,
    Depth,
}

impl RefusedPart {
    /// The word that its refusal shows.
    pub fn word(self) -> &'static str
        ensures { result.now ≡ word_of self }
    {
        match self {
            RefusedPart::Edit => "EDIT",
            RefusedPart::Depth => "DEPTH",
        }
    }
}

/// Why a lexeme is refused, where so many groups are open before it.
fn refused_part(groups: usize, lexeme: &Lexeme) -> Option<RefusedPart>
    ensures { words_of result ≡ refused_word (suc groups) (lexeme_of lexeme.now) }
{
    match lexeme {
        Lexeme::Opening(_) => {
            if groups < DEEPEST_NESTING - 1 {
                None
            } else {
                Some(RefusedPart::Depth)
            }
        }
        Lexeme::Colon | Lexeme::Scale | Lexeme::Other => Some(RefusedPart::Edit),
        _ => None,
    }
}

/// The first refused part, behind one more lexeme.
pub fn first_refused(
    before: Option<RefusedPart>,
    groups: usize,
    lexeme: &Lexeme,
) -> Option<RefusedPart>
    ensures { words_of result ≡ kept_words before (refused_word (suc groups) (lexeme_of lexeme.now)) }
{
    match before {
        Some(part) => Some(part),
        None => refused_part(groups, lexeme),
    }
}
