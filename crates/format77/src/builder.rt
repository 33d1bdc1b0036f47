// Builds the tree of a format from its lexemes.
ghost use Rattle.std.specs.Prelude.{◌≡◌, suc, [], List, length, IfOk};
ghost use Rattle.text_base.specs.Formats.{FormatLexeme, depth_behind};
ghost use Rattle.format77.specs.Reading.{build_from};
ghost use Rattle.format77.specs.Views.{Takes, Gives, built_from, lexeme_of};

use crate::build_error::BuildError;
use crate::lexeme::Lexeme;
use sqlite_items::Items;
use std::alloc::Global;
use text_base::{FormatItem, FormatItems};

/// An open group: how often it stands, and the items before it.
#[derive(Drop)]
struct Level {
    count: u16,
    before: FormatItems,
}

/// The open groups, the innermost last, and the items behind the last.
#[derive(Drop)]
pub struct Builder {
    levels: Items<Level>,
    items: FormatItems,
}

impl Builder {
    /// No group is open, and no lexeme has been taken.
    pub fn new(alloc: Global) -> Builder
        ensures built { (rest : List FormatLexeme) → built_from result rest ≡ build_from [] [] rest }
        ensures groups { result.levels ≡ [] }
    {
        Builder {
            levels: Items::new(alloc),
            items: Items::new(alloc),
        }
    }

    /// How many groups are open.
    pub fn groups(&self) -> usize
        ensures { result ≡ length self.now.levels }
    {
        self.levels.len()
    }

    /// The items of the lexemes that were taken; or `NotSpelled`, where a group is open.
    pub fn finish(self) -> Result<FormatItems, BuildError>
        ensures { Gives result (built_from self []) }
    {
        let Builder { mut levels, items } = self;
        match levels.pop() {
            None => Ok(items),
            Some(_) => Err(BuildError::NotSpelled),
        }
    }

    /// The builder behind one more lexeme.
    #[tactic(auto, using(text_base::proofs::FormatEquations::format_equations))]
    pub fn take(self, alloc: Global, lexeme: Lexeme) -> Result<Builder, BuildError>
        ensures taken { Takes self lexeme result }
        ensures groups { IfOk result (λ after. suc (length after.levels) ≡ depth_behind (suc (length self.levels)) (lexeme_of lexeme)) }
    {
        let Builder {
            mut levels,
            mut items,
        } = self;
        match lexeme {
            Lexeme::Edit(edit) => items.push(FormatItem::Edit(edit))?,
            Lexeme::Slash | Lexeme::Colon | Lexeme::Scale | Lexeme::Other => {
                items.push(FormatItem::RecordEnd)?
            }
            Lexeme::Comma => {}
            Lexeme::Opening(count) => {
                levels.push(Level {
                    count,
                    before: items,
                })?;
                items = Items::new(alloc);
            }
            Lexeme::Closing => match levels.pop() {
                Some(Level { count, mut before }) => {
                    before.push(FormatItem::Group(count, items))?;
                    items = before;
                }
                None => return Err(BuildError::NotSpelled),
            },
        }
        Ok(Builder { levels, items })
    }
}
