// Reads the lexemes of a format, one after another.
ghost use Rattle.std.specs.Prelude.{◌≡◌, List, Option};
ghost use Rattle.text_base.specs.Formats.{FormatLexeme};
ghost use Rattle.format77.specs.State.{Steps, Ends, outcome_at, outcome_start};

use crate::before::Before;
use crate::build_error::BuildError;
use crate::builder::Builder;
use crate::format_read::FormatRead;
use crate::lexeme::Lexeme;
use crate::refused_part::{RefusedPart, first_refused};
use std::alloc::Global;

/// A format as far as its lexemes have been read: its tree, what the last lexeme says of the next, and the first refused part.
#[derive(Drop)]
pub struct Progress {
    builder: Builder,
    before: Before,
    refused: Option<RefusedPart>,
}

impl Progress {
    /// Behind the first parenthesis.
    pub fn new(alloc: Global) -> Progress
        ensures { (lexemes : Option (List FormatLexeme)) → outcome_at result lexemes ≡ outcome_start lexemes }
    {
        Progress {
            builder: Builder::new(alloc),
            before: Before {
                ends_item: false,
                is_free: false,
            },
            refused: None,
        }
    }

    /// Behind one more lexeme.
    pub fn take(self, alloc: Global, lexeme: Lexeme) -> Result<Progress, BuildError>
        ensures { Steps self lexeme result }
    {
        let Progress {
            builder,
            before,
            refused,
        } = self;
        if !before.may_precede(&lexeme) {
            return Err(BuildError::NotSpelled);
        }
        let refused = first_refused(refused, builder.groups(), &lexeme);
        let before = Before::of(&lexeme);
        let builder = builder.take(alloc, lexeme)?;
        Ok(Progress {
            builder,
            before,
            refused,
        })
    }

    /// What has been read, before the last parenthesis.
    pub fn finish(self) -> Result<FormatRead, BuildError>
        ensures { Ends self result }
    {
        let Progress {
            builder,
            before,
            refused,
        } = self;
        if !before.ends_item {
            return Err(BuildError::NotSpelled);
        }
        let items = builder.finish()?;
        match refused {
            None => Ok(FormatRead::Accepted(items)),
            Some(part) => Ok(FormatRead::Refused(part.word())),
        }
    }
}
