// What is left to be read of a statement.
ghost use Rattle.std.specs.Prelude.{◌≡◌, ◌<◌, ◌≤◌, ◌+◌, ◌^◌, ◌∷◌, [], length, pos, Some, None, IsTrue, ◌↔◌, IfOk, if◌then◌else◌};
ghost use Rattle.std.specs.Option.{option_map};
ghost use Rattle.text_base.specs.FormatPlain.{format_items};
ghost use Rattle.text_base.specs.declared.limits.TheConstants.{LONGEST_NAME};
ghost use Rattle.text_base.specs.declared.refusal.Cause.TheVariants.{Unsupported};
ghost use Rattle.expr_tree.specs.Plain.{expr_of};
ghost use Rattle.tree77.specs.Lexemes as lexeme;
ghost use Rattle.scan77.specs.Token.{tokens_of};
ghost use Rattle.expr77.specs.Outcome.{expression_of};
ghost use Rattle.expr77.specs.Views.{plain_part, plain_parts};
ghost use Rattle.forms77.specs.Look.{look_of};
ghost use Rattle.tree77.specs.Forms as forms;
ghost use Rattle.forms77.specs.Reading as form;
ghost use Rattle.forms77.specs.Views.{Gives, Ends};

use crate::Stop;
use crate::look::{Look, is_ahead};
use crate::parts::{label_number, value_or_0};
use crate::tokens::{has_star, is_one_of, kept_here, next_sort, split};
use expr_tree::Expr;
use expr77::{
    Part, Progress, behind_mark, deep_parenthesis, digits_here, great_number, is_label, is_word,
    lower_part, name_of, name_too_long, quoted_text, read_expr, run_here, unsupported,
};
use format77::{FormatRead, read_format_text};
use scan77::Token;
use sqlite_items::Items;
use std::alloc::{AllocError, Global};
use std::marker::Model;
use text_base::{Bytes, FormatItems, Name};

/// The tokens that are left of a statement, how many parentheses are open, and the lowest refused part so far.
#[derive(Drop)]
pub struct Feed<'t, 'a> {
    tokens: &'t [Token<'a>],
    depth: usize,
    lowest: Option<Part<'a>>,
}

impl<'t, 'a> Model for Feed<'t, 'a> {
    ghost use Rattle.std.specs.Prelude.{◌<◌, ◌+◌, ◌^◌, length};
    ghost use Rattle.forms77.specs.Reading.{State};
    ghost use Rattle.forms77.specs.Views.{state_of};

    ghost Value = { State };

    ghost view = { λ feed. state_of feed.tokens.now feed.depth feed.lowest };

    ghost invariant = { λ feed. feed.depth + length feed.tokens.now < 2 ^ 64 };
}

/// The tree of some tokens, and the lowest part of them and of what was before them. `None` where they are no expression.
fn expression<'a>(
    alloc: Global,
    depth: usize,
    lowest: Option<Part<'a>>,
    tokens: &[Token<'a>],
) -> Result<Option<(Expr, Option<Part<'a>>)>, AllocError>
    requires { depth + length tokens.now < 2 ^ 64 }
    ensures { IfOk result (λ made. option_map (λ p. (expr_of p.0, option_map plain_part p.1)) made ≡ expression_of depth (option_map plain_part lowest.entry) (tokens_of tokens.now)) }
{
    let mut progress = Progress { depth, lowest };
    match read_expr(alloc, &mut progress, tokens)? {
        Some(tree) => Ok(Some((tree, progress.lowest))),
        None => Ok(None),
    }
}

impl<'t, 'a> Feed<'t, 'a> {
    /// All tokens are left.
    pub fn new(tokens: &'t [Token<'a>]) -> Feed<'t, 'a>
        ensures { result ≡ record { tokens = tokens_of tokens.now; depth = 0; lowest = None } }
    {
        Feed {
            tokens,
            depth: 0,
            lowest: None,
        }
    }

    /// These tokens are left.
    fn leave(&mut self, rest: &'t [Token<'a>])
        requires { self.old.depth + length rest.now < 2 ^ 64 }
        ensures { self.new ≡ form.with_tokens self.old (tokens_of rest.entry.now) }
    {
        self.tokens = rest;
    }

    /// Takes a mark. `NotSpelled` where it doesn't stand next.
    pub fn mark(&mut self, mark: u8) -> Result<(), Stop>
        ensures { Gives (λ x. x) result self.new (form.read_mark mark self.old) }
    {
        match behind_mark(mark, self.tokens) {
            Some(rest) => {
                self.leave(rest);
                Ok(())
            }
            None => Err(Stop::NotSpelled),
        }
    }

    /// Takes a mark if it stands next, and says whether it did.
    pub fn take(&mut self, mark: u8) -> bool
        ensures { form.Taken mark self.old result self.new }
    {
        match behind_mark(mark, self.tokens) {
            Some(rest) => {
                self.leave(rest);
                true
            }
            None => false,
        }
    }

    /// Takes a word, which is a whole run. `NotSpelled` where it doesn't stand next.
    pub fn word(&mut self, word: &str) -> Result<(), Stop>
        ensures { Gives (λ x. x) result self.new (form.read_word word.now self.old) }
    {
        let Some((text, rest)) = run_here(self.tokens) else {
            return Err(Stop::NotSpelled);
        };
        if text != word.as_bytes() {
            return Err(Stop::NotSpelled);
        }
        self.leave(rest);
        Ok(())
    }

    /// Takes a name, of which the first 31 characters are kept. One that is longer is noted as `NameTooLong`. `NotSpelled` where no
    /// name stands next.
    pub fn name(&mut self) -> Result<Name, Stop>
        ensures { Gives (λ x. x) result self.new (form.read_name self.old) }
    {
        let Some((text, rest)) = run_here(self.tokens) else {
            return Err(Stop::NotSpelled);
        };
        if !is_word(text) {
            return Err(Stop::NotSpelled);
        }
        self.keep(name_too_long(text));
        self.leave(rest);
        Ok(name_of(text))
    }

    /// Takes a label (X3.9 section 3.4). `NotSpelled` where none stands next: one to five digits, not all 0.
    pub fn label(&mut self) -> Result<u32, Stop>
        ensures { Gives (λ x. x) result self.new (form.read_label self.old) }
    {
        let Some((digits, rest)) = digits_here(self.tokens) else {
            return Err(Stop::NotSpelled);
        };
        if !is_label(digits) {
            return Err(Stop::NotSpelled);
        }
        self.leave(rest);
        Ok(label_number(digits))
    }

    /// Takes digits as they are written. `NotSpelled` where none stand next.
    pub fn numeral(&mut self) -> Result<&'a [u8], Stop>
        ensures { Gives (λ x. x.now) result self.new (form.read_numeral self.old) }
    {
        let Some((digits, rest)) = digits_here(self.tokens) else {
            return Err(Stop::NotSpelled);
        };
        self.leave(rest);
        Ok(digits)
    }

    /// Takes an integer constant of any length; 0 stands for one that is too great, which is refused. `NotSpelled` where none
    /// stands next.
    pub fn number(&mut self) -> Result<i32, Stop>
        ensures { Gives (λ x. x) result self.new (form.read_integer self.old) }
    {
        let Some((digits, rest)) = digits_here(self.tokens) else {
            return Err(Stop::NotSpelled);
        };
        self.keep(great_number(digits));
        self.leave(rest);
        Ok(value_or_0(digits))
    }

    /// Takes a character constant that is a format (X3.9 section 13.1.2): its characters, and its items; no items where a part of
    /// it is refused. `NotSpelled` where no such constant stands next; `Memory` where memory is wanted.
    pub fn format_text(&mut self, alloc: Global) -> Result<(Bytes, FormatItems), Stop>
        ensures { Gives (λ r. (r.0, format_items r.1)) result self.new (form.read_format_text self.old) }
    {
        let Some((text, rest)) = kept_here(self.tokens) else {
            return Err(Stop::NotSpelled);
        };
        let Some(characters) = quoted_text(alloc, text)? else {
            return Err(Stop::NotSpelled);
        };
        match read_format_text(alloc, characters.as_slice())? {
            FormatRead::Accepted(items) => {
                self.leave(rest);
                Ok((characters, items))
            }
            FormatRead::Refused(word) => {
                self.leave(rest);
                self.refuse(word);
                Ok((characters, Items::new(alloc)))
            }
            FormatRead::NotSpelled => Err(Stop::NotSpelled),
        }
    }

    /// Takes an expression, up to the first of some marks outside parentheses or the end. `strict`: no argument of it is `*label`.
    /// `NotSpelled` where what stands there is no such expression; `Memory` where memory is wanted.
    #[tactic(auto, unfolding(crate::specs::Reading::read_portion))]
    pub fn portion(&mut self, alloc: Global, strict: bool, marks: &str) -> Result<Expr, Stop>
        ensures { Gives expr_of result self.new (form.read_portion strict marks.now self.old) }
    {
        let Some((front, rest)) = split(marks, self.tokens) else {
            return Err(Stop::NotSpelled);
        };
        if strict && has_star(front) {
            return Err(Stop::NotSpelled);
        }
        let Some((tree, lowest)) = expression(alloc, self.depth, self.lowest, front)? else {
            return Err(Stop::NotSpelled);
        };
        self.lowest = lowest;
        self.leave(rest);
        Ok(tree)
    }

    /// Takes a parenthesis that opens. One inside 200 others is noted as DEPTH. `NotSpelled` where none stands next.
    pub fn open(&mut self) -> Result<(), Stop>
        ensures { Gives (λ x. x) result self.new (form.read_open self.old) }
    {
        let Some(rest) = behind_mark(b'(', self.tokens) else {
            return Err(Stop::NotSpelled);
        };
        self.keep(deep_parenthesis(self.depth));
        self.leave(rest);
        self.depth += 1;
        Ok(())
    }

    /// Takes a parenthesis that closes. `NotSpelled` where none stands next.
    pub fn close(&mut self) -> Result<(), Stop>
        ensures { Gives (λ x. x) result self.new (form.read_close self.old) }
    {
        let Some(rest) = behind_mark(b')', self.tokens) else {
            return Err(Stop::NotSpelled);
        };
        self.leave(rest);
        self.depth = self.depth.saturating_sub(1);
        Ok(())
    }

    /// Takes note of a part that is refused, if it is one.
    fn keep(&mut self, part: Option<Part<'a>>)
        ensures { self.new ≡ form.with_parts self.old (plain_parts part.entry) }
    {
        self.lowest = lower_part(self.lowest, part);
    }

    /// Takes note of a form that is refused.
    pub fn refuse(&mut self, word: &'static str)
        ensures { self.new ≡ form.with_parts self.old (record { cause = Unsupported; shown = word.entry.now } ∷ []) }
    {
        self.keep(unsupported(word));
    }

    /// Takes the lowest refused part so far away, so that a form can be judged as a whole.
    pub fn hold(&mut self) -> Option<Part<'a>>
        ensures held { option_map plain_part result ≡ form.lowest_of self.old }
        ensures left { self.new ≡ form.without_parts self.old }
    {
        let held = self.lowest;
        self.lowest = None;
        held
    }

    /// Gives back what was held, with the refused part that the form is as a whole before those in it.
    pub fn release(&mut self, held: Option<Part<'a>>, whole: Option<Part<'a>>)
        ensures { self.new ≡ form.with_whole (option_map plain_part held.entry) (plain_parts whole.entry) self.old }
    {
        self.lowest = lower_part(lower_part(held, whole), self.lowest);
    }

    /// The sort of what stands next: `A` for letters, `0` for digits, `'` for kept text, and marks; 0 is the end.
    pub fn next(&self) -> u8
        ensures { result ≡ form.sort_at self.now }
    {
        next_sort(self.tokens)
    }

    /// How many tokens are left.
    pub fn len(&self) -> usize
        ensures { result ≡ form.size_of self.now }
    {
        self.tokens.len()
    }

    /// Whether one of these sorts stands next.
    pub fn is_at(&self, sorts: &str) -> bool
        ensures { result ≡ forms.is_in sorts.now (form.sort_at self.now) }
    {
        is_one_of(sorts, self.next())
    }

    /// Whether what is looked for stands next.
    pub fn is_ahead(&self, look: Look<'_>) -> bool
        ensures { result ≡ form.look_at (look_of look.entry) self.now }
    {
        is_ahead(look, self.tokens)
    }

    /// Ends the reading: nothing is left. The lowest refused part. `NotSpelled` where something is left.
    pub fn finish(self) -> Result<Option<Part<'a>>, Stop>
        ensures { Ends self.entry result }
    {
        match self.tokens {
            [] => Ok(self.lowest),
            _ => Err(Stop::NotSpelled),
        }
    }
}
