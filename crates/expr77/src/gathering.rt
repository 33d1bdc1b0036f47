// Gathers the lexemes of an expression.
ghost use Rattle.std.specs.Prelude.{◌≡◌, ◌+◌, ◌<◌, ◌≤◌, ◌^◌, ◌∷◌, [], ℕ, suc, None, length, IfOk, OnOk, if◌then◌else◌};
ghost use Rattle.std.specs.Option.{option_map};
ghost use Rattle.tree77.specs.Lexemes as plain;
ghost use Rattle.scan77.specs.Token.{tokens_of};
ghost use Rattle.group77.specs.Symbol.{grammar_symbol};
ghost use Rattle.expr77.specs.Gathering.{with_lexemes, nothing_gathered};
ghost use Rattle.expr77.specs.LexemeReading as reading;
ghost use Rattle.expr77.specs.LexemeReading.{lexemes_of};
ghost use Rattle.expr77.specs.Views.{lexeme_of, plain_part, stand_of, gathered_of, gathered_in};

use crate::lexeme::Lexeme;
use crate::lexeme_reading::{Stand, lexeme_here, stand_behind};
use crate::long_name::name_of;
use crate::part::{Part, lower_part, refused_part, small_value};
use expr_tree::Expr;
use group77::{Symbol, Symbols};
use scan77::Token;
use sqlite_items::Items;
use std::alloc::{AllocError, Global};

/// The symbols of an expression, and the lowest part of it that is refused, if one is.
#[derive(Drop)]
pub struct Gathered<'a> {
    pub symbols: Symbols,
    pub lowest: Option<Part<'a>>,
}

/// The integer constant of some digits, 0 where it is too great.
#[tactic(auto, using(expr_tree::proofs::Equations::expr_equations))]
fn integer(digits: &[u8]) -> Symbol
    ensures { grammar_symbol result ≡ plain.symbol_of (plain.integer digits.now) }
{
    match small_value(digits) {
        Some(value) => Symbol::Operand(Expr::Int(value)),
        None => Symbol::Operand(Expr::Int(0)),
    }
}

/// The symbol of a lexeme. A part that is refused has one that may stand in its place.
#[tactic(auto, using(expr_tree::proofs::Equations::expr_equations))]
fn symbol(lexeme: Lexeme<'_>) -> Symbol
    ensures { grammar_symbol result ≡ plain.symbol_of (lexeme_of lexeme.entry) }
{
    match lexeme {
        Lexeme::Integer(digits) => integer(digits),
        Lexeme::Constant => Symbol::Operand(Expr::Int(0)),
        Lexeme::Logical(value) => Symbol::Operand(Expr::Bool(value)),
        Lexeme::Characters(text) => Symbol::Operand(Expr::Text(text)),
        Lexeme::Name(long) => Symbol::Operand(Expr::Name(name_of(long.as_slice()))),
        Lexeme::Alternate => Symbol::Alternate,
        Lexeme::Operator(operator) => Symbol::Operator(operator),
        Lexeme::Not => Symbol::Not,
        Lexeme::Open => Symbol::Open,
        Lexeme::Close => Symbol::Close,
        Lexeme::Comma => Symbol::Comma,
        Lexeme::Colon => Symbol::Colon,
    }
}

/// How many parentheses are open behind a lexeme.
fn depth_behind(depth: usize, lexeme: &Lexeme<'_>) -> usize
    requires { depth + 1 < 2 ^ 64 }
    ensures value { result ≡ plain.depth_behind depth (lexeme_of lexeme.now) }
    ensures bound { result ≤ depth + 1 }
{
    match lexeme {
        Lexeme::Open => depth + 1,
        Lexeme::Close => depth.saturating_sub(1),
        _ => depth,
    }
}

/// The lexemes of an expression that have been read: what is gathered of them, what may stand behind them, how many
/// parentheses are open there, and the tokens that are left.
#[derive(Drop)]
struct Reading<'t, 'a> {
    gathered: Gathered<'a>,
    stand: Stand,
    depth: usize,
    rest: &'t [Token<'a>],
}

impl<'t, 'a> Reading<'t, 'a> {
    /// Appends a lexeme, behind which these tokens are left.
    fn push(&mut self, lexeme: Lexeme<'a>, rest: &'t [Token<'a>]) -> Result<(), AllocError>
        requires { self.old.depth + 1 < 2 ^ 64 }
        ensures gathered { OnOk result (gathered_of self.new.gathered ≡ with_lexemes (gathered_of self.old.gathered) self.old.depth (lexeme_of lexeme.entry ∷ [])) }
        ensures stand { OnOk result (stand_of self.new.stand ≡ reading.stand_behind (lexeme_of lexeme.entry)) }
        ensures depth { OnOk result (self.new.depth ≡ plain.depth_behind self.old.depth (lexeme_of lexeme.entry)) }
        ensures bound { OnOk result (self.new.depth ≤ self.old.depth + 1) }
        ensures rest { OnOk result (tokens_of self.new.rest.now ≡ tokens_of rest.entry.now) }
    {
        let part = refused_part(self.depth, &lexeme);
        self.gathered.lowest = lower_part(self.gathered.lowest, part);
        self.stand = stand_behind(&lexeme);
        self.depth = depth_behind(self.depth, &lexeme);
        self.rest = rest;
        self.gathered.symbols.push(symbol(lexeme))
    }

    /// Reads the next lexeme of the tokens that are left. Whether one stands there.
    fn next(&mut self, alloc: Global) -> Result<bool, AllocError>
        requires some { 0 < length self.old.rest.now }
        requires room { self.old.depth + 1 < 2 ^ 64 }
        ensures read { IfOk result (λ found. (n : ℕ) → gathered_in (suc n) self.old ≡ (if found then gathered_in n self.new else None)) }
        ensures bound { OnOk result (self.new.depth ≤ self.old.depth + 1) }
    {
        let Some((lexeme, rest)) = lexeme_here(alloc, self.stand, self.rest)? else {
            return Ok(false);
        };
        self.push(lexeme, rest)?;
        Ok(true)
    }
}

/// The lexemes of an expression, gathered, where so many parentheses are open before it, and this part is the lowest so far.
/// `None` where the tokens are no lexemes. An error comes only where memory is wanted.
pub fn gather<'a>(
    alloc: Global,
    depth: usize,
    lowest: Option<Part<'a>>,
    tokens: &[Token<'a>],
) -> Result<Option<Gathered<'a>>, AllocError>
    requires { depth + length tokens.now < 2 ^ 64 }
    ensures { IfOk result (λ made. option_map gathered_of made
        ≡ option_map (with_lexemes (nothing_gathered (option_map plain_part lowest.entry)) depth) (lexemes_of (tokens_of tokens.now))) }
{
    let symbols = Items::from_vec(Vec::with_capacity(alloc, tokens.len())?);
    let mut reading = Reading {
        gathered: Gathered { symbols, lowest },
        stand: Stand::Operand,
        depth,
        rest: tokens,
    };
    for _ in 0..tokens.len() {
        if reading.rest.is_empty() {
            return Ok(Some(reading.gathered));
        }
        if !reading.next(alloc)? {
            return Ok(None);
        }
    }
    if reading.rest.is_empty() {
        Ok(Some(reading.gathered))
    } else {
        Ok(None)
    }
}
