// Reads expressions from tokens.
ghost use Rattle.std.specs.Prelude.{◌≡◌, ◌+◌, ◌<◌, ◌≤◌, ◌^◌, ◌++◌, ℕ, List, length, map, take, flat_map, Ok, None, IfOk, OnOk, IfSome};
ghost use Rattle.std.specs.Option.{option_map};
ghost use Rattle.text_base.specs.Pieces.{Piece};
ghost use Rattle.text_base.specs.Trees as tree;
ghost use Rattle.text_base.specs.declared.limits.TheConstants.{MOST_SHOWN};
ghost use Rattle.text_base.specs.declared.refusal.Cause.TheVariants.{NotAStatement};
ghost use Rattle.expr_tree.specs.Plain.{expr_of};
ghost use Rattle.tree77.specs.Tokens.{IsCut};
ghost use Rattle.tree77.specs.Lexemes as plain;
ghost use Rattle.tree77.specs.Lexemes.{Lexeme, IsWideExpression, SpellsExpression, IsRefusedExpression};
ghost use Rattle.scan77.specs.Token.{tokens_of};
ghost use Rattle.group77.specs.Building as building;
ghost use Rattle.group77.specs.Symbol.{grammar_symbol};
ghost use Rattle.expr77.specs.Outcome.{expression_of, outcome_of};
ghost use Rattle.expr77.specs.Parsing.{IsReadFrom, IsNotRead, IsRefusal, IsOutcome, Parses, IsTree, IsPart};
ghost use Rattle.expr77.specs.Views.{plain_part};

use crate::gathering::{Gathered, gather};
use crate::laws::{one_expression, outcomes_are_spelled};
use crate::parse_error::ParseError;
use crate::part::{Part, first};
use expr_tree::Expr;
use group77::{BuildError, Symbols, build, grouped_expressions};
use scan77::{Token, one_cut};
use sqlite_items::Items;
use std::alloc::{AllocError, Global};
use text_base::limits::MOST_SHOWN;
use text_base::{Bytes, Cause, Place, Refusal, Refusals};

/// What a reader of a statement knows where an expression begins: how many parentheses are open around it, which count for
/// how deep those in it are nested, and the refused part of the lowest cause so far, if there is one.
#[derive(Clone, Copy)]
pub struct Progress<'a> {
    pub depth: usize,
    pub lowest: Option<Part<'a>>,
}

/// The tree of some symbols. `None` where they are no expression.
fn tree_of(alloc: Global, symbols: Symbols) -> Result<Option<Expr>, AllocError>
    ensures { IfOk result (λ made. option_map expr_of made ≡ building.build (map grammar_symbol symbols)) }
{
    grouped_expressions();
    match build(alloc, symbols) {
        Ok(tree) => Ok(Some(tree)),
        Err(BuildError::NotSpelled) => Ok(None),
        Err(BuildError::Memory) => Err(AllocError),
    }
}

/// The tree of some tokens, and the lowest part of them and of what was before them. `None` where they are no expression.
fn read<'a>(
    alloc: Global,
    before: Progress<'a>,
    tokens: &[Token<'a>],
) -> Result<Option<(Expr, Option<Part<'a>>)>, AllocError>
    requires { before.depth + length tokens.now < 2 ^ 64 }
    ensures { IfOk result (λ made. option_map (λ p. (expr_of p.0, option_map plain_part p.1)) made
        ≡ expression_of before.entry.depth (option_map plain_part before.entry.lowest) (tokens_of tokens.now)) }
{
    let Some(gathered) = gather(alloc, before.depth, before.lowest, tokens)? else {
        return Ok(None);
    };
    let Gathered { symbols, lowest } = gathered;
    match tree_of(alloc, symbols)? {
        Some(tree) => Ok(Some((tree, lowest))),
        None => Ok(None),
    }
}

/// Reads exactly one expression from all the tokens (X3.9 section 6), which stands in a statement.
///
/// In: what is known where it begins, and its tokens, as those that `cut` gives: `found` and `none` speak of tokens that some
/// pieces are cut into, `read` of any tokens. The open parentheses and the tokens together are fewer than 2 ^ 64, so that they can be counted.
///
/// Out: the tree, where the tokens are an expression in which each refused part stands for one that may stand in its place,
/// and then `progress` has the lowest part so far, those of the expression among them; or `None`, exactly where they are no
/// such expression. An error comes only where memory is wanted, and may come in place of either. After `None` and after an
/// error `progress` is unchanged; its depth always is.
pub fn read_expr<'a>(
    alloc: Global,
    progress: &mut Progress<'a>,
    tokens: &[Token<'a>],
) -> Result<Option<Expr>, AllocError>
    requires { progress.old.depth + length tokens.now < 2 ^ 64 }
    ensures read { IfOk result (λ made. option_map (λ x. (expr_of x, option_map plain_part progress.new.lowest)) made
        ≡ expression_of progress.old.depth (option_map plain_part progress.old.lowest) (tokens_of tokens.now)) }
    ensures found { (pieces : List Piece) → IsCut pieces (tokens_of tokens.now)
        → IfOk result (λ made. IfSome made (λ x. IsReadFrom progress.old.depth (option_map plain_part progress.old.lowest) pieces (expr_of x) (option_map plain_part progress.new.lowest))) }
    ensures none { (pieces : List Piece) → IsCut pieces (tokens_of tokens.now) → result ≡ Ok None → (lexemes : List Lexeme) (x : tree.Expr) → IsWideExpression pieces lexemes x → ⊥ }
    ensures unchanged { IsNotRead result → progress.new ≡ progress.old }
    ensures depth { progress.new.depth ≡ progress.old.depth }
{
    one_cut();
    grouped_expressions();
    let Some((tree, lowest)) = read(alloc, *progress, tokens)? else {
        return Ok(None);
    };
    progress.lowest = lowest;
    Ok(Some(tree))
}

/// Appends characters, up to those that a refusal shows.
#[tactic(auto, using(crate::proofs::FirstCharacters::take_on))]
fn add_first(made: &mut Bytes, text: &[u8]) -> Result<(), AllocError>
    ensures { OnOk result ((before : List ℕ) → made.old ≡ take MOST_SHOWN before → made.new ≡ take MOST_SHOWN (before ++ text.now)) }
{
    let left = MOST_SHOWN.saturating_sub(made.as_slice().len());
    made.extend(first(text, left))?;
    Ok(())
}

/// The first characters of tokens, as many as a refusal shows.
fn first_characters(alloc: Global, tokens: &[Token<'_>]) -> Result<Bytes, AllocError>
    ensures { IfOk result (λ made. made ≡ take MOST_SHOWN (flat_map (λ t. t.text) (tokens_of tokens.now))) }
{
    let mut made = Bytes::new(alloc);
    for token in tokens {
        add_first(&mut made, token.text)?;
    }
    Ok(made)
}

/// One refusal.
fn refusal(alloc: Global, place: Place, cause: Cause, name: Bytes) -> Result<Refusals, AllocError>
    ensures { IfOk result (λ made. IsRefusal place made (record { cause = cause; shown = name })) }
{
    let mut refusals = Items::new(alloc);
    refusals.push(Refusal { place, cause, name })?;
    Ok(refusals)
}

/// The refusal of tokens that are no expression.
fn not_spelled(alloc: Global, place: Place, tokens: &[Token<'_>]) -> Result<Refusals, AllocError>
    ensures { IfOk result (λ made. IsRefusal place made (record { cause = NotAStatement; shown = take MOST_SHOWN (flat_map (λ t. t.text) (tokens_of tokens.now)) })) }
{
    let name = first_characters(alloc, tokens)?;
    refusal(alloc, place, Cause::NotAStatement, name)
}

/// The refusal of a part.
fn part_refused(alloc: Global, place: Place, part: Part<'_>) -> Result<Refusals, AllocError>
    ensures { IfOk result (λ made. IsRefusal place made (plain_part part.entry)) }
{
    let name = Bytes::from_slice(alloc, part.shown)?;
    refusal(alloc, place, part.cause, name)
}

/// The outcome of the tokens as a whole expression.
fn outcome(alloc: Global, place: Place, tokens: &[Token<'_>]) -> Result<Expr, ParseError>
    ensures { IsOutcome place (outcome_of (tokens_of tokens.now)) result }
{
    let start = Progress {
        depth: 0,
        lowest: None,
    };
    let Some((tree, lowest)) = read(alloc, start, tokens)? else {
        return Err(ParseError::Refused(not_spelled(alloc, place, tokens)?));
    };
    match lowest {
        None => Ok(tree),
        Some(part) => Err(ParseError::Refused(part_refused(alloc, place, part)?)),
    }
}

/// Reads exactly one expression from all the tokens (X3.9 section 6).
///
/// In: the place of a statement, and the tokens of it or of a part of it, as those that `cut` gives: the clauses speak of
/// tokens that some pieces are cut into.
///
/// Out: the tree, exactly where the tokens spell an expression of which no part is refused; or else `Refused`, with one
/// refusal at the place: `NotAStatement` where the tokens spell no expression, even where a part that is refused may stand in
/// it (the name is the first 12 characters of the tokens), else the part of the lowest cause that stands in them, among equal
/// ones the first: `Unsupported` (CONSTANT for a real, complex or Hollerith constant, RETURN for an alternate return
/// specifier, DEPTH for more than 200 nested parentheses), `ConstantRange` (the first 12 digits) or `NameTooLong` (the first
/// 31 characters). `Memory`, where memory is wanted, may come in place of either.
pub fn parse_expr(alloc: Global, place: Place, tokens: &[Token<'_>]) -> Result<Expr, ParseError>
    ensures found { (pieces : List Piece) → IsCut pieces (tokens_of tokens.now) → Parses place pieces result }
    ensures spelled { (pieces : List Piece) (x : tree.Expr) → IsCut pieces (tokens_of tokens.now) → SpellsExpression pieces x → IsTree x result }
    ensures refused { (pieces : List Piece) (p : plain.Part) → IsCut pieces (tokens_of tokens.now) → IsRefusedExpression pieces p → IsPart place p result }
{
    one_expression();
    outcomes_are_spelled();
    outcome(alloc, place, tokens)
}
