// The symbols of the grammar of expressions.
ghost use Rattle.std.specs.Prelude.{◌≡◌};
ghost use Rattle.group77.specs.Building as machine;
ghost use Rattle.group77.specs.Symbol.{grammar_symbol};

use expr_tree::{BinaryOp, Expr};
use sqlite_items::Items;

/// A symbol of the grammar of expressions (X3.9 section 6): a constant or a name, as its tree; an alternate return specifier
/// (X3.9 section 15.8.3); an operator, which may be a sign; `.NOT.`; or a mark.
#[derive(Drop)]
pub enum Symbol {
    Operand(Expr),
    Alternate,
    Operator(BinaryOp),
    Not,
    Open,
    Close,
    Comma,
    Colon,
}

impl Symbol {
    /// Whether an operand may not stand behind it.
    pub fn ends(&self) -> bool
        ensures { result ≡ machine.ends (grammar_symbol self.now) }
    {
        matches!(self, Symbol::Operand(_) | Symbol::Alternate)
    }
}

/// A list of symbols, which contracts see as the list.
pub type Symbols = Items<Symbol>;
