// Statements and expressions, and what they spell.
ghost use Rattle.tree77.specs.Lexemes.{SpellsExpression, IsRefusedExpression};
ghost use Rattle.worked_examples.specs.Tables.{Holds};
ghost use Rattle.worked_examples.specs.Statements.{statements, refused_statements, Spells, IsRefusedWith};
ghost use Rattle.worked_examples.specs.Expressions.{expressions, refused_expressions};

use expr77::outcomes_are_spelled;
use parse77::statements_are_spelled;
use scan77::one_cut;

/// Each of these spells its statement, and each of those is refused with its part.
pub fn spelled_statements()
    ensures some { Holds Spells statements }
    ensures refused { Holds IsRefusedWith refused_statements }
{
    statements_are_spelled();
}

/// Each of these spells its expression, and each of those is refused with its part.
pub fn spelled_expressions()
    ensures some { Holds SpellsExpression expressions }
    ensures refused { Holds IsRefusedExpression refused_expressions }
{
    one_cut();
    outcomes_are_spelled();
}
