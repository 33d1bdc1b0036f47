// What holds of the types of operands.
ghost use Rattle.implicit_types.specs.TypingLaws.{TypedUnits};
ghost use Rattle.implicit_types.specs.OperandLaws.{OperandsFit, SignsGive, OperatorsGive};

use names77::roles_are_narrowed;

/// Operands of known types fit an operation where the table of operations gives a type for them, and an operator gives that
/// type.
pub fn operands_are_those_of_the_table()
    ensures fit { OperandsFit }
    ensures signs { SignsGive }
    ensures operators { OperatorsGive }
{}

/// In a unit of which nothing is refused each name has a role that everything that is said of it allows, no name is real, and the
/// parts of each statement fit.
pub fn typed_units_have_one_meaning()
    ensures { TypedUnits }
{
    roles_are_narrowed();
}
