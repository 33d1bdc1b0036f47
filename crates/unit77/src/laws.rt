// The laws of nesting, as contracts.
ghost use Rattle.unit77.specs.Laws.{NestsOrNot, OneNesting, OneProgram, ProgramOrNot, StatementsStand};
ghost use Rattle.unit77.specs.OwnLists.{OwnLists};

/// Statements have at most one nesting.
pub fn one_nesting()
    ensures { OneNesting }
{}

/// Nothing is refused exactly where the statements nest.
pub fn nests_or_not()
    ensures { NestsOrNot }
{}

/// A DO is refused for lacking its terminal statement exactly where it has none in its own list (X3.9 section 11.10).
pub fn own_lists()
    ensures { OwnLists }
{}

/// The statements of a file are those of at most one list of units.
pub fn one_program()
    ensures { OneProgram }
{}

/// Nothing is refused of a file exactly where its statements are the units of some program.
pub fn program_or_not()
    ensures { ProgramOrNot }
{}

/// The statements of the units of a file, in order, are those of the file.
pub fn statements_stand()
    ensures { StatementsStand }
{}
