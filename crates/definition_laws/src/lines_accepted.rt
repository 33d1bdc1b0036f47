// What lines are accepted, and the statements that they have.
ghost use Rattle.definition_laws.specs.AcceptedLines.{LinesAreAccepted, CardsAreReadable};

/// Nothing is refused of the lines of a file exactly where the file and its lines are short, the columns before the text
/// are filled as they may be, each statement has an initial line and at most 99 continuation lines, and each character can
/// stand where it stands. The statements of such a file have a label of five digits at most, characters from 32 on without
/// 127, and at most 66 for each of 100 lines.
pub fn lines_are_accepted()
    ensures lines { LinesAreAccepted }
    ensures cards { CardsAreReadable }
{}
