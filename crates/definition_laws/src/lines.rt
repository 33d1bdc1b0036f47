// What holds of the lines of a file and their columns.
ghost use Rattle.definition_laws.specs.FileLines.{FieldHasColumns, FieldHasLength, LabelHasColumns, Column6IsSixth, CommentsByColumns, CutByColumns};
ghost use Rattle.definition_laws.specs.FileLines.{LinesAreJoined, LinesHaveNoEnd, JoinedLinesAreCut, ReturnIsLeftOut, OtherIsKept};

/// The statement field of a line is its columns 7 to 72, its label field columns 1 to 5, and comments and cut lines are
/// told by columns.
pub fn columns_are_bytes()
    ensures field { FieldHasColumns }
    ensures length { FieldHasLength }
    ensures label { LabelHasColumns }
    ensures sixth { Column6IsSixth }
    ensures comment { CommentsByColumns }
    ensures cut { CutByColumns }
{}

/// The lines of a file joined again are the file, they have no line ends, and no other lines do both. Of a line a CR at
/// its end is left out, and nothing else.
pub fn a_file_is_its_lines()
    ensures joined { LinesAreJoined }
    ensures plain { LinesHaveNoEnd }
    ensures only { JoinedLinesAreCut }
    ensures without_return { ReturnIsLeftOut }
    ensures other { OtherIsKept }
{}
