// What holds of the comments of a source and of what is written for it.
ghost use Rattle.definition_laws.specs.CommentPlaces.{MarkedIsLine, MarkIsLeftOut, OtherIsBlank, CommentsAreLines, CommentsAreWritable};
ghost use Rattle.definition_laws.specs.CommentPlaces.{SourceCommentsAreAll, WrittenCommentsAreAll, CommentsAreWritten, PositionsAreKept};
ghost use Rattle.definition_laws.specs.CommentPlaces.{PositionsTellEntries, PositionsAreApart, PositionsAscend, CommentsAscend, SourcePositionsAscend, PositionsAreExact};

use project_set::{conversions_do_the_same, written_is_proper};
use tree90::printed_is_read;

/// A comment is its line: a marked one after a byte, any other as it is. It has no line end.
pub fn a_comment_is_its_line()
    ensures marked { MarkedIsLine }
    ensures mark { MarkIsLeftOut }
    ensures blank { OtherIsBlank }
    ensures plain { CommentsAreLines }
    ensures writable { CommentsAreWritable }
{}

/// All comments have positions, in the order of the texts.
pub fn all_comments_have_positions()
    ensures source { SourceCommentsAreAll }
    ensures written { WrittenCommentsAreAll }
    ensures order { CommentsAscend }
    ensures ascend { SourcePositionsAscend }
{}

/// What is written for a source that is converted has the comments of the source, in their order and at their positions.
pub fn written_comments_are_those_of_the_source()
    ensures positions { PositionsAreKept }
    ensures comments { CommentsAreWritten }
{
    conversions_do_the_same();
    written_is_proper();
    printed_is_read();
    all_comments_have_positions();
}

/// The position of a comment tells how many statements that aren't CONTINUE stand before it, whether it stands right after a
/// header, and nothing else.
pub fn positions_tell_entries()
    ensures entries { PositionsTellEntries }
    ensures apart { PositionsAreApart }
    ensures ascend { PositionsAscend }
    ensures exact { PositionsAreExact }
{}
