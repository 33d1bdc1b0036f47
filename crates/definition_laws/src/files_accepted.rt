// What files are accepted, by the programs that they are the sources of.
ghost use Rattle.definition_laws.specs.AcceptedFiles.{CardsAreSpelled, FilesAreSources};

use program77::sources_are_read;

/// Nothing is refused of a file exactly where it is the source of a program whose statements are all converted, and a card
/// is converted exactly where it spells a statement that is.
pub fn files_are_accepted()
    ensures card { CardsAreSpelled }
    ensures file { FilesAreSources }
{
    sources_are_read();
}
