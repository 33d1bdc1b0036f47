// What holds of the variables of a FORTRAN 77 program, their places in the store and their lines of the map.
ghost use Rattle.definition_laws.specs.Storage.{SourcesAreNamed, VariablesAreNames, NamesAreOfStatements, VariablesInOrder, ObjectIsRead, OtherObjectsAreKept};
ghost use Rattle.definition_laws.specs.Storage.{VariablesHaveEntities, EntitiesAreVariables, PlacesAreApart, PlacesAreWithin, PlacesAreAll};
ghost use Rattle.definition_laws.specs.Storage.{DefinedIsRead, OtherTypesAreNotRead, OthersAreKept, LengthIsKept, StartIsUndefined, NothingIsDefined, LinesAreVariables, LinesAreAsMany};

use project_set::sources_are_typed;

/// The variables of each source that is converted are the names of its statements that don't stand before parentheses, each once, as
/// they appear.
pub fn variables_are_names()
    ensures sources { SourcesAreNamed }
    ensures names { VariablesAreNames }
    ensures statements { NamesAreOfStatements }
    ensures order { VariablesInOrder }
{
    sources_are_typed();
}

/// Each variable of a unit has exactly one entity, where they are so named, and there are no other entities. Different ones have
/// different places, which are those of the store.
pub fn each_variable_has_a_place()
    ensures entity { VariablesHaveEntities }
    ensures variable { EntitiesAreVariables }
    ensures apart { PlacesAreApart }
    ensures within { PlacesAreWithin }
    ensures all { PlacesAreAll }
{}

/// A variable that is defined by an integer has that value, and by a value of another type none; no other changes. At the start
/// nothing is defined.
pub fn a_store_keeps_what_is_defined()
    ensures defined { DefinedIsRead }
    ensures other_types { OtherTypesAreNotRead }
    ensures others { OthersAreKept }
    ensures length { LengthIsKept }
    ensures start { StartIsUndefined }
    ensures nothing { NothingIsDefined }
{}

/// So do the objects of a Fortran 90 program.
pub fn objects_keep_what_is_defined()
    ensures defined { ObjectIsRead }
    ensures others { OtherObjectsAreKept }
{}

/// The map has a line for each variable, in their order.
pub fn each_variable_has_a_line()
    ensures lines { LinesAreVariables }
    ensures count { LinesAreAsMany }
{}
