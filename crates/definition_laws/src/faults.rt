// What holds of the values of expressions and of faults.
ghost use Rattle.program77.specs.Meaning.{Store};
ghost use Rattle.tree90.specs.Meaning.{Objects};
ghost use Rattle.definition_laws.specs.Faults.{ValuesAreGiven, GivenAreValues, UndefinedHasCause, FaultHasCause, FaultsAreHere, LeftIsFirst, FirstArgumentIsFirst, TypedHaveMeaning};
ghost use Rattle.definition_laws.specs.Faults.{UndefinedIsRead, FaultIsReached, StoresOfRuns, StoresAtEnd, SourceFaultsInTwoWays, WrittenFaultsInOneWay};

use project_set::{sources_are_typed, written_is_proper};

/// What an expression of a FORTRAN 77 program gives is its value, and it gives it where it has one. It faults with Undefined or as
/// its operations do for no other reason than these words say. Where its parts have the types that they need, it gives values of
/// its own type alone, and has a meaning.
pub fn source_expressions_give_values()
    ensures value { ValuesAreGiven Store }
    ensures given { GivenAreValues Store }
    ensures undefined { UndefinedHasCause Store }
    ensures fault { FaultHasCause Store }
    ensures here { FaultsAreHere Store }
    ensures left { LeftIsFirst Store }
    ensures argument { FirstArgumentIsFirst Store }
    ensures typed { TypedHaveMeaning Store }
{}

/// The same of an expression of a Fortran 90 program.
pub fn written_expressions_give_values()
    ensures value { ValuesAreGiven Objects }
    ensures given { GivenAreValues Objects }
    ensures undefined { UndefinedHasCause Objects }
    ensures fault { FaultHasCause Objects }
    ensures here { FaultsAreHere Objects }
    ensures left { LeftIsFirst Objects }
    ensures argument { FirstArgumentIsFirst Objects }
    ensures typed { TypedHaveMeaning Objects }
{}

/// A run faults with Undefined only at an assignment that reads what holds no integer, and with a fault of operations only at one
/// with an operation that faults so, in the store that it comes there with.
pub fn faults_have_causes()
    ensures undefined { UndefinedIsRead }
    ensures fault { FaultIsReached }
    ensures stores { StoresOfRuns }
    ensures ends { StoresAtEnd }
{}

/// A source that is converted faults in no other way, and what is written for it only where an operation does. Both have a meaning.
pub fn converted_sources_fault_in_two_ways()
    ensures source { SourceFaultsInTwoWays }
    ensures written { WrittenFaultsInOneWay }
{
    sources_are_typed();
    written_is_proper();
}
