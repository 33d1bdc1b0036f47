// What holds of the runs of programs.
ghost use Rattle.definition_laws.specs.Running.{SourceRunsAreOne, SourceRunsBegin, NoSourceRun, SourceRunsEnd, SourceRunsInOrder};
ghost use Rattle.definition_laws.specs.Running.{WrittenRunsAreOne, WrittenRunsBegin, NoWrittenRun, WrittenRunsEnd, WrittenRunsInOrder, RunsHaveStarts};

/// A FORTRAN 77 program goes on from the start store, does its statements in their order, and stays as it ends or faults,
/// which it does.
pub fn source_runs_are_steady()
    ensures one { SourceRunsAreOne }
    ensures begin { SourceRunsBegin }
    ensures none { NoSourceRun }
    ensures end { SourceRunsEnd }
    ensures order { SourceRunsInOrder }
{}

/// So does a Fortran 90 program from any objects; and it has objects that it may begin with.
pub fn written_runs_are_steady()
    ensures one { WrittenRunsAreOne }
    ensures begin { WrittenRunsBegin }
    ensures none { NoWrittenRun }
    ensures end { WrittenRunsEnd }
    ensures order { WrittenRunsInOrder }
    ensures start { RunsHaveStarts }
{}
