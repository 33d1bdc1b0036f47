// What is printed on a sink that fails.
ghost use Rattle.definition_laws.specs.Printing.{FaultLineIsWhole, MemoryLineIsWhole};

/// Where the main text was cut off by the one call of the sink that failed, or that wanted memory, the line that is owed for
/// that is whole, as long as the counts aren't at the end of their type.
pub fn owed_lines_are_whole()
    ensures failed { FaultLineIsWhole }
    ensures denied { MemoryLineIsWhole }
{}
