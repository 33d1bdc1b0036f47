// The statuses of a call, and their numbers.
ghost use Rattle.std.specs.Prelude.{◌≡◌};
ghost use Rattle.command.specs.Status.{code_of};

/// How a call ends.
#[derive(Clone, Copy, Debug, PartialEq, Eq)]
pub enum Status {
    /// The outputs were written, and the report was printed.
    Done,
    /// Something is refused of the file. All of it was printed, and nothing was written.
    Refused,
    /// The words aren't `one FILE OUT`. Nothing was read.
    Usage,
    /// The read of the file failed. Nothing was written.
    ReadFault,
    /// There is no file of the name. Nothing was written.
    Missing,
    /// A write failed, and no later output was written. Or the sink failed while it took the report or the refusals; the outputs
    /// of a report stand.
    WriteFault,
    /// Memory is wanted. It may come in place of any other. Nothing was written, unless memory is wanted by a write or by the
    /// sink.
    Memory,
}

impl Status {
    /// The number that the program ends with.
    pub fn code(self) -> u8
        ensures { result ≡ code_of self }
    {
        match self {
            Status::Done => 0,
            Status::Refused => 1,
            Status::Usage => 2,
            Status::ReadFault => 3,
            Status::Missing => 4,
            Status::WriteFault => 6,
            Status::Memory => 7,
        }
    }
}
