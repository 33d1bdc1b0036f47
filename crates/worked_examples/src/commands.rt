// The command line.
ghost use Rattle.std.specs.Prelude.{◌≡◌, codes};
ghost use Rattle.command.specs.Lines.{usage_line, memory_line, sink_line, fault_line, refusal_lines};
ghost use Rattle.command.specs.Status.{code_of};
ghost use Rattle.command.specs.Words.{form};
ghost use Rattle.worked_examples.specs.Commands.{command_words, status_codes, two_refusals, two_lines};
ghost use Rattle.worked_examples.specs.Tables.{Gives};

/// What words form a command, the number of each status, and the lines that are printed.
pub fn command_line()
    ensures words { Gives form command_words }
    ensures statuses { Gives code_of status_codes }
    ensures refusals { refusal_lines (codes "t.f") two_refusals ≡ two_lines }
    ensures usage { usage_line ≡ codes "USAGE: modern one FILE OUT\n" }
    ensures memory { memory_line ≡ codes "MEMORY\n" }
    ensures sink { sink_line ≡ codes "WRITE FAULT output\n" }
    ensures output { fault_line (codes "o.map") ≡ codes "WRITE FAULT o.map\n" }
{}
