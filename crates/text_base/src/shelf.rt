// A shelf of named files: whole files are read from it and written to it.
ghost use Rattle.std.specs.Prelude.{◌≡◌, ◌≤◌, ◌++◌, List, ℕ, Option, OnOk, OnErr, IsErrOf};
ghost use Rattle.text_base.specs.Faults.{Rose};
ghost use Rattle.text_base.specs.Files.{Files, with_file, SameBut, HasFile, LacksFile};

use thiserror::Error;

/// How a read fails: there is no file of the name, the file can't be read, or its bytes can't be held in memory.
#[derive(Clone, Copy, Debug, PartialEq, Eq, Error)]
pub enum ShelfRead {
    #[error("there is no file of this name")]
    Missing,
    #[error("the file could not be read")]
    Failed,
    #[error("memory is wanted")]
    Memory,
}

/// How a write fails: the file can't be written, or memory is wanted for it.
#[derive(Clone, Copy, Debug, PartialEq, Eq, Error)]
pub enum ShelfWrite {
    #[error("the file could not be written")]
    Failed,
    #[error("memory is wanted")]
    Memory,
}

/// A place of named files. No call changes whether it tells what it holds, and no count ever falls.
pub trait Shelf {
    /// What it holds, where it tells.
    ghost held: { Self → Option Files };

    /// How many reads have failed.
    ghost read_faults: { Self → ℕ };

    /// How many writes have failed.
    ghost write_faults: { Self → ℕ };

    /// How many names were absent when they were read.
    ghost absences: { Self → ℕ };

    /// How many writes have wanted memory.
    ghost denials: { Self → ℕ };

    /// No call counts a fault.
    ghost reliable: { Self → Type 0 };

    /// Appends the whole bytes of the name. It holds what it held, whatever the answer is. `Missing`: there is no file of the
    /// name, and nothing is appended. `Failed`: a fault, which is counted. `Memory`: memory is wanted. After the last two a
    /// first part of the bytes may stand appended.
    fn read(&mut self, name: &str, into: &mut Vec<u8>) -> Result<(), ShelfRead>
        ensures unchanged { held self.new ≡ held self.old }
        ensures whole { OnOk result ((bytes : List ℕ) × (into.new.items ≡ into.old.items ++ bytes) × HasFile (held self.old) name.now bytes) }
        ensures kept { OnErr result ((more : List ℕ) × (into.new.items ≡ into.old.items ++ more)) }
        ensures missing { IsErrOf result ShelfRead.Missing → LacksFile (held self.old) name.now × (into.new.items ≡ into.old.items) }
        ensures absent { IsErrOf result ShelfRead.Missing → Rose (absences self.old) (absences self.new) }
        ensures failed { IsErrOf result ShelfRead.Failed → Rose (read_faults self.old) (read_faults self.new) }
        ensures still { OnOk result ((read_faults self.new ≡ read_faults self.old) × (absences self.new ≡ absences self.old)) }
        ensures read_count { read_faults self.old ≤ read_faults self.new }
        ensures absence_count { absences self.old ≤ absences self.new }
        ensures write_count { write_faults self.new ≡ write_faults self.old }
        ensures denial_count { denials self.new ≡ denials self.old }
        ensures reliable { reliable self.old → reliable self.new × (read_faults self.new ≡ read_faults self.old) };

    /// Makes the name hold exactly the bytes. `Failed`: a fault, which is counted. `Memory`: memory is wanted, which is counted.
    /// After an error this name is unknown, and every other name is as before.
    fn write(&mut self, name: &str, bytes: &[u8]) -> Result<(), ShelfWrite>
        ensures whole { OnOk result (held self.new ≡ with_file (held self.old) name.now bytes.now) }
        ensures others { OnErr result (SameBut name.now (held self.old) (held self.new)) }
        ensures failed { IsErrOf result ShelfWrite.Failed → Rose (write_faults self.old) (write_faults self.new) }
        ensures denied { IsErrOf result ShelfWrite.Memory → Rose (denials self.old) (denials self.new) }
        ensures still { OnOk result ((write_faults self.new ≡ write_faults self.old) × (denials self.new ≡ denials self.old)) }
        ensures write_count { write_faults self.old ≤ write_faults self.new }
        ensures denial_count { denials self.old ≤ denials self.new }
        ensures read_count { read_faults self.new ≡ read_faults self.old }
        ensures absence_count { absences self.new ≡ absences self.old }
        ensures reliable { reliable self.old → reliable self.new × (write_faults self.new ≡ write_faults self.old) };
}
