// A shelf in memory, whose calls fail by a list of their numbers.
ghost use Rattle.std.specs.Prelude.{◌≡◌, ◌≤◌, ◌∷◌, ◌++◌, List, ℕ, [], Some, None, true, false, IsTrue, not, OnOk, OnErr, IsErrOf, ◌↔◌};
ghost use Rattle.std.specs.Option.{option_map, option_copied};
ghost use Rattle.std.specs.FinMap as map;
ghost use Rattle.text_base.specs.Memory.{read_fails, read_misses, write_fails, after_read, after_write};

use crate::{Bytes, Shelf, ShelfRead, ShelfWrite};
use std::alloc::{AllocError, Global};
use std::collections::VecDeque;
use std::marker::Model;

/// A shelf in memory. It holds a map, the numbers of the read and write calls that are to fail, where
/// the first call of each kind has the number 1, how many calls of each kind there were, and its counts.
#[derive(Drop)]
pub struct MemoryShelf {
    alloc: Global,
    // The newest first, so that a look-up finds the newest bytes of a name.
    files: VecDeque<(Bytes, Bytes)>,
    failing_reads: Vec<u64>,
    failing_writes: Vec<u64>,
    reads: u64,
    writes: u64,
    read_faults: u64,
    write_faults: u64,
    absences: u64,
    denials: u64,
}

impl Model for MemoryShelf {
    ghost use Rattle.std.specs.FinMap as map;
    ghost use Rattle.text_base.specs.Memory.{ShelfState, shelf_code};

    ghost Value = { ShelfState };

    ghost coded = { shelf_code };

    ghost view = { λ s. record {
      files = map.from_entries s.files.items;
      failing_reads = s.failing_reads.items;
      failing_writes = s.failing_writes.items;
      reads = s.reads;
      writes = s.writes;
      read_faults = s.read_faults;
      write_faults = s.write_faults;
      absences = s.absences;
      denials = s.denials;
    } };
}

impl MemoryShelf {
    /// Holds nothing. No call is to fail, and none was made.
    pub fn new(alloc: Global) -> MemoryShelf
        ensures { result ≡ record { files = map.empty; failing_reads = []; failing_writes = []; reads = 0; writes = 0; read_faults = 0; write_faults = 0; absences = 0; denials = 0 } }
    {
        MemoryShelf {
            alloc,
            files: VecDeque::new(alloc),
            failing_reads: Vec::new(alloc),
            failing_writes: Vec::new(alloc),
            reads: 0,
            writes: 0,
            read_faults: 0,
            write_faults: 0,
            absences: 0,
            denials: 0,
        }
    }

    /// Makes the name hold the bytes. It counts no call. After want of memory all is as before.
    pub fn hold(&mut self, name: &str, bytes: &[u8]) -> Result<(), AllocError>
        ensures ok { OnOk result (self.new ≡ record self.old { files = map.insert self.old.files name.now bytes.now }) }
        ensures err { OnErr result (self.new ≡ self.old) }
    {
        let name = Bytes::from_slice(self.alloc, name.as_bytes())?;
        let bytes = Bytes::from_slice(self.alloc, bytes)?;
        self.files.push_front((name, bytes))?;
        Ok(())
    }

    /// Lends what the name holds, and answers `None` exactly where it isn't held.
    pub fn held(&self, name: &str) -> Option<&[u8]>
        ensures { option_map (λ bytes. bytes.now) result ≡ map.get self.now.files name.now }
    {
        for (held, bytes) in &self.files {
            if name.as_bytes() == held.as_slice() {
                return Some(bytes.as_slice());
            }
        }
        None
    }

    /// Lets the read call of this number fail. After want of memory all is as before.
    pub fn fail_read(&mut self, number: u64) -> Result<(), AllocError>
        ensures ok { OnOk result (self.new ≡ record self.old { failing_reads = self.old.failing_reads ++ number ∷ [] }) }
        ensures err { OnErr result (self.new ≡ self.old) }
    {
        self.failing_reads.push(number)?;
        Ok(())
    }

    /// Lets the write call of this number fail. After want of memory all is as before.
    pub fn fail_write(&mut self, number: u64) -> Result<(), AllocError>
        ensures ok { OnOk result (self.new ≡ record self.old { failing_writes = self.old.failing_writes ++ number ∷ [] }) }
        ensures err { OnErr result (self.new ≡ self.old) }
    {
        self.failing_writes.push(number)?;
        Ok(())
    }
}

impl Shelf for MemoryShelf {
    ghost held = { λ s. Some s.files };

    ghost read_faults = { λ s. s.read_faults };

    ghost write_faults = { λ s. s.write_faults };

    ghost absences = { λ s. s.absences };

    ghost denials = { λ s. s.denials };

    ghost reliable = { λ s. (s.failing_reads ≡ []) × (s.failing_writes ≡ []) };

    /// It answers `Failed` exactly where the number of the call is among those that are to fail, and else `Missing` exactly where
    /// the name isn't held. After any error nothing is appended.
    fn read(&mut self, name: &str, into: &mut Vec<u8>) -> Result<(), ShelfRead>
        ensures fails { IsErrOf result ShelfRead.Failed ↔ IsTrue (read_fails self.old) }
        ensures misses { IsErrOf result ShelfRead.Missing ↔ IsTrue (read_misses self.old name.now) }
        ensures absent { IsErrOf result ShelfRead.Missing → map.get self.old.files name.now ≡ None }
        ensures whole { OnOk result ((bytes : List ℕ)
            × (into.new.items ≡ into.old.items ++ bytes) × (map.get self.old.files name.now ≡ Some bytes)) }
        ensures nothing_read { OnErr result (into.new.items ≡ into.old.items) }
        ensures state { self.new ≡ after_read self.old name.now }
        ensures read_count { self.old.read_faults ≤ self.new.read_faults }
        ensures absence_count { self.old.absences ≤ self.new.absences }
    {
        self.reads = self.reads.saturating_add(1);
        if self.failing_reads.contains(&self.reads) {
            self.read_faults = self.read_faults.saturating_add(1);
            return Err(ShelfRead::Failed);
        }
        let Some(bytes) = self.held(name) else {
            self.absences = self.absences.saturating_add(1);
            return Err(ShelfRead::Missing);
        };
        match into.extend_from_slice(bytes) {
            Ok(()) => Ok(()),
            Err(_) => Err(ShelfRead::Memory),
        }
    }

    /// It answers `Failed` exactly where the number of the call is among those that are to fail. After an error the map is as
    /// before.
    fn write(&mut self, name: &str, bytes: &[u8]) -> Result<(), ShelfWrite>
        ensures fails { IsErrOf result ShelfWrite.Failed ↔ IsTrue (write_fails self.old) }
        ensures written { OnOk result
            (self.new ≡ after_write self.old result (map.insert self.old.files name.now bytes.now)) }
        ensures nothing_written { OnErr result (self.new ≡ after_write self.old result self.old.files) }
        ensures write_count { self.old.write_faults ≤ self.new.write_faults }
        ensures denial_count { self.old.denials ≤ self.new.denials }
    {
        self.writes = self.writes.saturating_add(1);
        if self.failing_writes.contains(&self.writes) {
            self.write_faults = self.write_faults.saturating_add(1);
            return Err(ShelfWrite::Failed);
        }
        match self.hold(name, bytes) {
            Ok(()) => Ok(()),
            Err(_) => {
                self.denials = self.denials.saturating_add(1);
                Err(ShelfWrite::Memory)
            }
        }
    }
}
