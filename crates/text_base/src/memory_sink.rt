// A sink in memory, whose calls fail by a list of their numbers, and take at most so many bytes each.
ghost use Rattle.std.specs.Prelude.{◌≡◌, ◌≤◌, ◌∷◌, ◌++◌, [], Some, Ok, IfOk, OnOk, OnErr, IsErrOf, IsTrue, ◌↔◌, min, length};
ghost use Rattle.text_base.specs.Memory.{put_fails, after_put};

use crate::{Sink, SinkError};
use std::alloc::{AllocError, Global};
use std::marker::Model;

/// A sink in memory. It holds its bytes, the numbers of the calls that are to fail, where the first has
/// the number 1, how many calls there were, its counts, and the most bytes that one call takes.
#[derive(Drop)]
pub struct MemorySink {
    bytes: Vec<u8>,
    failing_puts: Vec<u64>,
    puts: u64,
    faults: u64,
    denials: u64,
    most: usize,
}

impl Model for MemorySink {
    ghost use Rattle.std.specs.Prelude.{◌≤◌};
    ghost use Rattle.text_base.specs.Memory.{SinkState};

    ghost Value = { SinkState };

    ghost view = { λ s. record {
      bytes = s.bytes.items;
      failing_puts = s.failing_puts.items;
      puts = s.puts;
      faults = s.faults;
      denials = s.denials;
      most = s.most;
    } };

    ghost invariant = { λ s. 1 ≤ s.most };
}

impl MemorySink {
    /// No bytes, and no call that is to fail. One call takes at most `most` bytes, at least 1.
    pub fn new(alloc: Global, most: usize) -> MemorySink
        requires { 1 ≤ most }
        ensures { result ≡ record { bytes = []; failing_puts = []; puts = 0; faults = 0; denials = 0; most = most } }
    {
        MemorySink {
            bytes: Vec::new(alloc),
            failing_puts: Vec::new(alloc),
            puts: 0,
            faults: 0,
            denials: 0,
            most,
        }
    }

    /// Lets the call of this number fail. After want of memory all is as before.
    pub fn fail_put(&mut self, number: u64) -> Result<(), AllocError>
        ensures ok { OnOk result (self.new ≡ record self.old { failing_puts = self.old.failing_puts ++ number ∷ [] }) }
        ensures err { OnErr result (self.new ≡ self.old) }
    {
        self.failing_puts.push(number)?;
        Ok(())
    }

    /// Lends the bytes that were written.
    pub fn bytes(&self) -> &[u8]
        ensures { result.now ≡ self.now.bytes }
    {
        &self.bytes
    }
}

impl Sink for MemorySink {
    ghost written = { λ s. Some s.bytes };

    ghost faults = { λ s. s.faults };

    ghost denials = { λ s. s.denials };

    ghost reliable = { λ s. s.failing_puts ≡ [] };

    /// It answers `Failed` exactly where the number of the call is among those that are to fail, and else takes as many bytes as
    /// it may. After an error nothing is appended.
    fn put(&mut self, piece: &[u8]) -> Result<usize, SinkError>
        ensures fails { IsErrOf result SinkError.Failed ↔ IsTrue (put_fails self.old) }
        ensures takes { IfOk result (λ count. count ≡ min (length piece.now) self.old.most) }
        ensures moves { result ≡ Ok 0 → length piece.now ≡ 0 }
        ensures state { self.new ≡ after_put self.old piece.now result }
        ensures count { self.old.faults ≤ self.new.faults }
        ensures denial_count { self.old.denials ≤ self.new.denials }
    {
        self.puts = self.puts.saturating_add(1);
        if self.failing_puts.contains(&self.puts) {
            self.faults = self.faults.saturating_add(1);
            return Err(SinkError::Failed);
        }
        let count = piece.len().min(self.most);
        match self.bytes.extend_from_slice(&piece[..count]) {
            Ok(()) => Ok(count),
            Err(_) => {
                self.denials = self.denials.saturating_add(1);
                Err(SinkError::Memory)
            }
        }
    }
}
