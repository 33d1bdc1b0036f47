// The outside as it is: files by their paths, and standard output. Neither tells what it holds.
ghost use Rattle.std.specs.Prelude.{◌≡◌, ◌+◌, ◌≤◌, ◌∷◌, ◌++◌, List, ℕ, [], None, Err, IfSome, OnOk, IfErr, IsErrOf, ◌↔◌, vec_len};
ghost use Rattle.text_base.specs.Faults.{Rose};

use crate::limits::LARGEST_PROJECT;
use crate::{Shelf, ShelfRead, ShelfWrite, Sink, SinkError};
use std::alloc::Global;
use std::fs::{self, Metadata, OpenFile};
use std::io::{self, ErrorKind, Read, Write};
use std::os::unix::fs::MetadataExt;
use std::rt::Files;

/// The most bytes that are taken of a file: one more than a project may have. A longer file counts as a fault.
const MOST: u64 = LARGEST_PROJECT as u64 + 1;

// How a read fails where the file couldn't be opened.
fn cause_of(kind: ErrorKind) -> ShelfRead
    ensures missing { (result ≡ ShelfRead.Missing) ↔ (kind ≡ ErrorKind.NotFound) }
    ensures memory { (result ≡ ShelfRead.Memory) ↔ (kind ≡ ErrorKind.OutOfMemory) }
{
    match kind {
        ErrorKind::NotFound => ShelfRead::Missing,
        ErrorKind::OutOfMemory => ShelfRead::Memory,
        _ => ShelfRead::Failed,
    }
}

// Appends the file's bytes, of which there may be `MOST`. A longer file fails.
fn take_all<F: Read + Drop>(file: F, into: &mut Vec<u8>) -> Result<(), ShelfRead>
    ensures whole { OnOk result (IfSome (F.remaining file)
        (λ bytes. into.new.items ≡ into.old.items ++ bytes)) }
    ensures most { OnOk result (vec_len into.new ≤ vec_len into.old + MOST) }
    ensures kept { (more : List ℕ) × (into.new.items ≡ into.old.items ++ more) }
    ensures missing { IsErrOf result ShelfRead.Missing → ⊥ }
{
    match file.take(MOST + 1).read_to_end(into) {
        Ok(count) if count as u64 <= MOST => Ok(()),
        Ok(_) => Err(ShelfRead::Failed),
        Err(error) if error.kind() == ErrorKind::OutOfMemory => Err(ShelfRead::Memory),
        Err(_) => Err(ShelfRead::Failed),
    }
}

/// Which file it is on this machine, by whatever path it is reached: its device, and its number there.
#[derive(Clone, Copy, Debug, PartialEq, Eq)]
struct FileId {
    device: u64,
    number: u64,
}

impl FileId {
    /// The file of which this is told.
    fn of(metadata: &Metadata) -> FileId {
        FileId {
            device: metadata.dev(),
            number: metadata.ino(),
        }
    }
}

/// The files of the machine by their paths. It tells nothing of what it holds. It counts each read fault, each absence, each
/// write fault, and each write that wanted memory. A file that was read through it is never written by it, by whatever path it
/// is reached: a relative path, a symbolic link or another name of the same file. Such a write is a write fault, and the file
/// stays as it was; so is a write where it can't be told which file a path leads to.
#[derive(Drop)]
pub struct DiskShelf<'a, R> {
    rt: &'a R,
    sources: Vec<FileId>,
    read_faults: u64,
    write_faults: u64,
    absences: u64,
    denials: u64,
}

impl<'a, R: Files> DiskShelf<'a, R> {
    /// Its counts are 0, and no file was read through it. It takes no memory yet.
    pub fn new(alloc: Global, rt: &'a R) -> DiskShelf<'a, R>
        ensures reads { ⟦<DiskShelf<'a, R> as Shelf>⟧.read_faults result ≡ 0 }
        ensures writes { ⟦<DiskShelf<'a, R> as Shelf>⟧.write_faults result ≡ 0 }
        ensures absences { ⟦<DiskShelf<'a, R> as Shelf>⟧.absences result ≡ 0 }
        ensures denials { ⟦<DiskShelf<'a, R> as Shelf>⟧.denials result ≡ 0 }
    {
        DiskShelf {
            rt,
            sources: Vec::new(alloc),
            read_faults: 0,
            write_faults: 0,
            absences: 0,
            denials: 0,
        }
    }
}

// Which file an open one is.
fn id_of<F: OpenFile>(file: &F) -> Result<FileId, ShelfRead>
    ensures { IsErrOf result ShelfRead.Missing → ⊥ }
{
    match file.metadata() {
        Ok(metadata) => Ok(FileId::of(&metadata)),
        Err(error) if error.kind() == ErrorKind::OutOfMemory => Err(ShelfRead::Memory),
        Err(_) => Err(ShelfRead::Failed),
    }
}

impl<R: Files> DiskShelf<'_, R> {
    // Remembers a file that is read.
    fn remember(&mut self, id: FileId) -> Result<(), ShelfRead>
        ensures remembered { OnOk result (self.new.sources.items ≡ self.old.sources.items ++ id ∷ []) }
        ensures memory { IfErr result (λ cause. cause ≡ ShelfRead.Memory) }
        ensures others { self.new ≡ record self.old { sources = self.new.sources } }
    {
        match self.sources.push(id) {
            Ok(()) => Ok(()),
            Err(_) => Err(ShelfRead::Memory),
        }
    }

    // Opens a file to read it, and remembers which one it is.
    fn open(&mut self, name: &str) -> Result<R::File, ShelfRead>
        ensures remembers { OnOk result ((id : FileId) × (self.new.sources.items ≡ self.old.sources.items ++ id ∷ [])) }
        ensures others { self.new ≡ record self.old { sources = self.new.sources } }
    {
        let opened = fs::open(self.rt, name);
        let file = opened.map_err(|error| cause_of(error.kind()))?;
        let id = id_of(&file)?;
        self.remember(id)?;
        Ok(file)
    }

    // Whether a path leads to a file that was read through this shelf. A path that leads nowhere doesn't. Where it can't be
    // told, that is an error.
    fn is_source(&self, name: &str) -> Result<bool, ErrorKind>
        ensures { IfErr result (λ kind. kind ≡ ErrorKind.NotFound → ⊥) }
    {
        match fs::metadata(self.rt, name) {
            Ok(metadata) => Ok(self.sources.contains(&FileId::of(&metadata))),
            Err(error) if error.kind() == ErrorKind::NotFound => Ok(false),
            Err(error) => Err(error.kind()),
        }
    }

    // Counts a write that failed for this cause.
    fn fail(&mut self, kind: ErrorKind) -> Result<(), ShelfWrite>
        ensures memory { (result ≡ Err ShelfWrite.Memory) ↔ (kind ≡ ErrorKind.OutOfMemory) }
        ensures error { OnOk result ⊥ }
        ensures failed { IsErrOf result ShelfWrite.Failed → Rose self.old.write_faults self.new.write_faults }
        ensures denied { IsErrOf result ShelfWrite.Memory → Rose self.old.denials self.new.denials }
        ensures counts { (self.old.write_faults ≤ self.new.write_faults) × (self.old.denials ≤ self.new.denials) }
        ensures others { self.new ≡ record self.old { write_faults = self.new.write_faults; denials = self.new.denials } }
    {
        if kind == ErrorKind::OutOfMemory {
            self.denials = self.denials.saturating_add(1);
            return Err(ShelfWrite::Memory);
        }
        self.write_faults = self.write_faults.saturating_add(1);
        Err(ShelfWrite::Failed)
    }
}

impl<R: Files> Shelf for DiskShelf<'_, R> {
    ghost held = { λ s. None };

    ghost read_faults = { λ s. s.read_faults };

    ghost write_faults = { λ s. s.write_faults };

    ghost absences = { λ s. s.absences };

    ghost denials = { λ s. s.denials };

    ghost reliable = { λ s. ⊥ };

    fn read(&mut self, name: &str, into: &mut Vec<u8>) -> Result<(), ShelfRead> {
        let outcome = match self.open(name) {
            Ok(file) => take_all(file, into),
            Err(cause) => Err(cause),
        };
        match outcome {
            Err(ShelfRead::Missing) => self.absences = self.absences.saturating_add(1),
            Err(ShelfRead::Failed) => self.read_faults = self.read_faults.saturating_add(1),
            Err(ShelfRead::Memory) | Ok(()) => {}
        }
        outcome
    }

    fn write(&mut self, name: &str, bytes: &[u8]) -> Result<(), ShelfWrite> {
        match self.is_source(name) {
            Ok(false) => {}
            Ok(true) => return self.fail(ErrorKind::PermissionDenied),
            Err(kind) => return self.fail(kind),
        }
        match fs::write(self.rt, name, bytes) {
            Ok(()) => Ok(()),
            Err(error) => self.fail(error.kind()),
        }
    }
}

/// Standard output. It tells nothing of what was written. It counts as a fault each call that fails but for want of memory, and
/// each that takes nothing of a piece that isn't empty; want of memory is counted apart.
#[derive(Drop)]
pub struct StdSink<'a, P> {
    rt: &'a P,
    faults: u64,
    denials: u64,
}

impl<'a, P: Print> StdSink<'a, P> {
    /// Its counts are 0.
    pub fn new(rt: &'a P) -> StdSink<'a, P>
        ensures faults { ⟦<StdSink<'a, P> as Sink>⟧.faults result ≡ 0 }
        ensures denials { ⟦<StdSink<'a, P> as Sink>⟧.denials result ≡ 0 }
    {
        StdSink {
            rt,
            faults: 0,
            denials: 0,
        }
    }
}

impl<P: Print> Sink for StdSink<'_, P> {
    ghost written = { λ s. None };

    ghost faults = { λ s. s.faults };

    ghost denials = { λ s. s.denials };

    ghost reliable = { λ s. ⊥ };

    fn put(&mut self, piece: &[u8]) -> Result<usize, SinkError> {
        match io::writer(self.rt).write(piece) {
            Ok(0) if !piece.is_empty() => {
                self.faults = self.faults.saturating_add(1);
                Ok(0)
            }
            Ok(count) => Ok(count),
            Err(error) if error.kind() == ErrorKind::OutOfMemory => {
                self.denials = self.denials.saturating_add(1);
                Err(SinkError::Memory)
            }
            Err(_) => {
                self.faults = self.faults.saturating_add(1);
                Err(SinkError::Failed)
            }
        }
    }
}
