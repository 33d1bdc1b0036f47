// One file that is to be written, and what is owed where it can't be.
ghost use Rattle.std.specs.Prelude.{◌≡◌, IfOk};
ghost use Rattle.command.specs.Lines.{fault_line};

use crate::lines::line_with;
use std::alloc::{AllocError, Global};
use text_base::Bytes;

/// A name, its bytes, and the line that is owed where they can't be written. The line is made beforehand, so that no memory is
/// wanted for it once something was written.
#[derive(Drop)]
pub struct Output<'a> {
    pub name: &'a str,
    pub bytes: &'a [u8],
    pub line: Bytes,
    ghost owed: { line ≡ fault_line name.now },
}

impl<'a> Output<'a> {
    /// The bytes under the name, with their line. It fails where memory is wanted for the line, and for nothing else.
    pub fn new(alloc: Global, name: &'a str, bytes: &'a [u8]) -> Result<Output<'a>, AllocError>
        ensures name { IfOk result (λ output. output.name.now ≡ name.now) }
        ensures bytes { IfOk result (λ output. output.bytes.now ≡ bytes.now) }
    {
        let line = line_with(alloc, "WRITE FAULT ", name)?;
        Ok(Output { name, bytes, line })
    }
}
