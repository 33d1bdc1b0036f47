// Converts FORTRAN 77 sources to Fortran 90.
#![tactic(auto)]

use command::{Status, modern};
use std::alloc::AllocError;
use std::env;
use std::io::ErrorKind;
use std::process::ExitCode;
use text_base::{DiskShelf, StdSink};

// The words after the program's own name. Where one of them can't be had they form no command.
fn arguments(rt: &HostRuntime) -> Result<Vec<String>, AllocError> {
    let mut words = Vec::new(rt.alloc());
    match env::args(rt) {
        Ok(args) => {
            for word in args.skip(1) {
                words.push(word)?;
            }
        }
        Err(error) => {
            if error.kind() == ErrorKind::OutOfMemory {
                return Err(AllocError);
            }
        }
    }
    Ok(words)
}

fn main(rt: HostRuntime) -> ExitCode {
    let Ok(words) = arguments(&rt) else {
        return ExitCode::from(Status::Memory.code());
    };
    let mut shelf = DiskShelf::new(rt.alloc(), &rt);
    let mut out = StdSink::new(&rt);
    let status = modern(rt.alloc(), &words, &mut shelf, &mut out);
    ExitCode::from(status.code())
}
