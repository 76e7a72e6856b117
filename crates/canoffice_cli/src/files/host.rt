//! The files and the standard input of the machine that the program runs on.
ghost use Rattle.std.specs.Prelude.{◌≡◌, ◌↔◌};
ghost use Rattle.std.specs.IoError.{error_kind};

use super::{FileSource, PathFault, StandardInput};
use std::alloc::Global;
use std::fs::File;
use std::io::{self, ErrorKind, Input, Read};
use std::rt::Files;

/// The machine's files and its standard input, as the runtime opens them. Nothing is known of them before they are
/// read.
#[derive(Clone, Copy)]
pub struct HostFiles<'r, R> {
    /// The runtime.
    pub rt: &'r R,
}

impl<R: Files> FileSource for HostFiles<'_, R> {
    ghost use Rattle.office_script.specs.Files.{unknown};

    ghost held = { λ _ _. unknown };

    fn read(&self, alloc: Global, path: &str) -> Result<Vec<u8>, PathFault> {
        let mut file = match File::open(self.rt, path) {
            Ok(file) => file,
            Err(error) => return Err(fault_of(&error)),
        };
        let mut bytes = match Vec::with_capacity(alloc, length_of(self.rt, path)) {
            Ok(bytes) => bytes,
            Err(_) => return Err(PathFault::Memory),
        };
        match file.read_to_end(&mut bytes) {
            Ok(_) => Ok(bytes),
            Err(error) => Err(fault_of(&error)),
        }
    }
}

/// The length that the file has now, so that room for all of it can be taken at once; 0 if it isn't known.
fn length_of<R: Files>(rt: &R, path: &str) -> usize {
    match rt.metadata(path) {
        Ok(metadata) => usize::try_from(metadata.len()).unwrap_or(0),
        Err(_) => 0,
    }
}

impl<R: Input> StandardInput for HostFiles<'_, R> {
    ghost use Rattle.office_script.specs.Files.{unknown};

    ghost given = { λ _. unknown };

    fn read_input(&self, alloc: Global) -> Result<Vec<u8>, PathFault> {
        let mut input = self.rt.reader();
        let mut bytes = Vec::new(alloc);
        match input.read_to_end(&mut bytes) {
            Ok(_) => Ok(bytes),
            Err(error) => Err(fault_of(&error)),
        }
    }
}

/// Why a file can't be read: out of memory, or any other reason.
fn fault_of(error: &io::Error) -> PathFault
    ensures { (result ≡ PathFault.Memory) ↔ (error_kind error.now ≡ ErrorKind.OutOfMemory) }
{
    if matches!(error.kind(), ErrorKind::OutOfMemory) {
        PathFault::Memory
    } else {
        PathFault::Unreadable
    }
}
