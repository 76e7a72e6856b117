//! Files and standard input in memory.
ghost use Rattle.std.specs.Prelude.{◌≡◌, find, option_map};
ghost use Rattle.std.specs.Str.{bytes_eq};

use super::{FileSource, PathFault, StandardInput};
use std::alloc::Global;

/// The bytes of a file, and the path that names it.
#[derive(Clone, Copy)]
pub struct NamedFile<'a> {
    /// The path.
    pub path: &'a str,
    /// The bytes.
    pub bytes: &'a [u8],
}

/// The files of a list, and no others, and a standard input. If a path occurs twice, the first file counts.
#[derive(Clone, Copy)]
pub struct ListedFiles<'a> {
    /// The files, in order.
    pub files: &'a [NamedFile<'a>],
    /// The bytes of standard input.
    pub input: &'a [u8],
}

impl FileSource for ListedFiles<'_> {
    ghost use Rattle.canoffice_cli.specs.Holding.{file_at};

    ghost held = { λ s path. file_at s.files.now path };

    fn read(&self, alloc: Global, path: &str) -> Result<Vec<u8>, PathFault> {
        match first_at(self.files, path) {
            Some(file) => match Vec::from_slice(alloc, file.bytes) {
                Ok(bytes) => Ok(bytes),
                Err(_) => Err(PathFault::Memory),
            },
            None => Err(PathFault::Unreadable),
        }
    }
}

impl StandardInput for ListedFiles<'_> {
    ghost use Rattle.office_script.specs.Files.{holding};

    ghost given = { λ s. holding s.input.now };

    fn read_input(&self, alloc: Global) -> Result<Vec<u8>, PathFault> {
        match Vec::from_slice(alloc, self.input) {
            Ok(bytes) => Ok(bytes),
            Err(_) => Err(PathFault::Memory),
        }
    }
}

/// The first file with this path.
fn first_at<'a>(files: &'a [NamedFile<'a>], path: &str) -> Option<&'a NamedFile<'a>>
    ensures { option_map (λ file. file.now) result ≡ find (λ file. bytes_eq file.path.now path.now)
        files.now }
{
    files.iter().find(|file| file.path == path)
}
