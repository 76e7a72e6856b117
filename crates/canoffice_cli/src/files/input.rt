//! Standard input, and the word that stands for it.
ghost use Rattle.std.specs.Prelude.{IfErr, IfOk};
ghost use Rattle.office_script.specs.Files.{FailsWith, Gives, Holding};
ghost use Rattle.canoffice_cli.specs.Holding.{source_at};

use super::{FileSource, PathFault};
use std::alloc::Global;

/// Where standard input can be read.
pub trait StandardInput {
    /// What is known of it.
    ghost given: { Self → Holding };

    /// All bytes of standard input, up to its end.
    ///
    /// If the bytes are known, it gives exactly these, and fails only if memory runs out. If it is known that standard
    /// input can't be read, it fails.
    fn read_input(&self, alloc: Global) -> Result<Vec<u8>, PathFault>
        ensures bytes { IfOk result (λ v. Gives (given self.now) v.items) }
        ensures fault { IfErr result (FailsWith (given self.now)) };
}

/// The bytes that a word of the command line names: those of standard input for `-`, and else those of the file at this
/// path.
pub fn bytes_at<F: FileSource + StandardInput>(
    alloc: Global,
    files: &F,
    word: &str,
) -> Result<Vec<u8>, PathFault>
    ensures bytes { IfOk result
        (λ v. Gives (source_at (F.held files.now) (F.given files.now) word.now) v.items) }
    ensures fault { IfErr result
        (FailsWith (source_at (F.held files.now) (F.given files.now) word.now)) }
{
    if word == "-" {
        files.read_input(alloc)
    } else {
        files.read(alloc, word)
    }
}
