//! Files by their paths.
ghost use Rattle.std.specs.Prelude.{ℕ, List, IfOk, IfErr};
ghost use Rattle.office_script.specs.Files.{Holding, Gives, FailsWith};

use std::alloc::Global;

/// Why a file's bytes can't be had.
#[derive(Clone, Copy, PartialEq, Eq)]
pub enum PathFault {
    /// No file can be read at the path.
    Unreadable,
    /// Memory ran out.
    Memory,
}

/// Files that can be read by their paths.
pub trait FileSource {
    /// What is known of the file at each path.
    ghost held: { Self → List ℕ → Holding };

    /// All bytes of the file at the path.
    ///
    /// If the file's bytes are known, it gives exactly these, and fails only if memory runs out. If it is known that no
    /// file can be read at the path, it fails.
    fn read(&self, alloc: Global, path: &str) -> Result<Vec<u8>, PathFault>
        ensures bytes { IfOk result (λ v. Gives (held self.now path.now) v.items) }
        ensures fault { IfErr result (FailsWith (held self.now path.now)) };
}
