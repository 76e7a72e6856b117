//! Reading files by their paths, and standard input.
mod host;
mod input;
mod listed;

pub use host::HostFiles;
pub use input::{StandardInput, bytes_at};
pub use listed::{ListedFiles, NamedFile};
pub use office_script::{FileSource, PathFault};
