//! Files in memory under fuses.
use sqlite::{Connection, FileStore, Files, Options};
use sqlite_disk::{Crash, Disk, Fuse, Memory};
use std::alloc::{AllocError, Global};
use std::io;

/// A file in memory, so many calls of which succeed, and no later one.
pub(crate) type Fused = Fuse<Memory>;

/// Which of the two files stops.
#[derive(Clone, Copy, PartialEq, Eq)]
pub(crate) enum Which {
    Log,
    Database,
    Neither,
}

/// What a stop leaves of what wasn't synced.
#[derive(Clone, Copy, PartialEq, Eq)]
pub(crate) enum Unsynced {
    IsLost,
    IsKept,
    /// Every other sector is lost.
    IsTorn,
}

/// How the files of a connection are taken.
#[derive(Clone, Copy, PartialEq, Eq)]
pub(crate) enum Taking {
    /// The connection is closed, as far as the files let it.
    Closed,
    /// No further call is made.
    Left,
}

/// A file with these bytes, all of them synced, of which so many calls succeed.
fn file_of(alloc: Global, bytes: &[u8], calls: u64) -> io::Result<Fused> {
    let mut file = Memory::new(alloc);
    if !bytes.is_empty() && file.may_be_used() {
        file.write_at(0, bytes)?;
    }
    if file.may_be_used() {
        file.sync()?;
    }
    Ok(Fuse::new(file, calls))
}

/// How many bytes a disk writes as one.
const SECTOR: usize = 512;

/// A file of which every other sector has what was synced, and zeros where that had ended, and the others what was
/// written.
fn torn(alloc: Global, synced: &[u8], written: &[u8]) -> Result<Vec<u8>, AllocError> {
    let mut bytes = Vec::new(alloc);
    for (at, byte) in written.iter().enumerate() {
        let left = if at / SECTOR % 2 == 0 {
            *byte
        } else {
            synced.get(at).copied().unwrap_or(0)
        };
        bytes.push(left)?;
    }
    Ok(bytes)
}

/// What a stop at this moment leaves of the file.
fn left_of_file(
    alloc: Global,
    file: &mut Fused,
    unsynced: Unsynced,
) -> Result<Vec<u8>, AllocError> {
    let written = Vec::from_slice(alloc, file.inner().bytes())?;
    if unsynced == Unsynced::IsKept {
        return Ok(written);
    }
    file.crash();
    let synced = file.inner().bytes();
    match unsynced {
        Unsynced::IsTorn => torn(alloc, synced, &written),
        _ => Vec::from_slice(alloc, synced),
    }
}

/// The bytes of both files.
#[derive(Drop)]
pub(crate) struct Bytes {
    pub(crate) log: Vec<u8>,
    pub(crate) db: Vec<u8>,
}

impl Bytes {
    /// Those of new files.
    pub(crate) fn none(alloc: Global) -> Bytes {
        Bytes {
            log: Vec::new(alloc),
            db: Vec::new(alloc),
        }
    }

    /// What a stop at this moment leaves of the files.
    pub(crate) fn left_of(
        alloc: Global,
        mut files: Files<Fused>,
        unsynced: Unsynced,
    ) -> Result<Bytes, AllocError> {
        Ok(Bytes {
            log: left_of_file(alloc, &mut files.log, unsynced)?,
            db: left_of_file(alloc, &mut files.db, unsynced)?,
        })
    }

    /// Files of these bytes, neither of which stops.
    pub(crate) fn whole_files(&self, alloc: Global) -> io::Result<Files<Fused>> {
        self.files(alloc, Which::Neither, 0)
    }

    /// Files of these bytes. The one that stops has so many calls.
    pub(crate) fn files(
        &self,
        alloc: Global,
        which: Which,
        calls: u64,
    ) -> io::Result<Files<Fused>> {
        let log = if which == Which::Log { calls } else { u64::MAX };
        let db = if which == Which::Database {
            calls
        } else {
            u64::MAX
        };
        Ok(Files {
            log: file_of(alloc, &self.log, log)?,
            db: file_of(alloc, &self.db, db)?,
        })
    }
}

/// Whether a further call succeeds. Then no call has failed.
fn goes_on(file: &mut Fused) -> bool {
    file.may_be_used() && file.len().is_ok()
}

/// Whether no call of the file that may stop has failed.
pub(crate) fn is_whole(files: &mut Files<Fused>, which: Which) -> bool {
    match which {
        Which::Log => goes_on(&mut files.log),
        Which::Database => goes_on(&mut files.db),
        Which::Neither => true,
    }
}

/// A connection on the files, or the files that are left.
pub(crate) fn connected<D: Disk + Drop>(
    alloc: Global,
    files: Files<D>,
) -> Result<Connection<FileStore<D>>, Files<D>> {
    if !files.log.may_be_used() || !files.db.may_be_used() {
        return Err(files);
    }
    match Connection::open_files(alloc, files, Options::new(7)) {
        Ok(conn) => Ok(conn),
        Err((_, left)) => Err(left.into_files()),
    }
}

/// The files of the connection.
pub(crate) fn taken<D: Disk + Drop>(conn: Connection<FileStore<D>>, taking: Taking) -> Files<D> {
    match taking {
        Taking::Closed => match conn.close_files() {
            Ok(files) => files,
            Err((_, store)) => store.close(),
        },
        Taking::Left => conn.into_store().close(),
    }
}
