//! The arrival of a line: what it requests, with the bytes of the file that it names.
ghost use Rattle.std.specs.Prelude.{◌≡◌, ◌++◌, ◌∷◌, None, Err, IfErr, IfOk, IsErrOf};
ghost use Rattle.office_fields.specs.declared.unread.Unread.TheVariants as unread;
ghost use Rattle.office_types.specs.declared.command.Task.TheVariants as task;
ghost use Rattle.office_script.specs.Bundles.{parts_in};
ghost use Rattle.office_script.specs.Files.{IsArrivalOf, IsBundleRequest};
ghost use Rattle.office_script.specs.Script.{AddsArrivals, Fills};

use crate::bundles::parts_in;
use crate::files::{FileSource, PathFault};
use crate::keys::Dash;
use crate::lines::says_nothing;
use crate::requests::{LineRequest, request_of};
use base::Items;
use office_fields::{FileImport, FilePath, Requested, Unread};
use office_history::{Arrival, Request};
use std::alloc::{AllocError, AllocFailed, Global};

/// Why a line has no arrival.
#[derive(Drop)]
pub enum LineFault {
    /// The line is wrong.
    Wrong,
    /// The file of this path, which the line names, can't be read.
    Unreadable(FilePath),
    /// Memory ran out.
    Memory,
}

impl From<Unread> for LineFault {
    ghost use Rattle.std.specs.Prelude.{◌≡◌};
    ghost use Rattle.office_script.specs.Script.{line_fault};

    ghost from_gives = { λ u e. e ≡ line_fault u };

    fn from(unread: Unread) -> LineFault {
        match unread {
            Unread::Wrong => LineFault::Wrong,
            Unread::Memory => LineFault::Memory,
        }
    }
}

impl From<AllocError> for LineFault {
    ghost use Rattle.std.specs.Prelude.{◌≡◌};
    ghost use Rattle.office_script.specs.declared.filling.LineFault.TheVariants.{Memory};

    ghost from_gives = { λ _ e. e ≡ Memory };

    fn from(_error: AllocError) -> LineFault {
        LineFault::Memory
    }
}

impl<T: Drop> From<AllocFailed<T>> for LineFault {
    ghost use Rattle.std.specs.Prelude.{◌≡◌};
    ghost use Rattle.office_script.specs.declared.filling.LineFault.TheVariants.{Memory};

    ghost from_gives = { λ _ e. e ≡ Memory };

    fn from(_error: AllocFailed<T>) -> LineFault {
        LineFault::Memory
    }
}

/// The content of an import: the text that requests it, a line feed and the bytes of its file.
fn import_content(text: Items<u8>, bytes: &[u8]) -> Result<Vec<u8>, AllocError>
    ensures { IfOk result (λ content. content.items ≡ text ++ (10 ∷ bytes.now)) }
{
    let mut content = text.into_vec();
    content.push(b'\n')?;
    content.extend_from_slice(bytes)?;
    Ok(content)
}

/// The request of an import, with the bytes of its file.
fn import_request(
    text: Items<u8>,
    import: FileImport,
    bytes: Vec<u8>,
) -> Result<Request, AllocError>
    ensures content { IfOk result (λ request. request.content.items ≡ text ++ (10 ∷ bytes.items)) }
    ensures command { IfOk result (λ request. request.command
        ≡ record { net = import.net; task = task.Import bytes.items }) }
{
    let content = import_content(text, &bytes)?;
    let command = import.with_bytes(bytes);
    Ok(Request { content, command })
}

/// The request of an import, whose file is read.
fn read_import<F: FileSource>(
    alloc: Global,
    text: Items<u8>,
    import: FileImport,
    files: &F,
) -> Result<Request, LineFault>
    ensures { Fills (F.held files.now) text (Requested.Import import) result }
{
    match files.read(alloc, import.file.as_str()) {
        Ok(bytes) => Ok(import_request(text, import, bytes)?),
        Err(PathFault::Unreadable) => Err(LineFault::Unreadable(import.into_path())),
        Err(PathFault::Memory) => Err(LineFault::Memory),
    }
}

/// The request of a bundle, with the parts in its file.
fn bundle_request(
    alloc: Global,
    text: Items<u8>,
    bundle: FileImport,
    bytes: &[u8],
) -> Result<Request, Unread>
    ensures ok { IfOk result (IsBundleRequest text bundle bytes.now) }
    ensures wrong { IsErrOf result unread.Wrong → parts_in bytes.now ≡ None }
{
    let parts = parts_in(alloc, bytes)?;
    let content = import_content(text, bytes)?;
    let command = bundle.with_parts(parts);
    Ok(Request { content, command })
}

/// The request of a bundle, whose file is read.
fn read_bundle<F: FileSource>(
    alloc: Global,
    text: Items<u8>,
    bundle: FileImport,
    files: &F,
) -> Result<Request, LineFault>
    ensures { Fills (F.held files.now) text (Requested.Bundle bundle) result }
{
    match files.read(alloc, bundle.file.as_str()) {
        Ok(bytes) => Ok(bundle_request(alloc, text, bundle, &bytes)?),
        Err(PathFault::Unreadable) => Err(LineFault::Unreadable(bundle.into_path())),
        Err(PathFault::Memory) => Err(LineFault::Memory),
    }
}

/// The request for what the text requests, with the bytes of its file.
fn filled<F: FileSource>(
    alloc: Global,
    text: Items<u8>,
    requested: Requested,
    files: &F,
) -> Result<Request, LineFault>
    ensures { Fills (F.held files.now) text requested result }
{
    match requested {
        Requested::Command(command) => {
            let content = text.into_vec();
            Ok(Request { content, command })
        }
        Requested::Import(import) => read_import(alloc, text, import, files),
        Requested::Bundle(bundle) => read_bundle(alloc, text, bundle, files),
    }
}

/// The arrival of what a line requests.
fn arrival_of<F: FileSource>(
    alloc: Global,
    line: LineRequest,
    files: &F,
) -> Result<Arrival, LineFault>
    ensures ok { IfOk result (IsArrivalOf (F.held files.now) line) }
    ensures fault { IfErr result
        (λ fault. Fills (F.held files.now) line.text line.requested (Err fault)) }
{
    let LineRequest {
        team,
        key,
        text,
        requested,
    } = line;
    match filled(alloc, text, requested, files) {
        Ok(request) => Ok(Arrival { team, key, request }),
        Err(fault) => Err(fault),
    }
}

/// Adds the arrival of the line of this number, from 1, if it requests anything.
pub(crate) fn add_arrivals<F: FileSource>(
    alloc: Global,
    dash: Dash,
    number: usize,
    line: &[u8],
    files: &F,
    arrivals: &mut Vec<Arrival>,
) -> Result<(), LineFault>
    ensures { AddsArrivals (F.held files.now) dash number line.now arrivals.old.items
        arrivals.new.items result }
{
    if says_nothing(line) {
        return Ok(());
    }
    let request = request_of(alloc, dash, number, line)?;
    match arrival_of(alloc, request, files) {
        Ok(arrival) => {
            arrivals.push(arrival)?;
            Ok(())
        }
        Err(fault) => Err(fault),
    }
}
