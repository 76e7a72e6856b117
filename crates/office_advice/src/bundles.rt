//! What is stated of the file of a bundle.
ghost use Rattle.std.specs.Prelude.{◌≡◌, IfOk, MatchOption, is_some};
ghost use Rattle.office_script.specs.Bundles.{parts_in};
ghost use Rattle.office_script.specs.Lines.{lines_of};
ghost use Rattle.office_script.specs.Requests.{bundle_file};
ghost use Rattle.dbc_advice.specs.ShownPath.{shown_path};
ghost use Rattle.office_advice.specs.Explained.{Says, SaysNothing, first_wrong_part, wrong_parts};

use crate::cause::{Cause, Wrong};
use crate::explaining::wrong_line;
use crate::finding::part_wrong;
use dbc_advice::shown_path;
use office_fields::Unread;
use office_script::{Dash, FileSource, PathFault, bundle_file, first_line, parts_in};
use std::alloc::{AllocError, Global};

/// What is stated of the first wrong line of the file, or nothing if no line is wrong.
fn first_wrong_part(alloc: Global, path: &[u8], bytes: &[u8]) -> Result<Vec<u8>, AllocError>
    ensures { IfOk result (λ stated. stated.items ≡ first_wrong_part path.now 1
        (lines_of bytes.now)) }
{
    let mut number = 0usize;
    let mut rest = bytes;
    while let Some(first) = first_line(rest) {
        number += 1;
        if let Some(wrong) = part_wrong(alloc, first.line)? {
            return wrong_line(alloc, path, number, first.line, wrong);
        }
        rest = first.rest;
    }
    Ok(Vec::new(alloc))
}

/// Whether the file has the parts of a bundle.
fn has_parts(alloc: Global, bytes: &[u8]) -> Result<bool, AllocError>
    ensures { IfOk result (λ has. has ≡ is_some (parts_in bytes.now)) }
{
    match parts_in(alloc, bytes) {
        Ok(_parts) => Ok(true),
        Err(Unread::Wrong) => Ok(false),
        Err(Unread::Memory) => Err(AllocError),
    }
}

/// What is stated of a bundle, which the script's line of this number requests, and whose file has no parts.
fn wrong_parts(
    alloc: Global,
    name: &[u8],
    number: usize,
    line: &[u8],
    path: &[u8],
    bytes: &[u8],
) -> Result<Vec<u8>, AllocError>
    ensures { IfOk result (λ stated. stated.items ≡ wrong_parts name.now number line.now path.now
        bytes.now) }
{
    let stated = first_wrong_part(alloc, path, bytes)?;
    if !stated.is_empty() {
        return Ok(stated);
    }
    let wrong = Wrong {
        word: 2,
        cause: Cause::Count,
    };
    wrong_line(alloc, name, number, line, wrong)
}

/// The same under the path as it is shown.
fn wrong_under(
    alloc: Global,
    name: &[u8],
    number: usize,
    line: &[u8],
    path: &str,
    bytes: &[u8],
) -> Result<Vec<u8>, AllocError>
    ensures { IfOk result (λ text. text.items
        ≡ wrong_parts name.now number line.now (shown_path path.now) bytes.now) }
{
    let shown = shown_path(alloc, path)?;
    wrong_parts(alloc, name, number, line, shown.as_bytes(), bytes)
}

/// What is stated of what the script's line of this number requests: something if it is a bundle whose file has no
/// parts.
pub(crate) fn stated_of_bundle<F: FileSource>(
    alloc: Global,
    name: &[u8],
    dash: Dash,
    number: usize,
    line: &[u8],
    files: &F,
) -> Result<Option<Vec<u8>>, AllocError>
    ensures { IfOk result (λ stated. MatchOption stated
        (SaysNothing (F.held files.now) (bundle_file dash number line.now))
        (λ text. Says (F.held files.now) (wrong_parts name.now number line.now)
        (bundle_file dash number line.now) text.items)) }
{
    let Some(path) = bundle_file(alloc, dash, number, line)? else {
        return Ok(None);
    };
    match files.read(alloc, path.as_str()) {
        Ok(bytes) => {
            if has_parts(alloc, &bytes)? {
                return Ok(None);
            }
            let path = path.as_str();
            Ok(Some(wrong_under(alloc, name, number, line, path, &bytes)?))
        }
        Err(PathFault::Unreadable) => Ok(None),
        Err(PathFault::Memory) => Err(AllocError),
    }
}
