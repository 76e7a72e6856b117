//! Scripts: what their lines request.
ghost use Rattle.std.specs.Prelude.{IfOk, IfErr};
ghost use Rattle.office_script.specs.Lines.{lines_of};
ghost use Rattle.office_script.specs.Script.{AreArrivalsOf, IsScriptFault};

use crate::files::FileSource;
use crate::filling::{LineFault, add_arrivals};
use crate::keys::Dash;
use crate::lines::first_line;
use office_fields::FilePath;
use office_history::Arrival;
use std::alloc::Global;

/// Why a script can't be read: what is amiss at the first line at which something is.
#[derive(Drop)]
pub enum ScriptFault {
    /// The line of this number, from 1, is wrong.
    BadLine(usize),
    /// The line names the file of this path, which can't be read.
    Unreadable(FilePath),
    /// Memory ran out.
    Memory,
}

/// The arrivals of a script's lines, in order: each line's team, key and request, an import with the bytes of its file.
///
/// An empty line and one that begins with `#` request nothing. Any other is `key team command field=value ..` with one
/// space between words: `dash` says what `-` means as a key, any other key is a [`Key`](office_history::Key), and the
/// command is that of its fields ([`requested_of`](office_fields::requested_of)). The content of a request is the line
/// after its team, as it is, and for an import a line feed and the file's bytes after it. The lines are read one after
/// the other, each with the file that it names, up to the first that is wrong or whose file can't be read: that is the
/// fault, or else out of memory. A line whose fields are wrong is wrong, whatever file it names.
pub fn arrivals_of<F: FileSource>(
    alloc: Global,
    text: &[u8],
    dash: Dash,
    files: &F,
) -> Result<Vec<Arrival>, ScriptFault>
    ensures requested { IfOk result (λ arrivals. AreArrivalsOf (F.held files.now) dash
        (lines_of text.now) arrivals.items) }
    ensures fault { IfErr result (IsScriptFault (F.held files.now) dash text.now) }
{
    let mut arrivals = Vec::new(alloc);
    let mut rest = text;
    let mut number = 0usize;
    while let Some(first) = first_line(rest) {
        number += 1;
        match add_arrivals(alloc, dash, number, first.line, files, &mut arrivals) {
            Ok(()) => {}
            Err(LineFault::Wrong) => return Err(ScriptFault::BadLine(number)),
            Err(LineFault::Unreadable(path)) => return Err(ScriptFault::Unreadable(path)),
            Err(LineFault::Memory) => return Err(ScriptFault::Memory),
        }
        rest = first.rest;
    }
    Ok(arrivals)
}
