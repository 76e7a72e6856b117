//! Room for what is printed of the answers to a script.
ghost use Rattle.std.specs.Prelude.{◌≡◌, ◌≤◌, length, IfOk, IfSome, IsTrue};
ghost use Rattle.std.specs.String.{string_capacity};
ghost use Rattle.std.specs.Vec.{vec_capacity};
ghost use Rattle.office_script.specs.Echoes.{longest_echoes};
ghost use Rattle.canoffice_cli.specs.LongestLines.{AnswersFit, longest_line, longest_loss, room_for};

use office_history::Arrival;
use office_script::add_longest_echoes;
use office_types::Task;
use std::alloc::{AllocError, Global};

/// The length of the longest line that answers one command, `refused 58 FileFault 255 4294967295`, with its newline.
const LONGEST_SINGLE: usize = 36;

/// That of a bundle that is refused, `refused 62 BundleRefused 255 4294967295`, with its newline.
const LONGEST_REFUSED_BUNDLE: usize = 40;

/// That of a bundle of one part, `bundle release 4294967295`, with its newline.
const LONGEST_BUNDLE_OF_ONE: usize = 26;

/// The length of what each later part adds to it, `; release 4294967295`.
const LONGEST_LATER_PART: usize = 20;

/// The length of the line of a loss, such as `lost 71`, with its newline.
const LOSS: usize = 8;

/// Texts with room for what is printed.
#[derive(Drop)]
pub(crate) struct Room {
    /// For the lines of the answers.
    pub lines: String,
    /// For their echoes; no room where none are printed.
    pub echoes: Vec<u8>,
    /// For the line of a loss.
    pub loss: String,
}

/// The length of the longest line that can answer the task, with its newline.
fn longest_line(task: &Task) -> usize
    ensures { result ≡ longest_line task.now }
{
    match task {
        Task::Act(_) | Task::Import(_) => LONGEST_SINGLE,
        Task::Bundle(parts) => {
            let later = parts.count() as usize - 1;
            let carried_out = LONGEST_BUNDLE_OF_ONE + later * LONGEST_LATER_PART;
            carried_out.max(LONGEST_REFUSED_BUNDLE)
        }
    }
}

/// The length of the longest lines that can answer the arrivals, or `None` if it isn't below 2^64.
fn room_for(arrivals: &[Arrival]) -> Option<usize>
    ensures { IfSome result (λ bytes. bytes ≡ room_for arrivals.now) }
{
    let mut bytes: usize = 0;
    for arrival in arrivals {
        let line = longest_line(&arrival.request.command.task);
        bytes = bytes.checked_add(line)?;
    }
    Some(bytes)
}

impl Room {
    /// Room for the longest lines that can answer the arrivals, with `echo` for their longest echoes, and for the line
    /// of a loss. The error is out of memory.
    pub(crate) fn for_answers(
        alloc: Global,
        arrivals: &[Arrival],
        echo: bool,
    ) -> Result<Room, AllocError>
        ensures lines { IfOk result (λ room. room_for arrivals.now ≤ string_capacity room.lines) }
        ensures echoes { IfOk result (λ room. IsTrue echo
            → length (longest_echoes arrivals.now) ≤ vec_capacity room.echoes) }
        ensures loss { IfOk result (λ room. longest_loss ≤ string_capacity room.loss) }
    {
        let Some(bytes) = room_for(arrivals) else {
            return Err(AllocError);
        };
        let loss = String::with_capacity(alloc, LOSS)?;
        let lines = String::with_capacity(alloc, bytes)?;
        let mut echoes = Vec::new(alloc);
        if echo {
            add_longest_echoes(&mut echoes, arrivals)?;
        }
        Ok(Room {
            lines,
            echoes,
            loss,
        })
    }
}

/// The lines of answers to the first of the arrivals, each of which is one that its task can have, are no longer than
/// the room for all of them; nor are their echoes.
pub fn answers_fit()
    ensures { AnswersFit }
{}
