//! Echoes: requests with their answers.
ghost use Rattle.std.specs.Prelude.{◌≡◌, ◌++◌, OnOk};
ghost use Rattle.office_script.specs.Echoes.{echo_lines, echoes, longest_echo, longest_echoes};
ghost use Rattle.office_script.specs.Echoes.{longest_part, longest_parts, parts_of, part_lines, whole_echo};

use crate::answers::add_answer;
use crate::headings::{add_action_heading, add_task_heading};
use office_history::{Answer, Arrival, Key};
use office_types::{Action, Command, NetName, PartReply, Reply, Task};
use std::alloc::AllocError;

/// The longest line that a refusal has.
const LONGEST_REFUSAL: &[u8] = b"refused 62 BundleRefused 255 4294967295\n";

/// The longest line that answers a part of a bundle.
const LONGEST_PART: &[u8] = b"release 4294967295\n";

/// Appends the line of each part of a bundle with what it was answered. `line` is room for one answer.
fn add_parts(
    text: &mut Vec<u8>,
    line: &mut String,
    key: &Key,
    net: &NetName,
    parts: &[Action],
    replies: &[PartReply],
) -> Result<(), AllocError>
    ensures { OnOk result (text.new.items
        ≡ text.old.items ++ part_lines key.now net.now parts.now replies.now) }
{
    let mut parts = parts;
    let mut replies = replies;
    while let [part, later_parts @ ..] = parts {
        let [reply, later_replies @ ..] = replies else {
            return Ok(());
        };
        add_action_heading(text, key, net, part)?;
        line.clear();
        write!(line, "{reply}\n")?;
        text.extend_from_slice(line.as_bytes())?;
        parts = later_parts;
        replies = later_replies;
    }
    Ok(())
}

/// Appends the request with its answer, of whatever kind.
fn add_whole(
    text: &mut Vec<u8>,
    line: &mut String,
    key: &Key,
    command: &Command,
    answer: &Answer,
) -> Result<(), AllocError>
    ensures { OnOk result (text.new.items
        ≡ text.old.items ++ whole_echo key.now command.now answer.now) }
{
    add_task_heading(text, key, &command.net, &command.task)?;
    line.clear();
    add_answer(line, answer)?;
    text.extend_from_slice(line.as_bytes())
}

/// Appends the echo of an arrival that was answered so.
fn add_echo(
    text: &mut Vec<u8>,
    line: &mut String,
    arrival: &Arrival,
    answer: &Answer,
) -> Result<(), AllocError>
    ensures { OnOk result (text.new.items ≡ text.old.items ++ echo_lines arrival.now answer.now) }
{
    let key = &arrival.key;
    let command = &arrival.request.command;
    match (answer, &command.task) {
        (Answer::Reply(Reply::Bundle(replies)), Task::Bundle(parts)) => {
            add_parts(
                text,
                line,
                key,
                &command.net,
                parts.as_slice(),
                replies.as_slice(),
            )
        }
        _ => add_whole(text, line, key, command, answer),
    }
}

/// Appends the echo of each of the first arrivals, as many as there are answers. What `line` has is lost: it is the
/// room for one answer's line. The error is out of memory; then the text may have a part of the echoes.
pub fn add_echoes(
    text: &mut Vec<u8>,
    line: &mut String,
    arrivals: &[Arrival],
    answers: &[Answer],
) -> Result<(), AllocError>
    ensures { OnOk result (text.new.items ≡ text.old.items ++ echoes arrivals.now answers.now) }
{
    let mut arrivals = arrivals;
    let mut answers = answers;
    while let [arrival, later_arrivals @ ..] = arrivals {
        let [answer, later_answers @ ..] = answers else {
            return Ok(());
        };
        add_echo(text, line, arrival, answer)?;
        arrivals = later_arrivals;
        answers = later_answers;
    }
    Ok(())
}

fn add_longest_part(
    text: &mut Vec<u8>,
    key: &Key,
    net: &NetName,
    part: &Action,
) -> Result<(), AllocError>
    ensures { OnOk result (text.new.items
        ≡ text.old.items ++ longest_part key.now net.now part.now) }
{
    add_action_heading(text, key, net, part)?;
    text.extend_from_slice(LONGEST_PART)
}

fn add_longest_parts(
    text: &mut Vec<u8>,
    key: &Key,
    net: &NetName,
    parts: &[Action],
) -> Result<(), AllocError>
    ensures { OnOk result (text.new.items
        ≡ text.old.items ++ longest_parts key.now net.now parts.now) }
{
    for part in parts {
        add_longest_part(text, key, net, part)?;
    }
    Ok(())
}

fn parts_of(task: &Task) -> &[Action]
    ensures { result.now ≡ parts_of task.now }
{
    match task {
        Task::Bundle(parts) => parts.as_slice(),
        Task::Act(_) | Task::Import(_) => &[],
    }
}

fn add_longest_echo(text: &mut Vec<u8>, key: &Key, command: &Command) -> Result<(), AllocError>
    ensures { OnOk result (text.new.items ≡ text.old.items ++ longest_echo key.now command.now) }
{
    add_longest_parts(text, key, &command.net, parts_of(&command.task))?;
    add_task_heading(text, key, &command.net, &command.task)?;
    text.extend_from_slice(LONGEST_REFUSAL)
}

/// Appends lines that are at least as long as the echoes of the arrivals, whatever each is answered. The error is out
/// of memory.
pub fn add_longest_echoes(text: &mut Vec<u8>, arrivals: &[Arrival]) -> Result<(), AllocError>
    ensures { OnOk result (text.new.items ≡ text.old.items ++ longest_echoes arrivals.now) }
{
    for arrival in arrivals {
        add_longest_echo(text, &arrival.key, &arrival.request.command)?;
    }
    Ok(())
}
