//! The request of a line: its key, its team, and what it requests.
ghost use Rattle.std.specs.Prelude.{◌≡◌, ◌∷◌, ℕ, IfOk, IfSome, None, MatchOption};
ghost use Rattle.office_fields.specs.Kind.{kind_of_word};
ghost use Rattle.office_fields.specs.Reading.{ReadsField};
ghost use Rattle.office_script.specs.Words.{words_of, words_after};
ghost use Rattle.office_script.specs.Requests.{requested_bundle, requested_by, bundle_file, request_of_words};
ghost use Rattle.office_script.specs.Requests.{request_of};

use crate::fields::read_fields;
use crate::keys::{Dash, key_of};
use crate::lines::says_nothing;
use crate::words::first_word;
use base::Items;
use office_fields::{CommandKind, FilePath, Requested, Unread, requested_of, team_of};
use office_history::Key;
use office_types::Team;
use std::alloc::{AllocError, Global};

/// What a line requests.
#[derive(Drop)]
pub struct LineRequest {
    /// The team whose request it is.
    pub team: Team,
    /// The key of the request.
    pub key: Key,
    /// The words after the team, as they are in the line.
    pub text: Items<u8>,
    /// What they request.
    pub requested: Requested,
}

/// The parts of a line: its first two words, and what follows them; of this the first word, and what follows that.
#[derive(Clone, Copy)]
struct LineParts<'a> {
    key: &'a [u8],
    team: &'a [u8],
    text: &'a [u8],
    command: &'a [u8],
    rest: Option<&'a [u8]>,
}

fn line_parts(line: &[u8]) -> Option<LineParts<'_>>
    ensures words { MatchOption result ((dash : Dash) → (number : ℕ)
        → request_of_words dash number (words_of line.now) ≡ None)
        (λ p. words_of line.now ≡ p.key.now ∷ p.team.now ∷ words_of p.text.now) }
    ensures text { IfSome result (λ p. words_of p.text.now ≡ p.command.now ∷ words_after p.rest) }
{
    let key = first_word(line);
    let team = first_word(key.rest?);
    let text = team.rest?;
    let command = first_word(text);
    Some(LineParts {
        key: key.word,
        team: team.word,
        text,
        command: command.word,
        rest: command.rest,
    })
}

fn kind_of(word: &[u8]) -> Result<CommandKind, Unread>
    ensures { ReadsField (kind_of_word word.now) result }
{
    CommandKind::of_word(word).ok_or(Unread::Wrong)
}

/// What the command of this word requests with the fields of the words in `rest`.
#[tactic(auto, unfolding(crate::specs::Requests::requested_by))]
fn requested_of_words(alloc: Global, word: &[u8], rest: Option<&[u8]>) -> Result<Requested, Unread>
    ensures { ReadsField (requested_by word.now (words_after rest.entry)) result }
{
    let kind = kind_of(word)?;
    match read_fields(alloc, rest)? {
        Some(fields) => requested_of(alloc, kind, &fields),
        None => Err(Unread::Wrong),
    }
}

fn copy_of(alloc: Global, text: &[u8]) -> Result<Items<u8>, AllocError>
    ensures { IfOk result (λ copy. copy ≡ text.now) }
{
    Ok(Items::from_vec(Vec::from_slice(alloc, text)?))
}

fn request_of_parts(
    alloc: Global,
    dash: Dash,
    number: usize,
    parts: &LineParts<'_>,
) -> Result<LineRequest, Unread>
    requires { words_of parts.now.text.now ≡ parts.now.command.now ∷ words_after parts.now.rest }
    ensures { ReadsField (request_of_words dash number
        (parts.now.key.now ∷ parts.now.team.now ∷ words_of parts.now.text.now)) result }
{
    let key = key_of(alloc, dash, number, parts.key)?;
    let team = team_of(alloc, parts.team)?;
    let requested = requested_of_words(alloc, parts.command, parts.rest)?;
    let text = copy_of(alloc, parts.text)?;
    Ok(LineRequest {
        team,
        key,
        text,
        requested,
    })
}

/// The request that the line of this number makes.
pub(crate) fn request_of(
    alloc: Global,
    dash: Dash,
    number: usize,
    line: &[u8],
) -> Result<LineRequest, Unread>
    ensures { ReadsField (request_of dash number line.now) result }
{
    match line_parts(line) {
        Some(parts) => request_of_parts(alloc, dash, number, &parts),
        None => Err(Unread::Wrong),
    }
}

/// The file of a bundle that is requested.
fn requested_bundle(requested: Requested) -> Option<FilePath>
    ensures { result ≡ requested_bundle requested }
{
    match requested {
        Requested::Bundle(bundle) => Some(bundle.into_path()),
        Requested::Command(_) | Requested::Import(_) => None,
    }
}

/// The file of the bundle that the line of this number, from 1, requests; `None` where it requests something else or
/// nothing, or is wrong. The error is out of memory.
pub fn bundle_file(
    alloc: Global,
    dash: Dash,
    number: usize,
    line: &[u8],
) -> Result<Option<FilePath>, AllocError>
    ensures { IfOk result (λ file. file ≡ bundle_file dash number line.now) }
{
    if says_nothing(line) {
        return Ok(None);
    }
    match request_of(alloc, dash, number, line) {
        Ok(request) => Ok(requested_bundle(request.requested)),
        Err(Unread::Wrong) => Ok(None),
        Err(Unread::Memory) => Err(AllocError),
    }
}
