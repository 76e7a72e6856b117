//! The requests of a team.
ghost use Rattle.std.specs.Prelude.{◌≡◌, List, map};
ghost use Rattle.std.specs.List.{AllByRecursion, flat_map};
ghost use Rattle.office_history.specs.History.{Answered};
ghost use Rattle.office_looks.specs.Requests.{IsRequestsText, asked_of};
ghost use Rattle.store_looks.specs.Asked.{IsFirstOf};
ghost use Rattle.store_changes.specs.Kept.{AreKept, AreKeptParts, content_and_answer, kept_answer};
ghost use Rattle.store_tables.specs.Frames.{Asks, ReadsOnly, ReadsWhileOpen};

use office_history::Key;
use office_looks::{AnsweredRequest, requests_text};
use office_types::{LookForm, Team};
use sqlite::{Alter, Error, Transaction};
use std::alloc::Global;
use store_changes::{KeptRequest, kept_at, keys_of};

/// The team's request under the key. An error is out of memory, what `sqlite` answers, or `InvalidQuery` where it isn't
/// there or the rows are those of no reply.
fn kept_under<S: Alter>(
    alloc: Global,
    tx: &mut Transaction<'_, S>,
    team: &Team,
    key: &Key,
) -> Result<KeptRequest, Error>
    ensures found { Asks S.Store tx.old tx.new result
        (λ kept t. (h : List Answered) → AreKept h t.reply → AreKeptParts h t.part
        → (a : Answered) → IsFirstOf h team.now a → a.key ≡ key.now
        → kept_answer kept ≡ content_and_answer a) }
    ensures frame { ReadsOnly S.Store tx.old tx.new result }
{
    match kept_at(alloc, tx, team, key)? {
        Some(kept) => Ok(kept),
        None => Err(Error::InvalidQuery),
    }
}

/// The team's requests under these keys, in order. The errors are those of [`kept_under`].
fn requests_under<'k, S: Alter>(
    alloc: Global,
    tx: &mut Transaction<'_, S>,
    team: &Team,
    keys: &'k [Key],
) -> Result<Vec<AnsweredRequest<'k>>, Error>
    ensures found { Asks S.Store tx.old tx.new result
        (λ requests t. (h : List Answered) → AreKept h t.reply → AreKeptParts h t.part
        → (listed : List Answered) → AllByRecursion (IsFirstOf h team.now) listed
        → keys.now ≡ map (λ a. a.key) listed → requests.items ≡ flat_map asked_of listed) }
    ensures frame { ReadsWhileOpen S.Store tx.old tx.new result }
{
    let mut requests = Vec::new(alloc);
    for key in keys {
        let (content, reply) = kept_under(alloc, tx, team, key)?.into_parts();
        let request = AnsweredRequest::of(alloc, key, content.as_slice(), reply)?;
        requests.push(request)?;
    }
    Ok(requests)
}

/// The team's requests that were answered, in the order of their keys and in the form. A team that nothing is known of has
/// no requests. An error is out of memory, what `sqlite` answers, or `InvalidQuery` where the rows are no office's.
pub fn requests_at<S: Alter>(
    alloc: Global,
    tx: &mut Transaction<'_, S>,
    team: &Team,
    form: LookForm,
) -> Result<Vec<u8>, Error>
    ensures found { Asks S.Store tx.old tx.new result
        (λ text t. (h : List Answered) → AreKept h t.reply → AreKeptParts h t.part
        → IsRequestsText team.now h form text.items) }
    ensures frame { ReadsOnly S.Store tx.old tx.new result }
{
    let keys = keys_of(alloc, tx, team)?;
    let requests = requests_under(alloc, tx, team, &keys)?;
    Ok(requests_text(alloc, &requests, form)?)
}
