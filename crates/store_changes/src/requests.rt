//! Requests that were answered, as they are kept.
ghost use Rattle.std.specs.Prelude.{◌≡◌, List, IfOk};
ghost use Rattle.std.specs.Option.{option_map};
ghost use Rattle.office_history.specs.History.{Answered, first_of};
ghost use Rattle.store_rows.specs.Listed.{AreShown};
ghost use Rattle.store_changes.specs.Kept.{AreKept, AreKeptParts, AreKeysOf, ShowsKept, answer_parts};
ghost use Rattle.store_changes.specs.Kept.{content_and_answer, kept_answer};
ghost use Rattle.store_rows.specs.Rows.{IsNamed};
ghost use Rattle.store_tables.specs.Frames.{Asks, ReadsOnly};

use crate::replies::{parts_at, reply_in};
use base::Items;
use office_history::Key;
use office_types::{PartReply, Reply, Team};
use sqlite::{Alter, Error, Row, Transaction};
use std::alloc::Global;
use store_rows::{blob_at, text_at};
use store_statements::{select_keys, select_reply};

/// A request that was answered.
pub struct KeptRequest {
    /// The bytes in which it came.
    pub content: Items<u8>,
    /// What the office replied.
    pub reply: Reply,
}

impl KeptRequest {
    ghost use Rattle.std.specs.Prelude.{◌≡◌};

    /// The bytes and the reply.
    pub fn into_parts(self) -> (Items<u8>, Reply)
        ensures { result ≡ (self.content, self.reply) }
    {
        let KeptRequest { content, reply } = self;
        (content, reply)
    }
}

impl Drop for KeptRequest {
    fn drop(self) {
        let KeptRequest {
            content: _content,
            reply: _reply,
        } = self;
    }
}

/// The key that the row shows. An error where it shows none, or memory ran out.
fn key_in(alloc: Global, row: &Row) -> Result<Key, Error>
    ensures { IfOk result (λ key. IsNamed key row.now) }
{
    let text = text_at(row, 0)?;
    match Key::of(alloc, text)? {
        Some(key) => Ok(key),
        None => Err(Error::InvalidQuery),
    }
}

/// The keys that the rows show, in order. An error where a row shows none, or memory ran out.
fn keys_in(alloc: Global, rows: &[Row]) -> Result<Vec<Key>, Error>
    ensures { IfOk result (λ keys. AreShown IsNamed keys.items rows.now) }
{
    let mut keys = Vec::new(alloc);
    for row in rows {
        let key = key_in(alloc, row)?;
        keys.push(key)?;
    }
    Ok(keys)
}

/// The keys of the team's requests that were answered, in the order of their bytes. An error is out of memory, what
/// `sqlite` answers, or `InvalidQuery` where a row has no key.
pub fn keys_of<S: Alter>(
    alloc: Global,
    tx: &mut Transaction<'_, S>,
    team: &Team,
) -> Result<Vec<Key>, Error>
    ensures found { Asks S.Store tx.old tx.new result
        (λ keys t. (h : List Answered) → AreKept h t.reply → AreKeysOf team.now h keys.items) }
    ensures frame { ReadsOnly S.Store tx.old tx.new result }
{
    let rows = select_keys(tx, team.as_bytes())?;
    keys_in(alloc, &rows)
}

/// The request that the row shows, which was answered with these parts. An error where it shows none, or memory ran
/// out.
fn kept_in(alloc: Global, row: &Row, parts: Items<PartReply>) -> Result<KeptRequest, Error>
    ensures { IfOk result (λ kept. (first : Answered) → ShowsKept first row.now
        → parts ≡ answer_parts first.answer → kept_answer kept ≡ content_and_answer first) }
{
    let content = blob_at(row, 0)?;
    let content = Items::from_vec(Vec::from_slice(alloc, content)?);
    let reply = reply_in(row, parts)?;
    Ok(KeptRequest { content, reply })
}

/// The team's request under the key that was answered, `None` where none was. An error is out of memory, what `sqlite`
/// answers, or `InvalidQuery` where the rows are those of no reply.
pub fn kept_at<S: Alter>(
    alloc: Global,
    tx: &mut Transaction<'_, S>,
    team: &Team,
    key: &Key,
) -> Result<Option<KeptRequest>, Error>
    ensures found { Asks S.Store tx.old tx.new result
        (λ found t. (h : List Answered) → AreKept h t.reply → AreKeptParts h t.part
        → (a : Answered) → a.team ≡ team.now → a.key ≡ key.now
        → option_map kept_answer found ≡ option_map content_and_answer (first_of h a)) }
    ensures frame { ReadsOnly S.Store tx.old tx.new result }
{
    let rows = select_reply(tx, team.as_bytes(), key.as_bytes())?;
    match rows.first() {
        None => Ok(None),
        Some(row) => {
            let parts = parts_at(alloc, tx, team, key)?;
            Ok(Some(kept_in(alloc, row, parts)?))
        }
    }
}
