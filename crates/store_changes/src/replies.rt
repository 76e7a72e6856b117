//! Kept replies: the rows of an answered request, and what a request under the same key is answered.
ghost use Rattle.std.specs.Prelude.{◌≡◌, ◌++◌, ◌∷◌, [], List, Some, IfOk};
ghost use Rattle.std.specs.Option.{option_map};
ghost use Rattle.office_types.specs.Reply.{reply_parts};
ghost use Rattle.office_types.specs.declared.reply.Reply.{Reply as ReplyModel};
ghost use Rattle.office_history.specs.History.{Answered, answer_again, first_of};
ghost use Rattle.store_changes.specs.Kept.{AreKept, AreKeptParts, ShowsKept, ShowsReply, answer_parts, kept_row, part_rows};
ghost use Rattle.store_tables.specs.Frames.{Asks, ReadsOnly, Relates, WritesAndStaysIn};

use crate::writing::number_above;
use base::Items;
use office_history::{Answer, Key};
use office_types::{PartReply, Reply, ReplyNumbers, Team};
use sqlite::{Alter, Error, Row, Transaction};
use std::alloc::Global;
use store_rows::{blob_at, items_of, number_at};
use store_statements::{PartRow, ReplyRow, insert_part, insert_reply, select_parts, select_reply};

/// Writes what the parts of a bundle are answered, each at its place from 1 on.
fn write_parts<S: Alter>(
    tx: &mut Transaction<'_, S>,
    team: &[u8],
    key: &[u8],
    parts: &[PartReply],
) -> Result<(), Error>
    ensures written { Relates S.Store tx.old tx.new result (λ before after. after
        ≡ (record before { part = before.part ++ part_rows team.now key.now 1 parts.now })) }
    ensures frame { WritesAndStaysIn S.Store tx.old tx.new result }
{
    let mut place = 1;
    for part in parts {
        let numbers = part.numbers();
        let row = PartRow {
            team,
            key,
            place,
            kind: numbers.kind,
            a: numbers.a,
            b: 0,
        };
        insert_part(tx, &row)?;
        place = number_above(place)?;
    }
    Ok(())
}

/// Adds the row of the reply to a team's request under a key, with the bytes of the request, and, where the reply is
/// that of a bundle, a row for each part. The error is `sqlite`'s: out of memory, the disk's, or that the pair of team
/// and key has a row already.
pub fn keep_reply<S: Alter>(
    tx: &mut Transaction<'_, S>,
    team: &Team,
    key: &Key,
    content: &[u8],
    reply: &Reply,
) -> Result<(), Error>
    ensures added { Relates S.Store tx.old tx.new result (λ before after. after ≡ (record before {
      reply = before.reply ++ kept_row team.now key.now content.now reply.now ∷ [];
      part = before.part ++ part_rows team.now key.now 1 (reply_parts reply.now);
    })) }
    ensures frame { WritesAndStaysIn S.Store tx.old tx.new result }
{
    let numbers = reply.numbers();
    let row = ReplyRow {
        team: team.as_bytes(),
        key: key.as_bytes(),
        content,
        kind: numbers.kind,
        a: numbers.a,
        b: numbers.b,
        c: numbers.c,
    };
    insert_reply(tx, &row)?;
    write_parts(tx, team.as_bytes(), key.as_bytes(), reply.parts())
}

/// The answers to the parts of the bundle that the team requested under the key, in order. The error is `sqlite`'s, out
/// of memory or the disk's, or that of a row that is no part's.
pub(crate) fn parts_at<S: Alter>(
    alloc: Global,
    tx: &mut Transaction<'_, S>,
    team: &Team,
    key: &Key,
) -> Result<Items<PartReply>, Error>
    ensures found { Asks S.Store tx.old tx.new result
        (λ parts t. (h : List Answered) → AreKeptParts h t.part
        → (a first : Answered) → a.team ≡ team.now → a.key ≡ key.now → first_of h a ≡ Some first
        → parts ≡ answer_parts first.answer) }
    ensures frame { ReadsOnly S.Store tx.old tx.new result }
{
    let rows = select_parts(tx, team.as_bytes(), key.as_bytes())?;
    items_of(alloc, &rows)
}

/// The reply in the second to the fifth column, with these parts. An error where they are the numbers of none.
pub(crate) fn reply_in(row: &Row, parts: Items<PartReply>) -> Result<Reply, Error>
    ensures { IfOk result (λ reply. (other : ReplyModel) → ShowsReply other row.now
        → parts ≡ reply_parts other → reply ≡ other) }
{
    let numbers = ReplyNumbers {
        kind: number_at(row, 1)?,
        a: number_at(row, 2)?,
        b: number_at(row, 3)?,
        c: number_at(row, 4)?,
    };
    match Reply::of_numbers(numbers, parts) {
        Some(reply) => Ok(reply),
        None => Err(Error::InvalidQuery),
    }
}

/// What a request of this content is answered, where the row is that of the first one of its pair, which was answered
/// with these parts.
fn answer_in(row: &Row, parts: Items<PartReply>, content: &[u8]) -> Result<Answer, Error>
    ensures { IfOk result (λ answer. (first : Answered) → ShowsKept first row.now
        → parts ≡ answer_parts first.answer → answer ≡ answer_again first content.now) }
{
    let kept = blob_at(row, 0)?;
    let reply = reply_in(row, parts)?;
    if kept == content {
        Ok(Answer::Reply(reply))
    } else {
        Ok(Answer::KeyReused)
    }
}

/// What a team's request under a key is answered if one came under that key before: the reply that the first one got,
/// where the contents are equal byte for byte, and else [`Answer::KeyReused`]. `None` where none came. The error is
/// `sqlite`'s, out of memory or the disk's, or that of a row that is no reply's.
pub fn answer_at<S: Alter>(
    alloc: Global,
    tx: &mut Transaction<'_, S>,
    team: &Team,
    key: &Key,
    content: &[u8],
) -> Result<Option<Answer>, Error>
    ensures found { Asks S.Store tx.old tx.new result
        (λ found t. (h : List Answered) → AreKept h t.reply → AreKeptParts h t.part
        → (a : Answered) → a.team ≡ team.now → a.key ≡ key.now → a.content ≡ content.now
        → found ≡ option_map (λ first. answer_again first a.content) (first_of h a)) }
    ensures frame { ReadsOnly S.Store tx.old tx.new result }
{
    let rows = select_reply(tx, team.as_bytes(), key.as_bytes())?;
    match rows.first() {
        None => Ok(None),
        Some(row) => {
            let parts = parts_at(alloc, tx, team, key)?;
            Ok(Some(answer_in(row, parts, content)?))
        }
    }
}
