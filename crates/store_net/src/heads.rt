//! The heads of live messages: whether one has a name, and whether there are as many as there may be.
ghost use Rattle.std.specs.Prelude.{◌≡◌, ◌≤◌, ◌∷◌, [], ℕ, IfOk, length, nat_le, true};
ghost use Rattle.dbc_words.specs.Limits.{message_limit};
ghost use Rattle.dbc_words.specs.Named.{has_name};
ghost use Rattle.office_rules.specs.Facts.{live_name};
ghost use Rattle.sqlite_sql.specs.Aggregate.{count};
ghost use Rattle.store_tables.specs.Frames.{Asks, ReadsOnly};
ghost use Rattle.store_rows.specs.Live.{OnLive};

use dbc_words::{MESSAGE_LIMIT, Name};
use office_types::NetName;
use sqlite::{Alter, Error, Row, Transaction};
use store_rows::number_at;
use store_statements::{count_msgs, select_msg_above, select_msg_below, select_msg_named};

/// Whether a live message of the network has the name. The error is `sqlite`'s.
pub(crate) fn is_named_at<S: Alter>(
    tx: &mut Transaction<'_, S>,
    name: &NetName,
    message: &Name,
) -> Result<bool, Error>
    ensures found { Asks S.Store tx.old tx.new result
        (OnLive name.now (λ live named. named ≡ has_name live_name live message.now)) }
    ensures frame { ReadsOnly S.Store tx.old tx.new result }
{
    let rows = select_msg_named(tx, name.as_bytes(), message.as_bytes())?;
    Ok(!rows.is_empty())
}

/// The number in the one row of a count: exactly what was counted, since a number that is read has 32 bits, and a count
/// stops only at 2^63 - 1. `InvalidQuery` where there is no row, or 2^32 or more were counted.
pub(crate) fn count_shown(rows: &[Row]) -> Result<usize, Error>
    ensures { (counted : ℕ) → rows.now ≡ (count counted ∷ []) ∷ []
        → IfOk result (λ number. number ≡ counted) }
{
    match rows.first() {
        None => Err(Error::InvalidQuery),
        Some(row) => {
            let number = number_at(row, 0)?;
            Ok(number as usize)
        }
    }
}

/// Whether the live messages of all networks are at most so many, as their rowids show: they are from 1 to that number,
/// and no two are the same. Where it answers `false`, they may be as few all the same. It takes two searches, however
/// many messages there are. The error is `sqlite`'s.
fn are_few<S: Alter>(tx: &mut Transaction<'_, S>, most: u32) -> Result<bool, Error>
    ensures found { Asks S.Store tx.old tx.new result (λ few t. few ≡ true → length t.msg ≤ most) }
    ensures frame { ReadsOnly S.Store tx.old tx.new result }
{
    let above = select_msg_above(tx, most)?;
    let below = select_msg_below(tx, 1)?;
    Ok(above.is_empty() && below.is_empty())
}

/// How many live messages the network has. An error is `sqlite`'s, or `InvalidQuery` where there are 2^32 or more.
fn count_at<S: Alter>(tx: &mut Transaction<'_, S>, name: &NetName) -> Result<usize, Error>
    ensures found { Asks S.Store tx.old tx.new result
        (OnLive name.now (λ live count. count ≡ length live)) }
    ensures frame { ReadsOnly S.Store tx.old tx.new result }
{
    let rows = count_msgs(tx, name.as_bytes())?;
    count_shown(&rows)
}

/// Whether the network has as many live messages as it may have. They are counted only where the rowids don't show that
/// all networks together have fewer. An error is `sqlite`'s, or `InvalidQuery` where 2^32 or more are counted.
pub(crate) fn is_full_at<S: Alter>(
    tx: &mut Transaction<'_, S>,
    name: &NetName,
) -> Result<bool, Error>
    ensures found { Asks S.Store tx.old tx.new result
        (OnLive name.now (λ live full. full ≡ nat_le message_limit (length live))) }
    ensures frame { ReadsOnly S.Store tx.old tx.new result }
{
    if are_few(tx, MESSAGE_LIMIT as u32 - 1)? {
        return Ok(false);
    }
    let count = count_at(tx, name)?;
    Ok(count >= MESSAGE_LIMIT)
}
