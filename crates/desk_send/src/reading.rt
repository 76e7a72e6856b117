//! The answer that a JSON value may be of.
ghost use Rattle.std.specs.Prelude.{◌≡◌, IfOk};
ghost use Rattle.std.specs.Option.{option_map};
ghost use Rattle.serde_json.specs.Find.{get};
ghost use Rattle.serde_json.specs.View.{items_view, view};
ghost use Rattle.desk_call.specs.Body.{json_in};
ghost use Rattle.desk_send.specs.Answer.{answer_at, answer_in, bundle_reply, counts_in, numbers_in, part_in};
ghost use Rattle.desk_send.specs.Answer.{part_numbers_in, parts_in, refused_in, reply_in, single_in, single_numbers_in};
ghost use Rattle.desk_send.specs.Answer.{whole_in};

use base::Items;
use office_history::Answer;
use office_types::{PartNumbers, PartReply, Parts, Reply, ReplyNumbers};
use serde_json::Value;
use std::alloc::{AllocError, Global};
use std::str::from_utf8;

/// The JSON value that the bytes are the text of, or `None` where they are no text of one.
#[tactic(auto, unfolding(desk_call::specs::Body::json_in))]
fn json_in(alloc: Global, bytes: &[u8]) -> Result<Option<Value>, AllocError>
    ensures { IfOk result (λ found. option_map view found ≡ json_in bytes.now) }
{
    let Ok(text) = from_utf8(bytes) else {
        return Ok(None);
    };
    match Value::from_str(alloc, text) {
        Ok(value) => Ok(Some(value)),
        Err(error) if error.is_memory() => Err(AllocError),
        Err(_) => Ok(None),
    }
}

/// The whole number of 32 bits under a name.
fn whole_in(value: &Value, name: &str) -> Option<u32>
    ensures { result ≡ whole_in name.now (view value.now) }
{
    let number = value.get(name)?.as_u64()?;
    if number <= u64::from(u32::MAX) {
        Some(number as u32)
    } else {
        None
    }
}

fn part_numbers_in(value: &Value) -> Option<PartNumbers>
    ensures { result ≡ part_numbers_in (view value.now) }
{
    if value.get("done").is_some() {
        return Some(PartNumbers { kind: 0, a: 0 });
    }
    if let Some(number) = whole_in(value, "number") {
        return Some(PartNumbers { kind: 1, a: number });
    }
    if let Some(start) = whole_in(value, "start") {
        return Some(PartNumbers { kind: 2, a: start });
    }
    let release = whole_in(value, "release")?;
    Some(PartNumbers {
        kind: 4,
        a: release,
    })
}

fn part_in(value: &Value) -> Option<PartReply>
    ensures { result ≡ part_in (view value.now) }
{
    PartReply::of_numbers(part_numbers_in(value)?)
}

fn parts_in(alloc: Global, items: &[Value]) -> Result<Option<Items<PartReply>>, AllocError>
    ensures { IfOk result (λ found. found ≡ parts_in (items_view items.now)) }
{
    let mut parts = Items::new(alloc);
    let mut left = items;
    while let [value, rest @ ..] = left {
        let Some(part) = part_in(value) else {
            return Ok(None);
        };
        parts.push(part)?;
        left = rest;
    }
    Ok(Some(parts))
}

fn bundle_reply(parts: Items<PartReply>) -> Option<Reply>
    ensures { result ≡ bundle_reply parts }
{
    Some(Reply::Bundle(Parts::of(parts)?))
}

fn counts_in(value: &Value) -> Option<ReplyNumbers>
    ensures { result ≡ counts_in (view value.now) }
{
    let new = whole_in(value, "new")?;
    let same = whole_in(value, "same")?;
    Some(ReplyNumbers {
        kind: 3,
        a: new,
        b: same,
        c: 0,
    })
}

fn refused_in(value: &Value) -> Option<ReplyNumbers>
    ensures { result ≡ refused_in (view value.now) }
{
    let number = whole_in(value, "refused")?;
    Some(ReplyNumbers {
        kind: 5,
        a: number,
        b: whole_in(value, "fault").unwrap_or(0),
        c: whole_in(value, "at").unwrap_or(0),
    })
}

fn single_numbers_in(value: &Value) -> Option<ReplyNumbers>
    ensures { result ≡ single_numbers_in (view value.now) }
{
    let PartNumbers { kind, a } = part_numbers_in(value)?;
    Some(ReplyNumbers {
        kind,
        a,
        b: 0,
        c: 0,
    })
}

fn numbers_in(value: &Value) -> Option<ReplyNumbers>
    ensures { result ≡ numbers_in (view value.now) }
{
    if let Some(numbers) = counts_in(value) {
        return Some(numbers);
    }
    if let Some(numbers) = refused_in(value) {
        return Some(numbers);
    }
    single_numbers_in(value)
}

/// A reply that is no bundle's.
fn single_in(alloc: Global, value: &Value) -> Option<Reply>
    ensures { result ≡ single_in (view value.now) }
{
    Reply::of_numbers(numbers_in(value)?, Items::new(alloc))
}

fn reply_in(alloc: Global, value: &Value) -> Result<Option<Reply>, AllocError>
    ensures { IfOk result (λ found. found ≡ reply_in (view value.now)) }
{
    let Some(items) = value.get("bundle").and_then(Value::as_array) else {
        return Ok(single_in(alloc, value));
    };
    match parts_in(alloc, items.as_slice())? {
        Some(parts) => Ok(bundle_reply(parts)),
        None => Ok(None),
    }
}

/// The answer that a JSON value may be of, by its members.
fn answer_in(alloc: Global, value: &Value) -> Result<Option<Answer>, AllocError>
    ensures { IfOk result (λ found. found ≡ answer_in (view value.now)) }
{
    if whole_in(value, "refused") == Some(70) {
        return Ok(Some(Answer::KeyReused));
    }
    match reply_in(alloc, value)? {
        Some(reply) => Ok(Some(Answer::Reply(reply))),
        None => Ok(None),
    }
}

/// The answer that a body may be of.
pub(crate) fn answer_at(alloc: Global, body: &[u8]) -> Result<Option<Answer>, AllocError>
    ensures { IfOk result (λ found. found ≡ answer_at body.now) }
{
    match json_in(alloc, body)? {
        Some(value) => answer_in(alloc, &value),
        None => Ok(None),
    }
}
