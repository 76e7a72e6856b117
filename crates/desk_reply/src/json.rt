//! Replies as JSON.
ghost use Rattle.std.specs.Prelude.{◌≡◌, IfOk, codes};
ghost use Rattle.serde_json.specs.View.{items_view, view};
ghost use Rattle.serde_json.specs.Data.{array, member, no_members, object};
ghost use Rattle.desk_reply.specs.Reply.{answer_data, fault_data, part_data, parts_data, problem_data, refusal_data};
ghost use Rattle.desk_reply.specs.Reply.{refused_data, reply_data};

use desk_types::Problem;
use office_history::Answer;
use office_types::{FileFault, PartReply, Refusal, Reply};
use serde_json::{Value, json};
use std::alloc::{AllocError, Global};

fn refused_value(alloc: Global, name: &str, number: u8) -> Result<Value, AllocError>
    ensures { IfOk result (λ v. view v ≡ refused_data name.now number) }
{
    json!(in alloc; {"name": name, "refused": number})
}

fn fault_value(alloc: Global, name: &str, number: u8, fault: FileFault) -> Result<Value, AllocError>
    ensures { IfOk result (λ v. view v ≡ fault_data name.now number fault) }
{
    let FileFault { fault, at } = fault;
    json!(in alloc; {"at": at, "fault": fault, "name": name, "refused": number})
}

fn refusal_value(alloc: Global, refusal: Refusal) -> Result<Value, AllocError>
    ensures { IfOk result (λ v. view v ≡ refusal_data refusal) }
{
    match refusal {
        Refusal::FileFault(fault) => fault_value(alloc, "FileFault", 58, fault),
        Refusal::BundleRefused(fault) => fault_value(alloc, "BundleRefused", 62, fault),
        _ => refused_value(alloc, refusal.name(), refusal.number()),
    }
}

fn part_value(alloc: Global, part: PartReply) -> Result<Value, AllocError>
    ensures { IfOk result (λ v. view v ≡ part_data part) }
{
    match part {
        PartReply::Done => json!(in alloc; {"done": true}),
        PartReply::Number(number) => json!(in alloc; {"number": number}),
        PartReply::Start(start) => json!(in alloc; {"start": start}),
        PartReply::Release(number) => json!(in alloc; {"release": number}),
    }
}

fn part_values(alloc: Global, parts: &[PartReply]) -> Result<Vec<Value>, AllocError>
    ensures { IfOk result (λ values. items_view values.items ≡ parts_data parts.now) }
{
    let mut values = Vec::new(alloc);
    for part in parts {
        values.push(part_value(alloc, *part)?)?;
    }
    Ok(values)
}

fn bundle_value(alloc: Global, parts: &[PartReply]) -> Result<Value, AllocError>
    ensures { IfOk result (λ v. view v
        ≡ object (member (codes "bundle") (array (parts_data parts.now)) no_members)) }
{
    let values = part_values(alloc, parts)?;
    json!(in alloc; {"bundle": Value::Array(values)})
}

fn reply_value(alloc: Global, reply: &Reply) -> Result<Value, AllocError>
    ensures { IfOk result (λ v. view v ≡ reply_data reply.now) }
{
    match reply {
        Reply::Done => json!(in alloc; {"done": true}),
        Reply::Number(number) => json!(in alloc; {"number": *number}),
        Reply::Start(start) => json!(in alloc; {"start": *start}),
        Reply::Counts { new, same } => json!(in alloc; {"new": *new, "same": *same}),
        Reply::Release(number) => json!(in alloc; {"release": *number}),
        Reply::Refused(refusal) => refusal_value(alloc, *refusal),
        Reply::Bundle(parts) => bundle_value(alloc, parts.as_slice()),
    }
}

/// An answer as JSON.
pub(crate) fn answer_value(alloc: Global, answer: &Answer) -> Result<Value, AllocError>
    ensures { IfOk result (λ v. view v ≡ answer_data answer.now) }
{
    match answer {
        Answer::Reply(reply) => reply_value(alloc, reply),
        Answer::KeyReused => refused_value(alloc, "KeyReused", 70),
    }
}

/// A problem as JSON.
pub(crate) fn problem_value(alloc: Global, problem: Problem) -> Result<Value, AllocError>
    ensures { IfOk result (λ v. view v ≡ problem_data problem) }
{
    let text = problem.text();
    json!(in alloc; {"error": text})
}
