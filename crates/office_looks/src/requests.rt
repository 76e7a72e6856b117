//! The requests of a team.
ghost use Rattle.std.specs.Prelude.{◌≡◌, ◌++◌, ◌∷◌, ◌==◌, [], IfOk, OnOk, codes, count_by, decimal, string_bytes};
ghost use Rattle.std.specs.List.{before_first};
ghost use Rattle.office_types.specs.Reply.{part_text};
ghost use Rattle.office_looks.specs.Looks.{list_in};
ghost use Rattle.office_looks.specs.Requests.{asked, content_front, is_refused, part_row, part_rows, request_rows};
ghost use Rattle.office_looks.specs.Requests.{requests_table, short_reply, was_refused, whole_row};
ghost use Rattle.rows.specs.Fact.{fact_of, of_name};

use crate::looks::list_in;
use base::{Items, split_once};
use office_history::Key;
use office_types::{LookForm, PartReply, Reply};
use rows::{Alignment, Cell, Column, Rows, Table};
use std::alloc::{AllocError, Global};
use std::marker::Model;

/// The columns of a request.
pub const REQUESTS: [Column; 3] = [
    Column(*b"key         ", Alignment::Left(24)),
    Column(*b"reply       ", Alignment::Left(24)),
    Column(*b"request     ", Alignment::From),
];

/// How many there are, and how many of them were refused.
pub const REQUEST_TOTALS: [Column; 2] = [
    Column(*b"requests    ", Alignment::Counted(0)),
    Column(*b"refused     ", Alignment::Counted(0)),
];

/// The greatest number of bytes that are shown of a content.
const SHOWN_LIMIT: usize = 512;

fn first_line(content: &[u8]) -> &[u8]
    ensures { result.now ≡ before_first (λ b. b == 10) content.now }
{
    match split_once(content, b'\n') {
        Some((line, _)) => line,
        None => content,
    }
}

fn content_front(content: &[u8]) -> &[u8]
    ensures { result.now ≡ content_front content.now }
{
    let line = first_line(content);
    if line.len() <= SHOWN_LIMIT {
        line
    } else {
        &line[..SHOWN_LIMIT]
    }
}

/// A request that was answered. Contracts see it as an `Asked`.
pub struct AnsweredRequest<'a> {
    key: &'a Key,
    front: Items<u8>,
    goes_on: bool,
    reply: Reply,
}

impl<'a> Model for AnsweredRequest<'a> {
    ghost use Rattle.office_looks.specs.Requests.{Asked};

    ghost Value = { Asked };

    ghost view = { λ r. record {
      key = r.key.now;
      front = r.front;
      goes_on = r.goes_on;
      reply = r.reply;
    } };
}

impl<'a> AnsweredRequest<'a> {
    /// The request under the key, of this content, and what it was answered. The error is out of memory.
    pub fn of(
        alloc: Global,
        key: &'a Key,
        content: &[u8],
        reply: Reply,
    ) -> Result<AnsweredRequest<'a>, AllocError>
        ensures { IfOk result (λ request. request ≡ asked key.now content.now reply) }
    {
        let front = content_front(content);
        let goes_on = front.len() < content.len();
        let front = Items::from_vec(Vec::from_slice(alloc, front)?);
        Ok(AnsweredRequest {
            key,
            front,
            goes_on,
            reply,
        })
    }
}

impl Drop for AnsweredRequest<'_> {
    fn drop(self) {
        let AnsweredRequest {
            key: _,
            front: _front,
            goes_on: _,
            reply: _reply,
        } = self;
    }
}

/// The text as a name that the list owns.
fn made<'a>(text: String) -> Cell<'a>
    ensures { fact_of result ≡ of_name (string_bytes text) }
{
    Cell::Made(Items::from_vec(text.into_bytes()))
}

/// The reply's text; of a bundle, how many parts it has.
fn reply_cell<'a>(alloc: Global, reply: &Reply) -> Result<Cell<'a>, AllocError>
    ensures { IfOk result (λ cell. fact_of cell ≡ of_name (short_reply reply.now)) }
{
    match reply {
        Reply::Bundle(parts) => {
            let count = parts.count();
            Ok(made(format!(in alloc; "bundle {count}")?))
        }
        _ => Ok(made(format!(in alloc; "{reply}")?)),
    }
}

/// Adds the row of a request without those of its parts.
fn push_whole<'a>(
    alloc: Global,
    rows: &mut Rows<'a>,
    request: &'a AnsweredRequest<'_>,
) -> Result<(), AllocError>
    ensures { OnOk result (rows.new ≡ rows.old ++ whole_row request.now ∷ []) }
{
    let reply = reply_cell(alloc, &request.reply)?;
    let cells = vec![in alloc;
        Cell::Word(request.key.as_bytes()),
        reply,
        Cell::Front(request.front.as_slice(), request.goes_on),
    ]?;
    rows.push(cells)
}

/// What a part was answered.
fn part_cell<'a>(alloc: Global, part: &PartReply) -> Result<Cell<'a>, AllocError>
    ensures { IfOk result (λ cell. fact_of cell ≡ of_name (part_text part.now)) }
{
    Ok(made(format!(in alloc; "{part}")?))
}

/// The place of a part.
fn command_cell<'a>(alloc: Global, place: usize) -> Result<Cell<'a>, AllocError>
    ensures { IfOk result (λ cell. fact_of cell ≡ of_name (codes "command " ++ decimal place)) }
{
    Ok(made(format!(in alloc; "command {place}")?))
}

/// Adds the row of the part at this place of a bundle.
fn push_part<'a>(
    alloc: Global,
    rows: &mut Rows<'a>,
    key: &'a Key,
    place: usize,
    part: &PartReply,
) -> Result<(), AllocError>
    ensures { OnOk result (rows.new ≡ rows.old ++ part_row key.now place part.now ∷ []) }
{
    let reply = part_cell(alloc, part)?;
    let command = command_cell(alloc, place)?;
    let cells = vec![in alloc; Cell::Word(key.as_bytes()), reply, command]?;
    rows.push(cells)
}

/// Adds the rows of the parts of a bundle, the first of which is at 1.
fn push_parts<'a>(
    alloc: Global,
    rows: &mut Rows<'a>,
    key: &'a Key,
    parts: &[PartReply],
) -> Result<(), AllocError>
    ensures { OnOk result (rows.new ≡ rows.old ++ part_rows key.now parts.now) }
{
    for (index, part) in parts.iter().enumerate() {
        push_part(alloc, rows, key, index + 1, part)?;
    }
    Ok(())
}

/// Adds the rows of a request: its key, the reply (of a bundle, how many parts it has), and the first line of the content,
/// at most 512 bytes of it; and of a bundle one for each part, in order: the key, what the part was answered, and its
/// place from 1 on.
fn push_request<'a>(
    alloc: Global,
    rows: &mut Rows<'a>,
    request: &'a AnsweredRequest<'_>,
) -> Result<(), AllocError>
    ensures { OnOk result (rows.new ≡ rows.old ++ request_rows request.now) }
{
    push_whole(alloc, rows, request)?;
    push_parts(alloc, rows, request.key, request.reply.parts())
}

fn is_refused(reply: &Reply) -> bool
    ensures { result ≡ is_refused reply.now }
{
    matches!(reply, Reply::Refused(_))
}

/// How many of the requests were refused.
fn refused_count(requests: &[AnsweredRequest<'_>]) -> usize
    ensures { result ≡ count_by was_refused requests.now }
{
    let mut count = 0;
    for request in requests {
        if is_refused(&request.reply) {
            count += 1;
        }
    }
    count
}

/// The requests as a list.
fn requests_table<'a>(
    alloc: Global,
    requests: &'a [AnsweredRequest<'_>],
) -> Result<Table<'a>, AllocError>
    ensures { IfOk result (λ table. table ≡ requests_table requests.now) }
{
    let mut rows = Rows::new(alloc);
    for request in requests {
        push_request(alloc, &mut rows, request)?;
    }
    let totals = vec![in alloc;
        Cell::Number(requests.len() as u128),
        Cell::Number(refused_count(requests) as u128),
    ]?;
    Table::plain(alloc, &REQUESTS, rows, &REQUEST_TOTALS, totals)
}

/// The requests in the form: of each its key, the reply and the first line of its content, and of a bundle a row for each
/// part; and how many there are and were refused. The error is out of memory.
pub fn requests_text(
    alloc: Global,
    requests: &[AnsweredRequest<'_>],
    form: LookForm,
) -> Result<Vec<u8>, AllocError>
    ensures { IfOk result (λ text. text.items ≡ list_in form (requests_table requests.now)) }
{
    let table = requests_table(alloc, requests)?;
    list_in(alloc, form, &table)
}
