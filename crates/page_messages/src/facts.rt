//! The facts of a message, and from whom it goes to whom.
ghost use Rattle.std.specs.Prelude.{◌≡◌, IfSome, is_some};
ghost use Rattle.std.specs.List.{list_all};
ghost use Rattle.std.specs.Str.{bytes_eq};
ghost use Rattle.markup.specs.Html.{escaped};
ghost use Rattle.markup.specs.Writing.{Becomes, adding, whole};
ghost use Rattle.page_messages.specs.Each.{coding_fact, destination_fact, fact, facts_html, fields_facts, group_facts};
ghost use Rattle.page_messages.specs.Each.{ident_code, route_html, sender_html, size_facts, used_words};
ghost use Rattle.page_messages.specs.Signals.{coding_of, first_coding, has_common_coding};

use crate::receivers::receivers_of;
use crate::used::used_bits;
use bitlayout::Order;
use can_id::{Ident, J1939, has_destination};
use dbc_sheet::{Message, Signal};
use dbc_words::{Name, ValueType};
use markup::{Attribute, Markup, Tag};
use page_parts::{Subject, put_count, put_dot, put_ident_hex};
use std::alloc::{AllocError, Global};

/// How the signal is coded.
pub(crate) fn coding_of(signal: &Signal) -> &'static [u8]
    ensures { result.now ≡ coding_of signal.now }
{
    match (signal.layout.order, signal.value_type, signal.signed) {
        (Order::Intel, ValueType::Float, _) => b"Intel float",
        (Order::Intel, ValueType::Double, _) => b"Intel double",
        (Order::Intel, ValueType::Integer, true) => b"Intel signed",
        (Order::Intel, ValueType::Integer, false) => b"Intel unsigned",
        (Order::Motorola, ValueType::Float, _) => b"Motorola float",
        (Order::Motorola, ValueType::Double, _) => b"Motorola double",
        (Order::Motorola, ValueType::Integer, true) => b"Motorola signed",
        (Order::Motorola, ValueType::Integer, false) => b"Motorola unsigned",
    }
}

/// Whether all of the signals are coded so.
fn are_coded(signals: &[Signal], coding: &[u8]) -> bool
    ensures { result ≡ list_all (λ signal. bytes_eq (coding_of signal) coding.now) signals.now }
{
    signals.iter().all(|signal| coding_of(signal) == coding)
}

/// How all of the signals are coded, if they are coded alike.
pub(crate) fn common_coding(signals: &[Signal]) -> Option<&'static [u8]>
    ensures alike { is_some result ≡ has_common_coding signals.now }
    ensures coding { IfSome result (λ coding. coding.now ≡ first_coding signals.now) }
{
    let (first, others) = signals.split_first()?;
    let coding = coding_of(first);
    if are_coded(others, coding) {
        Some(coding)
    } else {
        None
    }
}

/// Adds a dot, a word and a number.
fn put_number_fact(page: &mut Markup, word: &[u8], number: u32)
    ensures { Becomes page.new (adding (fact (escaped word.now) number) page.old) }
{
    put_dot(page);
    page.text(word);
    page.number(u64::from(number));
}

/// Adds the destination address, if there is one.
fn put_destination(page: &mut Markup, fields: J1939)
    ensures { Becomes page.new (adding (destination_fact fields) page.old) }
{
    if has_destination(fields.pgn()) {
        put_number_fact(page, b"destination ", u32::from(fields.ps()));
    }
}

/// Adds the fields of an identifier of 29 bits.
fn put_fields(page: &mut Markup, fields: J1939)
    ensures { Becomes page.new (adding (fields_facts fields) page.old) }
{
    put_number_fact(page, b"PGN ", fields.pgn());
    put_number_fact(page, b"priority ", u32::from(fields.priority()));
    put_number_fact(page, b"source ", u32::from(fields.source()));
    put_destination(page, fields);
}

/// Adds the fields of an identifier, if it has some and they are shown.
fn put_group_facts(page: &mut Markup, is_j1939: bool, ident: Ident)
    ensures { Becomes page.new (adding (group_facts is_j1939 ident) page.old) }
{
    if is_j1939 {
        if let Some(fields) = J1939::of(ident) {
            put_fields(page, fields);
        }
    }
}

/// Adds how many bits of the message's payload are used.
fn put_used(page: &mut Markup, message: &Message)
    ensures { Becomes page.new (adding (used_words message.now) page.old) }
{
    let bytes = usize::from(message.length.bytes());
    page.number(used_bits(message) as u64);
    page.text(b" of ");
    page.number(8 * bytes as u64);
    page.text(b" bits used");
}

/// Adds the size of the message, and how much of it is used.
fn put_size_facts(page: &mut Markup, message: &Message)
    ensures { Becomes page.new (adding (size_facts message.now) page.old) }
{
    let bytes = usize::from(message.length.bytes());
    put_dot(page);
    put_count(page, bytes, b"byte");
    put_dot(page);
    put_used(page, message);
}

/// Adds how all of the signals are coded, if they are coded alike.
fn put_coding_fact(page: &mut Markup, signals: &[Signal])
    ensures { Becomes page.new (adding (coding_fact signals.now) page.old) }
{
    if let Some(coding) = common_coding(signals) {
        put_dot(page);
        page.text(coding);
    }
}

/// Adds the identifier.
fn put_ident(page: &mut Markup, ident: &Ident)
    ensures { Becomes page.new (adding (ident_code ident.now) page.old) }
{
    page.open(Tag::Code, &[]);
    put_ident_hex(page, ident);
    page.close();
}

/// Adds the facts of the message.
pub(crate) fn put_facts(page: &mut Markup, subject: &Subject<'_>, message: &Message)
    ensures { Becomes page.new (adding (facts_html subject.now.is_j1939 message.now) page.old) }
{
    put_ident(page, &message.ident);
    put_number_fact(page, &[], message.number());
    put_group_facts(page, subject.is_j1939, message.ident);
    put_size_facts(page, message);
    put_coding_fact(page, message.signals.as_slice());
}

/// Who receives the message, and how many of the signals where it isn't all. The error is out of memory.
pub(crate) fn receivers_part(alloc: Global, signals: &[Signal]) -> Result<Markup, AllocError> {
    let receivers = receivers_of(alloc, signals)?;
    let mut part = Markup::new(alloc);
    if receivers.is_empty() {
        part.text(b"nobody named");
    }
    let mut before: &[u8] = &[];
    for receiver in &receivers {
        part.text(before);
        part.element(Tag::Bold, &[], receiver.name);
        if receiver.signals < signals.len() {
            part.open(Tag::Span, &[Attribute::Class(b"q")]);
            part.text(b" (");
            part.number(receiver.signals as u64);
            part.text(b" of ");
            part.number(signals.len() as u64);
            part.text(b")");
            part.close();
        }
        before = b", ";
    }
    Ok(part)
}

/// Adds who sends the message.
fn put_sender(page: &mut Markup, transmitter: &Option<Name>)
    ensures { Becomes page.new (adding (sender_html transmitter.now) page.old) }
{
    match transmitter {
        Some(name) => page.element(Tag::Bold, &[], name.as_bytes()),
        None => page.text(b"nobody named"),
    }
}

/// Adds from whom the message goes to whom.
pub(crate) fn put_route(page: &mut Markup, message: &Message, receivers: Markup)
    ensures { Becomes page.new
        (adding (route_html message.now.transmitter (whole receivers)) page.old) }
{
    page.text(b"from ");
    put_sender(page, &message.transmitter);
    page.text(b", to ");
    page.put(receivers);
}
