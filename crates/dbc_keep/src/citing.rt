//! What a statement cites, and what of that a sheet doesn't have.
ghost use Rattle.std.specs.Prelude.{◌≡◌};
ghost use Rattle.std.specs.List.{flat_map};
ghost use Rattle.std.specs.Option.{option_copied};
ghost use Rattle.dbc_keep.specs.Staying.{all_seen, seen};
ghost use Rattle.dbc_keep_law.specs.Staying.{CitesMessage, CitesNode, CitesSignal, absent, cites, first_absent, group};
ghost use Rattle.dbc_keep_law.specs.Staying.{message_cited, node_cited, object, relation, signal_cited, signal_first};
ghost use Rattle.dbc_keep_law.specs.Staying.{or_else, transmitters};
ghost use Rattle.dbc_sheet.specs.Sheet.{node_name};
ghost use Rattle.dbc_sheet.specs.Signals.{signal_name};
ghost use Rattle.dbc_words.specs.Named.{has_name};
ghost use Rattle.dbc_words.specs.declared.keyword.Keyword.TheVariants.{ValueTexts};

use crate::words::{after_first, is_name};
use base::whole_number;
use dbc_keep_law::LeavingReason;
use dbc_lex::Token;
use dbc_sheet::{Message, Node, Sheet, Signal};
use dbc_words::{Keyword, NO_NODE};

/// Whether one of the nodes has the name.
fn has_node(nodes: &[Node], name: &[u8]) -> bool
    ensures { result ≡ has_name node_name nodes.now name.now }
{
    nodes.iter().any(|node| node.name.as_bytes() == name)
}

fn node(sheet: &Sheet, name: &[u8]) -> Option<LeavingReason>
    ensures { result ≡ absent sheet.now (CitesNode name.now) }
{
    if has_node(sheet.nodes(), name) {
        return None;
    }
    Some(LeavingReason::NoNode)
}

/// The message of the number, as it is spelled.
fn message_cited<'a>(sheet: &'a Sheet, number: &[u8]) -> Option<&'a Message>
    ensures { option_copied result ≡ message_cited sheet.now number.now }
{
    match whole_number(number) {
        Some(number) => sheet.find(number),
        None => None,
    }
}

fn message(sheet: &Sheet, number: &[u8]) -> Option<LeavingReason>
    ensures { result ≡ absent sheet.now (CitesMessage number.now) }
{
    match message_cited(sheet, number) {
        Some(_) => None,
        None => Some(LeavingReason::NoMessage),
    }
}

/// Whether one of the signals has the name.
fn has_signal(signals: &[Signal], name: &[u8]) -> bool
    ensures { result ≡ has_name signal_name signals.now name.now }
{
    signals.iter().any(|signal| signal.name.as_bytes() == name)
}

fn signal(sheet: &Sheet, number: &[u8], name: &[u8]) -> Option<LeavingReason>
    ensures { result ≡ absent sheet.now (CitesSignal number.now name.now) }
{
    match message_cited(sheet, number) {
        Some(message) => {
            if has_signal(message.signals.as_slice(), name) {
                return None;
            }
            Some(LeavingReason::NoSignal)
        }
        None => Some(LeavingReason::NoMessage),
    }
}

/// `number signal`
#[tactic(auto, using(crate::proofs::Absent::one_absent))]
fn signal_first(sheet: &Sheet, words: &[Token]) -> Option<LeavingReason>
    ensures { result ≡ first_absent sheet.now (signal_first (all_seen words.now)) }
{
    match words {
        [number, name, ..] => signal(sheet, number.text, name.text),
        _ => None,
    }
}

/// `BU_ node`, `BO_ number` or `SG_ number signal`
#[tactic(auto, using(crate::proofs::Absent::one_absent))]
fn object(sheet: &Sheet, words: &[Token]) -> Option<LeavingReason>
    ensures { result ≡ first_absent sheet.now (object (all_seen words.now)) }
{
    match words {
        [word, first, second, ..] => {
            if word.text == b"BU_".as_slice() {
                node(sheet, first.text)
            } else if word.text == b"BO_".as_slice() {
                message(sheet, first.text)
            } else if word.text == b"SG_".as_slice() {
                signal(sheet, first.text, second.text)
            } else {
                None
            }
        }
        _ => None,
    }
}

/// The first that is there.
fn or_else(first: Option<LeavingReason>, other: Option<LeavingReason>) -> Option<LeavingReason>
    ensures { result ≡ or_else first other }
{
    match first {
        Some(reason) => Some(reason),
        None => other,
    }
}

/// `BU_SG_REL_ node SG_ number signal`, `BU_BO_REL_ node number` or `BU_EV_REL_ node variable`
fn relation(sheet: &Sheet, words: &[Token]) -> Option<LeavingReason>
    ensures { result ≡ first_absent sheet.now (relation (all_seen words.now)) }
{
    match words {
        [word, named, other, rest @ ..] => {
            if word.text == b"BU_SG_REL_".as_slice() {
                or_else(node(sheet, named.text), signal_first(sheet, rest))
            } else if word.text == b"BU_BO_REL_".as_slice() {
                or_else(node(sheet, named.text), message(sheet, other.text))
            } else if word.text == b"BU_EV_REL_".as_slice() {
                node(sheet, named.text)
            } else {
                None
            }
        }
        _ => None,
    }
}

/// The node that the word names, if it names one.
#[tactic(auto, using(crate::proofs::Absent::one_absent))]
fn node_word(sheet: &Sheet, word: &Token) -> Option<LeavingReason>
    ensures { result ≡ first_absent sheet.now (node_cited (seen word.now)) }
{
    if !is_name(word) {
        return None;
    }
    if word.text == NO_NODE {
        return None;
    }
    node(sheet, word.text)
}

#[tactic(auto, using(crate::proofs::Absent::absent_append))]
fn node_words(sheet: &Sheet, words: &[Token]) -> Option<LeavingReason>
    ensures { result ≡ first_absent sheet.now (flat_map node_cited (all_seen words.now)) }
{
    let mut left = words;
    while let [word, rest @ ..] = left {
        if let Some(reason) = node_word(sheet, word) {
            return Some(reason);
        }
        left = rest;
    }
    None
}

/// The signal of the message that the word names, if it names one.
#[tactic(auto, using(crate::proofs::Absent::one_absent))]
fn signal_word(sheet: &Sheet, number: &[u8], word: &Token) -> Option<LeavingReason>
    ensures { result ≡ first_absent sheet.now (signal_cited number.now (seen word.now)) }
{
    if !is_name(word) {
        return None;
    }
    signal(sheet, number, word.text)
}

#[tactic(auto, using(crate::proofs::Absent::absent_append))]
fn signal_words(sheet: &Sheet, number: &[u8], words: &[Token]) -> Option<LeavingReason>
    ensures { result ≡ first_absent sheet.now
        (flat_map (signal_cited number.now) (all_seen words.now)) }
{
    let mut left = words;
    while let [word, rest @ ..] = left {
        if let Some(reason) = signal_word(sheet, number, word) {
            return Some(reason);
        }
        left = rest;
    }
    None
}

/// `number : node , node`
fn transmitters(sheet: &Sheet, words: &[Token]) -> Option<LeavingReason>
    ensures { result ≡ first_absent sheet.now (transmitters (all_seen words.now)) }
{
    match words {
        [number, rest @ ..] => or_else(message(sheet, number.text), node_words(sheet, rest)),
        [] => None,
    }
}

/// `number group repetitions : signal signal`
fn group(sheet: &Sheet, words: &[Token]) -> Option<LeavingReason>
    ensures { result ≡ first_absent sheet.now (group (all_seen words.now)) }
{
    match words {
        [number, _name, rest @ ..] => or_else(
            message(sheet, number.text),
            signal_words(sheet, number.text, rest),
        ),
        _ => None,
    }
}

/// The texts of values cite a signal, unless they are of an environment variable.
fn texts(sheet: &Sheet, words: &[Token]) -> Option<LeavingReason>
    ensures { result ≡ first_absent sheet.now (cites ValueTexts (all_seen words.now)) }
{
    match words {
        [word, ..] if is_name(word) => None,
        _ => signal_first(sheet, words),
    }
}

/// Why the sheet doesn't have what a statement of the keyword cites, by the words after it.
pub(crate) fn first_absent(
    sheet: &Sheet,
    keyword: Keyword,
    words: &[Token],
) -> Option<LeavingReason>
    ensures { result ≡ first_absent sheet.now (cites keyword (all_seen words.now)) }
{
    match keyword {
        Keyword::Comment => object(sheet, words),
        Keyword::AttributeValue => object(sheet, after_first(words)),
        Keyword::RelationAttributeValue => relation(sheet, after_first(words)),
        Keyword::MessageTransmitters => transmitters(sheet, words),
        Keyword::SignalGroup => group(sheet, words),
        Keyword::SignalTypeReference => signal_first(sheet, words),
        Keyword::ValueTexts => texts(sheet, words),
        Keyword::SignalValueType => signal_first(sheet, words),
        Keyword::Category => object(sheet, words),
        _ => None,
    }
}
