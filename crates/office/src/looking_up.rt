//! Looking up the messages and identifiers of a network: by number, since they are in the order of their numbers, and
//! by name, with an index.
ghost use Rattle.std.specs.Prelude.{◌≡◌, false, IfErr, IfOk, MatchOption, position, slice_get};
ghost use Rattle.std.specs.List.{list_any};
ghost use Rattle.std.specs.List.Sorted.{IsStrictlySortedBy};
ghost use Rattle.std.specs.Option.{option_and_then};
ghost use Rattle.std.specs.Str.{bytes_eq};
ghost use Rattle.base.specs.Ascending.{IsAt, IsGap};
ghost use Rattle.can_id.specs.Ident.{dbc_number};
ghost use Rattle.office_facts.specs.FactsOf.{message_facts_of};
ghost use Rattle.office_types.specs.State.{by_ident, by_number};
ghost use Rattle.office_rules.specs.Facts.{has_ident, message_facts, same_ident};
ghost use Rattle.office_rules.specs.Kept.{IsNet};
ghost use Rattle.office.specs.Indexed.{IsIndex, IsIndexIfThere, IsFoundAt, live_number};

use crate::net_index::NetIndex;
use can_id::Ident;
use dbc_words::Name;
use office_facts::{MessageFacts, same_ident};
use office_types::{LiveMessage, Net};

/// The index of the live message of the DBC number, or the index at which it would go.
pub(crate) fn search_live(live: &[LiveMessage], number: u32) -> Result<usize, usize>
    requires { IsStrictlySortedBy by_number live.now }
    ensures found { IfOk result (IsAt live_number live.now number) }
    ensures absent { IfErr result (IsGap live_number live.now number) }
{
    live.binary_search_by_key(&number, |live| live.message.number())
}

/// The index of the identifier of the DBC number, or the index at which it would go.
pub(crate) fn search_idents(idents: &[Ident], number: u32) -> Result<usize, usize>
    requires { IsStrictlySortedBy by_ident idents.now }
    ensures found { IfOk result (IsAt dbc_number idents.now number) }
    ensures absent { IfErr result (IsGap dbc_number idents.now number) }
{
    idents.binary_search_by_key(&number, |ident| ident.to_dbc())
}

/// The index of the live message of the identifier, `None` where there is none.
pub(crate) fn find_ident(live: &[LiveMessage], ident: &Ident) -> Option<usize>
    requires { IsStrictlySortedBy by_number live.now }
    ensures { MatchOption result (list_any (has_ident ident.now) live.now ≡ false)
        (IsFoundAt live.now ident.now) }
{
    match search_live(live, ident.to_dbc()) {
        Ok(at) => {
            if same_ident(live[at].message.ident, *ident) {
                Some(at)
            } else {
                None
            }
        }
        Err(_) => None,
    }
}

/// Whether one of the live messages has the identifier.
pub(crate) fn is_live(live: &[LiveMessage], ident: &Ident) -> bool
    requires { IsStrictlySortedBy by_number live.now }
    ensures { result ≡ list_any (has_ident ident.now) live.now }
{
    find_ident(live, ident).is_some()
}

/// Whether the identifier is one of these.
pub(crate) fn is_among(idents: &[Ident], ident: &Ident) -> bool
    requires { IsStrictlySortedBy by_ident idents.now }
    ensures { result ≡ list_any (λ i. same_ident i ident.now) idents.now }
{
    match search_idents(idents, ident.to_dbc()) {
        Ok(at) => same_ident(idents[at], *ident),
        Err(_) => false,
    }
}

/// The index of the live message of the name, `None` where there is none.
pub(crate) fn look_up(net: &Net, index: &NetIndex, name: &Name) -> Option<usize>
    requires rising { IsStrictlySortedBy by_number net.now.live }
    requires index { IsIndex index.now net.now }
    ensures { result ≡ position (λ m. bytes_eq m.message.name name.now) net.now.live }
{
    match index.names.get(name) {
        None => None,
        Some(number) => match search_live(net.live.as_slice(), *number) {
            Ok(at) => Some(at),
            Err(_) => None,
        },
    }
}

/// The same by a walk over the live messages.
fn walk_to(live: &[LiveMessage], name: &Name) -> Option<usize>
    ensures { result ≡ position (λ m. bytes_eq m.message.name name.now) live.now }
{
    live.iter().position(|live| live.message.name == *name)
}

/// The index of the live message of the name, `None` where there is none: by the network's index, where it has one.
pub(crate) fn find_named(net: &Net, index: &Option<NetIndex>, name: &Name) -> Option<usize>
    requires net { IsNet net.now }
    requires index { IsIndexIfThere index.now net.now }
    ensures { result ≡ position (λ m. bytes_eq m.message.name name.now) net.now.live }
{
    match index {
        Some(index) => look_up(net, index, name),
        None => walk_to(net.live.as_slice(), name),
    }
}

/// What a command on the live message at this index reads of the network; with no index the message isn't live.
pub(crate) fn facts_at(net: &Net, at: Option<usize>) -> MessageFacts<'_>
    ensures { message_facts_of result ≡ record {
      phase = net.now.head.phase;
      nodes = net.now.head.frame.nodes;
      found = option_and_then (slice_get net.now.live) at;
    } }
{
    let live = net.live.as_slice();
    MessageFacts {
        phase: &net.head.phase,
        nodes: net.head.frame.nodes(),
        found: match at {
            None => None,
            Some(at) => live.get(at),
        },
    }
}

/// What a command on the message of this name reads of the network, by its index.
pub(crate) fn facts_by<'a>(net: &'a Net, index: &NetIndex, name: &Name) -> MessageFacts<'a>
    requires net { IsNet net.now }
    requires index { IsIndex index.now net.now }
    ensures { message_facts_of result ≡ message_facts net.now name.now }
{
    let at = look_up(net, index, name);
    facts_at(net, at)
}
