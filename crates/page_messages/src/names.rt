//! Names in a sheet.
ghost use Rattle.std.specs.Prelude.{◌≡◌};
ghost use Rattle.std.specs.List.{list_any};
ghost use Rattle.markup.specs.Writing.{Becomes, adding};
ghost use Rattle.page_messages.specs.Names.{is_long, is_long_message, is_long_name, is_long_node, is_long_signal};
ghost use Rattle.page_messages.specs.Names.{message_head, message_link, sender_of};

use dbc_sheet::{Message, Node, Sheet, Signal};
use dbc_words::Name;
use markup::{Attribute, Markup, Piece, Tag};

/// A name of more bytes is long.
const SHORT_NAME: usize = 32;

/// Whether the name is long.
fn is_long_name(name: &[u8]) -> bool
    ensures { result ≡ is_long_name name.now }
{
    name.len() > SHORT_NAME
}

/// Whether one of the names is long.
fn has_long(names: &[Name]) -> bool
    ensures { result ≡ list_any is_long_name names.now }
{
    names.iter().any(|name| is_long_name(name.as_bytes()))
}

/// Whether the name of the signal or of a node that receives it is long.
fn is_long_signal(signal: &Signal) -> bool
    ensures { result ≡ is_long_signal signal.now }
{
    is_long_name(signal.name.as_bytes()) || has_long(signal.receivers.as_slice())
}

fn has_long_signal(signals: &[Signal]) -> bool
    ensures { result ≡ list_any is_long_signal signals.now }
{
    signals.iter().any(|signal| is_long_signal(signal))
}

/// Whether the name of the message, of the node that sends it, or a name in one of its signals is long.
fn is_long_message(message: &Message) -> bool
    ensures { result ≡ is_long_message message.now }
{
    is_long_name(message.name.as_bytes())
        || is_long_name(sender_of(message))
        || has_long_signal(message.signals.as_slice())
}

fn has_long_message(messages: &[Message]) -> bool
    ensures { result ≡ list_any is_long_message messages.now }
{
    messages.iter().any(|message| is_long_message(message))
}

fn has_long_node(nodes: &[Node]) -> bool
    ensures { result ≡ list_any is_long_node nodes.now }
{
    nodes.iter().any(|node| is_long_name(node.name.as_bytes()))
}

/// Whether some name in the sheet is long: one of more than 32 bytes.
pub fn is_long(sheet: &Sheet) -> bool
    ensures { result ≡ is_long sheet.now }
{
    has_long_node(sheet.nodes()) || has_long_message(sheet.messages())
}

/// The node that sends the message; no bytes where none is named.
pub fn sender_of(message: &Message) -> &[u8]
    ensures { result.now ≡ sender_of message.now }
{
    match &message.transmitter {
        Some(name) => name.as_bytes(),
        None => &[],
    }
}

/// Adds a link to where all of the message is.
pub fn put_message_link(page: &mut Markup, message: &Message)
    ensures { Becomes page.new (adding (message_link message.now) page.old) }
{
    let name = message.name.as_bytes();
    page.element(
        Tag::Link,
        &[Attribute::ToPart(&[Piece::Text(b"m-"), Piece::Text(name)])],
        name,
    );
}

/// Adds the head of a message's row: the link to where all of the message is.
pub(crate) fn put_message_head(page: &mut Markup, message: &Message)
    ensures { Becomes page.new (adding (message_head message.now) page.old) }
{
    page.open(Tag::HeadCell, &[]);
    put_message_link(page, message);
    page.close();
}
