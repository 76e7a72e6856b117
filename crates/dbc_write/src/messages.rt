//! Messages with their signals.
ghost use Rattle.std.specs.Prelude.{◌≡◌, ◌∷◌, [], OnOk, unwrap_or};
ghost use Rattle.std.specs.List.{flat_map};
ghost use Rattle.dbc_words.specs.Name.{no_node};
ghost use Rattle.dbc_grammar.specs.Canon.{line_text, message_line, message_lines};
ghost use Rattle.dbc_write.specs.Adding.{Adds};

use crate::signals::signal_line;
use crate::tokens::push_all;
use dbc_sheet::Message;
use dbc_words::NO_NODE;
use itoa::Buffer;
use std::alloc::AllocError;

fn transmitter(message: &Message) -> &[u8]
    ensures { result.now ≡ unwrap_or message.now.transmitter no_node }
{
    match &message.transmitter {
        Some(name) => name.as_bytes(),
        None => NO_NODE,
    }
}

fn message_line(text: &mut Vec<u8>, message: &Message) -> Result<(), AllocError>
    ensures { OnOk result (Adds line_text text.old.items text.new.items
        (message_line message.now ∷ [])) }
{
    let (mut number, mut length) = (Buffer::new(), Buffer::new());
    push_all(
        text,
        &[
            b"BO_ ",
            number.format(message.number()).as_bytes(),
            b" ",
            message.name.as_bytes(),
            b": ",
            length.format(message.length.bytes()).as_bytes(),
            b" ",
            transmitter(message),
            b"\n",
        ],
    )
}

fn with_signals(text: &mut Vec<u8>, message: &Message) -> Result<(), AllocError>
    ensures { OnOk result (Adds line_text text.old.items text.new.items
        (message_lines message.now)) }
{
    message_line(text, message)?;
    for signal in message.signals.as_slice() {
        signal_line(text, signal)?;
    }
    Ok(())
}

/// The lines of the messages, each followed by those of its signals.
pub(crate) fn messages(text: &mut Vec<u8>, messages: &[Message]) -> Result<(), AllocError>
    ensures { OnOk result (Adds line_text text.old.items text.new.items
        (flat_map message_lines messages.now)) }
{
    for message in messages {
        with_signals(text, message)?;
    }
    Ok(())
}
