//! The line of a signal.
ghost use Rattle.std.specs.Prelude.{◌∷◌, [], OnOk};
ghost use Rattle.dbc_grammar.specs.Canon.{layout_pieces, line_text, mux_pieces, pair, receiver_pieces, signal_line};
ghost use Rattle.dbc_write.specs.Adding.{Adds, piece_text};

use crate::tokens::{push_all, quoted, spaced_mark, spaced_word, tight_mark, tight_value};
use bitlayout::Mux;
use dbc_sheet::Signal;
use dbc_words::{NO_NODE, Name};
use decimal::Decimal;
use itoa::Buffer;
use std::alloc::AllocError;

fn mux_mark(text: &mut Vec<u8>, mux: Mux) -> Result<(), AllocError>
    ensures { OnOk result (Adds piece_text text.old.items text.new.items (mux_pieces mux)) }
{
    match mux {
        Mux::Always => Ok(()),
        _ => spaced_word(text, mux.indicator().as_bytes()),
    }
}

fn layout(text: &mut Vec<u8>, signal: &Signal) -> Result<(), AllocError>
    ensures { OnOk result (Adds piece_text text.old.items text.new.items
        (layout_pieces signal.now)) }
{
    let layout = &signal.layout;
    let (mut start, mut size, mut order) = (Buffer::new(), Buffer::new(), Buffer::new());
    push_all(
        text,
        &[
            b" ",
            start.format(layout.start).as_bytes(),
            b"|",
            size.format(layout.size.bits()).as_bytes(),
            b"@",
            order.format(layout.order.number()).as_bytes(),
            if signal.signed { b"-" } else { b"+" },
        ],
    )
}

/// Two decimals between brackets.
fn pair(
    text: &mut Vec<u8>,
    left: u8,
    between: u8,
    right: u8,
    first: &Decimal,
    second: &Decimal,
) -> Result<(), AllocError>
    ensures { OnOk result (Adds piece_text text.old.items text.new.items
        (pair (left ∷ []) (between ∷ []) (right ∷ []) first.now second.now)) }
{
    spaced_mark(text, left)?;
    tight_value(text, first)?;
    tight_mark(text, between)?;
    tight_value(text, second)?;
    tight_mark(text, right)?;
    Ok(())
}

fn receivers(text: &mut Vec<u8>, names: &[Name]) -> Result<(), AllocError>
    ensures { OnOk result (Adds piece_text text.old.items text.new.items
        (receiver_pieces names.now)) }
{
    let [first, others @ ..] = names else {
        return spaced_word(text, NO_NODE);
    };
    spaced_word(text, first.as_bytes())?;
    for other in others {
        push_all(text, &[b",", other.as_bytes()])?;
    }
    Ok(())
}

/// The line of a signal, after that of its message.
pub(crate) fn signal_line(text: &mut Vec<u8>, signal: &Signal) -> Result<(), AllocError>
    ensures { OnOk result (Adds line_text text.old.items text.new.items
        (signal_line signal.now ∷ [])) }
{
    push_all(text, &[b" SG_ ", signal.name.as_bytes()])?;
    mux_mark(text, signal.mux)?;
    spaced_mark(text, b':')?;
    layout(text, signal)?;
    pair(text, b'(', b',', b')', &signal.factor, &signal.offset)?;
    pair(text, b'[', b'|', b']', &signal.minimum, &signal.maximum)?;
    quoted(text, signal.unit.as_bytes())?;
    receivers(text, signal.receivers.as_slice())?;
    text.push(b'\n')?;
    Ok(())
}
