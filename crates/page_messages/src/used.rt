//! Which bits of a payload are used.
ghost use Rattle.std.specs.Prelude.{◌≡◌, ℕ, ◌<◌, ◌↔◌, IsTrue};
ghost use Rattle.bitlayout.specs.Mask.{Has, mask_end};
ghost use Rattle.page_messages.specs.Used.{has_position, used_bits};

use bitlayout::Mask;
use dbc_sheet::{Message, Signal};

/// The positions that the signals have, as far as a mask has them.
fn positions_of(signals: &[Signal]) -> Mask
    ensures { (q : ℕ) → q < mask_end → Has result q ↔ IsTrue (has_position signals.now q) }
{
    let mut mask = Mask::empty();
    for signal in signals {
        mask.add_layout(signal.layout);
    }
    mask
}

/// How many positions of the message's payload signals have.
pub fn used_bits(message: &Message) -> usize
    ensures { result ≡ used_bits message.now }
{
    let mask = positions_of(message.signals.as_slice());
    let end = 8 * message.length.bytes();
    let mut count = 0usize;
    for position in 0..end {
        if mask.has(position) {
            count += 1;
        }
    }
    count
}
