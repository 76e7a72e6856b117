//! A signal's place in a message: where it lies, and when it is present.
ghost use Rattle.std.specs.Prelude.{◌≡◌, ◌↔◌, IsTrue};
ghost use Rattle.bitlayout.specs.Mux.{Meet, meets};

use crate::layout::Layout;
use arrayvec::ArrayString;
use itoa::Buffer;

/// When a signal of a multiplexed message is present (the multiplexer indicator of a signal in Vector's DBC
/// File Format Documentation).
#[derive(Clone, Copy, Debug, PartialEq, Eq)]
pub enum Mux {
    /// In every message: no indicator in a DBC file.
    Always,
    /// In every message, and its value says which of the others are present: `M` in a DBC file.
    Multiplexor,
    /// In the messages in which the multiplexor has this value: `m` and the value in a DBC file.
    Under(u32),
}

impl Mux {
    ghost use Rattle.bitlayout.specs.Mux.{indicator_of, is_multiplexor, is_under};

    /// Whether it is the multiplexor.
    pub fn is_multiplexor(self) -> bool
        ensures { result ≡ is_multiplexor self }
    {
        matches!(self, Mux::Multiplexor)
    }

    /// Whether it depends on a value of the multiplexor.
    pub fn is_under(self) -> bool
        ensures { result ≡ is_under self }
    {
        matches!(self, Mux::Under(_))
    }

    /// The indicator that a DBC file writes after the signal's name: `M`, or `m` and the value, or no bytes for
    /// [`Mux::Always`].
    pub fn indicator(self) -> ArrayString<11>
        ensures { result.bytes ≡ indicator_of self }
    {
        let mut text = ArrayString::new();
        match self {
            Mux::Always => {}
            Mux::Multiplexor => text.push('M'),
            Mux::Under(value) => {
                text.push('m');
                text.push_str(Buffer::new().format(value));
            }
        }
        text
    }
}

/// A signal's place in a message: where it lies, and when it is present.
#[derive(Clone, Copy, Debug, PartialEq, Eq)]
pub struct Place {
    /// Where it lies in the payload.
    pub layout: Layout,
    /// When it is present.
    pub mux: Mux,
}

/// Whether both signals are present for some value of the multiplexor: all but two that are under different
/// values.
pub fn meet(a: Mux, b: Mux) -> bool
    ensures both_present { IsTrue result ↔ Meet a b }
    ensures computed { result ≡ meets a b }
{
    match a {
        Mux::Always | Mux::Multiplexor => true,
        Mux::Under(x) => match b {
            Mux::Always | Mux::Multiplexor => true,
            Mux::Under(y) => x == y,
        },
    }
}
