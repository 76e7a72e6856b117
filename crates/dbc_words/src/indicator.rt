//! The multiplexer indicators of signals, as a DBC file writes them.
ghost use Rattle.std.specs.Prelude.{◌≡◌};
ghost use Rattle.dbc_words.specs.Indicator.{mux_of_indicator};

use base::whole_number;
use bitlayout::Mux;

/// What the multiplexer indicator means: `M`, or `m` and digits, where leading zeros don't count. It is `None` for
/// other bytes, and for a number above 4294967295. [`Mux::indicator`] is the inverse.
pub fn mux_of_indicator(indicator: &[u8]) -> Option<Mux>
    ensures { result ≡ mux_of_indicator indicator.now }
{
    match indicator {
        b"M" => Some(Mux::Multiplexor),
        [b'm', digits @ ..] => whole_number(digits).map(|value| Mux::Under(value)),
        _ => None,
    }
}
