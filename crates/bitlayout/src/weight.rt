//! Whether two signals have the same bits with the same weights.
ghost use Rattle.std.specs.Prelude.{◌≡◌, ◌↔◌, IsTrue};
ghost use Rattle.bitlayout.specs.Weight.{by_weight, same_bits};
ghost use Rattle.bitlayout.specs.declared.layout.Order.TheVariants.{Intel, Motorola};

use crate::layout::{Layout, Order, Size};

/// Whether the two signals have the same bits with the same weights. Of one byte order, they do where start and size
/// are equal; of different byte orders, only inside one byte.
pub fn same_bits(a: Layout, b: Layout) -> bool
    ensures { result ≡ same_bits a b }
{
    a.size.bits() == b.size.bits()
        && match (a.order, b.order) {
            (Order::Intel, Order::Motorola) => same_bits_across(a.start, b.start, a.size),
            (Order::Motorola, Order::Intel) => same_bits_across(b.start, a.start, a.size),
            _ => a.start == b.start,
        }
}

/// `same_bits` for an Intel and a Motorola signal of one size, by their starts: the Intel one is the least significant
/// bit, and the Motorola one, the most significant, is as much further in the same byte.
fn same_bits_across(intel: u16, motorola: u16, size: Size) -> bool
    ensures { IsTrue result ↔ (
        by_weight (record { start = intel; size = size; order = Intel })
        ≡ by_weight (record { start = motorola; size = size; order = Motorola })
        ) }
{
    let further = u16::from(size.bits()) - 1;
    motorola % 8 >= further && intel == motorola - further
}
