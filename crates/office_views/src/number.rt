//! Whole numbers in a range.
ghost use Rattle.std.specs.Prelude.{◌≡◌};
ghost use Rattle.std.specs.Option.{option_and_then};
ghost use Rattle.base.specs.WholeNumber.{whole_of};
ghost use Rattle.office_views.specs.Word.{between};

use base::whole_number;

/// The whole number that the digits write, or `None` if it isn't from `least` to `most`, inclusive. Leading zeros don't
/// count.
pub fn whole_between(bytes: &[u8], least: u32, most: u32) -> Option<u32>
    ensures { result ≡ option_and_then (between least most) (whole_of bytes.now) }
{
    match whole_number(bytes) {
        Some(number) if least <= number && number <= most => Some(number),
        _ => None,
    }
}
