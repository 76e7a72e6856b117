//! Granted blocks.
ghost use Rattle.std.specs.Prelude.{◌≡◌};
ghost use Rattle.office_seen.specs.Granted.{has_number_in};

use office_types::{BlockForm, GrantedBlock};

/// Whether the number of the form is in the block.
pub fn has_number_in(form: BlockForm, number: u32, granted: &GrantedBlock) -> bool
    ensures { result ≡ has_number_in form number granted.now }
{
    let numbers = granted.block.numbers();
    granted.block.form() == form && (numbers.first <= number && number <= numbers.last)
}
