//! The allocator: the least free number of some blocks.
ghost use Rattle.std.specs.Prelude.{◌≡◌, ℕ, ◌+◌, ◌*◌, ◌^◌, ◌<◌, ◌≤◌, ◌↔◌, ◌∷◌, [], ◌&&◌, ◌==◌, nat_le};
ghost use Rattle.std.specs.Prelude.{IsTrue, IfSome, List, length};
ghost use Rattle.std.specs.List.Sorted.{IsStrictlyIncreasing};
ghost use Rattle.office_types.specs.Free.{has_form, greatest_number, lesser_of, IsLeastFree, IsNextFormed, IsNextOf};
ghost use Rattle.office_types.specs.Free.{SplitsAt, least_free};
ghost use Rattle.office_types.specs.Block.{greatest_pgn};
ghost use Rattle.office_types.specs.Least.{IsLeastOf};
ghost use Rattle.office_types.specs.declared.block.Block.{Block};
ghost use Rattle.office_types.specs.declared.free.NumberForm.{NumberForm};
ghost use Rattle.office_types.specs.declared.free.NumberForm.TheVariants.{Pdu1, Pdu2};

use crate::block::{Block, GREATEST_PGN};
use can_id::{IdentForm, has_destination};
use dbc_words::SPN_LIMIT;

/// What the requested numbers are.
#[derive(Clone, Copy, PartialEq, Eq)]
pub enum NumberForm {
    /// 11-bit identifiers, 0 to 2047.
    Std,
    /// 29-bit identifiers, 0 to 536870911.
    Ext,
    /// J1939 parameter groups with a destination address and with the extended data page clear.
    Pdu1,
    /// J1939 parameter groups without one, with the extended data page clear.
    Pdu2,
    /// J1939 suspect parameter numbers, 1 to 524287.
    Spn,
}

impl NumberForm {
    ghost use Rattle.office_types.specs.Free.{has_form, greatest_number, number_form};

    /// The form of the numbers of identifiers of this form.
    pub fn of_identifiers(form: IdentForm) -> NumberForm
        ensures { result ≡ number_form form }
    {
        match form {
            IdentForm::Standard => NumberForm::Std,
            IdentForm::Extended => NumberForm::Ext,
        }
    }

    /// The greatest number of the form.
    pub fn greatest(self) -> u32
        ensures { result ≡ greatest_number self }
    {
        match self {
            NumberForm::Std => IdentForm::Standard.greatest(),
            NumberForm::Ext => IdentForm::Extended.greatest(),
            NumberForm::Pdu1 | NumberForm::Pdu2 => GREATEST_PGN,
            NumberForm::Spn => SPN_LIMIT,
        }
    }

    /// Whether the number has the form.
    pub fn has(self, number: u32) -> bool
        ensures { result ≡ has_form self number }
    {
        number <= self.greatest()
            && match self {
                NumberForm::Std | NumberForm::Ext => true,
                NumberForm::Pdu1 => has_destination(number) && number % 256 == 0,
                NumberForm::Pdu2 => !has_destination(number),
                NumberForm::Spn => number >= 1,
            }
    }
}

/// The least free number, as it is computed, is the least number that is free, and it is none only where none is free.
pub fn least_numbers_are_least()
    ensures { (taken : List ℕ) (blocks : List Block) (form : NumberForm)
        → IsLeastFree taken blocks form (least_free taken blocks form) }
{}

/// Whether each number is above the one before it, as none or one number is.
pub fn is_ascending(numbers: &[u32]) -> bool
    ensures { IsTrue result ↔ IsStrictlyIncreasing numbers.now }
{
    for i in 1..numbers.len() {
        if numbers[i] <= numbers[i - 1] {
            return false;
        }
    }
    true
}

/// How many of the ascending numbers are below `number`.
pub(crate) fn count_below(taken: &[u32], number: u32) -> usize
    requires { IsStrictlyIncreasing taken.now }
    ensures { SplitsAt taken.now result number }
{
    match taken.binary_search(&number) {
        Ok(index) => index,
        Err(index) => index,
    }
}

/// The least number from `from` on that is a parameter group with a destination address.
fn next_addressed(from: u32) -> u32
    requires { from ≤ greatest_pgn }
    ensures { IsNextFormed Pdu1 from result }
{
    let row = (from + 255) / 256;
    if has_destination(256 * row) {
        256 * row
    } else {
        65_536 * (row / 256 + 1)
    }
}

/// The least number from `from` on that is a parameter group without a destination address.
fn next_broadcast(from: u32) -> u32
    requires { from ≤ greatest_pgn }
    ensures { IsNextFormed Pdu2 from result }
{
    if has_destination(from) {
        65_536 * (from / 65_536) + 61_440
    } else {
        from
    }
}

/// The least number from `from` on that the form allows, but for the greatest number of the form.
fn next_formed(form: NumberForm, from: u32) -> u32
    requires { from ≤ greatest_number form }
    ensures { IsNextFormed form from result }
{
    match form {
        NumberForm::Std | NumberForm::Ext => from,
        NumberForm::Pdu1 => next_addressed(from),
        NumberForm::Pdu2 => next_broadcast(from),
        NumberForm::Spn => from.max(1),
    }
}

/// The least number from `from` on that has the form, or `None` where there is none. For `Pdu1` and `Pdu2` these are
/// parameter group numbers, 0 to 131071, whose PDU format is below 240 or not (SAE J1939-21).
pub fn next_of(form: NumberForm, from: u32) -> Option<u32>
    ensures { IsNextOf form from result }
{
    if from > form.greatest() {
        return None;
    }
    let next = next_formed(form, from);
    if next <= form.greatest() {
        Some(next)
    } else {
        None
    }
}

/// The least number from `from` to `last` that has the form.
fn next_until(form: NumberForm, from: u32, last: u32) -> Option<u32>
    ensures next { IsLeastOf (λ n. (nat_le from n && nat_le n last) && has_form form n) result }
    ensures small { IfSome result (λ n. n < 2 ^ 30) }
{
    match next_of(form, from) {
        Some(next) => { if next <= last { Some(next) } else { None } }
        None => None,
    }
}

/// The least number of the block that has the form and isn't taken, and the turns of its search. A turn compares a
/// taken number with the candidate, the least number of the form that may still be free, or ends the block.
fn least_in(taken: &[u32], block: Block, form: NumberForm) -> (Option<u32>, u128)
    requires { IsStrictlyIncreasing taken.now }
    ensures least { IsLeastFree taken.now (block ∷ []) form result.0 }
    ensures turns { result.1 ≤ length taken.now + 1 }
{
    let Some(first) = next_until(form, block.first, block.last) else {
        return (None, 1);
    };
    let mut number = first;
    let mut turns = 1u128;
    for index in count_below(taken, first)..taken.len() {
        turns += 1;
        if number < taken[index] {
            return (Some(number), turns);
        }
        if number == taken[index] {
            match next_until(form, number + 1, block.last) {
                Some(next) => number = next,
                None => return (None, turns),
            }
        }
    }
    (Some(number), turns)
}

/// The lesser of two numbers, or the one that there is.
pub(crate) fn lesser(a: Option<u32>, b: Option<u32>) -> Option<u32>
    ensures { result ≡ lesser_of a b }
{
    match (a, b) {
        (Some(x), Some(y)) => Some(x.min(y)),
        (Some(x), None) => Some(x),
        (None, found) => found,
    }
}

/// [`least_free`], and the turns of its search. A turn compares a number of `taken` with the candidate, the least
/// number of a block and the form that may still be free, or ends a block: so the turns don't grow with the size of the
/// blocks.
pub fn least_free_counted(taken: &[u32], blocks: &[Block], form: NumberForm) -> (Option<u32>, u128)
    requires { IsStrictlyIncreasing taken.now }
    ensures least { IsLeastFree taken.now blocks.now form result.0 }
    ensures computed { result.0 ≡ least_free taken.now blocks.now form }
    ensures turns { result.1 ≤ (length taken.now + 1) * length blocks.now }
{
    let mut least = None;
    let mut turns = 0;
    for block in blocks {
        let (found, more) = least_in(taken, *block, form);
        least = lesser(least, found);
        turns += more;
    }
    (least, turns)
}

/// The least number that lies in one of the blocks, has the form and isn't taken; `None` where there is none.
///
/// `taken` ascends, as [`is_ascending`] shows. The blocks need not be in any order, nor apart.
pub fn least_free(taken: &[u32], blocks: &[Block], form: NumberForm) -> Option<u32>
    requires { IsStrictlyIncreasing taken.now }
    ensures least { IsLeastFree taken.now blocks.now form result }
    ensures computed { result ≡ least_free taken.now blocks.now form }
{
    least_free_counted(taken, blocks, form).0
}
