//! The parts of a target.
ghost use Rattle.std.specs.Prelude.{◌≡◌};
ghost use Rattle.desk_head.specs.Target.{first_parameter, front_part, later_parts, second_parameter, third_parameter};

use base::split_once;

fn front_part(target: &[u8]) -> &[u8]
    ensures { result.now ≡ front_part target.now }
{
    match split_once(target, b'/') {
        Some((front, _)) => front,
        None => target,
    }
}

fn later_parts(target: &[u8]) -> &[u8]
    ensures { result.now ≡ later_parts target.now }
{
    match split_once(target, b'/') {
        Some((_, rest)) => rest,
        None => &[],
    }
}

/// The first parameter of a target, which is between its second slash and the next one: `truck` of
/// `/nets/truck/live`.
pub fn first_parameter(target: &[u8]) -> &[u8]
    ensures { result.now ≡ first_parameter target.now }
{
    front_part(later_parts(later_parts(target)))
}

/// The second parameter of a target, which is after its fourth slash: `1` of `/nets/truck/releases/1`.
pub fn second_parameter(target: &[u8]) -> &[u8]
    ensures { result.now ≡ second_parameter target.now }
{
    first_parameter(later_parts(later_parts(target)))
}

/// The third parameter of a target, which is after its fifth slash: `2` of `/nets/truck/compare/1/2`.
pub fn third_parameter(target: &[u8]) -> &[u8]
    ensures { result.now ≡ third_parameter target.now }
{
    second_parameter(later_parts(target))
}
