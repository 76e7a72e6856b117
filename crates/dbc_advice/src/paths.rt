//! How a path is shown.
ghost use Rattle.std.specs.Prelude.{◌≡◌, ◌++◌, ◌<◌, IfOk, OnOk, string_bytes};
ghost use Rattle.std.specs.Char.{digit_char, is_control};
ghost use Rattle.std.specs.Str.{NoCharPasses, encode_utf8_all};
ghost use Rattle.dbc_advice.specs.ShownPath.{escaped, shown_character, shown_path};

use std::alloc::{AllocError, Global};

/// The hexadecimal digit of this value.
fn hexadecimal(digit: u32) -> char
    requires { digit < 16 }
    ensures { result ≡ digit_char digit }
{
    char::from_digit(digit, 16).unwrap_or('0')
}

/// Adds the code of a control character as `\x` and two hexadecimal digits.
fn push_escaped(text: &mut String, control: char) -> Result<(), AllocError>
    requires { control < 256 }
    ensures { OnOk result (string_bytes text.new ≡ string_bytes text.old
        ++ encode_utf8_all (escaped control)) }
{
    let code = control as u32;
    text.push_str("\\x")?;
    text.push(hexadecimal(code / 16))?;
    text.push(hexadecimal(code % 16))
}

/// Adds the character as it is shown.
fn push_shown(text: &mut String, c: char) -> Result<(), AllocError>
    ensures { OnOk result (string_bytes text.new ≡ string_bytes text.old
        ++ encode_utf8_all (shown_character c)) }
{
    if c.is_control() {
        push_escaped(text, c)
    } else {
        text.push(c)
    }
}

/// The path as it is shown: with `\x` and two hexadecimal digits for each control character, which a terminal would
/// carry out. The error is out of memory.
pub fn shown_path(alloc: Global, path: &str) -> Result<String, AllocError>
    ensures shown { IfOk result (λ shown. string_bytes shown ≡ shown_path path.now) }
    ensures plain { IfOk result (λ shown. NoCharPasses is_control (string_bytes shown)) }
    ensures same { NoCharPasses is_control path.now
        → IfOk result (λ shown. string_bytes shown ≡ path.now) }
{
    let mut shown = String::new(alloc);
    for c in path.chars() {
        push_shown(&mut shown, c)?;
    }
    Ok(shown)
}
