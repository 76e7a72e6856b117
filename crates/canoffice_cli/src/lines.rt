//! Lines of text, one for each of many values.
ghost use Rattle.std.specs.Prelude.{◌≡◌, ◌++◌, IfOk, OnOk, ℕ, List, string_bytes};
ghost use Rattle.std.specs.List.{flat_map};

use std::alloc::{AllocError, Global};

/// A value that is printed as a line.
pub(crate) trait PrintedLine {
    /// The bytes of its line.
    ghost line: { Self → List ℕ };

    /// Adds its line, with the newline. The error is out of memory.
    fn add_to(&self, text: &mut String) -> Result<(), AllocError>
        ensures { OnOk result (string_bytes text.new ≡ string_bytes text.old ++ line self.now) };
}

/// Adds the line of each of the values, in order. The error is out of memory.
pub(crate) fn add_lines<T: PrintedLine>(text: &mut String, values: &[T]) -> Result<(), AllocError>
    ensures { OnOk result (string_bytes text.new ≡ string_bytes text.old
        ++ flat_map T.line values.now) }
{
    for value in values {
        value.add_to(text)?;
    }
    Ok(())
}

/// The line of each of the values, in order. The error is out of memory.
pub(crate) fn lines_of<T: PrintedLine>(alloc: Global, values: &[T]) -> Result<Vec<u8>, AllocError>
    ensures { IfOk result (λ text. text.items ≡ flat_map T.line values.now) }
{
    let mut text = String::new(alloc);
    add_lines(&mut text, values)?;
    Ok(text.into_bytes())
}
