//! Decimals of a page.
ghost use Rattle.markup.specs.Writing.{Becomes, adding};
ghost use Rattle.page_parts.specs.Decimals.{decimal_words};

use arrayvec::ArrayString;
use decimal::Decimal;
use markup::Markup;
use std::fmt::Write;

/// The text of a decimal, which has at most 57 bytes.
pub fn decimal_text(decimal: &Decimal) -> ArrayString<64> {
    let mut text = ArrayString::new();
    let _ = write!(text, "{decimal}");
    text
}

/// Adds a decimal.
pub fn put_decimal(page: &mut Markup, decimal: &Decimal)
    ensures { Becomes page.new (adding (decimal_words decimal.now) page.old) }
{
    page.display(decimal);
}
