//! The attributes that there are.

/// A part of the value of an attribute.
#[derive(Clone, Copy)]
pub enum Piece<'a> {
    /// A text.
    Text(&'a [u8]),
    /// A number in decimal.
    Number(u32),
}

/// An attribute of an element. A value is the text of its pieces, whatever is in them.
#[derive(Clone, Copy)]
pub enum Attribute<'a> {
    /// Classes of the style, with spaces between.
    Class(&'a [u8]),
    /// The name of a part of the page.
    Id(&'a [Piece<'a>]),
    /// A link to the part of the page that has this name.
    ToPart(&'a [Piece<'a>]),
    /// What is shown of an element that is pointed at.
    Title(&'a [Piece<'a>]),
    /// How a reader that speaks names an element.
    Label(&'a [Piece<'a>]),
    /// How many columns a cell spans; of one nothing is written.
    Columns(usize),
    /// The share of a line that an element takes beside its neighbours.
    Flex(usize),
    /// That an element scrolls by the keys as well.
    Scrolls,
    /// That a fold is open.
    Open,
    /// The language, `en`.
    English,
    /// The character set, `utf-8`.
    Utf8,
    /// The name of a meta datum.
    Name(&'a [u8]),
    /// That a meta datum is the policy of what the page may load.
    Policy,
    /// The value of a meta datum.
    Content(&'a [u8]),
}
