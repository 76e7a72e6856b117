//! That an escaped text reads back.
ghost use Rattle.html.specs.Reading.{AreReadBack, IsDecoded, IsKept};

/// What a browser reads of an escaped text is what is shown of the bytes: so a text has no `<`, `>`, `"` or `'`, no `&`
/// but where a decimal reference begins, and nothing but visible ASCII, spaces, tabs and line feeds, whatever the bytes
/// are. And bytes that show other characters are escaped to another text. This function does nothing.
pub fn escaped_texts_read_back()
    ensures { AreReadBack }
{}

/// The characters of bytes that are well-formed UTF-8 are those that they encode. This function does nothing.
pub fn utf8_is_decoded()
    ensures { IsDecoded }
{}

/// A text of visible ASCII, spaces, tabs and line feeds without `"`, `&`, `'`, `<` and `>` is escaped to itself. This
/// function does nothing.
pub fn plain_texts_are_kept()
    ensures { IsKept }
{}
