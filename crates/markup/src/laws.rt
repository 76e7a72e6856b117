//! What is so of each page.
ghost use Rattle.markup.specs.Reader.{AreAscii};

/// What is well-formed has no byte but visible ASCII, spaces, tabs and line feeds. This function does nothing.
pub fn pages_are_ascii()
    ensures { AreAscii }
{}
