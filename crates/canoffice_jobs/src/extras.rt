//! What is printed beside a release.

/// What an export has besides the sheet.
#[derive(Clone, Copy)]
pub struct Extras<'a> {
    /// The path of a file whose skipped statements are printed too, as far as they stay, or `-`.
    pub original: Option<&'a str>,
    /// Whether the attributes of SAE J1939 are printed too.
    pub j1939: bool,
}
