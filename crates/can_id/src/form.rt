//! The two forms of identifiers, and their numbers.
ghost use Rattle.std.specs.Prelude.{◌≡◌};

/// The greatest 11-bit identifier.
pub const GREATEST_STANDARD: u16 = 2047;

/// The greatest 29-bit identifier.
pub const GREATEST_EXTENDED: u32 = 536_870_911;

/// Bit 31, which a DBC file sets above a 29-bit identifier.
pub const EXTENDED_FLAG: u32 = 2_147_483_648;

/// How many bits an identifier has: the frame format of ISO 11898-1 that it belongs to.
#[derive(Clone, Copy, PartialEq, Eq)]
pub enum IdentForm {
    /// 11 bits, the base frame format: 0 to [`GREATEST_STANDARD`].
    Standard,
    /// 29 bits, the extended frame format: 0 to [`GREATEST_EXTENDED`].
    Extended,
}

impl IdentForm {
    ghost use Rattle.can_id.specs.Form.{greatest_number, ident_word};

    /// The greatest identifier of the form.
    pub fn greatest(self) -> u32
        ensures { result ≡ greatest_number self }
    {
        match self {
            IdentForm::Standard => u32::from(GREATEST_STANDARD),
            IdentForm::Extended => GREATEST_EXTENDED,
        }
    }

    /// The form's word.
    pub fn word(self) -> &'static str
        ensures { result.now ≡ ident_word self }
    {
        match self {
            IdentForm::Standard => "std",
            IdentForm::Extended => "ext",
        }
    }
}
