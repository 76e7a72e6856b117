//! Blocks of numbers, and the form that the numbers of a granted block have.
ghost use Rattle.std.specs.Prelude.{◌≡◌, SomeIff};

use can_id::IdentForm;
use dbc_words::SPN_LIMIT;
use std::marker::Model;

/// The greatest parameter group number with the extended data page clear.
pub const GREATEST_PGN: u32 = 131_071;

/// The numbers from `first` to `last`, inclusive; none where `last` is below `first`.
#[derive(Clone, Copy, PartialEq, Eq)]
pub struct Block {
    /// The least number.
    pub first: u32,
    /// The greatest number.
    pub last: u32,
}

/// What the numbers of a granted block are.
#[derive(Clone, Copy, PartialEq, Eq, PartialOrd, Ord)]
pub enum BlockForm {
    /// 11-bit identifiers, 0 to 2047.
    Std,
    /// 29-bit identifiers, 0 to 536870911.
    Ext,
    /// J1939 parameter group numbers with the extended data page clear, 0 to 131071.
    Pgn,
    /// J1939 suspect parameter numbers, 1 to 524287.
    Spn,
}

impl BlockForm {
    ghost use Rattle.std.specs.Prelude.{Some, IfSome};
    ghost use Rattle.office_types.specs.Block.{block_form, block_word, least_of, greatest_of, form_number, form_at};

    /// The form of the blocks that identifiers of this form lie in.
    pub fn of_identifiers(form: IdentForm) -> BlockForm
        ensures { result ≡ block_form form }
    {
        match form {
            IdentForm::Standard => BlockForm::Std,
            IdentForm::Extended => BlockForm::Ext,
        }
    }

    /// The form's word.
    pub fn word(self) -> &'static str
        ensures { result.now ≡ block_word self }
    {
        match self {
            BlockForm::Std => "std",
            BlockForm::Ext => "ext",
            BlockForm::Pgn => "pgn",
            BlockForm::Spn => "spn",
        }
    }

    /// The least number of the form.
    pub fn least(self) -> u32
        ensures { result ≡ least_of self }
    {
        match self {
            BlockForm::Std | BlockForm::Ext | BlockForm::Pgn => 0,
            BlockForm::Spn => 1,
        }
    }

    /// The greatest number of the form.
    pub fn greatest(self) -> u32
        ensures { result ≡ greatest_of self }
    {
        match self {
            BlockForm::Std => IdentForm::Standard.greatest(),
            BlockForm::Ext => IdentForm::Extended.greatest(),
            BlockForm::Pgn => GREATEST_PGN,
            BlockForm::Spn => SPN_LIMIT,
        }
    }

    /// The form's number, 0 to 3: a network's blocks are kept in this order.
    pub fn number(self) -> u8
        ensures number { result ≡ form_number self }
        ensures back { form_at result ≡ Some self }
    {
        match self {
            BlockForm::Std => 0,
            BlockForm::Ext => 1,
            BlockForm::Pgn => 2,
            BlockForm::Spn => 3,
        }
    }

    /// The form of this number, or `None` where none has it.
    pub fn of_number(number: u32) -> Option<BlockForm>
        ensures form { result ≡ form_at number }
        ensures numbered { IfSome result (λ form. form_number form ≡ number) }
    {
        if number == 0 {
            Some(BlockForm::Std)
        } else if number == 1 {
            Some(BlockForm::Ext)
        } else if number == 2 {
            Some(BlockForm::Pgn)
        } else if number == 3 {
            Some(BlockForm::Spn)
        } else {
            None
        }
    }
}

/// A block of numbers of one form: at least one number, and none below the form's least or above its greatest.
#[derive(Clone, Copy, PartialEq, Eq)]
pub struct FormBlock {
    form: BlockForm,
    first: u32,
    last: u32,
}

impl Model for FormBlock {
    ghost use Rattle.office_types.specs.Block.{Range, IsRange};

    ghost Value = { Range };

    ghost view = { λ b. record { form = b.form; first = b.first; last = b.last } };

    ghost invariant = { λ b. IsRange (record { form = b.form; first = b.first; last = b.last }) };

    ghost inverse = { λ r. record { form = r.form; first = r.first; last = r.last } };
}

impl FormBlock {
    ghost use Rattle.office_types.specs.Block.{Range, IsRange};
    ghost use Rattle.office_types.specs.declared.block.Block.{Block};

    /// The block of the numbers from `first` to `last`, inclusive, or `None` where `last` is below `first` or one of
    /// them is no number of the form.
    pub fn new(form: BlockForm, first: u32, last: u32) -> Option<FormBlock>
        ensures { SomeIff result (IsRange (record { form = form; first = first; last = last }))
            (record { form = form; first = first; last = last }) }
    {
        if form.least() <= first && first <= last && last <= form.greatest() {
            Some(FormBlock { form, first, last })
        } else {
            None
        }
    }

    /// What the numbers are.
    pub fn form(self) -> BlockForm
        ensures form { result ≡ self.form }
        ensures range { IsRange self }
    {
        self.form
    }

    /// The numbers alone.
    pub fn numbers(self) -> Block
        ensures { result ≡ record { first = self.first; last = self.last } }
    {
        Block {
            first: self.first,
            last: self.last,
        }
    }
}
