//! The faults of reading a DBC text.
ghost use Rattle.std.specs.Prelude.{◌≡◌, Some};

use std::alloc::{AllocError, AllocFailed};
use std::error::Error;
use std::fmt;

/// Why a DBC text can't be read.
///
/// Texts, names, numbers and statements are those of Vector's DBC File Format Documentation. This project's dialect
/// sets the limits (of names, payloads, starts and of the file as a whole), refuses extended multiplexing, and numbers
/// the faults.
#[derive(Clone, Copy, Debug, PartialEq, Eq)]
pub enum ReadCode {
    /// 20: a message has the number of an earlier one.
    DoubleNumber,
    /// 21: a node, a value table or a message has the name of an earlier one, or a signal that of an earlier signal of
    /// its message.
    DoubleName,
    /// 25: a second multiplexor (indicator `M`) in a message.
    TwoMultiplexors,
    /// 26: more of something than a sheet may have.
    TooMany,
    /// 30: no quote closes the text that this quote opens.
    UnclosedText,
    /// 31: no token begins with this byte, outside a text.
    StrayByte,
    /// 32: a token that isn't allowed here, or the end of the file too early.
    Unexpected,
    /// 33: a name that is no keyword, where a statement begins.
    UnknownStatement,
    /// 34: extended multiplexing: `SG_MUL_VAL_` where a statement begins, or an indicator `m`, digits, `M`.
    ExtendedMultiplexing,
    /// 35: a value whose number is no `Decimal`, a value type (`SIG_VALTYPE_`) other than 0, 1 and 2, or an indicator
    /// with a value of the multiplexor above 4,294,967,295.
    Number,
    /// 36: a message's number (`BO_`) that is not that of an identifier.
    Identifier,
    /// 37: a keyword, `Vector__XXX` or a name of more than 128 bytes where something is named.
    Name,
    /// 38: a payload length that is no whole number of 0 to 1785 bytes.
    Length,
    /// 39: a signal's start that is no whole number of 0 to 65,535, or a size that is no whole number of 1 to 64 bits.
    Size,
    /// 71: out of memory.
    Memory,
}

impl ReadCode {
    ghost use Rattle.dbc_lex.specs.Fault.{code_number, code_name};

    /// The code's number, which reports print.
    pub fn number(self) -> u8
        ensures { result ≡ code_number self }
    {
        match self {
            ReadCode::DoubleNumber => 20,
            ReadCode::DoubleName => 21,
            ReadCode::TwoMultiplexors => 25,
            ReadCode::TooMany => 26,
            ReadCode::UnclosedText => 30,
            ReadCode::StrayByte => 31,
            ReadCode::Unexpected => 32,
            ReadCode::UnknownStatement => 33,
            ReadCode::ExtendedMultiplexing => 34,
            ReadCode::Number => 35,
            ReadCode::Identifier => 36,
            ReadCode::Name => 37,
            ReadCode::Length => 38,
            ReadCode::Size => 39,
            ReadCode::Memory => 71,
        }
    }

    /// The code's name, which reports print after the number.
    pub fn name(self) -> &'static str
        ensures { result.now ≡ code_name self }
    {
        match self {
            ReadCode::DoubleNumber => "DoubleNumber",
            ReadCode::DoubleName => "DoubleName",
            ReadCode::TwoMultiplexors => "TwoMultiplexors",
            ReadCode::TooMany => "TooMany",
            ReadCode::UnclosedText => "UnclosedText",
            ReadCode::StrayByte => "StrayByte",
            ReadCode::Unexpected => "Unexpected",
            ReadCode::UnknownStatement => "UnknownStatement",
            ReadCode::ExtendedMultiplexing => "ExtendedMultiplexing",
            ReadCode::Number => "Number",
            ReadCode::Identifier => "Identifier",
            ReadCode::Name => "Name",
            ReadCode::Length => "Length",
            ReadCode::Size => "Size",
            ReadCode::Memory => "Memory",
        }
    }
}

impl fmt::Display for ReadCode {
    ghost use Rattle.dbc_lex.specs.Fault.{code_name};

    ghost output = { λ code. Some (code_name code) };

    fn fmt<W: fmt::Write>(&self, f: &mut fmt::Formatter<W>) -> fmt::Result {
        f.pad(self.name())
    }
}

impl Error for ReadCode {}

/// A fault of reading a DBC text, and its offset.
#[derive(Clone, Copy, Debug, PartialEq, Eq)]
pub struct ReadFault {
    /// What is wrong.
    pub code: ReadCode,
    /// The offset of the byte or of the token that it is about: the text's length if the text ends too early, and 0 if
    /// memory ran out.
    pub at: usize,
}

impl ReadFault {
    /// Out of memory.
    pub const MEMORY: ReadFault = ReadFault {
        code: ReadCode::Memory,
        at: 0,
    };
}

impl From<AllocError> for ReadFault {
    ghost use Rattle.dbc_lex.specs.declared.fault.ReadCode.TheVariants.{Memory};

    ghost from_gives = { λ _ fault. (fault.code ≡ Memory) × (fault.at ≡ 0) };

    fn from(error: AllocError) -> ReadFault {
        ReadFault::MEMORY
    }
}

impl<T: Drop> From<AllocFailed<T>> for ReadFault {
    ghost use Rattle.dbc_lex.specs.declared.fault.ReadCode.TheVariants.{Memory};

    ghost from_gives = { λ _ fault. (fault.code ≡ Memory) × (fault.at ≡ 0) };

    fn from(_error: AllocFailed<T>) -> ReadFault {
        ReadFault::MEMORY
    }
}

impl fmt::Display for ReadFault {
    ghost use Rattle.std.specs.Prelude.{codes, ◌++◌};
    ghost use Rattle.std.specs.Fmt.{decimal};
    ghost use Rattle.dbc_lex.specs.Fault.{code_name};

    ghost output = { λ fault. Some (code_name fault.code ++ codes " at byte " ++ decimal fault.at) };

    fn fmt<W: fmt::Write>(&self, f: &mut fmt::Formatter<W>) -> fmt::Result {
        write!(f, "{} at byte {}", self.code, self.at)
    }
}

impl Error for ReadFault {}
