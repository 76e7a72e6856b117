//! Why a sheet or a message refuses something or isn't clear, and what the fault is about.
ghost use Rattle.std.specs.Prelude.{◌≡◌, Some};

use bitlayout::Clash;
use std::alloc::AllocError;
use std::error::Error;
use std::fmt;

/// Why a sheet or a message refuses something or isn't clear.
#[derive(Clone, Copy, Debug, PartialEq, Eq)]
pub enum SheetCode {
    /// 20: the sheet has a message with that DBC number already.
    DoubleNumber,
    /// 21: a node, a value table or a message of the sheet, or a signal of the message, has that name already.
    DoubleName,
    /// 22: a bit of a signal is past the end of the payload.
    OutsidePayload,
    /// 23: two signals that are ever present at once share a bit.
    Clash,
    /// 24: a signal depends on a value of the multiplexor, and no signal is the multiplexor.
    NoMultiplexor,
    /// 25: the message has a multiplexor already.
    TwoMultiplexors,
    /// 26: a limit of a sheet or of a message is reached.
    TooMany,
    /// 71: out of memory.
    Memory,
}

impl SheetCode {
    ghost use Rattle.dbc_words.specs.Fault.{code_number, code_name};

    /// The code's number in reports.
    pub fn number(self) -> u8
        ensures { result ≡ code_number self }
    {
        match self {
            SheetCode::DoubleNumber => 20,
            SheetCode::DoubleName => 21,
            SheetCode::OutsidePayload => 22,
            SheetCode::Clash => 23,
            SheetCode::NoMultiplexor => 24,
            SheetCode::TwoMultiplexors => 25,
            SheetCode::TooMany => 26,
            SheetCode::Memory => 71,
        }
    }

    /// The code's name, which reports print after its number.
    pub fn name(self) -> &'static str
        ensures { result.now ≡ code_name self }
    {
        match self {
            SheetCode::DoubleNumber => "DoubleNumber",
            SheetCode::DoubleName => "DoubleName",
            SheetCode::OutsidePayload => "OutsidePayload",
            SheetCode::Clash => "Clash",
            SheetCode::NoMultiplexor => "NoMultiplexor",
            SheetCode::TwoMultiplexors => "TwoMultiplexors",
            SheetCode::TooMany => "TooMany",
            SheetCode::Memory => "Memory",
        }
    }
}

/// The code of a clash of a message's signals.
impl From<Clash> for SheetCode {
    ghost use Rattle.dbc_words.specs.Fault.{clash_code};

    ghost from_gives = { λ clash code. code ≡ clash_code clash };

    fn from(clash: Clash) -> SheetCode {
        match clash {
            Clash::Outside(_) => SheetCode::OutsidePayload,
            Clash::Overlap { .. } => SheetCode::Clash,
            Clash::NoMultiplexor(_) => SheetCode::NoMultiplexor,
            Clash::TwoMultiplexors(_) => SheetCode::TwoMultiplexors,
        }
    }
}

impl From<AllocError> for SheetCode {
    ghost use Rattle.dbc_words.specs.declared.fault.SheetCode.TheVariants.{Memory};

    ghost from_gives = { λ _ code. code ≡ Memory };

    fn from(error: AllocError) -> SheetCode {
        SheetCode::Memory
    }
}

/// What a fault of a sheet is about.
#[derive(Clone, Copy, Debug, PartialEq, Eq)]
pub enum About {
    /// The sheet as a whole.
    Sheet,
    /// A node.
    Node,
    /// A value table.
    Table,
    /// The message of this DBC number.
    Message(u32),
    /// Signals of a message that do not fit together in its payload.
    Signals {
        /// The DBC number of the message.
        message: u32,
        /// What is wrong with them. Its indices are those of the message's signals.
        clash: Clash,
    },
}

/// A fault of a sheet, and what it is about.
#[derive(Clone, Copy, Debug, PartialEq, Eq)]
pub struct SheetFault {
    /// What is wrong.
    pub code: SheetCode,
    /// What it is about.
    pub about: About,
}

impl SheetFault {
    ghost use Rattle.dbc_words.specs.Fault.{message_about};

    /// The DBC number of the message that the fault is about, or `None` if it is about something else.
    pub fn number(&self) -> Option<u32>
        ensures { result ≡ message_about self.now.about }
    {
        match self.about {
            About::Sheet | About::Node | About::Table => None,
            About::Message(number) => Some(number),
            About::Signals { message, .. } => Some(message),
        }
    }
}

/// Out of memory while the sheet is checked.
impl From<AllocError> for SheetFault {
    ghost use Rattle.dbc_words.specs.declared.fault.SheetCode.TheVariants.{Memory};
    ghost use Rattle.dbc_words.specs.declared.fault.About.TheVariants.{Sheet};

    ghost from_gives = { λ _ fault. (fault.code ≡ Memory) × (fault.about ≡ Sheet) };

    fn from(error: AllocError) -> SheetFault {
        SheetFault {
            code: SheetCode::Memory,
            about: About::Sheet,
        }
    }
}

impl fmt::Display for SheetCode {
    ghost use Rattle.dbc_words.specs.Fault.{code_name};

    ghost output = { λ code. Some (code_name code) };

    fn fmt<W: fmt::Write>(&self, f: &mut fmt::Formatter<W>) -> fmt::Result {
        f.pad(self.name())
    }
}

impl Error for SheetCode {}

impl fmt::Display for About {
    ghost use Rattle.dbc_words.specs.Fault.{about_text};

    ghost output = { λ about. Some (about_text about) };

    fn fmt<W: fmt::Write>(&self, f: &mut fmt::Formatter<W>) -> fmt::Result {
        match self {
            About::Sheet => write!(f, "the sheet"),
            About::Node => write!(f, "a node"),
            About::Table => write!(f, "a value table"),
            About::Message(number) => write!(f, "message {number}"),
            About::Signals { message, .. } => write!(f, "signals of message {message}"),
        }
    }
}

impl fmt::Display for SheetFault {
    ghost use Rattle.std.specs.Prelude.{codes, ◌++◌};
    ghost use Rattle.dbc_words.specs.Fault.{about_text, code_name};

    ghost output = { λ fault. Some (code_name fault.code ++ codes ": " ++ about_text fault.about) };

    fn fmt<W: fmt::Write>(&self, f: &mut fmt::Formatter<W>) -> fmt::Result {
        write!(f, "{}: {}", self.code, self.about)
    }
}

impl Error for SheetFault {}
