//! What the office replies to a command.
ghost use Rattle.std.specs.Prelude.{◌≡◌, Some};
ghost use Rattle.office_types.specs.Reply.{IsPartReply, IsReply, bundle_at, part_at, part_numbers, part_reply};
ghost use Rattle.office_types.specs.Reply.{part_start_at, refused_at, reply_at, reply_numbers, reply_parts};
ghost use Rattle.office_types.specs.Reply.{single_at, start_at};
ghost use Rattle.office_types.specs.declared.reply.PartReply.{PartReply};
ghost use Rattle.office_types.specs.declared.reply.Reply.{Reply};

use crate::parts::Parts;
use crate::refusal::{FileFault, Refusal};
use base::{Copying, Items};
use std::alloc::{AllocError, Global};
use std::fmt;

/// What the office answers to a command. Its text is the reply's line, without the line's end.
#[derive(PartialEq, Eq, Drop)]
pub enum Reply {
    /// The command was carried out.
    Done,
    /// The number that was given out: an identifier without bit 31, a parameter group number, or a suspect parameter
    /// number.
    Number(u32),
    /// The start that was given to a signal.
    Start(u16),
    /// How many messages of a file are new, and how many were live already.
    Counts {
        /// New messages.
        new: u32,
        /// Messages that were live already.
        same: u32,
    },
    /// The number of the release that was frozen.
    Release(u32),
    /// The command was refused, and nothing changed.
    Refused(Refusal),
    /// All parts of a bundle were carried out, and were answered so.
    Bundle(Parts<PartReply>),
}

/// What a part of a bundle is answered that is carried out. Its text is that of the reply.
#[derive(Clone, Copy, PartialEq, Eq)]
pub enum PartReply {
    /// The part was carried out.
    Done,
    /// The number that was given out.
    Number(u32),
    /// The start that was given to a signal.
    Start(u16),
    /// The number of the release that was frozen.
    Release(u32),
}

/// A reply as four numbers: its kind, and up to three that it holds, 0 where there are fewer.
#[derive(Clone, Copy, PartialEq, Eq)]
pub struct ReplyNumbers {
    /// Done is 0, a number 1, a start 2, counts 3, a release 4, a refusal 5, a bundle 6.
    pub kind: u32,
    /// The number, the start, the new messages, the release, the refusal's number, or the count of a bundle's parts.
    pub a: u32,
    /// The messages that were live already, or the fault of a file or a bundle.
    pub b: u32,
    /// Where the fault of the file or the bundle is.
    pub c: u32,
}

/// The answer of a part as two numbers: its kind, that of the reply, and its value, 0 where it has none.
#[derive(Clone, Copy, PartialEq, Eq)]
pub struct PartNumbers {
    /// Done is 0, a number 1, a start 2, a release 4.
    pub kind: u32,
    /// The number, the start, or the release.
    pub a: u32,
}

impl Reply {
    /// The reply as numbers. The parts of a bundle have theirs.
    pub fn numbers(&self) -> ReplyNumbers
        ensures { result ≡ reply_numbers self.now }
    {
        match self {
            Reply::Done => numbers_of(0, 0, 0, 0),
            Reply::Number(number) => numbers_of(1, *number, 0, 0),
            Reply::Start(start) => numbers_of(2, u32::from(*start), 0, 0),
            Reply::Counts { new, same } => numbers_of(3, *new, *same, 0),
            Reply::Release(number) => numbers_of(4, *number, 0, 0),
            Reply::Refused(refusal) => {
                let fault = refusal.file_fault();
                let number = refusal.number();
                numbers_of(5, u32::from(number), u32::from(fault.fault), fault.at)
            }
            Reply::Bundle(parts) => numbers_of(6, parts.count(), 0, 0),
        }
    }

    /// What the parts of a bundle are answered, in order; none where the reply isn't of a bundle.
    pub fn parts(&self) -> &[PartReply]
        ensures { result.now ≡ reply_parts self.now }
    {
        match self {
            Reply::Bundle(parts) => parts.as_slice(),
            _ => &[],
        }
    }

    /// The reply of these numbers and parts, or `None` where they are those of no reply. A reply that isn't of a bundle
    /// has no parts.
    pub fn of_numbers(numbers: ReplyNumbers, parts: Items<PartReply>) -> Option<Reply>
        ensures { result ≡ reply_at numbers parts }
    {
        if numbers.kind == 6 {
            return bundle_of(numbers.a, parts);
        }
        if !parts.as_slice().is_empty() {
            return None;
        }
        single_of(numbers)
    }
}

impl PartReply {
    /// The answer as numbers.
    pub fn numbers(self) -> PartNumbers
        ensures { result ≡ part_numbers self }
    {
        match self {
            PartReply::Done => PartNumbers { kind: 0, a: 0 },
            PartReply::Number(number) => PartNumbers { kind: 1, a: number },
            PartReply::Start(start) => PartNumbers {
                kind: 2,
                a: u32::from(start),
            },
            PartReply::Release(number) => PartNumbers { kind: 4, a: number },
        }
    }

    /// The answer of these numbers, or `None` where they are those of none.
    pub fn of_numbers(numbers: PartNumbers) -> Option<PartReply>
        ensures { result ≡ part_at numbers }
    {
        let PartNumbers { kind, a } = numbers;
        if kind == 0 {
            Some(PartReply::Done)
        } else if kind == 1 {
            Some(PartReply::Number(a))
        } else if kind == 2 {
            part_start_of(a)
        } else if kind == 4 {
            Some(PartReply::Release(a))
        } else {
            None
        }
    }

    /// The answer of a part whose command alone would have this reply, which is that of an action.
    pub fn of(reply: &Reply) -> PartReply
        ensures { result ≡ part_reply reply.now }
    {
        match reply {
            Reply::Number(number) => PartReply::Number(*number),
            Reply::Start(start) => PartReply::Start(*start),
            Reply::Release(number) => PartReply::Release(*number),
            Reply::Done | Reply::Counts { .. } | Reply::Refused(_) | Reply::Bundle(_) => {
                PartReply::Done
            }
        }
    }
}

fn numbers_of(kind: u32, a: u32, b: u32, c: u32) -> ReplyNumbers
    ensures { result ≡ record { kind = kind; a = a; b = b; c = c } }
{
    ReplyNumbers { kind, a, b, c }
}

fn start_of(start: u32) -> Option<Reply>
    ensures { result ≡ start_at start }
{
    if start <= 65_535 {
        Some(Reply::Start(start as u16))
    } else {
        None
    }
}

fn part_start_of(start: u32) -> Option<PartReply>
    ensures { result ≡ part_start_at start }
{
    if start <= 65_535 {
        Some(PartReply::Start(start as u16))
    } else {
        None
    }
}

fn refused_of(number: u32, fault: u32, at: u32) -> Option<Reply>
    ensures { result ≡ refused_at number fault at }
{
    if fault <= 255 {
        let reported = FileFault {
            fault: fault as u8,
            at,
        };
        Refusal::of_number(number, reported).map(|refusal| Reply::Refused(refusal))
    } else {
        None
    }
}

fn bundle_of(count: u32, parts: Items<PartReply>) -> Option<Reply>
    ensures { result ≡ bundle_at count parts }
{
    let parts = Parts::of(parts)?;
    if parts.count() == count {
        Some(Reply::Bundle(parts))
    } else {
        None
    }
}

/// The reply of these numbers, of whatever kind but a bundle.
fn single_of(numbers: ReplyNumbers) -> Option<Reply>
    ensures { result ≡ single_at numbers }
{
    let ReplyNumbers { kind, a, b, c } = numbers;
    if kind == 0 {
        Some(Reply::Done)
    } else if kind == 1 {
        Some(Reply::Number(a))
    } else if kind == 2 {
        start_of(a)
    } else if kind == 3 {
        Some(Reply::Counts { new: a, same: b })
    } else if kind == 4 {
        Some(Reply::Release(a))
    } else if kind == 5 {
        refused_of(a, b, c)
    } else {
        None
    }
}

/// Each reply is that of its numbers and its parts, where its start and its fault are in range, as those of every reply
/// are; and so is what each part is answered.
pub fn replies_are_numbered()
    ensures replies { (r : Reply) → IsReply r
        → reply_at (reply_numbers r) (reply_parts r) ≡ Some r }
    ensures parts { (p : PartReply) → IsPartReply p → part_at (part_numbers p) ≡ Some p }
{}

impl Copying for PartReply {
    fn duplicate(&self, _alloc: Global) -> Result<Self, AllocError> {
        Ok(*self)
    }
}

impl Copying for Reply {
    fn duplicate(&self, alloc: Global) -> Result<Self, AllocError> {
        match self {
            Reply::Done => Ok(Reply::Done),
            Reply::Number(number) => Ok(Reply::Number(*number)),
            Reply::Start(start) => Ok(Reply::Start(*start)),
            Reply::Counts { new, same } => Ok(Reply::Counts {
                new: *new,
                same: *same,
            }),
            Reply::Release(number) => Ok(Reply::Release(*number)),
            Reply::Refused(refusal) => Ok(Reply::Refused(*refusal)),
            Reply::Bundle(parts) => Ok(Reply::Bundle(parts.duplicate(alloc)?)),
        }
    }
}

impl fmt::Display for PartReply {
    ghost use Rattle.std.specs.Prelude.{Some};
    ghost use Rattle.office_types.specs.Reply.{part_text};

    ghost output = { λ p. Some (part_text p) };

    fn fmt<W: fmt::Write>(&self, f: &mut fmt::Formatter<W>) -> fmt::Result {
        match self {
            PartReply::Done => write!(f, "done"),
            PartReply::Number(number) => write!(f, "number {number}"),
            PartReply::Start(start) => write!(f, "start {start}"),
            PartReply::Release(number) => write!(f, "release {number}"),
        }
    }
}

/// What the later parts of a bundle are answered, each after a semicolon.
#[derive(Clone, Copy)]
struct Later<'a> {
    parts: &'a [PartReply],
}

impl fmt::Display for Later<'_> {
    ghost use Rattle.std.specs.Prelude.{Some};
    ghost use Rattle.office_types.specs.Reply.{later_text};

    ghost output = { λ later. Some (later_text later.parts.now) };

    fn fmt<W: fmt::Write>(&self, f: &mut fmt::Formatter<W>) -> fmt::Result {
        for part in self.parts {
            write!(f, "; {part}")?;
        }
        Ok(())
    }
}

impl fmt::Display for Reply {
    ghost use Rattle.std.specs.Prelude.{Some};
    ghost use Rattle.office_types.specs.Reply.{reply_text};

    ghost output = { λ r. Some (reply_text r) };

    fn fmt<W: fmt::Write>(&self, f: &mut fmt::Formatter<W>) -> fmt::Result {
        match self {
            Reply::Done => write!(f, "done"),
            Reply::Number(number) => write!(f, "number {number}"),
            Reply::Start(start) => write!(f, "start {start}"),
            Reply::Counts { new, same } => write!(f, "counts {new} {same}"),
            Reply::Release(number) => write!(f, "release {number}"),
            Reply::Refused(Refusal::FileFault(FileFault { fault, at })) => {
                write!(f, "refused 58 FileFault {fault} {at}")
            }
            Reply::Refused(Refusal::BundleRefused(FileFault { fault, at })) => {
                write!(f, "refused 62 BundleRefused {fault} {at}")
            }
            Reply::Bundle(parts) => match parts.as_slice().split_first() {
                None => write!(f, "bundle"),
                Some((first, parts)) => {
                    let later = Later { parts };
                    write!(f, "bundle {first}{later}")
                }
            },
            Reply::Refused(refusal) => {
                let number = refusal.number();
                let name = refusal.name();
                write!(f, "refused {number} {name}")
            }
        }
    }
}
