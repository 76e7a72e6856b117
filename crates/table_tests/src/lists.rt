//! The lists of requests, with what each request is answered and leaves.
use office_history::Arrival;
use office_script::{Dash, FileSource, PathFault, arrivals_of};
use std::alloc::{AllocError, Global};
use std::io::{self, ErrorKind};

/// A request.
#[derive(Clone, Copy)]
pub(crate) struct Step {
    /// Its line in a script.
    pub(crate) line: &'static [u8],
    /// Its reply.
    pub(crate) reply: &'static str,
    /// The live messages of the network after it, in DBC text.
    pub(crate) live: &'static [u8],
}

/// Steps as they arrive.
#[derive(Clone, Copy)]
pub(crate) struct List<'a> {
    /// The steps.
    pub(crate) steps: &'a [Step],
    /// The arrival of each.
    pub(crate) arrivals: &'a [Arrival],
}

/// Identifier 256 is given out again after its message is retired, since no release has used it. Then a release uses
/// 257, so after its message is retired it isn't given out again.
pub(crate) const ELEVEN: [Step; 11] = [
    Step {
        line: b"c1 office open_net net=truck kind=can reviews=0",
        reply: "done",
        live: b"",
    },
    Step {
        line: b"c2 office grant net=truck team=engine form=std first=256 last=258",
        reply: "done",
        live: b"",
    },
    Step {
        line: b"c3 engine take_ident net=truck form=std name=E1 length=8",
        reply: "number 256",
        live: b"BO_ 256 E1: 8 Vector__XXX\n",
    },
    Step {
        line: b"c4 engine take_ident net=truck form=std name=E2 length=8",
        reply: "number 257",
        live: b"BO_ 256 E1: 8 Vector__XXX\nBO_ 257 E2: 8 Vector__XXX\n",
    },
    Step {
        line: b"c5 engine retire net=truck message=E1",
        reply: "done",
        live: b"BO_ 257 E2: 8 Vector__XXX\n",
    },
    Step {
        line: b"c6 engine import net=truck file=three.dbc",
        reply: "refused 51 IdentTaken",
        live: b"BO_ 257 E2: 8 Vector__XXX\n",
    },
    Step {
        line: b"c7 engine take_ident net=truck form=std name=E3 length=8",
        reply: "number 256",
        live: b"BO_ 256 E3: 8 Vector__XXX\nBO_ 257 E2: 8 Vector__XXX\n",
    },
    Step {
        line: b"c8 engine submit net=truck",
        reply: "done",
        live: b"BO_ 256 E3: 8 Vector__XXX\nBO_ 257 E2: 8 Vector__XXX\n",
    },
    Step {
        line: b"c9 office release net=truck",
        reply: "release 1",
        live: b"BO_ 256 E3: 8 Vector__XXX\nBO_ 257 E2: 8 Vector__XXX\n",
    },
    Step {
        line: b"c10 engine retire net=truck message=E2",
        reply: "done",
        live: b"BO_ 256 E3: 8 Vector__XXX\n",
    },
    Step {
        line: b"c11 engine take_ident net=truck form=std name=E4 length=8",
        reply: "number 258",
        live: b"BO_ 256 E3: 8 Vector__XXX\nBO_ 258 E4: 8 Vector__XXX\n",
    },
];

/// After the list of eleven: the released identifier isn't live, and is held.
pub(crate) const HELD: [Step; 1] = [Step {
    line: b"d1 engine take_ident net=truck form=std name=E5 length=8 want=257",
    reply: "refused 52 Held",
    live: b"BO_ 256 E3: 8 Vector__XXX\nBO_ 258 E4: 8 Vector__XXX\n",
}];

/// A bundle that is carried out, and one whose third part is refused, since its name is taken by the first.
pub(crate) const BUNDLES: [Step; 7] = [
    Step {
        line: b"c1 office open_net net=truck kind=can reviews=0",
        reply: "done",
        live: b"",
    },
    Step {
        line: b"c2 office grant net=truck team=engine form=std first=256 last=258",
        reply: "done",
        live: b"",
    },
    Step {
        line: b"b1 engine bundle net=truck file=message.txt",
        reply: "bundle number 256; start 0",
        live: b"BO_ 256 E1: 8 Vector__XXX\n SG_ Speed : 0|8@1+ (1,0) [0|0] \"\" Vector__XXX\n",
    },
    Step {
        line: b"b2 engine bundle net=truck file=taken.txt",
        reply: "refused 62 BundleRefused 50 3",
        live: b"BO_ 256 E1: 8 Vector__XXX\n SG_ Speed : 0|8@1+ (1,0) [0|0] \"\" Vector__XXX\n",
    },
    Step {
        line: b"c3 engine take_ident net=truck form=std name=E9 length=8",
        reply: "number 257",
        live: b"BO_ 256 E1: 8 Vector__XXX\n SG_ Speed : 0|8@1+ (1,0) [0|0] \"\" Vector__XXX\n\
BO_ 257 E9: 8 Vector__XXX\n",
    },
    Step {
        line: b"b2 engine bundle net=truck file=taken.txt",
        reply: "refused 62 BundleRefused 50 3",
        live: b"BO_ 256 E1: 8 Vector__XXX\n SG_ Speed : 0|8@1+ (1,0) [0|0] \"\" Vector__XXX\n\
BO_ 257 E9: 8 Vector__XXX\n",
    },
    Step {
        line: b"b1 engine bundle net=truck file=message.txt",
        reply: "bundle number 256; start 0",
        live: b"BO_ 256 E1: 8 Vector__XXX\n SG_ Speed : 0|8@1+ (1,0) [0|0] \"\" Vector__XXX\n\
BO_ 257 E9: 8 Vector__XXX\n",
    },
];

/// After the list with bundles: the names and numbers of the refused one are free.
pub(crate) const FREE: [Step; 1] = [Step {
    line: b"d1 engine take_ident net=truck form=std name=E2 length=8",
    reply: "number 258",
    live: b"BO_ 256 E1: 8 Vector__XXX\n SG_ Speed : 0|8@1+ (1,0) [0|0] \"\" Vector__XXX\n\
BO_ 257 E9: 8 Vector__XXX\nBO_ 258 E2: 8 Vector__XXX\n",
}];

const THREE: &[u8] =
    b"BO_ 256 A: 8 Vector__XXX\nBO_ 257 B: 8 Vector__XXX\nBO_ 258 C: 8 Vector__XXX\n";

const MESSAGE: &[u8] = b"take_ident form=std name=E1 length=8\n\
take_bits message=E1 signal=Speed size=8 order=intel signed=false factor=1 offset=0 minimum=0 maximum=0 unit=\n";

const TAKEN: &[u8] = b"take_ident form=std name=E2 length=8\n\
take_ident form=std name=E3 length=8\n\
take_ident form=std name=E2 length=8\n";

/// The bytes of the file of this name.
fn bytes_of(name: &str) -> Option<&'static [u8]> {
    if name == "three.dbc" {
        Some(THREE)
    } else if name == "message.txt" {
        Some(MESSAGE)
    } else if name == "taken.txt" {
        Some(TAKEN)
    } else {
        None
    }
}

/// The files that the lines name.
#[derive(Clone, Copy)]
struct NamedFiles;

impl FileSource for NamedFiles {
    ghost use Rattle.office_script.specs.Files.{unknown};

    ghost held = { λ _ _. unknown };

    fn read(&self, alloc: Global, path: &str) -> Result<Vec<u8>, PathFault> {
        let Some(bytes) = bytes_of(path) else {
            return Err(PathFault::Unreadable);
        };
        match Vec::from_slice(alloc, bytes) {
            Ok(bytes) => Ok(bytes),
            Err(AllocError) => Err(PathFault::Memory),
        }
    }
}

/// The script of the steps.
fn script(alloc: Global, steps: &[Step]) -> Result<Vec<u8>, AllocError> {
    let mut script = Vec::new(alloc);
    for step in steps {
        script.extend_from_slice(step.line)?;
        script.push(b'\n')?;
    }
    Ok(script)
}

/// The arrivals of the steps.
pub(crate) fn arrivals(alloc: Global, steps: &[Step]) -> io::Result<Vec<Arrival>> {
    let script = script(alloc, steps)?;
    match arrivals_of(alloc, &script, Dash::Wrong, &NamedFiles) {
        Ok(arrivals) => Ok(arrivals),
        Err(_) => Err(ErrorKind::InvalidData)?,
    }
}

/// What each live sheet begins with.
const HEAD: &[u8] = b"VERSION \"\"\nNS_ :\nBS_:\nBU_:\n";

/// Whether this is the live sheet with these messages.
fn is_sheet(text: &[u8], live: &[u8]) -> bool {
    text.len() == HEAD.len().saturating_add(live.len())
        && text.starts_with(HEAD)
        && text.ends_with(live)
}

/// Whether this is the live sheet after the first steps, so many. Before the first one there is no network.
pub(crate) fn is_live_after(text: Option<&[u8]>, steps: &[Step], count: usize) -> bool {
    if count == 0 {
        return text.is_none();
    }
    match (text, steps.get(count.saturating_sub(1))) {
        (Some(text), Some(step)) => is_sheet(text, step.live),
        _ => false,
    }
}
