//! What `show` shows of a network.
ghost use Rattle.std.specs.Prelude.{◌≡◌, None, Some, IfErr, IfOk};
ghost use Rattle.std.specs.Option.{option_map};
ghost use Rattle.canoffice_jobs.specs.What.{fits, shown_by, what_given, what_of, word_of};
ghost use Rattle.canoffice_jobs.specs.WhatFault.{IsWhatFault};

use office_types::Overview;
use std::alloc::{AllocError, Global};

/// What is shown of a network.
#[derive(Clone, Copy)]
pub enum What {
    /// An overview: of blocks and messages all, or those of the team whose name follows; of nodes all, or what the one
    /// whose name follows sends and receives.
    Overview(Overview),
    /// The live message whose name follows.
    Message,
    /// Who has the name or the number that follows.
    Who,
}

/// All that can be shown.
pub const SHOWN: [What; 9] = [
    What::Overview(Overview::State),
    What::Overview(Overview::Blocks),
    What::Overview(Overview::Messages),
    What::Message,
    What::Overview(Overview::Held),
    What::Overview(Overview::Releases),
    What::Overview(Overview::Nodes),
    What::Overview(Overview::Spns),
    What::Who,
];

impl What {
    /// Its word.
    pub fn word(self) -> &'static str
        ensures { result.now ≡ word_of self }
    {
        match self {
            What::Overview(overview) => overview.word(),
            What::Message => "message",
            What::Who => "who",
        }
    }

    /// What the word names, or `None` where it names nothing that is shown.
    pub fn of_word(word: &str) -> Option<What>
        ensures { result ≡ what_of word.now }
    {
        SHOWN.iter().copied().find(|what| what.word() == word)
    }

    /// Whether it can be shown where a name follows, or where none does.
    pub fn fits(self, is_named: bool) -> bool
        ensures { result ≡ fits self is_named }
    {
        match self {
            What::Overview(Overview::Blocks | Overview::Messages | Overview::Nodes) => true,
            What::Overview(_) => !is_named,
            What::Message | What::Who => is_named,
        }
    }
}

/// Why nothing is shown by the words after a network's name.
#[derive(Clone, Copy)]
pub enum WhatFault<'a> {
    /// Nothing is called so.
    Unknown(&'a str),
    /// A name must follow this, and none does.
    NoName(What),
    /// This name follows something after which none may.
    NameAfter(What, &'a str),
    /// JSON is wanted, and no network is named: the list of networks is shown as lines alone.
    NoNet,
}

impl WhatFault<'_> {
    /// What is wrong, in one line. The error is out of memory.
    pub fn message(self, alloc: Global) -> Result<String, AllocError> {
        match self {
            WhatFault::Unknown(word) => {
                let all = "state, blocks, messages, message, held, releases, nodes, spns and who";
                format!(in alloc; "invalid value '{word}' for '[WHAT]': not one of {all}")
            }
            WhatFault::NoName(what) => {
                let what = what.word();
                format!(in alloc; "no value for '[NAME]': '{what}' needs one")
            }
            WhatFault::NameAfter(what, name) => {
                let what = what.word();
                format!(in alloc; "unexpected value '{name}' for '[NAME]': '{what}' takes none")
            }
            WhatFault::NoNet => format!(in alloc; "no value for '[NET]': '--json' needs one"),
        }
    }
}

/// What the word names; the state where there is no word. The error is the word, which names nothing.
fn what_given<'a>(what: Option<&'a str>) -> Result<What, &'a str>
    ensures given { IfOk result
        (λ shown. what_given (option_map (λ w. w.now) what.entry) ≡ Some shown) }
    ensures wrong { IfErr result
        (λ word. what_given (option_map (λ w. w.now) what.entry) ≡ None) }
    ensures word { IfErr result (λ word. (option_map (λ w. w.now) what.entry ≡ Some word.now)
        × (what_of word.now ≡ None)) }
{
    let Some(word) = what else {
        return Ok(What::Overview(Overview::State));
    };
    match What::of_word(word) {
        Some(what) => Ok(what),
        None => Err(word),
    }
}

/// What is shown by the network's name, the word for what it is, without which it is the state, and the name after it;
/// and whether that is wanted as JSON. The error is why they show nothing.
pub fn shown_by<'a>(
    net: Option<&'a str>,
    what: Option<&'a str>,
    name: Option<&'a str>,
    json: bool,
) -> Result<What, WhatFault<'a>>
    ensures given { IfOk result (λ shown. shown_by (option_map (λ w. w.now) net.entry)
        (option_map (λ w. w.now) what.entry) (option_map (λ w. w.now) name.entry) json ≡ Some shown) }
    ensures wrong { IfErr result (λ fault. shown_by (option_map (λ w. w.now) net.entry)
        (option_map (λ w. w.now) what.entry) (option_map (λ w. w.now) name.entry) json ≡ None) }
    ensures why { IfErr result (λ fault. IsWhatFault (option_map (λ w. w.now) net.entry)
        (option_map (λ w. w.now) what.entry) (option_map (λ w. w.now) name.entry) json fault) }
{
    let what = match what_given(what) {
        Ok(what) => what,
        Err(word) => return Err(WhatFault::Unknown(word)),
    };
    if !what.fits(name.is_some()) {
        return match name {
            Some(name) => Err(WhatFault::NameAfter(what, name)),
            None => Err(WhatFault::NoName(what)),
        };
    }
    if json && net.is_none() {
        return Err(WhatFault::NoNet);
    }
    Ok(what)
}
