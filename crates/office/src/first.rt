//! What came first under a pair of team and key.
ghost use Rattle.std.specs.Prelude.{◌≡◌, List, map, None, Some, IfOk};
ghost use Rattle.std.specs.Option.{MatchOption};
ghost use Rattle.office_history.specs.declared.arrival.Answer.TheVariants as answer;
ghost use Rattle.office_history.specs.History.{Answered, answer_again, first_arrivals, first_of};
ghost use Rattle.office.specs.Keyed.{entry_kept, kept_of};

use base::Copying;
use indexmap::IndexMap;
use office_history::{Answer, Key};
use office_types::{Reply, Team};
use std::alloc::{AllocError, Global};
use std::hash::{Hash, Hasher};

/// A team, and a key that it gave a request.
pub(crate) struct Pair {
    pub(crate) team: Team,
    pub(crate) key: Key,
}

impl Pair {
    /// A copy of the team and the key.
    pub(crate) fn of(alloc: Global, team: &Team, key: &Key) -> Result<Self, AllocError>
        ensures team { IfOk result (λ pair. pair.team ≡ team.now) }
        ensures key { IfOk result (λ pair. pair.key ≡ key.now) }
    {
        Ok(Pair {
            team: team.duplicate(alloc)?,
            key: key.duplicate(alloc)?,
        })
    }
}

impl PartialEq for Pair {
    ghost use Rattle.std.proofs.Common.{rules};
    ghost use Rattle.std.specs.Cmp.Rules.{comparing};
    ghost use Rattle.office.specs.Keyed.{pair_eq};

    ghost eq = { pair_eq };

    ghost laws = { Prim.search (comparing, rules) };

    fn eq(&self, other: &Self) -> bool {
        self.team == other.team && self.key == other.key
    }
}

impl Eq for Pair {
    ghost use Rattle.std.proofs.Common.{rules};
    ghost use Rattle.std.specs.Cmp.Rules.{comparing};

    ghost laws = { Prim.search (comparing, rules) };
}

impl Hash for Pair {
    ghost use Rattle.std.specs.Prelude.{◌++◌};
    ghost use Rattle.std.proofs.Common.{rules};
    ghost use Rattle.std.specs.Hash as fed;
    ghost use Rattle.std.specs.Cmp.Rules.{hashing};

    ghost hash_input = { λ pair. fed.slice fed.u8 pair.team ++ fed.slice fed.u8 pair.key };

    ghost respects_eq = { Prim.search (hashing, rules) };

    fn hash<H: Hasher>(&self, state: &mut H) {
        self.team.as_bytes().hash(state);
        self.key.as_bytes().hash(state);
    }
}

impl Drop for Pair {
    fn drop(self) {
        let Pair {
            team: _team,
            key: _key,
        } = self;
    }
}

/// The content of the request that came first under a pair, and what the office replied to it.
pub(crate) struct First {
    pub(crate) content: Vec<u8>,
    pub(crate) reply: Reply,
}

impl Drop for First {
    fn drop(self) {
        let First {
            content: _content,
            reply: _reply,
        } = self;
    }
}

/// What a request of this content is answered whose pair came first so. The error is out of memory.
fn answer_again(alloc: Global, first: &First, content: &[u8]) -> Result<Answer, AllocError>
    ensures { IfOk result (λ again. (came : Answered) → came.content ≡ first.now.content.items
        → came.answer ≡ answer.Reply first.now.reply → again ≡ answer_again came content.now) }
{
    if first.content.as_slice() == content {
        Ok(Answer::Reply(first.reply.duplicate(alloc)?))
    } else {
        Ok(Answer::KeyReused)
    }
}

/// What a request of this content is answered under the pair, where one came before. `None` where none came. The
/// error is out of memory.
pub(crate) fn answer_at(
    alloc: Global,
    firsts: &IndexMap<Pair, First>,
    pair: &Pair,
    content: &[u8],
) -> Result<Option<Answer>, AllocError>
    ensures { IfOk result (λ found. (h : List Answered)
        → map entry_kept firsts.now.entries ≡ map kept_of (first_arrivals h) → (a : Answered)
        → a.team ≡ pair.now.team
        → a.key ≡ pair.now.key
        → MatchOption found (first_of h a ≡ None)
        (λ answer. (first : Answered) × (first_of h a ≡ Some first)
        × (answer ≡ answer_again first content.now))) }
{
    match firsts.get(pair) {
        None => Ok(None),
        Some(first) => Ok(Some(answer_again(alloc, first, content)?)),
    }
}
