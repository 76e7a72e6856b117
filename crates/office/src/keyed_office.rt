//! An office in memory, and what it keeps of the requests that came first.
ghost use Rattle.std.specs.Prelude.{◌≡◌, ◌++◌, ◌∷◌, [], List, None, IfOk, OnOk, OnErr};
ghost use Rattle.office_history.specs.Answering.{answered};
ghost use Rattle.office_history.specs.History.{Answered, first_of};
ghost use Rattle.office.specs.Keyed.{HoldsHistory};
ghost use Rattle.office.specs.Running.{HasBegunToAnswer, HasAnswered};

use crate::first::{First, Pair, answer_at};
use crate::plain::PlainOffice;
use indexmap::IndexMap;
use office_history::{Answer, Arrival, Key, Request, histories_grow};
use office_types::Team;
use std::alloc::{AllocError, Global};
use std::marker::Model;

/// An office in memory that answers requests which may arrive again. Contracts see it as the office, and what is kept
/// of the first arrival of each pair of team and key, in order.
pub struct KeyedOffice {
    office: PlainOffice,
    firsts: IndexMap<Pair, First>,
}

impl Model for KeyedOffice {
    ghost use Rattle.std.specs.Prelude.{map};
    ghost use Rattle.office.specs.Keyed.{Keyed, entry_kept};

    ghost Value = { Keyed };

    ghost view = { λ k. record { office = k.office; kept = map entry_kept k.firsts.entries } };
}

impl KeyedOffice {
    /// The office with no network and an empty book, at which nothing has arrived. Takes no memory.
    pub fn new(alloc: Global) -> Self
        ensures { HoldsHistory [] result }
    {
        histories_grow();
        KeyedOffice {
            office: PlainOffice::new(alloc),
            firsts: IndexMap::new(alloc),
        }
    }

    /// The office as it is now.
    pub fn office(&self) -> &PlainOffice
        ensures { result.now ≡ self.now.office }
    {
        &self.office
    }

    /// Answers an arrival whose pair is new by a step of the office, and keeps its content and the reply. If memory
    /// runs out, nothing changes.
    fn first_arrival(
        &mut self,
        alloc: Global,
        pair: Pair,
        request: &Request,
    ) -> Result<Answer, AllocError>
        ensures held { IfOk result (λ answer. (h : List Answered) → HoldsHistory h self.old
            → first_of h (answered pair.team pair.key request.now answer) ≡ None
            → HoldsHistory (h ++ answered pair.team pair.key request.now answer ∷ []) self.new) }
        ensures err { OnErr result (self.new ≡ self.old) }
    {
        histories_grow();
        let content = Vec::from_slice(alloc, request.content.as_slice())?;
        self.firsts.reserve(1)?;
        let (reply, copy) = self
            .office
            .step_with_copy(alloc, &pair.team, &request.command)?;
        let answer = Answer::Reply(copy);
        self.firsts.insert(pair, First { content, reply }).unwrap();
        Ok(answer)
    }

    /// Answers an arrival. If its pair of team and key is new, a step of the office is carried out, and its content and
    /// reply are kept, a refusal too. If the pair came before, nothing changes: the answer is the kept reply if the
    /// content is the kept one, byte for byte, and else [`Answer::KeyReused`]. The error is out of memory: then nothing
    /// changed, and the arrival counts as not sent.
    pub fn arrive(
        &mut self,
        alloc: Global,
        team: &Team,
        key: &Key,
        request: &Request,
    ) -> Result<Answer, AllocError>
        ensures held { IfOk result (λ answer. (h : List Answered) → HoldsHistory h self.old
            → HoldsHistory (h ++ answered team.now key.now request.now answer ∷ []) self.new) }
        ensures err { OnErr result (self.new ≡ self.old) }
    {
        histories_grow();
        let pair = Pair::of(alloc, team, key)?;
        match answer_at(alloc, &self.firsts, &pair, request.content.as_slice())? {
            Some(answer) => Ok(answer),
            None => self.first_arrival(alloc, pair, request),
        }
    }

    /// Answers the arrivals in order, each as [`KeyedOffice::arrive`] does, and adds their answers. If memory runs out,
    /// the first arrivals of the list were answered, and their answers were added.
    pub fn run(
        &mut self,
        alloc: Global,
        arrivals: &[Arrival],
        answers: &mut Vec<Answer>,
    ) -> Result<(), AllocError>
        ensures whole { OnOk result
            (HasAnswered self.old arrivals.now answers.old.items answers.new.items self.new) }
        ensures begun { OnErr result
            (HasBegunToAnswer self.old arrivals.now answers.old.items answers.new.items self.new) }
    {
        for arrival in arrivals {
            answers.reserve(1)?;
            let answer = self.arrive(alloc, &arrival.team, &arrival.key, &arrival.request)?;
            answers.push_reserved(answer);
        }
        Ok(())
    }
}

impl Drop for KeyedOffice {
    fn drop(self) {
        let KeyedOffice {
            office: _office,
            firsts: _firsts,
        } = self;
    }
}
