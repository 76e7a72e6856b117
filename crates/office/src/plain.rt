//! An office in memory.
ghost use Rattle.std.specs.Prelude.{◌≡◌, IfOk, OnOk, OnErr};
ghost use Rattle.office_rules.specs.Kept.{IsOffice};
ghost use Rattle.office_rules.specs.Profile.{Two};
ghost use Rattle.office_rules.specs.Step.{opening, Step, HasRun, HasBegun};

use crate::net_index::NetIndex;
use crate::stepping::step;
use base::Items;
use office_types::{Command, Net, Reply, SpnBook, Team, UsedSpns, command_is_in_range};
use std::alloc::{AllocError, Global};
use std::marker::Model;

/// An office in memory. Contracts see it as the state that it holds, which is always that of an office. Beside each
/// network it may keep what finds names and numbers there without a walk.
pub struct PlainOffice {
    nets: Vec<Net>,
    indexes: Vec<Option<NetIndex>>,
    book: SpnBook,
}

impl Model for PlainOffice {
    ghost use Rattle.office_types.specs.declared.state.Office.{Office};
    ghost use Rattle.office_rules.specs.Kept.{IsOffice};
    ghost use Rattle.office.specs.Indexed.{AreIndexes};

    ghost Value = { Office };

    ghost view = { λ p. record { nets = p.nets.items; book = p.book } };

    ghost invariant = { λ p. IsOffice (record { nets = p.nets.items; book = p.book })
        × AreIndexes p.indexes.items p.nets.items };
}

impl PlainOffice {
    /// The office with no network and an empty book. Takes no memory.
    pub fn new(alloc: Global) -> Self
        ensures { result ≡ opening }
    {
        PlainOffice {
            nets: Vec::new(alloc),
            indexes: Vec::new(alloc),
            book: SpnBook {
                blocks: Items::new(alloc),
                used: UsedSpns::new(alloc),
            },
        }
    }

    /// The networks, in ascending order of name.
    pub fn nets(&self) -> &[Net]
        ensures nets { result.now ≡ self.now.nets }
        ensures office { IsOffice self.now }
    {
        self.nets.as_slice()
    }

    /// The suspect parameter numbers of the whole office.
    pub fn book(&self) -> &SpnBook
        ensures { result.now ≡ self.now.book }
    {
        &self.book
    }

    /// One step of the office: the team's command is carried out, or it is refused and nothing changes. If memory
    /// runs out, nothing changes.
    pub fn step(
        &mut self,
        alloc: Global,
        team: &Team,
        command: &Command,
    ) -> Result<Reply, AllocError>
        ensures step { IfOk result
            (λ reply. Step Two self.old team.now command.now reply self.new) }
        ensures err { OnErr result (self.new ≡ self.old) }
    {
        let (reply, _copy) = self.step_with_copy(alloc, team, command)?;
        Ok(reply)
    }

    /// One step as [`PlainOffice::step`] takes it, with its reply twice: the memory for the second one is taken before
    /// anything changes.
    pub fn step_with_copy(
        &mut self,
        alloc: Global,
        team: &Team,
        command: &Command,
    ) -> Result<(Reply, Reply), AllocError>
        ensures step { IfOk result
            (λ both. Step Two self.old team.now command.now both.0 self.new) }
        ensures copy { IfOk result (λ both. both.1 ≡ both.0) }
        ensures err { OnErr result (self.new ≡ self.old) }
    {
        team.as_bytes();
        command_is_in_range(command);
        step(
            alloc,
            team,
            &mut self.nets,
            &mut self.indexes,
            &mut self.book,
            command,
        )
    }

    /// Runs the commands in order, each for its team, and adds their replies. If memory runs out, the first commands
    /// of the list were run, and their replies were added.
    pub fn run(
        &mut self,
        alloc: Global,
        requests: &[(Team, Command)],
        replies: &mut Vec<Reply>,
    ) -> Result<(), AllocError>
        ensures whole { OnOk result
            (HasRun self.old requests.now replies.old.items replies.new.items self.new) }
        ensures begun { OnErr result
            (HasBegun self.old requests.now replies.old.items replies.new.items self.new) }
    {
        for (team, command) in requests {
            replies.reserve(1)?;
            let reply = self.step(alloc, team, command)?;
            replies.push_reserved(reply);
        }
        Ok(())
    }
}

impl Drop for PlainOffice {
    fn drop(self) {
        let PlainOffice {
            nets: _nets,
            indexes: _indexes,
            book: _book,
        } = self;
    }
}
