//! Arrivals.
ghost use Rattle.std.specs.Prelude.{◌≡◌, List, None, IsSome};
ghost use Rattle.sqlite.specs.Held.{state};
ghost use Rattle.store_tables.specs.Tables.{tables_of};
ghost use Rattle.office_history.specs.History.{Answered, first_of};
ghost use Rattle.office_history.specs.Answering.{answered};
ghost use Rattle.store.specs.Calls.{HoldsOnErr, HoldsOneMoreOnOk, IsOfficeCall, IsSettled, KeepsDoubt, KeepsStatistics};
ghost use Rattle.store.specs.Calls.{LeavesOneMoreAtMost, LeavesStatistics, SameOnErr, SameOnRepeat, followed_by};
ghost use Rattle.store_tables.specs.Frames.{Asks, StaysIn};
ghost use Rattle.store.specs.Holds.{Holds};

use crate::deciding::decide_on_tables;
use crate::losing::loss_by;
use crate::lost::Lost;
use crate::opening::leaves_committed;
use crate::stored_office::StoredOffice;
use office_history::{Answer, Key, Request, histories_leave_offices};
use office_types::{Decision, Team, command_is_in_range};
use sqlite::{Alter, Connection, Error, Transaction};
use std::alloc::Global;
use store_changes::{answer_at, keep_reply, write_changes};
use store_tables::knows_schema;

/// Carries out an arrival whose pair of team and key is new: a step of the office.
fn first_arrival<S: Alter>(
    alloc: Global,
    tx: &mut Transaction<'_, S>,
    team: &Team,
    key: &Key,
    request: &Request,
) -> Result<Answer, Error>
    ensures frame { StaysIn S.Store tx.old tx.new result }
    ensures held { Asks S.Store tx.old tx.new result (λ answer t.
        (h : List Answered) → Holds h t
        → first_of h (answered team.now key.now request.now answer) ≡ None
        → Holds (followed_by h (answered team.now key.now request.now answer))
        (tables_of (state S.Store tx.new.conn.now).now.trees)) }
{
    histories_leave_offices();
    team.as_bytes();
    command_is_in_range(&request.command);
    let name = &request.command.net;
    let (decision, next) = decide_on_tables(alloc, tx, team, &request.command)?;
    let Decision { changes, reply } = decision;
    write_changes(alloc, tx, name, next, changes.as_slice())?;
    keep_reply(tx, team, key, request.content.as_slice(), &reply)?;
    Ok(Answer::Reply(reply))
}

/// Answers an arrival: as the kept reply says where its pair of team and key came before, and else by a step.
fn arrive_inside<S: Alter>(
    alloc: Global,
    tx: &mut Transaction<'_, S>,
    team: &Team,
    key: &Key,
    request: &Request,
) -> Result<Answer, Error>
    ensures frame { StaysIn S.Store tx.old tx.new result }
    ensures held { Asks S.Store tx.old tx.new result (λ answer t.
        (h : List Answered) → Holds h t
        → Holds (followed_by h (answered team.now key.now request.now answer))
        (tables_of (state S.Store tx.new.conn.now).now.trees)) }
    ensures repeated { Asks S.Store tx.old tx.new result (λ answer t.
        (h : List Answered) → Holds h t
        → IsSome (first_of h (answered team.now key.now request.now answer))
        → (state S.Store tx.new.conn.now).now ≡ (state S.Store tx.old.conn.now).now) }
{
    team.as_bytes();
    command_is_in_range(&request.command);
    match answer_at(alloc, tx, team, key, request.content.as_slice())? {
        Some(answer) => Ok(answer),
        None => first_arrival(alloc, tx, team, key, request),
    }
}

/// Answers an arrival in one transaction. Where there is an error, nothing is committed, unless the commit itself fails
/// and the disk keeps it in spite of that.
pub(crate) fn transact<S: Alter>(
    alloc: Global,
    conn: &mut Connection<S>,
    team: &Team,
    key: &Key,
    request: &Request,
) -> Result<Answer, Error>
    requires { IsSettled S.Store conn.old }
    ensures autocommit { IsSettled S.Store conn.new }
    ensures clean { KeepsDoubt S.Store conn.old conn.new }
    ensures answered { HoldsOneMoreOnOk S.Store conn.old conn.new result
        (answered team.now key.now request.now) }
    ensures repeated { SameOnRepeat S.Store conn.old conn.new result
        (answered team.now key.now request.now) }
    ensures lost { HoldsOnErr S.Store conn.old conn.new result }
    ensures lost_same { SameOnErr S.Store conn.old conn.new result }
    ensures left { LeavesOneMoreAtMost S.Store conn.old conn.new result
        (answered team.now key.now request.now) }
    ensures statistics { KeepsStatistics S.Store conn.old conn.new }
    ensures statistics_left { LeavesStatistics S.Store conn.old conn.new }
{
    knows_schema(conn);
    leaves_committed(conn);
    let _settled = conn.is_autocommit();
    let mut tx = conn.transaction();
    let answer = arrive_inside(alloc, &mut tx, team, key, request)?;
    let done = tx.commit();
    leaves_committed(conn);
    done?;
    Ok(answer)
}

impl<S: Alter> StoredOffice<S> {
    /// Answers an arrival, in one transaction. If its pair of team and key is new, a step of the office is carried out,
    /// and its reply is kept, a refusal too. If the pair came before, nothing changes: the answer is the kept reply if
    /// the content is the kept one, byte for byte, and else [`Answer::KeyReused`].
    ///
    /// A lost arrival counts as not sent: the tables are as before. After [`Lost::Memory`] the next arrival may be
    /// answered. After [`Lost::Store`] the office has failed, and each later call is lost so and changes nothing;
    /// whoever opens it anew finds the tables as before, or, where the disk failed, with this arrival.
    pub fn arrive(
        &mut self,
        alloc: Global,
        team: &Team,
        key: &Key,
        request: &Request,
    ) -> Result<Answer, Lost>
        ensures call { IsOfficeCall S.Store self.old self.new result }
        ensures answered { HoldsOneMoreOnOk S.Store self.old.conn self.new.conn result
            (answered team.now key.now request.now) }
        ensures repeated { SameOnRepeat S.Store self.old.conn self.new.conn result
            (answered team.now key.now request.now) }
        ensures lost { HoldsOnErr S.Store self.old.conn self.new.conn result }
        ensures lost_same { SameOnErr S.Store self.old.conn self.new.conn result }
        ensures left { LeavesOneMoreAtMost S.Store self.old.conn self.new.conn result
            (answered team.now key.now request.now) }
        ensures statistics { KeepsStatistics S.Store self.old.conn self.new.conn }
        ensures statistics_left { LeavesStatistics S.Store self.old.conn self.new.conn }
    {
        leaves_committed(&self.conn);
        let _settled = self.conn.is_autocommit();
        if self.failed {
            return Err(Lost::Store);
        }
        self.known.outdate();
        match transact(alloc, &mut self.conn, team, key, request) {
            Ok(answer) => Ok(answer),
            Err(error) => {
                let lost = loss_by(&mut self.conn, error);
                self.failed = lost == Lost::Store;
                Err(lost)
            }
        }
    }
}
