//! Lists of arrivals.
ghost use Rattle.std.specs.Prelude.{◌≡◌, All, IsTrue, IfOk, OnErr};
ghost use Rattle.sqlite.specs.Held.{state};
ghost use Rattle.store.specs.Calls.{KeepsDoubt, OnHistory, SameIfAllLost, SameIfAllRepeat, StatisticsStayAfter};
ghost use Rattle.store.specs.Headline.{HasRunOnTables};
ghost use Rattle.store.specs.Running.{FailsBy, IsNoProfile};

use crate::lost::Lost;
use crate::stored_office::StoredOffice;
use office_history::{Answer, Arrival};
use sqlite::Alter;
use std::alloc::{AllocError, Global};

impl<S: Alter> StoredOffice<S> {
    /// Answers the arrivals in turn, each as [`StoredOffice::arrive`] does, and goes on after one that is lost. Gives
    /// the results, in order. The error is out of memory for them: then nothing arrived.
    pub fn run(
        &mut self,
        alloc: Global,
        arrivals: &[Arrival],
    ) -> Result<Vec<Result<Answer, Lost>>, AllocError>
        ensures ran { OnHistory S.Store self.old.conn self.new.conn (λ h. IfOk result (λ results.
            HasRunOnTables h arrivals.now results.items self.new.failed
            (state S.Store self.new.conn))) }
        ensures lost_same { IfOk result (λ results.
            SameIfAllLost S.Store self.old.conn self.new.conn results.items) }
        ensures repeated { IfOk result (λ results.
            SameIfAllRepeat S.Store self.old.conn self.new.conn arrivals.now results.items) }
        ensures statistics { StatisticsStayAfter S.Store self.old.conn self.new.conn }
        ensures refused { IsTrue self.old.failed → self.new ≡ self.old }
        ensures failed { IfOk result (λ results.
            FailsBy self.old.failed results.items self.new.failed) }
        ensures named { IfOk result (λ results. All IsNoProfile results.items) }
        ensures clean { KeepsDoubt S.Store self.old.conn self.new.conn }
        ensures err { OnErr result (self.new ≡ self.old) }
    {
        self.leaves_now();
        let mut results = Vec::with_capacity(alloc, arrivals.len())?;
        for arrival in arrivals {
            let answered = self.arrive(alloc, &arrival.team, &arrival.key, &arrival.request);
            results.push_reserved(answered);
        }
        Ok(results)
    }
}
