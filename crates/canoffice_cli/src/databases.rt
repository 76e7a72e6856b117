//! Databases by their paths.
ghost use Rattle.std.specs.Prelude.{[], IfOk, OnErr, Some};
ghost use Rattle.std.specs.Option.{option_map};
ghost use Rattle.std.specs.Result.{result_map_both};
ghost use Rattle.canoffice_cli.specs.Answered.{InDatabase, IsFarEnough, answered_with};
ghost use Rattle.canoffice_cli.specs.Databases.{Databases as Known};
ghost use Rattle.canoffice_cli.specs.Jobs.Looked.{IsLookedUp};
ghost use Rattle.canoffice_cli.specs.Jobs.Migrated.{IsMigrated};
ghost use Rattle.canoffice_cli.specs.Numbers.{HaveLines};
ghost use Rattle.canoffice_cli.specs.Reasons.{TellsOf};
ghost use Rattle.canoffice_cli.specs.Jobs.Served.{IsServed};

mod memory;

use crate::answering::Answers;
use crate::jobs::ServeEnd;
use crate::progress::Progress;
use crate::reasons::Reasons;
pub use memory::MemoryDatabase;
use office_history::Arrival;
use office_types::Look;
use std::alloc::{AllocError, Global};
use std::io::Write;
use store::Lost;

/// Databases that are found by their paths, each with the tables of an office. One that is absent is made, unless it is
/// only looked at.
pub trait Databases {
    /// What is known of them.
    ghost known: { Self → Known };

    /// Answers the arrivals in turn by the office in the database at the path, up to the first that is lost, and where
    /// it is strict, up to the first that is refused. It is shown how far the script of the arrivals is, and why
    /// arrivals are refused is added to the reasons. Opening the database, or closing it after the last answer, may be
    /// lost too. The error is out of memory for the answers: then nothing arrived.
    fn answer<W: Write>(
        &mut self,
        alloc: Global,
        path: &str,
        script: &[u8],
        arrivals: &[Arrival],
        strict: bool,
        reasons: &mut Reasons,
        progress: &mut Progress<W>,
    ) -> Result<Answers, AllocError>
        ensures far { IfOk result
            (λ reported. IsFarEnough strict arrivals.now reported.answers.items reported.lost) }
        ensures goes_on { IfOk result
            (λ reported. InDatabase (known self.old) (known self.new) path.now
            (answered_with arrivals.now reported.answers.items) reported.lost) }
        ensures err { OnErr result
            (InDatabase (known self.old) (known self.new) path.now [] (Some Lost.Memory)) }
        ensures told { HaveLines script.now arrivals.now → IfOk result
            (λ reported. TellsOf script.now reported.answers.items reasons.old reasons.new) };

    /// What the office in the database at the path shows for the look; nothing where the database is absent. The error
    /// is why that was lost.
    fn look(&mut self, alloc: Global, path: &str, look: &Look) -> Result<Option<Vec<u8>>, Lost>
        ensures { IsLookedUp (known self.old) (known self.new) path.now look.now
            (result_map_both (option_map (λ text. text.items)) (λ lost. lost) result) };

    /// Makes the database at the path one of this version, with the history that it holds. It is shown which message is
    /// carried over. The error is why that was lost.
    fn migrate<W: Write>(
        &mut self,
        alloc: Global,
        path: &str,
        progress: &mut Progress<W>,
    ) -> Result<(), Lost>
        ensures { IsMigrated (known self.old) (known self.new) path.now result };

    /// Serves `count` connections of the port of this machine by the office in the database at the path, and shows on
    /// the machine's standard error when it listens, when the office fails, and where `explain` says so each answer
    /// other than 200 and why. The error is why it ended before that, or that the office has failed.
    fn serve(
        &mut self,
        alloc: Global,
        path: &str,
        port: u16,
        count: u32,
        explain: bool,
    ) -> Result<(), ServeEnd>
        ensures { IsServed (known self.old) (known self.new) path.now count result };
}
