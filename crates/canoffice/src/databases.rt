//! The databases of the machine that the program runs on.
ghost use Rattle.std.specs.Prelude.{◌≡◌, Err, IsFalse, IsOk, IsTrue};

use crate::files::{Work, on_file};
use canoffice_cli::{
    Answers, Arrival, Databases, Look, Lost, Progress, Reasons, ServeEnd, StoredOffice, answer_on,
    answers_when_closed, look_on, migrate_on, nothing_answered,
};
use desk::{Routes, ServeFault, listen, serve};
use desk_advice::NoteLines;
use sqlite::{Alter, Connection};
use std::alloc::{AllocError, Global};
use std::io::{ErrorKind, Write};
use std::rt::Files;

/// The machine's database files, as SQLite has them. Nothing is known of them, since no contract speaks of the
/// machine's disk.
#[derive(Clone, Copy)]
pub(crate) struct HostDatabases<'r> {
    /// The runtime.
    pub(crate) rt: &'r HostRuntime,
}

/// Whether there is no file at the path, as far as the machine says, or an empty one. Opening it would make a database.
fn is_absent(rt: &HostRuntime, path: &str) -> bool {
    match rt.metadata(path) {
        Ok(found) => found.is_file() && found.len() == 0,
        Err(error) => error.kind() == ErrorKind::NotFound,
    }
}

/// How connections are served.
#[derive(Clone, Copy)]
struct Serving {
    port: u16,
    count: u32,
    explain: bool,
}

/// Serves connections of the port by the office. Standard error says when it listens, and when the office fails; or
/// that too few file descriptors are left for a connection: then none is accepted. Where it is requested, standard error
/// also says of each answer other than 200 why.
fn serve_at<S: Alter>(
    rt: &HostRuntime,
    routes: &Routes,
    office: &mut StoredOffice<S>,
    serving: Serving,
) -> Result<(), ServeFault> {
    let mut listener = listen(rt, serving.port)?;
    let address = listener.address();
    let mut errors = rt.stderr();
    if !listener.has_descriptors() {
        let _reported = writeln!(
            errors,
            "too few file descriptors: a connection takes two (ulimit -n)"
        );
        return Err(ServeFault::Accept);
    }
    let _reported = writeln!(errors, "listening on {address}");
    let mut notes = NoteLines {
        routes,
        to: if serving.explain {
            Some(rt.stderr())
        } else {
            None
        },
    };
    serve(
        rt.alloc(),
        routes,
        office,
        &mut listener,
        &mut errors,
        &mut notes,
        serving.count,
    )
}

/// How serving ended, as the program says it: it is lost also where all connections were served, if the office has
/// failed.
fn end_of(served: Result<(), ServeFault>, failed: bool) -> Result<(), ServeEnd>
    ensures listen { served ≡ Err ServeFault.Listen → result ≡ Err ServeEnd.CannotListen }
    ensures accept { served ≡ Err ServeFault.Accept → result ≡ Err ServeEnd.CannotAccept }
    ensures lost { IsOk served → IsTrue failed → result ≡ Err (ServeEnd.IsLost Lost.Store) }
    ensures done { IsOk served → IsFalse failed → IsOk result }
{
    match served {
        Ok(()) if failed => Err(ServeEnd::IsLost(Lost::Store)),
        Ok(()) => Ok(()),
        Err(ServeFault::Listen) => Err(ServeEnd::CannotListen),
        Err(ServeFault::Accept) => Err(ServeEnd::CannotAccept),
    }
}

/// Answers arrivals.
struct Answering<'a, W: Write> {
    reasons: &'a mut Reasons,
    alloc: Global,
    script: &'a [u8],
    arrivals: &'a [Arrival],
    strict: bool,
    progress: &'a mut Progress<W>,
}

impl<W: Write> Drop for Answering<'_, W> {
    fn drop(self)
        ensures { self.exit.0.now ≡ self.entry.reasons.now }
    {
        let Answering {
            reasons: _reasons,
            alloc: _alloc,
            script: _script,
            arrivals: _arrivals,
            strict: _strict,
            progress: _progress,
        } = self;
    }
}

impl<W: Write> Work for Answering<'_, W> {
    ghost use Rattle.std.specs.Prelude.{◌≡◌, IfOk};
    ghost use Rattle.canoffice_cli.specs.Answered.{IsFarEnough};
    ghost use Rattle.canoffice_cli.specs.Numbers.{HaveLines};
    ghost use Rattle.canoffice_cli.specs.Reasons.{TellsOf};

    type Done = Result<Answers, AllocError>;

    ghost promised = { λ before after done.
        (after.reasons.ghost_name ≡ before.reasons.ghost_name)
        × IfOk done (λ reported. IsFarEnough before.strict before.arrivals.now
        reported.answers.items reported.lost)
        × (HaveLines before.script.now before.arrivals.now → IfOk done (λ reported.
        TellsOf before.script.now reported.answers.items before.reasons.now after.reasons.now)) };

    fn run<S: Alter + Drop>(&mut self, conn: Connection<S>) -> (Self::Done, Connection<S>) {
        answer_on(
            self.alloc,
            conn,
            self.script,
            self.arrivals,
            self.strict,
            self.reasons,
            self.progress,
        )
    }
}

/// Looks.
#[derive(Clone, Copy)]
struct Looking<'a> {
    alloc: Global,
    look: &'a Look,
}

impl Work for Looking<'_> {
    ghost use Rattle.std.specs.Prelude.{⊤};

    type Done = Result<Option<Vec<u8>>, Lost>;

    ghost promised = { λ before after done. ⊤ };

    fn run<S: Alter + Drop>(&mut self, conn: Connection<S>) -> (Self::Done, Connection<S>) {
        look_on(self.alloc, conn, self.look)
    }
}

/// Carries tables over.
#[derive(Drop)]
struct Migrating<'a, W: Write> {
    alloc: Global,
    progress: &'a mut Progress<W>,
}

impl<W: Write> Work for Migrating<'_, W> {
    ghost use Rattle.std.specs.Prelude.{⊤};

    type Done = Result<(), Lost>;

    ghost promised = { λ before after done. ⊤ };

    fn run<S: Alter + Drop>(&mut self, conn: Connection<S>) -> (Self::Done, Connection<S>) {
        migrate_on(self.alloc, conn, self.progress)
    }
}

/// Serves connections of the port.
#[derive(Clone, Copy)]
struct OnPort<'r> {
    rt: &'r HostRuntime,
    serving: Serving,
}

impl Work for OnPort<'_> {
    ghost use Rattle.std.specs.Prelude.{⊤};

    type Done = Result<(), ServeEnd>;

    ghost promised = { λ before after done. ⊤ };

    fn run<S: Alter + Drop>(&mut self, conn: Connection<S>) -> (Self::Done, Connection<S>) {
        let Ok(routes) = Routes::new(self.rt.alloc()) else {
            return (Err(ServeEnd::IsLost(Lost::Memory)), conn);
        };
        match StoredOffice::open(conn) {
            Ok(mut office) => {
                let served = serve_at(self.rt, &routes, &mut office, self.serving);
                let end = end_of(served, office.is_failed());
                (end, office.close())
            }
            Err((lost, conn)) => (Err(ServeEnd::IsLost(lost)), conn),
        }
    }
}

impl Databases for HostDatabases<'_> {
    ghost use Rattle.canoffice_cli.specs.Databases.{nothing_known};

    ghost known = { λ _. nothing_known };

    fn answer<W: Write>(
        &mut self,
        alloc: Global,
        path: &str,
        script: &[u8],
        arrivals: &[Arrival],
        strict: bool,
        reasons: &mut Reasons,
        progress: &mut Progress<W>,
    ) -> Result<Answers, AllocError> {
        let mut work = Answering {
            alloc,
            script,
            arrivals,
            strict,
            reasons,
            progress,
        };
        match on_file(self.rt, path, &mut work) {
            Ok((reported, closed)) => Ok(answers_when_closed(reported?, closed)),
            Err(lost) => Ok(nothing_answered(alloc, lost)),
        }
    }

    fn look(&mut self, alloc: Global, path: &str, look: &Look) -> Result<Option<Vec<u8>>, Lost> {
        if is_absent(self.rt, path) {
            return Ok(None);
        }
        let (shown, closed) = on_file(self.rt, path, &mut Looking { alloc, look })?;
        let text = shown?;
        closed?;
        Ok(text)
    }

    fn migrate<W: Write>(
        &mut self,
        alloc: Global,
        path: &str,
        progress: &mut Progress<W>,
    ) -> Result<(), Lost> {
        let (done, closed) = on_file(self.rt, path, &mut Migrating { alloc, progress })?;
        done?;
        closed
    }

    fn serve(
        &mut self,
        _alloc: Global,
        path: &str,
        port: u16,
        count: u32,
        explain: bool,
    ) -> Result<(), ServeEnd> {
        let serving = Serving {
            port,
            count,
            explain,
        };
        let mut work = OnPort {
            rt: self.rt,
            serving,
        };
        let (served, closed) = match on_file(self.rt, path, &mut work) {
            Ok(ended) => ended,
            Err(lost) => return Err(ServeEnd::IsLost(lost)),
        };
        served?;
        match closed {
            Ok(()) => Ok(()),
            Err(lost) => Err(ServeEnd::IsLost(lost)),
        }
    }
}
