//! One request, and what comes back.
ghost use Rattle.std.specs.Prelude.{◌≡◌, ◌⊎◌, ◌+◌, ◌-◌, ◌<◌, ◌^◌, IfOk, IsErrOf, IsTrue};
ghost use Rattle.desk_types.specs.Moved.{GivesAtMost};
ghost use Rattle.desk_client.specs.Asking.{Asks, CountsReads, CountsWrites, Receives};
ghost use Rattle.desk_client.specs.Limits.{response_limit};
ghost use Rattle.desk_client.specs.Received.{seen};
ghost use Rattle.desk_client.specs.Request.{is_target, request_bytes};

use crate::reading::read_all;
use crate::received::{Received, response_in};
use crate::request::request_for;
use desk_types::{DeskFault, Failed, Sink, Source, put_all};
use office_types::LookForm;
use std::alloc::Global;

/// Writes the bytes of a request to the sink, reads the source to its end, and says what came. Whatever the source has,
/// no more is read of it than the greatest response and one byte.
///
/// `Write` if the sink failed: then nothing is read. `Read` if the source failed before its end: what came until then
/// is lost. `Memory` if memory ran out for what came.
pub fn exchange<W: Sink, R: Source>(
    alloc: Global,
    sink: &mut W,
    source: &mut R,
    request: &[u8],
) -> Result<Received, DeskFault>
    requires writes { W.failure_count sink.old < 2 ^ 64 - 1 }
    requires reads { R.failure_count source.old < 2 ^ 64 - 1 }
    ensures asks { Asks result (W.reported sink.old) (W.reported sink.new) request.now }
    ensures receives { IfOk result (λ received. Receives (R.left source.old) (seen received)) }
    ensures most { GivesAtMost (R.left source.old) (R.left source.new) (response_limit + 1) }
    ensures unread { IsErrOf result DeskFault.Write → source.new ≡ source.old }
    ensures failed_reads { CountsReads result (R.failure_count source.old)
        (R.failure_count source.new) }
    ensures failed_writes { CountsWrites result (W.failure_count sink.old)
        (W.failure_count sink.new) }
{
    match put_all(sink, request) {
        Ok(()) => {}
        Err(Failed) => return Err(DeskFault::Write),
    }
    let mut text = Vec::new(alloc);
    read_all(source, &mut text)?;
    Ok(response_in(text))
}

/// Writes a GET of the target in the form to the sink, reads the source to its end, and says what came. Whatever the
/// source has, no more is read of it than the greatest response and one byte.
///
/// `Write` if the sink failed: then nothing is read. `Read` if the source failed before its end: what came until then
/// is lost. `Memory` if memory ran out, for the request, of which nothing is written then, or for what came.
pub fn asked<W: Sink, R: Source>(
    alloc: Global,
    sink: &mut W,
    source: &mut R,
    target: &[u8],
    form: LookForm,
) -> Result<Received, DeskFault>
    requires target { IsTrue (is_target target.now) }
    requires writes { W.failure_count sink.old < 2 ^ 64 - 1 }
    requires reads { R.failure_count source.old < 2 ^ 64 - 1 }
    ensures asks { Asks result (W.reported sink.old) (W.reported sink.new)
        (request_bytes target.now form)
        ⊎ (IsErrOf result DeskFault.Memory × (sink.new ≡ sink.old)) }
    ensures receives { IfOk result (λ received. Receives (R.left source.old) (seen received)) }
    ensures most { GivesAtMost (R.left source.old) (R.left source.new) (response_limit + 1) }
    ensures unread { IsErrOf result DeskFault.Write → source.new ≡ source.old }
    ensures failed_reads { CountsReads result (R.failure_count source.old)
        (R.failure_count source.new) }
    ensures failed_writes { CountsWrites result (W.failure_count sink.old)
        (W.failure_count sink.new) }
{
    let Ok(request) = request_for(alloc, target, form) else {
        return Err(DeskFault::Memory);
    };
    exchange(alloc, sink, source, &request)
}
