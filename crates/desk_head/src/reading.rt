//! The head of the first request of a source.
ghost use Rattle.std.specs.Prelude.{◌≡◌, ◌-◌, ◌<◌, ◌^◌, [], IfOk, OnOk, IfSome, IsErrOf};
ghost use Rattle.std.specs.Io.KnownBytes.{Consumes};
ghost use Rattle.desk_types.specs.Reading.{ReadsAtMost};
ghost use Rattle.desk_head.specs.Head.{HasNoHead, IsHeadAt, IsUnfinished};
ghost use Rattle.desk_head.specs.Limits.{head_limit};

use crate::limits::{HEAD_LIMIT, HEADER_LIMIT};
use crate::parsing::{HeadState, parse_head};
use desk_types::{ReadFault, Source, take_more};
use httparse::spans::{HeaderSpan, RequestSpans};

/// Reads until the whole head is there, or it is known that there is none within the limits: then `None`. The bytes
/// that were read are added to `got`; they are never more than the greatest length of a head. `Read` if a call of the
/// source fails before that, and `Memory` if memory runs out.
pub fn read_head<R: Source>(
    source: &mut R,
    got: &mut Vec<u8>,
    headers: &mut [HeaderSpan; HEADER_LIMIT],
) -> Result<Option<RequestSpans>, ReadFault>
    requires count { R.failure_count source.old < 2 ^ 64 - 1 }
    requires empty { got.old.items ≡ [] }
    ensures reads { ReadsAtMost R.Source source.old source.new head_limit result }
    ensures moves { OnOk result (Consumes (R.left source.old) (R.left source.new) got.new.items) }
    ensures head { IfOk result (λ o. IfSome o (λ spans. IsHeadAt got.new.items headers.new spans)) }
    ensures none { result ≡ Ok None → IfSome (R.left source.old) HasNoHead }
    ensures failed { IsErrOf result ReadFault.Read
        → Consumes (R.left source.old) (R.left source.new) got.new.items
        × IsUnfinished got.new.items }
{
    loop {
        match parse_head(got, headers) {
            HeadState::Complete(spans) => return Ok(Some(spans)),
            HeadState::Impossible => return Ok(None),
            HeadState::Incomplete => {}
        }
        let room = HEAD_LIMIT - got.len();
        match take_more(source, got, room) {
            Err(e) => return Err(e),
            Ok(true) => {}
            Ok(false) => return Ok(None),
        }
    }
}
