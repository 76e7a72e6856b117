//! Bytes from a source, and to a sink.
ghost use Rattle.std.specs.Prelude.{◌≡◌, ◌+◌, ◌<◌, ◌≤◌, ◌^◌, ◌-◌, true, false, OnOk, OnErr, IsErrOf, vec_len};
ghost use Rattle.std.specs.Io.KnownBytes.{Keeps, Appends, IsAtEnd};
ghost use Rattle.desk_types.specs.Counts.{CountsFailure};
ghost use Rattle.desk_types.specs.Moved.{AppendsFront, Moves};
ghost use Rattle.desk_types.specs.Reading.{ReadsAtMost};

use crate::device::{Failed, Sink, Source};
use crate::fault::ReadFault;

/// Writes the whole text, by as many calls as it takes. The error is that one fails: then a beginning of the text was
/// written.
pub fn put_all<W: Sink>(sink: &mut W, text: &[u8]) -> Result<(), Failed>
    requires { W.failure_count sink.old < 2 ^ 64 - 1 }
    ensures ok { OnOk result (Appends (W.reported sink.old) (W.reported sink.new) text.now) }
    ensures front { OnErr result
        (AppendsFront (W.reported sink.old) (W.reported sink.new) text.now) }
    ensures count { CountsFailure result (W.failure_count sink.old) (W.failure_count sink.new) }
{
    let mut at = 0;
    while at < text.len() {
        match sink.put(&text[at..]) {
            Ok(n) => at += n,
            Err(Failed) => return Err(Failed),
        }
    }
    Ok(())
}

/// Reads up to `room` more bytes by one call, and no more even where it fails, adds them to what was got, and says
/// whether any came: if not, the source is at its end. `Read` if the call fails, `Memory` if there is no memory for the
/// bytes.
pub fn take_more<R: Source>(
    source: &mut R,
    got: &mut Vec<u8>,
    room: usize,
) -> Result<bool, ReadFault>
    requires count { R.failure_count source.old < 2 ^ 64 - 1 }
    requires some { 0 < room }
    ensures reads { ReadsAtMost R.Source source.old source.new room result }
    ensures moves { OnOk result
        (Moves (R.left source.old) (R.left source.new) got.old.items got.new.items) }
    ensures room { OnOk result (vec_len got.new ≤ vec_len got.old + room) }
    ensures more { result ≡ Ok true → vec_len got.old < vec_len got.new }
    ensures end { result ≡ Ok false → IsAtEnd (R.left source.new)
        × (got.new.items ≡ got.old.items) }
    ensures failed { IsErrOf result ReadFault.Read
        → Keeps (R.left source.old) (R.left source.new) × (got.new.items ≡ got.old.items) }
{
    let mut buf = [0u8; 256];
    let most = if room < 256 { room } else { 256 };
    match source.take(&mut buf[..most]) {
        Err(Failed) => Err(ReadFault::Read),
        Ok(n) => {
            if got.extend_from_slice(&buf[..n]).is_err() {
                return Err(ReadFault::Memory);
            }
            Ok(n > 0)
        }
    }
}
