//! Reading all that comes back.
ghost use Rattle.std.specs.Prelude.{◌≡◌, ◌+◌, ◌-◌, ◌<◌, ◌^◌, [], OnOk};
ghost use Rattle.desk_types.specs.Reading.{ReadsAtMost};
ghost use Rattle.desk_client.specs.Asking.{GivesAll};
ghost use Rattle.desk_client.specs.Limits.{response_limit};

use crate::limits::RESPONSE_LIMIT;
use desk_types::{ReadFault, Source, take_more};

/// Reads a source to its end, or until one byte more is there than a response may have. `Read` if a call of the source
/// fails before that, `Memory` if memory runs out.
pub(crate) fn read_all<R: Source>(source: &mut R, got: &mut Vec<u8>) -> Result<(), ReadFault>
    requires count { R.failure_count source.old < 2 ^ 64 - 1 }
    requires empty { got.old.items ≡ [] }
    ensures reads { ReadsAtMost R.Source source.old source.new (response_limit + 1) result }
    ensures all { OnOk result (GivesAll (R.left source.old) (R.left source.new) got.new.items) }
{
    while got.len() <= RESPONSE_LIMIT {
        let room = RESPONSE_LIMIT + 1 - got.len();
        match take_more(source, got, room) {
            Err(e) => return Err(e),
            Ok(true) => {}
            Ok(false) => return Ok(()),
        }
    }
    Ok(())
}
