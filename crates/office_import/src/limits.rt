//! Whether a network with a file's messages, nodes and value tables would pass a limit of a sheet.
ghost use Rattle.std.specs.Prelude.{◌≡◌, ◌+◌, nat_lt};
ghost use Rattle.office_rules.specs.Importing.{is_too_large};
ghost use Rattle.office_import.specs.News.{frame_news};

use crate::changes::new_count;
use crate::index::LiveIndex;
use crate::news::FrameNews;
use dbc_sheet::Sheet;
use dbc_words::{MESSAGE_LIMIT, NODE_LIMIT, TABLE_LIMIT};

/// Whether so many more are more than the limit.
fn passes(limit: usize, have: usize, more: usize) -> bool
    ensures { result ≡ nat_lt limit (have + more) }
{
    more > limit || have > limit - more
}

/// Whether the network would pass a limit with what is new in the file.
pub(crate) fn is_too_large(index: &LiveIndex, file: &Sheet, news: &FrameNews) -> bool
    requires { news.now ≡ frame_news index.now.head.frame file.now }
    ensures { result ≡ is_too_large index.now file.now }
{
    let net = index.net();
    let frame = &net.head.frame;
    let messages = new_count(index, file.messages());
    passes(MESSAGE_LIMIT, net.live.as_slice().len(), messages)
        || passes(NODE_LIMIT, frame.nodes().len(), news.nodes.as_slice().len())
        || passes(
            TABLE_LIMIT,
            frame.tables().len(),
            news.tables.as_slice().len(),
        )
}
