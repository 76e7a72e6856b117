//! The content of a statement, and how it ends.
ghost use Rattle.std.specs.Prelude.{◌≡◌, Err, IsOkAnd, MatchResult};

use crate::names::ListEnd;
use crate::statement::Content;
use dbc_lex::ReadFault;

/// The content of a statement, and how it ends.
#[derive(Drop)]
pub(crate) struct EndedContent<'a> {
    /// Its content.
    pub content: Content<'a>,
    /// How it ends.
    pub ended: ListEnd,
}

/// The line with this content, which doesn't end with a list.
pub(crate) fn content_without_list<'a>(
    read: Result<Content<'a>, ReadFault>,
) -> Result<EndedContent<'a>, ReadFault>
    ensures { MatchResult read.entry (λ content. IsOkAnd result (λ line. line.content ≡ content))
        (λ fault. result ≡ Err fault) }
{
    match read {
        Ok(content) => Ok(EndedContent {
            content,
            ended: ListEnd::Other,
        }),
        Err(fault) => Err(fault),
    }
}
