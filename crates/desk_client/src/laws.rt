//! A law of what comes back: the contract of a function that does nothing.
ghost use Rattle.desk_client.specs.Replies.{RepliesComeBack};

/// Each response of a desk is received whole, with its status and its body, unless it is longer than
/// [`RESPONSE_LIMIT`](crate::RESPONSE_LIMIT).
pub fn replies_come_back()
    ensures { RepliesComeBack }
{}
