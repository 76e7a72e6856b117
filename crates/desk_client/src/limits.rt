//! The limits of what is sent and received.

/// The greatest length of a target, in bytes: with the rest of the request, a desk takes it as a head. HTTP recommends
/// that any recipient takes as much (RFC 9110, on URIs).
pub const TARGET_LIMIT: usize = 8_000;

/// The greatest length of a response that is received, in bytes: 1 GiB. So much are all 16,384 messages of a network
/// with 64 KiB of DBC text each. It stops a peer that sends forever.
pub const RESPONSE_LIMIT: usize = 1_073_741_824;
