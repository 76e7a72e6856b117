//! The limits of requests.

/// The greatest length of a head, in bytes. Empty lines before it count.
pub const HEAD_LIMIT: usize = 8_192;

/// The greatest number of headers.
pub const HEADER_LIMIT: usize = 32;

/// The greatest length of a body, in bytes.
pub const BODY_LIMIT: u32 = 4_194_304;
