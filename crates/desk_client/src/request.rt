//! The request that is sent.
ghost use Rattle.std.specs.Prelude.{◌≡◌, [], IfOk, IsTrue};
ghost use Rattle.std.specs.Char.{is_ascii_graphic};
ghost use Rattle.std.specs.List.{list_all};
ghost use Rattle.desk_head.specs.Head.{HasHead};
ghost use Rattle.desk_client.specs.Request.{get_head, head_end, is_target, request_bytes};

use crate::limits::TARGET_LIMIT;
use office_types::LookForm;
use std::alloc::{AllocError, Global};

fn all_visible(bytes: &[u8]) -> bool
    ensures { result ≡ list_all is_ascii_graphic bytes.now }
{
    bytes.iter().all(|byte| byte.is_ascii_graphic())
}

/// Whether the bytes can be asked for: visible ASCII, not empty, and no longer than [`TARGET_LIMIT`].
pub fn is_target(bytes: &[u8]) -> bool
    ensures { result ≡ is_target bytes.now }
{
    !bytes.is_empty() && bytes.len() <= TARGET_LIMIT && all_visible(bytes)
}

/// What follows the target: the request line's end, the headers and the empty line after them.
fn head_end(form: LookForm) -> &'static [u8]
    ensures { result.now ≡ head_end form }
{
    match form {
        LookForm::Lines => b" HTTP/1.1\r\nHost: 127.0.0.1\r\nConnection: close\r\n\r\n",
        LookForm::Json => {
            b" HTTP/1.1\r\nHost: 127.0.0.1\r\nAccept: application/json\r\nConnection: close\r\n\r\n"
        }
    }
}

/// A request line, the headers and the empty line after them.
#[tactic(auto, unfolding(crate::specs::Request::request_bytes))]
fn head_of(alloc: Global, target: &[u8], form: LookForm) -> Result<Vec<u8>, AllocError>
    ensures { IfOk result (λ text. text.items ≡ request_bytes target.now form) }
{
    let mut text = Vec::from_slice(alloc, b"GET ")?;
    text.extend_from_slice(target)?;
    text.extend_from_slice(head_end(form))?;
    Ok(text)
}

/// The bytes of a GET of the target in the form, over a connection that closes after its response (RFC 9112, on
/// requests). They are one head of a request as a desk reads it, with this method and target and nothing after it.
#[tactic(auto, using(crate::proofs::Requests::asks))]
pub fn request_for(alloc: Global, target: &[u8], form: LookForm) -> Result<Vec<u8>, AllocError>
    requires { IsTrue (is_target target.now) }
    ensures bytes { IfOk result (λ text. text.items ≡ request_bytes target.now form) }
    ensures head { IfOk result (λ text. HasHead text.items (get_head target.now form) []) }
{
    head_of(alloc, target, form)
}
