//! The header fields of a request, by their names.
ghost use Rattle.std.specs.Prelude.{◌≡◌, ◌≤◌, All, length, map};
ghost use Rattle.httparse.specs.Spans.{IsHeaderWithin, header_bytes};
ghost use Rattle.desk_head.specs.Fields.{IsHeader, named, same_name};

use httparse::spans::HeaderSpan;

/// What a request has under the name of a header.
#[derive(Clone, Copy)]
pub enum Header<'b> {
    /// There is no header of this name.
    Absent,
    /// There is one, with this value. Spaces and tabs round it don't count.
    Once(&'b [u8]),
    /// There are two or more.
    Double,
}

/// Whether two names are one: the case of ASCII letters doesn't count.
fn is_same(a: &[u8], b: &[u8]) -> bool
    ensures { result ≡ same_name a.now b.now }
{
    a.eq_ignore_ascii_case(b)
}

/// What the headers have under a name. The headers are in the first `len` bytes of the buffer.
#[tactic(auto, unfolding(crate::specs::Fields::named))]
pub fn header_named<'b>(
    buf: &'b [u8],
    headers: &[HeaderSpan],
    len: usize,
    name: &[u8],
) -> Header<'b>
    requires fits { len ≤ length buf.now }
    requires within { All (IsHeaderWithin len) headers.now }
    ensures { IsHeader result (named name.now (map (header_bytes buf.now) headers.now)) }
{
    match headers {
        [] => Header::Absent,
        [h, rest @ ..] => {
            let later = header_named(buf, rest, len, name);
            if is_same(name, h.name.of(buf)) {
                match later {
                    Header::Absent => Header::Once(h.value.of(buf)),
                    Header::Once(_) => Header::Double,
                    Header::Double => Header::Double,
                }
            } else {
                later
            }
        }
    }
}
