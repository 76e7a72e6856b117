//! HTML, appended to a text.
ghost use Rattle.std.specs.Prelude.{◌≡◌, ◌++◌, OnOk, decimal, reverse};
ghost use Rattle.std.specs.List.{flat_map, list_all};
ghost use Rattle.html.specs.Text.{escaped};
ghost use Rattle.markup.specs.Html.{attribute_html, attributes_html, end_tag, is_style, piece_html, start_tag};
ghost use Rattle.markup.specs.Html.{style_html, style_part, tag_html, title_html, valued, void_html, words};

use crate::attribute::{Attribute, Piece};
use crate::tag::{Tag, Void};
use html::{push_all, push_text};
use itoa::Buffer;
use std::alloc::AllocError;

/// Appends the decimal of a number.
pub(crate) fn push_decimal(text: &mut Vec<u8>, number: u64) -> Result<(), AllocError>
    ensures { OnOk result (text.new.items ≡ text.old.items ++ decimal number) }
{
    text.extend_from_slice(Buffer::new().format(number).as_bytes())
}

/// Appends a piece of a text.
fn push_piece(text: &mut Vec<u8>, piece: &Piece<'_>) -> Result<(), AllocError>
    ensures { OnOk result (text.new.items ≡ text.old.items ++ piece_html piece.now) }
{
    match piece {
        Piece::Text(bytes) => push_text(text, bytes),
        Piece::Number(number) => push_decimal(text, u64::from(*number)),
    }
}

/// Appends the pieces of a text.
pub(crate) fn push_words(text: &mut Vec<u8>, pieces: &[Piece<'_>]) -> Result<(), AllocError>
    ensures { OnOk result (text.new.items ≡ text.old.items ++ words pieces.now) }
{
    for piece in pieces {
        push_piece(text, piece)?;
    }
    Ok(())
}

/// Appends an attribute: what is before its value, and the value.
fn push_words_valued(
    text: &mut Vec<u8>,
    before: &[u8],
    pieces: &[Piece<'_>],
) -> Result<(), AllocError>
    ensures { OnOk result (text.new.items
        ≡ text.old.items ++ valued before.now (words pieces.now)) }
{
    text.extend_from_slice(before)?;
    push_words(text, pieces)?;
    text.extend_from_slice(b"\"")
}

/// Appends an attribute whose value is a text.
fn push_text_valued(text: &mut Vec<u8>, before: &[u8], value: &[u8]) -> Result<(), AllocError>
    ensures { OnOk result (text.new.items
        ≡ text.old.items ++ valued before.now (escaped value.now)) }
{
    text.extend_from_slice(before)?;
    push_text(text, value)?;
    text.extend_from_slice(b"\"")
}

/// Appends an attribute whose value is a number.
fn push_number_valued(text: &mut Vec<u8>, before: &[u8], number: usize) -> Result<(), AllocError>
    ensures { OnOk result (text.new.items ≡ text.old.items ++ valued before.now (decimal number)) }
{
    text.extend_from_slice(before)?;
    push_decimal(text, number as u64)?;
    text.extend_from_slice(b"\"")
}

/// Appends an attribute.
fn push_attribute(text: &mut Vec<u8>, attribute: &Attribute<'_>) -> Result<(), AllocError>
    ensures { OnOk result (text.new.items ≡ text.old.items ++ attribute_html attribute.now) }
{
    match attribute {
        Attribute::Class(classes) => push_text_valued(text, b" class=\"", classes),
        Attribute::Id(pieces) => push_words_valued(text, b" id=\"", pieces),
        Attribute::ToPart(pieces) => push_words_valued(text, b" href=\"#", pieces),
        Attribute::Title(pieces) => push_words_valued(text, b" title=\"", pieces),
        Attribute::Label(pieces) => push_words_valued(text, b" aria-label=\"", pieces),
        Attribute::Columns(1) => Ok(()),
        Attribute::Columns(count) => push_number_valued(text, b" colspan=\"", *count),
        Attribute::Flex(share) => push_number_valued(text, b" style=\"flex:", *share),
        Attribute::Scrolls => text.extend_from_slice(b" role=\"region\" tabindex=\"0\""),
        Attribute::Open => text.extend_from_slice(b" open=\"\""),
        Attribute::English => text.extend_from_slice(b" lang=\"en\""),
        Attribute::Utf8 => text.extend_from_slice(b" charset=\"utf-8\""),
        Attribute::Policy => text.extend_from_slice(b" http-equiv=\"Content-Security-Policy\""),
        Attribute::Name(name) => push_text_valued(text, b" name=\"", name),
        Attribute::Content(value) => push_text_valued(text, b" content=\"", value),
    }
}

/// Appends the attributes.
fn push_attributes(text: &mut Vec<u8>, attributes: &[Attribute<'_>]) -> Result<(), AllocError>
    ensures { OnOk result (text.new.items ≡ text.old.items ++ attributes_html attributes.now) }
{
    for attribute in attributes {
        push_attribute(text, attribute)?;
    }
    Ok(())
}

/// Appends a tag that ends so.
fn push_tag(
    text: &mut Vec<u8>,
    name: &[u8],
    attributes: &[Attribute<'_>],
    end: &[u8],
) -> Result<(), AllocError>
    ensures { OnOk result (text.new.items
        ≡ text.old.items ++ tag_html name.now (attributes_html attributes.now) end.now) }
{
    push_all(text, &[b"<", name])?;
    push_attributes(text, attributes)?;
    text.extend_from_slice(end)
}

/// Appends the start of an element.
#[tactic(auto, unfolding(crate::specs::Html::start_tag))]
pub(crate) fn push_start(
    text: &mut Vec<u8>,
    tag: Tag,
    attributes: &[Attribute<'_>],
) -> Result<(), AllocError>
    ensures { OnOk result (text.new.items
        ≡ text.old.items ++ start_tag tag (attributes_html attributes.now)) }
{
    push_tag(text, tag.name(), attributes, b">")
}

/// Appends an element without an end.
pub(crate) fn push_void(
    text: &mut Vec<u8>,
    void: Void,
    attributes: &[Attribute<'_>],
) -> Result<(), AllocError>
    ensures { OnOk result (text.new.items
        ≡ text.old.items ++ void_html void (attributes_html attributes.now)) }
{
    let end: &[u8] = if void.ends_line() { b"/>\n" } else { b"/>" };
    push_tag(text, void.name(), attributes, end)
}

/// Appends the end of an element.
#[tactic(auto, unfolding(crate::specs::Html::end_tag))]
pub(crate) fn push_end(text: &mut Vec<u8>, tag: Tag) -> Result<(), AllocError>
    ensures { OnOk result (text.new.items ≡ text.old.items ++ end_tag tag) }
{
    let end: &[u8] = if tag.ends_line() { b">\n" } else { b">" };
    push_all(text, &[b"</", tag.name(), end])
}

/// Appends the ends of the elements, of which the last one is the innermost.
pub(crate) fn push_ends(text: &mut Vec<u8>, open: Vec<Tag>) -> Result<(), AllocError>
    ensures { OnOk result (text.new.items
        ≡ text.old.items ++ flat_map end_tag (reverse open.items)) }
{
    let mut open = open;
    while let Some(tag) = open.pop() {
        push_end(text, tag)?;
    }
    Ok(())
}

/// Appends a title.
pub(crate) fn push_title(text: &mut Vec<u8>, pieces: &[Piece<'_>]) -> Result<(), AllocError>
    ensures { OnOk result (text.new.items ≡ text.old.items ++ title_html pieces.now) }
{
    text.extend_from_slice(b"<title>")?;
    push_words(text, pieces)?;
    text.extend_from_slice(b"</title>\n")
}

/// Whether the byte may be in a style.
fn is_style(byte: u8) -> bool
    ensures { result ≡ is_style byte }
{
    let is_ascii = (32 <= byte && byte <= 126) || (byte == 9 || byte == 10);
    is_ascii && byte != b'<'
}

fn are_style(bytes: &[u8]) -> bool
    ensures { result ≡ list_all is_style bytes.now }
{
    bytes.iter().all(|byte| is_style(*byte))
}

/// Appends a part of a style, if it has no `<` and is ASCII.
fn push_style_part(text: &mut Vec<u8>, part: &[u8]) -> Result<(), AllocError>
    ensures { OnOk result (text.new.items ≡ text.old.items ++ style_part part.now) }
{
    if are_style(part) {
        text.extend_from_slice(part)?;
    }
    Ok(())
}

/// Appends the parts of a style.
fn push_style_parts(text: &mut Vec<u8>, parts: &[&[u8]]) -> Result<(), AllocError>
    ensures { OnOk result (text.new.items
        ≡ text.old.items ++ flat_map (λ part. style_part part.now) parts.now) }
{
    for part in parts {
        push_style_part(text, part)?;
    }
    Ok(())
}

/// Appends a style of these parts. A part that isn't ASCII, or has a `<`, is left out.
pub(crate) fn push_style(text: &mut Vec<u8>, parts: &[&[u8]]) -> Result<(), AllocError>
    ensures { OnOk result (text.new.items
        ≡ text.old.items ++ style_html (flat_map (λ part. style_part part.now) parts.now)) }
{
    text.extend_from_slice(b"<style>")?;
    push_style_parts(text, parts)?;
    text.extend_from_slice(b"</style>\n")
}
