//! The links to the parts of a page.
use markup::{Attribute, Markup, Piece, Tag};
use page_parts::put_part_link;

/// A link to a part of the page.
#[derive(Clone, Copy)]
pub(crate) struct PartLink<'a> {
    /// Whether the part is there.
    is_there: bool,
    /// The name of the part.
    name: &'a [u8],
    /// The words of the link.
    words: &'a [u8],
}

impl<'a> PartLink<'a> {
    /// A link of these words to the part of this name, if it is there.
    pub(crate) fn of(is_there: bool, name: &'a [u8], words: &'a [u8]) -> PartLink<'a> {
        PartLink {
            is_there,
            name,
            words,
        }
    }
}

/// Adds links to those of the parts that are there.
pub(crate) fn put_part_links(page: &mut Markup, links: &[PartLink<'_>]) {
    page.open(
        Tag::Nav,
        &[
            Attribute::Class(b"n"),
            Attribute::Label(&[Piece::Text(b"Parts")]),
        ],
    );
    let mut is_first = true;
    for link in links {
        if link.is_there {
            if !is_first {
                page.text(b" ");
            }
            put_part_link(page, link.name, link.words);
            is_first = false;
        }
    }
    page.close();
}
