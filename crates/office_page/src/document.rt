//! The document around the parts of a page.
use crate::style::STYLE;
use markup::{Attribute, Markup, Piece, Tag, Void};
use office_types::NetKind;
use page_messages::is_long;
use page_parts::Subject;

/// What a browser may load for a page: nothing but the style in it.
const POLICY: &[u8] =
    b"default-src 'none';style-src 'unsafe-inline';form-action 'self';base-uri 'none'";

/// What a page is of.
#[derive(Clone, Copy)]
pub(crate) enum Kind {
    /// A live network.
    Net(NetKind),
    /// The release of this number, of so many releases of a network.
    Release(u32, usize),
    /// A DBC file.
    File,
}

/// Adds the title of the page.
fn put_title(page: &mut Markup, kind: Kind, name: &[u8]) {
    match kind {
        Kind::Net(_) | Kind::File => {
            page.title(&[Piece::Text(name), Piece::Text(b": messages and numbers")]);
        }
        Kind::Release(number, _) => {
            page.title(&[
                Piece::Text(name),
                Piece::Text(b", release "),
                Piece::Number(number),
                Piece::Text(b" - canoffice"),
            ]);
        }
    }
}

/// Adds words for what the page is of.
fn put_kind(page: &mut Markup, kind: Kind) {
    match kind {
        Kind::Net(NetKind::Can) => page.text(b"a CAN network"),
        Kind::Net(NetKind::J1939) => page.text(b"a J1939 network"),
        Kind::Release(number, count) => {
            page.text(b"release ");
            page.number(u64::from(number));
            page.text(b" of ");
            page.number(count as u64);
        }
        Kind::File => page.text(b"a DBC file"),
    }
}

/// Adds a meta datum by its name.
fn put_named(page: &mut Markup, name: &[u8], content: &[u8]) {
    page.void(
        Void::Meta,
        &[Attribute::Name(name), Attribute::Content(content)],
    );
}

/// Adds the document's head: meta data, title, style.
fn put_document_head(page: &mut Markup, kind: Kind, name: &[u8]) {
    page.open(Tag::Head, &[]);
    page.void(Void::Meta, &[Attribute::Utf8]);
    page.void(Void::Meta, &[Attribute::Policy, Attribute::Content(POLICY)]);
    put_named(page, b"viewport", b"width=device-width,initial-scale=1");
    put_named(page, b"color-scheme", b"light dark");
    put_title(page, kind, name);
    page.style(STYLE);
    page.close();
}

/// Begins a page, up to the heading of its head. The head has still to be closed, and all around it too.
pub(crate) fn open_document(page: &mut Markup, kind: Kind, subject: &Subject<'_>) {
    page.doctype();
    page.open(Tag::Html, &[Attribute::English]);
    put_document_head(page, kind, subject.name);
    if is_long(subject.sheet) {
        page.open(Tag::Body, &[Attribute::Class(b"long")]);
    } else {
        page.open(Tag::Body, &[]);
    }
    page.open(Tag::Header, &[]);
    page.open(Tag::H1, &[]);
    page.text(subject.name);
    page.text(b" ");
    page.open(Tag::Small, &[]);
    put_kind(page, kind);
    page.close();
    page.close();
}
