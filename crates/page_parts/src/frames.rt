//! What parts of a page begin with.
ghost use Rattle.markup.specs.Writing.{Becomes, adding, beginning};
ghost use Rattle.markup.specs.declared.tag.Tag.TheVariants as tag;
ghost use Rattle.std.specs.Prelude.{map, option_map};
ghost use Rattle.page_parts.specs.Frames.{beside, heads_html, with_fold, with_label, with_part, with_table};
ghost use Rattle.page_parts.specs.Words.{part_link, to_part};

use markup::{Attribute, Markup, Piece, Tag};

/// Adds what stands beside a heading, if there are words for it.
fn put_beside(page: &mut Markup, small: Option<&[u8]>)
    ensures { Becomes page.new
        (adding (beside (option_map (λ words. words.now) small.entry)) page.old) }
{
    if let Some(small) = small {
        page.text(b" ");
        page.element(Tag::Small, &[], small);
    }
}

/// Begins a part of the page of this name, with its heading and, where there are words for it, what stands beside it.
/// One `close` ends it.
pub fn open_part(page: &mut Markup, name: &[u8], heading: &[u8], small: Option<&[u8]>)
    ensures { Becomes page.new
        (with_part name.now heading.now (option_map (λ words. words.now) small.entry) page.old) }
{
    page.open(Tag::Section, &[Attribute::Id(&[Piece::Text(name)])]);
    page.open(Tag::H2, &[]);
    page.text(heading);
    put_beside(page, small);
    page.close();
}

/// Begins a link to the part of this name. One `close` ends it.
pub fn open_part_link(page: &mut Markup, name: &[u8])
    ensures { Becomes page.new (beginning tag.Link (to_part name.now) page.old) }
{
    page.open(Tag::Link, &[Attribute::ToPart(&[Piece::Text(name)])]);
}

/// Adds a link to the part of this name.
pub fn put_part_link(page: &mut Markup, name: &[u8], words: &[u8])
    ensures { Becomes page.new (adding (part_link name.now words.now) page.old) }
{
    open_part_link(page, name);
    page.text(words);
    page.close();
}

/// Begins a region that scrolls by itself where it is too wide. One `close` ends it.
pub fn open_wide(page: &mut Markup, label: &[Piece<'_>])
    ensures { Becomes page.new (with_label label.now page.old) }
{
    page.open(
        Tag::Division,
        &[
            Attribute::Class(b"wide"),
            Attribute::Scrolls,
            Attribute::Label(label),
        ],
    );
}

/// Begins a fold, up to its summary. Two calls of `close` end it: the first ends the summary.
pub fn open_fold(page: &mut Markup, is_open: bool)
    ensures { Becomes page.new (with_fold is_open page.old) }
{
    if is_open {
        page.open(Tag::Details, &[Attribute::Open]);
    } else {
        page.open(Tag::Details, &[]);
    }
    page.open(Tag::Summary, &[]);
}

/// Adds the heads of a table.
fn put_heads(page: &mut Markup, heads: &[&[u8]])
    ensures { Becomes page.new
        (adding (heads_html (map (λ head. head.now) heads.now)) page.old) }
{
    for head in heads {
        page.element(Tag::HeadCell, &[], head);
    }
}

/// Begins a table of this class, with these heads, up to its rows. Two calls of `close` end it.
pub fn open_table(page: &mut Markup, class: &[u8], heads: &[&[u8]])
    ensures { Becomes page.new (with_table class.now (map (λ head. head.now) heads.now) page.old) }
{
    page.open(Tag::Table, &[Attribute::Class(class)]);
    page.open(Tag::TableHead, &[]);
    page.open(Tag::Row, &[]);
    put_heads(page, heads);
    page.close();
    page.close();
    page.open(Tag::TableBody, &[]);
}
