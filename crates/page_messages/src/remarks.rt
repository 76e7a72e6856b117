//! What a check of the sheet found.
ghost use Rattle.std.specs.Prelude.{◌≡◌, map, take};
ghost use Rattle.std.specs.List.{flat_map};
ghost use Rattle.base.specs.Split.{split_once};
ghost use Rattle.markup.specs.Writing.{Becomes, adding};
ghost use Rattle.page_messages.specs.Remarks.{clash_line, later_names, others_html, passed_html, passed_names};
ghost use Rattle.page_messages.specs.Remarks.{remark_html, remark_line, remarks_line, remarks_link, unclear_html};
ghost use Rattle.page_messages.specs.Remarks.{with_remarks};

use base::split_once;
use markup::{Attribute, Markup, Tag};
use page_parts::{Checked, open_part, open_part_link, put_bad, put_count};

/// How many remarks are listed.
const SHOWN_REMARKS: usize = 200;

/// Adds the line of a clash.
fn put_clash(page: &mut Markup, clash: &[u8])
    ensures { Becomes page.new (adding (clash_line clash.now) page.old) }
{
    page.open(Tag::Item, &[]);
    page.element(Tag::Bold, &[Attribute::Class(b"bad")], b"! clash");
    page.text(b" ");
    page.text(clash);
    page.close();
}

/// Adds a line for each clash.
fn put_clashes(page: &mut Markup, clashes: &[Vec<u8>])
    ensures { Becomes page.new
        (adding (flat_map clash_line (map (λ clash. clash.items) clashes.now)) page.old) }
{
    for clash in clashes {
        put_clash(page, clash);
    }
}

/// Adds a remark, its first word in bold.
fn put_remark_words(page: &mut Markup, remark: &[u8])
    ensures { Becomes page.new (adding (remark_html remark.now (split_once 32 remark.now)) page.old) }
{
    match split_once(remark, b' ') {
        Some((word, rest)) => {
            page.element(Tag::Bold, &[], word);
            page.text(b" ");
            page.text(rest);
        }
        None => page.element(Tag::Bold, &[], remark),
    }
}

/// Adds the line of a remark.
fn put_remark(page: &mut Markup, remark: &[u8])
    ensures { Becomes page.new (adding (remark_line remark.now) page.old) }
{
    page.open(Tag::Item, &[]);
    put_remark_words(page, remark);
    page.close();
}

/// Adds a line for each remark.
fn put_remark_lines(page: &mut Markup, remarks: &[Vec<u8>])
    ensures { Becomes page.new
        (adding (flat_map remark_line (map (λ remark. remark.items) remarks.now)) page.old) }
{
    for remark in remarks {
        put_remark(page, remark);
    }
}

/// The first of the remarks, which are listed.
fn shown_of(remarks: &[Vec<u8>]) -> &[Vec<u8>]
    ensures { result.now ≡ take SHOWN_REMARKS remarks.now }
{
    if remarks.len() > SHOWN_REMARKS {
        &remarks[..SHOWN_REMARKS]
    } else {
        remarks
    }
}

/// Adds how many remarks aren't listed, if there are some.
fn put_others(page: &mut Markup, count: usize)
    ensures { Becomes page.new (adding (others_html count) page.old) }
{
    let others = count.saturating_sub(SHOWN_REMARKS);
    if others == 0 {
        return;
    }
    page.open(Tag::Paragraph, &[]);
    page.open(Tag::Span, &[Attribute::Class(b"q")]);
    page.number(others as u64);
    page.text(b" more");
    page.close();
    page.close();
}

/// Adds names, each after a comma.
fn put_later_names(page: &mut Markup, names: &[Vec<u8>])
    ensures { Becomes page.new
        (adding (later_names (map (λ name. name.items) names.now)) page.old) }
{
    for name in names {
        page.text(b", ");
        page.text(name);
    }
}

/// Adds which remarks the file itself passes: the first of them, and the later ones.
fn put_passed_names(page: &mut Markup, first: &[u8], later: &[Vec<u8>])
    ensures { Becomes page.new
        (adding (passed_names first.now (map (λ name. name.items) later.now)) page.old) }
{
    page.open(Tag::Paragraph, &[]);
    page.open(Tag::Span, &[Attribute::Class(b"q")]);
    page.text(b"passed: ");
    page.text(first);
    put_later_names(page, later);
    page.close();
    page.close();
}

/// Adds which remarks the file itself passes, if there are some.
fn put_passed(page: &mut Markup, passed: &[Vec<u8>])
    ensures { Becomes page.new
        (adding (passed_html (map (λ name. name.items) passed.now)) page.old) }
{
    if let [first, later @ ..] = passed {
        put_passed_names(page, first, later);
    }
}

/// Adds the part with the clashes and remarks, if there are some.
pub fn put_remarks(page: &mut Markup, checked: &Checked)
    ensures { Becomes page.new (with_remarks checked.now page.old) }
{
    if checked.is_empty() {
        return;
    }
    open_part(page, b"remarks", b"Remarks", Some(b"of check --lint"));
    page.open(Tag::List, &[]);
    put_clashes(page, &checked.clashes);
    put_remark_lines(page, shown_of(&checked.remarks));
    page.close();
    put_others(page, checked.remarks.len());
    put_passed(page, &checked.passed);
    page.close();
}

/// Adds how many messages are unclear, if some are.
fn put_unclear(page: &mut Markup, count: usize)
    ensures { Becomes page.new (adding (unclear_html count) page.old) }
{
    match count {
        0 => {}
        1 => put_bad(page, count, b"message unclear"),
        _ => put_bad(page, count, b"messages unclear"),
    }
}

/// Adds how many remarks there are, with a link to them.
fn put_remarks_link(page: &mut Markup, count: usize)
    ensures { Becomes page.new (adding (remarks_link count) page.old) }
{
    if count == 0 {
        page.text(b"no remark");
        return;
    }
    open_part_link(page, b"remarks");
    put_count(page, count, b"remark");
    page.close();
}

/// Adds how many messages are unclear, and how many remarks there are, with a link to them.
pub fn put_remarks_line(page: &mut Markup, checked: &Checked)
    ensures { Becomes page.new (adding (remarks_line checked.now) page.old) }
{
    if checked.clashes.is_empty() && checked.remarks.is_empty() {
        page.text(b"no clash, no remark");
        return;
    }
    put_unclear(page, checked.clashes.len());
    page.text(b" ");
    put_remarks_link(page, checked.remarks.len());
}
