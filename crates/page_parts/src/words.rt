//! Words of a page.
ghost use Rattle.markup.specs.Writing.{Becomes, adding};
ghost use Rattle.page_parts.specs.Words.{bad, counted, dot, isolated, quiet};

use markup::{Attribute, Markup, Tag};

/// Adds words in grey.
#[tactic(auto, unfolding(crate::specs::Words::quiet))]
pub fn put_quiet(page: &mut Markup, words: &[u8])
    ensures { Becomes page.new (adding (quiet words.now) page.old) }
{
    page.element(Tag::Span, &[Attribute::Class(b"q")], words);
}

/// Adds a text that somebody wrote, apart from the direction of what is around it.
#[tactic(auto, unfolding(crate::specs::Words::isolated))]
pub fn put_isolated(page: &mut Markup, words: &[u8])
    ensures { Becomes page.new (adding (isolated words.now) page.old) }
{
    page.element(Tag::Isolated, &[], words);
}

/// Adds a number, and what is counted: one of them, or with an `s`.
#[tactic(auto, unfolding(crate::specs::Words::counted))]
pub fn put_count(page: &mut Markup, count: usize, one: &[u8])
    ensures { Becomes page.new (adding (counted count one.now) page.old) }
{
    page.number(count as u64);
    page.text(b" ");
    page.text(one);
    if count != 1 {
        page.text(b"s");
    }
}

/// Adds a dot between two facts.
pub fn put_dot(page: &mut Markup)
    ensures { Becomes page.new (adding dot page.old) }
{
    page.text(" \u{b7} ".as_bytes());
}

/// Adds how many changes break a receiver: `! 3 breaking`.
#[tactic(auto, unfolding(crate::specs::Words::bad))]
pub fn put_bad(page: &mut Markup, count: usize, words: &[u8])
    ensures { Becomes page.new (adding (bad count words.now) page.old) }
{
    page.open(Tag::Bold, &[Attribute::Class(b"bad")]);
    page.text(b"! ");
    page.number(count as u64);
    page.text(b" ");
    page.text(words);
    page.close();
}
