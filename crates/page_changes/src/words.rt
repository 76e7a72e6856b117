//! Words with commas between, and what breaks.
ghost use Rattle.std.specs.Prelude.{map};
ghost use Rattle.markup.specs.Writing.{Becomes, adding};
ghost use Rattle.page_changes.specs.Names.{text_of};
ghost use Rattle.page_changes.specs.Tables.{bad_if, joined, later_words};

use markup::Markup;
use page_parts::put_bad;

/// Adds the words, each after a comma.
fn put_later(page: &mut Markup, words: &[&[u8]])
    ensures { Becomes page.new (adding (later_words (map text_of words.now)) page.old) }
{
    for word in words {
        page.text(b", ");
        page.text(word);
    }
}

/// Adds the words, with commas between.
pub(crate) fn put_joined(page: &mut Markup, words: &[&[u8]])
    ensures { Becomes page.new (adding (joined (map text_of words.now)) page.old) }
{
    match words {
        [] => {}
        [first, others @ ..] => {
            page.text(first);
            put_later(page, others);
        }
    }
}

/// Adds how many changes break a receiver, if some do.
pub(crate) fn put_breaking(page: &mut Markup, count: usize)
    ensures { Becomes page.new (adding (bad_if count) page.old) }
{
    if count > 0 {
        put_bad(page, count, b"breaking");
    }
}
