//! What has changed since the last release.
ghost use Rattle.std.specs.Prelude.{◌≡◌, IfOk, OnOk, Some, codes, map, take};
ghost use Rattle.std.specs.List.{flat_map};
ghost use Rattle.markup.specs.Writing.{Becomes, adding};
ghost use Rattle.page_parts.specs.Frames.{with_part};
ghost use Rattle.page_changes.specs.Changes.{changes_in, list_of};
ghost use Rattle.page_changes.specs.Fates.{has_fate, of_fate};
ghost use Rattle.page_changes.specs.LastRelease.{IsSince, IsSincePart, other_differences, other_note};
ghost use Rattle.page_changes.specs.LastRelease.{since_heading, since_note};
ghost use Rattle.page_changes.specs.Names.{text_of};
ghost use Rattle.page_changes.specs.Since.{AreRanked, IsChangeList, cell_of, changed_told, has_word, items_html};
ghost use Rattle.page_changes.specs.Since.{lists_html, message_item, sign_html, sign_of, told_by, told_words, with_word};
ghost use Rattle.page_changes.specs.Since.{word_of, words_of};
ghost use Rattle.page_changes.specs.Tables.{Puts, joined};

use crate::act::put_act;
use crate::changes::{Changes, Fate, fate_in, name_in};
use crate::words::{put_breaking, put_joined};
use dbc_compare::{Difference, breaking_count};
use dbc_sheet::Sheet;
use markup::{Attribute, Markup, Tag};
use page_parts::{open_part, put_bad, put_count};
use std::alloc::{AllocError, Global};
use std::cmp::Reverse;

/// How many messages of a fate are listed.
const LISTED: usize = 200;

/// The sign of a fate.
fn sign_of(fate: Fate) -> &'static [u8]
    ensures { result.now ≡ sign_of fate }
{
    match fate {
        Fate::Added => b"+",
        Fate::Removed => "\u{2212}".as_bytes(),
        Fate::Changed => "\u{2260}".as_bytes(),
    }
}

/// The classes of the cell that has the sign.
fn cell_of(fate: Fate) -> &'static [u8]
    ensures { result.now ≡ cell_of fate }
{
    match fate {
        Fate::Added => b"cell p",
        Fate::Removed => b"cell y",
        Fate::Changed => b"cell u",
    }
}

/// Adds the sign of a fate, in its colour.
fn put_sign(page: &mut Markup, fate: Fate)
    ensures { Becomes page.new (adding (sign_html fate) page.old) }
{
    page.element(Tag::Bold, &[Attribute::Class(cell_of(fate))], sign_of(fate));
}

/// Adds the sign of a fate, and how many messages have met it.
fn put_fate(page: &mut Markup, changes: &Changes<'_>, fate: Fate) {
    page.text(sign_of(fate));
    page.number(changes.count(fate) as u64);
    page.text(b" ");
}

/// Adds that nothing is amiss.
fn put_good(page: &mut Markup, words: &[u8]) {
    page.element(Tag::Span, &[Attribute::Class(b"good")], words);
}

/// Adds how much has changed since the release of this number.
fn put_counts(page: &mut Markup, changes: &Changes<'_>) {
    put_fate(page, changes, Fate::Added);
    put_fate(page, changes, Fate::Removed);
    put_fate(page, changes, Fate::Changed);
    page.text(b"messages ");
    if changes.breaking == 0 {
        put_good(page, b"nothing breaks");
    } else {
        put_bad(page, changes.breaking, b"breaking");
    }
}

/// Adds in a few words what has changed since the release of this number; for 0, that there is no release yet.
pub fn put_since_words(page: &mut Markup, release: usize, changes: &Changes<'_>) {
    if release == 0 {
        page.text(b"No release yet.");
        return;
    }
    page.text(b"Since release ");
    page.number(release as u64);
    page.text(b": ");
    if changes.is_nothing() {
        put_good(page, b"no difference");
    } else {
        put_counts(page, changes);
    }
}

/// The signal that the difference is of, or the word for what has become of the message itself.
fn word_of(difference: &Difference) -> &[u8]
    ensures { result.now ≡ word_of difference.now }
{
    match &difference.name {
        Some(signal) => signal.as_bytes(),
        None => difference.change.word(),
    }
}

/// Whether the word is one of them.
fn has_word(words: &[&[u8]], word: &[u8]) -> bool
    ensures { result ≡ has_word (map text_of words.now) word.now }
{
    words.contains(&word)
}

/// Adds the word, if it isn't there yet.
fn add_word<'a>(words: &mut Vec<&'a [u8]>, word: &'a [u8]) -> Result<(), AllocError>
    ensures { OnOk result (map text_of words.new.items
        ≡ with_word (map text_of words.old.items) word.now) }
{
    if !has_word(words, word) {
        words.push(word)?;
    }
    Ok(())
}

/// What differs of the message: its signals, and words for what has become of itself. Each once.
fn words_of<'a>(alloc: Global, message: &'a [Difference]) -> Result<Vec<&'a [u8]>, AllocError>
    ensures { IfOk result (λ words. map text_of words.items ≡ words_of message.now) }
{
    let mut words: Vec<&'a [u8]> = Vec::new(alloc);
    for difference in message {
        add_word(&mut words, word_of(difference))?;
    }
    Ok(words)
}

/// Adds the words in grey.
fn put_words(page: &mut Markup, words: &[&[u8]])
    ensures { Becomes page.new (adding (told_words (joined (map text_of words.now))) page.old) }
{
    page.text(b" ");
    page.open(Tag::Span, &[Attribute::Class(b"q")]);
    put_joined(page, words);
    page.close();
}

/// Adds how much of a message that has changed breaks a receiver, and what differs.
fn put_changed(alloc: Global, page: &mut Markup, message: &[Difference]) -> Result<(), AllocError>
    ensures { OnOk result (Becomes page.new (adding (changed_told message.now) page.old)) }
{
    let words = words_of(alloc, message)?;
    put_breaking(page, breaking_count(message));
    put_words(page, &words);
    Ok(())
}

/// Adds what the page says of a message that has met this fate.
fn put_told(
    alloc: Global,
    page: &mut Markup,
    fate: Fate,
    message: &[Difference],
) -> Result<(), AllocError>
    ensures { OnOk result (Becomes page.new (adding (told_by fate message.now) page.old)) }
{
    match fate {
        Fate::Changed => put_changed(alloc, page, message),
        Fate::Added | Fate::Removed => {
            put_words(page, &[]);
            Ok(())
        }
    }
}

/// Adds the item of a message that differs.
fn put_message(alloc: Global, page: &mut Markup, message: &[Difference]) -> Result<(), AllocError>
    ensures { OnOk result (Becomes page.new (adding (message_item message.now) page.old)) }
{
    let fate = fate_in(message);
    page.open(Tag::Item, &[]);
    put_sign(page, fate);
    page.text(b" ");
    page.text(name_in(message));
    page.text(b" ");
    put_told(alloc, page, fate, message)?;
    page.close();
    Ok(())
}

/// Whether the message that differs so has met this fate.
fn has_fate(message: &[Difference], fate: Fate) -> bool
    ensures { result ≡ has_fate fate message.now }
{
    fate_in(message) == fate
}

/// The messages of this fate, in ascending order of DBC number.
fn messages_of<'a>(
    alloc: Global,
    changes: &Changes<'a>,
    fate: Fate,
) -> Result<Vec<&'a [Difference]>, AllocError>
    ensures { IfOk result (λ messages. map list_of messages.items
        ≡ of_fate fate (changes_in changes.now)) }
{
    let mut messages = Vec::new(alloc);
    for message in &changes.messages {
        if has_fate(message, fate) {
            messages.push(*message)?;
        }
    }
    Ok(messages)
}

/// The messages by how many of their differences break a receiver, those first of which most do.
fn ranked(messages: Vec<&[Difference]>) -> Result<Vec<&[Difference]>, AllocError>
    ensures { IfOk result (λ ranked. AreRanked messages.entry.items ranked.items) }
{
    let mut messages = messages;
    messages.sort_by_cached_key(|message| Reverse(breaking_count(message)))?;
    Ok(messages)
}

/// As many of the messages as are listed.
fn listed<'a, 'b>(messages: &'b [&'a [Difference]]) -> &'b [&'a [Difference]]
    ensures { result.now ≡ take LISTED messages.now }
{
    if messages.len() <= LISTED {
        messages
    } else {
        &messages[..LISTED]
    }
}

/// Adds an item for each of the messages.
fn put_each(alloc: Global, page: &mut Markup, messages: &[&[Difference]]) -> Result<(), AllocError>
    ensures { OnOk result (Becomes page.new
        (adding (flat_map message_item (map list_of messages.now)) page.old)) }
{
    for message in messages {
        put_message(alloc, page, message)?;
    }
    Ok(())
}

/// Adds the items of the messages, as many as are listed.
fn put_items(alloc: Global, page: &mut Markup, messages: &[&[Difference]]) -> Result<(), AllocError>
    ensures { OnOk result (Becomes page.new
        (adding (items_html (map list_of messages.now)) page.old)) }
{
    put_each(alloc, page, listed(messages))
}

/// Adds the lists of these messages.
fn put_three(
    alloc: Global,
    page: &mut Markup,
    changed: &[&[Difference]],
    removed: &[&[Difference]],
    added: &[&[Difference]],
) -> Result<(), AllocError>
    ensures { OnOk result (Becomes page.new (adding (lists_html (map list_of changed.now)
        (map list_of removed.now) (map list_of added.now)) page.old)) }
{
    page.open(Tag::List, &[Attribute::Class(b"rows")]);
    put_items(alloc, page, changed)?;
    put_items(alloc, page, removed)?;
    put_items(alloc, page, added)?;
    page.close();
    Ok(())
}

/// Adds the lists of the messages that have changed, were removed and were added.
fn put_lists(alloc: Global, page: &mut Markup, changes: &Changes<'_>) -> Result<(), AllocError>
    ensures { OnOk result (Puts (IsChangeList (changes_in changes.now)) page.new page.old) }
{
    let changed = ranked(messages_of(alloc, changes, Fate::Changed)?)?;
    let removed = messages_of(alloc, changes, Fate::Removed)?;
    let added = messages_of(alloc, changes, Fate::Added)?;
    put_three(alloc, page, &changed, &removed, &added)
}

/// Adds how many differences are in no message.
fn put_other_note(page: &mut Markup, count: usize)
    ensures { Becomes page.new (adding (other_note count) page.old) }
{
    page.open(Tag::Paragraph, &[]);
    page.open(Tag::Span, &[Attribute::Class(b"q")]);
    put_count(page, count, b"difference");
    page.text(b" of nodes, tables and the sheet");
    page.close();
    page.close();
}

/// Adds how many differences are in no message, if some are.
fn put_others(page: &mut Markup, count: usize)
    ensures { Becomes page.new (adding (other_differences count) page.old) }
{
    if count > 0 {
        put_other_note(page, count);
    }
}

/// The heading of the part.
fn since_heading(alloc: Global, release: usize) -> Result<Vec<u8>, AllocError>
    ensures { IfOk result (λ text. text.items ≡ since_heading release) }
{
    Ok(format!(in alloc; "Since release {release}")?.into_bytes())
}

/// What stands beside the heading.
fn since_note(alloc: Global, release: usize) -> Result<Vec<u8>, AllocError>
    ensures { IfOk result (λ text. text.items ≡ since_note release) }
{
    let note = format!(in alloc;
        "who must act: nodes that receive what breaks, as release {release} has it"
    )?;
    Ok(note.into_bytes())
}

/// Begins the part.
fn open_since(alloc: Global, page: &mut Markup, release: usize) -> Result<(), AllocError>
    ensures { OnOk result (Becomes page.new
        (with_part (codes "since") (since_heading release) (Some (since_note release)) page.old)) }
{
    let heading = since_heading(alloc, release)?;
    let note = since_note(alloc, release)?;
    open_part(page, b"since", &heading, Some(note.as_slice()));
    Ok(())
}

/// Adds the part of what has changed since the release of this number, which had this sheet.
fn put_part(
    alloc: Global,
    page: &mut Markup,
    release: usize,
    before: &Sheet,
    changes: &Changes<'_>,
) -> Result<(), AllocError>
    ensures { OnOk result
        (Puts (IsSincePart release before.now changes.now) page.new page.old) }
{
    open_since(alloc, page, release)?;
    put_act(alloc, page, before, changes)?;
    put_lists(alloc, page, changes)?;
    put_others(page, changes.others);
    page.close();
    Ok(())
}

/// Adds what has changed since the release of this number, which had this sheet, if something has. The error is out of
/// memory.
pub fn put_since(
    alloc: Global,
    page: &mut Markup,
    release: usize,
    before: &Sheet,
    changes: &Changes<'_>,
) -> Result<(), AllocError>
    ensures { OnOk result (Puts (IsSince release before.now changes.now) page.new page.old) }
{
    if changes.is_nothing() {
        return Ok(());
    }
    put_part(alloc, page, release, before, changes)
}
