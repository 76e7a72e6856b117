//! All of each message.
ghost use Rattle.std.specs.Prelude.{◌≡◌, [], OnOk, codes};
ghost use Rattle.markup.specs.Writing.{Becomes, adding, beginning, whole};
ghost use Rattle.page_parts.specs.Subjects.{names_of, owner_at};
ghost use Rattle.page_messages.specs.Each.{HasTables, IsCard, IsEach, card_tag, card_title, comment_html};
ghost use Rattle.page_messages.specs.Each.{facts_html, facts_id, owned_name, paragraph, route_html, state_mark};
ghost use Rattle.page_messages.specs.Each.{state_word, title_html, words_html};
ghost use Rattle.page_messages.specs.Layouts.{Adds};

use crate::facts::{put_facts, put_route, receivers_part};
use crate::layouts::put_layouts;
use crate::shown::shown_signals;
use crate::signals::put_signals;
use dbc_sheet::Message;
use markup::{Attribute, Markup, Piece, Tag};
use page_parts::{Marks, State, Subject, open_part, open_wide, put_isolated};
use std::alloc::{AllocError, Global};

/// Up to so many messages aren't folded.
const SHOWN_MESSAGES: usize = 12;

/// What has become of a message, as a word.
fn state_word(state: State) -> &'static [u8]
    ensures { result.now ≡ state_word state }
{
    match state {
        State::Same => &[],
        State::New => b"new",
        State::Changed | State::Breaking(_) => b"changed",
    }
}

/// Adds what has become of a message, if something has.
fn put_state(page: &mut Markup, state: State)
    ensures { Becomes page.new (adding (state_mark (state_word state)) page.old) }
{
    let word = state_word(state);
    if !word.is_empty() {
        page.text(b" ");
        page.element(Tag::Emphasis, &[], word);
    }
}

/// Adds the name of the message at the index, and whose it is.
fn put_owned_name(page: &mut Markup, subject: &Subject<'_>, index: usize, message: &Message)
    ensures { Becomes page.new (adding (owned_name (names_of subject.now)
        (owner_at subject.now index) message.now.name) page.old) }
{
    page.element(Tag::Bold, &[], message.name.as_bytes());
    page.text(b" ");
    subject.letters.put_badge(page, subject.owner_at(index));
}

/// Adds the title of the message at the index.
fn put_title(
    page: &mut Markup,
    subject: &Subject<'_>,
    state: State,
    index: usize,
    message: &Message,
)
    ensures { Becomes page.new (adding (title_html (names_of subject.now)
        (owner_at subject.now index) state message.now.name) page.old) }
{
    page.open(Tag::H3, &[]);
    put_owned_name(page, subject, index, message);
    put_state(page, state);
    page.close();
}

/// Begins the card of the message at the index, up to its title. One `close` ends it.
fn open_card(
    page: &mut Markup,
    is_folded: bool,
    subject: &Subject<'_>,
    state: State,
    index: usize,
    message: &Message,
)
    ensures { Becomes page.new (adding (card_title is_folded (title_html (names_of subject.now)
        (owner_at subject.now index) state message.now.name))
        (beginning (card_tag is_folded) (codes " class=\"card\"") page.old)) }
{
    if is_folded {
        page.open(Tag::Details, &[Attribute::Class(b"card")]);
        page.open(Tag::Summary, &[]);
        put_title(page, subject, state, index, message);
        page.close();
    } else {
        page.open(Tag::Section, &[Attribute::Class(b"card")]);
        put_title(page, subject, state, index, message);
    }
}

/// Adds the paragraph of the message's facts.
#[tactic(auto, unfolding(markup::specs::Html::start_tag, markup::specs::Html::end_tag))]
fn put_facts_line(page: &mut Markup, subject: &Subject<'_>, message: &Message)
    ensures { Becomes page.new (adding (paragraph (facts_id message.now.name)
        (facts_html subject.now.is_j1939 message.now)) page.old) }
{
    let name = message.name.as_bytes();
    page.open(
        Tag::Paragraph,
        &[
            Attribute::Class(b"q"),
            Attribute::Id(&[Piece::Text(b"m-"), Piece::Text(name)]),
        ],
    );
    put_facts(page, subject, message);
    page.close();
}

/// Adds the paragraph of from whom the message goes to whom.
fn put_route_line(page: &mut Markup, message: &Message, receivers: Markup)
    ensures { Becomes page.new (adding (paragraph []
        (route_html message.now.transmitter (whole receivers))) page.old) }
{
    page.open(Tag::Paragraph, &[]);
    put_route(page, message, receivers);
    page.close();
}

/// Adds the paragraph of the message's comment, if it has one.
fn put_comment(page: &mut Markup, comment: &[u8])
    ensures { Becomes page.new (adding (comment_html comment.now) page.old) }
{
    if !comment.is_empty() {
        page.open(Tag::Paragraph, &[]);
        put_isolated(page, comment);
        page.close();
    }
}

/// Adds the facts of the message, from whom it goes to whom, and its comment.
fn put_words(page: &mut Markup, subject: &Subject<'_>, message: &Message, receivers: Markup)
    ensures { Becomes page.new (adding
        (words_html subject.now.is_j1939 message.now (whole receivers)) page.old) }
{
    put_facts_line(page, subject, message);
    put_route_line(page, message, receivers);
    put_comment(page, message.comment.as_bytes());
}

/// Adds the layouts and the table of signals of the message at the index.
fn put_tables_of(
    alloc: Global,
    page: &mut Markup,
    marks: &Marks<'_>,
    index: usize,
    message: &Message,
) -> Result<(), AllocError>
    ensures { OnOk result (Adds (HasTables marks.now index message.now) page.new page.old) }
{
    let shown = shown_signals(alloc, message.signals.as_slice(), marks, index)?;
    put_layouts(alloc, page, message, &shown)?;
    let name = message.name.as_bytes();
    open_wide(page, &[Piece::Text(b"Signals of "), Piece::Text(name)]);
    put_signals(alloc, page, message, &shown)?;
    page.close();
    Ok(())
}

/// Adds all of the message at the index.
fn put_message(
    alloc: Global,
    page: &mut Markup,
    subject: &Subject<'_>,
    marks: &Marks<'_>,
    index: usize,
    message: &Message,
) -> Result<(), AllocError>
    ensures { OnOk result
        (Adds (IsCard subject.now marks.now index message.now) page.new page.old) }
{
    let receivers = receivers_part(alloc, message.signals.as_slice())?;
    let is_folded = subject.messages().len() > SHOWN_MESSAGES;
    open_card(
        page,
        is_folded,
        subject,
        marks.state_at(index),
        index,
        message,
    );
    put_words(page, subject, message, receivers);
    put_tables_of(alloc, page, marks, index, message)?;
    page.close();
    Ok(())
}

/// Adds the part with all of each message, if there are some. The error is out of memory.
pub fn put_each(
    alloc: Global,
    page: &mut Markup,
    subject: &Subject<'_>,
    marks: &Marks<'_>,
) -> Result<(), AllocError>
    ensures { OnOk result (Adds (IsEach subject.now marks.now) page.new page.old) }
{
    let messages = subject.messages();
    if messages.is_empty() {
        return Ok(());
    }
    open_part(
        page,
        b"each",
        b"Each message",
        Some(b"signals by their number in the table; 15:8 are bits of the raw value"),
    );
    for (index, message) in messages.iter().enumerate() {
        put_message(alloc, page, subject, marks, index, message)?;
    }
    page.close();
    Ok(())
}
