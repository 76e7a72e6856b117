//! A piece of HTML while it is written.
ghost use Rattle.std.specs.Prelude.{◌≡◌, ◌++◌, ◌∷◌, [], false, IfOk, IfSome, OnOk, decimal};
ghost use Rattle.std.specs.List.{flat_map};
ghost use Rattle.html.specs.Text.{escaped};
ghost use Rattle.markup.specs.Html.{attributes_html, doctype, element_html, start_tag, style_html, style_part};
ghost use Rattle.markup.specs.Html.{title_html, void_html};
ghost use Rattle.markup.specs.Reader.{IsWellFormed};
ghost use Rattle.markup.specs.Writing.{Becomes, Opens, adding, beginning, ending, nothing, whole};

use crate::attribute::{Attribute, Piece};
use crate::pushing::{
    push_decimal, push_end, push_ends, push_start, push_style, push_title, push_void,
};
use crate::tag::{Tag, Void};
use html::push_text;
use std::alloc::{AllocError, Global};
use std::fmt::Display;
use std::marker::Model;

/// A piece of HTML while it is written: what is there so far, and which elements are open.
#[derive(Drop)]
pub struct Markup {
    text: Vec<u8>,
    /// The elements that are open, the outermost first.
    open: Vec<Tag>,
    /// Whether memory ran out. Then nothing is added any more.
    is_lost: bool,
}

impl Model for Markup {
    ghost use Rattle.std.specs.Prelude.{◌≡◌, false, reverse};
    ghost use Rattle.markup.specs.Writing.{Opens, Writing};

    ghost Value = { Writing };

    ghost view = { λ m. record {
      text = m.text.items;
      opened = reverse m.open.items;
      is_lost = m.is_lost;
    } };

    ghost invariant = { λ m. m.is_lost ≡ false → Opens m.text.items (reverse m.open.items) };
}

/// Begins an element. At an error the text may have a part of its start.
fn begin(
    text: &mut Vec<u8>,
    open: &mut Vec<Tag>,
    tag: Tag,
    attributes: &[Attribute<'_>],
) -> Result<(), AllocError>
    ensures text { OnOk result (text.new.items
        ≡ text.old.items ++ start_tag tag (attributes_html attributes.now)) }
    ensures open { OnOk result (open.new.items ≡ open.old.items ++ tag ∷ []) }
{
    open.push(tag)?;
    push_start(text, tag, attributes)
}

impl Markup {
    /// Nothing. Takes no memory.
    pub fn new(alloc: Global) -> Markup
        ensures { result ≡ nothing }
    {
        Markup {
            text: Vec::new(alloc),
            open: Vec::new(alloc),
            is_lost: false,
        }
    }

    /// Begins an element.
    pub fn open(&mut self, tag: Tag, attributes: &[Attribute<'_>])
        ensures { Becomes self.new (beginning tag (attributes_html attributes.now) self.old) }
    {
        if !self.is_lost {
            self.is_lost = begin(&mut self.text, &mut self.open, tag, attributes).is_err();
        }
    }

    /// Ends the element that began last, if one is open.
    pub fn close(&mut self)
        ensures { Becomes self.new (ending self.old) }
    {
        if !self.is_lost
            && let Some(tag) = self.open.pop()
        {
            self.is_lost = push_end(&mut self.text, tag).is_err();
        }
    }

    /// Adds an element without an end.
    pub fn void(&mut self, tag: Void, attributes: &[Attribute<'_>])
        ensures { Becomes self.new
            (adding (void_html tag (attributes_html attributes.now)) self.old) }
    {
        if !self.is_lost {
            self.is_lost = push_void(&mut self.text, tag, attributes).is_err();
        }
    }

    /// Adds these bytes as a text.
    pub fn text(&mut self, bytes: &[u8])
        ensures { Becomes self.new (adding (escaped bytes.now) self.old) }
    {
        if !self.is_lost {
            self.is_lost = push_text(&mut self.text, bytes).is_err();
        }
    }

    /// Adds what a value is displayed as, as a text.
    pub fn display<D: Display + Drop>(&mut self, value: D)
        ensures { IfSome (D.output value) (λ bytes. Becomes self.new (adding (escaped bytes) self.old)) }
    {
        match String::format(*self.text.allocator(), value) {
            Ok(words) => self.text(words.as_bytes()),
            Err(_) => self.is_lost = true,
        }
    }

    /// Adds a number in decimal.
    pub fn number(&mut self, number: u64)
        ensures { Becomes self.new (adding (decimal number) self.old) }
    {
        if !self.is_lost {
            self.is_lost = push_decimal(&mut self.text, number).is_err();
        }
    }

    /// Adds an element with this text in it.
    pub fn element(&mut self, tag: Tag, attributes: &[Attribute<'_>], bytes: &[u8])
        ensures { Becomes self.new
            (adding (element_html tag (attributes_html attributes.now) bytes.now) self.old) }
    {
        self.open(tag, attributes);
        self.text(bytes);
        self.close();
    }

    /// Adds the title of the page.
    pub fn title(&mut self, pieces: &[Piece<'_>])
        ensures { Becomes self.new (adding (title_html pieces.now) self.old) }
    {
        if !self.is_lost {
            self.is_lost = push_title(&mut self.text, pieces).is_err();
        }
    }

    /// Adds a style of these parts. A part that isn't ASCII, or has a `<`, is left out.
    pub fn style(&mut self, parts: &[&[u8]])
        ensures { Becomes self.new
            (adding (style_html (flat_map (λ part. style_part part.now) parts.now)) self.old) }
    {
        if !self.is_lost {
            self.is_lost = push_style(&mut self.text, parts).is_err();
        }
    }

    /// Adds the document type, which a page begins with.
    pub fn doctype(&mut self)
        ensures { Becomes self.new (adding doctype self.old) }
    {
        if !self.is_lost {
            self.is_lost = self.text.extend_from_slice(b"<!DOCTYPE html>\n").is_err();
        }
    }

    /// Adds a piece that was written apart, with all that is open in it ended.
    pub fn put(&mut self, part: Markup)
        ensures added { Becomes self.new (adding (whole part) self.old) }
        ensures kept { self.new.is_lost ≡ false → part.is_lost ≡ false }
    {
        match part.into_whole() {
            Ok(text) => {
                if !self.is_lost {
                    self.is_lost = self.text.extend_from_slice(&text).is_err();
                }
            }
            Err(AllocError) => self.is_lost = true,
        }
    }

    /// What is written, with all that is open ended.
    fn into_whole(self) -> Result<Vec<u8>, AllocError>
        ensures written { IfOk result (λ text. text.items ≡ whole self) }
        ensures closed { IfOk result (λ text. Opens text.items []) }
        ensures kept { IfOk result (λ _. self.is_lost ≡ false) }
    {
        let Markup {
            text,
            open,
            is_lost,
        } = self;
        if is_lost {
            return Err(AllocError);
        }
        let mut text = text;
        push_ends(&mut text, open)?;
        Ok(text)
    }

    /// The page, with all that is open ended. The error is that memory ran out on the way.
    pub fn into_page(self) -> Result<Vec<u8>, AllocError>
        ensures written { IfOk result (λ page. page.items ≡ whole self) }
        ensures well_formed { IfOk result (λ page. IsWellFormed page.items) }
        ensures kept { IfOk result (λ _. self.is_lost ≡ false) }
    {
        self.into_whole()
    }
}
