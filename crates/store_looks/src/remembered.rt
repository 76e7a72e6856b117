//! What is remembered of the networks that were seen.
ghost use Rattle.std.specs.Prelude.{◌≡◌, ◌≤◌, ◌⊎◌, None, Some, IfOk, IfSome, IsTrue};
ghost use Rattle.std.specs.Option.{option_map};
ghost use Rattle.store_bodies.specs.ReadText.{AreReadAs, remembered_limit, text_bytes};
ghost use Rattle.store_looks.specs.Kept.{known_of};
ghost use Rattle.store_looks.specs.Seen.{IsTextOn, IsTrueOf};
ghost use Rattle.store_tables.specs.Tables.{Tables};

use crate::seen::NetSeen;
use base::Items;
use office_looks::shown_of;
use office_page::{page_of, release_page};
use office_seen::View;
use office_types::{Look, NetName};
use std::alloc::{AllocError, Global};
use std::marker::Model;
use std::mem::replace;
use store_bodies::{REMEMBERED_LIMIT, ReadTexts, RememberedTexts};

/// All that is seen of a network, with its name and the texts of its releases, which are few enough to be remembered.
/// Contracts see the name and what is seen.
struct KnownNet {
    name: NetName,
    seen: View,
    texts: Items<Items<u8>>,
}

impl Model for KnownNet {
    ghost use Rattle.std.specs.Prelude.{ℕ, ◌≤◌, List};
    ghost use Rattle.office_seen.specs.declared.view.View.{View};
    ghost use Rattle.store_bodies.specs.ReadText.{AreReadAs, remembered_limit, text_bytes};

    ghost Value = { List ℕ × View };

    ghost view = { λ known. (known.name, known.seen) };

    ghost invariant = { λ known. AreReadAs known.texts known.seen.releases
        × (text_bytes known.texts ≤ remembered_limit) };
}

impl KnownNet {
    /// Its texts with their sheets. Takes no memory.
    fn into_texts(self) -> ReadTexts {
        let KnownNet {
            name: _name,
            seen,
            texts,
        } = self;
        ReadTexts::of(texts, seen.into_releases())
    }
}

impl Drop for KnownNet {
    fn drop(self) {
        let KnownNet {
            name: _name,
            seen: _seen,
            texts: _texts,
        } = self;
    }
}

/// Whether the texts have at most so many bytes together.
fn are_within(texts: &[Items<u8>], limit: usize) -> bool
    ensures { IsTrue result → text_bytes texts.now ≤ limit }
{
    let mut room = limit;
    for text in texts {
        let size = text.as_slice().len();
        if size > room {
            return false;
        }
        room -= size;
    }
    true
}

/// What is kept of one network. So there are the texts of one at most.
#[derive(Drop)]
enum Kept {
    /// Nothing.
    Nothing,
    /// All that was seen of the network.
    Known(KnownNet),
    /// The same, where something may have changed since: only its texts are known.
    Outdated(KnownNet),
    /// Texts of its releases alone.
    Texts(RememberedTexts),
}

impl Kept {
    /// The same, where something may have changed since. Takes no memory, and frees none.
    fn outdated(self) -> Kept
        ensures { known_of result ≡ None }
    {
        match self {
            Kept::Nothing => Kept::Nothing,
            Kept::Known(known) => Kept::Outdated(known),
            Kept::Outdated(known) => Kept::Outdated(known),
            Kept::Texts(texts) => Kept::Texts(texts),
        }
    }
}

/// What is remembered of the last network of which all was seen, or of which all releases were read: at most
/// [`REMEMBERED_LIMIT`] bytes of the texts of releases, with the sheets that they read as, and beside them, until
/// something changes, all else of the network. Contracts see the name and what is seen of a network that is remembered
/// so.
pub struct Remembered {
    kept: Kept,
}

impl Model for Remembered {
    ghost use Rattle.store_looks.specs.Kept.{known_of};
    ghost use Rattle.store_looks.specs.Seen.{Known};

    ghost Value = { Known };

    ghost view = { λ remembered. known_of remembered.kept };
}

impl Remembered {
    /// Nothing. Takes no memory.
    pub fn nothing() -> Remembered
        ensures { result ≡ None }
    {
        Remembered {
            kept: Kept::Nothing,
        }
    }

    /// Notes that tables may have changed: only texts are known then. Takes no memory, and frees none.
    pub fn outdate(&mut self)
        ensures { self.new ≡ None }
    {
        let kept = replace(&mut self.kept, Kept::Nothing);
        self.kept = kept.outdated();
    }

    /// What is seen of the network of the name, if all of it is known.
    fn seen(&self, name: &NetName) -> Option<&View>
        ensures { IfSome result (λ seen. self.now ≡ Some (name.now, seen.now)) }
    {
        match &self.kept {
            Kept::Known(known) if known.name == *name => Some(&known.seen),
            _ => None,
        }
    }

    /// The text of the look, where all of its network is known: then nothing is read for it. `None` where it isn't, and
    /// for looks that aren't at a network. The error is out of memory.
    pub fn text_of(&self, alloc: Global, look: &Look) -> Result<Option<Option<Vec<u8>>>, AllocError>
        ensures { (t : Tables) → IsTrueOf self.now t → IfOk result (λ known. IfSome known (λ text.
            IsTextOn look.now (option_map (λ bytes. bytes.items) text) t)) }
    {
        match look {
            Look::Net(name, look, form) => match self.seen(name) {
                Some(seen) => Ok(Some(shown_of(alloc, seen, look, *form)?)),
                None => Ok(None),
            },
            Look::Page(name) => match self.seen(name) {
                Some(seen) => Ok(Some(Some(page_of(alloc, seen)?))),
                None => Ok(None),
            },
            Look::ReleasePage(name, number) => match self.seen(name) {
                Some(seen) => Ok(Some(release_page(alloc, seen, *number)?)),
                None => Ok(None),
            },
            _ => Ok(None),
        }
    }

    /// The texts that are known, none where there are none. Nothing is remembered any more.
    pub(crate) fn take_texts(&mut self, alloc: Global) -> ReadTexts
        ensures { self.new ≡ None }
    {
        match replace(&mut self.kept, Kept::Nothing) {
            Kept::Nothing => ReadTexts::none(alloc),
            Kept::Known(known) => known.into_texts(),
            Kept::Outdated(known) => known.into_texts(),
            Kept::Texts(texts) => texts.into_read(),
        }
    }

    /// Has what is seen of the network of the name remembered in place of all else, if the texts of its releases are
    /// there: all of it, if it is the whole network, and the texts are few enough, and else the texts alone. Takes no
    /// memory.
    pub(crate) fn keep(&mut self, name: NetName, seen: NetSeen, is_whole: bool)
        ensures { (self.new ≡ self.old) ⊎ ((self.new ≡ None)
            ⊎ (IsTrue is_whole × (self.new ≡ Some (name, seen)))) }
    {
        let (seen, texts) = seen.into_parts();
        let Some(texts) = texts else {
            return;
        };
        *self = Remembered::nothing();
        if is_whole && are_within(texts.as_slice(), REMEMBERED_LIMIT) {
            self.kept = Kept::Known(KnownNet { name, seen, texts });
            return;
        }
        let read = ReadTexts::of(texts, seen.into_releases());
        self.kept = Kept::Texts(RememberedTexts::of(read));
    }
}

impl Drop for Remembered {
    fn drop(self) {
        let Remembered { kept: _kept } = self;
    }
}
