//! What is seen of a network, with the texts of its releases, so that they need not be read for the next look.
ghost use Rattle.std.specs.Prelude.{◌≡◌, IfSome};
ghost use Rattle.store_bodies.specs.ReadText.{AreReadAs};

use base::Items;
use dbc_sheet::Sheet;
use office_seen::View;
use std::marker::Model;
use store_bodies::ReadTexts;

/// The releases of a network as far as they are read, and where all of them are, their texts. Contracts see the sheets.
pub(crate) struct ReleasesSeen {
    sheets: Items<Sheet>,
    texts: Option<Items<Items<u8>>>,
}

impl Model for ReleasesSeen {
    ghost use Rattle.std.specs.Prelude.{List, IfSome};
    ghost use Rattle.dbc_sheet.specs.declared.sheet.Sheet.{Sheet};
    ghost use Rattle.store_bodies.specs.ReadText.{AreReadAs};

    ghost Value = { List Sheet };

    ghost view = { λ seen. seen.sheets };

    ghost invariant = { λ seen. IfSome seen.texts (λ texts. AreReadAs texts seen.sheets) };
}

impl ReleasesSeen {
    /// These sheets, which aren't all of the releases, or not these.
    pub(crate) fn without_texts(sheets: Items<Sheet>) -> ReleasesSeen
        ensures { result ≡ sheets }
    {
        ReleasesSeen {
            sheets,
            texts: None,
        }
    }

    /// All releases, with their texts.
    pub(crate) fn of(read: ReadTexts) -> ReleasesSeen
        ensures { result ≡ read.sheets }
    {
        let (texts, sheets) = read.into_parts();
        ReleasesSeen {
            sheets,
            texts: Some(texts),
        }
    }

    /// The sheets, and their texts if they are there.
    pub(crate) fn into_parts(self) -> (Items<Sheet>, Option<Items<Items<u8>>>)
        ensures sheets { result.0 ≡ self }
        ensures read { IfSome result.1 (λ texts. AreReadAs texts result.0) }
    {
        let ReleasesSeen { sheets, texts } = self;
        (sheets, texts)
    }
}

impl Drop for ReleasesSeen {
    fn drop(self) {
        let ReleasesSeen {
            sheets: _sheets,
            texts: _texts,
        } = self;
    }
}

/// What is seen of a network, and where all of its releases were read, their texts. Contracts see the view.
pub(crate) struct NetSeen {
    seen: View,
    texts: Option<Items<Items<u8>>>,
}

impl Model for NetSeen {
    ghost use Rattle.std.specs.Prelude.{IfSome};
    ghost use Rattle.office_seen.specs.declared.view.View.{View};
    ghost use Rattle.store_bodies.specs.ReadText.{AreReadAs};

    ghost Value = { View };

    ghost view = { λ net. net.seen };

    ghost invariant = { λ net. IfSome net.texts (λ texts. AreReadAs texts net.seen.releases) };
}

impl NetSeen {
    /// What is seen, with the texts of its releases if they are there.
    pub(crate) fn of(seen: View, texts: Option<Items<Items<u8>>>) -> NetSeen
        requires { IfSome texts (λ texts. AreReadAs texts seen.releases) }
        ensures { result ≡ seen }
    {
        NetSeen { seen, texts }
    }

    /// What is seen.
    pub(crate) fn view(&self) -> &View
        ensures { result.now ≡ self.now }
    {
        &self.seen
    }

    /// What is seen, and the texts of its releases if they are there. Takes no memory.
    pub(crate) fn into_parts(self) -> (View, Option<Items<Items<u8>>>)
        ensures seen { result.0 ≡ self }
        ensures read { IfSome result.1 (λ texts. AreReadAs texts result.0.releases) }
    {
        let NetSeen { seen, texts } = self;
        (seen, texts)
    }
}

impl Drop for NetSeen {
    fn drop(self) {
        let NetSeen {
            seen: _seen,
            texts: _texts,
        } = self;
    }
}
