//! What finds the live messages of a network by their names, and which numbers are taken, without a walk over them.
//!
//! An index is never needed: where its memory runs out it is dropped, and made anew when a command would use it.
ghost use Rattle.std.specs.Prelude.{◌≡◌, ◌&&◌, ◌||◌, ℕ, List, IfOk, OnErr, OnOk, insert, is_some, not};
ghost use Rattle.std.specs.Prelude.{option_map, remove, true};
ghost use Rattle.std.specs.BTreeMap.{get};
ghost use Rattle.base.specs.Keyed.{text_cmp};
ghost use Rattle.can_id.specs.declared.form.IdentForm.{IdentForm as FormModel};
ghost use Rattle.can_id.specs.declared.ident.Ident.{Ident as IdentModel};
ghost use Rattle.office_types.specs.Free.{is_taken};
ghost use Rattle.office_types.specs.declared.state.LiveMessage.{LiveMessage as MessageModel};
ghost use Rattle.office_types.specs.declared.state.Net.{Net as NetModel};
ghost use Rattle.office_rules.specs.Facts.{live_named};
ghost use Rattle.office.specs.Indexed.{IsIndex, IsIndexIfThere, IsRemovable, indexed_numbers, has_form_and_number, live_number};

use base::Copying;
use can_id::{Ident, IdentForm};
use dbc_words::Name;
use office_facts::{NumberSet, number_set_of};
use office_types::{LiveMessage, Net};
use std::alloc::{AllocError, Global};
use std::collections::BTreeMap;

/// What finds the live messages of a network by name, and the numbers that may not be given out.
pub(crate) struct NetIndex {
    /// The DBC number of the live message of each name.
    pub(crate) names: BTreeMap<Name, u32>,
    /// The numbers of live and held 11-bit identifiers.
    pub(crate) standard: NumberSet,
    /// Those of 29-bit identifiers.
    pub(crate) extended: NumberSet,
}

/// The DBC number of the live message of each name; where several have a name, of the first one. The error is out of
/// memory.
fn names_of(alloc: Global, live: &[LiveMessage]) -> Result<BTreeMap<Name, u32>, AllocError>
    ensures { IfOk result (λ names. (name : List ℕ) → get text_cmp names name
        ≡ option_map live_number (live_named live.now name)) }
{
    let mut names = BTreeMap::new(alloc);
    let mut at = live.len();
    while at > 0 {
        at -= 1;
        let message = &live[at].message;
        let name = message.name.duplicate(alloc)?;
        names.insert(name, message.number())?;
    }
    Ok(names)
}

impl NetIndex {
    /// The index of the network. The error is out of memory.
    pub(crate) fn of(alloc: Global, net: &Net) -> Result<NetIndex, AllocError>
        ensures { IfOk result (λ index. IsIndex index net.now) }
    {
        let names = names_of(alloc, net.live.as_slice())?;
        let standard = number_set_of(alloc, net, IdentForm::Standard)?;
        let extended = number_set_of(alloc, net, IdentForm::Extended)?;
        Ok(NetIndex {
            names,
            standard,
            extended,
        })
    }

    /// The numbers of the form that may not be given out.
    pub(crate) fn numbers(&self, form: IdentForm) -> &NumberSet
        ensures { result.now ≡ indexed_numbers self.now form }
    {
        match form {
            IdentForm::Standard => &self.standard,
            IdentForm::Extended => &self.extended,
        }
    }

    /// Adds the identifier's number; the names stay. When memory runs out, nothing changes.
    fn add_number(&mut self, ident: Ident) -> Result<(), AllocError>
        ensures names { self.new.names ≡ self.old.names }
        ensures ok { OnOk result
            ((form : FormModel) (n : ℕ) → is_taken n (indexed_numbers self.new form)
            ≡ (has_form_and_number form n ident || is_taken n (indexed_numbers self.old form))) }
        ensures err { OnErr result (self.new ≡ self.old) }
    {
        match ident {
            Ident::Std(id) => self.standard.add(u32::from(id.number())),
            Ident::Ext(id) => self.extended.add(id.number()),
        }
    }

    /// Enters a message of this name and identifier, and answers whether that was done: the name is new, and memory was
    /// enough. Else this isn't an index any more.
    fn insert(&mut self, name: Name, ident: &Ident) -> bool
        ensures { (net : NetModel) (at : ℕ) (m : MessageModel) → m.message.name ≡ name
            → m.message.ident ≡ ident.now
            → IsIndex self.old net → result ≡ true
            → IsIndex self.new (record net { live = insert net.live at m }) }
    {
        match self.names.insert(name, ident.to_dbc()) {
            Ok(None) => {}
            _ => return false,
        }
        self.add_number(*ident).is_ok()
    }

    /// Removes the identifier's number.
    fn remove_number(&mut self, ident: Ident)
        ensures names { self.new.names ≡ self.old.names }
        ensures numbers { (form : FormModel) (n : ℕ) → is_taken n (indexed_numbers self.new form)
            ≡ (not (has_form_and_number form n ident)
            && is_taken n (indexed_numbers self.old form)) }
    {
        match ident {
            Ident::Std(id) => self.standard.remove(u32::from(id.number())),
            Ident::Ext(id) => self.extended.remove(id.number()),
        }
    }

    /// Removes the name and the identifier's number.
    fn remove(&mut self, name: &Name, ident: &Ident)
        ensures { (net : NetModel) (at : ℕ) → IsRemovable net at name.now ident.now
            → IsIndex self.old net
            → IsIndex self.new (record net { live = remove net.live at }) }
    {
        self.names.remove(name);
        self.remove_number(*ident);
    }

    /// Removes the name, whose message's number stays taken.
    fn remove_name(&mut self, name: &Name)
        ensures { (net : NetModel) (at gap : ℕ) (ident : IdentModel)
            → IsRemovable net at name.now ident
            → IsIndex self.old net
            → IsIndex self.new (record net
            { live = remove net.live at; held = insert net.held gap ident }) }
    {
        self.names.remove(name);
    }
}

/// The index of a network after a message of this name and identifier is inserted among its live ones. None where
/// memory runs out, or where the name isn't new.
pub(crate) fn with_inserted(index: Option<NetIndex>, name: Name, ident: &Ident) -> Option<NetIndex>
    ensures { (net : NetModel) (at : ℕ) (m : MessageModel) → m.message.name ≡ name
        → m.message.ident ≡ ident.now
        → IsIndexIfThere index net
        → IsIndexIfThere result (record net { live = insert net.live at m }) }
{
    match index {
        None => None,
        Some(before) => {
            let mut index = before;
            if index.insert(name, ident) {
                Some(index)
            } else {
                None
            }
        }
    }
}

/// The index of a network after the live message at an index is removed, which has this name and identifier, and whose
/// name and number no other message has and no held identifier.
pub(crate) fn with_removed(index: Option<NetIndex>, name: &Name, ident: &Ident) -> Option<NetIndex>
    ensures kept { is_some result ≡ is_some index }
    ensures follows { (net : NetModel) (at : ℕ) → IsRemovable net at name.now ident.now
        → IsIndexIfThere index net
        → IsIndexIfThere result (record net { live = remove net.live at }) }
{
    match index {
        None => None,
        Some(before) => {
            let mut index = before;
            index.remove(name, ident);
            Some(index)
        }
    }
}

/// The index of a network after the live message at an index is removed, which has this name, and whose identifier is
/// held from then on: so its number stays taken.
pub(crate) fn with_moved(index: Option<NetIndex>, name: &Name) -> Option<NetIndex>
    ensures kept { is_some result ≡ is_some index }
    ensures follows { (net : NetModel) (at gap : ℕ) (ident : IdentModel)
        → IsRemovable net at name.now ident
        → IsIndexIfThere index net
        → IsIndexIfThere result (record net
        { live = remove net.live at; held = insert net.held gap ident }) }
{
    match index {
        None => None,
        Some(before) => {
            let mut index = before;
            index.remove_name(name);
            Some(index)
        }
    }
}

impl Drop for NetIndex {
    fn drop(self) {
        let NetIndex {
            names: _names,
            standard: _standard,
            extended: _extended,
        } = self;
    }
}
