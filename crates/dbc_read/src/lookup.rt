//! The indices of keys in a list. They are found by binary search, so the time of a look-up is logarithmic in their
//! number, whichever keys a file has.
ghost use Rattle.std.specs.Prelude.{◌≡◌, List, IfOk, Some, length, map, slice_get, true};
ghost use Rattle.dbc_read.specs.Lookup.{IsIndexIn, IsLookupOf};

use std::alloc::{AllocError, Global};

/// Keys in the order of a list, and in ascending order with their indices in the list.
pub(crate) struct Lookup<K> {
    keys: Vec<K>,
    sorted: Vec<(K, usize)>,
}

/// The lookup of a list of keys. Several keys may be equal.
pub(crate) fn lookup_of<K: Ord + Copy>(alloc: Global, keys: Vec<K>) -> Result<Lookup<K>, AllocError>
    ensures { IfOk result (λ lookup. IsLookupOf K.cmp lookup keys.items) }
{
    let mut sorted = Vec::with_capacity(alloc, keys.len())?;
    for key in &keys {
        let index = sorted.len();
        sorted.push((*key, index))?;
    }
    sorted.sort_by(|a: &(K, usize), b: &(K, usize)| a.0.cmp(&b.0))?;
    Ok(Lookup { keys, sorted })
}

impl<K: Ord> Lookup<K> {
    /// How many keys the list has.
    pub(crate) fn len(&self) -> usize
        ensures { (keys : List K) → IsLookupOf K.cmp self.now keys → result ≡ length keys }
    {
        self.keys.len()
    }

    /// Whether the key is at that index of the list.
    fn has_at(&self, index: usize, key: &K) -> bool
        ensures { result ≡ true → slice_get (map (λ k. K.eq k key.now) self.now.keys.items) index
            ≡ Some true }
    {
        match self.keys.get(index) {
            Some(there) => *there == *key,
            None => false,
        }
    }

    /// An index of the list at which the key is, found by binary search.
    fn search(&self, key: &K) -> Option<usize>
        ensures { (keys : List K) → IsLookupOf K.cmp self.now keys
            → IsIndexIn (λ k. K.eq k key.now) keys result }
    {
        match self.sorted.binary_search_by(|entry| entry.0.cmp(key)) {
            Ok(at) => Some(self.sorted[at].1),
            Err(_) => None,
        }
    }

    /// An index of the list at which the key is. Look-ups mostly go along the list, so the index that was found last
    /// and the next one are tried first.
    pub(crate) fn find(&self, key: &K, last: &mut usize) -> Option<usize>
        ensures { (keys : List K) → IsLookupOf K.cmp self.now keys
            → IsIndexIn (λ k. K.eq k key.now) keys result }
    {
        let here = *last;
        if self.has_at(here, key) {
            return Some(here);
        }
        let next = here.saturating_add(1);
        if self.has_at(next, key) {
            *last = next;
            return Some(next);
        }
        let found = self.search(key)?;
        *last = found;
        Some(found)
    }
}

impl<K: Drop> Drop for Lookup<K> {
    fn drop(self) {
        let Lookup {
            keys: _keys,
            sorted: _sorted,
        } = self;
    }
}
