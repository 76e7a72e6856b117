//! Sets of keys, in which a key is found by binary search.
ghost use Rattle.std.specs.Prelude.{◌≡◌, List, IfOk};
ghost use Rattle.std.specs.List.{list_any};
ghost use Rattle.dbc_advice.specs.Names.{IsSetOf};

use std::alloc::AllocError;

/// Keys in ascending order.
#[derive(Drop)]
pub(crate) struct KeySet<K> {
    sorted: Vec<K>,
}

/// The set of the keys of a list. The error is out of memory.
pub(crate) fn key_set<K: Ord + Copy>(keys: Vec<K>) -> Result<KeySet<K>, AllocError>
    ensures { IfOk result (λ set. IsSetOf K.cmp set keys.items) }
{
    let mut sorted = keys;
    sorted.sort()?;
    Ok(KeySet { sorted })
}

impl<K: Ord> KeySet<K> {
    /// Whether the key is one of the list's.
    pub(crate) fn has(&self, key: &K) -> bool
        ensures { (keys : List K) → IsSetOf K.cmp self.now keys
            → result ≡ list_any (λ k. K.eq k key.now) keys }
    {
        match self.sorted.binary_search(key) {
            Ok(_) => true,
            Err(_) => false,
        }
    }
}
