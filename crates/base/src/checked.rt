//! Bytes that follow a rule.
ghost use Rattle.std.specs.Prelude.{◌≡◌, ◌↔◌, ℕ, Bool, List, [], IfOk, IsTrue, SomeIff};

use crate::bytes::Bytes;
use crate::copying::Copying;
use crate::keyed::Keyed;
use std::alloc::{AllocError, Global};
use std::cmp::Ordering;
use std::marker::{Model, PhantomData};

/// Which bytes a type may have: a name, a text, the name of a team.
pub trait Rule {
    /// The bytes keep the rule.
    ghost Keeps: { List ℕ → Type 0 };

    /// The same computed.
    ghost accepts: { List ℕ → Bool };

    /// Whether the bytes keep the rule.
    fn accepts(bytes: &[u8]) -> bool
        ensures computed { result ≡ accepts bytes.now }
        ensures keeps { IsTrue result ↔ Keeps bytes.now };
}

/// A rule that no bytes at all keep too.
pub trait EmptyRule: Rule {
    /// They keep it.
    ghost keeps_none: { Self.Rule.Keeps [] };

    /// The same computed.
    ghost accepts_none: { IsTrue (Self.Rule.accepts []) };
}

/// Bytes that keep the rule. Contracts see them as a list. Up to 22 of them, as most names and texts have, take no
/// block of memory of their own.
pub struct Checked<R: Rule> {
    bytes: Bytes,
    rule: PhantomData<R>,
}

impl<R: Rule> Model for Checked<R> {
    ghost use Rattle.std.specs.Prelude.{ℕ, List, IsTrue};

    ghost Value = { List ℕ };

    ghost view = { λ checked. checked.bytes };

    ghost invariant = { λ checked. R.Keeps checked.bytes × IsTrue (R.accepts checked.bytes) };
}

impl<R: Rule> Checked<R> {
    /// A copy of the bytes, or `None` where they don't keep the rule.
    pub fn of(alloc: Global, bytes: &[u8]) -> Result<Option<Self>, AllocError>
        ensures { IfOk result (λ found. SomeIff found (R.Keeps bytes.now) bytes.now) }
    {
        if !R::accepts(bytes) {
            return Ok(None);
        }
        Ok(Some(Checked::of_kept(alloc, bytes)?))
    }

    /// A copy of bytes that keep the rule, without another test.
    pub fn of_kept(alloc: Global, bytes: &[u8]) -> Result<Self, AllocError>
        requires keeps { R.Keeps bytes.now }
        requires computed { IsTrue (R.accepts bytes.now) }
        ensures { IfOk result (λ checked. checked ≡ bytes.now) }
    {
        Ok(Checked {
            bytes: Bytes::from_slice(alloc, bytes)?,
            rule: PhantomData,
        })
    }

    /// The bytes.
    pub fn as_bytes(&self) -> &[u8]
        ensures bytes { result.now ≡ self.now }
        ensures keeps { R.Keeps self.now }
        ensures computed { IsTrue (R.accepts self.now) }
    {
        self.bytes.as_slice()
    }

    /// Whether there are no bytes.
    pub fn is_empty(&self) -> bool
        ensures { IsTrue result ↔ (self.now ≡ []) }
    {
        self.as_bytes().is_empty()
    }
}

impl<R: EmptyRule> Checked<R> {
    /// No bytes. Takes no memory.
    pub fn empty(alloc: Global) -> Self
        ensures { result ≡ [] }
    {
        Checked {
            bytes: Bytes::none(),
            rule: PhantomData,
        }
    }
}

impl<R: Rule> PartialEq for Checked<R> {
    ghost use Rattle.std.specs.Str.{bytes_eq};
    ghost use Rattle.std.proofs.Common.{rules};
    ghost use Rattle.std.specs.Cmp.Rules.{comparing};

    ghost eq = { bytes_eq };

    ghost laws = { Prim.search (comparing, rules) };

    fn eq(&self, other: &Self) -> bool {
        self.bytes.as_slice() == other.bytes.as_slice()
    }
}

impl<R: Rule> Eq for Checked<R> {
    ghost use Rattle.std.proofs.Common.{rules};
    ghost use Rattle.std.specs.Cmp.Rules.{comparing};

    ghost laws = { Prim.search (comparing, rules) };
}

impl<R: Rule> PartialOrd for Checked<R> {
    ghost use Rattle.std.specs.Prelude.{Some};
    ghost use Rattle.std.specs.Cmp.Lexicographic.{texts_po};
    ghost use Rattle.base.specs.Keyed.{text_cmp};

    ghost partial_cmp = { λ x y. Some (text_cmp x y) };

    ghost laws = { texts_po };

    fn partial_cmp(&self, other: &Self) -> Option<Ordering> {
        Some(self.cmp(other))
    }
}

/// In the order of the bytes.
impl<R: Rule> Ord for Checked<R> {
    ghost use Rattle.std.specs.Prelude.{refl};
    ghost use Rattle.std.specs.Cmp.Lexicographic.{nat_list_cmp_total, texts_ties};
    ghost use Rattle.base.specs.Keyed.{text_cmp};

    ghost cmp = { text_cmp };

    ghost total = { nat_list_cmp_total };

    ghost matches_partial_cmp = { λ x y. refl };

    ghost matches_eq = { texts_ties };

    fn cmp(&self, other: &Self) -> Ordering {
        self.bytes.as_slice().cmp(other.bytes.as_slice())
    }
}

/// The key is the bytes.
impl<R: Rule> Keyed for Checked<R> {
    ghost use Rattle.std.specs.Cmp.Lexicographic.{nat_list_cmp_total};
    ghost use Rattle.base.specs.Keyed.{text_cmp};

    ghost order = { text_cmp };

    ghost ordered = { nat_list_cmp_total };

    fn compare(&self, other: &Self) -> Ordering {
        self.cmp(other)
    }
}

impl<R: Rule> Clone for Checked<R> {
    ghost use Rattle.std.specs.Prelude.{◌≡◌};

    ghost is_clone = { λ checked copy. copy ≡ checked };

    fn clone(&self) -> Result<Self, AllocError> {
        Ok(Checked {
            bytes: self.bytes.duplicate()?,
            rule: PhantomData,
        })
    }
}

impl<R: Rule> Copying for Checked<R> {
    fn duplicate(&self, alloc: Global) -> Result<Self, AllocError> {
        Ok(Checked {
            bytes: self.bytes.duplicate()?,
            rule: PhantomData,
        })
    }
}

impl<R: Rule> Drop for Checked<R> {
    fn drop(self) {
        let Checked {
            bytes: _bytes,
            rule: _rule,
        } = self;
    }
}
