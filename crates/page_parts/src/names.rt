//! Names in ascending order.
ghost use Rattle.std.specs.Prelude.{◌≡◌, [], IfOk, map};
ghost use Rattle.page_parts.specs.Names.{AreAscending, HaveSame, has_name, index_in};

use std::alloc::{AllocError, Global};
use std::marker::Model;

/// Names in ascending order of their bytes, each once. Contracts see them as the list of them.
#[derive(Drop)]
pub struct Names<'a> {
    names: Vec<&'a [u8]>,
}

impl<'a> Model for Names<'a> {
    ghost use Rattle.std.specs.Prelude.{ℕ, List, map};
    ghost use Rattle.page_parts.specs.Names.{AreAscending};

    ghost Value = { List (List ℕ) };

    ghost view = { λ all. map (λ one. one.now) all.names.items };

    ghost invariant = { λ all. AreAscending (map (λ one. one.now) all.names.items) };
}

/// Where the name is among names in ascending order.
fn index_among(names: &[&[u8]], name: &[u8]) -> Option<usize>
    requires { AreAscending (map (λ one. one.now) names.now) }
    ensures { result ≡ index_in (map (λ one. one.now) names.now) name.now }
{
    names.binary_search(&name).ok()
}

/// The names in ascending order, each once.
fn ascending<'a>(names: Vec<&'a [u8]>) -> Result<Vec<&'a [u8]>, AllocError>
    ensures ascending { IfOk result (λ all. AreAscending (map (λ one. one.now) all.items)) }
    ensures same { IfOk result (λ all.
        HaveSame (map (λ one. one.now) all.items) (map (λ one. one.now) names.entry.items)) }
{
    let mut names = names;
    names.sort()?;
    names.dedup();
    Ok(names)
}

impl<'a> Names<'a> {
    /// No names. Takes no memory.
    pub fn none(alloc: Global) -> Names<'a>
        ensures { result ≡ [] }
    {
        Names {
            names: Vec::new(alloc),
        }
    }

    /// These names. The error is out of memory.
    pub fn of(names: Vec<&'a [u8]>) -> Result<Names<'a>, AllocError>
        ensures { IfOk result (λ all. HaveSame all (map (λ one. one.now) names.entry.items)) }
    {
        let names = ascending(names)?;
        Ok(Names { names })
    }

    /// The names, in ascending order.
    pub fn as_slice(&self) -> &[&'a [u8]]
        ensures names { map (λ one. one.now) result.now ≡ self.now }
        ensures ascending { AreAscending self.now }
    {
        &self.names
    }

    /// Where the name is among them, if it is one of them.
    pub fn index_of(&self, name: &[u8]) -> Option<usize>
        ensures { result ≡ index_in self.now name.now }
    {
        index_among(&self.names, name)
    }

    /// Whether the name is one of them.
    pub fn has(&self, name: &[u8]) -> bool
        ensures { result ≡ has_name self.now name.now }
    {
        self.index_of(name).is_some()
    }
}
