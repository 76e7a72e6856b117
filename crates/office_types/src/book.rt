//! The book of J1939 suspect parameter numbers.
ghost use Rattle.std.specs.Prelude.{◌≡◌, ◌==◌, [], if◌then◌else◌, IsTrue, None, OnOk, OnErr, Some, SomeIff};
ghost use Rattle.std.specs.Ordering.{nat_cmp};
ghost use Rattle.base.specs.Keyed.{put};
ghost use Rattle.office_types.specs.Book.{AreUsed, are_spns, is_spn_number};

use crate::free::is_ascending;
use crate::net_name::NetName;
use crate::team::Team;
use base::{Copying, Items, Keyed, put_item};
use dbc_words::{SPN_LIMIT, Spn};
use std::alloc::{AllocError, Global};
use std::cmp::Ordering;
use std::marker::Model;

/// The J1939 suspect parameter numbers of the whole office.
pub struct SpnBook {
    /// The granted blocks, by network and then by their first number.
    pub blocks: Items<SpnBlock>,
    /// Each number that was ever used.
    pub used: UsedSpns,
}

/// A block of suspect parameter numbers from `first` to `last`, inclusive, of a team on a network.
pub struct SpnBlock {
    /// The network.
    pub net: NetName,
    /// The team.
    pub team: Team,
    /// The least number, at least 1.
    pub first: u32,
    /// The greatest number, at most 524287.
    pub last: u32,
}

/// A suspect parameter number that a signal may be given: 1 to [`SPN_LIMIT`]. Contracts see it as the number.
#[derive(Clone, Copy, PartialEq, Eq)]
pub struct UsableSpn {
    number: u32,
}

impl Model for UsableSpn {
    ghost use Rattle.std.specs.Prelude.{ℕ, IsTrue};
    ghost use Rattle.office_types.specs.Book.{is_spn_number};

    ghost Value = { ℕ };

    ghost view = { λ spn. spn.number };

    ghost invariant = { λ spn. IsTrue (is_spn_number spn.number) };

    ghost inverse = { λ number. record { number = number } };
}

impl UsableSpn {
    /// The number, or `None` where it isn't 1 to [`SPN_LIMIT`].
    pub fn of(number: u32) -> Option<UsableSpn>
        ensures { SomeIff result (IsTrue (is_spn_number number)) number }
    {
        if is_spn_number(number) {
            Some(UsableSpn { number })
        } else {
            None
        }
    }

    /// The number that a signal has, `None` where it has none.
    pub fn of_signal(spn: Spn) -> Option<UsableSpn>
        ensures { result ≡ (if spn == 0 then None else Some spn) }
    {
        let number = spn.number();
        if number == 0 {
            None
        } else {
            Some(UsableSpn { number })
        }
    }

    /// The number as that of a signal.
    pub fn spn(self) -> Spn
        ensures { result ≡ self }
    {
        match Spn::new(self.number) {
            Some(spn) => spn,
            None => unreachable!(),
        }
    }

    /// The number, 1 to [`SPN_LIMIT`].
    pub fn number(self) -> u32
        ensures number { result ≡ self }
        ensures range { IsTrue (is_spn_number self) }
    {
        self.number
    }
}

/// Suspect parameter numbers that were used: ascending, each 1 to [`SPN_LIMIT`]. Contracts see them as the list of
/// them.
pub struct UsedSpns {
    numbers: Items<u32>,
}

impl Model for UsedSpns {
    ghost use Rattle.std.specs.Prelude.{ℕ, List};
    ghost use Rattle.office_types.specs.Book.{AreUsed};

    ghost Value = { List ℕ };

    ghost view = { λ used. used.numbers };

    ghost invariant = { λ used. AreUsed used.numbers };

    ghost inverse = { λ numbers. record { numbers = numbers } };
}

fn is_spn_number(number: u32) -> bool
    ensures { result ≡ is_spn_number number }
{
    1 <= number && number <= SPN_LIMIT
}

fn all_spns(numbers: &[u32]) -> bool
    ensures { result ≡ are_spns numbers.now }
{
    numbers.iter().all(|number| is_spn_number(*number))
}

impl UsedSpns {
    /// No number. Takes no memory.
    pub fn new(alloc: Global) -> UsedSpns
        ensures { result ≡ [] }
    {
        UsedSpns {
            numbers: Items::new(alloc),
        }
    }

    /// These numbers, or `None` where they don't ascend or one of them isn't 1 to [`SPN_LIMIT`]. Takes no memory.
    pub fn of(numbers: Items<u32>) -> Option<UsedSpns>
        ensures { SomeIff result (AreUsed numbers) numbers }
    {
        if is_ascending(numbers.as_slice()) && all_spns(numbers.as_slice()) {
            Some(UsedSpns { numbers })
        } else {
            None
        }
    }

    /// Enters the number where it belongs; one that was used before changes nothing. When memory runs out, nothing
    /// changes.
    pub fn enter(&mut self, spn: UsableSpn) -> Result<(), AllocError>
        ensures ok { OnOk result (self.new ≡ put nat_cmp spn self.old) }
        ensures err { OnErr result (self.new ≡ self.old) }
    {
        put_item(&mut self.numbers, spn.number)
    }

    /// The numbers, in ascending order.
    pub fn as_slice(&self) -> &[u32]
        ensures numbers { result.now ≡ self.now }
        ensures used { AreUsed self.now }
    {
        self.numbers.as_slice()
    }
}

impl Copying for UsedSpns {
    fn duplicate(&self, alloc: Global) -> Result<Self, AllocError> {
        Ok(UsedSpns {
            numbers: self.numbers.duplicate(alloc)?,
        })
    }
}

impl Copying for SpnBlock {
    fn duplicate(&self, alloc: Global) -> Result<Self, AllocError> {
        Ok(SpnBlock {
            net: self.net.duplicate(alloc)?,
            team: self.team.duplicate(alloc)?,
            first: self.first,
            last: self.last,
        })
    }
}

impl Copying for SpnBook {
    fn duplicate(&self, alloc: Global) -> Result<Self, AllocError> {
        Ok(SpnBook {
            blocks: self.blocks.duplicate(alloc)?,
            used: self.used.duplicate(alloc)?,
        })
    }
}

impl Keyed for SpnBlock {
    ghost use Rattle.office_types.specs.Book.{by_net};
    ghost use Rattle.std.specs.Cmp.Lexicographic.{on_texts};
    ghost use Rattle.std.proofs.lemmas.Cmp.{then_total, on_total, nat_cmp_total};

    ghost order = { by_net };

    ghost ordered = { then_total (on_texts (λ b. b.net)) (on_total (λ b. b.first) nat_cmp_total) };

    fn compare(&self, other: &SpnBlock) -> Ordering {
        self.net
            .compare(&other.net)
            .then(self.first.cmp(&other.first))
    }
}

impl Drop for SpnBook {
    fn drop(self) {
        let SpnBook {
            blocks: _blocks,
            used: _used,
        } = self;
    }
}

impl Drop for SpnBlock {
    fn drop(self) {
        let SpnBlock {
            net: _net,
            team: _team,
            first: _first,
            last: _last,
        } = self;
    }
}

impl Drop for UsedSpns {
    fn drop(self) {
        let UsedSpns { numbers: _numbers } = self;
    }
}
