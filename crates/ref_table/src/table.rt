//! A table of counted references.
ghost use Rattle.std.specs.Prelude.{◌≡◌, ◌≢◌, ◌↔◌, ◌<◌, ◌≤◌, ◌+◌, ◌^◌, ℕ, List, [], length, IsErr, OnOk, OnErr};
ghost use Rattle.std.specs.Ordering.{eq_by_cmp};
ghost use Rattle.std.specs.Set.{distinct_count};
ghost use Rattle.counts.specs.Counts.{total, AreCounts, Tallies};
ghost use Rattle.pgs_step.specs.declared.ids.KindId.{KindId};
ghost use Rattle.ref_table.specs.References.{pair_cmp, references_of, RefersOneMore, RefersOneLess};

use counts::Counts;
use pgs_step::KindId;
use std::alloc::{AllocError, Global};
use std::marker::Model;
use thiserror::Error;

/// Why a reference was not given back.
#[derive(Clone, Copy, Debug, PartialEq, Eq, Error)]
pub enum RefError {
    /// No reference to the key of the class is held.
    #[error("the reference is not held")]
    NotHeld,
}

/// How many references a session holds to each key of a class, as PostgreSQL's reference counts of relations
/// and of catalog entries.
///
/// Contracts see the list of the pairs of class and key to which references are held, each with its count, by
/// class and in a class by key.
#[derive(Drop)]
pub struct RefTable {
    references: Counts<(u8, u32)>,
}

impl Model for RefTable {
    ghost use Rattle.std.specs.Prelude.{ℕ, List};

    ghost Value = { List ((ℕ × ℕ) × ℕ) };

    ghost view = { λ t. t.references };
}

impl RefTable {
    /// No reference is held.
    pub fn new(alloc: Global) -> RefTable
        ensures { result ≡ [] }
    {
        RefTable {
            references: Counts::new(alloc),
        }
    }

    /// Takes one more reference to the key of the class. It fails for want of memory alone.
    pub fn add(&mut self, class: KindId, key: u32) -> Result<(), AllocError>
        requires room { total self.old < 2 ^ 62 }
        ensures added { OnOk result (references_of self.new class key ≡ references_of self.old class key + 1) }
        ensures others { OnOk result ((c : KindId) (k : ℕ) → (c ≡ class → k ≢ key) → references_of self.new c k ≡ references_of self.old c k) }
        ensures counts { OnOk result (RefersOneMore self.old self.new class.0 key) }
        ensures total { OnOk result (total self.new ≡ total self.old + 1) }
        ensures refused { OnErr result (self.new ≡ self.old) }
    {
        self.references.raise((class.0, key))
    }

    /// Gives one reference to the key of the class back. `NotHeld` comes exactly where none is held.
    pub fn drop_ref(&mut self, class: KindId, key: u32) -> Result<(), RefError>
        ensures not_held { IsErr result ↔ (references_of self.old class key ≡ 0) }
        ensures dropped { OnOk result (references_of self.new class key + 1 ≡ references_of self.old class key) }
        ensures others { OnOk result ((c : KindId) (k : ℕ) → (c ≡ class → k ≢ key) → references_of self.new c k ≡ references_of self.old c k) }
        ensures counts { OnOk result (RefersOneLess self.old self.new class.0 key) }
        ensures total { OnOk result (total self.new + 1 ≡ total self.old) }
        ensures refused { OnErr result (self.new ≡ self.old) }
    {
        match self.references.lower((class.0, key)) {
            Some(_) => Ok(()),
            None => Err(RefError::NotHeld),
        }
    }

    /// Facts of every table, for proofs. It does nothing.
    pub fn laws(&self)
        ensures counts { AreCounts pair_cmp self.now }
        // of any list in which each pair stands as often as references to it are held, the number of different ones
        ensures different { (pairs : List (ℕ × ℕ)) → Tallies pair_cmp pairs self.now → length self.now ≡ distinct_count (eq_by_cmp pair_cmp) pairs }
    {
        self.references.laws();
    }

    /// To how many different pairs of class and key references are held.
    pub fn distinct(&self) -> u64
        ensures entries { result ≡ length self.now }
        ensures counts { AreCounts pair_cmp self.now }
        // of any list in which each pair stands as often as references to it are held, the number of different ones
        ensures different { (pairs : List (ℕ × ℕ)) → Tallies pair_cmp pairs self.now → result ≡ distinct_count (eq_by_cmp pair_cmp) pairs }
    {
        self.references.distinct()
    }
}
