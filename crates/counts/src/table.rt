//! A table of counts.
ghost use Rattle.std.specs.Prelude.{◌≡◌, ◌<◌, ◌≤◌, ◌+◌, ◌-◌, ◌^◌, false, List, [], length, MatchOption, IfSome, IfNone, OnSome, OnOk, OnErr};
ghost use Rattle.std.specs.BTreeMap.{is_at};
ghost use Rattle.counts.specs.Counts.{count_of, total, AreCounts, Tallies};
ghost use Rattle.std.specs.Ordering.{eq_by_cmp};
ghost use Rattle.std.specs.Set.{distinct_count};

use std::alloc::{AllocError, Global};
use std::collections::HashMap;
use std::hash::Hash;
use std::marker::Model;

/// How often each key counts. A key is found by its hash, and one that doesn't count has no entry.
///
/// Contracts see the list of the entries in the order of the keys: each key that counts, with its count.
#[derive(Drop)]
pub struct Counts<K: Ord + Hash> {
    counts: HashMap<K, u64>,
}

impl<K: Ord + Hash> Model for Counts<K> {
    ghost use Rattle.std.specs.Prelude.{ℕ, ◌≤◌, List, All};
    ghost use Rattle.std.specs.HashMap.{values};
    ghost use Rattle.counts.specs.Counts.{in_order};

    ghost Value = { List (K × ℕ) };

    ghost view = { λ t. in_order K.cmp t.counts.entries };

    ghost invariant = { λ t. All (λ n. 1 ≤ n) (values t.counts) };
}

impl<K: Ord + Hash + Copy> Counts<K> {
    /// A table in which no key counts.
    pub fn new(alloc: Global) -> Counts<K>
        ensures empty { result ≡ [] }
    {
        Counts {
            counts: HashMap::new(alloc),
        }
    }

    /// How often a key counts.
    pub fn count(&self, key: K) -> u64
        ensures count { result ≡ count_of K.cmp self.now key }
        ensures within { result ≤ total self.now }
    {
        self.counts.get(&key).copied().unwrap_or(0)
    }

    /// Counts a key once more. It fails for want of memory alone.
    pub fn raise(&mut self, key: K) -> Result<(), AllocError>
        requires room { count_of K.cmp self.old key < 2 ^ 64 - 1 }
        ensures counted { OnOk result (count_of K.cmp self.new key ≡ count_of K.cmp self.old key + 1) }
        ensures others { OnOk result ((q : K) → is_at (K.cmp key) q ≡ false → count_of K.cmp self.new q ≡ count_of K.cmp self.old q) }
        ensures total { OnOk result (total self.new ≡ total self.old + 1) }
        ensures refused { OnErr result (self.new ≡ self.old) }
    {
        if let Some(count) = self.counts.get_mut(&key) {
            *count += 1;
            return Ok(());
        }
        self.counts.insert(key, 1)?;
        Ok(())
    }

    /// Counts a key once less, and answers how often it still counts; `None` exactly where it didn't count.
    pub fn lower(&mut self, key: K) -> Option<u64>
        ensures left { MatchOption result (count_of K.cmp self.old key ≡ 0) (λ left. count_of K.cmp self.old key ≡ left + 1) }
        ensures counted { count_of K.cmp self.new key ≡ count_of K.cmp self.old key - 1 }
        ensures others { (q : K) → is_at (K.cmp key) q ≡ false → count_of K.cmp self.new q ≡ count_of K.cmp self.old q }
        ensures total { OnSome result (total self.new + 1 ≡ total self.old) }
        ensures none { IfNone result (self.new ≡ self.old) }
    {
        let count = self.counts.get_mut(&key)?;
        let left = *count - 1;
        if left > 0 {
            *count = left;
            return Some(left);
        }
        self.counts.remove(&key);
        Some(0)
    }

    /// Facts of every table, for proofs. It does nothing.
    pub fn laws(&self)
        ensures counts { AreCounts K.cmp self.now }
        // of any list in which each key stands as often as it counts, the number of different keys
        ensures different { (keys : List K) → Tallies K.cmp keys self.now → length self.now ≡ distinct_count (eq_by_cmp K.cmp) keys }
    {
        let _ = self.counts.len();
    }

    /// How many keys count.
    pub fn distinct(&self) -> u64
        ensures entries { result ≡ length self.now }
        ensures counts { AreCounts K.cmp self.now }
        // of any list in which each key stands as often as it counts, the number of different keys
        ensures different { (keys : List K) → Tallies K.cmp keys self.now → result ≡ distinct_count (eq_by_cmp K.cmp) keys }
    {
        self.counts.len() as u64
    }
}
