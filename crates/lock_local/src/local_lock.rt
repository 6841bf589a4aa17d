//! A lock that the session holds.
ghost use Rattle.std.specs.Prelude.{◌≡◌, ◌==◌, ◌<◌, ◌≤◌, ◌+◌, ◌^◌, not, filter, position, sum_by, All, IsOk, OnOk, OnErr};
ghost use Rattle.smallvec.specs.SmallVec.{HasRoomFor};
ghost use Rattle.lock_shared.specs.Holdings.{same_lock};
ghost use Rattle.lock_local.specs.Locks.{count_if, owner_count, lock_total, is_lock, has_owner, comes_before};
ghost use Rattle.lock_local.specs.Changes.{added, lowered, new_lock, counted_up, counted_down, without, passed_lock};

use pgs_step::Mode;
use smallvec::SmallVec;
use std::alloc::{AllocError, Global};
use std::marker::Model;

/// How often an owner holds a lock: PostgreSQL's `LOCALLOCKOWNER`.
///
/// The owner stands as its number, which no other owner of the session ever has, while its slot is used
/// again.
#[derive(Clone, Copy, Debug, Default)]
pub struct OwnerCount {
    pub owner: u64,
    pub count: u64,
}

/// How many owners a lock keeps in itself; more take memory. Nearly every lock has one, or for a while two.
const OWNERS_INSIDE: usize = 2;

/// The owners of a lock, with their counts.
type Owners = SmallVec<OwnerCount, OWNERS_INSIDE>;

/// A lock that the session holds, with its owners: PostgreSQL's `LOCALLOCK`.
#[derive(Drop)]
pub struct LocalLock {
    object: u32,
    mode: Mode,
    owners: Owners,
}

impl Model for LocalLock {
    ghost use Rattle.std.specs.Prelude.{◌≤◌, ◌^◌, sum_by, All};
    ghost use Rattle.lock_local.specs.Locks.{Lock};

    ghost Value = { Lock };

    ghost view = { λ l. record { object = l.object; mode = l.mode; owners = l.owners.items } };

    ghost invariant = { λ l. (All (λ c. 1 ≤ c.count) l.owners.items) × (sum_by (λ c. c.count) l.owners.items ≤ 2 ^ 62) };
}

impl LocalLock {
    /// A lock that one owner holds once. It takes no memory.
    #[inline]
    pub fn new(alloc: Global, object: u32, mode: Mode, owner: u64) -> LocalLock
        ensures { result ≡ new_lock object mode owner }
    {
        let mut owners = SmallVec::new(alloc);
        owners.push_reserved(OwnerCount { owner, count: 1 });
        LocalLock {
            object,
            mode,
            owners,
        }
    }

    /// The object that is locked.
    #[inline]
    pub fn object(&self) -> u32
        ensures { result ≡ self.now.object }
    {
        self.object
    }

    /// The mode in which it is locked.
    #[inline]
    pub fn mode(&self) -> Mode
        ensures { result ≡ self.now.mode }
    {
        self.mode
    }

    /// Whether it is the lock on that object in that mode.
    #[inline]
    pub fn is(&self, object: u32, mode: Mode) -> bool
        ensures { result ≡ is_lock object mode self.now }
    {
        self.object == object && self.mode.number() == mode.number()
    }

    /// Whether it comes before the lock on that object in that mode.
    #[inline]
    pub fn comes_before(&self, object: u32, mode: Mode) -> bool
        ensures { result ≡ comes_before self.now.object self.now.mode object mode }
    {
        self.object < object || (self.object == object && self.mode.number() < mode.number())
    }

    /// Whether some owner holds it.
    #[inline]
    pub fn has_owner(&self) -> bool
        ensures { result ≡ has_owner self.now }
    {
        !self.owners.is_empty()
    }

    /// How often all owners together hold it.
    pub fn total(&self) -> u64
        ensures { result ≡ lock_total self.now }
    {
        total_of(self.owners.as_slice())
    }

    /// How often the owner holds it.
    pub fn count(&self, owner: u64) -> u64
        ensures { result ≡ owner_count owner self.now }
    {
        count_of(self.owners.as_slice(), owner)
    }

    /// The owner holds it once more. It fails for want of memory alone.
    pub fn count_up(&mut self, owner: u64) -> Result<(), AllocError>
        requires { lock_total self.old < 2 ^ 62 }
        ensures ok { OnOk result (self.new ≡ counted_up owner self.old) }
        ensures err { OnErr result (self.new ≡ self.old) }
    {
        add(&mut self.owners, owner, 1)?;
        Ok(())
    }

    /// The owner holds it once less.
    pub fn count_down(&mut self, owner: u64)
        requires { 0 < owner_count owner self.old }
        ensures { self.new ≡ counted_down owner self.old }
    {
        lower(&mut self.owners, owner);
    }

    /// The owner holds it no more. The result is how often it did.
    #[inline]
    pub fn give_up(&mut self, owner: u64) -> u64
        ensures count { result ≡ owner_count owner self.old }
        ensures after { self.new ≡ without owner self.old }
    {
        let count = count_of(self.owners.as_slice(), owner);
        take_off(&mut self.owners, owner);
        count
    }

    /// What the owner `from` holds of it goes to the owner `to`. The result is how often that was.
    #[inline]
    pub fn pass(&mut self, from: u64, to: u64) -> u64
        ensures count { result ≡ owner_count from self.old }
        ensures after { self.new ≡ passed_lock from to self.old }
    {
        let count = count_of(self.owners.as_slice(), from);
        if count > 0 {
            hand_over(&mut self.owners, from, to, count);
        }
        count
    }
}

/// The sum of all counts.
fn total_of(owners: &[OwnerCount]) -> u64
    requires { sum_by (λ c. c.count) owners.now ≤ 2 ^ 62 }
    ensures { result ≡ sum_by (λ c. c.count) owners.now }
{
    owners.iter().map(|each| each.count).sum()
}

/// The owner's count, and 0 where it has none.
fn count_of(owners: &[OwnerCount], owner: u64) -> u64
    requires { sum_by (λ c. c.count) owners.now ≤ 2 ^ 62 }
    ensures { result ≡ sum_by (count_if owner) owners.now }
{
    let mut count = 0;
    for each in owners {
        if each.owner == owner {
            count += each.count;
        }
    }
    count
}

/// Where the owner's count stands.
fn place_of(owners: &[OwnerCount], owner: u64) -> Option<usize>
    ensures { result ≡ position (λ c. c.owner == owner) owners.now }
{
    owners.iter().position(|each| each.owner == owner)
}

/// Raises the owner's count. Where there is room it takes no memory and doesn't fail.
fn add(owners: &mut Owners, owner: u64, count: u64) -> Result<(), AllocError>
    requires { sum_by (λ c. c.count) owners.old.items + count ≤ 2 ^ 62 }
    ensures ok { OnOk result (owners.new.items ≡ added owner count owners.old.items) }
    ensures err { OnErr result (owners.new.items ≡ owners.old.items) }
    ensures room { HasRoomFor owners.old 1 → IsOk result }
{
    match place_of(owners.as_slice(), owner) {
        Some(at) => owners[at].count += count,
        None => owners.push(OwnerCount { owner, count })?,
    }
    Ok(())
}

/// Lowers the owner's count by one, and takes a count of 1 off.
fn lower(owners: &mut Owners, owner: u64)
    requires counted { All (λ c. 1 ≤ c.count) owners.old.items }
    requires held { 0 < sum_by (count_if owner) owners.old.items }
    ensures { owners.new.items ≡ lowered owner owners.old.items }
{
    if let Some(at) = place_of(owners.as_slice(), owner) {
        if owners[at].count == 1 {
            owners.remove(at);
        } else {
            owners[at].count -= 1;
        }
    }
}

/// Takes the count of `from` off and adds it to that of `to`. It takes no memory, since one entry goes.
#[inline]
fn hand_over(owners: &mut Owners, from: u64, to: u64, count: u64)
    requires fits { sum_by (λ c. c.count) owners.old.items ≤ 2 ^ 62 }
    requires count { count ≡ sum_by (count_if from) owners.old.items }
    requires held { 0 < count }
    ensures { owners.new.items ≡ added to count (filter (λ c. not (c.owner == from)) owners.old.items) }
{
    // It tells the proof that the owners fit in their room.
    let _fits = owners.len();
    take_off(owners, from);
    let _ = add(owners, to, count);
}

/// Takes the owner's count off, and keeps the room.
#[inline]
fn take_off(owners: &mut Owners, owner: u64)
    ensures items { owners.new.items ≡ filter (λ c. not (c.owner == owner)) owners.old.items }
    ensures capacity { owners.new.capacity ≡ owners.old.capacity }
{
    owners.retain(|each| each.owner != owner);
}
