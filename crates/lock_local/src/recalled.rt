//! The locks that are remembered for each owner.
ghost use Rattle.std.specs.Prelude.{◌≡◌, ◌==◌, ◌<◌, ◌≤◌, ◌||◌, ◌&&◌, ℕ, true, false, not, if◌then◌else◌, List, Some, None, length, insert, position, count_by, IsTrue, MatchOption, MatchResult};
ghost use Rattle.std.specs.List.{list_any};
ghost use Rattle.std.specs.VecDeque.{deque_len, deque_capacity};
ghost use Rattle.pgs_step.specs.declared.lock_modes.Mode.{Mode};
ghost use Rattle.lock_shared.specs.Holdings.{same_lock};
ghost use Rattle.lock_local.specs.Locks.{Lock, comes_before, count_of};
ghost use Rattle.lock_local.specs.Counts.{HoldsOneMore, HoldsOneLess, HoldsNothing, HoldsBoth};
ghost use Rattle.lock_local.specs.Recalled.{Recall, is_tag, recalls, recall_of as recall_in, IsRising, IsByOwner, Joins, Remembers};
ghost use Rattle.lock_local.specs.OwnerPlaces.{HasOwnerAt, WouldHaveOwnerAt};

use arrayvec::ArrayVec;
use pgs_step::Mode;
use std::collections::VecDeque;
use std::marker::Model;

/// How many locks of an owner are remembered one by one: PostgreSQL's `MAX_RESOWNER_LOCKS`.
pub const MAX_RESOWNER_LOCKS: usize = 15;

/// An object and a mode: PostgreSQL's `LOCALLOCKTAG`.
#[derive(Clone, Copy, Debug)]
pub struct LockTag {
    pub object: u32,
    pub mode: Mode,
}

impl Default for LockTag {
    fn default() -> LockTag {
        LockTag {
            object: 0,
            mode: Mode::AccessShareLock,
        }
    }
}

impl LockTag {
    /// Whether it is the tag of that object and mode.
    pub fn is(&self, object: u32, mode: Mode) -> bool
        ensures { result ≡ is_tag object mode self.now }
    {
        self.object == object && self.mode.number() == mode.number()
    }

    /// Whether it comes before the object and the mode.
    pub fn comes_before(&self, object: u32, mode: Mode) -> bool
        ensures { result ≡ comes_before self.now.object self.now.mode object mode }
    {
        self.object < object || (self.object == object && self.mode.number() < mode.number())
    }
}

/// The locks of one owner, up to 15 of them by their tags: the `locks` of PostgreSQL's `ResourceOwnerData`.
///
/// With the sixteenth lock it is only remembered that there are more, until all of the owner's locks go.
/// Contracts see the tags in the order of object and mode.
#[derive(Drop)]
pub struct OwnerLocks {
    owner: u64,
    tags: ArrayVec<LockTag, MAX_RESOWNER_LOCKS>,
    more: bool,
}

impl Model for OwnerLocks {
    ghost use Rattle.std.specs.Prelude.{◌≡◌, ◌≤◌, true, length};
    ghost use Rattle.lock_local.specs.Recalled.{Recall, IsRising};

    ghost Value = { Recall };

    ghost view = { λ r. record { owner = r.owner; tags = r.tags.items; more = r.more } };

    ghost invariant = { λ r. record { rising : IsRising r.tags.items; full : r.more ≡ true → 15 ≤ length r.tags.items } };
}

impl OwnerLocks {
    /// An owner with one lock.
    pub fn new(owner: u64, object: u32, mode: Mode) -> OwnerLocks
        ensures owner { result.owner ≡ owner }
        ensures some { 0 < length result.tags }
        ensures just { (o : ℕ) (m : Mode) → recalls result o m ≡ same_lock object mode o m }
    {
        let mut tags = ArrayVec::new();
        tags.push(LockTag { object, mode });
        OwnerLocks {
            owner,
            tags,
            more: false,
        }
    }

    /// The owner's number.
    #[inline]
    pub fn owner(&self) -> u64
        ensures { result ≡ self.now.owner }
    {
        self.owner
    }

    /// Whether the owner holds more locks than are remembered.
    pub fn has_more(&self) -> bool
        ensures { result ≡ self.now.more }
    {
        self.more
    }

    /// Whether no lock is remembered.
    fn is_empty(&self) -> bool
        ensures some { result ≡ false → 0 < length self.now.tags }
        ensures none { IsTrue result → (self.now.more ≡ false) × ((o : ℕ) (m : Mode) → recalls self.now o m ≡ false) }
    {
        self.tags.is_empty()
    }

    /// The locks that are remembered, in the order of object and mode.
    pub fn tags(&self) -> &[LockTag]
        ensures tags { result.now ≡ self.now.tags }
        ensures rising { IsRising result.now }
    {
        self.tags.as_slice()
    }

    /// Whether the lock is remembered.
    fn recalls(&self, object: u32, mode: Mode) -> bool
        ensures { result ≡ recalls self.now object mode }
    {
        self.more || has_tag(self.tags.as_slice(), object, mode)
    }

    /// Remembers a lock: PostgreSQL's `ResourceOwnerRememberLock`.
    pub fn note(&mut self, object: u32, mode: Mode)
        ensures owner { self.new.owner ≡ self.old.owner }
        ensures some { 0 < length self.old.tags → 0 < length self.new.tags }
        ensures just { self.new.more ≡ false → (self.old.more ≡ false) × ((o : ℕ) (m : Mode) → recalls self.new o m ≡ (same_lock object mode o m || recalls self.old o m)) }
    {
        if self.recalls(object, mode) {
            return;
        }
        if self.tags.is_full() {
            self.more = true;
            return;
        }
        let place = place_among(self.tags.as_slice(), object, mode);
        self.tags.insert(place, LockTag { object, mode });
    }

    /// Forgets a lock, where there aren't more than are remembered: PostgreSQL's `ResourceOwnerForgetLock`.
    pub fn forget(&mut self, object: u32, mode: Mode)
        ensures owner { self.new.owner ≡ self.old.owner }
        ensures more { self.new.more ≡ self.old.more }
        ensures just { self.new.more ≡ false → (o : ℕ) (m : Mode) → recalls self.new o m ≡ (not (same_lock object mode o m) && recalls self.old o m) }
    {
        if self.more {
            return;
        }
        if let Some(place) = place_of_tag(self.tags.as_slice(), object, mode) {
            self.tags.remove(place);
        }
    }

    /// Remembers all that another one does.
    pub fn take_over(&mut self, other: OwnerLocks)
        ensures owner { self.new.owner ≡ self.old.owner }
        ensures some { 0 < length self.old.tags → 0 < length self.new.tags }
        ensures just { self.new.more ≡ false → (self.old.more ≡ false) × (other.more ≡ false) × ((o : ℕ) (m : Mode) → recalls self.new o m ≡ (recalls other o m || recalls self.old o m)) }
    {
        if other.more {
            *self = other.renamed(self.owner);
        } else {
            self.note_each(other.tags.as_slice());
        }
    }

    fn note_each(&mut self, tags: &[LockTag])
        ensures owner { self.new.owner ≡ self.old.owner }
        ensures some { 0 < length self.old.tags → 0 < length self.new.tags }
        ensures just { self.new.more ≡ false → (self.old.more ≡ false) × ((o : ℕ) (m : Mode) → recalls self.new o m ≡ (list_any (is_tag o m) tags.now || recalls self.old o m)) }
    {
        for tag in tags {
            self.note(tag.object, tag.mode);
        }
    }

    /// Where these are the locks of the one owner, they are remembered for the other.
    #[inline]
    fn rename(&mut self, from: u64, to: u64)
        ensures { self.new ≡ (if self.old.owner == from then record self.old { owner = to } else self.old) }
    {
        if self.owner == from {
            self.owner = to;
        }
    }

    /// The same locks are remembered for another owner.
    #[inline]
    fn renamed(self, owner: u64) -> OwnerLocks
        ensures { result ≡ record self { owner = owner } }
    {
        let OwnerLocks {
            owner: _,
            tags,
            more,
        } = self;
        OwnerLocks { owner, tags, more }
    }
}

/// Whether the tag of the object and the mode is among some.
fn has_tag(tags: &[LockTag], object: u32, mode: Mode) -> bool
    ensures { result ≡ list_any (is_tag object mode) tags.now }
{
    tags.iter().any(|tag| tag.is(object, mode))
}

/// How many tags come before the object and the mode.
fn place_among(tags: &[LockTag], object: u32, mode: Mode) -> usize
    ensures { result ≡ count_by (λ tag. comes_before tag.object tag.mode object mode) tags.now }
{
    tags.iter()
        .filter(|tag| tag.comes_before(object, mode))
        .count()
}

/// Where the tag of the object and the mode stands.
fn place_of_tag(tags: &[LockTag], object: u32, mode: Mode) -> Option<usize>
    ensures { result ≡ position (is_tag object mode) tags.now }
{
    tags.iter().position(|tag| tag.is(object, mode))
}

/// Where the owner stands, or else where it would stand.
fn place_of(recalled: &VecDeque<OwnerLocks>, owner: u64) -> Result<usize, usize>
    requires { IsByOwner recalled.now.items }
    ensures { MatchResult result (λ i. HasOwnerAt owner recalled.now.items i) (λ i. WouldHaveOwnerAt owner recalled.now.items i) }
{
    let at = recalled.partition_point(|recall| recall.owner() < owner);
    if at < recalled.len() && recalled[at].owner() == owner {
        Ok(at)
    } else {
        Err(at)
    }
}

/// What is remembered of an owner's locks.
pub fn recall_of(recalled: &VecDeque<OwnerLocks>, owner: u64) -> Option<&OwnerLocks>
    requires { IsByOwner recalled.now.items }
    ensures { MatchOption result (recall_in recalled.now.items owner ≡ None) (λ recall. recall_in recalled.now.items owner ≡ Some recall.now) }
{
    match place_of(recalled, owner) {
        Ok(at) => Some(&recalled[at]),
        Err(_) => None,
    }
}

/// Puts what is remembered of an owner at its place, where there is room for another owner.
fn put_in(recalled: &mut VecDeque<OwnerLocks>, at: usize, recall: OwnerLocks)
    requires within { at ≤ deque_len recalled.old }
    requires room { deque_len recalled.old < deque_capacity recalled.old }
    ensures { recalled.new.items ≡ insert recalled.old.items at recall }
{
    if at == recalled.len() {
        recalled.push_back_reserved(recall);
        return;
    }
    let _ = recalled.insert(at, recall);
}

/// Remembers a lock that an owner holds once more, where there is room for another owner.
pub fn note(recalled: &mut VecDeque<OwnerLocks>, owner: u64, object: u32, mode: Mode)
    requires by_owner { IsByOwner recalled.old.items }
    requires room { deque_len recalled.old < deque_capacity recalled.old }
    ensures by_owner { IsByOwner recalled.new.items }
    ensures remembers { (xs : List Lock) (ys : List Lock) → Remembers recalled.old.items xs → HoldsOneMore xs ys object mode owner → Remembers recalled.new.items ys }
{
    match place_of(recalled, owner) {
        Ok(at) => {
            let recall = &mut recalled[at];
            recall.note(object, mode);
        }
        Err(at) => put_in(recalled, at, OwnerLocks::new(owner, object, mode)),
    }
}

/// Forgets a lock that an owner holds once less, where it held it just once.
pub fn forget_last(
    recalled: &mut VecDeque<OwnerLocks>,
    count: u64,
    owner: u64,
    object: u32,
    mode: Mode,
)
    requires by_owner { IsByOwner recalled.old.items }
    ensures by_owner { IsByOwner recalled.new.items }
    ensures remembers { (xs : List Lock) (ys : List Lock) → Remembers recalled.old.items xs → count ≡ count_of xs object mode owner → (count ≡ 0 → ys ≡ xs) → (0 < count → HoldsOneLess xs ys object mode owner) → Remembers recalled.new.items ys }
{
    if count == 1 {
        forget(recalled, owner, object, mode);
    }
}

/// Forgets a lock of an owner, and the owner with its last one.
fn forget(recalled: &mut VecDeque<OwnerLocks>, owner: u64, object: u32, mode: Mode)
    requires by_owner { IsByOwner recalled.old.items }
    ensures by_owner { IsByOwner recalled.new.items }
    ensures remembers { (xs : List Lock) (ys : List Lock) → Remembers recalled.old.items xs → HoldsOneLess xs ys object mode owner → count_of xs object mode owner ≡ 1 → Remembers recalled.new.items ys }
{
    let Ok(at) = place_of(recalled, owner) else {
        return;
    };
    let recall = &mut recalled[at];
    recall.forget(object, mode);
    if recall.is_empty() {
        recalled.remove(at);
    }
}

/// What is remembered of an owner's locks, which is forgotten.
pub fn take_out(recalled: &mut VecDeque<OwnerLocks>, owner: u64) -> Option<OwnerLocks>
    requires by_owner { IsByOwner recalled.old.items }
    ensures by_owner { IsByOwner recalled.new.items }
    ensures was { result ≡ recall_in recalled.old.items owner }
    ensures left { (w : ℕ) → recall_in recalled.new.items w ≡ (if owner == w then None else recall_in recalled.old.items w) }
    ensures room { MatchOption result (deque_capacity recalled.new ≡ deque_capacity recalled.old) (λ _. deque_len recalled.new < deque_capacity recalled.new) }
{
    match place_of(recalled, owner) {
        Ok(at) => recalled.remove(at),
        Err(_) => None,
    }
}

/// Forgets all locks of an owner.
pub fn forget_owner(recalled: &mut VecDeque<OwnerLocks>, owner: u64)
    requires by_owner { IsByOwner recalled.old.items }
    ensures by_owner { IsByOwner recalled.new.items }
    ensures remembers { (xs : List Lock) (ys : List Lock) → Remembers recalled.old.items xs → HoldsNothing xs ys owner → Remembers recalled.new.items ys }
{
    let _ = take_out(recalled, owner);
}

/// What is remembered of one owner's locks is remembered for another one. It takes no memory.
pub fn hand_on(recalled: &mut VecDeque<OwnerLocks>, from: u64, to: u64)
    requires by_owner { IsByOwner recalled.old.items }
    ensures by_owner { IsByOwner recalled.new.items }
    ensures remembers { (xs : List Lock) (ys : List Lock) → Remembers recalled.old.items xs → HoldsBoth xs ys from to → Remembers recalled.new.items ys }
{
    if recalled.len() == 1 {
        let only = &mut recalled[0];
        only.rename(from, to);
        return;
    }
    move_on(recalled, from, to);
}

/// The same, where something is perhaps remembered of several owners.
#[inline(never)]
fn move_on(recalled: &mut VecDeque<OwnerLocks>, from: u64, to: u64)
    requires by_owner { IsByOwner recalled.old.items }
    ensures by_owner { IsByOwner recalled.new.items }
    ensures remembers { (xs : List Lock) (ys : List Lock) → Remembers recalled.old.items xs → HoldsBoth xs ys from to → Remembers recalled.new.items ys }
{
    if let Some(recall) = take_out(recalled, from) {
        put_back(recalled, recall.renamed(to));
    }
}

/// Remembers the locks of an owner besides what is remembered for it, where there is room for another owner.
fn put_back(recalled: &mut VecDeque<OwnerLocks>, recall: OwnerLocks)
    requires by_owner { IsByOwner recalled.old.items }
    requires room { deque_len recalled.old < deque_capacity recalled.old }
    ensures by_owner { IsByOwner recalled.new.items }
    ensures both { Joins recall (recall_in recalled.old.items recall.owner) (recall_in recalled.new.items recall.owner) }
    ensures others { (w : ℕ) → (recall.owner == w) ≡ false → recall_in recalled.new.items w ≡ recall_in recalled.old.items w }
{
    match place_of(recalled, recall.owner()) {
        Ok(at) => {
            let other = &mut recalled[at];
            other.take_over(recall);
        }
        Err(at) => put_in(recalled, at, recall),
    }
}
