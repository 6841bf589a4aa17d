//! How deep portals reach.
ghost use Rattle.std.specs.Prelude.{◌≡◌, ◌<◌, ◌≤◌, ◌∷◌, [], ℕ, List, length, OnOk, slice_index_or};
ghost use Rattle.std.specs.List.{remove};
ghost use Rattle.std.specs.VecDeque.{deque_len, deque_capacity};
ghost use Rattle.portal_store.specs.Kept.{FallFrom, IsAtMost, IsRaised, IsReach};

use crate::portal::Portal;
use std::alloc::{AllocError, Global};
use std::collections::VecDeque;

/// For each portal, the newest first, a level that neither the portal nor an older one reaches beyond: none of them was made
/// at a deeper level, and none is active in one.
#[derive(Drop)]
pub(crate) struct Reach {
    pub(crate) levels: VecDeque<u32>,
}

impl Reach {
    /// No portal.
    pub(crate) fn new(alloc: Global) -> Reach
        ensures { result.levels.items ≡ [] }
    {
        Reach {
            levels: VecDeque::new(alloc),
        }
    }

    /// Makes room for one more portal.
    pub(crate) fn make_room(&mut self) -> Result<(), AllocError>
        ensures levels { self.new.levels.items ≡ self.old.levels.items }
        ensures room { OnOk result (deque_len self.new.levels < deque_capacity self.new.levels) }
    {
        self.levels.reserve(1)
    }

    /// A portal of this level is the newest one, in room that was made.
    pub(crate) fn enter(&mut self, level: u32)
        requires { deque_len self.old.levels < deque_capacity self.old.levels }
        ensures { (n : ℕ) × (level ≤ n) × (slice_index_or self.old.levels.items 0 0 ≤ n) × (self.new.levels.items ≡ n ∷ self.old.levels.items) }
    {
        let deepest = deeper(level, self.at(0));
        let _ = self.levels.push_front(deepest);
    }

    /// The portal of this place is there no more.
    pub(crate) fn leave(&mut self, place: usize)
        requires { place < length self.old.levels.items }
        ensures { self.new.levels.items ≡ remove self.old.levels.items place }
    {
        if place == 0 {
            let _ = self.levels.pop_front();
            return;
        }
        let _ = self.levels.remove(place);
    }

    /// The portal of this place, and so each newer one, reaches this level.
    pub(crate) fn raise(&mut self, place: usize, to: u32)
        requires there { place < length self.old.levels.items }
        requires falls { FallFrom 0 self.old.levels.items }
        ensures { IsRaised place to self.old.levels.items self.new.levels.items }
    {
        let mut left = place + 1;
        while left > 0 {
            if self.levels[left - 1] >= to {
                return;
            }
            left -= 1;
            self.levels[left] = to;
        }
    }

    /// How many portals, the newest, reach this level.
    pub(crate) fn touched(&self, level: u32) -> usize
        requires { FallFrom 0 self.now.levels.items }
        ensures at_most { result ≤ length self.now.levels.items }
        ensures others { (i e : ℕ) → result ≤ i → i < length self.now.levels.items → slice_index_or self.now.levels.items i e < level }
    {
        let mut count = 0;
        while count < self.levels.len() {
            if self.levels[count] < level {
                return count;
            }
            count += 1;
        }
        count
    }

    /// So many portals, the newest, reach no deeper than what they are now.
    pub(crate) fn settle(&mut self, portals: &VecDeque<Portal>, count: usize)
        requires reach { IsReach portals.now.items self.old.levels.items }
        requires count { count ≤ length portals.now.items }
        ensures { IsReach portals.now.items self.new.levels.items }
    {
        let mut left = count;
        let mut deepest = self.at(count);
        while left > 0 {
            left -= 1;
            deepest = deepened(deepest, &portals[left]);
            self.levels[left] = deepest;
        }
    }

    /// How deep the portals from this place on reach, if there are any.
    fn at(&self, place: usize) -> u32
        ensures { result ≡ slice_index_or self.now.levels.items place 0 }
    {
        match self.levels.get(place) {
            Some(level) => *level,
            None => 0,
        }
    }
}

/// The deeper one of two levels.
pub(crate) fn deeper(level: u32, other: u32) -> u32
    ensures level { level ≤ result }
    ensures other { other ≤ result }
{
    if level < other { other } else { level }
}

/// A level that is no less deep than this one, and that the portal doesn't reach beyond.
fn deepened(level: u32, portal: &Portal) -> u32
    ensures level { level ≤ result }
    ensures portal { IsAtMost result portal.now }
{
    deeper(level, deeper(portal.created, portal.active))
}
