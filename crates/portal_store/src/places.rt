//! Where portals are, by their names.
ghost use Rattle.std.specs.Prelude.{◌≡◌, ◌≢◌, ◌<◌, ℕ, List, true, false, None, IsSome, OnOk};
ghost use Rattle.std.specs.HashMap.{get, spare};
ghost use Rattle.portal_store.specs.Kept.{KnowsAll, knows, same};

use crate::portal::Portal;
use pgs_step::Name;
use std::alloc::{AllocError, Global};
use std::collections::{HashMap, VecDeque};

/// So many portals are found by a walk through them, and their names are not entered.
const FEW: usize = 8;

/// Where the portals of a session are, by their names, in a time that doesn't grow with them.
///
/// Each portal has a serial number, one more than that of the newest one when it was made. Clauses say which names
/// are known. The place is a guess, which is right as long as the numbers rise: who asks looks there.
#[derive(Drop)]
pub(crate) struct Places {
    /// Whether names are entered: from the ninth portal on, until there is none.
    pub(crate) in_use: bool,
    /// The serial number of each name.
    pub(crate) serials: HashMap<Name, usize>,
    /// The serial numbers of the portals, the oldest first.
    order: Vec<usize>,
}

impl Places {
    /// No portal.
    pub(crate) fn new(alloc: Global) -> Places {
        Places {
            in_use: false,
            serials: HashMap::new(alloc),
            order: Vec::new(alloc),
        }
    }

    /// Makes room for one more portal than these, which are entered where they are no longer few.
    pub(crate) fn make_room(&mut self, portals: &VecDeque<Portal>) -> Result<(), AllocError>
        ensures names { KnowsAll self.old portals.now.items → KnowsAll self.new portals.now.items }
        ensures room { OnOk result (self.new.in_use ≡ true → 0 < spare self.new.serials) }
    {
        if self.in_use {
            return self.reserve();
        }
        if portals.len() < FEW {
            return Ok(());
        }
        self.begin(portals)
    }

    /// Enters these portals, the oldest first, with room for one more.
    #[inline(never)]
    fn begin(&mut self, portals: &VecDeque<Portal>) -> Result<(), AllocError>
        requires { self.old.in_use ≡ false }
        ensures names { KnowsAll self.new portals.now.items }
        ensures room { OnOk result (0 < spare self.new.serials) }
    {
        self.order.clear();
        let mut left = portals.len();
        while left > 0 {
            self.reserve()?;
            left -= 1;
            self.note(portals[left].name);
        }
        self.reserve()?;
        self.in_use = true;
        Ok(())
    }

    /// Makes room for one more name.
    fn reserve(&mut self) -> Result<(), AllocError>
        ensures names { (w : List ℕ) → get same self.new.serials w ≡ get same self.old.serials w }
        ensures in_use { self.new.in_use ≡ self.old.in_use }
        ensures room { OnOk result (0 < spare self.new.serials) }
    {
        self.order.reserve(1)?;
        self.serials.reserve(1)
    }

    /// A portal of this name is the newest one, in room that was made.
    pub(crate) fn enter(&mut self, name: Name)
        requires { self.old.in_use ≡ true → 0 < spare self.old.serials }
        ensures entered { IsSome (knows self.new name) }
        ensures others { (w : List ℕ) → IsSome (knows self.old w) → IsSome (knows self.new w) }
    {
        if self.in_use {
            self.note(name);
        }
    }

    /// Enters the name of the newest portal.
    fn note(&mut self, name: Name)
        requires { 0 < spare self.old.serials }
        ensures entered { IsSome (get same self.new.serials name) }
        ensures others { (w : List ℕ) → IsSome (get same self.old.serials w) → IsSome (get same self.new.serials w) }
        ensures in_use { self.new.in_use ≡ self.old.in_use }
    {
        let serial = match self.order.last() {
            Some(newest) => newest.wrapping_add(1),
            None => 0,
        };
        let _ = self.order.push(serial);
        let _ = self.serials.insert(name, serial);
    }

    /// The portal of this name, which was in this place, is there no more.
    pub(crate) fn leave(&mut self, place: usize, name: &Name)
        ensures { (w : List ℕ) → w ≢ name.now → IsSome (knows self.old w) → IsSome (knows self.new w) }
    {
        if self.in_use {
            self.strike(place, name);
            self.in_use = !self.order.is_empty();
        }
    }

    /// Strikes this name, whose portal was in this place.
    fn strike(&mut self, place: usize, name: &Name)
        ensures { (w : List ℕ) → w ≢ name.now → IsSome (get same self.old.serials w) → IsSome (get same self.new.serials w) }
    {
        let _ = self.serials.remove(name);
        if place < self.order.len() {
            let _ = self.order.remove(self.order.len() - 1 - place);
        }
    }

    /// Where to look for the portal of this name, and `None` only where the name isn't known.
    pub(crate) fn guess(&self, name: &Name) -> Option<usize>
        requires { self.now.in_use ≡ true }
        ensures { result ≡ None → knows self.now name.now ≡ None }
    {
        match self.serials.get(name) {
            Some(serial) => Some(self.place_of(*serial)),
            None => None,
        }
    }

    /// The place of the portal of this serial number, where 0 is that of the newest.
    fn place_of(&self, serial: usize) -> usize {
        let Some(newest) = self.order.last() else {
            return 0;
        };
        let place = newest.wrapping_sub(serial);
        if self.is_at(place, serial) {
            return place;
        }
        match self.order.binary_search(&serial) {
            Ok(at) => self.order.len() - 1 - at,
            Err(_) => 0,
        }
    }

    /// Whether the portal of this place has this serial number.
    #[inline]
    fn is_at(&self, place: usize, serial: usize) -> bool {
        place < self.order.len() && self.order[self.order.len() - 1 - place] == serial
    }
}
