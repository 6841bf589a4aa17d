//! The portals of a session.
ghost use Rattle.std.specs.Prelude.{◌≡◌, ◌↔◌, ◌<◌, ◌≤◌, ℕ, List, All, length, map, drop, slice_get, slice_index_or, slice_set, [], ◌∷◌, Some, OnOk, OnErr, OnSome, IfOk, IfSome, IsSome, IsNone, IsTrue, is_some, option_copied, option_and_then};
ghost use Rattle.std.specs.List.{remove};
ghost use Rattle.std.specs.VecDeque.{deque_len};
ghost use Rattle.exec_core.specs.Turn.{IsScan, rest, taken};
ghost use Rattle.portal_store.specs.Portal.{coming, to_parent, sub_aborted, moved_owner};
ghost use Rattle.portal_store.specs.Kept.{IsReach};
ghost use Rattle.portal_store.specs.Portals.{place_named, portal_named, new_portal, changed, without, HasDistinctNames};

use crate::places::Places;
use crate::portal::{Portal, PortalError, PortalState};
use crate::reach::{Reach, deeper};
use exec_core::{Scan, ScanStep};
use pgs_step::{CtxId, Name, OwnerId};
use std::alloc::Global;
use std::collections::VecDeque;
use std::marker::Model;

/// The most portals that a session has at once.
pub const MAX_PORTALS: usize = 1024;

/// The portals of one session, of which there are at most 1,024, no two with one name.
///
/// Contracts see the list of the portals, newest first. Only `create` may take memory. Of more than eight, a portal is
/// found by its name in a time that doesn't grow with the others; where one ends, those on its shorter side move up.
#[derive(Drop)]
pub struct Portals {
    portals: VecDeque<Portal>,
    places: Places,
    reach: Reach,
}

impl Model for Portals {
    ghost use Rattle.std.specs.Prelude.{List};
    ghost use Rattle.portal_store.specs.declared.portal.Portal.{Portal as APortal};

    ghost Value = { List APortal };

    ghost view = { λ p. p.portals.items };

    ghost use Rattle.portal_store.specs.Kept.{IsKept, knows};

    ghost invariant = { λ p. IsKept p.portals.items (knows p.places) p.reach.levels.items };
}

impl Portals {
    /// No portal.
    pub fn new(alloc: Global) -> Portals
        ensures { result ≡ [] }
    {
        Portals {
            portals: VecDeque::new(alloc),
            places: Places::new(alloc),
            reach: Reach::new(alloc),
        }
    }

    /// Makes a portal at this level. It is new, and has no context and no owner yet.
    ///
    /// It answers `Taken` exactly where the name is live, and else `TooMany` exactly where there are 1,024
    /// portals.
    pub fn create(&mut self, name: Name, scan: Scan, level: u32) -> Result<(), PortalError>
        ensures created { OnOk result (self.new ≡ new_portal name scan level ∷ self.old) }
        ensures taken { (result ≡ Err PortalError.Taken) ↔ IsSome (portal_named name self.old) }
        ensures too_many { (result ≡ Err PortalError.TooMany) ↔ (IsNone (portal_named name self.old) × (length self.old ≡ 1024)) }
        ensures err { OnErr result (self.new ≡ self.old) }
    {
        if self.is_live(&name) {
            return Err(PortalError::Taken);
        }
        if self.portals.len() == MAX_PORTALS {
            return Err(PortalError::TooMany);
        }
        if self.places.make_room(&self.portals).is_err() {
            return Err(PortalError::Memory);
        }
        if self.reach.make_room().is_err() {
            return Err(PortalError::Memory);
        }
        let portal = Portal {
            name,
            context: None,
            expr: None,
            owner: None,
            scan,
            created: level,
            active: level,
            state: PortalState::New,
        };
        if self.portals.push_front(portal).is_err() {
            return Err(PortalError::Memory);
        }
        self.places.enter(name);
        self.reach.enter(level);
        Ok(())
    }

    /// The portal of that name.
    pub fn get(&self, name: &Name) -> Option<&Portal>
        ensures { option_copied result ≡ portal_named name.now self.now }
    {
        match self.place_of(name) {
            Some(place) => self.at(place),
            None => None,
        }
    }

    /// Puts a portal in the place of the one that has its name.
    pub fn put(&mut self, portal: Portal)
        requires { IsSome (portal_named portal.name self.old) }
        ensures { self.new ≡ changed portal.name (λ old. portal) self.old }
    {
        let place = self.place(&portal.name);
        let to = deeper(portal.created, portal.active);
        self.reach.raise(place, to);
        self.portals[place] = portal;
    }

    /// The next step of the scan of the portal of that place, which stands behind it then.
    ///
    /// Where a turn begins, one that was left in the middle begins anew.
    #[inline]
    pub fn step_at(&mut self, place: usize, begins: bool) -> ScanStep
        requires there { place < length self.old }
        requires scan { IfSome (slice_get self.old place) (λ p. IsScan p.scan) }
        ensures step { IfSome (slice_get self.old place) (λ p. coming begins p.scan ≡ result ∷ rest result (taken result p.scan)) }
        ensures portals { (name : List ℕ) → place_named name self.old ≡ Some place → self.new ≡ changed name (λ p. record p { scan = taken result p.scan }) self.old }
        ensures scan { IfSome (slice_get self.old place) (λ p. IsScan (taken result p.scan)) }
        ensures distinct { HasDistinctNames self.old }
    {
        self.portals[place].step(begins)
    }

    /// The portal of that name has this context.
    pub fn set_context(&mut self, name: &Name, context: CtxId)
        requires { IsSome (portal_named name.now self.old) }
        ensures portals { self.new ≡ changed name.now (λ p. record p { context = Some context }) self.old }
        ensures distinct { HasDistinctNames self.old }
    {
        let place = self.place(name);
        self.portals[place].context = Some(context);
    }

    /// The portal of that name has this context for one row.
    pub fn set_expr(&mut self, name: &Name, expr: CtxId)
        requires { IsSome (portal_named name.now self.old) }
        ensures portals { self.new ≡ changed name.now (λ p. record p { expr = Some expr }) self.old }
        ensures distinct { HasDistinctNames self.old }
    {
        let place = self.place(name);
        self.portals[place].expr = Some(expr);
    }

    /// The portal of that name has this owner.
    pub fn set_owner(&mut self, name: &Name, owner: OwnerId)
        requires { IsSome (portal_named name.now self.old) }
        ensures portals { self.new ≡ changed name.now (λ p. record p { owner = Some owner }) self.old }
        ensures distinct { HasDistinctNames self.old }
    {
        let place = self.place(name);
        self.portals[place].owner = Some(owner);
    }

    /// The portal of that place is active in the level of this number.
    pub fn set_active_at(&mut self, place: usize, active: u32)
        requires { place < length self.old }
        ensures portals { (name : List ℕ) → place_named name self.old ≡ Some place → self.new ≡ changed name (λ p. record p { active = active }) self.old }
        ensures distinct { HasDistinctNames self.old }
    {
        self.reach.raise(place, active);
        self.portals[place].active = active;
    }

    /// The portal of that name is so far.
    pub fn set_state(&mut self, name: &Name, state: PortalState)
        requires { IsSome (portal_named name.now self.old) }
        ensures portals { self.new ≡ changed name.now (λ p. record p { state = state }) self.old }
        ensures distinct { HasDistinctNames self.old }
    {
        let place = self.place(name);
        self.portals[place].state = state;
    }

    /// How many portals there are.
    pub fn len(&self) -> usize
        ensures length { result ≡ length self.now }
        ensures at_most { length self.now ≤ 1024 }
        ensures distinct { HasDistinctNames self.now }
    {
        self.portals.len()
    }

    /// Whether there is no portal.
    pub fn is_empty(&self) -> bool
        ensures { IsTrue result ↔ (self.now ≡ []) }
    {
        self.portals.is_empty()
    }

    /// Where the portal of that name is, if there is one: 0 is the place of the newest.
    #[inline]
    pub fn place_of(&self, name: &Name) -> Option<usize>
        ensures { result ≡ place_named name.now self.now }
    {
        if self.is_at(0, name) {
            return Some(0);
        }
        self.find(name)
    }

    /// The same of one that need not be the newest.
    #[inline(never)]
    fn find(&self, name: &Name) -> Option<usize>
        ensures { result ≡ place_named name.now self.now }
    {
        if !self.places.in_use {
            return self.search(name);
        }
        let guess = match self.places.guess(name) {
            Some(guess) => guess,
            None => return None,
        };
        if self.is_at(guess, name) {
            return Some(guess);
        }
        self.search(name)
    }

    /// The portal of that place, where 0 is the newest.
    #[inline]
    pub fn at(&self, i: usize) -> Option<&Portal>
        ensures { option_copied result ≡ slice_get self.now i }
    {
        self.portals.get(i)
    }

    /// The subtransaction of this level has committed: what was created at it, or active at it, is so now at
    /// the level before.
    pub fn to_parent(&mut self, level: u32)
        requires { 2 ≤ level }
        ensures { self.new ≡ map (to_parent level) self.old }
    {
        to_parent(self.portals.make_contiguous(), level);
    }

    /// The subtransaction of this level has committed: what that means for the portal of place `i`.
    pub fn pass_at(&mut self, i: usize, level: u32)
        requires there { i < length self.old }
        requires level { 0 < level }
        ensures { IfSome (slice_get self.old i) (λ portal. self.new ≡ slice_set self.old i (to_parent level portal)) }
    {
        self.portals[i].to_parent(level);
    }

    /// How many portals, the newest, the end of this level may be about: no other one was made in it or in a deeper one, and
    /// none is active there.
    pub fn touched(&self, level: u32) -> usize
        ensures at_most { result ≤ length self.now }
        ensures others { All (λ p. (p.created < level) × (p.active < level)) (drop result self.now) }
    {
        self.reach.touched(level)
    }

    /// So many portals, the newest, were dealt with at the end of a level, and the next one needn't look at them.
    pub fn settle(&mut self, count: usize)
        requires { count ≤ length self.old }
        ensures { self.new ≡ self.old }
    {
        self.reach.settle(&self.portals, count);
    }

    /// The subtransaction of this level is being aborted: what that means for the portal of place `i`.
    ///
    /// It gives the portal's owner where that has to move to the level's owner: exactly where the portal has
    /// failed and has an owner, was created before the level and is active at it.
    pub fn sub_abort(&mut self, i: usize, level: u32) -> Option<OwnerId>
        requires { i < length self.old }
        ensures portal { IfSome (slice_get self.old i) (λ portal. self.new ≡ slice_set self.old i (sub_aborted level portal)) }
        ensures moved { result ≡ option_and_then (moved_owner level) (slice_get self.old i) }
    {
        self.portals[i].sub_abort(level)
    }

    /// Takes the portal of that name out.
    pub fn take_out(&mut self, name: &Name) -> Option<Portal>
        ensures taken { result ≡ portal_named name.now self.old }
        ensures others { self.new ≡ without name.now self.old }
    {
        let place = self.place_of(name)?;
        self.places.leave(place, name);
        self.reach.leave(place);
        remove_at(&mut self.portals, place)
    }

    /// Whether there is a portal of that name.
    fn is_live(&self, name: &Name) -> bool
        ensures { result ≡ is_some (portal_named name.now self.now) }
    {
        self.get(name).is_some()
    }

    /// Whether the portal of that place has that name.
    #[inline]
    fn is_at(&self, place: usize, name: &Name) -> bool
        ensures { IsTrue result → place_named name.now self.now ≡ Some place }
    {
        match self.portals.get(place) {
            Some(portal) => portal.name == *name,
            None => false,
        }
    }

    /// The place of the portal of that name, by a walk through all of them.
    fn search(&self, name: &Name) -> Option<usize>
        ensures { result ≡ place_named name.now self.now }
    {
        self.portals.iter().position(|portal| portal.name == *name)
    }

    /// Where the portal of that name is, which is there.
    #[inline]
    fn place(&self, name: &Name) -> usize
        requires { IsSome (portal_named name.now self.now) }
        ensures { place_named name.now self.now ≡ Some result }
    {
        match self.place_of(name) {
            Some(place) => place,
            None => unreachable!(),
        }
    }
}

/// Takes the portal of this place out.
fn remove_at(portals: &mut VecDeque<Portal>, place: usize) -> Option<Portal>
    ensures portal { IfSome result (λ p. p ≡ slice_index_or portals.old.items place p) }
    ensures others { OnSome result (portals.new.items ≡ remove portals.old.items place) }
    ensures some { place < deque_len portals.old → IsSome result }
{
    if place == 0 {
        return portals.pop_front();
    }
    portals.remove(place)
}

/// Lowers the levels of each portal.
fn to_parent(portals: &mut [Portal], level: u32)
    requires { 0 < level }
    ensures { portals.new ≡ map (to_parent level) portals.old }
{
    for portal in portals.iter_mut() {
        portal.to_parent(level);
    }
}
