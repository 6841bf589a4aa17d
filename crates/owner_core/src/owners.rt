//! The resource owners of a session.
ghost use Rattle.std.specs.Prelude.{◌≡◌, ◌↔◌, ◌≢◌, ℕ, ◌+◌, ◌<◌, ◌≤◌, ◌^◌, true, false, List, [], ◌∷◌, find, All, IsTrue, IsOk, IfOk, IfSome, OnOk, OnErr, None};
ghost use Rattle.std.specs.Option.{option_map, ok_or};
ghost use Rattle.pgs_step.specs.declared.ids.KindId.{KindId as Kind};
ghost use Rattle.pgs_step.specs.declared.events.What.{What};
ghost use Rattle.forest.specs.Forest.{Empty, has, at, children, size, parent_of, is_above, removed, moved};
ghost use Rattle.owner_kinds.specs.KindTable.{IsKind};
ghost use Rattle.owner_items.specs.ItemList.{is_of};
ghost use Rattle.owner_core.specs.Owners.{OwnerTable, owners_of, IsLive, items_of, has_begun, spare_of, created, entered, remembered, forgotten, held, subtree_of, AllAt, HoldsNothing};
ghost use Rattle.owner_core.specs.Sound.{IsSoundTable};
ghost use Rattle.owner_core.specs.Released.{released};
ghost use Rattle.owner_core.specs.Steps.{release_steps, gone_events, made_event};

use crate::discard_tree::discard_tree;
use crate::errors::OwnerError;
use crate::node::Node;
use crate::place::{insert, node_at};
use crate::release_tree::{How, release_tree};
use crate::table::Release;
use forest::LinkedForest;
use owner_items::Items;
use pgs_step::{Emit, Item, KindId, OwnerId, Phase, What};
use std::alloc::Global;
use std::marker::Model;

/// The most owners that live at a time.
pub const MOST_OWNERS: usize = 65_536;

/// The resource owners of a session, each with the items that it remembers: PostgreSQL's `ResourceOwner`.
///
/// Contracts see them as a tree by their numbers, the newest child first. A number is never given again.
#[derive(Drop)]
pub struct Owners {
    alloc: Global,
    nodes: LinkedForest<Node>,
    /// The rooms that owners which are gone have left for the next ones.
    left: Vec<Items>,
    next_owner: u64,
    next_serial: u64,
}

impl Model for Owners {
    ghost use Rattle.owner_core.specs.Owners.{OwnerTable, tree_of};
    ghost use Rattle.owner_core.specs.Sound.{IsSound, AreGiven};

    ghost Value = { OwnerTable };

    ghost use Rattle.owner_core.specs.TableCode.{owner_table_code};

    ghost coded = { owner_table_code };

    ghost view = { λ o. record { rooms = o.nodes.forest; places = o.nodes.places; next_owner = o.next_owner; next_serial = o.next_serial } };

    ghost invariant = { λ o. IsSound (tree_of o.nodes.forest) o.next_owner o.next_serial × AreGiven o.next_owner o.nodes.places };
}

impl Owners {
    /// No owner. The first that is made gets the number 1, and so does the first item.
    pub fn new(alloc: Global) -> Owners
        ensures { result ≡ record { rooms = Empty; places = Empty; next_owner = 1; next_serial = 1 } }
    {
        Owners {
            alloc,
            nodes: LinkedForest::new(alloc),
            left: Vec::new(alloc),
            next_owner: 1,
            next_serial: 1,
        }
    }

    /// Makes an owner, the first of its parent's children or of the owners without a parent:
    /// PostgreSQL's `ResourceOwnerCreate`.
    ///
    /// `TooMany` comes where `MOST_OWNERS` live, `Memory` where memory is refused.
    pub fn create<E: Emit>(
        &mut self,
        parent: Option<OwnerId>,
        out: &mut E,
    ) -> Result<OwnerId, OwnerError>
        requires room { self.old.next_owner < 2 ^ 62 }
        requires parent { IfSome parent (IsLive self.old) }
        ensures number { IfOk result (λ owner. owner.number ≡ self.old.next_owner) }
        ensures live { IfOk result (IsLive self.new) }
        ensures stays { OnOk result ((other : OwnerId) → IsLive self.old other → IsLive self.new other) }
        ensures older { (other : OwnerId) → IsLive self.old other → other.number < self.old.next_owner }
        ensures owners { OnOk result (owners_of self.new ≡ created (option_map (λ p. p.number) parent) self.old.next_owner (owners_of self.old)) }
        ensures places { IfOk result (λ owner. self.new.places ≡ entered (option_map (λ p. p.number) parent) owner.number owner.slot self.old.places) }
        ensures next_owner { OnOk result (self.new.next_owner ≡ self.old.next_owner + 1) }
        ensures next_serial { self.new.next_serial ≡ self.old.next_serial }
        ensures emits { OnOk result (E.emits out.old (made_event (option_map (λ p. p.number) parent) self.old.next_owner ∷ []) out.new) }
        ensures others { (other : ℕ) → other ≢ self.old.next_owner → spare_of other self.new ≡ spare_of other self.old }
        ensures fresh { has self.old.next_owner (owners_of self.old) ≡ false }
        ensures too_many { (result ≡ Err OwnerError.TooMany) ↔ (MOST_OWNERS ≤ size (owners_of self.old)) }
        ensures refused { OnErr result (self.new ≡ self.old) }
        ensures silent { OnErr result (out.new ≡ out.old) }
        ensures causes { OnErr result ((result ≢ Err OwnerError.Releasing) × (result ≢ Err OwnerError.NotOwned)) }
    {
        if self.nodes.len() >= MOST_OWNERS {
            return Err(OwnerError::TooMany);
        }
        let number = self.next_owner;
        let node = Node::new(self.alloc, &mut self.left);
        let Some(owner) = insert(&mut self.nodes, parent, number, node) else {
            return Err(OwnerError::Memory);
        };
        self.next_owner += 1;
        out.emit(made(parent, number));
        Ok(owner)
    }

    /// Makes room for one more item of the owner, which `remember` then needs: `ResourceOwnerEnlarge`.
    ///
    /// `Releasing` comes where the owner's release has begun, `Memory` where memory is refused, or where
    /// the owner has more than 2^40 items and their table has to be made anew.
    pub fn enlarge(&mut self, owner: OwnerId) -> Result<(), OwnerError>
        requires live { IsLive self.old owner }
        ensures spare { OnOk result (1 ≤ spare_of owner.number self.new) }
        ensures others { (other : ℕ) → other ≢ owner.number → spare_of other self.new ≡ spare_of other self.old }
        ensures owners { owners_of self.new ≡ owners_of self.old }
        ensures places { self.new.places ≡ self.old.places }
        ensures next_owner { self.new.next_owner ≡ self.old.next_owner }
        ensures next_serial { self.new.next_serial ≡ self.old.next_serial }
        ensures releasing { (result ≡ Err OwnerError.Releasing) ↔ (has_begun owner.number (owners_of self.old) ≡ true) }
        ensures refused { OnErr result (self.new ≡ self.old) }
        ensures not_too_many { result ≢ Err OwnerError.TooMany }
        ensures not_owned { result ≢ Err OwnerError.NotOwned }
    {
        self.nodes.get_mut(node_at(owner)).enlarge()
    }

    /// For how many more items of the owner there is room.
    pub fn spare(&self, owner: OwnerId) -> usize
        requires live { IsLive self.now owner }
        ensures spare { result ≡ spare_of owner.number self.now }
        ensures sound { IsSoundTable self.now }
    {
        self.nodes.get(node_at(owner)).spare()
    }

    /// The owner remembers an item, in room that `enlarge` has made: `ResourceOwnerRemember`.
    ///
    /// The item gets the next serial number.
    pub fn remember<E: Emit>(&mut self, owner: OwnerId, kind: KindId, key: u32, out: &mut E)
        requires live { IsLive self.old owner }
        requires spare { 1 ≤ spare_of owner.number self.old }
        requires not_begun { has_begun owner.number (owners_of self.old) ≡ false }
        requires serial { self.old.next_serial < 2 ^ 62 }
        ensures spare { spare_of owner.number self.old ≤ spare_of owner.number self.new + 1 }
        ensures others { (other : ℕ) → other ≢ owner.number → spare_of other self.new ≡ spare_of other self.old }
        ensures owners { owners_of self.new ≡ remembered owner.number (record { kind = kind; key = key; serial = self.old.next_serial }) (owners_of self.old) }
        ensures places { self.new.places ≡ self.old.places }
        ensures next_owner { self.new.next_owner ≡ self.old.next_owner }
        ensures next_serial { self.new.next_serial ≡ self.old.next_serial + 1 }
        ensures emits { E.emits out.old (What.Acquire (record { kind = kind; key = key; serial = self.old.next_serial }) owner.number ∷ []) out.new }
    {
        let item = Item {
            kind,
            key,
            serial: self.next_serial,
        };
        self.nodes.get_mut(node_at(owner)).remember(item);
        self.next_serial += 1;
        out.emit(What::Acquire {
            item,
            owner: owner.number,
        });
    }

    /// The owner forgets the newest item of this kind and key: `ResourceOwnerForget`.
    ///
    /// `Releasing` comes where the owner's release has begun, else `NotOwned` where it has no such item.
    pub fn forget<E: Emit>(
        &mut self,
        owner: OwnerId,
        kind: KindId,
        key: u32,
        out: &mut E,
    ) -> Result<Item, OwnerError>
        requires live { IsLive self.old owner }
        ensures item { has_begun owner.number (owners_of self.old) ≡ false → result ≡ ok_or (find (is_of kind key) (items_of owner.number (owners_of self.old))) OwnerError.NotOwned }
        ensures releasing { has_begun owner.number (owners_of self.old) ≡ true → result ≡ Err OwnerError.Releasing }
        ensures others { (other : ℕ) → other ≢ owner.number → spare_of other self.new ≡ spare_of other self.old }
        ensures owners { OnOk result (owners_of self.new ≡ forgotten owner.number kind key (owners_of self.old)) }
        ensures places { self.new.places ≡ self.old.places }
        ensures next_owner { self.new.next_owner ≡ self.old.next_owner }
        ensures next_serial { self.new.next_serial ≡ self.old.next_serial }
        ensures emits { IfOk result (λ item. E.emits out.old (What.Release item owner.number ∷ []) out.new) }
        ensures refused { OnErr result (self.new ≡ self.old) }
        ensures silent { OnErr result (out.new ≡ out.old) }
    {
        let item = match self.nodes.get_mut(node_at(owner)).forget(kind, key) {
            Ok(item) => item,
            Err(error) => return Err(error),
        };
        out.emit(What::Release {
            item,
            owner: owner.number,
        });
        Ok(item)
    }

    /// The owner, with all below it, becomes the first child of another one, which must not be below it:
    /// `ResourceOwnerNewParent`.
    pub fn new_parent<E: Emit>(&mut self, owner: OwnerId, parent: OwnerId, out: &mut E)
        requires live { IsLive self.old owner }
        requires parent { IsLive self.old parent }
        requires other { parent.number ≢ owner.number }
        requires apart { is_above owner.number parent.number (owners_of self.old) ≡ false }
        ensures owners { owners_of self.new ≡ moved owner.number parent.number (owners_of self.old) }
        ensures places { self.new.places ≡ moved owner.number parent.number self.old.places }
        ensures stays { (other : OwnerId) → IsLive self.old other → IsLive self.new other }
        ensures next_owner { self.new.next_owner ≡ self.old.next_owner }
        ensures next_serial { self.new.next_serial ≡ self.old.next_serial }
        ensures emits { E.emits out.old (What.MoveOwner owner.number parent.number ∷ []) out.new }
    {
        self.nodes.move_to(node_at(owner), node_at(parent));
        out.emit(What::MoveOwner {
            owner: owner.number,
            parent: parent.number,
        });
    }

    /// Whether the owner holds nothing and no owner is below it.
    #[inline(always)]
    pub fn is_bare(&self, owner: OwnerId) -> bool
        requires live { IsLive self.now owner }
        ensures items { result ≡ true → items_of owner.number (owners_of self.now) ≡ [] }
        ensures below { result ≡ true → children owner.number (owners_of self.now) ≡ Empty }
        ensures whole { items_of owner.number (owners_of self.now) ≡ [] → children owner.number (owners_of self.now) ≡ Empty → result ≡ true }
    {
        let node = node_at(owner);
        self.nodes.first_child(node).is_none() && self.nodes.get(node).items.len() == 0
    }

    /// Releases a phase of the owner and of all below it: `ResourceOwnerRelease`.
    ///
    /// `top` says that the owner is the topmost one. Its call for the phase of locks then releases all locks
    /// of the session at once; else locks go to the parent at commit and are released at abort. At commit
    /// each item's release stands behind its warning. It takes no memory.
    #[inline(always)]
    pub fn release<R: Release, E: Emit>(
        &mut self,
        owner: OwnerId,
        phase: Phase,
        commit: bool,
        top: bool,
        table: &mut R,
        out: &mut E,
    )
        requires live { IsLive self.old owner }
        requires top { (top ≡ true) ↔ (parent_of owner.number (owners_of self.old) ≡ None) }
        requires fit { R.IsFit table.old }
        requires kinds { AllAt (λ o. All (λ item. IsKind (R.kind_table table.old) item.kind) o.items) owner.number (owners_of self.old) }
        requires counted { (kind : Kind) (key : ℕ) → held kind key (subtree_of owner.number (owners_of self.old)) ≤ R.counted table.old kind key }
        ensures owners { owners_of self.new ≡ released (R.kind_table table.old) phase owner.number (owners_of self.old) }
        ensures places { self.new.places ≡ self.old.places }
        ensures next_owner { self.new.next_owner ≡ self.old.next_owner }
        ensures next_serial { self.new.next_serial ≡ self.old.next_serial }
        ensures steps { (events : List What) × R.does table.old (release_steps (R.kind_table table.old) phase commit top owner.number (owners_of self.old)) events table.new × E.emits out.old events out.new }
        ensures fit { R.IsFit table.new }
        ensures kinds { R.kind_table table.new ≡ R.kind_table table.old }
        ensures still_kinds { AllAt (λ o. All (λ item. IsKind (R.kind_table table.new) item.kind) o.items) owner.number (owners_of self.new) }
        ensures parents { (n : ℕ) → parent_of n (owners_of self.new) ≡ parent_of n (owners_of self.old) }
        ensures counted { (kind : Kind) (key : ℕ) → R.counted table.new kind key + held kind key (owners_of self.old) ≡ R.counted table.old kind key + held kind key (owners_of self.new) }
    {
        let how = How { phase, commit, top };
        release_tree(&mut self.nodes, node_at(owner), how, table, out);
    }

    /// Takes the owner out, with all below it, which hold nothing any more: `ResourceOwnerDelete`.
    pub fn discard<E: Emit>(&mut self, owner: OwnerId, out: &mut E)
        requires live { IsLive self.old owner }
        requires empty { AllAt HoldsNothing owner.number (owners_of self.old) }
        ensures owners { owners_of self.new ≡ removed owner.number (owners_of self.old) }
        ensures stays { (other : ℕ) → has other (owners_of self.new) ≡ true → at other self.new.places ≡ at other self.old.places }
        ensures next_owner { self.new.next_owner ≡ self.old.next_owner }
        ensures next_serial { self.new.next_serial ≡ self.old.next_serial }
        ensures emits { E.emits out.old (gone_events owner.number (owners_of self.old)) out.new }
    {
        discard_tree(&mut self.nodes, &mut self.left, node_at(owner), out);
    }

    /// How many owners live.
    pub fn count(&self) -> u64
        ensures count { result ≡ size (owners_of self.now) }
        ensures sound { IsSoundTable self.now }
    {
        self.nodes.len() as u64
    }
}

fn made(parent: Option<OwnerId>, number: u64) -> What
    ensures { result ≡ made_event (option_map (λ p. p.number) parent) number }
{
    match parent {
        None => What::Owner(number),
        Some(parent) => What::OwnerIn {
            owner: number,
            parent: parent.number,
        },
    }
}
