//! The owners of a session together with the tables of what they hold, and its plans.
ghost use Rattle.std.specs.Prelude.{◌≡◌, ◌↔◌, ◌≢◌, ◌⊎◌, ℕ, ◌+◌, ◌-◌, ◌<◌, ◌≤◌, ◌^◌, ◌==◌, true, false, not, [], ◌∷◌, ◌++◌, find, is_some, length, slice_get, IfErr, IfOk, IfSome, IsErr, IsErrOf, IsOkUnless, OnOk, OnErr, Some, None};
ghost use Rattle.std.specs.Option.{option_map, option_map_or, ok_or};
ghost use Rattle.forest.specs.Forest.{Empty, has, at, size, is_above, moved, parent_of, removed, AllNodes};
ghost use Rattle.owner_items.specs.ItemList.{is_of};
ghost use Rattle.owner_core.specs.Sound.{IsSound};
ghost use Rattle.owner_core.specs.Released.{released};
ghost use Rattle.plan_store.specs.Plans.{is_usable, plan_of};
ghost use Rattle.session_rules.specs.Limits.{most_files, most_owners, most_plans, shared_buffers};
ghost use Rattle.session_rules.specs.State.{buffer_pin, file_kind, plan_reference};
ghost use Rattle.session_rules.specs.Lookup.{plan_at};
ghost use Rattle.session_rules.specs.Acts.{nothing};
ghost use Rattle.session_rules.specs.Making.{owner_made};
ghost use Rattle.session_rules.specs.Counts.{counts};
ghost use Rattle.session_rules.specs.Ends.{stack_lowered, stack_popped};
ghost use Rattle.session_rules.specs.Taking.{descriptor_given, item_taken, lock_taken, pushed_at};
ghost use Rattle.session_rules.specs.Parts.{lock_given_back, pinning, snapshot_popped};
ghost use Rattle.session_rules.specs.State.{last_of};
ghost use Rattle.session_rules.specs.World.{Scene};
ghost use Rattle.lock_shared.specs.Ranked.{beside, least_conflict};
ghost use Rattle.lock_local.specs.declared.errors.LockError.TheVariants.{Conflict, NotHeld};
ghost use Rattle.lock_local.specs.Locks.{count_of};
ghost use Rattle.pgs_step.specs.declared.lock_modes.Mode.{Mode as LockMode};
ghost use Rattle.session_rules.specs.Releases.{phase_released, owner_released, owner_gone, owner_moved, item_released};
ghost use Rattle.owner_kinds.specs.Kind.{IsFull};
ghost use Rattle.owner_kinds.specs.KindShelf.{table_of};
ghost use Rattle.owner_kinds.specs.KindTable.{IsExtension};
ghost use Rattle.session_owners.specs.Counted.{HoldsCounted, IsReference, all_released, files_held, holds_file};
ghost use Rattle.session_owners.specs.ResourceState.{owners_of, IsLive, has_begun, items_of, plans_of, spare_of, created, entered, forgotten, remembered, AllAt, HoldsNothing};
ghost use Rattle.session_owners.specs.Commons.{Balances, CommonState, Serves};
ghost use Rattle.session_owners.specs.Fitting.{hosting_of, Acted, ActedOn, OwnersFit};
ghost use Rattle.session_owners.specs.Placing.{plan_added, plan_dropped, AreLeft, PlansFit};
ghost use Rattle.pgs_step.specs.declared.ids.TheConstants.KindId.{FIRST_EXTENSION};

use crate::commons::Commons;
use crate::lent::Lent;
use crate::{PlanContexts, Tables};
use file_table::FileError;
use lock_local::{LockError, LockTable};
use owner_core::{OwnerError, Owners, Release};
use owner_kinds::{ExtKind, KindError};
use pgs_step::{CtxId, Emit, Item, KindId, Mode, OwnerId, Phase, SessionCounts};
use plan_store::PlanError;
use snap_table::SnapError;
use std::alloc::{AllocError, Global};
use std::marker::Model;

/// The resource owners of a session, the counts of the pins, references and files that they hold, its locks, its active
/// snapshots and its plans.
///
/// Contracts see it as the owners, the files that have a descriptor, how many can have one, the locks, the stack of active
/// snapshots, and the plans: the tables count each item just as often as the owners hold it. Each call that says something is an act of the session's rules, at each scene with these
/// owners and files.
#[derive(Drop)]
pub struct Resources {
    owners: Owners,
    tables: Tables,
    locks: LockTable,
}

impl Model for Resources {
    ghost use Rattle.session_owners.specs.ResourceState.{ResourceState, resource_code};

    ghost Value = { ResourceState };

    ghost coded = { resource_code };

    ghost use Rattle.session_owners.specs.Counted.{IsCounted};

    ghost view = { λ r. record { rooms = r.owners.rooms; places = r.owners.places; next_owner = r.owners.next_owner; next_serial = r.owners.next_serial; recent = r.tables.files.recent; descriptors = r.tables.files.descriptors; session = r.locks.session; locks = r.locks.locks; stack = r.tables.snapshots.stack; plans = r.tables.plans } };

    ghost invariant = { λ r. IsCounted r.owners r.tables };
}

impl Resources {
    /// No owner, no buffer is pinned, no reference and no lock is held, no file is open, no snapshot is active and no plan stands,
    /// and this many files can have a descriptor. It is the session of this number that will hold the locks. It fails for want of memory alone.
    pub fn new(alloc: Global, session: u8, descriptors: u8) -> Result<Resources, AllocError>
        requires descriptors { 0 < descriptors }
        ensures begins { IfOk result (λ resources. resources ≡ record { rooms = Empty; places = Empty; next_owner = 1; next_serial = 1; recent = []; descriptors = descriptors; session = session; locks = []; stack = []; plans = record { standing = []; reserved = None } }) }
    {
        Ok(Resources {
            owners: Owners::new(alloc),
            tables: Tables::new(alloc, descriptors)?,
            locks: LockTable::new(alloc, session),
        })
    }

    /// Makes an owner below another one, or without a parent: PostgreSQL's `ResourceOwnerCreate`.
    ///
    /// `TooMany` comes where as many owners live as can, `Memory` where memory is refused.
    #[inline(always)]
    pub fn make_owner<E: Emit>(
        &mut self,
        parent: Option<OwnerId>,
        out: &mut E,
    ) -> Result<OwnerId, OwnerError>
        requires room { self.old.next_owner < 2 ^ 62 }
        requires parent { IfSome parent (IsLive self.old) }
        ensures number { IfOk result (λ owner. owner.number ≡ self.old.next_owner) }
        ensures live { IfOk result (IsLive self.new) }
        ensures stays { OnOk result ((other : OwnerId) → IsLive self.old other → IsLive self.new other) }
        ensures older { (other : OwnerId) → IsLive self.old other → other.number < self.old.next_owner }
        ensures owners { OnOk result (owners_of self.new ≡ created (option_map (λ p. p.number) parent) self.old.next_owner (owners_of self.old)) }
        ensures places { IfOk result (λ owner. self.new.places ≡ entered (option_map (λ p. p.number) parent) owner.number owner.slot self.old.places) }
        ensures stack { self.new.stack ≡ self.old.stack }
        ensures plans { self.new.plans ≡ self.old.plans }
        ensures next_owner { OnOk result (self.new.next_owner ≡ self.old.next_owner + 1) }
        ensures next_serial { self.new.next_serial ≡ self.old.next_serial }
        ensures acted { OnOk result ((commons : CommonState) → Acted (owner_made (option_map (λ p. p.number) parent)) self.old self.new commons commons (λ events. E.emits out.old events out.new)) }
        ensures balances { (commons : CommonState) → Balances self.old self.new commons commons }
        ensures others { (other : ℕ) → other ≢ self.old.next_owner → spare_of other self.new ≡ spare_of other self.old }
        ensures fresh { has self.old.next_owner (owners_of self.old) ≡ false }
        ensures too_many { (result ≡ Err OwnerError.TooMany) ↔ (most_owners ≤ size (owners_of self.old)) }
        ensures refused { OnErr result (self.new ≡ self.old) }
        ensures silent { OnErr result (out.new ≡ out.old) }
        ensures causes { OnErr result ((result ≢ Err OwnerError.Releasing) × (result ≢ Err OwnerError.NotOwned)) }
    {
        self.owners.create(parent, out)
    }

    /// The owner, with all below it, becomes the first child of another one, which must not be below it:
    /// `ResourceOwnerNewParent`.
    pub fn move_owner<E: Emit>(&mut self, owner: OwnerId, parent: OwnerId, out: &mut E)
        requires live { IsLive self.old owner }
        requires parent { IsLive self.old parent }
        requires other { parent.number ≢ owner.number }
        requires there { (has owner.number (owners_of self.old) ≡ true) × (has parent.number (owners_of self.old) ≡ true) }
        requires apart { is_above owner.number parent.number (owners_of self.old) ≡ false }
        ensures owners { owners_of self.new ≡ moved owner.number parent.number (owners_of self.old) }
        ensures places { self.new.places ≡ moved owner.number parent.number self.old.places }
        ensures stays { (other : OwnerId) → IsLive self.old other → IsLive self.new other }
        ensures stack { self.new.stack ≡ self.old.stack }
        ensures plans { self.new.plans ≡ self.old.plans }
        ensures next_owner { self.new.next_owner ≡ self.old.next_owner }
        ensures next_serial { self.new.next_serial ≡ self.old.next_serial }
        ensures acted { (commons : CommonState) → Acted (owner_moved owner.number parent.number) self.old self.new commons commons (λ events. E.emits out.old events out.new) }
        ensures balances { (commons : CommonState) → Balances self.old self.new commons commons }
    {
        self.owners.new_parent(owner, parent, out);
    }

    /// Makes room for one more item of the owner, which `pin`, `add_reference` and `open_file` then need:
    /// `ResourceOwnerEnlarge`.
    ///
    /// `Releasing` comes where the owner's release has begun, `Memory` where memory is refused, or where
    /// the owner has more than 2^40 items and their table has to be made anew.
    pub fn enlarge(&mut self, owner: OwnerId) -> Result<(), OwnerError>
        requires live { IsLive self.old owner }
        ensures spare { OnOk result (1 ≤ spare_of owner.number self.new) }
        ensures others { (other : ℕ) → other ≢ owner.number → spare_of other self.new ≡ spare_of other self.old }
        ensures owners { owners_of self.new ≡ owners_of self.old }
        ensures places { self.new.places ≡ self.old.places }
        ensures next_owner { self.new.next_owner ≡ self.old.next_owner }
        ensures next_serial { self.new.next_serial ≡ self.old.next_serial }
        ensures recent { self.new.recent ≡ self.old.recent }
        ensures descriptors { self.new.descriptors ≡ self.old.descriptors }
        ensures locks { self.new.locks ≡ self.old.locks }
        ensures stack { self.new.stack ≡ self.old.stack }
        ensures plans { self.new.plans ≡ self.old.plans }
        ensures balances { (commons : CommonState) → Balances self.old self.new commons commons }
        ensures releasing { (result ≡ Err OwnerError.Releasing) ↔ (has_begun owner.number (owners_of self.old) ≡ true) }
        ensures refused { OnErr result (self.new ≡ self.old) }
        ensures not_too_many { result ≢ Err OwnerError.TooMany }
        ensures not_owned { result ≢ Err OwnerError.NotOwned }
    {
        self.owners.enlarge(owner)
    }

    /// Pins a buffer, and the owner remembers the pin, in room that `enlarge` has made: `PinBuffer`. The session's first pin of a
    /// buffer counts it among the sessions that pin it.
    pub fn pin<K: ExtKind, E: Emit>(
        &mut self,
        owner: OwnerId,
        buffer: u32,
        commons: &mut Commons<K>,
        out: &mut E,
    )
        requires live { IsLive self.old owner }
        requires spare { 1 ≤ spare_of owner.number self.old }
        requires not_begun { has_begun owner.number (owners_of self.old) ≡ false }
        requires buffer { buffer < shared_buffers }
        requires serial { self.old.next_serial < 2 ^ 62 }
        requires serves { Serves self.old commons.old }
        ensures spare { spare_of owner.number self.old ≤ spare_of owner.number self.new + 1 }
        ensures others { (other : ℕ) → other ≢ owner.number → spare_of other self.new ≡ spare_of other self.old }
        ensures owners { owners_of self.new ≡ remembered owner.number (record { kind = buffer_pin; key = buffer; serial = self.old.next_serial }) (owners_of self.old) }
        ensures places { self.new.places ≡ self.old.places }
        ensures stack { self.new.stack ≡ self.old.stack }
        ensures plans { self.new.plans ≡ self.old.plans }
        ensures next_owner { self.new.next_owner ≡ self.old.next_owner }
        ensures next_serial { self.new.next_serial ≡ self.old.next_serial + 1 }
        ensures acted { Acted (item_taken owner.number buffer_pin buffer) self.old self.new commons.old commons.new (λ events. E.emits out.old events out.new) }
        ensures balances { Balances self.old self.new commons.old commons.new }
        ensures serves { Serves self.new commons.new }
    {
        self.tables.pin(buffer, &mut commons.pins);
        self.owners.remember(owner, KindId::BUFFER_PIN, buffer, out);
    }

    /// How many sessions pin a buffer.
    pub fn pinned<K: ExtKind>(&self, buffer: u32, commons: &Commons<K>) -> u32
        requires serves { Serves self.now commons.now }
        requires buffer { buffer < shared_buffers }
        ensures { (scene : Scene) → OwnersFit self.now commons.now scene → result ≡ pinning buffer scene }
    {
        commons.pins.count(buffer)
    }

    /// Takes a reference to the key of a class, and the owner remembers it, in room that `enlarge` has made.
    ///
    /// It fails for want of memory alone.
    pub fn add_reference<E: Emit>(
        &mut self,
        owner: OwnerId,
        class: KindId,
        key: u32,
        out: &mut E,
    ) -> Result<(), AllocError>
        requires live { IsLive self.old owner }
        requires spare { 1 ≤ spare_of owner.number self.old }
        requires not_begun { has_begun owner.number (owners_of self.old) ≡ false }
        requires class { IsReference class }
        requires serial { self.old.next_serial < 2 ^ 62 }
        ensures others { (other : ℕ) → other ≢ owner.number → spare_of other self.new ≡ spare_of other self.old }
        ensures owners { OnOk result (owners_of self.new ≡ remembered owner.number (record { kind = class; key = key; serial = self.old.next_serial }) (owners_of self.old)) }
        ensures places { self.new.places ≡ self.old.places }
        ensures stack { self.new.stack ≡ self.old.stack }
        ensures plans { self.new.plans ≡ self.old.plans }
        ensures next_owner { self.new.next_owner ≡ self.old.next_owner }
        ensures next_serial { OnOk result (self.new.next_serial ≡ self.old.next_serial + 1) }
        ensures acted { OnOk result ((commons : CommonState) → Acted (item_taken owner.number class key) self.old self.new commons commons (λ events. E.emits out.old events out.new)) }
        ensures balances { (commons : CommonState) → Balances self.old self.new commons commons }
        ensures refused { OnErr result (self.new ≡ self.old) }
        ensures silent { OnErr result (out.new ≡ out.old) }
    {
        self.tables.add_reference(class, key)?;
        self.owners.remember(owner, class, key, out);
        Ok(())
    }

    /// Opens a file, which gets a descriptor, and the owner remembers it, in room that `enlarge` has made: `PathNameOpenFile`.
    ///
    /// `TooMany` comes exactly where 4,096 files are open, else `Memory` where memory is refused.
    pub fn open_file<E: Emit>(
        &mut self,
        owner: OwnerId,
        file: u32,
        out: &mut E,
    ) -> Result<(), FileError>
        requires live { IsLive self.old owner }
        requires spare { 1 ≤ spare_of owner.number self.old }
        requires not_begun { has_begun owner.number (owners_of self.old) ≡ false }
        requires closed { holds_file file (owners_of self.old) ≡ false }
        requires serial { self.old.next_serial < 2 ^ 62 }
        ensures others { (other : ℕ) → other ≢ owner.number → spare_of other self.new ≡ spare_of other self.old }
        ensures owners { OnOk result (owners_of self.new ≡ remembered owner.number (record { kind = file_kind; key = file; serial = self.old.next_serial }) (owners_of self.old)) }
        ensures places { self.new.places ≡ self.old.places }
        ensures stack { self.new.stack ≡ self.old.stack }
        ensures plans { self.new.plans ≡ self.old.plans }
        ensures acted { OnOk result ((commons : CommonState) → Acted (item_taken owner.number file_kind file) self.old self.new commons commons (λ events. E.emits out.old events out.new)) }
        ensures balances { (commons : CommonState) → Balances self.old self.new commons commons }
        ensures too_many { (result ≡ Err FileError.TooMany) ↔ (most_files ≤ length (files_held (owners_of self.old))) }
        ensures causes { (result ≢ Err FileError.Taken) × (result ≢ Err FileError.NoFile) }
        ensures refused { OnErr result (self.new ≡ self.old) }
        ensures silent { OnErr result (out.new ≡ out.old) }
    {
        self.tables.laws();
        if let Err(error) = self.tables.open_file(file, out) {
            return Err(error);
        }
        self.owners.remember(owner, KindId::FILE, file, out);
        Ok(())
    }

    /// Uses an open file, which gets a descriptor where it has none: `FileAccess`. It fails for want of memory alone.
    pub fn touch<E: Emit>(&mut self, file: u32, out: &mut E) -> Result<(), FileError>
        requires open { holds_file file (owners_of self.old) ≡ true }
        ensures owners { owners_of self.new ≡ owners_of self.old }
        ensures places { self.new.places ≡ self.old.places }
        ensures stack { self.new.stack ≡ self.old.stack }
        ensures plans { self.new.plans ≡ self.old.plans }
        ensures acted { OnOk result ((commons : CommonState) → Acted (descriptor_given file) self.old self.new commons commons (λ events. E.emits out.old events out.new)) }
        ensures balances { (commons : CommonState) → Balances self.old self.new commons commons }
        ensures causes { IfErr result (λ error. error ≡ FileError.Memory) }
        ensures refused { OnErr result (self.new ≡ self.old) }
        ensures silent { OnErr result (out.new ≡ out.old) }
    {
        self.tables.touch(file, out)
    }

    /// Whether an owner holds the file, so that it is open.
    pub fn is_open(&self, file: u32) -> bool
        ensures { result ≡ holds_file file (owners_of self.now) }
    {
        self.tables.is_open(file)
    }

    /// An extension kind opens a key, and the owner remembers it, in room that `enlarge` has made.
    ///
    /// `Full` comes exactly where the kind holds as many keys as it may, else `Memory` where memory is refused.
    pub fn take_extension<K: ExtKind, E: Emit>(
        &mut self,
        owner: OwnerId,
        kind: KindId,
        key: u32,
        commons: &mut Commons<K>,
        out: &mut E,
    ) -> Result<(), KindError>
        requires live { IsLive self.old owner }
        requires spare { 1 ≤ spare_of owner.number self.old }
        requires not_begun { has_begun owner.number (owners_of self.old) ≡ false }
        requires kind { IsExtension (table_of commons.old.kinds) kind }
        requires serial { self.old.next_serial < 2 ^ 62 }
        requires serves { Serves self.old commons.old }
        ensures others { (other : ℕ) → other ≢ owner.number → spare_of other self.new ≡ spare_of other self.old }
        ensures owners { OnOk result (owners_of self.new ≡ remembered owner.number (record { kind = kind; key = key; serial = self.old.next_serial }) (owners_of self.old)) }
        ensures places { self.new.places ≡ self.old.places }
        ensures stack { self.new.stack ≡ self.old.stack }
        ensures plans { self.new.plans ≡ self.old.plans }
        ensures next_owner { self.new.next_owner ≡ self.old.next_owner }
        ensures next_serial { OnOk result (self.new.next_serial ≡ self.old.next_serial + 1) }
        ensures acted { OnOk result (Acted (item_taken owner.number kind key) self.old self.new commons.old commons.new (λ events. E.emits out.old events out.new)) }
        ensures balances { Balances self.old self.new commons.old commons.new }
        ensures serves { Serves self.new commons.new }
        ensures full { (result ≡ Err KindError.Full) ↔ IfSome (slice_get commons.old.kinds (kind.0 - FIRST_EXTENSION)) IsFull }
        ensures refused { OnErr result (self.new ≡ self.old) }
        ensures untouched { OnErr result (commons.new ≡ commons.old) }
        ensures silent { OnErr result (out.new ≡ out.old) }
    {
        if let Err(error) = commons.kinds.open(kind, key) {
            return Err(error);
        }
        self.owners.remember(owner, kind, key, out);
        Ok(())
    }

    /// The owner holds the object in this mode once more: `LockAcquire`.
    ///
    /// `Conflict` comes exactly where another session holds the object in a mode that conflicts, and names the least such
    /// session and its least such mode. Else `Memory` comes where memory is refused.
    pub fn lock<K: ExtKind, E: Emit>(
        &mut self,
        owner: OwnerId,
        object: u32,
        mode: Mode,
        commons: &mut Commons<K>,
        out: &mut E,
    ) -> Result<(), LockError>
        requires { Serves self.old commons.old }
        ensures conflict { (s : ℕ) (m : LockMode) → IsErrOf result (LockError.Conflict s m) ↔ (least_conflict object mode (beside self.old.session commons.old.locks) ≡ Some (s, m)) }
        ensures held { IsErrOf result LockError.NotHeld → ⊥ }
        ensures locks_alone { self.new ≡ record self.old { locks = self.new.locks } }
        ensures acted { OnOk result (Acted (lock_taken object mode owner.number) self.old self.new commons.old commons.new (λ events. E.emits out.old events out.new)) }
        ensures balances { Balances self.old self.new commons.old commons.new }
        ensures serves { Serves self.new commons.new }
        ensures refused { OnErr result (self.new ≡ self.old) }
        ensures untouched { OnErr result (commons.new ≡ commons.old) }
        ensures silent { OnErr result (out.new ≡ out.old) }
    {
        self.locks
            .acquire(&mut commons.locks, owner, object, mode, out)
    }

    /// The owner holds the object in this mode once less: `LockRelease`.
    ///
    /// `NotHeld` comes exactly where the owner doesn't hold it.
    pub fn unlock<K: ExtKind, E: Emit>(
        &mut self,
        owner: OwnerId,
        object: u32,
        mode: Mode,
        commons: &mut Commons<K>,
        out: &mut E,
    ) -> Result<(), LockError>
        requires { Serves self.old commons.old }
        ensures not_held { IsErrOf result LockError.NotHeld ↔ (count_of self.old.locks object mode owner.number ≡ 0) }
        ensures only_not_held { IsOkUnless result LockError.NotHeld }
        ensures locks_alone { self.new ≡ record self.old { locks = self.new.locks } }
        ensures acted { OnOk result (Acted (lock_given_back object mode owner.number) self.old self.new commons.old commons.new (λ events. E.emits out.old events out.new)) }
        ensures balances { Balances self.old self.new commons.old commons.new }
        ensures serves { Serves self.new commons.new }
        ensures refused { OnErr result (self.new ≡ self.old) }
        ensures untouched { OnErr result (commons.new ≡ commons.old) }
        ensures silent { OnErr result (out.new ≡ out.old) }
    {
        self.locks
            .release(&mut commons.locks, owner, object, mode, out)
    }

    /// The owner forgets its newest item of this kind and key, and that is given back: `ResourceOwnerForget`.
    ///
    /// `Releasing` comes where the owner's release has begun, else `NotOwned` where it has no such item.
    pub fn give_back<K: ExtKind, P: PlanContexts, E: Emit>(
        &mut self,
        owner: OwnerId,
        kind: KindId,
        key: u32,
        place: &mut P,
        commons: &mut Commons<K>,
        out: &mut E,
    ) -> Result<Item, OwnerError>
        requires live { IsLive self.old owner }
        requires serves { Serves self.old commons.old }
        requires fit { PlansFit (P.MayGo place.old) self.old.plans.standing }
        ensures item { has_begun owner.number (owners_of self.old) ≡ false → result ≡ ok_or (find (is_of kind key) (items_of owner.number (owners_of self.old))) OwnerError.NotOwned }
        ensures releasing { has_begun owner.number (owners_of self.old) ≡ true → result ≡ Err OwnerError.Releasing }
        ensures others { (other : ℕ) → other ≢ owner.number → spare_of other self.new ≡ spare_of other self.old }
        ensures owners { OnOk result (owners_of self.new ≡ forgotten owner.number kind key (owners_of self.old)) }
        ensures places { self.new.places ≡ self.old.places }
        ensures stack { self.new.stack ≡ self.old.stack }
        ensures next_owner { self.new.next_owner ≡ self.old.next_owner }
        ensures next_serial { self.new.next_serial ≡ self.old.next_serial }
        ensures descriptors { self.new.descriptors ≡ self.old.descriptors }
        ensures acted { OnOk result (ActedOn (item_released owner.number kind key) self.old self.new (hosting_of (P.contexts place.old) (P.shelf place.old)) (hosting_of (P.contexts place.new) (P.shelf place.new)) commons.old commons.new (λ events. E.emits out.old events out.new)) }
        ensures balances { Balances self.old self.new commons.old commons.new }
        ensures serves { Serves self.new commons.new }
        ensures went { P.went place.old place.new }
        ensures fit { PlansFit (P.MayGo place.new) self.new.plans.standing }
        ensures left { AreLeft self.old.plans.standing self.new.plans.standing }
        ensures refused { OnErr result (self.new ≡ self.old) }
        ensures untouched { OnErr result (commons.new ≡ commons.old) }
        ensures place { OnErr result (place.new ≡ place.old) }
        ensures silent { OnErr result (out.new ≡ out.old) }
    {
        let item = match self.owners.forget(owner, kind, key, out) {
            Ok(item) => item,
            Err(error) => return Err(error),
        };
        let mut lent = Lent {
            tables: &mut self.tables,
            kinds: &mut commons.kinds,
            locks: &mut self.locks,
            shared: &mut commons.locks,
            pins: &mut commons.pins,
            place,
        };
        lent.give_back(item, out);
        Ok(item)
    }

    /// Releases the owner and all below it, in the three phases, so that they hold nothing any more:
    /// `ResourceOwnerRelease`.
    ///
    /// `top` says that the owner is the topmost one. At commit each item's release stands behind its warning. It
    /// takes no memory.
    pub fn release<K: ExtKind, P: PlanContexts, E: Emit>(
        &mut self,
        owner: OwnerId,
        commit: bool,
        top: bool,
        place: &mut P,
        commons: &mut Commons<K>,
        out: &mut E,
    )
        requires live { IsLive self.old owner }
        requires top { (top ≡ true) ↔ (parent_of owner.number (owners_of self.old) ≡ None) }
        requires serves { Serves self.old commons.old }
        requires fit { PlansFit (P.MayGo place.old) self.old.plans.standing }
        ensures owners { owners_of self.new ≡ all_released (table_of commons.old.kinds) owner.number (owners_of self.old) }
        ensures nothing_left { AllAt HoldsNothing owner.number (owners_of self.new) }
        ensures places { self.new.places ≡ self.old.places }
        ensures stack { self.new.stack ≡ self.old.stack }
        ensures next_owner { self.new.next_owner ≡ self.old.next_owner }
        ensures next_serial { self.new.next_serial ≡ self.old.next_serial }
        ensures acted { ActedOn (owner_released commit top owner.number) self.old self.new (hosting_of (P.contexts place.old) (P.shelf place.old)) (hosting_of (P.contexts place.new) (P.shelf place.new)) commons.old commons.new (λ events. E.emits out.old events out.new) }
        ensures balances { Balances self.old self.new commons.old commons.new }
        ensures serves { Serves self.new commons.new }
        ensures went { P.went place.old place.new }
        ensures fit { PlansFit (P.MayGo place.new) self.new.plans.standing }
        ensures left { AreLeft self.old.plans.standing self.new.plans.standing }
    {
        if self.owners.is_bare(owner) {
            // Its locks are all that it can have.
            self.release_phase(owner, Phase::Locks, commit, top, place, commons, out);
            return;
        }
        self.release_in_turn(owner, commit, top, place, commons, out);
    }

    /// The same, by the three phases. Most owners of levels are bare.
    #[inline(never)]
    fn release_in_turn<K: ExtKind, P: PlanContexts, E: Emit>(
        &mut self,
        owner: OwnerId,
        commit: bool,
        top: bool,
        place: &mut P,
        commons: &mut Commons<K>,
        out: &mut E,
    )
        requires live { IsLive self.old owner }
        requires top { (top ≡ true) ↔ (parent_of owner.number (owners_of self.old) ≡ None) }
        requires serves { Serves self.old commons.old }
        requires fit { PlansFit (P.MayGo place.old) self.old.plans.standing }
        ensures owners { owners_of self.new ≡ all_released (table_of commons.old.kinds) owner.number (owners_of self.old) }
        ensures nothing_left { AllAt HoldsNothing owner.number (owners_of self.new) }
        ensures places { self.new.places ≡ self.old.places }
        ensures stack { self.new.stack ≡ self.old.stack }
        ensures next_owner { self.new.next_owner ≡ self.old.next_owner }
        ensures next_serial { self.new.next_serial ≡ self.old.next_serial }
        ensures acted { ActedOn (owner_released commit top owner.number) self.old self.new (hosting_of (P.contexts place.old) (P.shelf place.old)) (hosting_of (P.contexts place.new) (P.shelf place.new)) commons.old commons.new (λ events. E.emits out.old events out.new) }
        ensures balances { Balances self.old self.new commons.old commons.new }
        ensures serves { Serves self.new commons.new }
        ensures went { P.went place.old place.new }
        ensures fit { PlansFit (P.MayGo place.new) self.new.plans.standing }
        ensures left { AreLeft self.old.plans.standing self.new.plans.standing }
    {
        self.release_phase(owner, Phase::BeforeLocks, commit, top, place, commons, out);
        self.release_phase(owner, Phase::Locks, commit, top, place, commons, out);
        self.release_phase(owner, Phase::AfterLocks, commit, top, place, commons, out);
    }

    /// Releases a phase of the owner and of all below it.
    #[inline(always)]
    fn release_phase<K: ExtKind, P: PlanContexts, E: Emit>(
        &mut self,
        owner: OwnerId,
        phase: Phase,
        commit: bool,
        top: bool,
        place: &mut P,
        commons: &mut Commons<K>,
        out: &mut E,
    )
        requires live { IsLive self.old owner }
        requires top { (top ≡ true) ↔ (parent_of owner.number (owners_of self.old) ≡ None) }
        requires serves { Serves self.old commons.old }
        requires fit { PlansFit (P.MayGo place.old) self.old.plans.standing }
        ensures owners { owners_of self.new ≡ released (table_of commons.old.kinds) phase owner.number (owners_of self.old) }
        ensures places { self.new.places ≡ self.old.places }
        ensures stack { self.new.stack ≡ self.old.stack }
        ensures next_owner { self.new.next_owner ≡ self.old.next_owner }
        ensures next_serial { self.new.next_serial ≡ self.old.next_serial }
        ensures acted { ActedOn (phase_released commit top owner.number phase) self.old self.new (hosting_of (P.contexts place.old) (P.shelf place.old)) (hosting_of (P.contexts place.new) (P.shelf place.new)) commons.old commons.new (λ events. E.emits out.old events out.new) }
        ensures balances { Balances self.old self.new commons.old commons.new }
        ensures serves { Serves self.new commons.new }
        ensures went { P.went place.old place.new }
        ensures fit { PlansFit (P.MayGo place.new) self.new.plans.standing }
        ensures left { AreLeft self.old.plans.standing self.new.plans.standing }
    {
        let mut lent = Lent {
            tables: &mut self.tables,
            kinds: &mut commons.kinds,
            locks: &mut self.locks,
            shared: &mut commons.locks,
            pins: &mut commons.pins,
            place,
        };
        self.owners
            .release(owner, phase, commit, top, &mut lent, out);
    }

    /// Takes the owner out, with all below it, which hold nothing any more: `ResourceOwnerDelete`.
    pub fn discard<E: Emit>(&mut self, owner: OwnerId, out: &mut E)
        requires live { IsLive self.old owner }
        requires empty { AllAt HoldsNothing owner.number (owners_of self.old) }
        ensures owners { owners_of self.new ≡ removed owner.number (owners_of self.old) }
        ensures stays { (other : ℕ) → has other (owners_of self.new) ≡ true → at other self.new.places ≡ at other self.old.places }
        ensures stack { self.new.stack ≡ self.old.stack }
        ensures plans { self.new.plans ≡ self.old.plans }
        ensures next_owner { self.new.next_owner ≡ self.old.next_owner }
        ensures next_serial { self.new.next_serial ≡ self.old.next_serial }
        ensures acted { (commons : CommonState) → Acted (owner_gone owner.number) self.old self.new commons commons (λ events. E.emits out.old events out.new) }
        ensures balances { (commons : CommonState) → Balances self.old self.new commons commons }
    {
        self.owners.discard(owner, out);
    }

    /// Takes the room for a plan of a number that no plan has, so that `make_plan` can't fail.
    ///
    /// `TooMany` comes exactly where 1,024 plans stand, else `Memory` where memory is refused.
    pub fn reserve_plan(&mut self, plan: u32) -> Result<(), PlanError>
        requires new { plan_of self.old.plans plan ≡ None }
        ensures reserved { OnOk result (self.new ≡ record self.old { plans = record self.old.plans { reserved = Some plan } }) }
        ensures acted { (commons : CommonState) → Acted nothing self.old self.new commons commons (λ events. events ≡ []) }
        ensures balances { (commons : CommonState) → Balances self.old self.new commons commons }
        ensures too_many { (result ≡ Err PlanError.TooMany) ↔ (most_plans ≤ length self.old.plans.standing) }
        ensures causes { IfErr result (λ error. (error ≡ PlanError.TooMany) ⊎ (error ≡ PlanError.Memory)) }
        ensures refused { OnErr result (self.new ≡ self.old) }
    {
        self.tables.reserve_plan(plan)
    }

    /// Makes the plan for which room is reserved, whose memory context this is: PostgreSQL's `CreateCachedPlan`.
    pub fn make_plan(&mut self, plan: u32, context: CtxId)
        requires reserved { self.old.plans.reserved ≡ Some plan }
        ensures made { self.new ≡ record self.old { plans = record { standing = self.old.plans.standing ++ (plan, record { context = context; discarded = false; references = 0 }) ∷ []; reserved = None } } }
        ensures acted { (commons : CommonState) → Acted (plan_added plan context.number) self.old self.new commons commons (λ events. events ≡ []) }
        ensures balances { (commons : CommonState) → Balances self.old self.new commons commons }
    {
        self.tables.make_plan(plan, context);
    }

    /// Takes a reference to a plan that isn't discarded, and the owner remembers it, in room that `enlarge` has made:
    /// `GetCachedPlan` for an owner.
    ///
    /// It fails for want of memory alone.
    pub fn reference_plan<E: Emit>(
        &mut self,
        owner: OwnerId,
        plan: u32,
        out: &mut E,
    ) -> Result<(), AllocError>
        requires live { IsLive self.old owner }
        requires spare { 1 ≤ spare_of owner.number self.old }
        requires not_begun { has_begun owner.number (owners_of self.old) ≡ false }
        requires usable { is_usable self.old.plans plan ≡ true }
        requires serial { self.old.next_serial < 2 ^ 62 }
        ensures others { (other : ℕ) → other ≢ owner.number → spare_of other self.new ≡ spare_of other self.old }
        ensures owners { OnOk result (owners_of self.new ≡ remembered owner.number (record { kind = plan_reference; key = plan; serial = self.old.next_serial }) (owners_of self.old)) }
        ensures places { self.new.places ≡ self.old.places }
        ensures stack { self.new.stack ≡ self.old.stack }
        ensures next_owner { self.new.next_owner ≡ self.old.next_owner }
        ensures next_serial { OnOk result (self.new.next_serial ≡ self.old.next_serial + 1) }
        ensures acted { OnOk result ((commons : CommonState) → Acted (item_taken owner.number plan_reference plan) self.old self.new commons commons (λ events. E.emits out.old events out.new)) }
        ensures balances { (commons : CommonState) → Balances self.old self.new commons commons }
        ensures left { AreLeft self.old.plans.standing self.new.plans.standing }
        ensures refused { OnErr result (self.new ≡ self.old) }
        ensures silent { OnErr result (out.new ≡ out.old) }
    {
        self.tables.reference_plan(plan)?;
        self.owners
            .remember(owner, KindId::PLAN_REFERENCE, plan, out);
        Ok(())
    }

    /// Discards a plan: `DropCachedPlan`. It takes no new reference then, and goes with its last one, together with its memory
    /// context: at once where none is held. It takes no memory.
    pub fn drop_plan<P: PlanContexts, E: Emit>(&mut self, plan: u32, place: &mut P, out: &mut E)
        requires usable { is_usable self.old.plans plan ≡ true }
        requires fit { PlansFit (P.MayGo place.old) self.old.plans.standing }
        ensures plans_alone { self.new ≡ record self.old { plans = self.new.plans } }
        ensures acted { (commons : CommonState) → ActedOn (plan_dropped plan) self.old self.new (hosting_of (P.contexts place.old) (P.shelf place.old)) (hosting_of (P.contexts place.new) (P.shelf place.new)) commons commons (λ events. E.emits out.old events out.new) }
        ensures balances { (commons : CommonState) → Balances self.old self.new commons commons }
        ensures went { P.went place.old place.new }
        ensures fit { PlansFit (P.MayGo place.new) self.new.plans.standing }
        ensures left { AreLeft self.old.plans.standing self.new.plans.standing }
    {
        self.tables.drop_plan(plan, place, out);
    }

    /// Whether a plan of that number stands, discarded or not.
    pub fn has_plan(&self, plan: u32) -> bool
        ensures kept { result ≡ is_some (plan_of self.now.plans plan) }
        ensures standing { result ≡ is_some (plan_at plan (plans_of self.now)) }
    {
        self.tables.has_plan(plan)
    }

    /// Whether a plan of that number stands that isn't discarded, so that it can be referred to.
    pub fn can_refer(&self, plan: u32) -> bool
        ensures usable { result ≡ is_usable self.now.plans plan }
        ensures standing { result ≡ option_map_or (λ p. not p.discarded) (plan_at plan (plans_of self.now)) false }
    {
        self.tables.can_refer(plan)
    }

    /// Puts a snapshot of a level on the stack of active ones: `PushActiveSnapshot`. It fails for want of memory alone.
    pub fn push<E: Emit>(
        &mut self,
        snapshot: u32,
        level: u32,
        out: &mut E,
    ) -> Result<(), AllocError>
        ensures stack_alone { self.new ≡ record self.old { stack = self.new.stack } }
        ensures acted { OnOk result ((commons : CommonState) → Acted (pushed_at level snapshot) self.old self.new commons commons (λ events. E.emits out.old events out.new)) }
        ensures balances { (commons : CommonState) → Balances self.old self.new commons commons }
        ensures refused { OnErr result (self.new ≡ self.old) }
        ensures silent { OnErr result (out.new ≡ out.old) }
    {
        self.tables.push(snapshot, level, out)
    }

    /// Takes the newest active snapshot, which is of that level, off the stack: `PopActiveSnapshot`.
    ///
    /// `NotHeld` comes exactly where no snapshot is active, or the newest one is of another level.
    pub fn pop<E: Emit>(&mut self, level: u32, out: &mut E) -> Result<(), SnapError>
        ensures not_held { IsErr result ↔ (option_map_or (λ entry. entry.level == level) (last_of self.old.stack) false ≡ false) }
        ensures stack_alone { self.new ≡ record self.old { stack = self.new.stack } }
        ensures acted { OnOk result ((commons : CommonState) → Acted snapshot_popped self.old self.new commons commons (λ events. E.emits out.old events out.new)) }
        ensures balances { (commons : CommonState) → Balances self.old self.new commons commons }
        ensures refused { OnErr result (self.new ≡ self.old) }
        ensures silent { OnErr result (out.new ≡ out.old) }
    {
        self.tables.pop(level, out)
    }

    /// Takes each active snapshot of that level or of a deeper one off the stack, the newest first: `AtSubAbort_Snapshot` at
    /// an abort.
    pub fn pop_from<E: Emit>(&mut self, level: u32, out: &mut E)
        ensures stack_alone { self.new ≡ record self.old { stack = self.new.stack } }
        ensures acted { (commons : CommonState) → Acted (stack_popped level) self.old self.new commons commons (λ events. E.emits out.old events out.new) }
        ensures balances { (commons : CommonState) → Balances self.old self.new commons commons }
    {
        self.tables.pop_from(level, out);
    }

    /// Active snapshots of that level belong to the level above then: `AtSubCommit_Snapshot`.
    pub fn lower_stack(&mut self, level: u32)
        requires { 1 ≤ level }
        ensures stack_alone { self.new ≡ record self.old { stack = self.new.stack } }
        ensures acted { (commons : CommonState) → Acted (stack_lowered level) self.old self.new commons commons (λ events. events ≡ []) }
        ensures balances { (commons : CommonState) → Balances self.old self.new commons commons }
    {
        self.tables.lower_stack(level);
    }

    /// What the session holds, as the command `stat` shows it, where it has so many contexts.
    pub fn counts(&self, contexts: u64) -> SessionCounts
        ensures { (commons : CommonState) (scene : Scene) → OwnersFit self.now commons scene → size scene.session.contexts ≡ contexts → result ≡ counts scene.session }
    {
        let (files, descriptors) = self.tables.file_counts();
        SessionCounts {
            pins: self.tables.pinned_buffers(),
            files,
            descriptors,
            locks: self.locks.distinct(),
            snapshots: self.tables.different_snapshots(),
            plans: self.tables.standing_plans(),
            refs: self.tables.referenced(),
            owners: self.owners.count(),
            contexts,
        }
    }

    /// How many owners live.
    pub fn count(&self) -> u64
        ensures count { result ≡ size (owners_of self.now) }
        ensures sound { IsSound (owners_of self.now) self.now.next_owner self.now.next_serial }
        ensures items { AllNodes HoldsCounted (owners_of self.now) }
    {
        self.owners.count()
    }
}
