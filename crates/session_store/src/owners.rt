//! The resource owners of a session.
ghost use Rattle.std.specs.Prelude.{◌≡◌, ◌≢◌, ◌↔◌, ℕ, ◌+◌, ◌-◌, ◌<◌, ◌≤◌, ◌^◌, true, false, find, length, slice_get, Err, None, Some, IfErr, IfSome, IsErrOf, IsOkUnless, OnOk, OnErr};
ghost use Rattle.std.specs.Option.{ok_or, option_and_then, option_map};
ghost use Rattle.addr_space.specs.Space.{Space};
ghost use Rattle.reset_callbacks.specs.ShelfState.{ShelfState};
ghost use Rattle.forest.specs.Forest.{parent_of};
ghost use Rattle.pgs_step.specs.declared.lock_modes.Mode.{Mode as LockMode};
ghost use Rattle.lock_shared.specs.Ranked.{beside, least_conflict};
ghost use Rattle.lock_local.specs.declared.errors.LockError.TheVariants.{Conflict, NotHeld};
ghost use Rattle.lock_local.specs.Locks.{count_of};
ghost use Rattle.owner_items.specs.ItemList.{is_of};
ghost use Rattle.owner_kinds.specs.Kind.{IsFull};
ghost use Rattle.owner_kinds.specs.KindShelf.{table_of};
ghost use Rattle.owner_kinds.specs.KindTable.{IsExtension};
ghost use Rattle.session_owners.specs.ResourceState.{AllAt, HoldsNothing, IsLive, has_begun, items_of, owners_of, spare_of};
ghost use Rattle.subxact_stack.specs.Levels.{level_at};
ghost use Rattle.session_rules.specs.Limits.{most_files, shared_buffers};
ghost use Rattle.session_rules.specs.Acts.{nothing};
ghost use Rattle.session_rules.specs.State as rules;
ghost use Rattle.session_rules.specs.State.{buffer_pin, file_kind};
ghost use Rattle.session_rules.specs.Counts.{holds};
ghost use Rattle.session_rules.specs.Taking.{descriptor_given, item_taken, lock_taken};
ghost use Rattle.session_rules.specs.Parts.{lock_given_back, pinning};
ghost use Rattle.session_rules.specs.Releases.{item_released, owner_gone, owner_released};
ghost use Rattle.session_rules.specs.World.{Around};
ghost use Rattle.session_owners.specs.Counted.{IsReference, files_held, holds_file};
ghost use Rattle.session_owners.specs.Commons.{CommonState, Serves};
ghost use Rattle.session_store.specs.State.{scene_of, session_of};
ghost use Rattle.session_store.specs.Calls.{Acted, IsSilent, StandsIn};
ghost use Rattle.session_store.specs.Owned.{OwnersAlone};
ghost use Rattle.pgs_step.specs.declared.ids.TheConstants.KindId.{FIRST_EXTENSION};

use crate::store::Store;
use file_table::FileError;
use lock_local::LockError;
use owner_core::OwnerError;
use owner_kinds::{ExtKind, KindError};
use pgs_step::{Emit, Item, KindId, Mode, OwnerId};
use reset_callbacks::ResetHook;
use session_owners::Commons;
use std::alloc::AllocError;

impl<H: ResetHook> Store<H> {
    /// The owner of the deepest level, where there is one and it has one.
    pub fn level_owner(&self) -> Option<OwnerId>
        ensures owner { (s : Space) → option_map (λ id. id.number) result ≡ rules.level_owner (session_of self.now s) }
        ensures live { (s : Space) (x : ShelfState) (c : CommonState) → StandsIn self.now s x c → IfSome result (IsLive self.now.owners) }
    {
        self.owner_at(self.levels.depth())
    }

    /// The owner of the level of that number, where there is one and it has one.
    pub(crate) fn owner_at(&self, level: u32) -> Option<OwnerId>
        ensures owner { result ≡ option_and_then (λ found. found.owner) (level_at self.now.levels level) }
        ensures live { (s : Space) (x : ShelfState) (c : CommonState) → StandsIn self.now s x c → IfSome result (IsLive self.now.owners) }
    {
        match self.levels.at(level) {
            Some(found) => found.owner,
            None => None,
        }
    }

    /// Makes room for one more item of an owner: `ResourceOwnerEnlarge`. Nothing of the session changes.
    ///
    /// `Releasing` comes where the owner's release has begun, `Memory` where memory is refused, or where the owner has more
    /// than 2^40 items and their table has to be made anew.
    pub fn enlarge(&mut self, owner: OwnerId) -> Result<(), OwnerError>
        requires live { IsLive self.old.owners owner }
        ensures spare { OnOk result (1 ≤ spare_of owner.number self.new.owners) }
        ensures others { (other : ℕ) → other ≢ owner.number → spare_of other self.new.owners ≡ spare_of other self.old.owners }
        ensures acted { (s : Space) (x : ShelfState) (c : CommonState) → Acted nothing self.old self.new s s x x c c IsSilent }
        ensures session { (s : Space) → session_of self.new s ≡ session_of self.old s }
        ensures alone { (c : CommonState) → OwnersAlone self.old self.new c c }
        ensures plans { self.new.owners.plans ≡ self.old.owners.plans }
        ensures releasing { (result ≡ Err OwnerError.Releasing) ↔ (has_begun owner.number (owners_of self.old.owners) ≡ true) }
        ensures refused { OnErr result (self.new ≡ self.old) }
        ensures not_too_many { result ≢ Err OwnerError.TooMany }
        ensures not_owned { result ≢ Err OwnerError.NotOwned }
    {
        self.owners.enlarge(owner)
    }

    /// Pins a buffer, and the owner remembers the pin, in room that `enlarge` has made: `PinBuffer`.
    pub fn pin<K: ExtKind, E: Emit>(
        &mut self,
        owner: OwnerId,
        buffer: u32,
        commons: &mut Commons<K>,
        out: &mut E,
    )
        requires live { IsLive self.old.owners owner }
        requires spare { 1 ≤ spare_of owner.number self.old.owners }
        requires not_begun { has_begun owner.number (owners_of self.old.owners) ≡ false }
        requires buffer { buffer < shared_buffers }
        requires serial { self.old.owners.next_serial < 2 ^ 62 }
        requires serves { Serves self.old.owners commons.old }
        ensures spare { spare_of owner.number self.old.owners ≤ spare_of owner.number self.new.owners + 1 }
        ensures others { (other : ℕ) → other ≢ owner.number → spare_of other self.new.owners ≡ spare_of other self.old.owners }
        ensures acted { (s : Space) (x : ShelfState) → Acted (item_taken owner.number buffer_pin buffer) self.old self.new s s x x commons.old commons.new (λ events. E.emits out.old events out.new) }
        ensures alone { OwnersAlone self.old self.new commons.old commons.new }
    {
        self.owners.pin(owner, buffer, commons, out);
    }

    /// How many sessions pin a buffer.
    pub fn pinned<K: ExtKind>(&self, buffer: u32, commons: &Commons<K>) -> u32
        requires serves { Serves self.now.owners commons.now }
        requires buffer { buffer < shared_buffers }
        ensures { (s : Space) (x : ShelfState) (around : Around) → result ≡ pinning buffer (scene_of self.now s x commons.now around) }
    {
        self.owners.pinned(buffer, commons)
    }

    /// Takes a reference to the key of a class, and the owner remembers it, in room that `enlarge` has made. It fails for want of
    /// memory alone.
    pub fn add_reference<E: Emit>(
        &mut self,
        owner: OwnerId,
        class: KindId,
        key: u32,
        out: &mut E,
    ) -> Result<(), AllocError>
        requires live { IsLive self.old.owners owner }
        requires spare { 1 ≤ spare_of owner.number self.old.owners }
        requires not_begun { has_begun owner.number (owners_of self.old.owners) ≡ false }
        requires class { IsReference class }
        requires serial { self.old.owners.next_serial < 2 ^ 62 }
        ensures others { (other : ℕ) → other ≢ owner.number → spare_of other self.new.owners ≡ spare_of other self.old.owners }
        ensures acted { OnOk result ((s : Space) (x : ShelfState) (c : CommonState) → Acted (item_taken owner.number class key) self.old self.new s s x x c c (λ events. E.emits out.old events out.new)) }
        ensures alone { OnOk result ((c : CommonState) → OwnersAlone self.old self.new c c) }
        ensures refused { OnErr result (self.new ≡ self.old) }
        ensures silent { OnErr result (out.new ≡ out.old) }
    {
        self.owners.add_reference(owner, class, key, out)
    }

    /// Takes a key of an extension kind of the commons, and the owner remembers it, in room that `enlarge` has made.
    ///
    /// `Full` comes exactly where the kind holds as many keys as it can, else `Memory` where memory is refused. Nothing
    /// changes then.
    pub fn take_extension<K: ExtKind, E: Emit>(
        &mut self,
        owner: OwnerId,
        kind: KindId,
        key: u32,
        commons: &mut Commons<K>,
        out: &mut E,
    ) -> Result<(), KindError>
        requires live { IsLive self.old.owners owner }
        requires spare { 1 ≤ spare_of owner.number self.old.owners }
        requires not_begun { has_begun owner.number (owners_of self.old.owners) ≡ false }
        requires serial { self.old.owners.next_serial < 2 ^ 62 }
        requires kind { IsExtension (table_of commons.old.kinds) kind }
        requires serves { Serves self.old.owners commons.old }
        ensures others { (other : ℕ) → other ≢ owner.number → spare_of other self.new.owners ≡ spare_of other self.old.owners }
        ensures acted { OnOk result ((s : Space) (x : ShelfState) → Acted (item_taken owner.number kind key) self.old self.new s s x x commons.old commons.new (λ events. E.emits out.old events out.new)) }
        ensures alone { OnOk result (OwnersAlone self.old self.new commons.old commons.new) }
        ensures full { (result ≡ Err KindError.Full) ↔ IfSome (slice_get commons.old.kinds (kind.0 - FIRST_EXTENSION)) IsFull }
        ensures refused { OnErr result (self.new ≡ self.old) }
        ensures untouched { OnErr result (commons.new ≡ commons.old) }
        ensures silent { OnErr result (out.new ≡ out.old) }
    {
        self.owners.take_extension(owner, kind, key, commons, out)
    }

    /// Opens a file, which gets a descriptor, and the owner remembers it, in room that `enlarge` has made: `PathNameOpenFile`.
    ///
    /// `TooMany` comes exactly where the session has 4,096 files open, else `Memory` where memory is refused.
    pub fn open_file<E: Emit>(
        &mut self,
        owner: OwnerId,
        file: u32,
        out: &mut E,
    ) -> Result<(), FileError>
        requires live { IsLive self.old.owners owner }
        requires spare { 1 ≤ spare_of owner.number self.old.owners }
        requires not_begun { has_begun owner.number (owners_of self.old.owners) ≡ false }
        requires closed { holds_file file (owners_of self.old.owners) ≡ false }
        requires serial { self.old.owners.next_serial < 2 ^ 62 }
        ensures others { (other : ℕ) → other ≢ owner.number → spare_of other self.new.owners ≡ spare_of other self.old.owners }
        ensures acted { OnOk result ((s : Space) (x : ShelfState) (c : CommonState) → Acted (item_taken owner.number file_kind file) self.old self.new s s x x c c (λ events. E.emits out.old events out.new)) }
        ensures alone { OnOk result ((c : CommonState) → OwnersAlone self.old self.new c c) }
        ensures too_many { (result ≡ Err FileError.TooMany) ↔ (most_files ≤ length (files_held (owners_of self.old.owners))) }
        ensures causes { (result ≢ Err FileError.Taken) × (result ≢ Err FileError.NoFile) }
        ensures refused { OnErr result (self.new ≡ self.old) }
        ensures silent { OnErr result (out.new ≡ out.old) }
    {
        self.owners.open_file(owner, file, out)
    }

    /// Uses an open file, which gets a descriptor where it has none: `FileAccess`. It fails for want of memory alone.
    pub fn touch<E: Emit>(&mut self, file: u32, out: &mut E) -> Result<(), FileError>
        requires open { holds_file file (owners_of self.old.owners) ≡ true }
        ensures acted { OnOk result ((s : Space) (x : ShelfState) (c : CommonState) → Acted (descriptor_given file) self.old self.new s s x x c c (λ events. E.emits out.old events out.new)) }
        ensures alone { OnOk result ((c : CommonState) → OwnersAlone self.old self.new c c) }
        ensures causes { IfErr result (λ error. error ≡ FileError.Memory) }
        ensures refused { OnErr result (self.new ≡ self.old) }
        ensures silent { OnErr result (out.new ≡ out.old) }
    {
        self.owners.touch(file, out)
    }

    /// Whether the session has the file open.
    pub fn is_open(&self, file: u32) -> bool
        ensures held { result ≡ holds_file file (owners_of self.now.owners) }
        ensures session { (s : Space) → result ≡ holds file_kind file (session_of self.now s) }
    {
        self.owners.is_open(file)
    }

    /// An owner holds the object in this mode once more: `LockAcquire`.
    ///
    /// `Conflict` comes exactly where another session holds the object in a mode that conflicts, and names the least such
    /// session and its least such mode. Else `Memory` comes where memory is refused.
    pub fn lock<K: ExtKind, E: Emit>(
        &mut self,
        owner: OwnerId,
        object: u32,
        mode: Mode,
        commons: &mut Commons<K>,
        out: &mut E,
    ) -> Result<(), LockError>
        requires { Serves self.old.owners commons.old }
        ensures conflict { (s : ℕ) (m : LockMode) → IsErrOf result (LockError.Conflict s m) ↔ (least_conflict object mode (beside self.old.owners.session commons.old.locks) ≡ Some (s, m)) }
        ensures held { IsErrOf result LockError.NotHeld → ⊥ }
        ensures counts { self.new.owners ≡ record self.old.owners { locks = self.new.owners.locks } }
        ensures acted { OnOk result ((s : Space) (x : ShelfState) → Acted (lock_taken object mode owner.number) self.old self.new s s x x commons.old commons.new (λ events. E.emits out.old events out.new)) }
        ensures alone { OnOk result (OwnersAlone self.old self.new commons.old commons.new) }
        ensures refused { OnErr result (self.new ≡ self.old) }
        ensures untouched { OnErr result (commons.new ≡ commons.old) }
        ensures silent { OnErr result (out.new ≡ out.old) }
    {
        self.owners.lock(owner, object, mode, commons, out)
    }

    /// An owner holds the object in this mode once less: `LockRelease`.
    ///
    /// `NotHeld` comes exactly where the owner doesn't hold it.
    pub fn unlock<K: ExtKind, E: Emit>(
        &mut self,
        owner: OwnerId,
        object: u32,
        mode: Mode,
        commons: &mut Commons<K>,
        out: &mut E,
    ) -> Result<(), LockError>
        requires { Serves self.old.owners commons.old }
        ensures not_held { IsErrOf result LockError.NotHeld ↔ (count_of self.old.owners.locks object mode owner.number ≡ 0) }
        ensures only_not_held { IsOkUnless result LockError.NotHeld }
        ensures counts { self.new.owners ≡ record self.old.owners { locks = self.new.owners.locks } }
        ensures acted { OnOk result ((s : Space) (x : ShelfState) → Acted (lock_given_back object mode owner.number) self.old self.new s s x x commons.old commons.new (λ events. E.emits out.old events out.new)) }
        ensures alone { OnOk result (OwnersAlone self.old self.new commons.old commons.new) }
        ensures refused { OnErr result (self.new ≡ self.old) }
        ensures untouched { OnErr result (commons.new ≡ commons.old) }
        ensures silent { OnErr result (out.new ≡ out.old) }
    {
        self.owners.unlock(owner, object, mode, commons, out)
    }
}
