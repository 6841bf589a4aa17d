//! How often a session pins each buffer and holds each reference, its open files, its snapshots and its plans.
ghost use Rattle.std.specs.Prelude.{◌≡◌, ◌≢◌, ◌↔◌, ◌⊎◌, ◌<◌, ◌≤◌, ◌+◌, ◌-◌, ◌^◌, ◌==◌, ◌&&◌, if◌then◌else◌, [], ◌∷◌, ◌++◌, ℕ, nat_lt, List, true, false, length, map, reverse, count_by, is_some, slice_index, slice_set, replicate, IsTrue, IsOk, IfErr, IfOk, OnOk, OnErr, None, Some};
ghost use Rattle.std.specs.Ordering.{nat_cmp, eq_by_cmp};
ghost use Rattle.std.specs.BTreeMap.{is_at};
ghost use Rattle.std.specs.Set.{distinct_count};
ghost use Rattle.counts.specs.Counts.{total, Tallies};
ghost use Rattle.pgs_step.specs.declared.ids.KindId.{KindId as Kind};
ghost use Rattle.pgs_step.specs.declared.events.What.{What};
ghost use Rattle.owner_items.specs.ItemList.{uses};
ghost use Rattle.owner_core.specs.Steps.{GivesBack};
ghost use Rattle.owner_kinds.specs.Kind.{Kind as ExtensionKind};
ghost use Rattle.session_owners.specs.Tables.{is_class, lending_of, times_held, ArePinsShared, IsReference, PinsBalance, TablesDo};
ghost use Rattle.session_rules.specs.Limits.{most_files, most_plans, shared_buffers};
ghost use Rattle.session_rules.specs.Lookup.{plan_changed};
ghost use Rattle.session_owners.specs.Hosting.{hosting_of};
ghost use Rattle.session_owners.specs.PlanStates.{plan_state};
ghost use Rattle.session_owners.specs.Placing.{plan_dropped, AreLeft, PlansDo, PlansFit};
ghost use Rattle.plan_store.specs.Plans.{is_usable, plan_of, references, RefersAlike, RefersOneMore};
ghost use Rattle.lock_local.specs.Locks.{Lock};
ghost use Rattle.ref_table.specs.References.{pair_cmp};
ghost use Rattle.snap_table.specs.declared.active.Active.{Active};
ghost use Rattle.snap_table.specs.Snapshots.{kept_below, lowered, pops, snapshots_of};
ghost use Rattle.file_table.specs.Descriptors.{is_among};
ghost use Rattle.file_table.specs.Files.{IsSound, OpensOneLess, OpensOneMore, closed_file, closing_events, opened_file, opening_events, opens, touch_events, touched_file};
ghost use Rattle.pgs_step.specs.declared.ids.TheConstants.KindId.{FIRST_EXTENSION};

use crate::place::PlanContexts;
use crate::plans;
use file_table::{FileError, FileTable};
use pgs_step::{CtxId, Emit, Item, KindId};
use pin_table::{BUFFERS, SharedPins};
use plan_store::{PlanError, PlanStore};
use ref_table::RefTable;
use snap_table::{SnapError, SnapTable};
use std::alloc::{AllocError, Global};
use std::marker::Model;

/// The session's counts of pins of each buffer and of references, its open files, its snapshots, and its plans.
#[derive(Drop)]
pub struct Tables {
    pins: Vec<u64>,
    /// How many different buffers are pinned.
    pinned: u64,
    references: RefTable,
    files: FileTable,
    snapshots: SnapTable,
    plans: PlanStore,
}

impl Model for Tables {
    ghost use Rattle.std.specs.Prelude.{◌≡◌, count_by, nat_lt};
    ghost use Rattle.std.specs.Vec.{vec_len};
    ghost use Rattle.session_rules.specs.Limits.{shared_buffers};
    ghost use Rattle.session_owners.specs.Tables.{AreOfClasses, Held, held_code};

    ghost Value = { Held };

    ghost coded = { held_code };

    ghost view = { λ t. record { pins = t.pins.items; references = t.references; files = t.files; snapshots = t.snapshots; plans = t.plans } };

    ghost invariant = { λ t. (vec_len t.pins ≡ shared_buffers) × AreOfClasses t.references × (t.pinned ≡ count_by (λ count. nat_lt 0 count) t.pins.items) };
}

impl Tables {
    /// No buffer is pinned, no reference is held, no file is open, there is no snapshot and no plan, and this many files can
    /// have a descriptor. It fails for want of memory alone.
    pub fn new(alloc: Global, descriptors: u8) -> Result<Tables, AllocError>
        requires descriptors { 0 < descriptors }
        ensures pins { IfOk result (λ tables. tables.pins ≡ replicate shared_buffers 0) }
        ensures references { IfOk result (λ tables. tables.references ≡ []) }
        ensures files { IfOk result (λ tables. tables.files ≡ record { descriptors = descriptors; opened = []; recent = [] }) }
        ensures snapshots { IfOk result (λ tables. tables.snapshots ≡ record { registered = []; stack = [] }) }
        ensures plans { IfOk result (λ tables. tables.plans ≡ record { standing = []; reserved = None }) }
    {
        let files = match FileTable::new(alloc, descriptors) {
            Ok(files) => files,
            Err(_) => return Err(AllocError),
        };
        Ok(Tables {
            pins: vec![in alloc; 0; BUFFERS as usize]?,
            pinned: 0,
            references: RefTable::new(alloc),
            files,
            snapshots: SnapTable::new(alloc),
            plans: PlanStore::new(alloc),
        })
    }

    /// Pins the buffer once more. The session's first pin of it raises the count of the sessions that pin it.
    pub fn pin(&mut self, buffer: u32, shared: &mut SharedPins)
        requires buffer { buffer < shared_buffers }
        requires room { slice_index self.old.pins buffer + 1 < 2 ^ 64 }
        requires sessions { slice_index shared.old buffer < 2 ^ 32 - 1 }
        ensures pinned { self.new ≡ record self.old { pins = slice_set self.old.pins buffer (slice_index self.old.pins buffer + 1) } }
        ensures buffers { length self.new.pins ≡ shared_buffers }
        ensures balance { PinsBalance self.old.pins self.new.pins shared.old shared.new }
    {
        if self.pins[buffer as usize] == 0 {
            shared.raise(buffer);
            self.pinned += 1;
        }
        self.pins[buffer as usize] += 1;
    }

    /// Pins the buffer once less. The session's last unpin of it lowers the count of the sessions that pin it.
    fn unpin(&mut self, buffer: u32, shared: &mut SharedPins)
        requires pinned { 0 < slice_index self.old.pins buffer }
        requires shared { 0 < slice_index shared.old buffer }
        ensures unpinned { self.new ≡ record self.old { pins = slice_set self.old.pins buffer (slice_index self.old.pins buffer - 1) } }
        ensures buffers { length self.new.pins ≡ shared_buffers }
        ensures balance { PinsBalance self.old.pins self.new.pins shared.old shared.new }
    {
        self.pins[buffer as usize] -= 1;
        if self.pins[buffer as usize] == 0 {
            shared.lower(buffer);
            self.pinned -= 1;
        }
    }

    /// Takes one more reference to the key of the class, which a snapshot is registered for. It fails for want of memory alone.
    pub fn add_reference(&mut self, class: KindId, key: u32) -> Result<(), AllocError>
        requires class { IsReference class }
        requires room { total self.old.references < 2 ^ 62 }
        ensures pins { self.new.pins ≡ self.old.pins }
        ensures files { self.new.files ≡ self.old.files }
        ensures stack { self.new.snapshots.stack ≡ self.old.snapshots.stack }
        ensures plans { self.new.plans ≡ self.old.plans }
        ensures buffers { length self.new.pins ≡ shared_buffers }
        ensures counts { OnOk result ((kind : Kind) (k : ℕ) → times_held self.new kind k ≡ times_held self.old kind k + (if (class.0 == kind.0) && (key == k) then 1 else 0)) }
        ensures total { total self.new.references ≤ total self.old.references + 1 }
        ensures refused { OnErr result (self.new ≡ self.old) }
    {
        if class == KindId::SNAPSHOT_REFERENCE {
            return self.snapshots.register(key);
        }
        self.references.add(class, key)
    }

    /// Opens a file and gives it a descriptor.
    ///
    /// It answers `Taken` exactly where the file is open, else `TooMany` exactly where 4,096 files are, and else `Memory` where
    /// memory is refused.
    pub fn open_file<E: Emit>(&mut self, file: u32, out: &mut E) -> Result<(), FileError>
        ensures opened { OnOk result (self.new ≡ record self.old { files = opened_file file self.old.files }) }
        ensures counts { OnOk result (OpensOneMore self.old.files self.new.files file) }
        ensures buffers { length self.new.pins ≡ shared_buffers }
        ensures events { OnOk result (E.emits out.old (opening_events file self.old.files) out.new) }
        ensures taken { (result ≡ Err FileError.Taken) ↔ IsTrue (is_among file self.old.files.opened) }
        ensures too_many { (result ≡ Err FileError.TooMany) ↔ ((is_among file self.old.files.opened ≡ false) × (length self.old.files.opened ≡ most_files)) }
        ensures no_other { result ≢ Err FileError.NoFile }
        ensures refused { OnErr result (self.new ≡ self.old) }
        ensures silent { OnErr result (out.new ≡ out.old) }
    {
        self.files.open_file(file, out)
    }

    /// Uses an open file, which has a descriptor then. It answers `NoFile` exactly where the file isn't open, and else `Memory`
    /// where memory is refused.
    pub fn touch<E: Emit>(&mut self, file: u32, out: &mut E) -> Result<(), FileError>
        ensures touched { OnOk result (self.new ≡ record self.old { files = touched_file file self.old.files }) }
        ensures open { self.new.files.opened ≡ self.old.files.opened }
        ensures pins { self.new.pins ≡ self.old.pins }
        ensures references { self.new.references ≡ self.old.references }
        ensures plans { self.new.plans ≡ self.old.plans }
        ensures events { OnOk result (E.emits out.old (touch_events file self.old.files) out.new) }
        ensures no_file { (result ≡ Err FileError.NoFile) ↔ (is_among file self.old.files.opened ≡ false) }
        ensures no_other { (result ≢ Err FileError.Taken) × (result ≢ Err FileError.TooMany) }
        ensures refused { OnErr result (self.new ≡ self.old) }
        ensures silent { OnErr result (out.new ≡ out.old) }
    {
        self.files.touch(file, out)
    }

    /// Closes an open file, and its descriptor where it has one.
    fn close_file<E: Emit>(&mut self, file: u32, out: &mut E)
        requires open { 0 < opens self.old.files file }
        ensures closed { self.new ≡ record self.old { files = closed_file file self.old.files } }
        ensures counts { OpensOneLess self.old.files self.new.files file }
        ensures buffers { length self.new.pins ≡ shared_buffers }
        ensures events { E.emits out.old (closing_events file self.old.files) out.new }
    {
        match self.files.close_file(file, out) {
            Ok(()) => {}
            Err(_) => unreachable!(),
        }
    }

    /// Whether the file is open.
    pub fn is_open(&self, file: u32) -> bool
        ensures { result ≡ is_among file self.now.files.opened }
    {
        self.files.is_open(file)
    }

    /// Facts of the open files, for proofs. It does nothing.
    pub fn laws(&self)
        ensures sound { IsSound self.now.files }
    {
        self.files.laws();
    }

    /// Gives a reference to the key of the class back.
    fn drop_reference(&mut self, class: KindId, key: u32)
        requires no_pin { class.0 ≢ 1 }
        requires no_file { class.0 ≢ 8 }
        requires no_plan { class.0 ≢ 5 }
        requires counted { 0 < times_held self.old class key }
        ensures pins { self.new.pins ≡ self.old.pins }
        ensures files { self.new.files ≡ self.old.files }
        ensures stack { self.new.snapshots.stack ≡ self.old.snapshots.stack }
        ensures plans { self.new.plans ≡ self.old.plans }
        ensures buffers { length self.new.pins ≡ shared_buffers }
        ensures counts { (kind : Kind) (k : ℕ) → times_held self.new kind k + (if (class.0 == kind.0) && (key == k) then 1 else 0) ≡ times_held self.old kind k }
        ensures fewer { total self.new.references ≤ total self.old.references }
    {
        if class == KindId::SNAPSHOT_REFERENCE {
            match self.snapshots.unregister(key) {
                Ok(()) => return,
                Err(_) => unreachable!(),
            }
        }
        match self.references.drop_ref(class, key) {
            Ok(()) => {}
            Err(_) => unreachable!(),
        }
    }

    /// Gives a pin, a reference or a file back. The last reference to a discarded plan takes its context with it.
    pub fn give_back<P: PlanContexts, E: Emit>(
        &mut self,
        item: Item,
        shared: &mut SharedPins,
        place: &mut P,
        out: &mut E,
    )
        requires built_in { item.kind.0 < FIRST_EXTENSION }
        requires counted { 0 < times_held self.old item.kind item.key }
        requires shared { ArePinsShared self.old.pins shared.old }
        requires fit { PlansFit (P.MayGo place.old) self.old.plans.standing }
        ensures buffers { length self.new.pins ≡ shared_buffers }
        ensures counted { (kind : Kind) (key : ℕ) → times_held self.new kind key + uses kind key (item ∷ []) ≡ times_held self.old kind key }
        ensures balance { PinsBalance self.old.pins self.new.pins shared.old shared.new }
        ensures done { (kinds : List ExtensionKind) (locks : List Lock) → (events : List What) × TablesDo (lending_of self.old kinds locks (P.contexts place.old) (P.shelf place.old)) (GivesBack item ∷ []) events (lending_of self.new kinds locks (P.contexts place.new) (P.shelf place.new)) × E.emits out.old events out.new }
        ensures went { P.went place.old place.new }
        ensures fit { PlansFit (P.MayGo place.new) self.new.plans.standing }
    {
        if item.kind == KindId::BUFFER_PIN {
            return self.unpin(item.key, shared);
        }
        if item.kind == KindId::FILE {
            return self.close_file(item.key, out);
        }
        if item.kind == KindId::PLAN_REFERENCE {
            return plans::leave(&mut self.plans, item.key, place, out);
        }
        self.drop_reference(item.kind, item.key);
    }

    /// Takes the room for a plan of a number that no plan has.
    ///
    /// `TooMany` comes exactly where 1,024 plans stand, else `Memory` where memory is refused.
    pub fn reserve_plan(&mut self, plan: u32) -> Result<(), PlanError>
        requires new { plan_of self.old.plans plan ≡ None }
        ensures reserved { OnOk result (self.new ≡ record self.old { plans = record self.old.plans { reserved = Some plan } }) }
        ensures too_many { (result ≡ Err PlanError.TooMany) ↔ (most_plans ≤ length self.old.plans.standing) }
        ensures causes { IfErr result (λ error. (error ≡ PlanError.TooMany) ⊎ (error ≡ PlanError.Memory)) }
        ensures refused { OnErr result (self.new ≡ self.old) }
    {
        self.plans.reserve(plan)
    }

    /// Makes the plan for which room is reserved.
    pub fn make_plan(&mut self, plan: u32, context: CtxId)
        requires reserved { self.old.plans.reserved ≡ Some plan }
        ensures made { self.new ≡ record self.old { plans = record { standing = self.old.plans.standing ++ (plan, record { context = context; discarded = false; references = 0 }) ∷ []; reserved = None } } }
        ensures counts { RefersAlike self.old.plans self.new.plans }
        ensures total { references self.new.plans ≡ references self.old.plans }
    {
        self.plans.make(plan, context);
    }

    /// Takes one more reference to a plan that isn't discarded. It fails for want of memory alone.
    pub fn reference_plan(&mut self, plan: u32) -> Result<(), AllocError>
        requires usable { is_usable self.old.plans plan ≡ true }
        requires room { references self.old.plans < 2 ^ 62 }
        ensures alone { self.new ≡ record self.old { plans = self.new.plans } }
        ensures buffers { length self.new.pins ≡ shared_buffers }
        ensures changed { OnOk result (map plan_state self.new.plans.standing ≡ plan_changed plan (λ p. record p { references = p.references + 1 }) (map plan_state self.old.plans.standing)) }
        ensures left { AreLeft self.old.plans.standing self.new.plans.standing }
        ensures counts { OnOk result (RefersOneMore self.old.plans self.new.plans plan) }
        ensures total { OnOk result (references self.new.plans ≡ references self.old.plans + 1) }
        ensures reserved { self.new.plans.reserved ≡ self.old.plans.reserved }
        ensures refused { OnErr result (self.new ≡ self.old) }
    {
        self.plans.laws();
        if let Err(_) = self.plans.add_ref(plan) {
            return Err(AllocError);
        }
        Ok(())
    }

    /// Discards a plan, which goes with its context where no reference to it is held.
    pub fn drop_plan<P: PlanContexts, E: Emit>(&mut self, plan: u32, place: &mut P, out: &mut E)
        requires usable { is_usable self.old.plans plan ≡ true }
        requires fit { PlansFit (P.MayGo place.old) self.old.plans.standing }
        ensures alone { self.new ≡ record self.old { plans = self.new.plans } }
        ensures counts { RefersAlike self.old.plans self.new.plans }
        ensures total { references self.new.plans ≡ references self.old.plans }
        ensures done { (events : List What) × PlansDo (plan_dropped plan) events self.old.plans.standing self.new.plans.standing (hosting_of (P.contexts place.old) (P.shelf place.old)) (hosting_of (P.contexts place.new) (P.shelf place.new)) × E.emits out.old events out.new }
        ensures went { P.went place.old place.new }
        ensures fit { PlansFit (P.MayGo place.new) self.new.plans.standing }
        ensures left { AreLeft self.old.plans.standing self.new.plans.standing }
    {
        plans::discard(&mut self.plans, plan, place, out);
    }

    /// Whether a plan of that number stands, discarded or not.
    pub fn has_plan(&self, plan: u32) -> bool
        ensures { result ≡ is_some (plan_of self.now.plans plan) }
    {
        self.plans.stands(plan)
    }

    /// Whether a plan of that number stands that isn't discarded.
    pub fn can_refer(&self, plan: u32) -> bool
        ensures { result ≡ is_usable self.now.plans plan }
    {
        self.plans.usable(plan)
    }

    /// How many plans stand, discarded or not.
    pub fn standing_plans(&self) -> u64
        ensures { result ≡ length self.now.plans.standing }
    {
        self.plans.count()
    }

    /// Puts a snapshot of a level on the stack of active ones. It fails for want of memory alone.
    pub fn push<E: Emit>(
        &mut self,
        snapshot: u32,
        level: u32,
        out: &mut E,
    ) -> Result<(), AllocError>
        ensures pushed { OnOk result (self.new ≡ record self.old { snapshots = record self.old.snapshots { stack = self.old.snapshots.stack ++ record { snapshot = snapshot; level = level } ∷ [] } }) }
        ensures emitted { OnOk result (E.emits out.old (What.Push snapshot ∷ []) out.new) }
        ensures refused { OnErr result (self.new ≡ self.old) }
        ensures silent { OnErr result (out.new ≡ out.old) }
    {
        self.snapshots.push(snapshot, level, out)
    }

    /// Takes the newest active snapshot, which is of that level, off the stack. It answers `NotHeld` exactly where it is of
    /// another level or there is none.
    pub fn pop<E: Emit>(&mut self, level: u32, out: &mut E) -> Result<(), SnapError>
        ensures held { IsOk result ↔ ((rest : List Active) × (snapshot : ℕ) × (self.old.snapshots.stack ≡ rest ++ record { snapshot = snapshot; level = level } ∷ [])) }
        ensures popped { OnOk result ((snapshot : ℕ) × (self.old.snapshots.stack ≡ self.new.snapshots.stack ++ record { snapshot = snapshot; level = level } ∷ []) × E.emits out.old (What.Pop snapshot ∷ []) out.new) }
        ensures alone { self.new ≡ record self.old { snapshots = record self.old.snapshots { stack = self.new.snapshots.stack } } }
        ensures refused { OnErr result (self.new ≡ self.old) }
        ensures silent { OnErr result (out.new ≡ out.old) }
    {
        self.snapshots.pop(level, out)
    }

    /// Takes each active snapshot of that level or of a deeper one off the stack, the newest first.
    pub fn pop_from<E: Emit>(&mut self, level: u32, out: &mut E)
        ensures kept { self.new ≡ record self.old { snapshots = record self.old.snapshots { stack = kept_below level self.old.snapshots.stack } } }
        ensures emitted { E.emits out.old (pops level (reverse self.old.snapshots.stack)) out.new }
    {
        self.snapshots.sub_abort(level, out);
    }

    /// Active snapshots of that level belong to the level above then.
    pub fn lower_stack(&mut self, level: u32)
        requires { 1 ≤ level }
        ensures { self.new ≡ record self.old { snapshots = record self.old.snapshots { stack = map (lowered level) self.old.snapshots.stack } } }
    {
        self.snapshots.sub_commit(level);
    }

    /// How many different buffers are pinned.
    pub fn pinned_buffers(&self) -> u64
        ensures { result ≡ count_by (λ count. nat_lt 0 count) self.now.pins }
    {
        self.pinned
    }

    /// How many files are open, and how many of them have a descriptor.
    pub fn file_counts(&self) -> (u64, u64)
        ensures opened { result.0 ≡ length self.now.files.opened }
        ensures recent { result.1 ≡ length self.now.files.recent }
        ensures sound { IsSound self.now.files }
    {
        self.files.counts()
    }

    /// To how many different pairs of class and key references are held, but for snapshots.
    pub fn referenced(&self) -> u64
        // by any list in which each pair of one of the classes stands as often as references to it are held, and no other
        ensures { (pairs : List (ℕ × ℕ)) → ((class key : ℕ) → count_by (is_at (pair_cmp (class, key))) pairs ≡ (if is_class class then times_held self.now (record { 0 = class }) key else 0)) → result ≡ distinct_count (eq_by_cmp pair_cmp) pairs }
    {
        self.references.distinct()
    }

    /// How many different snapshots are registered or active.
    pub fn different_snapshots(&self) -> u64
        // by any list in which each snapshot stands as often as it is registered
        ensures { (taken : List ℕ) → Tallies nat_cmp taken self.now.snapshots.registered → result ≡ distinct_count (eq_by_cmp nat_cmp) (taken ++ snapshots_of self.now.snapshots.stack) }
    {
        self.snapshots.distinct()
    }
}
