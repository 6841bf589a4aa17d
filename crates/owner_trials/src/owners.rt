ghost use Rattle.std.specs.Prelude.{◌≡◌, ◌↔◌, ℕ, ◌+◌, ◌<◌, ◌^◌, true, None, ◌∷◌, All, IfOk, IfSome, OnOk, OnErr};
ghost use Rattle.std.specs.Option.{option_map};
ghost use Rattle.forest.specs.Forest.{Empty, parent_of, AllNodes};
ghost use Rattle.owner_kinds.specs.KindShelf.{table_of};
ghost use Rattle.owner_kinds.specs.KindTable.{KindTable, IsBuiltIn};
ghost use Rattle.owner_items.specs.ItemList.{uses};
ghost use Rattle.owner_core.specs.Owners.{owners_of, IsLive, created, entered, AllAt, HoldsNothing};
ghost use Rattle.owner_core.specs.Released.{released};

use owner_core::{OwnerError, Owners, Release};
use owner_items::Items;
use owner_kinds::{CountedKind, KindShelf};
use pgs_step::{Emit, EventList, Item, KindId, Mode, OwnerId, Phase, What};
use std::alloc::{AllocError, Global};
use std::marker::Model;
use std::test::Fail;

const ONE_OWNER: u32 = 1;

const ALL_OWNERS: u32 = 2;

/// Each item that an owner remembers. Locks are events alone.
#[derive(Drop)]
struct Table {
    kinds: KindShelf<CountedKind>,
    held: Items,
    next: u64,
}

impl Table {
    fn new(alloc: Global) -> Result<Table, AllocError>
        ensures { IfOk result (λ table. All (λ item. item.serial < table.next) table.held.items) }
    {
        let none: Vec<CountedKind> = Vec::new(alloc);
        Ok(Table {
            kinds: KindShelf::new(alloc, none)?,
            held: Items::new(alloc),
            next: 1,
        })
    }

    fn add(&mut self, kind: KindId, key: u32) -> Result<(), OwnerError>
        requires { All (λ item. item.serial < self.old.next) self.old.held.items }
        ensures fit { All (λ item. item.serial < self.new.next) self.new.held.items }
        ensures item { OnOk result (self.new.held.items ≡ record { kind = kind; key = key; serial = self.old.next } ∷ self.old.held.items) }
        ensures refused { OnErr result (self.new.held.items ≡ self.old.held.items) }
    {
        let after = self.next.checked_add(1).ok_or(OwnerError::TooMany)?;
        self.held.enlarge()?;
        self.held.remember(Item {
            kind,
            key,
            serial: self.next,
        });
        self.next = after;
        Ok(())
    }
}

impl Release for Table {
    type Extension = CountedKind;

    ghost IsFit = { λ table. All (λ item. item.serial < table.next) table.held.items };

    ghost counted = { λ table kind key. uses kind key table.held.items };

    ghost kind_table = { λ table. table_of table.kinds };

    ghost does = { λ _ _ _ _. Unit {0} };

    fn kinds(&self) -> &KindShelf<CountedKind> {
        &self.kinds
    }

    fn give_back<E: Emit>(&mut self, item: Item, out: &mut E) {
        let _ = self.held.forget(item.kind, item.key);
        out.emit(What::DescriptorClosed(item.key));
    }

    fn release_owner<E: Emit>(&mut self, owner: OwnerId, out: &mut E) {
        out.emit(unlocked(ONE_OWNER, owner.number));
    }

    fn pass_owner<E: Emit>(&mut self, from: OwnerId, to: OwnerId, out: &mut E) {
        out.emit(passed(from.number, to.number));
    }

    fn release_all<E: Emit>(&mut self, top: OwnerId, out: &mut E) {
        out.emit(unlocked(ALL_OWNERS, top.number));
    }

    ghost does_nothing = { λ _. tt };

    ghost does_said = { λ _ _. tt };

    ghost does_more = { λ _ _ _ _ _ _ _ _ _ _ _ _ _. tt };
}

fn unlocked(object: u32, owner: u64) -> What {
    What::ReleaseLock {
        object,
        mode: Mode::ShareLock,
        count: 1,
        owner,
    }
}

fn passed(from: u64, to: u64) -> What {
    What::PassLock {
        object: ONE_OWNER,
        mode: Mode::ShareLock,
        count: 1,
        from,
        to,
    }
}

/// Owners, the table of all their items, and what both say.
#[derive(Drop)]
struct Session {
    owners: Owners,
    table: Table,
    next_serial: u64,
    out: EventList,
}

impl Model for Session {
    ghost use Rattle.std.specs.Prelude.{◌≡◌, ℕ, ◌<◌, ◌≤◌, All};
    ghost use Rattle.pgs_step.specs.declared.ids.KindId.{KindId};
    ghost use Rattle.forest.specs.Forest.{AllNodes};
    ghost use Rattle.owner_kinds.specs.KindTable.{IsBuiltIn};
    ghost use Rattle.owner_items.specs.ItemList.{uses};
    ghost use Rattle.owner_core.specs.Owners.{OwnerTable, owners_of, held};

    ghost Value = { OwnerTable };

    ghost use Rattle.owner_core.specs.TableCode.{owner_table_code};

    ghost coded = { owner_table_code };

    ghost view = { λ s. s.owners };

    ghost invariant = { λ s. ((kind : KindId) (key : ℕ) → held kind key (owners_of s.owners) ≤ uses kind key s.table.held.items)
        × AllNodes (λ o. All (λ item. IsBuiltIn item.kind) o.items) (owners_of s.owners)
        × All (λ item. item.serial < s.table.next) s.table.held.items
        × (s.next_serial ≡ s.owners.next_serial) };
}

impl Session {
    fn new(alloc: Global, room: u32) -> Result<Session, AllocError>
        ensures { IfOk result (λ s. s ≡ record { rooms = Empty; places = Empty; next_owner = 1; next_serial = 1 }) }
    {
        Ok(Session {
            owners: Owners::new(alloc),
            table: Table::new(alloc)?,
            next_serial: 1,
            out: EventList::new(alloc, room)?,
        })
    }

    fn events(&self) -> &[What] {
        self.out.events()
    }

    fn create(&mut self, parent: Option<OwnerId>) -> Result<OwnerId, OwnerError>
        requires room { self.old.next_owner < 2 ^ 62 }
        requires parent { IfSome parent (IsLive self.old) }
        ensures number { IfOk result (λ owner. owner.number ≡ self.old.next_owner) }
        ensures live { IfOk result (IsLive self.new) }
        ensures stays { OnOk result ((other : OwnerId) → IsLive self.old other → IsLive self.new other) }
        ensures parents { OnOk result ((other : OwnerId) → IsLive self.old other → parent_of other.number (owners_of self.new) ≡ parent_of other.number (owners_of self.old)) }
        ensures owners { OnOk result (owners_of self.new ≡ created (option_map (λ p. p.number) parent) self.old.next_owner (owners_of self.old)) }
        ensures places { IfOk result (λ owner. self.new.places ≡ entered (option_map (λ p. p.number) parent) owner.number owner.slot self.old.places) }
        ensures next_owner { OnOk result (self.new.next_owner ≡ self.old.next_owner + 1) }
    {
        let owner = self.owners.create(parent, &mut self.out)?;
        Ok(owner)
    }

    fn hold(&mut self, owner: OwnerId, kind: KindId, key: u32) -> Result<(), OwnerError>
        requires live { IsLive self.old owner }
        requires kind { IsBuiltIn kind }
        ensures parents { OnOk result ((n : ℕ) → parent_of n (owners_of self.new) ≡ parent_of n (owners_of self.old)) }
        ensures places { OnOk result (self.new.places ≡ self.old.places) }
    {
        if self.next_serial >= 1_000_000 {
            return Err(OwnerError::TooMany);
        }
        self.owners.enlarge(owner)?;
        self.table.add(kind, key)?;
        let _ = self.owners.spare(owner);
        self.owners.remember(owner, kind, key, &mut self.out);
        self.next_serial += 1;
        Ok(())
    }

    fn release(&mut self, owner: OwnerId, phase: Phase, commit: bool, top: bool)
        requires live { IsLive self.old owner }
        requires top { (top ≡ true) ↔ (parent_of owner.number (owners_of self.old) ≡ None) }
        ensures parents { (n : ℕ) → parent_of n (owners_of self.new) ≡ parent_of n (owners_of self.old) }
        ensures places { self.new.places ≡ self.old.places }
        ensures built_in { AllNodes (λ o. All (λ item. IsBuiltIn item.kind) o.items) (owners_of self.old) }
        ensures owners { (kinds : KindTable) × (owners_of self.new ≡ released kinds phase owner.number (owners_of self.old)) }
    {
        self.owners
            .release(owner, phase, commit, top, &mut self.table, &mut self.out);
    }

    fn discard(&mut self, owner: OwnerId)
        requires live { IsLive self.old owner }
        requires empty { AllAt HoldsNothing owner.number (owners_of self.old) }
    {
        self.owners.discard(owner, &mut self.out);
    }
}

#[test]
fn children_come_and_go_before_their_parent(rt: HostRuntime) -> Result<(), Fail> {
    let mut out = EventList::new(rt.alloc(), 20)?;
    let mut owners = Owners::new(rt.alloc());
    let top = owners.create(None, &mut out)?;
    let child = owners.create(Some(top), &mut out)?;
    assert_eq!(rt; owners.count(), 2);
    assert_eq!(rt; owners.spare(child), 0);
    owners.discard(top, &mut out);
    assert_eq!(rt; owners.count(), 0);
    let events = [
        What::Owner(1),
        What::OwnerIn {
            owner: 2,
            parent: 1,
        },
        What::OwnerGone(2),
        What::OwnerGone(1),
    ];
    assert_eq!(rt; out.events(), events.as_slice());
    Ok(())
}

#[test]
fn what_is_forgotten_is_said(rt: HostRuntime) -> Result<(), Fail> {
    let mut out = EventList::new(rt.alloc(), 20)?;
    let mut owners = Owners::new(rt.alloc());
    let top = owners.create(None, &mut out)?;
    owners.enlarge(top)?;
    owners.remember(top, KindId::BUFFER_PIN, 7, &mut out);
    assert_eq!(rt;
        owners.forget(top, KindId::BUFFER_PIN, 8, &mut out),
        Err(OwnerError::NotOwned)
    );
    assert_eq!(rt;
        owners.forget(top, KindId::BUFFER_PIN, 7, &mut out)?.serial,
        1
    );
    Ok(())
}

fn item(kind: KindId, key: u32, serial: u64) -> Item {
    Item { kind, key, serial }
}

/// One item of the first owner, three of the second and two of the third.
fn fill(
    session: &mut Session,
    first: OwnerId,
    second: OwnerId,
    third: OwnerId,
) -> Result<(), OwnerError>
    requires first { IsLive session.old first }
    requires second { IsLive session.old second }
    requires third { IsLive session.old third }
    ensures places { OnOk result (session.new.places ≡ session.old.places) }
    ensures parents { OnOk result ((n : ℕ) → parent_of n (owners_of session.new) ≡ parent_of n (owners_of session.old)) }
{
    session.hold(first, KindId::BUFFER_PIN, 7)?;
    session.hold(second, KindId::RELCACHE_REFERENCE, 9)?;
    session.hold(second, KindId::BUFFER_PIN, 7)?;
    session.hold(second, KindId::BUFFER_PIN, 8)?;
    session.hold(third, KindId::FILE, 5)?;
    session.hold(third, KindId::SNAPSHOT_REFERENCE, 4)?;
    Ok(())
}

/// All three phases, which leave nothing.
fn release_phases(session: &mut Session, owner: OwnerId, commit: bool, top: bool)
    requires live { IsLive session.old owner }
    requires top { (top ≡ true) ↔ (parent_of owner.number (owners_of session.old) ≡ None) }
    ensures empty { AllAt HoldsNothing owner.number (owners_of session.new) }
    ensures places { session.new.places ≡ session.old.places }
    ensures parents { (n : ℕ) → parent_of n (owners_of session.new) ≡ parent_of n (owners_of session.old) }
{
    session.release(owner, Phase::BeforeLocks, commit, top);
    session.release(owner, Phase::Locks, commit, top);
    session.release(owner, Phase::AfterLocks, commit, top);
}

const TOP_PIN: Item = Item {
    kind: KindId::BUFFER_PIN,
    key: 7,
    serial: 1,
};

const RELATION: Item = Item {
    kind: KindId::RELCACHE_REFERENCE,
    key: 9,
    serial: 2,
};

const PIN: Item = Item {
    kind: KindId::BUFFER_PIN,
    key: 7,
    serial: 3,
};

const OTHER_PIN: Item = Item {
    kind: KindId::BUFFER_PIN,
    key: 8,
    serial: 4,
};

const OPEN_FILE: Item = Item {
    kind: KindId::FILE,
    key: 5,
    serial: 5,
};

const SNAPSHOT: Item = Item {
    kind: KindId::SNAPSHOT_REFERENCE,
    key: 4,
    serial: 6,
};

const ABORTED: [What; 22] = [
    What::Owner(1),
    What::OwnerIn {
        owner: 2,
        parent: 1,
    },
    What::OwnerIn {
        owner: 3,
        parent: 1,
    },
    What::Acquire {
        item: TOP_PIN,
        owner: 1,
    },
    What::Acquire {
        item: RELATION,
        owner: 2,
    },
    What::Acquire {
        item: PIN,
        owner: 2,
    },
    What::Acquire {
        item: OTHER_PIN,
        owner: 2,
    },
    What::Acquire {
        item: OPEN_FILE,
        owner: 3,
    },
    What::Acquire {
        item: SNAPSHOT,
        owner: 3,
    },
    What::Release {
        item: OTHER_PIN,
        owner: 2,
    },
    What::DescriptorClosed(8),
    What::Release {
        item: PIN,
        owner: 2,
    },
    What::DescriptorClosed(7),
    What::Release {
        item: RELATION,
        owner: 2,
    },
    What::DescriptorClosed(9),
    What::Release {
        item: TOP_PIN,
        owner: 1,
    },
    What::DescriptorClosed(7),
    What::ReleaseLock {
        object: ALL_OWNERS,
        mode: Mode::ShareLock,
        count: 1,
        owner: 1,
    },
    What::Release {
        item: SNAPSHOT,
        owner: 3,
    },
    What::DescriptorClosed(4),
    What::Release {
        item: OPEN_FILE,
        owner: 3,
    },
    What::DescriptorClosed(5),
];

const COMMITTED: [What; 21] = [
    What::NotClosed {
        item: OTHER_PIN,
        owner: 2,
    },
    What::Release {
        item: OTHER_PIN,
        owner: 2,
    },
    What::DescriptorClosed(8),
    What::NotClosed {
        item: PIN,
        owner: 2,
    },
    What::Release {
        item: PIN,
        owner: 2,
    },
    What::DescriptorClosed(7),
    What::NotClosed {
        item: RELATION,
        owner: 2,
    },
    What::Release {
        item: RELATION,
        owner: 2,
    },
    What::DescriptorClosed(9),
    What::PassLock {
        object: ONE_OWNER,
        mode: Mode::ShareLock,
        count: 1,
        from: 3,
        to: 2,
    },
    What::PassLock {
        object: ONE_OWNER,
        mode: Mode::ShareLock,
        count: 1,
        from: 2,
        to: 1,
    },
    What::NotClosed {
        item: SNAPSHOT,
        owner: 3,
    },
    What::Release {
        item: SNAPSHOT,
        owner: 3,
    },
    What::DescriptorClosed(4),
    What::NotClosed {
        item: OPEN_FILE,
        owner: 3,
    },
    What::Release {
        item: OPEN_FILE,
        owner: 3,
    },
    What::DescriptorClosed(5),
    What::NotClosed {
        item: TOP_PIN,
        owner: 1,
    },
    What::Release {
        item: TOP_PIN,
        owner: 1,
    },
    What::DescriptorClosed(7),
    What::ReleaseLock {
        object: ALL_OWNERS,
        mode: Mode::ShareLock,
        count: 1,
        owner: 1,
    },
];

/// A parent of two children ends by an abort.
fn abort_once(session: &mut Session) -> Result<(), OwnerError>
    requires fresh { session.old ≡ record { rooms = Empty; places = Empty; next_owner = 1; next_serial = 1 } }
{
    let top = session.create(None)?;
    let older = session.create(Some(top))?;
    let newer = session.create(Some(top))?;
    fill(session, top, older, newer)?;
    release_phases(session, top, false, true);
    Ok(())
}

#[test]
fn abort_of_two_children_and_their_parent(rt: HostRuntime) -> Result<(), Fail> {
    let mut session = Session::new(rt.alloc(), 40)?;
    abort_once(&mut session)?;
    assert_eq!(rt; session.events(), ABORTED.as_slice());
    Ok(())
}

/// A child ends before its parent, each by a commit.
fn commit_twice(session: &mut Session) -> Result<(), OwnerError>
    requires fresh { session.old ≡ record { rooms = Empty; places = Empty; next_owner = 1; next_serial = 1 } }
{
    let top = session.create(None)?;
    let child = session.create(Some(top))?;
    let low = session.create(Some(child))?;
    fill(session, top, child, low)?;
    release_phases(session, child, true, false);
    release_phases(session, top, true, true);
    Ok(())
}

#[test]
fn commit_of_a_child_and_then_of_its_parent(rt: HostRuntime) -> Result<(), Fail> {
    let mut session = Session::new(rt.alloc(), 40)?;
    commit_twice(&mut session)?;
    assert_eq!(rt; session.events().get(9..), Some(COMMITTED.as_slice()));
    Ok(())
}

/// As many pins of buffer 7.
fn pin_often(session: &mut Session, owner: OwnerId, times: u32) -> Result<(), OwnerError>
    requires live { IsLive session.old owner }
    ensures places { OnOk result (session.new.places ≡ session.old.places) }
    ensures parents { OnOk result ((n : ℕ) → parent_of n (owners_of session.new) ≡ parent_of n (owners_of session.old)) }
{
    for _ in 0..times {
        session.hold(owner, KindId::BUFFER_PIN, 7)?;
    }
    Ok(())
}

#[test]
fn the_newest_of_5000_pins_goes_first(rt: HostRuntime) -> Result<(), Fail> {
    let mut session = Session::new(rt.alloc(), 16_000)?;
    let top = session.create(None)?;
    pin_often(&mut session, top, 5_000)?;
    session.release(top, Phase::BeforeLocks, false, true);
    let events = session.events();
    assert_eq!(rt; events.len(), 15_001);
    for place in 0..5_000 {
        let item = item(KindId::BUFFER_PIN, 7, 5_000 - place as u64);
        let release = What::Release { item, owner: 1 };
        assert_eq!(rt; events.get(5_001 + 2 * place).copied(), Some(release));
    }
    Ok(())
}

/// So many owners, each the child of the one before it and the first that of `owner`; answers the last.
fn deepen(session: &mut Session, owner: OwnerId, times: u32) -> Result<OwnerId, OwnerError>
    requires live { IsLive session.old owner }
    requires room { session.old.next_owner < 2 ^ 61 }
    ensures live { IfOk result (IsLive session.new) }
    ensures stays { OnOk result ((other : OwnerId) → IsLive session.old other → IsLive session.new other) }
    ensures parents { OnOk result ((other : OwnerId) → IsLive session.old other → parent_of other.number (owners_of session.new) ≡ parent_of other.number (owners_of session.old)) }
{
    let mut last = owner;
    let mut made = 0;
    while made < times {
        last = session.create(Some(last))?;
        made += 1;
    }
    Ok(last)
}

/// A chain of 1,001 owners, of which the last holds two items and the first one: the second ends, and then the first.
fn end_a_chain(session: &mut Session) -> Result<(), OwnerError>
    requires fresh { session.old ≡ record { rooms = Empty; places = Empty; next_owner = 1; next_serial = 1 } }
{
    let top = session.create(None)?;
    let second = session.create(Some(top))?;
    let last = deepen(session, second, 999)?;
    session.hold(top, KindId::BUFFER_PIN, 7)?;
    session.hold(last, KindId::BUFFER_PIN, 8)?;
    session.hold(last, KindId::FILE, 5)?;
    release_phases(session, second, true, false);
    release_phases(session, top, true, true);
    session.discard(top);
    Ok(())
}

#[test]
fn chain_of_1001_owners(rt: HostRuntime) -> Result<(), Fail> {
    let mut session = Session::new(rt.alloc(), 4_000)?;
    end_a_chain(&mut session)?;
    let events = session.events();
    assert_eq!(rt; events.len(), 3_015);
    let pin = item(KindId::BUFFER_PIN, 8, 2);
    let before = What::Release {
        item: pin,
        owner: 1_001,
    };
    assert_eq!(rt; events.get(1_005).copied(), Some(before));
    for step in 0..1_000 {
        let from = 1_001 - step as u64;
        assert_eq!(rt;
            events.get(1_007 + step).copied(),
            Some(passed(from, from - 1))
        );
    }
    for step in 0..1_001 {
        let gone = What::OwnerGone(1_001 - step as u64);
        assert_eq!(rt; events.get(2_014 + step).copied(), Some(gone));
    }
    Ok(())
}
