//! What all sessions hold.
ghost use Rattle.std.specs.Prelude.{◌≡◌, ◌↔◌, ℕ, ◌==◌, [], ◌∷◌, None, true, false, not, filter, if◌then◌else◌, IsTrue, IsNone, IfSome, IsOk, OnOk, OnErr};
ghost use Rattle.std.specs.Map.{lookup};
ghost use Rattle.lock_shared.specs.Holdings.{holds, is_holding, Sets, IsFree, IsConflict, AreOnce};
ghost use Rattle.lock_shared.specs.Objects.{held_on, with_holding, AreKept};
ghost use Rattle.lock_shared.specs.Ranked.{beside, least_conflict};

use crate::holders::{Holders, add, least_blocking, take_off};
use indexmap::IndexMap;
use pgs_step::Mode;
use smallvec::SmallVec;
use std::alloc::{AllocError, Global};
use std::marker::Model;

/// A session holds an object in a mode.
#[derive(Clone, Copy, Debug)]
pub struct Holding {
    pub object: u32,
    pub mode: Mode,
    pub session: u8,
}

impl Default for Holding {
    fn default() -> Holding {
        Holding {
            object: 0,
            mode: Mode::AccessShareLock,
            session: 0,
        }
    }
}

/// The locks that the sessions hold, and not how often: PostgreSQL's shared lock table.
///
/// Contracts see a list of holdings of which they say only whether a holding is among them, by `holds`. Each object that
/// is held has an entry with its holdings, so that no call looks at those of another object.
#[derive(Drop)]
pub struct SharedLocks {
    objects: IndexMap<u32, Holders>,
}

impl Model for SharedLocks {
    ghost use Rattle.std.specs.Prelude.{List};
    ghost use Rattle.lock_shared.specs.declared.shared_locks.Holding.{Holding};
    ghost use Rattle.lock_shared.specs.Objects.{holdings_of, AreKept};

    ghost Value = { List Holding };

    ghost view = { λ l. holdings_of l.objects.entries };

    ghost invariant = { λ l. AreKept l.objects.entries };
}

impl SharedLocks {
    /// No session holds anything.
    pub fn new(alloc: Global) -> SharedLocks
        ensures { result ≡ [] }
    {
        SharedLocks {
            objects: IndexMap::new(alloc),
        }
    }

    /// The least other session that holds the object in a mode which conflicts with `mode`, and its least
    /// such mode.
    pub fn conflict(&self, object: u32, mode: Mode, session: u8) -> Option<(u8, Mode)>
        ensures none { IsNone result ↔ IsFree self.now object mode session }
        ensures least { IfSome result (λ c. IsConflict self.now object mode session c.0 c.1) }
        ensures beside { result ≡ least_conflict object mode (beside session self.now) }
    {
        least_blocking(holdings_on(&self.objects, object), object, mode, session)
    }

    /// The session holds the object in this mode from now on, if it didn't before. It fails for want of
    /// memory alone. Where the session holds it already, it doesn't fail, and nothing changes.
    pub fn grant(&mut self, object: u32, mode: Mode, session: u8) -> Result<(), AllocError>
        ensures ok { OnOk result (Sets self.old self.new object mode session true) }
        ensures held { IsTrue (holds self.old object mode session) → IsOk result }
        ensures again { IsTrue (holds self.old object mode session) → self.new ≡ self.old }
        ensures err { OnErr result (self.new ≡ self.old) }
        ensures once { AreOnce self.new }
    {
        put(
            &mut self.objects,
            Holding {
                object,
                mode,
                session,
            },
        )
    }

    /// The session doesn't hold the object in this mode any more, whether it did or not.
    pub fn drop_grant(&mut self, object: u32, mode: Mode, session: u8)
        ensures { Sets self.old self.new object mode session false }
    {
        strike(&mut self.objects, object, mode, session);
    }
}

/// The holdings of an object.
fn holdings_on(objects: &IndexMap<u32, Holders>, object: u32) -> &[Holding]
    ensures { result.now ≡ held_on objects.now.entries object }
{
    match objects.get(&object) {
        Some(holders) => holders.as_slice(),
        None => &[],
    }
}

/// Notes a holding at its object, unless it stands there.
fn put(objects: &mut IndexMap<u32, Holders>, holding: Holding) -> Result<(), AllocError>
    requires { AreKept objects.old.entries }
    ensures kept { AreKept objects.new.entries }
    ensures ok { OnOk result ((q : ℕ) → held_on objects.new.entries q ≡ (if holding.object == q then with_holding holding (held_on objects.old.entries q) else held_on objects.old.entries q)) }
    ensures held { IsTrue (holds (held_on objects.old.entries holding.object) holding.object holding.mode holding.session) → IsOk result }
    ensures again { IsTrue (holds (held_on objects.old.entries holding.object) holding.object holding.mode holding.session) → objects.new.entries ≡ objects.old.entries }
    ensures err { OnErr result (objects.new.entries ≡ objects.old.entries) }
{
    match objects.get_mut(&holding.object) {
        Some(holders) => add(holders, holding),
        None => enter(objects, holding),
    }
}

/// Makes the entry of an object that nobody held, with its first holding.
fn enter(objects: &mut IndexMap<u32, Holders>, holding: Holding) -> Result<(), AllocError>
    requires kept { AreKept objects.old.entries }
    requires none { lookup (λ n. holding.object == n) objects.old.entries ≡ None }
    ensures kept { AreKept objects.new.entries }
    ensures ok { OnOk result ((q : ℕ) → held_on objects.new.entries q ≡ (if holding.object == q then holding ∷ [] else held_on objects.old.entries q)) }
    ensures err { OnErr result (objects.new.entries ≡ objects.old.entries) }
{
    let mut holders = SmallVec::new(*objects.allocator());
    holders.push_reserved(holding);
    objects.insert(holding.object, holders)?;
    Ok(())
}

/// Takes a holding off its object, and the entry of the object too where nobody holds that any more.
fn strike(objects: &mut IndexMap<u32, Holders>, object: u32, mode: Mode, session: u8)
    requires { AreKept objects.old.entries }
    ensures kept { AreKept objects.new.entries }
    ensures left { (q : ℕ) → held_on objects.new.entries q ≡ (if object == q then filter (λ h. not (is_holding object mode session h)) (held_on objects.old.entries q) else held_on objects.old.entries q) }
{
    let Some(holders) = objects.get_mut(&object) else {
        return;
    };
    take_off(holders, object, mode, session);
    if holders.is_empty() {
        objects.swap_remove(&object);
    }
}
