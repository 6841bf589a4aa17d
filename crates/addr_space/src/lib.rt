//! An address space: numbered regions of bytes, each held by an account.
//!
//! It stands for the memory that a backend gets from malloc, with a limit on what each account may hold. A region is what
//! PostgreSQL's aset.c, generation.c, slab.c and bump.c call a block, such as aset.c's `AllocBlock`: `take` stands for
//! their malloc, `resize` for the realloc of a block that has one chunk, and `give` for their free. All lengths and
//! offsets are bytes, and a region has 1 to 2^31 of them.
#![tactic(auto)]

ghost use Rattle.std.specs.Prelude.{◌≡◌, ◌≢◌, ℕ, ◌+◌, ◌-◌, ◌*◌, ◌^◌, ◌<◌, ◌≤◌, ◌==◌, ◌↔◌, [], length, map, Ok, Err, Some, None, IsTrue, IsOk, IfOk, OnOk, OnErr, if◌then◌else◌, replicate, min, slice_index_or, IfSome, IfNone};
ghost use Rattle.std.specs.Option.{SomeIff};
ghost use Rattle.addr_space.specs.Spared.{without_spare};
ghost use Rattle.addr_space.specs.declared.spare.TheConstants.{MOST_SPARE, LARGE, SMALL};
ghost use Rattle.addr_space.specs.Space.{Space as Regions, accounts, region_at, bytes_of, held, taken, Fits, IsInside, IsRegion, IsKnown, IsApart, part, unwritten, overwritten, resized, raised, raised_by, risen, share, IsOverLimit, Changes};

mod laws;
mod region;
mod spare;

pub use laws::{echoing, framing, listing};
use region::Region;
use slab::Slab;
use spare::Spare;
use std::alloc::{AllocError, Global};
use std::marker::Model;
use thiserror::Error;

/// A place in the space: a region, and how many bytes from its start. It stands for a pointer.
#[derive(Clone, Copy, PartialEq, Eq, Hash, Debug)]
pub struct Addr {
    /// The number of the region.
    pub region: u32,
    /// The bytes before it in the region.
    pub offset: u32,
}

/// Why a region could not be had.
#[derive(Clone, Copy, PartialEq, Eq, Debug, Error)]
pub enum SpaceError {
    /// The account would hold more than the limit. It comes before `Memory`.
    #[error("no space: the account would hold more than it may")]
    NoSpace,
    /// There is no memory.
    #[error("no memory")]
    Memory,
}

/// What an account holds and has taken in all, in bytes.
#[derive(Clone, Copy)]
struct Account {
    held: u64,
    taken: u64,
}

impl Account {
    // The account once it holds so many bytes, where it took `more`.
    fn moved(self, held: u64, more: u64) -> Account
        ensures held { result.held ≡ held }
        ensures taken { result.taken ≡ risen self.taken more }
    {
        Account {
            held,
            taken: self.taken.saturating_add(more),
        }
    }
}

// What an account holds once it holds `got` in place of `gave`, where that is within the limit.
fn within(limit: u64, held: u64, gave: u64, got: u64) -> Option<u64>
    requires { gave ≤ held }
    ensures { SomeIff result (held - gave + got ≤ limit) (held - gave + got) }
{
    let rest = held - gave;
    match limit.checked_sub(rest) {
        Some(left) if got <= left => Some(rest + got),
        _ => None,
    }
}

// A region of `n` bytes for an account, none of which is known: one of those that are kept, where these have so many.
fn new_region(spare: &mut Spare, alloc: Global, account: u8, n: u32) -> Result<Region, AllocError>
    requires { 1 ≤ n }
    ensures account { IfOk result (λ r. r.account ≡ account) }
    ensures bytes { IfOk result (λ r. r.bytes ≡ replicate n None) }
    ensures spare { spare.new ≡ without_spare n spare.old }
{
    match spare.pop(n as usize) {
        Some(region) => Ok(region.renewed(account)),
        None => Region::unwritten(alloc, account, n),
    }
}

// Stores a region under a number that had none, or drops it where there is no memory.
fn admit(regions: &mut Slab<Region>, region: Region) -> Option<u32>
    ensures fresh { IfSome result (λ number. slice_index_or regions.old.slots number None ≡ None) }
    ensures stored { IfSome result (λ number. slice_index_or regions.new.slots number None ≡ Some region) }
    ensures others { IfSome result (λ number. (other : ℕ) → other ≢ number → slice_index_or regions.new.slots other None ≡ slice_index_or regions.old.slots other None) }
    ensures none { IfNone result (regions.new.slots ≡ regions.old.slots) }
{
    if regions.reserve(1).is_err() {
        return None;
    }
    let number = u32::try_from(regions.vacant_key()).ok()?;
    regions.insert_reserved(region);
    Some(number)
}

/// A set of regions with their bytes, and what each account holds of them.
///
/// Regions never overlap. The number of a region may be used again once the region was given back. An account stands
/// for a session: what it holds is the sum of `mem_allocated` of its memory contexts.
///
/// The memory of up to 1,024 regions of 8,192 bytes, and of as many of 1,024 bytes, that were given back is kept for the
/// next ones of that length. It counts for no account.
#[derive(Drop)]
pub struct Space {
    alloc: Global,
    regions: Slab<Region>,
    spare: Spare,
    accounts: Vec<Account>,
    limit: u64,
}

impl Model for Space {
    ghost use Rattle.std.specs.Prelude.{map};
    ghost use Rattle.addr_space.specs.Space.{Space as Regions};

    ghost Value = { Regions };

    ghost use Rattle.addr_space.specs.Sound.{IsSound};

    ghost view = { λ s. record { regions = s.regions.slots; taken = map (λ a. a.taken) s.accounts.items; limit = s.limit } };

    ghost invariant = { λ s. IsSound s.regions.slots s.accounts.items };
}

impl Space {
    /// A space without regions, for `accounts` accounts, each of which may hold `limit` bytes.
    pub fn new(alloc: Global, accounts: u8, limit: u64) -> Result<Space, AllocError>
        ensures regions { IfOk result (λ s. s.regions ≡ []) }
        ensures taken { IfOk result (λ s. s.taken ≡ replicate accounts 0) }
        ensures limit { IfOk result (λ s. s.limit ≡ limit) }
    {
        let none = Account { held: 0, taken: 0 };
        let mut list = Vec::new(alloc);
        list.resize(accounts as usize, none)?;
        Ok(Space {
            alloc,
            regions: Slab::new(alloc),
            spare: Spare::new(alloc)?,
            accounts: list,
            limit,
        })
    }

    /// How many accounts there are.
    pub fn accounts(&self) -> u8
        ensures { result ≡ accounts self.now }
    {
        self.accounts.len() as u8
    }

    /// Sets how many bytes an account may hold. What an account holds already may be over it.
    pub fn set_limit(&mut self, limit: u64)
        ensures { self.new ≡ record self.old { limit = limit } }
    {
        self.limit = limit;
    }

    // What an account holds and has taken.
    fn entry(&self, account: u8) -> Account
        requires { account < accounts self.now }
        ensures held { result.held ≡ held self.now account }
        ensures taken { result.taken ≡ taken self.now account }
    {
        self.accounts[account as usize]
    }

    /// Whether an account may hold `n` more bytes.
    pub fn fits(&self, account: u8, n: u32) -> bool
        requires { account < accounts self.now }
        ensures { IsTrue result ↔ Fits self.now account n }
    {
        within(self.limit, self.entry(account).held, 0, u64::from(n)).is_some()
    }

    /// How many bytes the live regions of an account have together.
    pub fn held(&self, account: u8) -> u64
        requires { account < accounts self.now }
        ensures { result ≡ held self.now account }
    {
        self.entry(account).held
    }

    /// How many bytes an account took in all its calls, or 2^64 - 1 where that is more.
    pub fn taken(&self, account: u8) -> u64
        requires { account < accounts self.now }
        ensures { result ≡ taken self.now account }
    {
        self.entry(account).taken
    }

    /// The bytes of the memory that is kept of regions that were given back: 9,437,184 at most. They count for no account.
    pub fn kept(&self) -> usize
        ensures { result ≤ MOST_SPARE * (LARGE + SMALL) }
    {
        self.spare.bytes()
    }

    /// Takes a region of `n` bytes, 1 to 2^31, for an account, and answers its start. No byte of it is known.
    ///
    /// `NoSpace` comes before `Memory`. A refused call changes nothing.
    pub fn take(&mut self, account: u8, n: u32) -> Result<Addr, SpaceError>
        requires account { account < accounts self.old }
        requires least { 1 ≤ n }
        requires most { n ≤ 2 ^ 31 }

        // The region is a new one, and nothing else changes.
        ensures start { IfOk result (λ at. at.offset ≡ 0) }
        ensures fresh { IfOk result (λ at. region_at self.old at.region ≡ None) }
        ensures changes { IfOk result (λ at. Changes self.old self.new at.region (Some (unwritten account n))) }
        ensures taken { OnOk result (self.new.taken ≡ raised self.old.taken account n) }
        ensures held { OnOk result ((other : ℕ) → held self.new other ≡ held self.old other + (if account == other then n else 0)) }

        ensures no_space { (result ≡ Err SpaceError.NoSpace) ↔ (self.old.limit < held self.old account + n) }
        ensures err { OnErr result (self.new ≡ self.old) }
    {
        let entry = self.entry(account);
        let Some(held) = within(self.limit, entry.held, 0, u64::from(n)) else {
            return Err(SpaceError::NoSpace);
        };
        let Ok(region) = new_region(&mut self.spare, self.alloc, account, n) else {
            return Err(SpaceError::Memory);
        };
        let Some(number) = admit(&mut self.regions, region) else {
            return Err(SpaceError::Memory);
        };
        self.accounts[account as usize] = entry.moved(held, u64::from(n));
        Ok(Addr {
            region: number,
            offset: 0,
        })
    }

    /// Gives a region back. Its number may be used again.
    pub fn give(&mut self, at: Addr)
        requires { IsRegion self.old at }
        ensures changes { Changes self.old self.new at.region None }
        ensures taken { self.new.taken ≡ self.old.taken }
        ensures held { (account : ℕ) → held self.new account + share account (region_at self.old at.region) ≡ held self.old account }
    {
        let region = self.regions.remove(at.region as usize);
        let entry = &mut self.accounts[region.account() as usize];
        entry.held -= region.len() as u64;
        self.spare.keep(region);
    }

    /// Makes a region `n` bytes long, 1 to 2^31, at the same address. It keeps the bytes that both lengths have, and
    /// new ones are unknown.
    ///
    /// `NoSpace` comes before `Memory`. A refused call changes nothing.
    pub fn resize(&mut self, at: Addr, n: u32) -> Result<(), SpaceError>
        requires region { IsRegion self.old at }
        requires least { 1 ≤ n }
        requires most { n ≤ 2 ^ 31 }
        ensures changes { OnOk result (Changes self.old self.new at.region (resized (region_at self.old at.region) n)) }
        ensures taken { OnOk result (self.new.taken ≡ raised_by self.old.taken (region_at self.old at.region) n) }
        ensures held { OnOk result ((account : ℕ) → held self.new account + share account (region_at self.old at.region) ≡ held self.old account + share account (resized (region_at self.old at.region) n)) }
        ensures no_space { (result ≡ Err SpaceError.NoSpace) ↔ IsOverLimit self.old (region_at self.old at.region) n }
        ensures err { OnErr result (self.new ≡ self.old) }
    {
        let number = at.region as usize;
        let region = &self.regions[number];
        let account = region.account();
        let gave = region.len() as u64;
        let entry = self.entry(account);
        let Some(held) = within(self.limit, entry.held, gave, u64::from(n)) else {
            return Err(SpaceError::NoSpace);
        };
        let Ok(()) = self.regions[number].resize(n) else {
            return Err(SpaceError::Memory);
        };
        self.accounts[account as usize] = entry.moved(held, u64::from(n).saturating_sub(gave));
        Ok(())
    }

    /// Writes bytes from a place on, inside one region.
    pub fn write(&mut self, at: Addr, bytes: &[u8])
        requires { IsInside self.old at (length bytes.now) }
        ensures changes { Changes self.old self.new at.region (overwritten (region_at self.old at.region) at.offset (map Some bytes.now)) }
        ensures taken { self.new.taken ≡ self.old.taken }
    {
        self.write_at(at.region, at.offset as usize, bytes);
    }

    /// Reads known bytes from a place on, inside one region.
    pub fn read(&self, at: Addr, out: &mut [u8])
        requires inside { IsInside self.now at (length out.old) }
        requires known { IsKnown self.now at (length out.old) }
        ensures { map Some out.new ≡ part (bytes_of (region_at self.now at.region)) at.offset (length out.old) }
    {
        self.read_at(at.region, at.offset as usize, out);
    }

    /// Copies `n` known bytes to a place that has none of them.
    pub fn copy(&mut self, from: Addr, to: Addr, n: u32)
        requires from { IsInside self.old from n }
        requires to { IsInside self.old to n }
        requires known { IsKnown self.old from n }
        requires apart { IsApart from n to n }
        ensures changes { Changes self.old self.new to.region (overwritten (region_at self.old to.region) to.offset (part (bytes_of (region_at self.old from.region)) from.offset n)) }
        ensures taken { self.new.taken ≡ self.old.taken }
    {
        let mut buffer = [0u8; 256];
        let mut done = 0usize;
        while done < n as usize {
            let step = (n as usize - done).min(256);
            let piece = &mut buffer[..step];
            self.read_at(from.region, from.offset as usize + done, piece);
            self.write_at(to.region, to.offset as usize + done, piece);
            done += step;
        }
    }

    // Writes bytes into a region, from a place on.
    fn write_at(&mut self, region: u32, offset: usize, bytes: &[u8])
        requires { IsInside self.old (record { region = region; offset = offset }) (length bytes.now) }
        ensures changes { Changes self.old self.new region (overwritten (region_at self.old region) offset (map Some bytes.now)) }
        ensures taken { self.new.taken ≡ self.old.taken }
    {
        self.regions[region as usize].write(offset, bytes);
    }

    // Reads known bytes of a region, from a place on.
    fn read_at(&self, region: u32, offset: usize, out: &mut [u8])
        requires inside { IsInside self.now (record { region = region; offset = offset }) (length out.old) }
        requires known { IsKnown self.now (record { region = region; offset = offset }) (length out.old) }
        ensures { map Some out.new ≡ part (bytes_of (region_at self.now region)) offset (length out.old) }
    {
        self.regions[region as usize].read(offset, out);
    }
}
