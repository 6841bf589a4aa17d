//! The groups that a pass holds.
ghost use Rattle.std.specs.Prelude.{◌≡◌, ◌+◌, ◌-◌, ◌<◌, ◌↔◌, ◌⊎◌, [], ◌∷◌, ◌++◌, length, true, false, nat_eq, IfOk, IfErr, OnOk, OnErr, Err, Some, slice_get};
ghost use Rattle.std.specs.List.{list_any};
ghost use Rattle.addr_space.specs.Space.{Space, accounts, held, Asks};
ghost use Rattle.addr_space.specs.Footprint.{nothing, Agrees, Moves, Keeps};
ghost use Rattle.bump_ctx.specs.Ledger.{created, reset, take};
ghost use Rattle.chunk_header.specs.declared.TheConstants.{LARGEST_BLOCK};
ghost use Rattle.agg_rules.specs.declared.TheConstants.{GROUP_BYTES};
ghost use Rattle.agg_rules.specs.Rows.{groups_of, results_of};
ghost use Rattle.held_groups.specs.Held.{Held, footprint, HasTotals, Grows};

use crate::places::{note, place_at, place_of};
use crate::told_rows::more_rows;
use crate::totals::{put_total, total_at};
use addr_space::{Addr, Space};
use agg_rules::{GROUP_BYTES, Row};
use block_mem::told::Told;
use bump_ctx::BumpCtx;
use chunk_header::{CtxError, LARGEST_BLOCK, Sizes};
use indexmap::IndexMap;
use std::alloc::Global;
use std::marker::Model;

/// How many rows can be counted at most.
pub const MOST_ROWS: usize = 100_000;

/// The bytes of the context's first block.
pub const FIRST_BLOCK: u32 = 8192;

/// The groups that a pass holds, with the count and the sum of each over the rows that were joined to it.
///
/// Each group has a chunk of 24 bytes in a Bump context of its own, and its total lies there alone. Contracts see the
/// rows, the chunks of the groups and the context.
#[derive(Drop)]
pub struct HeldGroups {
    context: BumpCtx,
    places: IndexMap<u32, Addr>,
    rows: Told<Row>,
}

impl Model for HeldGroups {
    ghost use Rattle.held_groups.specs.Held.{Held, IsHeld};

    ghost Value = { Held };

    ghost view = { λ h. record { rows = h.rows.entries; places = h.places.entries; state = h.context } };

    ghost invariant = { λ h. IsHeld (record { rows = h.rows.entries; places = h.places.entries; state = h.context }) };
}

impl HeldGroups {
    /// No group, in a context that is made for an account of the space.
    ///
    /// `NoSpace` comes where the context's first block doesn't fit, and before `Memory`. A refused call changes nothing.
    pub fn create(alloc: Global, space: &mut Space, account: u8) -> Result<HeldGroups, CtxError>
        requires account { account < accounts space.old }
        ensures rows { IfOk result (λ h. h.rows ≡ []) }
        ensures ledger { IfOk result (λ h. h.state.ledger ≡ created FIRST_BLOCK LARGEST_BLOCK) }
        ensures account { IfOk result (λ h. (footprint h).account ≡ account) }
        ensures totals { IfOk result (λ h. HasTotals h space.new) }
        ensures moves { IfOk result (λ h. Moves (nothing account 0) (footprint h) space.old space.new) }
        ensures asked { OnOk result (Asks account FIRST_BLOCK space.old space.new) }
        ensures no_space { (result ≡ Err CtxError.NoSpace) ↔ (space.old.limit < held space.old account + FIRST_BLOCK) }
        ensures no_other { IfErr result (λ e. (e ≡ CtxError.NoSpace) ⊎ (e ≡ CtxError.Memory)) }
        ensures err_space { OnErr result (space.new ≡ space.old) }
    {
        let sizes = Sizes {
            init: FIRST_BLOCK,
            max: LARGEST_BLOCK,
        };
        let context = BumpCtx::create(alloc, space, account, 0, sizes)?;
        Ok(HeldGroups {
            context,
            places: IndexMap::new(alloc),
            rows: Told::none(),
        })
    }

    /// What its context has of the space is the total of the ledger. A caller cites the clause.
    #[tactic(auto, unfolding(bump_ctx::specs::Ledger::stats))]
    pub fn counted(&self)
        ensures { (footprint self.now).total ≡ self.now.state.ledger.total }
    {
        self.context.counted();
    }

    /// How many groups are held.
    pub fn len(&self) -> usize
        ensures { result ≡ length (groups_of self.now.rows) }
    {
        self.places.len()
    }

    /// Whether a group is held.
    pub fn has(&self, group: u32) -> bool
        ensures { result ≡ list_any (nat_eq group) (groups_of self.now.rows) }
    {
        place_of(&self.places, group).is_some()
    }

    /// Joins a row to its group, which is held. It takes no memory.
    pub fn join(&mut self, space: &mut Space, row: Row)
        requires agrees { Agrees (footprint self.old) space.old }
        requires totals { HasTotals self.old space.old }
        requires there { list_any (nat_eq row.group) (groups_of self.old.rows) ≡ true }
        requires few { length self.old.rows < MOST_ROWS }
        ensures rows { self.new.rows ≡ self.old.rows ++ row ∷ [] }
        ensures state { self.new.state ≡ self.old.state }
        ensures totals { HasTotals self.new space.new }
        ensures moves { Moves (footprint self.old) (footprint self.new) space.old space.new }
        ensures asked { space.new.taken ≡ space.old.taken }
    {
        let Some(at) = place_of(&self.places, row.group) else {
            unreachable!();
        };
        let (group, count, sum) = total_at(space, at);
        put_total(space, at, (group, count + 1, sum + u64::from(row.value)));
        self.rows = more_rows(&self.rows, row);
    }

    /// Holds the group of a row, which isn't held, and joins the row to it.
    ///
    /// `NoSpace` comes only where the context's ledger asks for bytes that don't fit. A refused call changes nothing.
    pub fn hold(&mut self, space: &mut Space, row: Row) -> Result<(), CtxError>
        requires agrees { Agrees (footprint self.old) space.old }
        requires totals { HasTotals self.old space.old }
        requires fresh { list_any (nat_eq row.group) (groups_of self.old.rows) ≡ false }
        requires few { length self.old.rows < MOST_ROWS }
        ensures rows { OnOk result (self.new.rows ≡ self.old.rows ++ row ∷ []) }
        ensures grows { OnOk result (Grows self.old.state self.new.state (space.old.limit - held space.old self.old.state.layout.account) space.old space.new) }
        ensures totals { OnOk result (HasTotals self.new space.new) }
        ensures moves { OnOk result (Moves (footprint self.old) (footprint self.new) space.old space.new) }
        ensures no_space { result ≡ Err CtxError.NoSpace → take self.old.state.ledger (space.old.limit - held space.old self.old.state.layout.account) GROUP_BYTES ≡ Err CtxError.NoSpace }
        ensures no_other { IfErr result (λ e. (e ≡ CtxError.NoSpace) ⊎ (e ≡ CtxError.Memory)) }
        ensures err { OnErr result (self.new ≡ self.old) }
        ensures err_space { OnErr result (space.new ≡ space.old) }
    {
        let Ok(()) = self.places.reserve(1) else {
            return Err(CtxError::Memory);
        };
        self.context.counted();
        let at = self.context.alloc(space, u64::from(GROUP_BYTES))?;
        self.context.counted();
        put_total(space, at, (row.group, 1, u64::from(row.value)));
        note(&mut self.places, row.group, at);
        self.rows = more_rows(&self.rows, row);
        Ok(())
    }

    /// The total of the group that came so many groups after the first one: the group, how many rows it has, and the
    /// sum of their values.
    pub fn result_at(&self, space: &Space, place: usize) -> (u32, u64, u64)
        requires totals { HasTotals self.now space.now }
        requires place { place < length (groups_of self.now.rows) }
        ensures { slice_get (results_of self.now.rows) place ≡ Some result }
    {
        let (_, at) = place_at(&self.places, place);
        total_at(space, at)
    }

    /// The totals stay where nothing but other contexts changed: a call on one of these keeps the bytes of the chunks, by
    /// the space's laws. A caller cites the clause.
    pub fn kept(&self)
        ensures { (s t : Space) → Keeps (footprint self.now) (footprint self.now) s t → HasTotals self.now s → HasTotals self.now t }
    {
        let _ = &self.places;
    }

    /// Lets all groups go, and gives back what the context took since it was created. It takes no memory.
    pub fn reset(&mut self, space: &mut Space)
        requires agrees { Agrees (footprint self.old) space.old }
        ensures rows { self.new.rows ≡ [] }
        ensures ledger { self.new.state.ledger ≡ reset self.old.state.ledger }
        ensures totals { HasTotals self.new space.new }
        ensures moves { Moves (footprint self.old) (footprint self.new) space.old space.new }
        ensures asked { Asks self.old.state.layout.account 0 space.old space.new }
        ensures held { held space.new self.old.state.layout.account + self.old.state.ledger.total ≡ held space.old self.old.state.layout.account + self.new.state.ledger.total }
    {
        self.context.counted();
        self.context.reset(space);
        self.context.counted();
        self.places.clear();
        self.rows = Told::none();
    }

    /// Gives everything back. It takes no memory.
    pub fn discard(self, space: &mut Space)
        requires agrees { Agrees (footprint self) space.old }
        ensures moves { Moves (footprint self) (nothing (footprint self).account (footprint self).context) space.old space.new }
        ensures asked { Asks self.state.layout.account 0 space.old space.new }
    {
        let HeldGroups {
            context,
            places: _,
            rows: _,
        } = self;
        context.discard(space);
    }
}
