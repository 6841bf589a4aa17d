//! A pass.
ghost use Rattle.std.specs.Prelude.{◌≡◌, ◌+◌, ◌-◌, ◌<◌, ◌≤◌, ◌↔◌, ◌⊎◌, [], ◌∷◌, ◌++◌, length, true, false, nat_eq, IfOk, IfErr, OnOk, OnErr, Ok, Err, Some, None, slice_get};
ghost use Rattle.addr_space.specs.Space.{Space, accounts, held, Asks};
ghost use Rattle.addr_space.specs.Footprint.{nothing, Agrees, Moves, Keeps};
ghost use Rattle.bump_ctx.specs.Ledger.{created, reset, take};
ghost use Rattle.temp_store.specs.Temp.{Temp, held as stored, risen};
ghost use Rattle.std.specs.List.{list_any};
ghost use Rattle.agg_rules.specs.declared.TheConstants.{GROUP_BYTES, ROW_BYTES};
ghost use Rattle.chunk_header.specs.declared.CtxError.{CtxError};
ghost use Rattle.chunk_header.specs.declared.TheConstants.{LARGEST_BLOCK};
ghost use Rattle.agg_rules.specs.Passes.{kept_groups, pass_results, spilled_rows};
ghost use Rattle.agg_rules.specs.Steps.{meets};
ghost use Rattle.held_groups.specs.declared.held.TheConstants.{FIRST_BLOCK};
ghost use Rattle.held_groups.specs.Held.{footprint, HasTotals, Grows};
ghost use Rattle.agg_pass.specs.PassState.{HasSpilled, Spends, way_of, anew};
ghost use Rattle.agg_pass.specs.Spilled.{IsOf, KeepsFiles};

use crate::spilling::{of_context, spill_row};
use addr_space::Space;
use agg_rules::{NodeError, Row};
use block_mem::told::Told;
use held_groups::told_rows::more_rows;
use held_groups::{HeldGroups, MOST_ROWS};
use std::alloc::Global;
use std::marker::Model;
use temp_store::TempStore;

/// A pass over rows: it holds the first groups, as many as its budget is, and spills the rows of the others to a file.
///
/// Contracts see the budget, the rows that it met, its file, and the groups that it holds.
#[derive(Drop)]
pub struct AggPass {
    budget: u32,
    groups: HeldGroups,
    file: Option<u32>,
    rows: Told<Row>,
}

impl Model for AggPass {
    ghost use Rattle.agg_pass.specs.PassState.{PassState, IsPass};

    ghost Value = { PassState };

    ghost view = { λ p. record { budget = p.budget; rows = p.rows.entries; file = p.file; groups = p.groups } };

    ghost invariant = { λ p. IsPass (record { budget = p.budget; rows = p.rows.entries; file = p.file; groups = p.groups }) };
}

impl AggPass {
    /// A pass that met no row, with a context for its groups that is made for an account of the space.
    ///
    /// `NoSpace` comes where the context's first block doesn't fit, and before `Memory`. A refused call changes nothing.
    pub fn create(
        alloc: Global,
        space: &mut Space,
        account: u8,
        budget: u32,
    ) -> Result<AggPass, NodeError>
        requires account { account < accounts space.old }
        ensures rows { IfOk result (λ p. p.rows ≡ []) }
        ensures budget { IfOk result (λ p. p.budget ≡ budget) }
        ensures file { IfOk result (λ p. p.file ≡ None) }
        ensures ledger { IfOk result (λ p. p.groups.state.ledger ≡ created FIRST_BLOCK LARGEST_BLOCK) }
        ensures account { IfOk result (λ p. (footprint p.groups).account ≡ account) }
        ensures totals { IfOk result (λ p. HasTotals p.groups space.new) }
        ensures moves { IfOk result (λ p. Moves (nothing account 0) (footprint p.groups) space.old space.new) }
        ensures asked { OnOk result (Asks account FIRST_BLOCK space.old space.new) }
        ensures no_space { (result ≡ Err NodeError.NoSpace) ↔ (space.old.limit < held space.old account + FIRST_BLOCK) }
        ensures no_other { IfErr result (λ e. (e ≡ NodeError.NoSpace) ⊎ (e ≡ NodeError.Memory)) }
        ensures err_space { OnErr result (space.new ≡ space.old) }
    {
        let groups = match HeldGroups::create(alloc, space, account) {
            Ok(groups) => groups,
            Err(refused) => return Err(of_context(refused)),
        };
        Ok(AggPass {
            budget,
            groups,
            file: None,
            rows: Told::none(),
        })
    }

    /// What its context has of the space is the total of the ledger. A caller cites the clause.
    pub fn counted(&self)
        ensures { (footprint self.now.groups).total ≡ self.now.groups.state.ledger.total }
    {
        self.groups.counted();
    }

    /// How many groups are held.
    pub fn len(&self) -> usize
        ensures { result ≡ length (kept_groups self.now.budget self.now.rows) }
    {
        self.groups.len()
    }

    /// Whether a group is held.
    pub fn has(&self, group: u32) -> bool
        ensures { result ≡ list_any (nat_eq group) (kept_groups self.now.budget self.now.rows) }
    {
        self.groups.has(group)
    }

    /// The total of the group that came so many groups after the first one: the group, how many rows it has, and the
    /// sum of their values.
    pub fn result_at(&self, space: &Space, place: usize) -> (u32, u64, u64)
        requires totals { HasTotals self.now.groups space.now }
        requires place { place < length (kept_groups self.now.budget self.now.rows) }
        ensures { slice_get (pass_results self.now.budget self.now.rows) place ≡ Some result }
    {
        self.groups.result_at(space, place)
    }

    /// The totals stay where nothing but other contexts changed. A caller cites the clause.
    pub fn kept(&self)
        ensures { (s t : Space) → Keeps (footprint self.now.groups) (footprint self.now.groups) s t → HasTotals self.now.groups s → HasTotals self.now.groups t }
    {
        self.groups.kept();
    }

    /// The file of the rows that were spilled, if there is one. Where there is none, no row was spilled.
    pub fn file(&self) -> Option<u32>
        ensures file { result ≡ self.now.file }
        ensures none { result ≡ None → spilled_rows self.now.budget self.now.rows ≡ [] }
    {
        self.file
    }

    // Joins a row to its group, which is held.
    fn join(&mut self, space: &mut Space, row: Row)
        requires agrees { Agrees (footprint self.old.groups) space.old }
        requires totals { HasTotals self.old.groups space.old }
        requires few { length self.old.rows < MOST_ROWS }
        requires there { list_any (nat_eq row.group) (kept_groups self.old.budget self.old.rows) ≡ true }
        ensures rows { self.new.rows ≡ self.old.rows ++ row ∷ [] }
        ensures state { self.new.groups.state ≡ self.old.groups.state }
        ensures taken { space.new.taken ≡ space.old.taken }
        ensures budget { self.new.budget ≡ self.old.budget }
        ensures file { self.new.file ≡ self.old.file }
        ensures totals { HasTotals self.new.groups space.new }
        ensures spilled { (temp : Temp) → HasSpilled self.old temp → HasSpilled self.new temp }
        ensures moves { Moves (footprint self.old.groups) (footprint self.new.groups) space.old space.new }
    {
        self.groups.join(space, row);
        self.rows = more_rows(&self.rows, row);
    }

    // Holds the group of a row, which is new, where there is room for one more.
    fn hold(&mut self, space: &mut Space, row: Row) -> Result<(), NodeError>
        requires agrees { Agrees (footprint self.old.groups) space.old }
        requires totals { HasTotals self.old.groups space.old }
        requires few { length self.old.rows < MOST_ROWS }
        requires fresh { list_any (nat_eq row.group) (kept_groups self.old.budget self.old.rows) ≡ false }
        requires room { length (kept_groups self.old.budget self.old.rows) < self.old.budget }
        ensures rows { OnOk result (self.new.rows ≡ self.old.rows ++ row ∷ []) }
        ensures budget { self.new.budget ≡ self.old.budget }
        ensures file { self.new.file ≡ self.old.file }
        ensures totals { HasTotals self.new.groups space.new }
        ensures spilled { (temp : Temp) → HasSpilled self.old temp → HasSpilled self.new temp }
        ensures moves { Moves (footprint self.old.groups) (footprint self.new.groups) space.old space.new }
        ensures grows { OnOk result (Grows self.old.groups.state self.new.groups.state (space.old.limit - held space.old self.old.groups.state.layout.account) space.old space.new) }
        ensures no_space { result ≡ Err NodeError.NoSpace → take self.old.groups.state.ledger (space.old.limit - held space.old self.old.groups.state.layout.account) GROUP_BYTES ≡ Err CtxError.NoSpace }
        ensures no_other { IfErr result (λ e. (e ≡ NodeError.NoSpace) ⊎ (e ≡ NodeError.Memory)) }
        ensures err { OnErr result (self.new ≡ self.old) }
        ensures err_space { OnErr result (space.new ≡ space.old) }
    {
        if let Err(refused) = self.groups.hold(space, row) {
            return Err(of_context(refused));
        }
        self.rows = more_rows(&self.rows, row);
        Ok(())
    }

    // Spills a row of a group that is new, where there is no room for one more.
    fn spill(&mut self, temp: &mut TempStore, row: Row) -> Result<(), NodeError>
        requires spilled { HasSpilled self.old temp.old }
        requires few { length self.old.rows < MOST_ROWS }
        requires fresh { list_any (nat_eq row.group) (kept_groups self.old.budget self.old.rows) ≡ false }
        requires full { self.old.budget ≤ length (kept_groups self.old.budget self.old.rows) }
        ensures rows { OnOk result (self.new.rows ≡ self.old.rows ++ row ∷ []) }
        ensures err_rows { OnErr result (self.new.rows ≡ self.old.rows) }
        ensures budget { self.new.budget ≡ self.old.budget }
        ensures groups { self.new.groups ≡ self.old.groups }
        ensures spilled { HasSpilled self.new temp.new }
        ensures others { KeepsFiles (IsOf self.old.file) temp.old (IsOf self.new.file) temp.new }
        ensures room { OnOk result (stored temp.old + ROW_BYTES ≤ temp.old.limit) }
        ensures no_room { (result ≡ Err NodeError.Full) → temp.old.limit < stored temp.old + ROW_BYTES }
        ensures no_other { IfErr result (λ e. (e ≡ NodeError.Full) ⊎ (e ≡ NodeError.Memory)) }
        ensures held { OnOk result (stored temp.new ≡ stored temp.old + ROW_BYTES) }
        ensures written { OnOk result (temp.new.written ≡ risen temp.old.written ROW_BYTES) }
        ensures err_held { OnErr result (stored temp.new ≡ stored temp.old) }
        ensures err_written { OnErr result (temp.new.written ≡ temp.old.written) }
        ensures limit { temp.new.limit ≡ temp.old.limit }
    {
        if let Err(refused) = spill_row(&mut self.file, temp, row) {
            return Err(refused);
        }
        self.rows = more_rows(&self.rows, row);
        Ok(())
    }

    /// Meets a row: its group is held, or the row is spilled.
    ///
    /// `NoSpace` comes only where the context's ledger asks for bytes that don't fit, and `Full` only where the store has
    /// no room for eight bytes more. After a refusal the rows and the groups are as they were.
    pub fn meet(
        &mut self,
        space: &mut Space,
        temp: &mut TempStore,
        row: Row,
    ) -> Result<(), NodeError>
        requires agrees { Agrees (footprint self.old.groups) space.old }
        requires totals { HasTotals self.old.groups space.old }
        requires spilled { HasSpilled self.old temp.old }
        requires few { length self.old.rows < MOST_ROWS }
        ensures rows { OnOk result (self.new.rows ≡ self.old.rows ++ row ∷ []) }
        ensures budget { self.new.budget ≡ self.old.budget }
        ensures totals { HasTotals self.new.groups space.new }
        ensures spilled { HasSpilled self.new temp.new }
        ensures moves { Moves (footprint self.old.groups) (footprint self.new.groups) space.old space.new }
        ensures limit { temp.new.limit ≡ temp.old.limit }

        // Every file but its own is as it was, and there is no other one.
        ensures others { KeepsFiles (IsOf self.old.file) temp.old (IsOf self.new.file) temp.new }

        // It goes on as the rules say, and what refuses it is what they say, but for want of memory. Its account takes what
        // the ledger asks, and the eight bytes of a spilled row are written.
        ensures went { OnOk result (meets self.old.budget (way_of self.old space.old temp.old) row.group ≡ Ok (way_of self.new space.new temp.new)) }
        ensures refused { IfErr result (λ e. (e ≡ NodeError.Memory) ⊎ (meets self.old.budget (way_of self.old space.old temp.old) row.group ≡ Err e)) }

        ensures spends { Spends self.old.groups.state.layout.account (way_of self.old space.old temp.old) (way_of self.new space.new temp.new) space.old space.new temp.old temp.new }

        ensures err_way { OnErr result (way_of self.new space.new temp.new ≡ way_of self.old space.old temp.old) }
        ensures err_rows { OnErr result (self.new.rows ≡ self.old.rows) }
        ensures err_groups { OnErr result (self.new.groups ≡ self.old.groups) }
        ensures err_space { OnErr result (space.new ≡ space.old) }
    {
        if self.has(row.group) {
            self.join(space, row);
            return Ok(());
        }
        if self.len() < self.budget as usize {
            return self.hold(space, row);
        }
        self.spill(temp, row)
    }

    /// Gives the context back, and answers the file, which has the spilled rows. It takes no memory.
    pub fn discard(self, space: &mut Space) -> Option<u32>
        requires agrees { Agrees (footprint self.groups) space.old }
        ensures file { result ≡ self.file }
        ensures moves { Moves (footprint self.groups) (nothing (footprint self.groups).account (footprint self.groups).context) space.old space.new }
        ensures asked { Asks self.groups.state.layout.account 0 space.old space.new }
    {
        let AggPass {
            budget: _,
            groups,
            file,
            rows: _,
        } = self;
        groups.discard(space);
        file
    }

    /// Begins anew: it met no row, holds no group and has no file. What the context took since it was created is given
    /// back, and the answer is the file that it had, which has the spilled rows. It takes no memory.
    pub fn restart(&mut self, space: &mut Space) -> Option<u32>
        requires agrees { Agrees (footprint self.old.groups) space.old }
        ensures answer { result ≡ self.old.file }
        ensures rows { self.new.rows ≡ [] }
        ensures file { self.new.file ≡ None }
        ensures budget { self.new.budget ≡ self.old.budget }
        ensures ledger { self.new.groups.state.ledger ≡ reset self.old.groups.state.ledger }
        ensures way { (temp : Temp) → way_of self.new space.new temp ≡ anew self.old space.old temp }
        ensures totals { HasTotals self.new.groups space.new }
        ensures moves { Moves (footprint self.old.groups) (footprint self.new.groups) space.old space.new }
        ensures asked { Asks self.old.groups.state.layout.account 0 space.old space.new }
    {
        self.groups.reset(space);
        self.rows = Told::none();
        self.file.take()
    }
}
