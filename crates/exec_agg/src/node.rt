//! A node.
ghost use Rattle.std.specs.Prelude.{◌≡◌, ◌≢◌, ◌+◌, ◌*◌, ◌<◌, ◌≤◌, ◌⊎◌, ◌↔◌, [], ◌∷◌, ◌++◌, length, drop, Some, None, Ok, Err, IfOk, IfErr, IfSome, IfNone, OnOk, OnErr, slice_get};
ghost use Rattle.addr_space.specs.Space.{Space, accounts, held, Asks};
ghost use Rattle.addr_space.specs.Footprint.{nothing, Moves};
ghost use Rattle.chunk_header.specs.declared.TheConstants.{LARGEST_BLOCK};
ghost use Rattle.bump_ctx.specs.Ledger.{created};
ghost use Rattle.temp_store.specs.Temp.{Temp, held as stored};
ghost use Rattle.agg_rules.specs.declared.TheConstants.{ROW_BYTES};
ghost use Rattle.agg_rules.specs.Rows.{results_of};
ghost use Rattle.agg_rules.specs.Passes.{kept_groups, pass_results, spilled_rows};
ghost use Rattle.agg_rules.specs.Steps.{meets};
ghost use Rattle.held_groups.specs.declared.held.TheConstants.{FIRST_BLOCK, MOST_ROWS};
ghost use Rattle.held_groups.specs.Held.{footprint};
ghost use Rattle.agg_pass.specs.PassState.{Spends, way_of};
ghost use Rattle.agg_pass.specs.Spilled.{IsOf, KeepsFiles};
ghost use Rattle.exec_agg.specs.declared.stage.Stage.TheVariants.{Putting, Giving, Refused};
ghost use Rattle.exec_agg.specs.Nodes.{Node, Holds, Goes, Stops, IsTurn, next_pass, way_over, NoFile};

use crate::over::go_over;
use crate::stage::Stage;
use addr_space::Space;
use agg_pass::AggPass;
use agg_rules::{NodeError, Row};
use block_mem::told::{Tells, Told};
use held_groups::told_rows::more_rows;
use std::alloc::Global;
use std::marker::Model;
use temp_store::TempStore;

// The rows that a pass spilled.
struct SpilledRows;

impl Tells<AggPass, Row> for SpilledRows {
    ghost told = { λ p. spilled_rows p.budget p.rows };
}

// What may be called behind a pass over a file.
fn stage_behind(gone_over: &Result<(), NodeError>) -> Stage
    ensures ok { OnOk gone_over.now (result ≡ Giving) }
    ensures err { OnErr gone_over.now (result ≡ Refused) }
{
    match gone_over {
        Ok(()) => Stage::Giving,
        Err(_) => Stage::Refused,
    }
}

/// A hash aggregate node: rows are put, and then each of their groups is given, with its count and its sum.
///
/// It stands for the hashed node of PostgreSQL's nodeAgg.c. It holds the first groups, as many as its budget is, in a
/// context, and spills the rows of the others to a file. When it gave the groups that it holds it goes over that file.
///
/// Contracts see the rows that were put, how many groups were given, and the pass at hand.
#[derive(Drop)]
pub struct AggNode {
    pass: AggPass,
    place: usize,
    given: usize,
    stage: Stage,
    rows: Told<Row>,
}

impl Model for AggNode {
    ghost use Rattle.exec_agg.specs.Nodes.{Node, IsNode};

    ghost Value = { Node };

    ghost view = { λ n. record { rows = n.rows.entries; given = n.given; stage = n.stage; pass = n.pass; place = n.place } };

    ghost invariant = { λ n. IsNode (record { rows = n.rows.entries; given = n.given; stage = n.stage; pass = n.pass; place = n.place }) };
}

impl AggNode {
    /// A node without rows, whose context is made for an account of the space. A budget is how many groups are held at
    /// once, and at least 1.
    ///
    /// `NoSpace` comes where the context's first block doesn't fit, and before `Memory`. A refused call changes nothing.
    pub fn create(
        alloc: Global,
        space: &mut Space,
        account: u8,
        budget: u32,
    ) -> Result<AggNode, NodeError>
        requires account { account < accounts space.old }
        requires budget { 0 < budget }
        ensures rows { IfOk result (λ n. n.rows ≡ []) }
        ensures given { IfOk result (λ n. n.given ≡ 0) }
        ensures place { IfOk result (λ n. n.place ≡ 0) }
        ensures stage { IfOk result (λ n. n.stage ≡ Putting) }
        ensures budget { IfOk result (λ n. n.pass.budget ≡ budget) }
        ensures met { IfOk result (λ n. n.pass.rows ≡ []) }
        ensures file { IfOk result (λ n. n.pass.file ≡ None) }
        ensures ledger { IfOk result (λ n. n.pass.groups.state.ledger ≡ created FIRST_BLOCK LARGEST_BLOCK) }
        ensures account { IfOk result (λ n. (footprint n.pass.groups).account ≡ account) }
        ensures holds { IfOk result (λ n. (temp : Temp) → Holds n space.new temp) }
        ensures moves { IfOk result (λ n. Moves (nothing account 0) (footprint n.pass.groups) space.old space.new) }
        ensures asked { OnOk result (Asks account FIRST_BLOCK space.old space.new) }
        ensures no_space { (result ≡ Err NodeError.NoSpace) ↔ (space.old.limit < held space.old account + FIRST_BLOCK) }
        ensures no_other { IfErr result (λ e. (e ≡ NodeError.NoSpace) ⊎ (e ≡ NodeError.Memory)) }
        ensures err_space { OnErr result (space.new ≡ space.old) }
    {
        let pass = match AggPass::create(alloc, space, account, budget) {
            Ok(pass) => pass,
            Err(refused) => return Err(refused),
        };
        Ok(AggNode {
            pass,
            place: 0,
            given: 0,
            stage: Stage::Putting,
            rows: Told::none(),
        })
    }

    /// What its context has of the space is the total of the ledger. A caller cites the clause.
    pub fn counted(&self)
        ensures { (footprint self.now.pass.groups).total ≡ self.now.pass.groups.state.ledger.total }
    {
        self.pass.counted();
    }

    /// What is left to give is what is left of the pass at hand, and then what the rows that it spilled give. A caller
    /// cites a clause.
    pub fn standing(&self)
        ensures some { 0 < self.now.pass.budget }
        ensures no_file { self.now.pass.file ≡ None → spilled_rows self.now.pass.budget self.now.pass.rows ≡ [] }
        ensures left { self.now.stage ≡ Giving → drop self.now.given (results_of self.now.rows) ≡ drop self.now.place (pass_results self.now.pass.budget self.now.pass.rows) ++ results_of (spilled_rows self.now.pass.budget self.now.pass.rows) }
    {
        let _ = self.pass.file();
    }

    /// Puts a row: its group is held, or the row is spilled.
    ///
    /// `NoSpace` comes only where the context's ledger asks for bytes that don't fit, and `Full` only where the store has
    /// no room for eight bytes more. After a refusal the rows are as they were.
    pub fn put(
        &mut self,
        space: &mut Space,
        temp: &mut TempStore,
        group: u32,
        value: u32,
    ) -> Result<(), NodeError>
        requires putting { self.old.stage ≡ Putting }
        requires holds { Holds self.old space.old temp.old }
        requires few { length self.old.rows < MOST_ROWS }
        ensures rows { OnOk result (self.new.rows ≡ self.old.rows ++ record { group = group; value = value } ∷ []) }
        ensures err_rows { OnErr result (self.new.rows ≡ self.old.rows) }
        ensures met { self.new.pass.rows ≡ self.new.rows }
        ensures given { self.new.given ≡ self.old.given }
        ensures place { self.new.place ≡ self.old.place }
        ensures stage { self.new.stage ≡ Putting }
        ensures budget { self.new.pass.budget ≡ self.old.pass.budget }
        ensures holds { Holds self.new space.new temp.new }
        ensures moves { Moves (footprint self.old.pass.groups) (footprint self.new.pass.groups) space.old space.new }
        ensures others { KeepsFiles (IsOf self.old.pass.file) temp.old (IsOf self.new.pass.file) temp.new }
        ensures limit { temp.new.limit ≡ temp.old.limit }

        // It goes on as the rules say, and what refuses it is what they say, but for want of memory. Its account takes what
        // the ledger asks, and the eight bytes of a spilled row are written.
        ensures went { OnOk result (meets self.old.pass.budget (way_of self.old.pass space.old temp.old) group ≡ Ok (way_of self.new.pass space.new temp.new)) }
        ensures refused { IfErr result (λ e. (e ≡ NodeError.Memory) ⊎ (meets self.old.pass.budget (way_of self.old.pass space.old temp.old) group ≡ Err e)) }
        ensures spends { Spends self.old.pass.groups.state.layout.account (way_of self.old.pass space.old temp.old) (way_of self.new.pass space.new temp.new) space.old space.new temp.old temp.new }
        ensures err_way { OnErr result (way_of self.new.pass space.new temp.new ≡ way_of self.old.pass space.old temp.old) }
        ensures err_space { OnErr result (space.new ≡ space.old) }
    {
        let row = Row { group, value };
        if let Err(refused) = self.pass.meet(space, temp, row) {
            return Err(refused);
        }
        self.rows = more_rows(&self.rows, row);
        Ok(())
    }

    /// Ends the puts. It takes no memory.
    pub fn finish(&mut self)
        requires putting { self.old.stage ≡ Putting }
        ensures giving { self.new ≡ record self.old { stage = Giving } }
        ensures holds { (space : Space) (temp : Temp) → Holds self.old space temp → Holds self.new space temp }
    {
        self.stage = Stage::Giving;
    }

    // The file that the next pass goes over, where the groups of the pass at hand were all given.
    fn next_file(&self) -> Option<u32>
        ensures some { IfSome result (λ file. (self.now.pass.file ≡ Some file) × IsTurn self.now) }
        ensures no_turn { IfNone result (IsTurn self.now → ⊥) }
        ensures none { IfNone result (length (kept_groups self.now.pass.budget self.now.pass.rows) ≤ self.now.place → spilled_rows self.now.pass.budget self.now.pass.rows ≡ []) }
    {
        if self.place < self.pass.len() {
            None
        } else {
            self.pass.file()
        }
    }

    // Goes over the rows of the file, which is dropped then.
    fn begin_pass(
        &mut self,
        space: &mut Space,
        temp: &mut TempStore,
        file: u32,
    ) -> Result<(), NodeError>
        requires giving { self.old.stage ≡ Giving }
        requires holds { Holds self.old space.old temp.old }
        requires file { self.old.pass.file ≡ Some file }
        requires done { length (kept_groups self.old.pass.budget self.old.pass.rows) ≤ self.old.place }
        ensures rows { self.new.rows ≡ self.old.rows }
        ensures given { self.new.given ≡ self.old.given }
        ensures budget { self.new.pass.budget ≡ self.old.pass.budget }
        ensures stage { OnOk result (self.new.stage ≡ Giving) }
        ensures met { OnOk result (self.new.pass.rows ≡ spilled_rows self.old.pass.budget self.old.pass.rows) }
        ensures place { self.new.place ≡ 0 }
        ensures some { 0 < self.new.pass.budget }
        ensures err_stage { OnErr result (self.new.stage ≡ Refused) }
        ensures holds { Holds self.new space.new temp.new }
        ensures moves { Moves (footprint self.old.pass.groups) (footprint self.new.pass.groups) space.old space.new }
        ensures others { KeepsFiles (IsOf self.old.pass.file) temp.old (IsOf self.new.pass.file) temp.new }
        ensures limit { temp.new.limit ≡ temp.old.limit }
        ensures refused { IfErr result (λ e. (e ≡ NodeError.Memory) ⊎ Stops self.old self.new space.old space.new temp.old temp.new e) }
        ensures went { OnOk result (next_pass self.old space.old temp.old ≡ Ok (way_over self.old self.new space.new temp.new)) }
        ensures goes { Goes self.old self.new space.old space.new temp.old temp.new }
    {
        let rows = Told::of::<AggPass, SpilledRows>(&self.pass);
        let _ = self.pass.restart(space);
        self.place = 0;
        let gone_over = go_over(&mut self.pass, space, temp, file, &rows);
        temp.drop_file(file);
        self.stage = stage_behind(&gone_over);
        gone_over
    }

    // Gives the next group of the pass at hand, if there is one.
    fn give(&mut self, space: &Space) -> Option<(u32, u64, u64)>
        requires giving { self.old.stage ≡ Giving }
        requires holds { (temp : Temp) × Holds self.old space.now temp }
        requires last { length (kept_groups self.old.pass.budget self.old.pass.rows) ≤ self.old.place → results_of (spilled_rows self.old.pass.budget self.old.pass.rows) ≡ [] }
        ensures some { IfSome result (λ group. (slice_get (results_of self.old.rows) self.old.given ≡ Some group) × (self.new.given ≡ self.old.given + 1)) }
        ensures none { IfNone result ((self.old.given ≡ length (results_of self.old.rows)) × (self.new.given ≡ self.old.given)) }
        ensures rows { self.new.rows ≡ self.old.rows }
        ensures stage { self.new.stage ≡ Giving }
        ensures pass { self.new.pass ≡ self.old.pass }
        ensures place { IfSome result (λ _. self.new.place ≡ self.old.place + 1) }
    {
        if self.place < self.pass.len() {
            let group = self.pass.result_at(space, self.place);
            self.place += 1;
            self.given += 1;
            return Some(group);
        }
        None
    }

    /// The next group, how many rows it has, and the sum of their values; or `None` where all groups were given. They come
    /// in the order of their first rows.
    ///
    /// Where the groups of a pass were all given, and it spilled rows, the next pass goes over these rows first, and drops
    /// their file. `NoSpace` comes only where the context's ledger asks for bytes that don't fit in that pass, and `Full`
    /// only where the store has no room for a row that it spills. After a refusal only `close` is left.
    pub fn next(
        &mut self,
        space: &mut Space,
        temp: &mut TempStore,
    ) -> Result<Option<(u32, u64, u64)>, NodeError>
        requires giving { self.old.stage ≡ Giving }
        requires holds { Holds self.old space.old temp.old }
        ensures some { IfOk result (λ it. IfSome it (λ group. (slice_get (results_of self.old.rows) self.old.given ≡ Some group) × (self.new.given ≡ self.old.given + 1))) }
        ensures none { IfOk result (λ it. IfNone it ((self.old.given ≡ length (results_of self.old.rows)) × (self.new.given ≡ self.old.given))) }
        ensures rows { self.new.rows ≡ self.old.rows }
        ensures budget { self.new.pass.budget ≡ self.old.pass.budget }
        ensures stage { OnOk result (self.new.stage ≡ Giving) }
        ensures err_stage { OnErr result (self.new.stage ≡ Refused) }
        ensures err_given { OnErr result (self.new.given ≡ self.old.given) }
        ensures err_turn { OnErr result (IsTurn self.old) }
        ensures holds { Holds self.new space.new temp.new }
        ensures moves { Moves (footprint self.old.pass.groups) (footprint self.new.pass.groups) space.old space.new }
        ensures others { KeepsFiles (IsOf self.old.pass.file) temp.old (IsOf self.new.pass.file) temp.new }
        ensures limit { temp.new.limit ≡ temp.old.limit }
        ensures refused { IfErr result (λ e. (e ≡ NodeError.Memory) ⊎ Stops self.old self.new space.old space.new temp.old temp.new e) }

        // It is the next pass's turn where the groups of the pass at hand were all given and a row was spilled. Then the
        // next pass goes over the spilled rows, and takes what the rules say. Else the pass, the account and the store stay.
        ensures turn { length (kept_groups self.old.pass.budget self.old.pass.rows) ≤ self.old.place → spilled_rows self.old.pass.budget self.old.pass.rows ≢ [] → IsTurn self.old }
        ensures place { IfOk result (λ it. IfSome it (λ _. (IsTurn self.old → self.new.place ≡ 1) × ((IsTurn self.old → ⊥) → self.new.place ≡ self.old.place + 1))) }
        ensures met { IsTurn self.old → OnOk result (self.new.pass.rows ≡ spilled_rows self.old.pass.budget self.old.pass.rows) }
        ensures went { IsTurn self.old → OnOk result (next_pass self.old space.old temp.old ≡ Ok (way_over self.old self.new space.new temp.new)) }
        ensures goes { IsTurn self.old → Goes self.old self.new space.old space.new temp.old temp.new }
        ensures stays { (IsTurn self.old → ⊥) → (space.new ≡ space.old) × (temp.new ≡ temp.old) × (self.new.pass ≡ self.old.pass) }
    {
        let Some(file) = self.next_file() else {
            return Ok(self.give(space));
        };
        if let Err(refused) = self.begin_pass(space, temp, file) {
            return Err(refused);
        }
        Ok(self.give(space))
    }

    /// Gives the context and the file back. It takes no memory.
    pub fn close(self, space: &mut Space, temp: &mut TempStore)
        requires holds { Holds self space.old temp.old }
        ensures moves { Moves (footprint self.pass.groups) (nothing (footprint self.pass.groups).account (footprint self.pass.groups).context) space.old space.new }
        ensures asked { Asks self.pass.groups.state.layout.account 0 space.old space.new }
        ensures others { KeepsFiles (IsOf self.pass.file) temp.old NoFile temp.new }
        ensures written { temp.new.written ≡ temp.old.written }
        ensures limit { temp.new.limit ≡ temp.old.limit }
        ensures held { stored temp.new + ROW_BYTES * length (spilled_rows self.pass.budget self.pass.rows) ≡ stored temp.old }
    {
        let AggNode {
            pass,
            place: _,
            given: _,
            stage: _,
            rows: _,
        } = self;
        if let Some(file) = pass.discard(space) {
            temp.drop_file(file);
        }
    }
}
