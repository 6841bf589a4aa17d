//! The levels of a session's transaction begin, and stand.
ghost use Rattle.std.specs.Prelude.{◌≡◌, ◌≢◌, ◌↔◌, ◌⊎◌, ℕ, ◌+◌, ◌-◌, ◌<◌, ◌≤◌, ◌^◌, List, [], ◌∷◌, ◌++◌, length, drop, true, false, unwrap_or, Some, None, Err, IfErr, IfOk, IfSome, OnOk, OnErr, codes};
ghost use Rattle.std.specs.Option.{option_map, option_and_then};
ghost use Rattle.addr_space.specs.Space.{Space, Asks};
ghost use Rattle.any_ctx.specs.Kinds.{first_size};
ghost use Rattle.any_ctx.specs.declared.any.CtxKind.TheVariants as kind;
ghost use Rattle.reset_callbacks.specs.ShelfState.{ShelfState};
ghost use Rattle.forest.specs.Forest.{size};
ghost use Rattle.context_rules.specs.Refusals.{create_refusal};
ghost use Rattle.context_tree.specs.State.{IsLive, Moves};
ghost use Rattle.context_tree.specs.Making.{AsksInVain};
ghost use Rattle.session_owners.specs.ResourceState as owners;
ghost use Rattle.session_owners.specs.ResourceState.{owners_of};
ghost use Rattle.subxact_stack.specs.declared.levels.Level.{Level as ALevel};
ghost use Rattle.subxact_stack.specs.Levels.{new_level, with_deepest, level_at};
ghost use Rattle.session_rules.specs.Limits.{most_levels, most_owners};
ghost use Rattle.session_rules.specs.State.{first_of, is_aborted};
ghost use Rattle.session_rules.specs.Commands.{savepoint};
ghost use Rattle.session_rules.specs.Elements.{LevelContext, OfLevel};
ghost use Rattle.session_rules.specs.Making.{level_made, level_context_name, level_parent, new_context_made, new_owner_made};
ghost use Rattle.session_rules.specs.Parts.{level_stands};
ghost use Rattle.session_owners.specs.Commons.{CommonState};
ghost use Rattle.session_store.specs.State.{contexts_in, left_in, level_state, levels_of};
ghost use Rattle.session_store.specs.Placed.{HasLevels};
ghost use Rattle.session_store.specs.Calls.{Acted, IsSilent, Keeps, Refused, StandsIn};

use crate::store::Store;
use addr_space::Space;
use any_ctx::CtxKind;
use context_rules::TreeError;
use context_tree::{ContextTree, own_name};
use owner_core::OwnerError;
use pgs_step::{CtxId, Emit, Name, OwnerId, What};
use reset_callbacks::ResetHook;
use subxact_stack::{Level, LevelError, Levels};

/// The deepest level.
pub fn deepest(levels: &Levels) -> Level
    requires { 0 < length levels.now }
    ensures { (outer : List ALevel) × (levels.now ≡ outer ++ result ∷ []) }
{
    match levels.at(levels.depth()) {
        Some(level) => *level,
        None => unreachable!(),
    }
}

/// The level above the deepest.
pub(crate) fn above(levels: &Levels) -> Option<Level>
    requires { 0 < length levels.now }
    ensures { result ≡ level_at levels.now (length levels.now - 1) }
{
    match levels.at(levels.depth() - 1) {
        Some(level) => Some(*level),
        None => None,
    }
}

/// Makes a context the current one, if there is one.
fn switch_to<H: ResetHook>(tree: &mut ContextTree<H>, to: Option<CtxId>)
    requires { IfSome to (IsLive tree.old) }
    ensures { tree.new ≡ record tree.old { current = unwrap_or to tree.old.current } }
{
    match to {
        None => {}
        Some(context) => tree.switch(context),
    }
}

impl<H: ResetHook> Store<H> {
    /// How many levels there are, which is the number of the deepest: `GetCurrentTransactionNestLevel`.
    pub fn depth(&self) -> u32
        ensures depth { result ≡ length self.now.levels }
        ensures at_most { result ≤ most_levels }
    {
        self.levels.depth()
    }

    /// The deepest level, where there is one.
    pub fn deepest_level(&self) -> Option<Level>
        ensures level { option_map level_state result ≡ first_of (levels_of self.now.levels) }
        ensures at_most { length self.now.levels ≤ most_levels }
    {
        if self.levels.depth() == 0 {
            return None;
        }
        Some(deepest(&self.levels))
    }

    /// Whether the deepest level is aborted.
    pub fn is_aborted(&self) -> bool
        ensures { result ≡ is_aborted (levels_of self.now.levels) }
    {
        match self.deepest_level() {
            Some(level) => level.aborted,
            None => false,
        }
    }

    /// The number of the deepest savepoint of this name; level 1 is none.
    pub fn savepoint(&self, name: &Name) -> Option<u32>
        ensures found { result ≡ savepoint name.now (levels_of self.now.levels) }
        ensures subtransaction { IfSome result (λ level. 2 ≤ level) }
        ensures within { IfSome result (λ level. level ≤ length self.now.levels) }
    {
        self.levels.find(name)
    }

    /// Begins a level inside the deepest one: `StartTransaction` and `StartSubTransaction` as far as the stack goes.
    ///
    /// `TooMany` comes where there are 1,000 levels.
    pub fn begin_level<E: Emit>(
        &mut self,
        name: Option<Name>,
        implicit: bool,
        out: &mut E,
    ) -> Result<(), LevelError>
        ensures store { OnOk result (self.new ≡ record self.old { levels = self.old.levels ++ new_level name implicit ∷ [] }) }
        ensures acted { OnOk result ((s : Space) (x : ShelfState) (c : CommonState) → Acted (level_made name implicit) self.old self.new s s x x c c (λ events. E.emits out.old events out.new)) }
        ensures keeps { (s : Space) → Keeps self.old s → Keeps self.new s }
        ensures too_many { (result ≡ Err LevelError.TooMany) ↔ (length self.old.levels ≡ most_levels) }
        ensures err { OnErr result (self.new ≡ self.old) }
        ensures silent { OnErr result (out.new ≡ out.old) }
    {
        let level = match self.levels.begin(name, implicit) {
            Ok(level) => level,
            Err(error) => return Err(error),
        };
        out.emit(What::BeginLevel(level));
        Ok(())
    }

    /// The deepest level is whole: its context becomes the current one.
    pub fn level_stands(&mut self)
        requires level { 0 < length self.old.levels }
        requires stands { (s : Space) × ((x : ShelfState) × ((c : CommonState) × StandsIn self.old s x c)) }
        ensures acted { (s : Space) (x : ShelfState) (c : CommonState) → Acted level_stands self.old self.new s s x x c c IsSilent }
        ensures keeps { (s : Space) → Keeps self.old s → Keeps self.new s }
        ensures tree { self.new.tree ≡ record self.old.tree { current = self.new.tree.current } }
        ensures owners { self.new.owners ≡ self.old.owners }
        ensures levels { self.new.levels ≡ with_deepest (λ level. record level { starting = false }) self.old.levels }
        ensures portals { self.new.portals ≡ self.old.portals }
    {
        switch_to(&mut self.tree, deepest(&self.levels).context);
        self.levels.started();
    }

    /// The context of the level above the deepest, and where there is no such level the topmost one.
    pub fn context_above(&self) -> CtxId
        requires level { 0 < length self.now.levels }
        requires there { (s : Space) × HasLevels self.now.tree self.now.levels }
        ensures number { result.number ≡ level_parent (first_of (drop 1 (levels_of self.now.levels))) }
        ensures live { IsLive self.now.tree result }
    {
        match above(&self.levels) {
            None => self.tree.top(),
            Some(level) => match level.context {
                Some(context) => context,
                None => self.tree.top(),
            },
        }
    }

    /// Makes the context of the deepest level, below that of the level above.
    ///
    /// `TooMany` comes where 65,536 contexts live, and then `Ctx(NoSpace)` where the first block doesn't fit; `Memory` may
    /// come in place of any of them.
    pub fn make_level_context<E: Emit>(
        &mut self,
        space: &mut Space,
        out: &mut E,
    ) -> Result<(), TreeError>
        requires keeps { Keeps self.old space.old }
        requires level { 0 < length self.old.levels }
        requires stands { (x : ShelfState) × ((c : CommonState) × StandsIn self.old space.old x c) }
        requires room { self.old.tree.next < 2 ^ 62 }
        ensures acted { OnOk result ((x : ShelfState) (c : CommonState) → Acted (new_context_made LevelContext) self.old self.new space.old space.new x x c c (λ events. E.emits out.old events out.new)) }
        ensures keeps { Keeps self.new space.new }
        ensures moves { Moves self.old.tree self.new.tree space.old space.new }
        ensures owners { self.new.owners ≡ self.old.owners }
        ensures portals { self.new.portals ≡ self.old.portals }
        ensures asked { OnOk result (Asks self.old.tree.account (first_size kind.Default) space.old space.new) }
        ensures served { OnOk result (create_refusal (left_in self.old space.old) (codes "CurTransactionContext") kind.Default true (contexts_in self.old space.old) ≡ None) }
        ensures cause { IfErr result (λ e. (e ≡ TreeError.Memory) ⊎ (create_refusal (left_in self.old space.old) (codes "CurTransactionContext") kind.Default true (contexts_in self.old space.old) ≡ Some e)) }
        ensures refused { OnErr result ((x : ShelfState) (c : CommonState) → Refused self.old self.new space.old space.new x x c c) }
        ensures err_asked { IfErr result (λ e. AsksInVain e self.old.tree.account (first_size kind.Default) space.old space.new) }
        ensures silent { OnErr result (out.new ≡ out.old) }
    {
        let parent = self.context_above();
        let name = context_name(above(&self.levels));
        match self
            .tree
            .create(space, parent, name, CtxKind::Default, true, out)
        {
            Ok(context) => {
                self.levels.set_context(context);
                Ok(())
            }
            Err(error) => Err(error),
        }
    }

    /// Makes the owner of the deepest level, below that of the level above.
    ///
    /// `TooMany` comes where as many owners live as can, `Memory` where memory is refused.
    pub fn make_level_owner<E: Emit>(&mut self, out: &mut E) -> Result<(), OwnerError>
        requires level { 0 < length self.old.levels }
        requires stands { (s : Space) × ((x : ShelfState) × ((c : CommonState) × StandsIn self.old s x c)) }
        requires room { self.old.owners.next_owner < 2 ^ 62 }
        ensures acted { OnOk result ((s : Space) (x : ShelfState) (c : CommonState) → Acted (new_owner_made OfLevel) self.old self.new s s x x c c (λ events. E.emits out.old events out.new)) }
        ensures keeps { (s : Space) → Keeps self.old s → Keeps self.new s }
        ensures tree { self.new.tree ≡ self.old.tree }
        ensures portals { self.new.portals ≡ self.old.portals }
        ensures too_many { (result ≡ Err OwnerError.TooMany) ↔ (most_owners ≤ size (owners_of self.old.owners)) }
        ensures causes { OnErr result ((result ≢ Err OwnerError.Releasing) × (result ≢ Err OwnerError.NotOwned)) }
        ensures err { OnErr result (self.new ≡ self.old) }
        ensures silent { OnErr result (out.new ≡ out.old) }
    {
        let parent = owner_in(above(&self.levels));
        match self.owners.make_owner(parent, out) {
            Ok(owner) => {
                self.levels.set_owner(owner);
                Ok(())
            }
            Err(error) => Err(error),
        }
    }
}

/// PostgreSQL's name for the context of a level below this one.
fn context_name(above: Option<Level>) -> Name
    ensures { result ≡ level_context_name (option_map level_state above) }
{
    match above {
        None => own_name(b"TopTransactionContext"),
        Some(_) => own_name(b"CurTransactionContext"),
    }
}

/// The owner of a level, if there is one.
pub(crate) fn owner_in(level: Option<Level>) -> Option<OwnerId>
    ensures { result ≡ option_and_then (λ level. level.owner) level }
{
    match level {
        None => None,
        Some(level) => level.owner,
    }
}
