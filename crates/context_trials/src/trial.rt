//! A session's contexts in a space of their own.
ghost use Rattle.std.specs.Prelude.{◌≡◌, ℕ, ◌+◌, ◌*◌, ◌<◌, length, false, true, Some, None, IfOk, OnOk, OnErr};
ghost use Rattle.addr_space.specs.Space.{held as held_by};
ghost use Rattle.pgs_step.specs.EventList.{KeepsMore};
ghost use Rattle.forest.specs.Forest.{Empty, Once, has, removed, is_above, size};
ghost use Rattle.reset_callbacks.specs.Hook.{AreDistinct};
ghost use Rattle.reset_callbacks.specs.ShelfState.{held, taken};
ghost use Rattle.any_ctx.specs.Kinds.{IsSlabSize};
ghost use Rattle.context_rules.specs.Contexts.{created, created_events};
ghost use Rattle.context_rules.specs.Chunks.{freed, shown, written};
ghost use Rattle.context_rules.specs.Ends.{gone, cleared, handed_in};
ghost use Rattle.context_rules.specs.Refusals.{bytes_refusal};
ghost use Rattle.context_rules.specs.Reports.{report};
ghost use Rattle.context_tree.specs.State.{HooksFit, IsLive, error_of};
ghost use Rattle.context_trials.specs.Standing.{Stands, begun, contexts_of, number_of, made_in, made_events, taken_in, zeroed_in, fitted, moved_in, moved_events, waits_at, ended_at};

use addr_space::Space;
use any_ctx::CtxKind;
use context_node::own_name;
use context_rules::TreeError;
use context_tree::ContextTree;
use pgs_step::{CtxId, EventList, Name, What};
use reset_callbacks::{CountedHook, Shelf};
use std::alloc::Global;

/// The bytes that the contexts of a trial may hold.
const LIMIT: u64 = 134_217_728;

/// The most contexts that a trial makes.
const MOST: u64 = 1_000_000;

/// A context of a trial.
#[derive(Clone, Copy)]
pub enum At {
    /// The topmost one.
    Top,
    /// That of the transaction's first level.
    Level,
    /// The one of this name.
    Named(Name),
}

/// A session's contexts in a transaction, in a space of their own, with a shelf of hooks and a list of what is said.
#[derive(Drop)]
pub struct Trial {
    tree: ContextTree<CountedHook>,
    space: Space,
    shelf: Shelf<CountedHook>,
    out: EventList,
    top: CtxId,
    level: CtxId,
    /// The number of the context that was made last.
    last: u64,
    /// Whether nothing was reset or deleted yet.
    whole: bool,
    /// Whether a hook was taken.
    hooked: bool,
}

impl Trial {
    /// A session's own contexts and that of level 1, with a list that keeps so many events.
    pub fn new(alloc: Global, shelf: Shelf<CountedHook>, room: u32) -> Result<Trial, TreeError>
        requires words { AreDistinct (held shelf) }
        requires whole { shelf.out ≡ 0 }
        ensures stands { IfOk result Stands }
        ensures contexts { IfOk result (λ trial. contexts_of trial ≡ begun) }
        ensures next { IfOk result (λ trial. trial.tree.next ≡ 7) }
        ensures shelf { IfOk result (λ trial. trial.shelf ≡ shelf) }
    {
        let Ok(mut out) = EventList::new(alloc, room) else {
            return Err(TreeError::Memory);
        };
        let Ok(mut space) = Space::new(alloc, 1, LIMIT) else {
            return Err(TreeError::Memory);
        };
        let mut tree = ContextTree::new(alloc, 0, &mut space)?;
        let top = tree.top();
        let name = own_name(b"TopTransactionContext");
        let level = tree.create(&mut space, top, name, CtxKind::Default, true, &mut out)?;
        Ok(Trial {
            tree,
            space,
            shelf,
            out,
            top,
            level,
            last: level.number,
            whole: true,
            hooked: false,
        })
    }

    /// Where a context is. `NoName` comes for the topmost one and that of level 1 once something was deleted or reset.
    fn find(&self, at: At) -> Result<CtxId, TreeError>
        requires { Stands self.now }
        ensures live { IfOk result (IsLive self.now.tree) }
        ensures number { IfOk result (λ id. number_of at (contexts_of self.now) ≡ Some id.number) }
    {
        match at {
            At::Top if self.whole => Ok(self.top),
            At::Level if self.whole => Ok(self.level),
            At::Named(name) => match self.tree.find(&name) {
                Some(id) => Ok(id),
                None => Err(TreeError::NoName),
            },
            _ => Err(TreeError::NoName),
        }
    }

    /// Makes a context below another one.
    fn make(
        &mut self,
        parent: CtxId,
        name: Name,
        kind: CtxKind,
        protected: bool,
    ) -> Result<CtxId, TreeError>
        requires stands { Stands self.old }
        requires live { IsLive self.old.tree parent }
        requires slab { IsSlabSize kind }
        ensures stands { Stands self.new }
        ensures live { IfOk result (IsLive self.new.tree) }
        ensures contexts { OnOk result (contexts_of self.new ≡ created parent.number self.old.tree.next name kind protected (contexts_of self.old)) }
        ensures said { OnOk result (KeepsMore self.old.out (created_events parent.number self.old.tree.next name) self.new.out) }
        ensures next { OnOk result (self.new.tree.next ≡ self.old.tree.next + 1) }
        ensures shelf { self.new.shelf ≡ self.old.shelf }
    {
        if self.last >= MOST {
            return Err(TreeError::TooMany);
        }
        let id = self.tree.create(
            &mut self.space,
            parent,
            name,
            kind,
            protected,
            &mut self.out,
        )?;
        self.last = id.number;
        Ok(id)
    }

    /// Makes a context below another one.
    pub fn create(&mut self, at: At, name: Name, kind: CtxKind) -> Result<(), TreeError>
        requires stands { Stands self.old }
        requires slab { IsSlabSize kind }
        ensures stands { Stands self.new }
        ensures contexts { OnOk result (contexts_of self.new ≡ made_in (number_of at (contexts_of self.old)) self.old.tree.next name kind (contexts_of self.old)) }
        ensures said { OnOk result (KeepsMore self.old.out (made_events (number_of at (contexts_of self.old)) self.old.tree.next name) self.new.out) }
        ensures next { OnOk result (self.new.tree.next ≡ self.old.tree.next + 1) }
        ensures shelf { self.new.shelf ≡ self.old.shelf }
    {
        let parent = self.find(at)?;
        self.make(parent, name, kind, false)?;
        Ok(())
    }

    /// Makes contexts for little, each below the one before. They are protected, so that one name serves for all.
    pub fn chain(&mut self, at: At, name: Name, count: u32) -> Result<(), TreeError>
        requires { Stands self.old }
        ensures { Stands self.new }
    {
        let mut last = self.find(at)?;
        for _ in 0..count {
            last = self.make(last, name, CtxKind::Small, true)?;
        }
        Ok(())
    }

    /// Makes protected contexts for little below the topmost one.
    pub fn widen(&mut self, name: Name, count: u32) -> Result<(), TreeError>
        requires { Stands self.old }
        ensures { Stands self.new }
    {
        for _ in 0..count {
            let top = self.find(At::Top)?;
            self.make(top, name, CtxKind::Small, true)?;
        }
        Ok(())
    }

    /// Takes a chunk.
    pub fn alloc(&mut self, at: At, chunk: Name, size: u64) -> Result<(), TreeError>
        requires { Stands self.old }
        ensures stands { Stands self.new }
        ensures contexts { OnOk result (contexts_of self.new ≡ taken_in (number_of at (contexts_of self.old)) chunk size (contexts_of self.old)) }
    {
        let id = self.find(at)?;
        self.tree.alloc(&mut self.space, id, Some(chunk), size)?;
        Ok(())
    }

    /// Takes a chunk of zeros.
    pub fn alloc0(&mut self, at: At, chunk: Name, size: u64) -> Result<(), TreeError>
        requires { Stands self.old }
        ensures stands { Stands self.new }
        ensures contexts { OnOk result (contexts_of self.new ≡ zeroed_in (number_of at (contexts_of self.old)) chunk size (contexts_of self.old)) }
    {
        let id = self.find(at)?;
        self.tree.alloc0(&mut self.space, id, Some(chunk), size)?;
        Ok(())
    }

    /// Frees a chunk.
    pub fn free(&mut self, chunk: &Name) -> Result<(), TreeError>
        requires { Stands self.old }
        ensures stands { Stands self.new }
        ensures contexts { OnOk result (contexts_of self.new ≡ freed chunk.now (contexts_of self.old)) }
    {
        self.tree.free(&mut self.space, chunk)?;
        Ok(())
    }

    /// Gives a chunk another size.
    pub fn realloc(&mut self, chunk: &Name, size: u64) -> Result<(), TreeError>
        requires { Stands self.old }
        ensures stands { Stands self.new }
        ensures contexts { OnOk result (contexts_of self.new ≡ fitted chunk.now size (contexts_of self.old)) }
    {
        self.tree.realloc(&mut self.space, chunk, size)?;
        Ok(())
    }

    /// Writes bytes into a chunk.
    pub fn put(&mut self, chunk: &Name, place: u64, bytes: &[u8]) -> Result<(), TreeError>
        requires { Stands self.old }
        ensures stands { Stands self.new }
        ensures contexts { OnOk result (contexts_of self.new ≡ written chunk.now place bytes.now (contexts_of self.old)) }
    {
        self.tree.put(&mut self.space, chunk, place, bytes)?;
        Ok(())
    }

    /// Writes over the first two bytes of a chunk, in the space and past the tree, where both are known.
    pub fn overwrite(&mut self, chunk: &Name, bytes: [u8; 2]) -> Result<(), TreeError>
        requires { Stands self.old }
        ensures stands { Stands self.new }
        ensures contexts { OnOk result (contexts_of self.new ≡ written chunk.now 0 bytes (contexts_of self.old)) }
    {
        let mut known = [0; 2];
        self.tree.bytes(&self.space, chunk, 0, &mut known)?;
        let at = self.tree.place(chunk);
        self.space.write(at, &bytes);
        Ok(())
    }

    /// Reads bytes of a chunk, as many as `out` has.
    pub fn show(&self, chunk: &Name, place: u64, out: &mut [u8]) -> Result<(), TreeError>
        requires { Stands self.now }
        ensures answer { error_of result ≡ bytes_refusal chunk.now place (length out.old) (contexts_of self.now) }
        ensures bytes { OnOk result (out.new ≡ shown chunk.now place (length out.old) (contexts_of self.now)) }
        ensures err { OnErr result (out.new ≡ out.old) }
    {
        self.tree.bytes(&self.space, chunk, place, out)
    }

    /// Takes the next hook off the shelf, and lets it wait on a context.
    pub fn hook(&mut self, at: At) -> Result<(), TreeError>
        requires { Stands self.old }
        ensures stands { Stands self.new }
        ensures contexts { OnOk result (contexts_of self.new ≡ waits_at (number_of at (contexts_of self.old)) self.old.shelf.fresh (contexts_of self.old)) }
        ensures shelf { OnOk result (self.new.shelf ≡ taken self.old.shelf) }
    {
        let id = self.find(at)?;
        let Some(hook) = self.shelf.take() else {
            return Err(TreeError::Memory);
        };
        self.hooked = true;
        let Ok(()) = self.tree.register(id, hook) else {
            return Err(TreeError::Memory);
        };
        Ok(())
    }

    /// Resets a context, where no hook waits.
    pub fn reset(&mut self, at: At) -> Result<(), TreeError>
        requires { Stands self.old }
        ensures stands { Stands self.new }
        ensures contexts { OnOk result (contexts_of self.new ≡ (ended_at cleared (number_of at (contexts_of self.old)) (contexts_of self.old)).contexts) }
        ensures said { OnOk result (KeepsMore self.old.out (ended_at cleared (number_of at (contexts_of self.old)) (contexts_of self.old)).events self.new.out) }
    {
        let id = self.find(at)?;
        if self.hooked {
            return Err(TreeError::InUse);
        }
        self.tree
            .reset(&mut self.space, &mut self.shelf, id, &mut self.out)?;
        self.whole = false;
        Ok(())
    }

    /// Deletes a context, where no hook waits.
    pub fn delete(&mut self, at: At) -> Result<(), TreeError>
        requires { Stands self.old }
        ensures stands { Stands self.new }
        ensures contexts { OnOk result (contexts_of self.new ≡ (ended_at gone (number_of at (contexts_of self.old)) (contexts_of self.old)).contexts) }
        ensures said { OnOk result (KeepsMore self.old.out (ended_at gone (number_of at (contexts_of self.old)) (contexts_of self.old)).events self.new.out) }
    {
        let id = self.find(at)?;
        if self.hooked {
            return Err(TreeError::InUse);
        }
        self.tree
            .delete(&mut self.space, &mut self.shelf, id, &mut self.out)?;
        self.whole = false;
        Ok(())
    }

    /// Deletes a context, and the hooks that wait run.
    pub fn delete_hooked(&mut self, at: At) -> Result<(), TreeError>
        requires stands { Stands self.old }
        requires hooks { HooksFit (contexts_of self.old) self.old.shelf }
        ensures stands { Stands self.new }
        ensures contexts { OnOk result (contexts_of self.new ≡ (ended_at gone (number_of at (contexts_of self.old)) (contexts_of self.old)).contexts) }
        ensures said { OnOk result (KeepsMore self.old.out (ended_at gone (number_of at (contexts_of self.old)) (contexts_of self.old)).events self.new.out) }
        ensures shelf { OnOk result (self.new.shelf ≡ handed_in (ended_at gone (number_of at (contexts_of self.old)) (contexts_of self.old)).hooks self.old.shelf) }
    {
        let id = self.find(at)?;
        self.tree
            .delete(&mut self.space, &mut self.shelf, id, &mut self.out)?;
        self.whole = false;
        self.hooked = true;
        Ok(())
    }

    /// Makes a context the first child of another one, where no hook waits.
    pub fn reparent(&mut self, at: At, parent: At) -> Result<(), TreeError>
        requires { Stands self.old }
        ensures stands { Stands self.new }
        ensures contexts { OnOk result (contexts_of self.new ≡ moved_in (number_of at (contexts_of self.old)) (number_of parent (contexts_of self.old)) (contexts_of self.old)) }
        ensures said { OnOk result (KeepsMore self.old.out (moved_events (number_of at (contexts_of self.old)) (number_of parent (contexts_of self.old)) (contexts_of self.old)) self.new.out) }
    {
        let id = self.find(at)?;
        let below = self.find(parent)?;
        if self.hooked {
            return Err(TreeError::InUse);
        }
        self.tree.set_parent(id, below, &mut self.out)?;
        Ok(())
    }

    /// The context of level 1 goes, with all below it.
    pub fn roll_back(&mut self) -> Result<(), TreeError>
        requires stands { Stands self.old }
        requires apart { is_above 6 1 (contexts_of self.old) ≡ false }
        ensures stands { Stands self.new }
        ensures contexts { OnOk result (contexts_of self.new ≡ removed 6 (contexts_of self.old)) }
        ensures said { OnOk result (KeepsMore self.old.out (gone 6 (contexts_of self.old)).events self.new.out) }
    {
        let id = self.find(At::Level)?;
        if self.hooked {
            return Err(TreeError::InUse);
        }
        self.tree
            .gone(&mut self.space, &mut self.shelf, id, &mut self.out);
        self.whole = false;
        Ok(())
    }

    /// All contexts go.
    pub fn exit(&mut self) -> Result<(), TreeError>
        requires stands { Stands self.old }
        requires there { has 1 (contexts_of self.old) ≡ true }
        requires last { removed 1 (contexts_of self.old) ≡ Empty }
        ensures stands { Stands self.new }
        ensures contexts { OnOk result (contexts_of self.new ≡ Empty) }
        ensures said { OnOk result (KeepsMore self.old.out (gone 1 (contexts_of self.old)).events self.new.out) }
    {
        if self.hooked {
            return Err(TreeError::InUse);
        }
        let top = self.tree.top();
        self.tree
            .gone(&mut self.space, &mut self.shelf, top, &mut self.out);
        self.whole = false;
        Ok(())
    }

    /// Says what each context holds, and what all hold together.
    pub fn report(&mut self)
        requires stands { Stands self.old }
        ensures stands { Stands self.new }
        ensures contexts { contexts_of self.new ≡ contexts_of self.old }
        ensures said { KeepsMore self.old.out (report (contexts_of self.old)) self.new.out }
    {
        self.tree.report(&mut self.out);
    }

    /// What was said and kept.
    pub fn events(&self) -> &[What]
        ensures { result.now ≡ self.now.out.events }
    {
        self.out.events()
    }

    /// How much was said that wasn't kept.
    pub fn missed(&self) -> u64
        ensures { result ≡ self.now.out.missed }
    {
        self.out.missed()
    }

    /// How many hooks ran.
    pub fn spent(&self) -> usize
        ensures { result ≡ length self.now.shelf.spent }
    {
        self.shelf.spent()
    }

    /// How many contexts live.
    pub fn count(&self) -> u64
        ensures value { result ≡ size (contexts_of self.now) }
        ensures once { Once (contexts_of self.now) }
    {
        self.tree.count()
    }

    /// The bytes that the contexts hold.
    pub fn held(&self) -> u64
        requires { Stands self.now }
        ensures { result ≡ held_by self.now.space 0 }
    {
        self.space.held(0)
    }
}
