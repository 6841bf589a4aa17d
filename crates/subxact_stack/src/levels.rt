//! The stack of levels.
ghost use Rattle.std.specs.Prelude.{◌≡◌, ◌↔◌, ◌<◌, ◌≤◌, length, [], ◌∷◌, ◌++◌, Some, true, false, OnOk, OnErr, IfOk, IfSome, IsTrue, IsSome, option_copied};
ghost use Rattle.std.specs.Option.{option_to_list};
ghost use Rattle.subxact_stack.specs.Levels.{is_named, new_level, with_deepest, level_at, deepest_named};

use pgs_step::{CtxId, Name, OwnerId};
use std::alloc::Global;
use std::marker::Model;
use thiserror::Error;

/// The most levels that a session has at once.
pub const MAX_DEPTH: usize = 1000;

/// A transaction or a subtransaction: PostgreSQL's `TransactionState`.
///
/// `name` is the savepoint's name, which level 1 and an unnamed subtransaction lack. `context` and `owner`
/// are the level's memory context and resource owner, where they have been made. An `implicit` level was
/// begun for a single command. An `aborted` one takes nothing but its end. A `starting` one is not yet whole.
#[derive(Clone, Copy, Debug, PartialEq, Eq)]
pub struct Level {
    pub name: Option<Name>,
    pub context: Option<CtxId>,
    pub owner: Option<OwnerId>,
    pub implicit: bool,
    pub aborted: bool,
    pub starting: bool,
}

impl Level {
    /// Whether the level has this name.
    fn is_named(&self, name: &Name) -> bool
        ensures { result ≡ is_named name.now self.now }
    {
        match &self.name {
            Some(own) => *own == *name,
            None => false,
        }
    }
}

/// Why a level could not begin.
#[derive(Clone, Copy, Debug, PartialEq, Eq, Error)]
pub enum LevelError {
    /// The session has 1,000 levels.
    #[error("too many levels")]
    TooMany,
    /// Memory was refused.
    #[error("no memory")]
    Memory,
}

/// The levels of one session, of which there are at most 1,000.
///
/// Contracts see the list of the levels, level 1 first, so that the last one is the deepest. Levels are
/// numbered from 1. Only `begin` may take memory.
#[derive(Drop)]
pub struct Levels {
    levels: Vec<Level>,
}

impl Model for Levels {
    ghost use Rattle.std.specs.Prelude.{List, ◌≤◌};
    ghost use Rattle.std.specs.Vec.{vec_len};
    ghost use Rattle.subxact_stack.specs.declared.levels.Level.{Level as ALevel};

    ghost Value = { List ALevel };

    ghost view = { λ l. l.levels.items };

    ghost invariant = { λ l. vec_len l.levels ≤ 1000 };
}

impl Levels {
    /// No level: the session is in no transaction.
    pub fn new(alloc: Global) -> Levels
        ensures { result ≡ [] }
    {
        Levels {
            levels: Vec::new(alloc),
        }
    }

    /// Begins a level inside the deepest one, and gives its number. It starts without a context and an owner.
    ///
    /// It answers `TooMany` exactly where there are 1,000 levels.
    pub fn begin(&mut self, name: Option<Name>, implicit: bool) -> Result<u32, LevelError>
        ensures begun { OnOk result (self.new ≡ self.old ++ new_level name implicit ∷ []) }
        ensures number { IfOk result (λ level. level ≡ length self.new) }
        ensures too_many { (result ≡ Err LevelError.TooMany) ↔ (length self.old ≡ 1000) }
        ensures err { OnErr result (self.new ≡ self.old) }
    {
        if self.levels.len() == MAX_DEPTH {
            return Err(LevelError::TooMany);
        }
        let level = Level {
            name,
            context: None,
            owner: None,
            implicit,
            aborted: false,
            starting: true,
        };
        if self.levels.push(level).is_err() {
            return Err(LevelError::Memory);
        }
        Ok(self.depth())
    }

    /// The context of the deepest level was made.
    pub fn set_context(&mut self, context: CtxId)
        requires { 0 < length self.old }
        ensures { self.new ≡ with_deepest (λ level. record level { context = Some context }) self.old }
    {
        let deepest = self.levels.len() - 1;
        self.levels[deepest].context = Some(context);
    }

    /// The owner of the deepest level was made.
    pub fn set_owner(&mut self, owner: OwnerId)
        requires { 0 < length self.old }
        ensures { self.new ≡ with_deepest (λ level. record level { owner = Some owner }) self.old }
    {
        let deepest = self.levels.len() - 1;
        self.levels[deepest].owner = Some(owner);
    }

    /// The deepest level is whole: it has its context and its owner.
    pub fn started(&mut self)
        requires { 0 < length self.old }
        ensures { self.new ≡ with_deepest (λ level. record level { starting = false }) self.old }
    {
        let deepest = self.levels.len() - 1;
        self.levels[deepest].starting = false;
    }

    /// The deepest level was aborted.
    pub fn mark_aborted(&mut self)
        requires { 0 < length self.old }
        ensures { self.new ≡ with_deepest (λ level. record level { aborted = true }) self.old }
    {
        let deepest = self.levels.len() - 1;
        self.levels[deepest].aborted = true;
    }

    /// The number of the deepest level of at least 2 that has this name.
    pub fn find(&self, name: &Name) -> Option<u32>
        ensures found { result ≡ deepest_named name.now self.now }
        ensures subtransaction { IfSome result (λ level. 2 ≤ level) }
        ensures within { IfSome result (λ level. level ≤ length self.now) }
    {
        let mut level = self.levels.len();
        while level >= 2 {
            if self.levels[level - 1].is_named(name) {
                return Some(level as u32);
            }
            level -= 1;
        }
        None
    }

    /// The level of that number, where there is one.
    pub fn at(&self, level: u32) -> Option<&Level>
        ensures { option_copied result ≡ level_at self.now level }
    {
        if level == 0 {
            return None;
        }
        self.levels.get(level as usize - 1)
    }

    /// How many levels there are, which is the number of the deepest.
    pub fn depth(&self) -> u32
        ensures depth { result ≡ length self.now }
        ensures at_most { result ≤ 1000 }
    {
        self.levels.len() as u32
    }

    /// Takes the deepest level off.
    pub fn pop(&mut self) -> Option<Level>
        ensures popped { self.old ≡ self.new ++ option_to_list result }
        ensures some { IsSome result ↔ (0 < length self.old) }
    {
        self.levels.pop()
    }
}
