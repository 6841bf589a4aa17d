ghost use Rattle.std.specs.Prelude.{◌≡◌, [], ◌∷◌, IsTrue, ◌↔◌, IsNone, OnOk, OnErr, IfErr, IfSome, IfNone};

use crate::reset_hook::ResetHook;
use std::alloc::Global;
use std::marker::Model;

/// The hooks that wait on a memory context: PostgreSQL's `MemoryContextData.reset_cbs`.
///
/// Contracts see what the hooks stand for, newest first.
#[derive(Drop)]
pub struct Pending<H: ResetHook> {
    // The newest is the last.
    hooks: Vec<H>,
}

impl<H: ResetHook> Model for Pending<H> {
    ghost use Rattle.std.specs.Prelude.{List, map, reverse};
    ghost use Rattle.reset_callbacks.specs.Hook.{Hook};

    ghost Value = { List Hook };

    ghost view = { λ p. reverse (map H.hook_meaning p.hooks.items) };
}

impl<H: ResetHook> Pending<H> {
    /// No hook waits yet.
    pub fn new(alloc: Global) -> Pending<H>
        ensures { result ≡ [] }
    {
        Pending {
            hooks: Vec::new(alloc),
        }
    }

    /// Adds the hook as the newest, or hands it back for want of memory.
    pub fn push(&mut self, hook: H) -> Result<(), H>
        ensures ok { OnOk result (self.new ≡ H.hook_meaning hook ∷ self.old) }
        ensures err { OnErr result (self.new ≡ self.old) }
        ensures handed_back { IfErr result (λ back. back ≡ hook) }
    {
        match self.hooks.push(hook) {
            Ok(()) => Ok(()),
            Err(failed) => Err(failed.value),
        }
    }

    /// Takes the newest hook off.
    pub fn pop(&mut self) -> Option<H>
        ensures none { IsNone result ↔ (self.old ≡ []) }
        ensures newest { IfSome result (λ hook. self.old ≡ H.hook_meaning hook ∷ self.new) }
        ensures unchanged { IfNone result (self.new ≡ self.old) }
    {
        self.hooks.pop()
    }

    /// Whether no hook waits.
    pub fn is_empty(&self) -> bool
        ensures { IsTrue result ↔ (self.now ≡ []) }
    {
        self.hooks.is_empty()
    }
}
