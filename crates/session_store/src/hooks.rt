//! Hooks wait on contexts of a session.
ghost use Rattle.std.specs.Prelude.{◌≡◌, ◌↔◌, [], Err, OnOk, OnErr};
ghost use Rattle.addr_space.specs.Space.{Space};
ghost use Rattle.context_tree.specs.State.{IsLive};
ghost use Rattle.session_rules.specs.State.{first_of};
ghost use Rattle.session_rules.specs.Acts.{where_there};
ghost use Rattle.session_rules.specs.Taking.{hook_waits};
ghost use Rattle.session_owners.specs.Commons.{CommonState};
ghost use Rattle.session_store.specs.Calls.{Acted, ContextsAlone, Keeps, StandsIn};

use crate::store::Store;
use pgs_step::{CtxId, Emit, What};
use reset_callbacks::{ResetHook, Shelf};
use thiserror::Error;

/// Why no hook waits on a context.
#[derive(Clone, Copy, Debug, PartialEq, Eq, Error)]
pub enum RegisterError {
    /// The shelf has no fresh hook.
    #[error("no callback is free")]
    NoHook,
    /// Memory was refused.
    #[error("no memory")]
    Memory,
}

impl<H: ResetHook> Store<H> {
    /// The fresh hook of the least word waits for the end of what a context holds: `MemoryContextRegisterResetCallback`.
    ///
    /// `NoHook` comes exactly where the shelf has no fresh hook. Where memory is refused the hook is back on the shelf.
    pub fn register<E: Emit>(
        &mut self,
        shelf: &mut Shelf<H>,
        at: CtxId,
        out: &mut E,
    ) -> Result<(), RegisterError>
        requires stands { (s : Space) × ((c : CommonState) × StandsIn self.old s shelf.old c) }
        requires live { IsLive self.old.tree at }
        ensures acted { OnOk result ((s : Space) (c : CommonState) → Acted (λ scene. where_there (first_of scene.around.shelf.fresh) (hook_waits at.number) scene) self.old self.new s s shelf.old shelf.new c c (λ events. E.emits out.old events out.new)) }
        ensures alone { (s : Space) (c : CommonState) → Keeps self.old s → ContextsAlone self.old self.new s s c c }
        ensures no_hook { (result ≡ Err RegisterError.NoHook) ↔ (shelf.old.fresh ≡ []) }
        ensures err { OnErr result (self.new ≡ self.old) }
        ensures err_shelf { OnErr result (shelf.new ≡ shelf.old) }
        ensures silent { OnErr result (out.new ≡ out.old) }
    {
        let Some(hook) = shelf.take() else {
            return Err(RegisterError::NoHook);
        };
        let word = hook.word();
        if let Err(hook) = self.tree.register(at, hook) {
            shelf.put_back(hook);
            return Err(RegisterError::Memory);
        }
        out.emit(What::Hook {
            word,
            context: at.number,
        });
        Ok(())
    }
}
