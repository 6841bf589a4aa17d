//! The commands on contexts.
ghost use Rattle.std.specs.Prelude.{◌≡◌};
ghost use Rattle.any_ctx.specs.Kinds.{IsSlabSize};
ghost use Rattle.pgs_command.specs.Ranges.{IsContextInRange};
ghost use Rattle.session_rules.specs.Works.{kind_of, context_row, elements};
ghost use Rattle.session_commands.specs.Answers.{refusal_of};
ghost use Rattle.session_commands.specs.Performed.{now, HasRoom, IsBetweenSteps, Performed, most_calls};

use crate::errors::{call_error, register_error, tree_error};
use crate::shared::Shared;
use any_ctx::CtxKind;
use owner_kinds::ExtKind;
use pgs_command::{ContextCommand, ContextKind};
use pgs_step::{Emit, Error, Name};
use reset_callbacks::ResetHook;
use session_store::Store;

/// What a command on contexts does in a transaction that isn't aborted.
pub fn work_on_contexts<H: ResetHook, K: ExtKind, E: Emit>(
    store: &mut Store<H>,
    command: &ContextCommand,
    shared: &mut Shared<'_, H, K>,
    out: &mut E,
) -> Result<(), Error>
    requires between { IsBetweenSteps (now store.old shared.old) }
    requires range { IsContextInRange command.now }
    requires room { HasRoom most_calls (now store.old shared.old) }
    ensures performed { Performed most_calls (elements (context_row command.now)) (now store.old shared.old) (now store.new shared.new) (λ events. E.emits out.old events out.new) (refusal_of result) }
{
    match command {
        ContextCommand::Create { name, parent, kind } => {
            make_context(store, *name, parent, *kind, shared, out)
        }
        ContextCommand::Switch(name) => switch(store, name, shared, out),
        ContextCommand::OnReset(name) => register(store, name, shared, out),
        ContextCommand::Reset(name) => reset(store, name, shared, out),
        ContextCommand::ResetOnly(name) => reset_only(store, name, shared, out),
        ContextCommand::Delete(name) => delete(store, name, shared, out),
        ContextCommand::DeleteChildren(name) => delete_children(store, name, shared, out),
        ContextCommand::Reparent { name, parent } => reparent(store, name, parent, shared, out),
    }
}

/// `context`: makes a context.
fn make_context<H: ResetHook, K: ExtKind, E: Emit>(
    store: &mut Store<H>,
    name: Name,
    parent: &Name,
    kind: ContextKind,
    shared: &mut Shared<'_, H, K>,
    out: &mut E,
) -> Result<(), Error>
    requires between { IsBetweenSteps (now store.old shared.old) }
    requires slab { IsSlabSize (kind_of kind) }
    requires room { HasRoom most_calls (now store.old shared.old) }
    ensures performed { Performed most_calls (elements (context_row (ContextCommand.Create name parent.now kind))) (now store.old shared.old) (now store.new shared.new) (λ events. E.emits out.old events out.new) (refusal_of result) }
{
    if store.is_taken(&name) {
        return Err(Error::NameTaken);
    }
    let Some(parent) = store.named(parent) else {
        return Err(Error::NoSuchName);
    };
    shared.calls.next()?;
    let kind = kind_of(kind);
    if let Err(refusal) = store.create(shared.space, parent, name, kind, out) {
        return Err(call_error(refusal, shared.calls.count));
    }
    Ok(())
}

/// `switch`: makes a context the current one.
fn switch<H: ResetHook, K: ExtKind, E: Emit>(
    store: &mut Store<H>,
    name: &Name,
    shared: &mut Shared<'_, H, K>,
    out: &mut E,
) -> Result<(), Error>
    requires between { IsBetweenSteps (now store.old shared.old) }
    ensures performed { Performed most_calls (elements (context_row (ContextCommand.Switch name.now))) (now store.old shared.old) (now store.new shared.new) (λ events. E.emits out.old events out.new) (refusal_of result) }
{
    let Some(at) = store.named(name) else {
        return Err(Error::NoSuchName);
    };
    store.switch(at);
    Ok(())
}

/// `onreset`: a hook waits for the end of what a context holds.
fn register<H: ResetHook, K: ExtKind, E: Emit>(
    store: &mut Store<H>,
    name: &Name,
    shared: &mut Shared<'_, H, K>,
    out: &mut E,
) -> Result<(), Error>
    requires between { IsBetweenSteps (now store.old shared.old) }
    requires room { HasRoom most_calls (now store.old shared.old) }
    ensures performed { Performed most_calls (elements (context_row (ContextCommand.OnReset name.now))) (now store.old shared.old) (now store.new shared.new) (λ events. E.emits out.old events out.new) (refusal_of result) }
{
    let Some(at) = store.named(name) else {
        return Err(Error::NoSuchName);
    };
    shared.calls.next()?;
    if let Err(refusal) = store.register(shared.shelf, at, out) {
        return Err(register_error(refusal, shared.calls.count));
    }
    Ok(())
}

/// `reset`: resets a context, once all below it is gone.
fn reset<H: ResetHook, K: ExtKind, E: Emit>(
    store: &mut Store<H>,
    name: &Name,
    shared: &mut Shared<'_, H, K>,
    out: &mut E,
) -> Result<(), Error>
    requires between { IsBetweenSteps (now store.old shared.old) }
    ensures performed { Performed most_calls (elements (context_row (ContextCommand.Reset name.now))) (now store.old shared.old) (now store.new shared.new) (λ events. E.emits out.old events out.new) (refusal_of result) }
{
    let Some(at) = store.named(name) else {
        return Err(Error::NoSuchName);
    };
    store
        .reset(shared.space, shared.shelf, at, out)
        .map_err(tree_error)
}

/// `resetonly`: resets a context and nothing below it.
fn reset_only<H: ResetHook, K: ExtKind, E: Emit>(
    store: &mut Store<H>,
    name: &Name,
    shared: &mut Shared<'_, H, K>,
    out: &mut E,
) -> Result<(), Error>
    requires between { IsBetweenSteps (now store.old shared.old) }
    ensures performed { Performed most_calls (elements (context_row (ContextCommand.ResetOnly name.now))) (now store.old shared.old) (now store.new shared.new) (λ events. E.emits out.old events out.new) (refusal_of result) }
{
    let Some(at) = store.named(name) else {
        return Err(Error::NoSuchName);
    };
    store
        .reset_only(shared.space, shared.shelf, at, out)
        .map_err(tree_error)
}

/// `delete`: deletes a context with all below it.
fn delete<H: ResetHook, K: ExtKind, E: Emit>(
    store: &mut Store<H>,
    name: &Name,
    shared: &mut Shared<'_, H, K>,
    out: &mut E,
) -> Result<(), Error>
    requires between { IsBetweenSteps (now store.old shared.old) }
    ensures performed { Performed most_calls (elements (context_row (ContextCommand.Delete name.now))) (now store.old shared.old) (now store.new shared.new) (λ events. E.emits out.old events out.new) (refusal_of result) }
{
    let Some(at) = store.named(name) else {
        return Err(Error::NoSuchName);
    };
    store
        .delete(shared.space, shared.shelf, at, out)
        .map_err(tree_error)
}

/// `deletechildren`: deletes all below a context.
fn delete_children<H: ResetHook, K: ExtKind, E: Emit>(
    store: &mut Store<H>,
    name: &Name,
    shared: &mut Shared<'_, H, K>,
    out: &mut E,
) -> Result<(), Error>
    requires between { IsBetweenSteps (now store.old shared.old) }
    ensures performed { Performed most_calls (elements (context_row (ContextCommand.DeleteChildren name.now))) (now store.old shared.old) (now store.new shared.new) (λ events. E.emits out.old events out.new) (refusal_of result) }
{
    let Some(at) = store.named(name) else {
        return Err(Error::NoSuchName);
    };
    store
        .delete_children(shared.space, shared.shelf, at, out)
        .map_err(tree_error)
}

/// `reparent`: gives a context another parent.
fn reparent<H: ResetHook, K: ExtKind, E: Emit>(
    store: &mut Store<H>,
    name: &Name,
    parent: &Name,
    shared: &mut Shared<'_, H, K>,
    out: &mut E,
) -> Result<(), Error>
    requires between { IsBetweenSteps (now store.old shared.old) }
    ensures performed { Performed most_calls (elements (context_row (ContextCommand.Reparent name.now parent.now))) (now store.old shared.old) (now store.new shared.new) (λ events. E.emits out.old events out.new) (refusal_of result) }
{
    let Some(at) = store.named(name) else {
        return Err(Error::NoSuchName);
    };
    let Some(parent) = store.named(parent) else {
        return Err(Error::NoSuchName);
    };
    store.reparent(at, parent, out).map_err(tree_error)
}

/// A script's kind of context.
fn kind_of(kind: ContextKind) -> CtxKind
    ensures { result ≡ kind_of kind }
{
    match kind {
        ContextKind::Default => CtxKind::Default,
        ContextKind::Small => CtxKind::Small,
        ContextKind::Slab(size) => CtxKind::Slab(size),
        ContextKind::Generation => CtxKind::Generation,
        ContextKind::Bump => CtxKind::Bump,
    }
}
