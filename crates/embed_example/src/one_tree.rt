//! A tree of contexts in a space: a context with a chunk and a hook is deleted, and then all of the tree goes.
ghost use Rattle.std.specs.Prelude.{◌≡◌, ℕ, ◌<◌, ◌++◌, List, [], ◌∷◌, OnOk};
ghost use Rattle.addr_space.specs.Space.{accounts, held};
ghost use Rattle.pgs_step.specs.EventList.{KeepsMore};
ghost use Rattle.reset_callbacks.specs.Hook.{Hook, AreDistinct, ran};
ghost use Rattle.reset_callbacks.specs.ShelfState.{held as on_shelf};
ghost use Rattle.context_rules.specs.Opening.{opening};
ghost use Rattle.context_tree.specs.State.{stands_for, Agrees, Moves, HooksFit};
ghost use Rattle.embed_example.specs.Level.{level_said, tree_said};

use addr_space::Space;
use any_ctx::CtxKind;
use context_rules::TreeError;
use context_tree::{ContextTree, keeping, own_name};
use pgs_step::EventList;
use reset_callbacks::{CountedHook, Shelf};
use std::alloc::Global;
#[cfg(test)]
use std::test::Fail;

// Makes a context below the topmost one, takes a chunk in it, lets a hook wait on it, and deletes it.
fn level(
    tree: &mut ContextTree<CountedHook>,
    space: &mut Space,
    shelf: &mut Shelf<CountedHook>,
    out: &mut EventList,
) -> Result<(), TreeError>
    requires agrees { Agrees tree.old space.old }
    requires new { stands_for tree.old space.old ≡ opening }
    requires next { tree.old.next ≡ 6 }
    requires current { tree.old.current.number ≡ 1 }
    requires words { AreDistinct (on_shelf shelf.old) }
    ensures moves { Moves tree.old tree.new space.old space.new }
    ensures fits { HooksFit (stands_for tree.new space.new) shelf.new }
    ensures contexts { OnOk result (stands_for tree.new space.new ≡ opening) }
    ensures ran { OnOk result ((h : Hook) (rest : List Hook) → shelf.old.fresh ≡ h ∷ rest → shelf.new ≡ record shelf.old { fresh = rest; spent = shelf.old.spent ++ ran h ∷ [] }) }
    ensures said { OnOk result ((h : Hook) (rest : List Hook) → shelf.old.fresh ≡ h ∷ rest → KeepsMore out.old (level_said h.word) out.new) }
{
    keeping();
    let top = tree.top();
    let level = tree.create(space, top, own_name(b"Level"), CtxKind::Small, false, out)?;
    tree.alloc(space, level, None, 100)?;
    let Some(hook) = shelf.take() else {
        return Err(TreeError::Memory);
    };
    if let Err(back) = tree.register(level, hook) {
        shelf.put_back(back);
        return Err(TreeError::Memory);
    }
    tree.delete(space, shelf, level, out)
}

/// Makes a tree in the space's first account and in it a context, on which the shelf's first hook waits, deletes that
/// context, and ends the tree.
///
/// The tree gives all that it has to the space in any case, so each account holds what it held.
pub fn tree_scene(
    alloc: Global,
    space: &mut Space,
    shelf: &mut Shelf<CountedHook>,
    out: &mut EventList,
) -> Result<(), TreeError>
    requires account { 0 < accounts space.old }
    requires words { AreDistinct (on_shelf shelf.old) }
    ensures held { (account : ℕ) → held space.new account ≡ held space.old account }
    ensures accounts { accounts space.new ≡ accounts space.old }
    ensures ran { OnOk result ((h : Hook) (rest : List Hook) → shelf.old.fresh ≡ h ∷ rest → shelf.new ≡ record shelf.old { fresh = rest; spent = shelf.old.spent ++ ran h ∷ [] }) }
    ensures said { OnOk result ((h : Hook) (rest : List Hook) → shelf.old.fresh ≡ h ∷ rest → KeepsMore out.old (tree_said h.word) out.new) }
{
    keeping();
    let mut tree = ContextTree::new(alloc, 0, space)?;
    let done = level(&mut tree, space, shelf, out);
    tree.end(space, shelf, out);
    done
}

#[test]
fn a_hook_runs(rt: HostRuntime) -> Result<(), Fail> {
    let mut space = Space::new(rt.alloc(), 1, 1_000_000)?;
    let hooks = vec![in rt.alloc(); CountedHook::new(7)]?;
    let mut shelf = Shelf::new(rt.alloc(), hooks)?;
    let mut out = EventList::new(rt.alloc(), 8)?;
    tree_scene(rt.alloc(), &mut space, &mut shelf, &mut out)?;
    assert_eq!(rt; shelf.spent(), 1);
    assert_eq!(rt; out.events().len(), 8);
    assert_eq!(rt; space.held(0), 0);
    Ok(())
}
