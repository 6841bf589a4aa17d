//! The making of a context.
ghost use Rattle.std.specs.Prelude.{◌≡◌, ◌⊎◌, ℕ, ◌-◌, ◌<◌, false, Some, IfOk, IfErr, IfSome, OnOk, OnErr};
ghost use Rattle.std.specs.Option.{option_map};
ghost use Rattle.addr_space.specs.Space.{accounts, held, Asks};
ghost use Rattle.forest.specs.Forest.{at, has, size};
ghost use Rattle.forest.specs.Forested.{IsPlaced};
ghost use Rattle.any_ctx.specs.Kinds.{first_size, IsSlabSize};
ghost use Rattle.context_node.specs.Soundness.{IsSoundContext};
ghost use Rattle.context_node.specs.Kept.{Kept};
ghost use Rattle.context_tree.specs.State.{no_contexts, Agrees as Agreeing, Moves as AllMoves};
ghost use Rattle.context_tree.specs.Making.{bare, Grew, AsksInVain, CameBack, room_refusal, entered_at};

use addr_space::Space;
use any_ctx::{AnyCtx, SetBoxes};
use context_node::{NewContext, Node, give_back, told};
use context_rules::{MOST_CONTEXTS, TreeError};
use forest::{LinkedForest, NodeId};
use reset_callbacks::ResetHook;
use std::alloc::{AllocFailed, Global};

/// Puts a context in, the first child of another one, or as the topmost one.
fn insert<H: ResetHook>(
    nodes: &mut LinkedForest<Node<H>>,
    parent: Option<NodeId>,
    number: u64,
    node: Node<H>,
) -> Result<NodeId, AllocFailed<Node<H>>>
    requires parent { IfSome parent (IsPlaced nodes.old) }
    requires fresh { has number nodes.old.forest ≡ false }
    ensures number { IfOk result (λ id. id.number ≡ number) }
    ensures slot { IfOk result (λ id. id.slot ≡ nodes.old.vacant) }
    ensures forest { OnOk result (nodes.new.forest ≡ entered_at (option_map (λ p. p.number) parent) number node nodes.old.forest) }
    ensures places { IfOk result (λ id. nodes.new.places ≡ entered_at (option_map (λ p. p.number) parent) number id.slot nodes.old.places) }
    ensures err { OnErr result (nodes.new ≡ nodes.old) }
    ensures handed_back { IfErr result (λ failed. failed.value ≡ node) }
{
    match parent {
        Some(parent) => nodes.insert_child(parent, number, node),
        None => nodes.insert_root(number, node),
    }
}

/// Makes a context, the first child of another one, or the topmost one. `TooMany` comes where 65,536 contexts live, and
/// then `Ctx(NoSpace)` where the first block doesn't fit; `Memory` may come in place of either.
pub fn grow<H: ResetHook>(
    nodes: &mut LinkedForest<Node<H>>,
    space: &mut Space,
    alloc: Global,
    boxes: &mut SetBoxes,
    account: u8,
    parent: Option<NodeId>,
    new: &NewContext,
) -> Result<NodeId, TreeError>
    requires account { account < accounts space.old }
    requires slab { IsSlabSize new.now.kind }
    requires parent { IfSome parent (IsPlaced nodes.old) }
    requires fresh { has new.now.number nodes.old.forest ≡ false }
    ensures grew { IfOk result (λ id. Grew nodes.old nodes.new new.now (option_map (λ p. p.number) parent) id account space.old space.new) }
    ensures refused { IfErr result (λ e. (e ≡ TreeError.Memory) ⊎ (room_refusal (size nodes.old.forest) (space.old.limit - held space.old account) new.now.kind ≡ Some e)) }
    ensures err { OnErr result (nodes.new ≡ nodes.old) }
    ensures err_space { OnErr result (CameBack account space.old space.new) }
    ensures err_asked { IfErr result (λ e. AsksInVain e account (first_size new.now.kind) space.old space.new) }
{
    if nodes.len() >= MOST_CONTEXTS {
        return Err(TreeError::TooMany);
    }
    let Some(slot) = nodes.next_slot() else {
        return Err(TreeError::Memory);
    };
    let memory = match AnyCtx::create(alloc, boxes, space, account, slot, new.kind) {
        Ok(memory) => memory,
        Err(error) => return Err(told(error)),
    };
    memory.counted();
    match insert(nodes, parent, new.number, Node::over(alloc, memory, new)) {
        Ok(id) => Ok(id),
        Err(failed) => {
            give_back(failed.value, space, boxes);
            Err(TreeError::Memory)
        }
    }
}

/// Gives back the blocks of all contexts, which were made for one account, the children of each before it.
pub fn give_all_back<H: ResetHook>(
    nodes: &mut LinkedForest<Node<H>>,
    space: &mut Space,
    boxes: &mut SetBoxes,
)
    requires agrees { (account : ℕ) × Agreeing (bare account nodes.old.forest) space.old }
    requires each { (n : ℕ) (k : Kept) → at n nodes.old.forest ≡ Some k → IsSoundContext k }
    ensures moves { (account : ℕ) → Agreeing (bare account nodes.old.forest) space.old → AllMoves (bare account nodes.old.forest) (no_contexts account) space.old space.new }
    ensures asked { (account : ℕ) → Asks account 0 space.old space.new }
{
    while let Some(root) = nodes.first() {
        let leaf = nodes.first_leaf(root);
        let node = nodes.remove(leaf);
        give_back(node, space, boxes);
    }
}
