//! The making of a context.
ghost use Rattle.std.specs.Prelude.{◌≡◌, ◌⊎◌, ℕ, ◌<◌, List, false, true, None, IsSome, IfErr, OnOk};
ghost use Rattle.std.specs.HashMap.{get, spare};
ghost use Rattle.addr_space.specs.Space.{Asks};
ghost use Rattle.addr_space.specs.Footprint.{Agrees, Moves, nothing};
ghost use Rattle.any_ctx.specs.Contexts.{footprint};
ghost use Rattle.context_rules.specs.Names as rules;
ghost use Rattle.context_node.specs.Soundness.{same};
ghost use Rattle.pgs_step.specs.Name.{IsName};
ghost use Rattle.context_node.specs.Making.{entered_context};

use crate::node::Node;
use addr_space::Space;
use any_ctx::{CtxKind, SetBoxes};
use context_rules::{TreeError, is_reserved};
use pgs_step::{CtxId, Name};
use reset_callbacks::ResetHook;
use std::collections::HashMap;

/// A context to be made.
#[derive(Drop)]
pub struct NewContext {
    pub number: u64,
    pub name: Name,
    pub kind: CtxKind,
    /// Whether it is one of the session's own.
    pub protected: bool,
}

/// Makes room for the name of one more context, unless that is protected. `Taken` comes where the name is kept for
/// sessions or stands.
pub fn room_for_name(
    names: &mut HashMap<Name, CtxId>,
    name: &Name,
    protected: bool,
) -> Result<(), TreeError>
    ensures names { (w : List ℕ) → get same names.new w ≡ get same names.old w }
    ensures room { OnOk result (protected ≡ false → 0 < spare names.new) }
    ensures free { OnOk result (protected ≡ false → (rules.is_reserved name.now ≡ false) × (get same names.old name.now ≡ None)) }
    ensures refused { IfErr result (λ e. (e ≡ TreeError.Memory) ⊎ ((e ≡ TreeError.Taken) × (protected ≡ false) × ((rules.is_reserved name.now ≡ true) ⊎ IsSome (get same names.old name.now)))) }
{
    if protected {
        return Ok(());
    }
    if is_reserved(name) || names.contains_key(name) {
        return Err(TreeError::Taken);
    }
    match names.reserve(1) {
        Ok(()) => Ok(()),
        Err(_) => Err(TreeError::Memory),
    }
}

/// Writes where the context of a name is, unless it is protected, in room that was made.
pub fn enter_context(names: &mut HashMap<Name, CtxId>, name: Name, protected: bool, id: CtxId)
    requires { protected ≡ false → 0 < spare names.old }
    ensures { (w : List ℕ) → get same names.new w ≡ entered_context protected name id (get same names.old) w }
{
    if !protected {
        let _ = names.insert(name, id);
    }
}

/// Gives the blocks of a context back, of which nothing was used. It takes no memory.
pub fn give_back<H: ResetHook>(node: Node<H>, space: &mut Space, boxes: &mut SetBoxes)
    requires { Agrees (footprint node.memory) space.old }
    ensures moves { Moves (footprint node.memory) (nothing (footprint node.memory).account (footprint node.memory).context) space.old space.new }
    ensures asked { Asks (footprint node.memory).account 0 space.old space.new }
{
    let Node { memory, .. } = node;
    memory.discard(space, boxes);
}

/// The name of one of a session's own contexts.
pub fn own_name(word: &[u8]) -> Name
    requires { IsName word.now }
    ensures { result ≡ word.now }
{
    match Name::new(word) {
        Some(name) => name,
        None => unreachable!(),
    }
}
