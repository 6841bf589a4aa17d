//! The names of chunks.
ghost use Rattle.std.specs.Prelude.{◌≡◌, ◌⊎◌, ◌<◌, ℕ, List, None, Some, IsSome, IfErr, OnOk};
ghost use Rattle.std.specs.HashMap.{get, spare};
ghost use Rattle.context_node.specs.Soundness.{same};
ghost use Rattle.context_node.specs.Chunking.{entered};

use crate::chunk_id::ChunkId;
use context_rules::TreeError;
use pgs_step::Name;
use std::collections::HashMap;

/// Makes room for one more name, if the chunk has one. `Taken` comes where it stands.
#[inline(always)]
pub fn room_for_chunk(
    names: &mut HashMap<Name, ChunkId>,
    name: &Option<Name>,
) -> Result<(), TreeError>
    ensures names { (w : List ℕ) → get same names.new w ≡ get same names.old w }
    ensures room { OnOk result (IsSome name.now → 0 < spare names.new) }
    ensures unnamed { OnOk result ((w : List ℕ) → name.now ≡ Some w → get same names.old w ≡ None) }
    ensures refused { IfErr result (λ e. (e ≡ TreeError.Memory) ⊎ ((e ≡ TreeError.Taken) × ((w : List ℕ) × (name.now ≡ Some w) × IsSome (get same names.old w)))) }
{
    let Some(word) = name else {
        return Ok(());
    };
    if names.contains_key(word) {
        return Err(TreeError::Taken);
    }
    match names.reserve(1) {
        Ok(()) => Ok(()),
        Err(_) => Err(TreeError::Memory),
    }
}

/// Writes where the chunk of a name is, if it has one, in room that was made.
#[inline(always)]
pub fn enter_chunk(names: &mut HashMap<Name, ChunkId>, name: Option<Name>, id: ChunkId)
    requires { IsSome name → 0 < spare names.old }
    ensures { (w : List ℕ) → get same names.new w ≡ entered name id (get same names.old) w }
{
    if let Some(name) = name {
        let _ = names.insert(name, id);
    }
}
