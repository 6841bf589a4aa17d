//! What happens when a context is reset or goes.
ghost use Rattle.std.specs.Prelude.{◌≡◌, ℕ, List, true, false};
ghost use Rattle.std.specs.HashMap.{get};
ghost use Rattle.forest.specs.Forest.{Empty, Once, has};
ghost use Rattle.context_node.specs.Soundness.{AreFlat, same};
ghost use Rattle.context_node.specs.Ending.{left_names, without_context};

use crate::chunk_id::ChunkId;
use crate::entry::Entry;
use forest::LinkedForest;
use pgs_step::{CtxId, Name};
use std::collections::HashMap;

/// Takes all chunks of a context out, and their names out of the map.
#[inline(always)]
pub fn forget_all(chunks: &mut LinkedForest<Entry>, names: &mut HashMap<Name, ChunkId>)
    requires flat { AreFlat chunks.old.forest }
    requires once { Once chunks.old.forest }
    requires numbers { (c : ℕ) → has c chunks.old.places ≡ true → has c chunks.old.forest ≡ true }
    ensures none { chunks.new.forest ≡ Empty }
    ensures nowhere { chunks.new.places ≡ Empty }
    ensures names { (w : List ℕ) → get same names.new w ≡ left_names chunks.old.forest (get same names.old) w }
{
    while let Some(id) = chunks.first() {
        let entry = chunks.remove(id);
        if let Some(name) = entry.name {
            let _ = names.remove(&name);
        }
    }
}

/// Takes the name of a context that goes out of the map, unless the context is protected.
#[inline(always)]
pub fn forget_context(names: &mut HashMap<Name, CtxId>, protected: bool, name: &Name)
    ensures { (w : List ℕ) → get same names.new w ≡ without_context protected name.now (get same names.old) w }
{
    if !protected {
        strike(names, name);
    }
}

/// Takes a name out of the map.
#[inline(never)]
fn strike(names: &mut HashMap<Name, CtxId>, name: &Name)
    ensures { (w : List ℕ) → get same names.new w ≡ without_context false name.now (get same names.old) w }
{
    let _ = names.remove(name);
}
