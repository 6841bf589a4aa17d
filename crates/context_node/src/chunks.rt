//! The chunks of a context.
ghost use Rattle.std.specs.Prelude.{◌≡◌, ◌≢◌, ℕ, List, None, Some, true, false, IfOk, IfErr, OnErr, IfSome};
ghost use Rattle.std.specs.HashMap.{get};
ghost use Rattle.forest.specs.Forest.{Empty, Node, at, has, changed, removed};
ghost use Rattle.context_node.specs.declared.entry.Entry.{Entry as Chunk};
ghost use Rattle.context_node.specs.Soundness.{same};
ghost use Rattle.context_node.specs.Ending.{left_names};
ghost use Rattle.context_node.specs.Chunking.{taken_entry};

use crate::all_chunks::AllChunks;
use crate::chunk_id::ChunkId;
use crate::ending::forget_all;
use crate::entry::Entry;
use addr_space::Addr;
use context_rules::TreeError;
use forest::{LinkedForest, NodeId};
use pgs_step::Name;
use std::alloc::Global;
use std::collections::HashMap;
use std::marker::Model;

/// The chunks of a context. Those with a name are found by where they are kept; the others stand in the clauses alone,
/// since nothing asks for them.
#[derive(Drop)]
pub struct Chunks {
    named: LinkedForest<Entry>,
    all: AllChunks,
}

impl Model for Chunks {
    ghost use Rattle.context_node.specs.KeptChunks.{KeptChunks, IsKept};

    ghost Value = { KeptChunks };

    ghost use Rattle.context_node.specs.Code.{chunks_code};

    ghost coded = { chunks_code };

    ghost view = { λ c. record {
      forest = c.all.entries;
      places = c.named.places;
    } };

    ghost invariant = { λ c. IsKept c.named.forest c.named.places c.all.entries };
}

impl Chunks {
    /// No chunk.
    #[inline(always)]
    pub fn new(alloc: Global) -> Chunks
        ensures forest { result.forest ≡ Empty }
        ensures places { result.places ≡ Empty }
    {
        Chunks {
            named: LinkedForest::new(alloc),
            all: AllChunks::none(),
        }
    }

    /// A chunk with a name.
    #[inline(always)]
    pub fn get(&self, id: NodeId) -> &Entry
        requires { at id.number self.now.places ≡ Some id.slot }
        ensures { at id.number self.now.forest ≡ Some result.now }
    {
        self.named.get(id)
    }

    /// Puts a chunk with a name, whose address isn't known yet, in front of the others. `Memory` comes where it can't be
    /// kept.
    #[inline(always)]
    pub fn put(&mut self, number: u64, word: Name, size: u64) -> Result<NodeId, TreeError>
        requires fresh { has number self.old.forest ≡ false }
        ensures number { IfOk result (λ id. id.number ≡ number) }
        ensures forest { IfOk result (λ id. self.new.forest ≡ Node number (taken_entry (Some word) (record { region = 0; offset = 0 }) size 0) Empty self.old.forest) }
        ensures places { IfOk result (λ id. self.new.places ≡ Node number id.slot Empty self.old.places) }
        ensures refused { IfErr result (λ e. e ≡ TreeError.Memory) }
        ensures err { OnErr result (self.new ≡ self.old) }
    {
        let nowhere = Addr {
            region: 0,
            offset: 0,
        };
        let entry = Entry {
            name: Some(word),
            at: nowhere,
            size,
            known: 0,
        };
        let all = self.all.with(number, &entry);
        let Ok(id) = self.named.insert_root(number, entry) else {
            return Err(TreeError::Memory);
        };
        self.all = all;
        Ok(id)
    }

    /// Says that a chunk without a name stands in front of the others.
    #[inline(always)]
    pub fn put_nameless(&mut self, number: u64, entry: &Entry)
        requires nameless { entry.now.name ≡ None }
        requires fresh { has number self.old.forest ≡ false }
        ensures forest { self.new.forest ≡ Node number entry.now Empty self.old.forest }
        ensures places { self.new.places ≡ self.old.places }
    {
        self.all = self.all.with(number, entry);
    }

    /// A chunk with a name has another address, another size, or other known bytes.
    #[inline(always)]
    pub fn set(&mut self, id: NodeId, to: Addr, size: u64, known: u64)
        requires { at id.number self.old.places ≡ Some id.slot }
        ensures forest { (e : Chunk) → at id.number self.old.forest ≡ Some e → self.new.forest ≡ changed id.number (λ _. record e { at = to; size = size; known = known }) self.old.forest }
        ensures places { self.new.places ≡ self.old.places }
    {
        let entry = self.named.get_mut(id);
        entry.at = to;
        entry.size = size;
        entry.known = known;
        let now = *entry;
        self.all = self.all.changed(id.number, &now);
    }

    /// Says what a chunk without a name is now.
    #[inline(always)]
    pub fn set_nameless(&mut self, number: u64, entry: &Entry)
        requires nameless { entry.now.name ≡ None }
        requires was { IfSome (at number self.old.forest) (λ e. e.name ≡ None) }
        ensures forest { self.new.forest ≡ changed number (λ _. entry.now) self.old.forest }
        ensures places { self.new.places ≡ self.old.places }
    {
        self.all = self.all.changed(number, entry);
    }

    /// Takes a chunk with a name out.
    #[inline(always)]
    pub fn remove(&mut self, id: NodeId)
        requires { at id.number self.old.places ≡ Some id.slot }
        ensures forest { self.new.forest ≡ removed id.number self.old.forest }
        ensures places { self.new.places ≡ removed id.number self.old.places }
        ensures stays { (other : ℕ) → other ≢ id.number → at other self.new.places ≡ at other self.old.places }
    {
        self.named.remove(id);
        self.all = self.all.without(id.number);
    }

    /// Takes all chunks out, and their names out of the map.
    #[inline(always)]
    pub fn forget(&mut self, names: &mut HashMap<Name, ChunkId>)
        ensures none { self.new.forest ≡ Empty }
        ensures nowhere { self.new.places ≡ Empty }
        ensures names { (w : List ℕ) → get same names.new w ≡ left_names self.old.forest (get same names.old) w }
    {
        forget_all(&mut self.named, names);
        self.all = AllChunks::none();
    }
}
