//! What an AllocSet does when a chunk gets another size.
ghost use Rattle.std.specs.Prelude.{◌≡◌, ℕ, ◌+◌, ◌-◌, ◌^◌, ◌<◌, ◌≤◌, ◌↔◌, ◌⊎◌, ◌==◌, Ok, Err, Some, IfOk, IfErr, OnOk, OnErr, IsSome, IfSome, length, map, min, sum_by, unwrap_or, option_map, if◌then◌else◌};
ghost use Rattle.std.specs.Map.{values_of, lookup};
ghost use Rattle.addr_space.specs.Space.{Space, held, share, region_at, bytes_of, byte_at, HasBytes, resized as with_length, overwritten, raised_by, Changes, IsOverLimit, IsKnown, Asks};
ghost use Rattle.addr_space.specs.Footprint.{Agrees, Moves, Keeps};
ghost use Rattle.chunk_header.specs.Header.{block_bytes};
ghost use Rattle.alloc_set.specs.declared.chunk.Chunk.{Chunk};
ghost use Rattle.alloc_set.specs.Ledger.{SetPlace, Class, Own as OwnPlace, class_size, with_block, resize_class, resize_block, kept_size};
ghost use Rattle.alloc_set.specs.State.{chunk_at, place_at, footprint};
ghost use Rattle.chunk_header.specs.declared.TheConstants.{LAST_CLASS};

use crate::books::{Books, MOST};
use crate::chunk::Chunk;
use crate::chunks::put;
use crate::classes::class_size;
use addr_space::{Addr, Space};
use chunk_header::{CtxError, LARGEST, OWN_HEADERS, block_header, up8};
use indexmap::IndexMap;

// Notes another size of a block.
#[tactic(auto, using(crate::proofs::Listed::noted_sums))]
fn note_again(blocks: &mut IndexMap<u32, u32>, number: u32, size: u32)
    requires { IsSome (lookup (λ n. number == n) blocks.old.entries) }
    ensures at { (other : ℕ) → lookup (λ n. other == n) blocks.new.entries ≡ (if number == other then Some size else lookup (λ n. other == n) blocks.old.entries) }
    ensures sums { (f : ℕ → ℕ) → sum_by f (values_of blocks.new.entries) + unwrap_or (option_map f (lookup (λ n. number == n) blocks.old.entries)) 0 ≡ sum_by f (values_of blocks.old.entries) + f size }
{
    match blocks.insert(number, size) {
        Ok(_) => {}
        Err(_) => unreachable!(),
    }
}

// Makes a block so many bytes long, and writes its header anew.
fn resize_block(space: &mut Space, context: u32, region: u32, size: u32) -> Result<(), CtxError>
    requires region { IsSome (region_at space.old region) }
    requires least { OWN_HEADERS ≤ size }
    requires most { size ≤ 2 ^ 31 }
    ensures changes { OnOk result (Changes space.old space.new region (overwritten (with_length (region_at space.old region) size) 0 (map Some (block_bytes context size)))) }
    ensures length { OnOk result (length (bytes_of (region_at space.new region)) ≡ size) }
    ensures word { OnOk result (HasBytes space.new (record { region = region; offset = 0 }) (block_bytes context size)) }
    ensures stays { OnOk result ((k : ℕ) → 8 ≤ k → k < size → k < length (bytes_of (region_at space.old region)) → byte_at space.new region k ≡ byte_at space.old region k) }
    ensures held { OnOk result ((account : ℕ) → held space.new account + share account (region_at space.old region) ≡ held space.old account + share account (region_at space.new region)) }
    ensures taken { OnOk result (space.new.taken ≡ raised_by space.old.taken (region_at space.old region) size) }
    ensures no_space { (result ≡ Err CtxError.NoSpace) ↔ IsOverLimit space.old (region_at space.old region) size }
    ensures no_other { IfErr result (λ e. (e ≡ CtxError.NoSpace) ⊎ (e ≡ CtxError.Memory)) }
    ensures err { OnErr result (space.new ≡ space.old) }
{
    let start = Addr { region, offset: 0 };
    space.resize(start, size)?;
    space.write(start, &block_header(context, size));
    Ok(())
}

impl Books {
    ghost use Rattle.alloc_set.specs.Kept.{state_of, IsKept};
    ghost use Rattle.addr_space.specs.Live.{PutsAt, PutsLive};
    ghost use Rattle.alloc_set.specs.Calls.{Refits, resize_in};
    ghost use Rattle.alloc_set.specs.Resize.{Reallocates};

    // Gives a chunk of a class another size in place.
    #[inline]
    fn refit(&mut self, class: u8, at: Addr, size: u32)
        requires kept { IsKept self.old }
        requires class { class ≤ LAST_CLASS }
        requires size { size ≤ class_size class }
        requires live { (old : ℕ) × (chunk_at (state_of self.old) at ≡ Some (Chunk.Live class old)) }
        ensures kept { IsKept self.new }
        ensures ledger { (state_of self.new).ledger ≡ (state_of self.old).ledger }
        ensures place { PutsAt (place_at (state_of self.old)) (place_at (state_of self.new)) at (Some (Class class)) }
        ensures live { PutsLive (footprint (state_of self.old)) (footprint (state_of self.new)) at (Some size) }
        ensures moves { (sp : Space) → Agrees (footprint (state_of self.old)) sp → Moves (footprint (state_of self.old)) (footprint (state_of self.new)) sp sp }
    {
        put(&mut self.chunks, at, Chunk::Live { class, size });
    }

    // Takes another chunk for one of a class, with its first bytes, and frees the old one.
    #[tactic(auto, unfolding(crate::specs::Ledger::resize_class))]
    fn replace(
        &mut self,
        space: &mut Space,
        class: u8,
        at: Addr,
        keep: u32,
        size: u32,
    ) -> Result<Addr, CtxError>
        requires kept { IsKept self.old }
        requires agrees { Agrees (footprint (state_of self.old)) space.old }
        requires class { class ≤ LAST_CLASS }
        requires size { size ≤ LARGEST }
        requires over { class_size class < size }
        requires keep { keep ≤ size }
        requires live { (old : ℕ) × (chunk_at (state_of self.old) at ≡ Some (Chunk.Live class old)) × (keep ≤ old) }
        requires known { IsKnown space.old at keep }
        ensures ok { IfOk result (λ to. Reallocates (state_of self.old) self.new space.old space.new at to keep size (resize_class (state_of self.old).ledger (held space.old self.old.account) space.old.limit class size)) }
        ensures no_space { result ≡ Err CtxError.NoSpace → resize_class (state_of self.old).ledger (held space.old self.old.account) space.old.limit class size ≡ Err CtxError.NoSpace }
        ensures no_other { IfErr result (λ e. (e ≡ CtxError.NoSpace) ⊎ (e ≡ CtxError.Memory)) }
        ensures err_state { OnErr result (state_of self.new ≡ state_of self.old) }
        ensures err_kept { OnErr result (IsKept self.new) }
        ensures err_space { OnErr result (space.new ≡ space.old) }
    {
        let to = self.alloc(space, u64::from(size))?;
        space.copy(at, to, keep);
        self.shelve(space, class, at);
        Ok(to)
    }

    // Resizes a chunk of a class.
    #[tactic(auto, unfolding(crate::specs::Ledger::resize_class))]
    fn resize_class(
        &mut self,
        space: &mut Space,
        class: u8,
        at: Addr,
        keep: u32,
        size: u32,
    ) -> Result<Addr, CtxError>
        requires kept { IsKept self.old }
        requires agrees { Agrees (footprint (state_of self.old)) space.old }
        requires class { class ≤ LAST_CLASS }
        requires size { size ≤ LARGEST }
        requires keep { keep ≤ size }
        requires live { (old : ℕ) × (chunk_at (state_of self.old) at ≡ Some (Chunk.Live class old)) × (keep ≤ old) }
        requires known { IsKnown space.old at keep }
        ensures ok { IfOk result (λ to. Reallocates (state_of self.old) self.new space.old space.new at to keep size (resize_class (state_of self.old).ledger (held space.old self.old.account) space.old.limit class size)) }
        ensures no_space { result ≡ Err CtxError.NoSpace → resize_class (state_of self.old).ledger (held space.old self.old.account) space.old.limit class size ≡ Err CtxError.NoSpace }
        ensures no_other { IfErr result (λ e. (e ≡ CtxError.NoSpace) ⊎ (e ≡ CtxError.Memory)) }
        ensures err_state { OnErr result (state_of self.new ≡ state_of self.old) }
        ensures err_kept { OnErr result (IsKept self.new) }
        ensures err_space { OnErr result (space.new ≡ space.old) }
    {
        if size <= class_size(class) {
            self.refit(class, at, size);
            return Ok(at);
        }
        self.replace(space, class, at, keep, size)
    }

    // Gives a chunk's own block another room, and the chunk a size in it.
    fn stretch(
        &mut self,
        space: &mut Space,
        at: Addr,
        old: u32,
        room: u32,
        size: u32,
    ) -> Result<(), CtxError>
        requires kept { IsKept self.old }
        requires agrees { Agrees (footprint (state_of self.old)) space.old }
        requires live { (n : ℕ) × (chunk_at (state_of self.old) at ≡ Some (Chunk.Own n old)) }
        requires fits { size ≤ room }
        requires most { room + OWN_HEADERS ≤ 2 ^ 31 }
        ensures kept { OnOk result (IsKept self.new) }
        ensures ledger { OnOk result ((state_of self.new).ledger ≡ with_block (state_of self.old).ledger (old + OWN_HEADERS) (room + OWN_HEADERS)) }
        ensures place { OnOk result (PutsAt (place_at (state_of self.old)) (place_at (state_of self.new)) at (Some (OwnPlace (room + OWN_HEADERS)))) }
        ensures asked { OnOk result (Asks self.old.account (room - old) space.old space.new) }
        ensures live { OnOk result (PutsLive (footprint (state_of self.old)) (footprint (state_of self.new)) at (Some size)) }
        ensures moves { OnOk result (Moves (footprint (state_of self.old)) (footprint (state_of self.new)) space.old space.new) }
        ensures keeps { OnOk result (Keeps (footprint (state_of self.old)) (footprint (state_of self.new)) space.old space.new) }
        ensures within { OnOk result (held space.old self.old.account - (old + OWN_HEADERS) + (room + OWN_HEADERS) ≤ space.old.limit) }
        ensures no_space { result ≡ Err CtxError.NoSpace → space.old.limit < held space.old self.old.account - (old + OWN_HEADERS) + (room + OWN_HEADERS) }
        ensures no_other { IfErr result (λ e. (e ≡ CtxError.NoSpace) ⊎ (e ≡ CtxError.Memory)) }
        ensures err { OnErr result (self.new ≡ self.old) }
        ensures err_space { OnErr result (space.new ≡ space.old) }
    {
        if self.total > MOST {
            return Err(CtxError::Memory);
        }
        resize_block(space, self.context, at.region, room + OWN_HEADERS)?;
        note_again(&mut self.blocks, at.region, room + OWN_HEADERS);
        put(&mut self.chunks, at, Chunk::Own { size, room });
        self.total = self.total - u64::from(old) + u64::from(room);
        Ok(())
    }

    // Gives a chunk that has its block for itself another size in the room that it has.
    fn resettle(&mut self, at: Addr, room: u32, size: u32)
        requires kept { IsKept self.old }
        requires live { (old : ℕ) × (chunk_at (state_of self.old) at ≡ Some (Chunk.Own old room)) }
        requires fits { size ≤ room }
        ensures kept { IsKept self.new }
        ensures ledger { (state_of self.new).ledger ≡ (state_of self.old).ledger }
        ensures place { PutsAt (place_at (state_of self.old)) (place_at (state_of self.new)) at (Some (OwnPlace (room + OWN_HEADERS))) }
        ensures live { PutsLive (footprint (state_of self.old)) (footprint (state_of self.new)) at (Some size) }
        ensures moves { (sp : Space) → Agrees (footprint (state_of self.old)) sp → Moves (footprint (state_of self.old)) (footprint (state_of self.new)) sp sp }
    {
        put(&mut self.chunks, at, Chunk::Own { size, room });
    }

    // Resizes a chunk that has its block for itself.
    #[tactic(auto, using(crate::proofs::ClassSizes::class_sizes), unfolding(crate::specs::Ledger::resize_block))]
    fn resize_own(
        &mut self,
        space: &mut Space,
        at: Addr,
        old: u32,
        size: u32,
    ) -> Result<(), CtxError>
        requires kept { IsKept self.old }
        requires agrees { Agrees (footprint (state_of self.old)) space.old }
        requires size { size ≤ LARGEST }
        requires live { (n : ℕ) × (chunk_at (state_of self.old) at ≡ Some (Chunk.Own n old)) }
        ensures kept { OnOk result (IsKept self.new) }
        ensures refits { OnOk result (Refits (resize_block (state_of self.old).ledger (held space.old self.old.account) space.old.limit (old + OWN_HEADERS) (kept_size (state_of self.old).ledger size)) (state_of self.old) (state_of self.new) at at space.old space.new) }
        ensures live { OnOk result (PutsLive (footprint (state_of self.old)) (footprint (state_of self.new)) at (Some size)) }
        ensures moves { OnOk result (Moves (footprint (state_of self.old)) (footprint (state_of self.new)) space.old space.new) }
        ensures keeps { OnOk result (Keeps (footprint (state_of self.old)) (footprint (state_of self.new)) space.old space.new) }
        ensures no_space { result ≡ Err CtxError.NoSpace → resize_block (state_of self.old).ledger (held space.old self.old.account) space.old.limit (old + OWN_HEADERS) (kept_size (state_of self.old).ledger size) ≡ Err CtxError.NoSpace }
        ensures no_other { IfErr result (λ e. (e ≡ CtxError.NoSpace) ⊎ (e ≡ CtxError.Memory)) }
        ensures err { OnErr result (self.new ≡ self.old) }
        ensures err_space { OnErr result (space.new ≡ space.old) }
    {
        let room = up8(size.max(self.limit + 1));
        if room == old {
            self.resettle(at, room, size);
            return Ok(());
        }
        self.stretch(space, at, old, room, size)
    }

    // Resizes a live chunk, of which so many first bytes are known.
    #[tactic(auto, unfolding(crate::specs::Ledger::resize))]
    pub fn realloc(
        &mut self,
        space: &mut Space,
        at: Addr,
        keep: u64,
        size: u64,
    ) -> Result<Addr, CtxError>
        requires kept { IsKept self.old }
        requires agrees { Agrees (footprint (state_of self.old)) space.old }
        requires live { IsSome ((footprint (state_of self.old)).live at) }
        requires keep { IfSome ((footprint (state_of self.old)).live at) (λ n. keep ≤ n) }
        requires known { IsKnown space.old at keep }
        ensures ok { IfOk result (λ to. (place : SetPlace) × (place_at (state_of self.old) at ≡ Some place) × Reallocates (state_of self.old) self.new space.old space.new at to (min keep size) size (resize_in (state_of self.old) space.old place size)) }
        ensures too_big { (result ≡ Err CtxError.TooBig) ↔ (LARGEST < size) }
        ensures no_space { result ≡ Err CtxError.NoSpace → IfSome (place_at (state_of self.old) at) (λ place. resize_in (state_of self.old) space.old place size ≡ Err CtxError.NoSpace) }
        ensures no_other { IfErr result (λ e. (e ≡ CtxError.TooBig) ⊎ ((e ≡ CtxError.NoSpace) ⊎ (e ≡ CtxError.Memory))) }
        ensures err_state { OnErr result (state_of self.new ≡ state_of self.old) }
        ensures err_kept { OnErr result (IsKept self.new) }
        ensures err_space { OnErr result (space.new ≡ space.old) }
    {
        if size > LARGEST {
            return Err(CtxError::TooBig);
        }
        match self.class(space, at) {
            Some(class) => self.resize_class(space, class, at, keep.min(size) as u32, size as u32),
            None => {
                let room = self.room(at);
                self.resize_own(space, at, room, size as u32)?;
                Ok(at)
            }
        }
    }
}
