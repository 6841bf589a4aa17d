//! The commands on chunks.
ghost use Rattle.std.specs.Prelude.{◌≡◌, ◌≤◌, IfOk};
ghost use Rattle.context_rules.specs.Chunks.{shown};
ghost use Rattle.context_rules.specs.Refusals.{bytes_refusal};
ghost use Rattle.context_tree.specs.State.{error_of};
ghost use Rattle.pgs_command.specs.Ranges.{IsChunkInRange};
ghost use Rattle.session_rules.specs.Works.{chunk_row, elements};
ghost use Rattle.session_store.specs.State.{contexts_in};
ghost use Rattle.session_store.specs.Calls.{Keeps};
ghost use Rattle.session_commands.specs.Answers.{refusal_of};
ghost use Rattle.session_commands.specs.Performed.{now, HasRoom, IsBetweenSteps, Performed, most_calls};

use crate::errors::{call_error, tree_error};
use crate::shared::Shared;
use addr_space::Space;
use context_rules::TreeError;
use owner_kinds::ExtKind;
use pgs_command::{ChunkCommand, HexBytes};
use pgs_step::{ChunkBytes, Emit, Error, Name, What};
use reset_callbacks::ResetHook;
use session_store::Store;

/// What a command on chunks does in a transaction that isn't aborted.
pub fn work_on_chunks<H: ResetHook, K: ExtKind, E: Emit>(
    store: &mut Store<H>,
    command: &ChunkCommand,
    shared: &mut Shared<'_, H, K>,
    out: &mut E,
) -> Result<(), Error>
    requires between { IsBetweenSteps (now store.old shared.old) }
    requires range { IsChunkInRange command.now }
    requires room { HasRoom most_calls (now store.old shared.old) }
    ensures performed { Performed most_calls (elements (chunk_row command.now)) (now store.old shared.old) (now store.new shared.new) (λ events. E.emits out.old events out.new) (refusal_of result) }
{
    match command {
        ChunkCommand::Alloc { chunk, size } => alloc(store, *chunk, *size, shared, out),
        ChunkCommand::AllocZeroed { chunk, size } => {
            alloc_zeroed(store, *chunk, *size, shared, out)
        }
        ChunkCommand::Realloc { chunk, size } => realloc(store, chunk, *size, shared, out),
        ChunkCommand::Free(chunk) => free(store, chunk, shared, out),
        ChunkCommand::Put { chunk, at, bytes } => put(store, chunk, *at, bytes, shared, out),
        ChunkCommand::Show { chunk, at, length } => show(store, *chunk, *at, *length, shared, out),
    }
}

/// `alloc`: takes a chunk in the current context.
fn alloc<H: ResetHook, K: ExtKind, E: Emit>(
    store: &mut Store<H>,
    chunk: Name,
    size: u32,
    shared: &mut Shared<'_, H, K>,
    out: &mut E,
) -> Result<(), Error>
    requires between { IsBetweenSteps (now store.old shared.old) }
    requires room { HasRoom most_calls (now store.old shared.old) }
    ensures performed { Performed most_calls (elements (chunk_row (ChunkCommand.Alloc chunk size))) (now store.old shared.old) (now store.new shared.new) (λ events. E.emits out.old events out.new) (refusal_of result) }
{
    if store.is_chunk(shared.space, &chunk) {
        return Err(Error::NameTaken);
    }
    shared.calls.next()?;
    if let Err(refusal) = store.alloc(shared.space, Some(chunk), size as u64) {
        return Err(call_error(refusal, shared.calls.count));
    }
    Ok(())
}

/// `alloc0`: takes a chunk whose bytes are 0.
fn alloc_zeroed<H: ResetHook, K: ExtKind, E: Emit>(
    store: &mut Store<H>,
    chunk: Name,
    size: u32,
    shared: &mut Shared<'_, H, K>,
    out: &mut E,
) -> Result<(), Error>
    requires between { IsBetweenSteps (now store.old shared.old) }
    requires room { HasRoom most_calls (now store.old shared.old) }
    ensures performed { Performed most_calls (elements (chunk_row (ChunkCommand.AllocZeroed chunk size))) (now store.old shared.old) (now store.new shared.new) (λ events. E.emits out.old events out.new) (refusal_of result) }
{
    if store.is_chunk(shared.space, &chunk) {
        return Err(Error::NameTaken);
    }
    shared.calls.next()?;
    if let Err(refusal) = store.alloc_zeroed(shared.space, Some(chunk), size as u64) {
        return Err(call_error(refusal, shared.calls.count));
    }
    Ok(())
}

/// `realloc`: gives a chunk another size.
fn realloc<H: ResetHook, K: ExtKind, E: Emit>(
    store: &mut Store<H>,
    chunk: &Name,
    size: u32,
    shared: &mut Shared<'_, H, K>,
    out: &mut E,
) -> Result<(), Error>
    requires between { IsBetweenSteps (now store.old shared.old) }
    requires room { HasRoom most_calls (now store.old shared.old) }
    ensures performed { Performed most_calls (elements (chunk_row (ChunkCommand.Realloc chunk.now size))) (now store.old shared.old) (now store.new shared.new) (λ events. E.emits out.old events out.new) (refusal_of result) }
{
    if !store.is_chunk(shared.space, chunk) {
        return Err(Error::NoSuchName);
    }
    shared.calls.next()?;
    if let Err(refusal) = store.realloc(shared.space, chunk, size as u64) {
        return Err(call_error(refusal, shared.calls.count));
    }
    Ok(())
}

/// `free`: frees a chunk.
fn free<H: ResetHook, K: ExtKind, E: Emit>(
    store: &mut Store<H>,
    chunk: &Name,
    shared: &mut Shared<'_, H, K>,
    out: &mut E,
) -> Result<(), Error>
    requires between { IsBetweenSteps (now store.old shared.old) }
    ensures performed { Performed most_calls (elements (chunk_row (ChunkCommand.Free chunk.now))) (now store.old shared.old) (now store.new shared.new) (λ events. E.emits out.old events out.new) (refusal_of result) }
{
    store.free(shared.space, chunk).map_err(tree_error)
}

/// `put`: writes bytes into a chunk.
fn put<H: ResetHook, K: ExtKind, E: Emit>(
    store: &mut Store<H>,
    chunk: &Name,
    at: u32,
    bytes: &HexBytes<'_>,
    shared: &mut Shared<'_, H, K>,
    out: &mut E,
) -> Result<(), Error>
    requires between { IsBetweenSteps (now store.old shared.old) }
    ensures performed { Performed most_calls (elements (chunk_row (ChunkCommand.Put chunk.now at bytes.now))) (now store.old shared.old) (now store.new shared.new) (λ events. E.emits out.old events out.new) (refusal_of result) }
{
    let written = bytes.decoded();
    let bytes = written.as_slice();
    store
        .put(shared.space, chunk, at as u64, bytes)
        .map_err(tree_error)
}

/// `show`: shows bytes of a chunk.
fn show<H: ResetHook, K: ExtKind, E: Emit>(
    store: &mut Store<H>,
    chunk: Name,
    at: u32,
    length: u8,
    shared: &mut Shared<'_, H, K>,
    out: &mut E,
) -> Result<(), Error>
    requires between { IsBetweenSteps (now store.old shared.old) }
    requires short { length ≤ 128 }
    ensures performed { Performed most_calls (elements (chunk_row (ChunkCommand.Show chunk at length))) (now store.old shared.old) (now store.new shared.new) (λ events. E.emits out.old events out.new) (refusal_of result) }
{
    let bytes = match bytes_of(store, shared.space, &chunk, at, length) {
        Ok(bytes) => bytes,
        Err(refusal) => return Err(tree_error(refusal)),
    };
    out.emit(What::Bytes { chunk, at, bytes });
    Ok(())
}

/// So many bytes of a chunk, from a place on.
fn bytes_of<H: ResetHook>(
    store: &Store<H>,
    space: &Space,
    chunk: &Name,
    at: u32,
    length: u8,
) -> Result<ChunkBytes, TreeError>
    requires keeps { Keeps store.now space.now }
    requires short { length ≤ 128 }
    ensures answer { error_of result ≡ bytes_refusal chunk.now at length (contexts_in store.now space.now) }
    ensures bytes { IfOk result (λ bytes. bytes ≡ shown chunk.now at length (contexts_in store.now space.now)) }
{
    let mut places = [0; 128];
    let out = &mut places[..length as usize];
    store.show(space, chunk, at as u64, out)?;
    match ChunkBytes::new(out) {
        Some(bytes) => Ok(bytes),
        None => unreachable!(),
    }
}
