//! Commands in turn, from the start of a session to its exit.
ghost use Rattle.std.specs.Prelude.{◌≡◌, ◌+◌, ◌*◌, ◌<◌, ◌≤◌, true, false, All, IfOk, IfSome, length};
ghost use Rattle.pgs_command.specs.Ranges.{IsInRange};
ghost use Rattle.owner_kinds.specs.KindShelf.{table_of};
ghost use Rattle.owner_kinds.specs.KindTable.{IsSound};
ghost use Rattle.reset_callbacks.specs.Hook.{AreDistinct};
ghost use Rattle.reset_callbacks.specs.ShelfState.{ShelfState, held};
ghost use Rattle.context_rules.specs.Chunks.{written};
ghost use Rattle.session_rules.specs.Parts.{contexts_become};
ghost use Rattle.session_owners.specs.Commons.{CommonState};
ghost use Rattle.session_store.specs.Calls.{Acted, IsSilent, Keeps};
ghost use Rattle.session_commands.specs.declared.calls.Calls.{Calls};
ghost use Rattle.session_commands.specs.Performed.{now, most_steps, Grows, HasRoom};
ghost use Rattle.session_core.specs.Lines.{IsBetweenLines};
ghost use Rattle.session_trials.specs.Beginning.{now_at};

use addr_space::{Addr, Space};
use context_node::own_name;
use owner_kinds::{CountedKind, KindShelf};
use pgs_command::Command;
use pgs_step::{EventList, Name, Phase};
use reset_callbacks::{CountedHook, Shelf};
use session_core::{Calls, Session, Shared, StartError};
use session_owners::Commons;
use std::alloc::{AllocError, Global};

/// How many bytes the session's contexts may hold.
const SPACE: u64 = 1_048_576;

/// How many of its files can have a descriptor.
const DESCRIPTORS: u8 = 2;

/// How many events are kept.
const EVENTS: u32 = 60;

/// What a session left: its events, how deep it was before its exit, and what its account held behind it.
#[derive(Drop)]
pub struct Played {
    pub out: EventList,
    pub depth: u32,
    pub held: u64,
}

/// A session that has started, with all that is lent to it, and what it has said.
#[derive(Drop)]
struct Started {
    session: Session<CountedHook>,
    space: Space,
    shelf: Shelf<CountedHook>,
    commons: Commons<CountedKind>,
    calls: Calls,
    out: EventList,
}

/// A session that performs these commands and ends, in a run of which this call fails; 0 is none.
///
/// It has two hooks, with the words 1 and 2, two kinds of extensions, `conn` and `handle`, and two of its files can have a descriptor. `Memory` comes where memory is refused before the session has started.
pub fn outcome(alloc: Global, fail: u64, commands: &[Command]) -> Result<Played, StartError>
    requires range { All IsInRange commands.now }
    requires few { length commands.now ≤ 20 }
    ensures held { IfOk result (λ played. played.held ≡ 0) }
{
    let Started {
        mut session,
        mut space,
        mut shelf,
        mut commons,
        mut calls,
        mut out,
    } = start(alloc, fail)?;
    let mut shared = Shared {
        space: &mut space,
        shelf: &mut shelf,
        commons: &mut commons,
        calls: &mut calls,
    };
    play(&mut session, commands, &mut shared, &mut out);
    Ok(end(session, shared, out))
}

/// A session as that of `outcome`, where no call fails and these bytes are written over known bytes of a chunk between its commands: in
/// the space, as a program does that has a pointer to the chunk.
///
/// `None` comes where there is no such chunk, or not all of the bytes from that place on are known.
pub fn outcome_over(
    alloc: Global,
    before: &[Command],
    chunk: &Name,
    at: u32,
    bytes: &[u8],
    behind: &[Command],
) -> Result<Option<Played>, StartError>
    requires range_before { All IsInRange before.now }
    requires range_behind { All IsInRange behind.now }
    requires few { length before.now + length behind.now ≤ 20 }
    requires some_bytes { 0 < length bytes.now }
    requires few_bytes { length bytes.now ≤ 128 }
    ensures held { IfOk result (λ o. IfSome o (λ played. played.held ≡ 0)) }
{
    let Started {
        mut session,
        mut space,
        mut shelf,
        mut commons,
        mut calls,
        mut out,
    } = start(alloc, 0)?;
    let mut shared = Shared {
        space: &mut space,
        shelf: &mut shelf,
        commons: &mut commons,
        calls: &mut calls,
    };
    play(&mut session, before, &mut shared, &mut out);
    let known = overwrite(&session, shared.space, chunk, at, bytes);
    play(&mut session, behind, &mut shared, &mut out);
    let played = end(session, shared, out);
    Ok(if known { Some(played) } else { None })
}

/// Starts a session in a run of which this call fails; 0 is none.
fn start(alloc: Global, fail: u64) -> Result<Started, StartError>
    ensures lines { IfOk result (λ started. IsBetweenLines (now_at started)) }
    ensures room { IfOk result (λ started. HasRoom (most_steps * 20) (now_at started)) }
    ensures account { IfOk result (λ started. started.session.tree.account ≡ 0) }
{
    let Ok(shelf) = two_hooks(alloc) else {
        return Err(StartError::Memory);
    };
    let Ok(mut kinds) = two_kinds(alloc) else {
        return Err(StartError::Memory);
    };
    let Ok(mut commons) = Commons::new(alloc) else {
        return Err(StartError::Memory);
    };
    commons.swap_kinds(&mut kinds);
    let Ok(mut space) = Space::new(alloc, 1, SPACE) else {
        return Err(StartError::Memory);
    };
    let Ok(out) = EventList::new(alloc, EVENTS) else {
        return Err(StartError::Memory);
    };
    let session = Session::start(alloc, 0, 1, DESCRIPTORS, &mut space)?;
    let calls = Calls { count: 0, fail };
    Ok(Started {
        session,
        space,
        shelf,
        commons,
        calls,
        out,
    })
}

/// A shelf of two fresh hooks, with the words 1 and 2.
fn two_hooks(alloc: Global) -> Result<Shelf<CountedHook>, AllocError>
    ensures words_differ { IfOk result (λ shelf. AreDistinct (held shelf)) }
{
    let mut fresh = Vec::new(alloc);
    fresh.push(CountedHook::new(1))?;
    fresh.push(CountedHook::new(2))?;
    Shelf::new(alloc, fresh)
}

/// A shelf of two kinds: `conn`, whose items are released before the locks and which holds up to 4 keys, and `handle`, whose items are
/// released behind them and which holds up to 8.
fn two_kinds(alloc: Global) -> Result<KindShelf<CountedKind>, AllocError>
    ensures sound { IfOk result (λ shelf. IsSound (table_of shelf)) }
{
    let mut kinds = Vec::new(alloc);
    kinds.push(CountedKind::new(alloc, own_name(b"conn"), Phase::BeforeLocks, 350, 4))?;
    kinds.push(CountedKind::new(alloc, own_name(b"handle"), Phase::AfterLocks, 250, 8))?;
    KindShelf::new(alloc, kinds)
}

/// Performs commands one after the other, a line each.
fn play(
    session: &mut Session<CountedHook>,
    commands: &[Command],
    shared: &mut Shared<'_, CountedHook, CountedKind>,
    out: &mut EventList,
)
    requires lines { IsBetweenLines (now session.old shared.old) }
    requires range { All IsInRange commands.now }
    requires room { HasRoom (most_steps * length commands.now) (now session.old shared.old) }
    ensures lines { IsBetweenLines (now session.new shared.new) }
    ensures account { session.new.tree.account ≡ session.old.tree.account }
    ensures grows { Grows (most_steps * length commands.now) (now session.old shared.old) (now session.new shared.new) }
{
    for command in commands {
        let _wanted = session.take_turn(Some(command), shared, out);
    }
}

/// Writes bytes over known bytes of a chunk, in the space and past the session. Answers whether they were known: where not, nothing is
/// written.
fn overwrite(
    session: &Session<CountedHook>,
    space: &mut Space,
    chunk: &Name,
    at: u32,
    bytes: &[u8],
) -> bool
    requires keeps { Keeps session.now space.old }
    requires some { 0 < length bytes.now }
    requires few { length bytes.now ≤ 128 }
    ensures written { result ≡ true → (x : ShelfState) (c : CommonState) → Acted (contexts_become (written chunk.now at bytes.now)) session.now session.now space.old space.new x x c c IsSilent }
    ensures unwritten { result ≡ false → space.new ≡ space.old }
    ensures lines { (x : ShelfState) (c : CommonState) (calls : Calls) → IsBetweenLines (record { store = session.now; space = space.old; shelf = x; commons = c; calls = calls }) → IsBetweenLines (record { store = session.now; space = space.new; shelf = x; commons = c; calls = calls }) }
{
    let mut known = [0; 128];
    let out = &mut known[..bytes.len()];
    let Ok(()) = session.bytes(space, chunk, at as u64, out) else {
        return false;
    };
    let place = session.place(chunk);
    let Some(offset) = place.offset.checked_add(at) else {
        return false;
    };
    let region = place.region;
    space.write(Addr { region, offset }, bytes);
    true
}

/// Ends a session.
fn end(
    mut session: Session<CountedHook>,
    mut shared: Shared<'_, CountedHook, CountedKind>,
    mut out: EventList,
) -> Played
    requires lines { IsBetweenLines (now session shared) }
    requires account { session.tree.account ≡ 0 }
    ensures held { result.held ≡ 0 }
{
    let depth = session.depth();
    session.exit(&mut shared, &mut out);
    let Shared {
        space,
        shelf: _,
        commons: _,
        calls: _,
    } = shared;
    let held = space.held(0);
    Played { out, depth, held }
}
