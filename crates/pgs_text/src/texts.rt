//! The line of text of an event.
ghost use Rattle.std.specs.Prelude.{◌≡◌, ◌+◌, ◌<◌, ◌≤◌, ℕ, List, [], ◌++◌, length, codes, decimal, IfSome};
ghost use Rattle.std.specs.Option.{is_some};
ghost use Rattle.hex.specs.Hex.{encode_lower};
ghost use Rattle.arrayvec.specs.ArrayVec.{array_vec_len};
ghost use Rattle.pgs_step.specs.Text.{kind_name, error_text, by_owner, item_text, lock_text, lock_counts, what_text, text_of};
ghost use Rattle.pgs_step.specs.Mode.{mode_name};
ghost use Rattle.pgs_step.specs.declared.events.What.TheVariants.{Create, Row};

use crate::pieces::{
    has_room, put, put_both, put_counted, put_named, put_number, put_small, put_word,
};
use crate::report_texts::{put_context_stats, put_grand_total, put_stat};
use arrayvec::ArrayVec;
use pgs_step::{ChunkBytes, Error, Event, Item, KindId, Mode, Name, What};

/// Clears `out` and writes the event's line, with its newline, in a program without extension kinds, whose events have no text.
pub fn text(event: &Event, out: &mut ArrayVec<u8, 512>)
    ensures { out.new.items ≡ text_of [] event.now }
{
    text_with(event, &[], out);
}

/// Clears `out` and writes the event's line, with its newline: the session's number, a space and the text.
///
/// `names` are those of the extension kinds: kind 16 + i has the name `names[i]`. The text of an event
/// whose kind has no name is empty.
pub fn text_with(event: &Event, names: &[Name], out: &mut ArrayVec<u8, 512>)
    ensures { out.new.items ≡ text_of names.now event.now }
{
    out.clear();
    append_text(event.session, &event.what, names, out);
}

/// Writes the line of what a session says, with its newline, at the end of `out`.
///
/// `names` are those of the extension kinds: kind 16 + i has the name `names[i]`. Nothing is written of an
/// event whose kind has no name.
#[inline(always)]
pub fn append_text<const N: usize>(
    session: u8,
    what: &What,
    names: &[Name],
    out: &mut ArrayVec<u8, N>,
)
    requires { array_vec_len out.old + 512 ≤ N }
    ensures text { out.new.items ≡ out.old.items ++ text_of names.now (record { session = session; what = what.now }) }
    ensures short { array_vec_len out.new ≤ array_vec_len out.old + 512 }
{
    if has_room(out, 512) {
        if has_text(what, names) {
            put_small(out, session);
            out.push(b' ');
            put_what(out, what, names);
            put_newline(out);
        }
    }
}

/// Writes the line of `What::Create`, as `append_text` does. The name stays where it is, and an event would hold a copy of it.
#[inline(always)]
pub fn append_create<const N: usize>(
    session: u8,
    context: u64,
    name: &Name,
    parent: u64,
    out: &mut ArrayVec<u8, N>,
)
    requires { array_vec_len out.old + 512 ≤ N }
    ensures text { (names : List (List ℕ)) → out.new.items ≡ out.old.items ++ text_of names (record { session = session; what = Create context name.now parent }) }
    ensures short { array_vec_len out.new ≤ array_vec_len out.old + 512 }
{
    if has_room(out, 512) {
        put_small(out, session);
        out.push(b' ');
        put_create(out, context, name, parent);
        put_newline(out);
    }
}

/// Writes the line of `What::Row`, as `append_text` does. The portal's name stays where it is.
#[inline(always)]
pub fn append_row<const N: usize>(
    session: u8,
    portal: &Name,
    row: u32,
    value: u32,
    out: &mut ArrayVec<u8, N>,
)
    requires { array_vec_len out.old + 512 ≤ N }
    ensures text { (names : List (List ℕ)) → out.new.items ≡ out.old.items ++ text_of names (record { session = session; what = Row portal.now row value }) }
    ensures short { array_vec_len out.new ≤ array_vec_len out.old + 512 }
{
    if has_room(out, 512) {
        put_small(out, session);
        out.push(b' ');
        put_row(out, portal, row, value);
        put_newline(out);
    }
}

/// The end of a line.
#[inline(always)]
fn put_newline<const N: usize>(out: &mut ArrayVec<u8, N>)
    requires { array_vec_len out.old < N }
    ensures text { out.new.items ≡ out.old.items ++ codes "\n" }
    ensures len { array_vec_len out.new ≡ array_vec_len out.old + 1 }
{
    out.push(b'\n');
}

/// Whether an event has a text: false where it names a kind without a name.
#[tactic(auto, unfolding(pgs_step::specs::Text::what_text))]
#[inline(always)]
fn has_text(what: &What, names: &[Name]) -> bool
    ensures { result ≡ is_some (what_text names.now what.now) }
{
    if !matches!(
        what,
        What::Acquire { .. } | What::Release { .. } | What::NotClosed { .. }
    ) {
        return true;
    }
    match what {
        What::Acquire { item, .. } | What::Release { item, .. } | What::NotClosed { item, .. } => {
            has_name(item.kind, names)
        }
        _ => true,
    }
}

/// Whether a kind has a name.
#[tactic(auto, unfolding(pgs_step::specs::Text::kind_name))]
fn has_name(kind: KindId, names: &[Name]) -> bool
    ensures { result ≡ is_some (kind_name names.now kind) }
{
    if kind.0 >= KindId::FIRST_EXTENSION {
        names.len() > (kind.0 - KindId::FIRST_EXTENSION) as usize
    } else {
        kind.0 != 0 && kind.0 <= KindId::FILE.0
    }
}

/// Writes an event's text at the end, where it has one.
#[inline(always)]
#[tactic(auto, unfolding(pgs_step::specs::Text::what_text))]
fn put_what<const N: usize>(out: &mut ArrayVec<u8, N>, what: &What, names: &[Name])
    requires { array_vec_len out.old + 450 ≤ N }
    ensures text { IfSome (what_text names.now what.now) (λ text. out.new.items ≡ out.old.items ++ text) }
    ensures short { array_vec_len out.new ≤ array_vec_len out.old + 450 }
{
    match what {
        What::BeginLevel(level) => put_counted(out, b"begin level ", *level as u64),
        What::CommitLevel(level) => put_counted(out, b"commit level ", *level as u64),
        What::AbortLevel(level) => put_counted(out, b"abort level ", *level as u64),
        What::CleanupLevel(level) => put_counted(out, b"cleanup level ", *level as u64),
        What::Create {
            context,
            name,
            parent,
        } => put_create(out, *context, name, *parent),
        What::Reset(context) => put_counted(out, b"reset c", *context),
        What::Delete(context) => put_counted(out, b"delete c", *context),
        What::Move { context, parent } => put_both(out, b"move c", *context, b" to c", *parent),
        What::Hook { word, context } => put_both(out, b"hook ", *word, b" c", *context),
        What::Callback { word, context } => put_both(out, b"callback ", *word, b" c", *context),
        What::Owner(owner) => put_counted(out, b"owner o", *owner),
        What::OwnerIn { owner, parent } => put_both(out, b"owner o", *owner, b" in o", *parent),
        What::MoveOwner { owner, parent } => put_both(out, b"owner o", *owner, b" to o", *parent),
        What::OwnerGone(owner) => put_owner_gone(out, *owner),
        What::Acquire { item, owner } => put_said(out, b"acquire ", item, *owner, names),
        What::Release { item, owner } => put_said(out, b"release ", item, *owner, names),
        What::NotClosed { item, owner } => {
            let word = b"warning resource was not closed: ";
            put_said(out, word, item, *owner, names)
        }
        What::AcquireLock {
            object,
            mode,
            owner,
        } => put_acquire_lock(out, *object, *mode, *owner),
        What::ReleaseLock {
            object,
            mode,
            count,
            owner,
        } => { put_lock_counts(out, b"release lock ", *object, *mode, *count, *owner) }
        What::PassLock {
            object,
            mode,
            count,
            from,
            to,
        } => { put_pass_lock(out, *object, *mode, *count, *from, *to) }
        What::DescriptorOpened(file) => put_counted(out, b"descriptor opened ", *file as u64),
        What::DescriptorClosed(file) => put_counted(out, b"descriptor closed ", *file as u64),
        What::Push(snapshot) => put_counted(out, b"push ", *snapshot as u64),
        What::Pop(snapshot) => put_counted(out, b"pop ", *snapshot as u64),
        What::Row { portal, row, value } => put_row(out, portal, *row, *value),
        What::Fetched { portal, rows } => put_named(out, b"fetched ", portal, *rows),
        What::Bytes { chunk, at, bytes } => put_bytes(out, chunk, *at, bytes),
        What::Buffer { buffer, sessions } => {
            let (buffer, sessions) = (*buffer as u64, *sessions as u64);
            put_both(out, b"buffer ", buffer, b" pinned by ", sessions)
        }
        What::Stat(counts) => put_stat(out, counts),
        What::ContextStats {
            depth,
            context,
            name,
            counters,
        } => { put_context_stats(out, *depth, *context, name, counters) }
        What::GrandTotal(counters) => put_grand_total(out, counters),
        What::AlreadyInTransaction => {
            put_word(out, b"warning there is already a transaction in progress")
        }
        What::NotInTransaction => put_word(out, b"warning there is no transaction in progress"),
        What::Ok => put_word(out, b"ok"),
        What::Error(error) => put_error_line(out, error),
        What::Exit => put_word(out, b"exit"),
    }
}

/// "create cK NAME in cJ"
#[inline(always)]
fn put_create<const N: usize>(out: &mut ArrayVec<u8, N>, context: u64, name: &Name, parent: u64)
    requires { array_vec_len out.old + 200 ≤ N }
    ensures text { out.new.items ≡ out.old.items ++ (codes "create c" ++ decimal context ++ codes " " ++ name.now ++ codes " in c" ++ decimal parent) }
    ensures short { array_vec_len out.new ≤ array_vec_len out.old + 200 }
{
    put_counted(out, b"create c", context);
    put_word(out, b" ");
    put(out, name.as_slice());
    put_counted(out, b" in c", parent);
}

/// "row NAME R V"
#[inline(always)]
fn put_row<const N: usize>(out: &mut ArrayVec<u8, N>, portal: &Name, row: u32, value: u32)
    requires { array_vec_len out.old + 200 ≤ N }
    ensures text { out.new.items ≡ out.old.items ++ (codes "row " ++ portal.now ++ codes " " ++ decimal row ++ codes " " ++ decimal value) }
    ensures short { array_vec_len out.new ≤ array_vec_len out.old + 200 }
{
    put_named(out, b"row ", portal, row);
    put_counted(out, b" ", value as u64);
}

/// "bytes CHUNK N HEX"
#[inline(never)]
fn put_bytes<const N: usize>(out: &mut ArrayVec<u8, N>, chunk: &Name, at: u32, bytes: &ChunkBytes)
    requires { array_vec_len out.old + 400 ≤ N }
    ensures text { out.new.items ≡ out.old.items ++ (codes "bytes " ++ chunk.now ++ codes " " ++ decimal at ++ codes " " ++ encode_lower bytes.now) }
    ensures short { array_vec_len out.new ≤ array_vec_len out.old + 400 }
{
    put_named(out, b"bytes ", chunk, at);
    out.push(b' ');
    put_hex(out, bytes);
}

/// Two digits for each byte.
fn put_hex<const N: usize>(out: &mut ArrayVec<u8, N>, bytes: &ChunkBytes)
    requires { array_vec_len out.old + 256 ≤ N }
    ensures text { out.new.items ≡ out.old.items ++ encode_lower bytes.now }
    ensures short { array_vec_len out.new ≤ array_vec_len out.old + 256 }
{
    let bytes = bytes.as_slice();
    let mut digits = [0; 256];
    let digits = &mut digits[..2 * bytes.len()];
    let _ = hex::encode_to_slice(bytes, digits);
    put(out, digits);
}

/// "KIND KEY #S oK" behind a word, where the kind has a name.
#[inline(always)]
fn put_said<const W: usize, const N: usize>(
    out: &mut ArrayVec<u8, N>,
    word: &[u8; W],
    item: &Item,
    owner: u64,
    names: &[Name],
)
    requires { (array_vec_len out.old + 300 ≤ N) × (W ≤ 40) }
    ensures text { IfSome (item_text names.now word.now item.now owner) (λ text. out.new.items ≡ out.old.items ++ text) }
    ensures short { array_vec_len out.new ≤ array_vec_len out.old + 200 }
{
    put_word(out, word);
    put_kind(out, item.kind, names);
    put_item(out, item, owner);
}

/// Writes the name of a kind in events, where it has one.
#[tactic(auto, unfolding(pgs_step::specs::Text::kind_name))]
fn put_kind<const N: usize>(out: &mut ArrayVec<u8, N>, kind: KindId, names: &[Name])
    requires { array_vec_len out.old + 32 ≤ N }
    ensures text { IfSome (kind_name names.now kind) (λ name. out.new.items ≡ out.old.items ++ name) }
    ensures short { array_vec_len out.new ≤ array_vec_len out.old + 32 }
{
    if kind.0 >= KindId::FIRST_EXTENSION {
        if let Some(name) = names.get((kind.0 - KindId::FIRST_EXTENSION) as usize) {
            put(out, name.as_slice());
        }
        return;
    }
    match kind.0 {
        1 => put_word(out, b"buffer pin"),
        2 => put_word(out, b"relcache reference"),
        3 => put_word(out, b"catcache reference"),
        4 => put_word(out, b"catcache list reference"),
        5 => put_word(out, b"plan reference"),
        6 => put_word(out, b"tuple descriptor reference"),
        7 => put_word(out, b"snapshot reference"),
        8 => put_word(out, b"file"),
        _ => {}
    }
}

/// "KEY #S oK" behind a kind's name, with a space before it.
fn put_item<const N: usize>(out: &mut ArrayVec<u8, N>, item: &Item, owner: u64)
    requires { array_vec_len out.old + 80 ≤ N }
    ensures text { out.new.items ≡ out.old.items ++ (codes " " ++ decimal item.now.key ++ codes " #" ++ decimal item.now.serial ++ by_owner owner) }
    ensures short { array_vec_len out.new ≤ array_vec_len out.old + 80 }
{
    put_counted(out, b" ", item.key as u64);
    put_counted(out, b" #", item.serial);
    put_counted(out, b" o", owner);
}

#[tactic(auto, unfolding(pgs_step::specs::Text::error_text))]
fn put_error<const N: usize>(out: &mut ArrayVec<u8, N>, error: &Error)
    requires { array_vec_len out.old + 100 ≤ N }
    ensures text { out.new.items ≡ out.old.items ++ error_text error.now }
    ensures short { array_vec_len out.new ≤ array_vec_len out.old + 100 }
{
    match error {
        Error::SyntaxError => put_word(out, b"42601 syntax error"),
        Error::NoSuchSession => put_word(out, b"08003 no such session"),
        Error::TransactionAborted => put_word(out, b"25P02 transaction is aborted"),
        Error::NoTransactionBlock => put_word(out, b"25P01 no transaction block"),
        Error::NoSuchSavepoint => put_word(out, b"3B001 no such savepoint"),
        Error::NoSuchName => put_word(out, b"42704 no such name"),
        Error::NameTaken => put_word(out, b"42710 name is taken"),
        Error::ContextProtected => put_word(out, b"42501 context is protected"),
        Error::ContextInUse => put_word(out, b"55006 context is in use"),
        Error::ContextCycle => put_word(out, b"42P17 cycle of contexts"),
        Error::TooBig => put_word(out, b"54000 request is too big"),
        Error::OutOfSpace => put_word(out, b"53200 out of space"),
        Error::Injected(call) => put_counted(out, b"53200 out of memory at call ", *call),
        Error::WrongChunkSize => put_word(out, b"22023 wrong chunk size"),
        Error::Unsupported => put_word(out, b"0A000 not supported by this kind"),
        Error::OutsideChunk => put_word(out, b"22003 outside the chunk's bytes"),
        Error::NoSuchBuffer => put_word(out, b"22023 no such buffer"),
        Error::NotHeld => put_word(out, b"55000 not held by this owner"),
        Error::LockHeld { session, mode } => put_lock_held(out, *session, *mode),
        Error::KindLimit => put_word(out, b"53400 limit of the kind is reached"),
        Error::LimitReached => put_word(out, b"54000 limit is reached"),
        Error::NoSuchPortal => put_word(out, b"34000 no such portal"),
        Error::PortalTaken => put_word(out, b"42P03 portal is there"),
        Error::PortalFailed => put_word(out, b"55000 portal has failed"),
        Error::BadRow(row) => put_counted(out, b"22012 bad row ", *row as u64),
        Error::Raised => put_word(out, b"P0001 raised"),
        Error::NoMemory(call) => put_counted(out, b"53200 no memory at call ", *call),
    }
}

#[inline(never)]
fn put_error_line<const N: usize>(out: &mut ArrayVec<u8, N>, error: &Error)
    requires { array_vec_len out.old + 110 ≤ N }
    ensures text { out.new.items ≡ out.old.items ++ (codes "ERROR " ++ error_text error.now) }
    ensures short { array_vec_len out.new ≤ array_vec_len out.old + 110 }
{
    put_word(out, b"ERROR ");
    put_error(out, error);
}

/// "55P03 lock is held by session S as MODE"
fn put_lock_held<const N: usize>(out: &mut ArrayVec<u8, N>, session: u8, mode: Mode)
    requires { array_vec_len out.old + 100 ≤ N }
    ensures text { out.new.items ≡ out.old.items ++ (codes "55P03 lock is held by session " ++ decimal session ++ codes " as " ++ mode_name mode) }
    ensures short { array_vec_len out.new ≤ array_vec_len out.old + 100 }
{
    put_counted(out, b"55P03 lock is held by session ", session as u64);
    put_word(out, b" as ");
    put(out, mode.name());
}

/// "owner oK gone"
#[inline(always)]
fn put_owner_gone<const N: usize>(out: &mut ArrayVec<u8, N>, owner: u64)
    requires { array_vec_len out.old + 40 ≤ N }
    ensures text { out.new.items ≡ out.old.items ++ (codes "owner o" ++ decimal owner ++ codes " gone") }
    ensures short { array_vec_len out.new ≤ array_vec_len out.old + 40 }
{
    put_counted(out, b"owner o", owner);
    put_word(out, b" gone");
}

/// "acquire lock N MODE oK"
#[inline(never)]
fn put_acquire_lock<const N: usize>(out: &mut ArrayVec<u8, N>, object: u32, mode: Mode, owner: u64)
    requires { array_vec_len out.old + 200 ≤ N }
    ensures text { out.new.items ≡ out.old.items ++ (lock_text (codes "acquire lock ") object mode ++ by_owner owner) }
    ensures short { array_vec_len out.new ≤ array_vec_len out.old + 200 }
{
    put_lock(out, b"acquire lock ", object, mode);
    put_counted(out, b" o", owner);
}

/// "pass lock N MODE xC oK to oJ"
#[inline(never)]
fn put_pass_lock<const N: usize>(
    out: &mut ArrayVec<u8, N>,
    object: u32,
    mode: Mode,
    count: u64,
    from: u64,
    to: u64,
)
    requires { array_vec_len out.old + 300 ≤ N }
    ensures text { out.new.items ≡ out.old.items ++ (lock_counts (codes "pass lock ") object mode count from ++ codes " to" ++ by_owner to) }
    ensures short { array_vec_len out.new ≤ array_vec_len out.old + 300 }
{
    put_lock_counts(out, b"pass lock ", object, mode, count, from);
    put_word(out, b" to");
    put_counted(out, b" o", to);
}

/// A word, a lock, how many counts of it, and their owner.
#[inline(never)]
fn put_lock_counts<const W: usize, const N: usize>(
    out: &mut ArrayVec<u8, N>,
    word: &[u8; W],
    object: u32,
    mode: Mode,
    count: u64,
    owner: u64,
)
    requires { (array_vec_len out.old + 200 ≤ N) × (W ≤ 40) }
    ensures text { out.new.items ≡ out.old.items ++ lock_counts word.now object mode count owner }
    ensures short { array_vec_len out.new ≤ array_vec_len out.old + 200 }
{
    put_lock(out, word, object, mode);
    put_counted(out, b" x", count);
    put_counted(out, b" o", owner);
}

/// A word and a lock behind it.
fn put_lock<const W: usize, const N: usize>(
    out: &mut ArrayVec<u8, N>,
    word: &[u8; W],
    object: u32,
    mode: Mode,
)
    requires { (array_vec_len out.old + 100 ≤ N) × (W ≤ 40) }
    ensures text { out.new.items ≡ out.old.items ++ lock_text word.now object mode }
    ensures short { array_vec_len out.new ≤ array_vec_len out.old + 100 }
{
    put_counted(out, word, object as u64);
    out.push(b' ');
    put(out, mode.name());
}
