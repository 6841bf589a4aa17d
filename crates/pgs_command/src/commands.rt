//! The commands of a script, divided as the rules divide them, and how they are read: each by the first word of its line.
ghost use Rattle.std.specs.Prelude.{◌≡◌, None, Some, codes, length, is_some, IfSome, IsTrue};
ghost use Rattle.std.specs.Option.{option_or, option_map, option_copied};
ghost use Rattle.pgs_command.specs.Words.{words_of, words_in, alone, only, behind};
ghost use Rattle.pgs_command.specs.Table.{look_up, table, transaction_rows, context_rows, chunk_rows, item_rows, lock_rows, snapshot_rows, plan_rows, portal_rows, tell_rows, none, one, three, with_kind, portal_without_bad, portal_with_bad, on_transactions, on_chunks, command_of};
ghost use Rattle.pgs_command.specs.Ranges.{IsInRange};
ghost use Rattle.pgs_command.specs.Values.{name_of, number_of, bytes_of, length_of, count_of, kind_of};
ghost use Rattle.pgs_command.specs.declared.commands.TransactionCommand.TheVariants.{Rollback, RollbackTo};
ghost use Rattle.pgs_command.specs.declared.commands.ChunkCommand.TheVariants.{Put, Show};

use crate::hex_bytes::HexBytes;
use crate::kinds::{ContextKind, ReferenceClass};
use crate::picks::{is_word, made_of, write_by_words, write_parts};
use crate::values::{read_number, read_plain_kind};
use crate::words::{Words, split_word};
use pgs_step::{Mode, Name};

/// What a line of a script asks for.
#[derive(Debug, Drop, PartialEq, Eq)]
pub enum Command<'a> {
    /// An empty line or a comment.
    Nothing,
    /// What begins and ends transactions and savepoints.
    Transaction(TransactionCommand),
    /// What is done within a transaction. Where none is open, one is begun for it alone.
    Work(Work<'a>),
}

/// What begins and ends transactions and savepoints: PostgreSQL's `TransactionStmt`.
#[derive(Debug, Drop, PartialEq, Eq)]
pub enum TransactionCommand {
    /// `begin`: begins a transaction block.
    Begin,
    /// `commit`: commits the transaction.
    Commit,
    /// `rollback`: rolls the transaction back.
    Rollback,
    /// `savepoint NAME`: begins a subtransaction.
    Savepoint(Name),
    /// `release NAME`: commits the subtransactions down to this savepoint.
    Release(Name),
    /// `rollback to NAME`: rolls back to this savepoint.
    RollbackTo(Name),
}

/// What is done within a transaction, by what it is done to.
#[derive(Debug, Drop, PartialEq, Eq)]
pub enum Work<'a> {
    /// `raise`: fails.
    Raise,
    Contexts(ContextCommand),
    Chunks(ChunkCommand<'a>),
    Items(ItemCommand),
    Locks(LockCommand),
    Snapshots(SnapshotCommand),
    Plans(PlanCommand),
    Portals(PortalCommand),
    /// What only tells what is there.
    Tells(TellCommand),
}

/// What is done to memory contexts.
#[derive(Debug, Drop, PartialEq, Eq)]
pub enum ContextCommand {
    /// `context NAME PARENT KIND`: makes a memory context.
    Create {
        name: Name,
        parent: Name,
        kind: ContextKind,
    },
    /// `switch NAME`: makes a context the current one.
    Switch(Name),
    /// `onreset NAME`: registers a callback at a context.
    OnReset(Name),
    /// `reset NAME`: deletes a context's children and frees its memory.
    Reset(Name),
    /// `resetonly NAME`: frees a context's memory, and keeps its children.
    ResetOnly(Name),
    /// `delete NAME`: deletes a context.
    Delete(Name),
    /// `deletechildren NAME`: deletes a context's children.
    DeleteChildren(Name),
    /// `reparent NAME PARENT`: gives a context another parent.
    Reparent {
        name: Name,
        parent: Name,
    },
}

/// What is done to chunks of memory.
#[derive(Debug, Drop, PartialEq, Eq)]
pub enum ChunkCommand<'a> {
    /// `alloc CHUNK N`: allocates `size` bytes in the current context.
    Alloc {
        chunk: Name,
        size: u32,
    },
    /// `alloc0 CHUNK N`: allocates `size` bytes that are 0.
    AllocZeroed {
        chunk: Name,
        size: u32,
    },
    /// `realloc CHUNK N`: makes a chunk `size` bytes long.
    Realloc {
        chunk: Name,
        size: u32,
    },
    /// `free CHUNK`: frees a chunk.
    Free(Name),
    /// `put CHUNK N HEX`: writes 1 to 128 bytes into a chunk, from byte `at` on.
    Put {
        chunk: Name,
        at: u32,
        bytes: HexBytes<'a>,
    },
    /// `show CHUNK N LEN`: shows `length` bytes of a chunk, 1 to 128, from byte `at` on.
    Show {
        chunk: Name,
        at: u32,
        length: u8,
    },
}

/// What is done to the items that owners remember.
#[derive(Debug, Drop, PartialEq, Eq)]
pub enum ItemCommand {
    /// `pin N`: pins a shared buffer.
    Pin(u32),
    /// `unpin N`: gives back one pin of a shared buffer.
    Unpin(u32),
    /// `open N`: opens a temporary file.
    Open(u32),
    /// `touch N`: uses an open file, which needs a descriptor for it.
    Touch(u32),
    /// `close N`: closes a file.
    Close(u32),
    /// `ref CLASS N`: takes a reference to a cache's entry.
    Reference { class: ReferenceClass, key: u32 },
    /// `unref CLASS N`: gives back one reference to a cache's entry.
    Unreference { class: ReferenceClass, key: u32 },
    /// `acquire NAME N`: acquires a resource of the extension kind of this name.
    Acquire { kind: Name, key: u32 },
    /// `drop NAME N`: gives back one resource of the extension kind of this name.
    Drop { kind: Name, key: u32 },
    /// `snapshot N`: registers a snapshot.
    Snapshot(u32),
    /// `unsnapshot N`: unregisters a snapshot.
    Unsnapshot(u32),
}

/// What is done to heavyweight locks.
#[derive(Debug, Drop, PartialEq, Eq)]
pub enum LockCommand {
    /// `lock N MODE`: locks an object.
    Lock { object: u32, mode: Mode },
    /// `unlock N MODE`: gives back one lock of an object.
    Unlock { object: u32, mode: Mode },
}

/// What is done to the stack of active snapshots.
#[derive(Debug, Drop, PartialEq, Eq)]
pub enum SnapshotCommand {
    /// `push N`: pushes a snapshot.
    Push(u32),
    /// `pop`: pops the newest active snapshot.
    Pop,
}

/// What is done to cached plans.
#[derive(Debug, Drop, PartialEq, Eq)]
pub enum PlanCommand {
    /// `plan N`: makes a cached plan.
    Create(u32),
    /// `planref N`: takes a reference to a plan.
    Reference(u32),
    /// `planunref N`: gives back one reference to a plan.
    Unreference(u32),
    /// `plandrop N`: discards a plan.
    Drop(u32),
}

/// What is done to portals.
#[derive(Debug, Drop, PartialEq, Eq)]
pub enum PortalCommand {
    /// `portal NAME OBJECT ROWS` and `portal NAME OBJECT ROWS BAD`: opens a portal over a scan of `rows` rows,
    /// of which `bad` fails. Each of these numbers is at most 1,000,000.
    Open {
        name: Name,
        object: u32,
        rows: u32,
        bad: Option<u32>,
    },
    /// `fetch NAME COUNT`: fetches up to `count` rows from a portal, 1 to 1,000,000.
    Fetch {
        name: Name,
        count: u32,
    },
    /// `endportal NAME`: closes a portal.
    End(Name),
}

/// What only tells what is there.
#[derive(Debug, Drop, PartialEq, Eq)]
pub enum TellCommand {
    /// `report`: tells the memory of each context.
    Report,
    /// `stat`: tells how much the session holds.
    Stat,
    /// `buffer N`: tells how many sessions pin a shared buffer.
    Buffer(u32),
}

/// Writes the command on transactions, or `raise`, where the line is one.
#[inline(always)]
#[tactic(auto, unfolding(crate::specs::Table::transaction_rows))]
fn read_transaction<'a>(
    word: &[u8],
    rest: Option<&'a [u8]>,
    command: &mut Option<Command<'a>>,
) -> bool
    ensures found { result ≡ is_some (look_up transaction_rows word.now (words_in (option_copied rest.entry))) }
    ensures written { IsTrue result → command.new ≡ look_up transaction_rows word.now (words_in (option_copied rest.entry)) }
{
    let words = Words::new(rest);
    write_by_words! { word, command, [Command::Transaction];
        b"begin", () in words.end(()) => TransactionCommand::Begin,
        b"commit", () in words.end(()) => TransactionCommand::Commit,
        b"rollback" => write_rollback(words, command),
        b"savepoint", name in words.only_name() => TransactionCommand::Savepoint(name),
        b"release", name in words.only_name() => TransactionCommand::Release(name);
        [Command::Work];
        b"raise", () in words.end(()) => Work::Raise,
    }
}

/// Writes what `rollback` and `rollback to NAME` ask for, where the line is one of them.
fn write_rollback<'a>(mut words: Words<'a>, command: &mut Option<Command<'a>>) -> bool
    ensures found { result ≡ is_some (option_or (none (on_transactions Rollback) words.entry) (behind (codes "to") (one name_of (λ name. on_transactions (RollbackTo name))) words.entry)) }
    ensures written { IsTrue result → command.new ≡ option_or (none (on_transactions Rollback) words.entry) (behind (codes "to") (one name_of (λ name. on_transactions (RollbackTo name))) words.entry) }
{
    match words.next() {
        None => {
            *command = Some(Command::Transaction(TransactionCommand::Rollback));
            true
        }
        Some(word) => write_by_words! { word, command, [Command::Transaction];
            b"to", name in words.only_name() => TransactionCommand::RollbackTo(name),
        },
    }
}

/// Writes the command on memory contexts, where the line is one.
#[inline(always)]
#[tactic(auto, unfolding(crate::specs::Table::context_rows))]
fn read_context<'a>(word: &[u8], rest: Option<&'a [u8]>, command: &mut Option<Command<'a>>) -> bool
    ensures found { result ≡ is_some (look_up context_rows word.now (words_in (option_copied rest.entry))) }
    ensures written { IsTrue result → command.new ≡ look_up context_rows word.now (words_in (option_copied rest.entry)) }
{
    let words = Words::new(rest);
    write_by_words! { word, command, [Command::Work, Work::Contexts];
        b"context" => write_new_context(words, command),
        b"switch", name in words.only_name() => ContextCommand::Switch(name),
        b"onreset", name in words.only_name() => ContextCommand::OnReset(name),
        b"reset", name in words.only_name() => ContextCommand::Reset(name),
        b"resetonly", name in words.only_name() => ContextCommand::ResetOnly(name),
        b"delete", name in words.only_name() => ContextCommand::Delete(name),
        b"deletechildren", name in words.only_name() => ContextCommand::DeleteChildren(name),
        b"reparent", (name, parent) in words.two_names() => ContextCommand::Reparent { name, parent },
    }
}

/// Writes what `context NAME PARENT KIND` asks for, where the line is one.
fn write_new_context<'a>(mut words: Words<'a>, command: &mut Option<Command<'a>>) -> bool
    ensures found { result ≡ is_some (with_kind words.entry) }
    ensures written { IsTrue result → command.new ≡ with_kind words.entry }
{
    let Some(name) = words.name() else {
        return false
    };
    let Some(parent) = words.name() else {
        return false
    };
    let Some(kind) = read_kind(words) else {
        return false
    };
    *command = Some(Command::Work(Work::Contexts(ContextCommand::Create { name, parent, kind })));
    true
}

/// The kind of a context: one word, or `slab SIZE`.
#[tactic(auto, unfolding(crate::specs::Values::kind_of))]
fn read_kind(mut words: Words<'_>) -> Option<ContextKind>
    ensures { result ≡ kind_of words.entry }
{
    let word = words.next()?;
    if is_word(word, b"slab".as_slice()) {
        let size = words.number(1, 1024)?;
        words.end(ContextKind::Slab(size))
    } else {
        let kind = read_plain_kind(word)?;
        words.end(kind)
    }
}

/// Writes the command on chunks, where the line is one.
#[inline(always)]
#[tactic(auto, unfolding(crate::specs::Table::chunk_rows))]
fn read_chunk<'a>(word: &[u8], rest: Option<&'a [u8]>, command: &mut Option<Command<'a>>) -> bool
    ensures found { result ≡ is_some (look_up chunk_rows word.now (words_in (option_copied rest.entry))) }
    ensures written { IsTrue result → command.new ≡ look_up chunk_rows word.now (words_in (option_copied rest.entry)) }
{
    let words = Words::new(rest);
    write_by_words! { word, command, [Command::Work, Work::Chunks];
        b"alloc", (chunk, size) in words.name_and_number(0, u32::MAX) => ChunkCommand::Alloc { chunk, size },
        b"alloc0", (chunk, size) in words.name_and_number(0, u32::MAX) => ChunkCommand::AllocZeroed { chunk, size },
        b"realloc", (chunk, size) in words.name_and_number(0, u32::MAX) => ChunkCommand::Realloc { chunk, size },
        b"free", chunk in words.only_name() => ChunkCommand::Free(chunk),
        b"put" => write_put(words, command),
        b"show" => write_show(words, command),
    }
}

/// Writes what `put CHUNK N HEX` asks for, where the line is one.
fn write_put<'a>(mut words: Words<'a>, command: &mut Option<Command<'a>>) -> bool
    ensures found { result ≡ is_some (three name_of number_of bytes_of (λ chunk at bytes. on_chunks (Put chunk at bytes)) words.entry) }
    ensures written { IsTrue result → command.new ≡ three name_of number_of bytes_of (λ chunk at bytes. on_chunks (Put chunk at bytes)) words.entry }
{
    let Some(chunk) = words.name() else {
        return false
    };
    let Some(at) = words.number(0, u32::MAX) else {
        return false
    };
    let Some(digits) = words.next() else {
        return false
    };
    let Some(bytes) = HexBytes::new(digits) else {
        return false
    };
    let Some(()) = words.end(()) else {
        return false
    };
    *command = Some(Command::Work(Work::Chunks(ChunkCommand::Put { chunk, at, bytes })));
    true
}

/// Writes what `show CHUNK N LEN` asks for, where the line is one.
fn write_show<'a>(mut words: Words<'a>, command: &mut Option<Command<'a>>) -> bool
    ensures found { result ≡ is_some (three name_of number_of length_of (λ chunk at count. on_chunks (Show chunk at count)) words.entry) }
    ensures written { IsTrue result → command.new ≡ three name_of number_of length_of (λ chunk at count. on_chunks (Show chunk at count)) words.entry }
{
    let Some(chunk) = words.name() else {
        return false
    };
    let Some(at) = words.number(0, u32::MAX) else {
        return false
    };
    let Some(length) = words.number(1, 128) else {
        return false
    };
    let Some(()) = words.end(()) else {
        return false
    };
    *command = Some(Command::Work(Work::Chunks(ChunkCommand::Show {
        chunk,
        at,
        length: length as u8,
    })));
    true
}

/// Writes the command on items, where the line is one.
#[inline(always)]
#[tactic(auto, unfolding(crate::specs::Table::item_rows))]
fn read_item<'a>(word: &[u8], rest: Option<&'a [u8]>, command: &mut Option<Command<'a>>) -> bool
    ensures found { result ≡ is_some (look_up item_rows word.now (words_in (option_copied rest.entry))) }
    ensures written { IsTrue result → command.new ≡ look_up item_rows word.now (words_in (option_copied rest.entry)) }
{
    let words = Words::new(rest);
    write_by_words! { word, command, [Command::Work, Work::Items];
        b"pin", number in words.only_number() => ItemCommand::Pin(number),
        b"unpin", number in words.only_number() => ItemCommand::Unpin(number),
        b"open", number in words.only_number() => ItemCommand::Open(number),
        b"touch", number in words.only_number() => ItemCommand::Touch(number),
        b"close", number in words.only_number() => ItemCommand::Close(number),
        b"ref", (class, key) in words.class_and_number() => ItemCommand::Reference { class, key },
        b"unref", (class, key) in words.class_and_number() => ItemCommand::Unreference { class, key },
        b"acquire", (kind, key) in words.name_and_number(0, u32::MAX) => ItemCommand::Acquire { kind, key },
        b"drop", (kind, key) in words.name_and_number(0, u32::MAX) => ItemCommand::Drop { kind, key },
        b"snapshot", number in words.only_number() => ItemCommand::Snapshot(number),
        b"unsnapshot", number in words.only_number() => ItemCommand::Unsnapshot(number),
    }
}

/// Writes the command on locks, where the line is one.
#[inline(always)]
#[tactic(auto, unfolding(crate::specs::Table::lock_rows))]
fn read_lock<'a>(word: &[u8], rest: Option<&'a [u8]>, command: &mut Option<Command<'a>>) -> bool
    ensures found { result ≡ is_some (look_up lock_rows word.now (words_in (option_copied rest.entry))) }
    ensures written { IsTrue result → command.new ≡ look_up lock_rows word.now (words_in (option_copied rest.entry)) }
{
    let words = Words::new(rest);
    write_by_words! { word, command, [Command::Work, Work::Locks];
        b"lock", (object, mode) in words.number_and_mode() => LockCommand::Lock { object, mode },
        b"unlock", (object, mode) in words.number_and_mode() => LockCommand::Unlock { object, mode },
    }
}

/// Writes the command on the stack of active snapshots, where the line is one.
#[inline(always)]
#[tactic(auto, unfolding(crate::specs::Table::snapshot_rows))]
fn read_snapshot<'a>(word: &[u8], rest: Option<&'a [u8]>, command: &mut Option<Command<'a>>) -> bool
    ensures found { result ≡ is_some (look_up snapshot_rows word.now (words_in (option_copied rest.entry))) }
    ensures written { IsTrue result → command.new ≡ look_up snapshot_rows word.now (words_in (option_copied rest.entry)) }
{
    let words = Words::new(rest);
    write_by_words! { word, command, [Command::Work, Work::Snapshots];
        b"push", number in words.only_number() => SnapshotCommand::Push(number),
        b"pop", () in words.end(()) => SnapshotCommand::Pop,
    }
}

/// Writes the command on plans, where the line is one.
#[inline(always)]
#[tactic(auto, unfolding(crate::specs::Table::plan_rows))]
fn read_plan<'a>(word: &[u8], rest: Option<&'a [u8]>, command: &mut Option<Command<'a>>) -> bool
    ensures found { result ≡ is_some (look_up plan_rows word.now (words_in (option_copied rest.entry))) }
    ensures written { IsTrue result → command.new ≡ look_up plan_rows word.now (words_in (option_copied rest.entry)) }
{
    let words = Words::new(rest);
    write_by_words! { word, command, [Command::Work, Work::Plans];
        b"plan", number in words.only_number() => PlanCommand::Create(number),
        b"planref", number in words.only_number() => PlanCommand::Reference(number),
        b"planunref", number in words.only_number() => PlanCommand::Unreference(number),
        b"plandrop", number in words.only_number() => PlanCommand::Drop(number),
    }
}

/// Writes the command on portals, where the line is one.
#[inline(always)]
#[tactic(auto, unfolding(crate::specs::Table::portal_rows))]
fn read_portal<'a>(word: &[u8], rest: Option<&'a [u8]>, command: &mut Option<Command<'a>>) -> bool
    ensures found { result ≡ is_some (look_up portal_rows word.now (words_in (option_copied rest.entry))) }
    ensures written { IsTrue result → command.new ≡ look_up portal_rows word.now (words_in (option_copied rest.entry)) }
{
    let words = Words::new(rest);
    write_by_words! { word, command, [Command::Work, Work::Portals];
        b"portal" => write_new_portal(words, command),
        b"fetch", (name, count) in words.name_and_number(1, 1_000_000) => PortalCommand::Fetch { name, count },
        b"endportal", name in words.only_name() => PortalCommand::End(name),
    }
}

/// Writes what `portal NAME OBJECT ROWS` and `portal NAME OBJECT ROWS BAD` ask for, where the line is one of them.
fn write_new_portal<'a>(mut words: Words<'a>, command: &mut Option<Command<'a>>) -> bool
    ensures found { result ≡ is_some (option_or (portal_without_bad words.entry) (portal_with_bad words.entry)) }
    ensures written { IsTrue result → command.new ≡ option_or (portal_without_bad words.entry) (portal_with_bad words.entry) }
{
    let Some(name) = words.name() else {
        return false
    };
    let Some(object) = words.number(0, 1_000_000) else {
        return false
    };
    let Some(rows) = words.number(0, 1_000_000) else {
        return false
    };
    let Some(bad) = read_bad(words) else {
        return false
    };
    *command = Some(Command::Work(Work::Portals(PortalCommand::Open {
        name,
        object,
        rows,
        bad,
    })));
    true
}

/// No word, or the number of the bad row.
fn read_bad(mut words: Words<'_>) -> Option<Option<u32>>
    ensures { result ≡ option_or (alone None words.entry) (option_map Some (only count_of words.entry)) }
{
    match words.next() {
        None => Some(None),
        Some(word) => match read_number(word, 0, 1_000_000) {
            Some(bad) => words.end(Some(bad)),
            None => None,
        },
    }
}

/// Writes the command that only tells, where the line is one.
#[inline(always)]
#[tactic(auto, unfolding(crate::specs::Table::tell_rows))]
fn read_tell<'a>(word: &[u8], rest: Option<&'a [u8]>, command: &mut Option<Command<'a>>) -> bool
    ensures found { result ≡ is_some (look_up tell_rows word.now (words_in (option_copied rest.entry))) }
    ensures written { IsTrue result → command.new ≡ look_up tell_rows word.now (words_in (option_copied rest.entry)) }
{
    let words = Words::new(rest);
    write_by_words! { word, command, [Command::Work, Work::Tells];
        b"report", () in words.end(()) => TellCommand::Report,
        b"stat", () in words.end(()) => TellCommand::Stat,
        b"buffer", number in words.only_number() => TellCommand::Buffer(number),
    }
}

/// Tries one part of the table behind another, up to the first that the line is in.
macro_rules! first_of {
    ($word:expr, $rest:expr, $command:expr; $($read:ident),* $(,)?) => {{
        $(
            if $read($word, $rest, $command) {
                return;
            }
        )*
        *$command = None;
    }};
}

/// Writes the command of a line's words, the first of which is `word`, of `N` bytes, where it is in the table.
///
/// For each length there is code of its own, with just the rows of that length.
#[inline(never)]
fn read_sized<'a, const N: usize>(
    word: &[u8],
    rest: Option<&'a [u8]>,
    command: &mut Option<Command<'a>>,
)
    requires { length word.now ≡ N }
    ensures { command.new ≡ look_up table word.now (words_in (option_copied rest.entry)) }
{
    let word = &word[..N];
    first_of! { word, rest, command; read_transaction, read_item, read_context, read_chunk, read_lock, read_snapshot, read_plan, read_portal, read_tell }
}

/// Writes the command of a line's words, the first of which is `word`, where it is in the table.
///
/// The lengths are those of the table's words: without one of them the proof fails.
fn read_listed<'a>(word: &[u8], rest: Option<&'a [u8]>, command: &mut Option<Command<'a>>)
    ensures { command.new ≡ look_up table word.now (words_in (option_copied rest.entry)) }
{
    match word.len() {
        3 => read_sized::<3>(word, rest, command),
        4 => read_sized::<4>(word, rest, command),
        5 => read_sized::<5>(word, rest, command),
        6 => read_sized::<6>(word, rest, command),
        7 => read_sized::<7>(word, rest, command),
        8 => read_sized::<8>(word, rest, command),
        9 => read_sized::<9>(word, rest, command),
        10 => read_sized::<10>(word, rest, command),
        14 => read_sized::<14>(word, rest, command),
        _ => *command = None,
    }
}

/// Writes the command of a text, where it is in the table.
pub(crate) fn read_command<'a>(text: &'a [u8], command: &mut Option<Command<'a>>)
    ensures value { command.new ≡ command_of (words_of text.now) }
    ensures in_range { IfSome command.new (λ command. IsInRange command) }
{
    let (word, rest) = split_word(text);
    read_listed(word, rest, command);
}
