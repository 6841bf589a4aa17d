//! Prints the events of sessions.
ghost use Rattle.std.specs.Prelude.{◌≡◌, ◌+◌, ◌≤◌, ◌-◌, ◌^◌, min, false, [], ◌∷◌, if◌then◌else◌};
ghost use Rattle.arrayvec.specs.ArrayVec.{array_vec_len};
ghost use Rattle.pgs_step.specs.Text.{text_of};
ghost use Rattle.pgs_step.specs.declared.events.What.TheVariants as a_what;
ghost use Rattle.pgs_world.specs.PrinterView.{TakesBytes, TakesEvents};
ghost use Rattle.session_rules.specs.Transcript.{is_error};

use arrayvec::ArrayVec;
use pgs_io::{Sink, put_all};
use pgs_step::{Emit, Error, Item, Mode, Name, What};
use pgs_text::{append_create, append_row, append_text};
use pgs_turns::Transcript;

/// How many bytes are gathered before they are handed to the sink.
const GATHERED: usize = 8192;

/// So many or fewer are cleared at once.
const PIECE: usize = 1024;

/// The most bytes of a line of the transcript.
const LINE: usize = 512;

/// Prints the events of sessions into a sink, of one session at a time, with these names of the extension kinds.
///
/// Its output is gathered: the sink gets it when `GATHERED` bytes are full and when `flush` is called. Once
/// a write has failed nothing is written any more. The count of ERROR events stays at 2^64 - 1 once it
/// would pass it.
#[derive(Drop)]
pub(crate) struct Printer<'a, K> {
    sink: &'a mut K,
    gathered: ArrayVec<u8, GATHERED>,
    failed: bool,
    errors: u64,
    session: u8,
    names: &'a [Name],
}

impl<'a, K: Sink> Printer<'a, K> {
    /// A printer for the events of session 1, which has printed nothing.
    pub(crate) fn new(sink: &'a mut K, names: &'a [Name]) -> Printer<'a, K>
        ensures same_sink { result.sink.ghost_name ≡ sink.entry.ghost_name }
        ensures sink { result.sink.now ≡ sink.old }
        ensures gathered { result.gathered.items ≡ [] }
        ensures failed { result.failed ≡ false }
        ensures errors { result.errors ≡ 0 }
        ensures names { result.names.now ≡ names.now }
    {
        Printer {
            sink,
            gathered: ArrayVec::new(),
            failed: false,
            errors: 0,
            session: 1,
            names,
        }
    }

    /// Whether a write has failed.
    pub(crate) fn has_failed(&self) -> bool
        ensures failed { result ≡ self.now.failed }
        ensures few { array_vec_len self.now.gathered ≤ GATHERED }
    {
        prove!(self.gathered.len() <= GATHERED);
        self.failed
    }

    /// How many ERROR events were printed.
    pub(crate) fn errors(&self) -> u64
        ensures { result ≡ self.now.errors }
    {
        self.errors
    }

    /// Hands all that is gathered to the sink. Most events don't come so far.
    #[inline(never)]
    pub(crate) fn flush(&mut self)
        ensures bytes { TakesBytes K.written K.faults self.old [] self.new }
        ensures emptied { self.new.failed ≡ false → self.new.gathered.items ≡ [] }
    {
        if self.failed {
            return;
        }
        match put_all(&mut *self.sink, self.gathered.as_slice()) {
            Ok(()) => clear_in_pieces(&mut self.gathered),
            Err(_) => self.failed = true,
        }
    }

    /// Makes room for a line, where no write has failed.
    #[inline(always)]
    fn make_room(&mut self)
        ensures bytes { TakesBytes K.written K.faults self.old [] self.new }
        ensures room { self.new.failed ≡ false → array_vec_len self.new.gathered + LINE ≤ GATHERED }
    {
        if self.gathered.len() > GATHERED - LINE {
            self.flush();
        }
    }

    /// Appends the line of what the session says where no write has failed.
    #[inline(always)]
    fn append(&mut self, what: &What)
        requires { self.old.failed ≡ false → array_vec_len self.old.gathered + LINE ≤ GATHERED }
        ensures { TakesBytes K.written K.faults self.old (text_of self.old.names.now (record { session = self.old.session; what = what.now })) self.new }
    {
        if !self.failed {
            append_text(self.session, what, self.names, &mut self.gathered);
        }
    }

    /// Gathers that line, which is handed on with what comes behind it.
    #[inline(always)]
    fn gather(&mut self, what: &What)
        ensures { TakesBytes K.written K.faults self.old (text_of self.old.names.now (record { session = self.old.session; what = what.now })) self.new }
    {
        self.make_room();
        self.append(what);
    }

    /// Appends the line of a context that was made where no write has failed. The name stays where it is.
    #[inline(always)]
    fn append_create(&mut self, context: u64, name: &Name, parent: u64)
        requires { self.old.failed ≡ false → array_vec_len self.old.gathered + LINE ≤ GATHERED }
        ensures { TakesBytes K.written K.faults self.old (text_of self.old.names.now (record { session = self.old.session; what = a_what.Create context name.now parent })) self.new }
    {
        if !self.failed {
            append_create(self.session, context, name, parent, &mut self.gathered);
        }
    }

    /// Gathers that line, which is handed on with what comes behind it.
    #[inline(always)]
    fn gather_create(&mut self, context: u64, name: &Name, parent: u64)
        ensures { TakesBytes K.written K.faults self.old (text_of self.old.names.now (record { session = self.old.session; what = a_what.Create context name.now parent })) self.new }
    {
        self.make_room();
        self.append_create(context, name, parent);
    }

    /// Appends the line of a row of a scan where no write has failed. The portal's name stays where it is.
    #[inline(always)]
    fn append_row(&mut self, portal: &Name, row: u32, value: u32)
        requires { self.old.failed ≡ false → array_vec_len self.old.gathered + LINE ≤ GATHERED }
        ensures { TakesBytes K.written K.faults self.old (text_of self.old.names.now (record { session = self.old.session; what = a_what.Row portal.now row value })) self.new }
    {
        if !self.failed {
            append_row(self.session, portal, row, value, &mut self.gathered);
        }
    }

    /// Gathers that line, which is handed on with what comes behind it.
    #[inline(always)]
    fn gather_row(&mut self, portal: &Name, row: u32, value: u32)
        ensures { TakesBytes K.written K.faults self.old (text_of self.old.names.now (record { session = self.old.session; what = a_what.Row portal.now row value })) self.new }
    {
        self.make_room();
        self.append_row(portal, row, value);
    }

    /// Prints an event, which stays where it is: `emit` would copy it.
    #[inline(never)]
    fn print(&mut self, what: &What)
        ensures { TakesEvents K.written K.faults self.old (what.now ∷ []) self.new }
    {
        self.print_here(what);
    }

    /// The same where it is called, so that the text of an event that is known there is all that is left of it.
    #[inline(always)]
    fn print_here(&mut self, what: &What)
        ensures { TakesEvents K.written K.faults self.old (what.now ∷ []) self.new }
    {
        self.count(what);
        self.gather(what);
    }

    /// Prints that a command ended well.
    #[inline(never)]
    fn print_ok(&mut self)
        ensures { TakesEvents K.written K.faults self.old (a_what.Ok ∷ []) self.new }
    {
        self.print_here(&What::Ok);
    }

    /// Prints that a level begins.
    #[inline(never)]
    fn print_begin(&mut self, level: u32)
        ensures { TakesEvents K.written K.faults self.old (a_what.BeginLevel level ∷ []) self.new }
    {
        self.print_here(&What::BeginLevel(level));
    }

    /// Prints that a level begins to commit.
    #[inline(never)]
    fn print_commit(&mut self, level: u32)
        ensures { TakesEvents K.written K.faults self.old (a_what.CommitLevel level ∷ []) self.new }
    {
        self.print_here(&What::CommitLevel(level));
    }

    /// Prints that a context was made.
    #[inline(never)]
    fn print_create(&mut self, context: u64, name: &Name, parent: u64)
        ensures { TakesEvents K.written K.faults self.old (a_what.Create context name.now parent ∷ []) self.new }
    {
        self.count(&What::Ok);
        self.gather_create(context, name, parent);
    }

    /// Prints that a context is deleted.
    #[inline(never)]
    fn print_delete(&mut self, context: u64)
        ensures { TakesEvents K.written K.faults self.old (a_what.Delete context ∷ []) self.new }
    {
        self.print_here(&What::Delete(context));
    }

    /// Prints that an owner without a parent was made.
    #[inline(never)]
    fn print_owner(&mut self, owner: u64)
        ensures { TakesEvents K.written K.faults self.old (a_what.Owner owner ∷ []) self.new }
    {
        self.print_here(&What::Owner(owner));
    }

    /// Prints that an owner was made below another one.
    #[inline(never)]
    fn print_owner_in(&mut self, owner: u64, parent: u64)
        ensures { TakesEvents K.written K.faults self.old (a_what.OwnerIn owner parent ∷ []) self.new }
    {
        self.print_here(&What::OwnerIn { owner, parent });
    }

    /// Prints that an owner was discarded.
    #[inline(never)]
    fn print_owner_gone(&mut self, owner: u64)
        ensures { TakesEvents K.written K.faults self.old (a_what.OwnerGone owner ∷ []) self.new }
    {
        self.print_here(&What::OwnerGone(owner));
    }

    /// Prints that an owner remembers an item.
    #[inline(never)]
    fn print_acquire(&mut self, item: Item, owner: u64)
        ensures { TakesEvents K.written K.faults self.old (a_what.Acquire item owner ∷ []) self.new }
    {
        self.print_here(&What::Acquire { item, owner });
    }

    /// Prints that an item of an owner was forgotten or released.
    #[inline(never)]
    fn print_release(&mut self, item: Item, owner: u64)
        ensures { TakesEvents K.written K.faults self.old (a_what.Release item owner ∷ []) self.new }
    {
        self.print_here(&What::Release { item, owner });
    }

    /// Prints that a level begins to abort.
    #[inline(never)]
    fn print_abort(&mut self, level: u32)
        ensures { TakesEvents K.written K.faults self.old (a_what.AbortLevel level ∷ []) self.new }
    {
        self.print_here(&What::AbortLevel(level));
    }

    /// Prints that an aborted level is cleaned up.
    #[inline(never)]
    fn print_cleanup(&mut self, level: u32)
        ensures { TakesEvents K.written K.faults self.old (a_what.CleanupLevel level ∷ []) self.new }
    {
        self.print_here(&What::CleanupLevel(level));
    }

    /// Prints that a context was reset.
    #[inline(never)]
    fn print_reset(&mut self, context: u64)
        ensures { TakesEvents K.written K.faults self.old (a_what.Reset context ∷ []) self.new }
    {
        self.print_here(&What::Reset(context));
    }

    /// Prints that an owner got another parent.
    #[inline(never)]
    fn print_owner_move(&mut self, owner: u64, parent: u64)
        ensures { TakesEvents K.written K.faults self.old (a_what.MoveOwner owner parent ∷ []) self.new }
    {
        self.print_here(&What::MoveOwner { owner, parent });
    }

    /// Prints that an item was still remembered at commit.
    #[inline(never)]
    fn print_not_closed(&mut self, item: Item, owner: u64)
        ensures { TakesEvents K.written K.faults self.old (a_what.NotClosed item owner ∷ []) self.new }
    {
        self.print_here(&What::NotClosed { item, owner });
    }

    /// Prints that an owner holds a lock once more.
    #[inline(never)]
    fn print_lock(&mut self, object: u32, mode: Mode, owner: u64)
        ensures { TakesEvents K.written K.faults self.old (a_what.AcquireLock object mode owner ∷ []) self.new }
    {
        self.print_here(&What::AcquireLock {
            object,
            mode,
            owner,
        });
    }

    /// Prints that an owner holds a lock so many times fewer.
    #[inline(never)]
    fn print_unlock(&mut self, object: u32, mode: Mode, count: u64, owner: u64)
        ensures { TakesEvents K.written K.faults self.old (a_what.ReleaseLock object mode count owner ∷ []) self.new }
    {
        self.print_here(&What::ReleaseLock {
            object,
            mode,
            count,
            owner,
        });
    }

    /// Prints that an owner's counts of a lock went to its parent.
    #[inline(never)]
    fn print_pass_lock(&mut self, object: u32, mode: Mode, count: u64, from: u64, to: u64)
        ensures { TakesEvents K.written K.faults self.old (a_what.PassLock object mode count from to ∷ []) self.new }
    {
        self.print_here(&What::PassLock {
            object,
            mode,
            count,
            from,
            to,
        });
    }

    /// Prints a row of a scan.
    #[inline(never)]
    fn print_row(&mut self, portal: &Name, row: u32, value: u32)
        ensures { TakesEvents K.written K.faults self.old (a_what.Row portal.now row value ∷ []) self.new }
    {
        self.count(&What::Ok);
        self.gather_row(portal, row, value);
    }

    /// Prints how many rows a fetch gave.
    #[inline(never)]
    fn print_fetched(&mut self, portal: &Name, rows: u32)
        ensures { TakesEvents K.written K.faults self.old (a_what.Fetched portal.now rows ∷ []) self.new }
    {
        self.print_here(&What::Fetched {
            portal: *portal,
            rows,
        });
    }

    /// Prints that a command failed.
    #[inline(never)]
    fn print_error(&mut self, error: Error)
        ensures { TakesEvents K.written K.faults self.old (a_what.Error error ∷ []) self.new }
    {
        self.print(&What::Error(error));
    }

    /// Counts the event where it is an ERROR event.
    #[inline(always)]
    fn count(&mut self, what: &What)
        ensures { self.new ≡ record self.old { errors = min (self.old.errors + (if is_error what.now then 1 else 0)) (2 ^ 64 - 1) } }
    {
        if is_error(what) {
            self.errors = self.errors.saturating_add(1);
        } else {
            self.errors = self.errors.saturating_add(0);
        }
    }
}

/// Clears the bytes, a quarter at a time while they are many.
///
/// They are blanked, and a long stretch would be filled by an instruction that takes a step for each byte.
fn clear_in_pieces(bytes: &mut ArrayVec<u8, GATHERED>)
    ensures { bytes.new.items ≡ [] }
{
    while bytes.len() > PIECE {
        bytes.truncate(bytes.len() / 4 * 3);
    }
    bytes.clear();
}

fn is_error(what: &What) -> bool
    ensures { result ≡ is_error what.now }
{
    matches!(what, What::Error(_))
}

impl<'a, K: Sink> Emit for Printer<'a, K> {
    ghost use Rattle.pgs_world.specs.PrinterView.{TakesEvents};
    ghost use Rattle.pgs_world.specs.PrinterLaws.{TakesEvents-none, TakesEvents-more};

    ghost emits = { TakesEvents K.written K.faults };

    // Where an event is made, its kind is known, and of this only the arm of that kind is left: its parts are handed on, and the
    // event itself, which is large, is never put together.
    #[inline(always)]
    fn emit(&mut self, what: What) {
        match what {
            What::Ok => self.print_ok(),
            What::BeginLevel(level) => self.print_begin(level),
            What::CommitLevel(level) => self.print_commit(level),
            What::AbortLevel(level) => self.print_abort(level),
            What::CleanupLevel(level) => self.print_cleanup(level),
            What::Create {
                context,
                name,
                parent,
            } => self.print_create(context, &name, parent),
            What::Reset(context) => self.print_reset(context),
            What::Delete(context) => self.print_delete(context),
            What::Owner(owner) => self.print_owner(owner),
            What::OwnerIn { owner, parent } => self.print_owner_in(owner, parent),
            What::MoveOwner { owner, parent } => self.print_owner_move(owner, parent),
            What::OwnerGone(owner) => self.print_owner_gone(owner),
            What::Acquire { item, owner } => self.print_acquire(item, owner),
            What::Release { item, owner } => self.print_release(item, owner),
            What::NotClosed { item, owner } => self.print_not_closed(item, owner),
            What::AcquireLock {
                object,
                mode,
                owner,
            } => self.print_lock(object, mode, owner),
            What::ReleaseLock {
                object,
                mode,
                count,
                owner,
            } => self.print_unlock(object, mode, count, owner),
            What::PassLock {
                object,
                mode,
                count,
                from,
                to,
            } => self.print_pass_lock(object, mode, count, from, to),
            What::Row { portal, row, value } => self.print_row(&portal, row, value),
            What::Fetched { portal, rows } => self.print_fetched(&portal, rows),
            What::Error(error) => self.print_error(error),
            _ => self.print(&what),
        }
    }

    ghost emits_none = { TakesEvents-none K.written K.faults };

    ghost emits_more = { TakesEvents-more K.written K.faults };
}

impl<'a, K: Sink> Transcript for Printer<'a, K> {
    ghost use Rattle.pgs_world.specs.PrinterView.{ShowsEvents};
    ghost use Rattle.pgs_world.specs.PrinterLaws.{ShowsEvents-none, ShowsEvents-both};

    ghost shows = { ShowsEvents K.written K.faults };

    fn turn_to(&mut self, session: u8) {
        self.session = session;
    }

    ghost shows_none = { ShowsEvents-none K.written K.faults };

    ghost shows_both = { ShowsEvents-both K.written K.faults };
}
