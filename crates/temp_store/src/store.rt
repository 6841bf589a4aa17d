//! Files by their numbers, and the limit on what they hold together.
ghost use Rattle.std.specs.Prelude.{◌≡◌, ◌≢◌, ℕ, ◌+◌, ◌<◌, ◌≤◌, ◌↔◌, ◌++◌, [], length, take, drop, Err, Some, None, IfOk, OnOk, OnErr, IfSome, IfNone, slice_index_or};
ghost use Rattle.std.specs.Option.{SomeIff};
ghost use Rattle.temp_store.specs.Temp.{Temp, Changes, IsFile, file_at, bytes_of, held, risen};

use crate::file::File;
use slab::Slab;
use std::alloc::{AllocError, Global};
use std::marker::Model;
use thiserror::Error;

/// Why bytes could not be appended.
#[derive(Clone, Copy, PartialEq, Eq, Debug, Error)]
pub enum TempError {
    /// The files would hold more than the limit. It comes before `Memory`.
    #[error("temporary files are full")]
    Full,
    /// There is no memory.
    #[error("no memory")]
    Memory,
}

// What the files hold with `more` bytes, where that is within the limit.
fn within(limit: u64, held: u64, more: u64) -> Option<u64>
    requires { held ≤ limit }
    ensures { SomeIff result (held + more ≤ limit) (held + more) }
{
    if more <= limit - held {
        Some(held + more)
    } else {
        None
    }
}

// Stores a file under a number that had none, or drops it where there is no memory.
fn admit(files: &mut Slab<File>, file: File) -> Option<u32>
    ensures fresh { IfSome result (λ number. slice_index_or files.old.slots number None ≡ None) }
    ensures stored { IfSome result (λ number. slice_index_or files.new.slots number None ≡ Some file) }
    ensures others { IfSome result (λ number. (other : ℕ) → other ≢ number → slice_index_or files.new.slots other None ≡ slice_index_or files.old.slots other None) }
    ensures none { IfNone result (files.new.slots ≡ files.old.slots) }
{
    if files.reserve(1).is_err() {
        return None;
    }
    let number = u32::try_from(files.vacant_key()).ok()?;
    files.insert_reserved(file);
    Some(number)
}

/// Temporary files, which lie in memory, with a limit on the bytes that they hold together: the files that PostgreSQL's
/// buffile.c writes, under its `temp_file_limit`.
///
/// Contracts see the bytes of each live file by its number, and what was written. The number of a file may be used
/// again once the file was dropped. `make` and `append` may take memory, and no other call does.
#[derive(Drop)]
pub struct TempStore {
    alloc: Global,
    files: Slab<File>,
    held: u64,
    written: u64,
    limit: u64,
}

impl Model for TempStore {
    ghost use Rattle.temp_store.specs.Temp.{Temp, IsSound};

    ghost Value = { Temp };

    ghost view = { λ s. record { files = s.files.slots; written = s.written; limit = s.limit } };

    ghost invariant = { λ s. IsSound s.files.slots s.held s.limit };
}

impl TempStore {
    /// A store without files, whose files may hold `limit` bytes together.
    pub fn new(alloc: Global, limit: u64) -> TempStore
        ensures { result ≡ record { files = []; written = 0; limit = limit } }
    {
        TempStore {
            alloc,
            files: Slab::new(alloc),
            held: 0,
            written: 0,
            limit,
        }
    }

    /// Makes a file without bytes, and answers its number. It fails for want of memory alone, and changes nothing then.
    pub fn make(&mut self) -> Result<u32, AllocError>
        ensures fresh { IfOk result (λ file. file_at self.old file ≡ None) }
        ensures changes { IfOk result (λ file. Changes self.old self.new file (Some [])) }
        ensures held { OnOk result (held self.new ≡ held self.old) }
        ensures written { OnOk result (self.new.written ≡ self.old.written) }
        ensures err { OnErr result (self.new ≡ self.old) }
    {
        let Some(file) = admit(&mut self.files, File::empty(self.alloc)) else {
            return Err(AllocError);
        };
        Ok(file)
    }

    /// Puts bytes behind those that a file has.
    ///
    /// `Full` comes exactly where the files would hold more than the limit, and before `Memory`. A refused call changes
    /// nothing.
    pub fn append(&mut self, file: u32, bytes: &[u8]) -> Result<(), TempError>
        requires { IsFile self.old file }
        ensures changes { OnOk result (Changes self.old self.new file (Some (bytes_of (file_at self.old file) ++ bytes.now))) }
        ensures held { OnOk result (held self.new ≡ held self.old + length bytes.now) }
        ensures written { OnOk result (self.new.written ≡ risen self.old.written (length bytes.now)) }
        ensures full { (result ≡ Err TempError.Full) ↔ (self.old.limit < held self.old + length bytes.now) }
        ensures err { OnErr result (self.new ≡ self.old) }
    {
        let more = bytes.len() as u64;
        let Some(held) = within(self.limit, self.held(), more) else {
            return Err(TempError::Full);
        };
        let Ok(()) = self.files[file as usize].append(bytes) else {
            return Err(TempError::Memory);
        };
        self.held = held;
        self.written = self.written.saturating_add(more);
        Ok(())
    }

    /// Reads as many bytes of a file as `out` has, from place `at` on.
    pub fn read(&self, file: u32, at: u64, out: &mut [u8])
        requires live { IsFile self.now file }
        requires inside { at + length out.old ≤ length (bytes_of (file_at self.now file)) }
        ensures { out.new ≡ take (length out.old) (drop at (bytes_of (file_at self.now file))) }
    {
        self.files[file as usize].read(at as usize, out);
    }

    /// How many bytes a file has.
    pub fn len(&self, file: u32) -> u64
        requires { IsFile self.now file }
        ensures { result ≡ length (bytes_of (file_at self.now file)) }
    {
        self.files[file as usize].len() as u64
    }

    /// Drops a file and gives its memory back. Its number may be used again.
    pub fn drop_file(&mut self, file: u32)
        requires { IsFile self.old file }
        ensures changes { Changes self.old self.new file None }
        ensures held { held self.new + length (bytes_of (file_at self.old file)) ≡ held self.old }
        ensures written { self.new.written ≡ self.old.written }
    {
        let gone = self.files.remove(file as usize);
        self.held -= gone.len() as u64;
    }

    /// How many bytes the files have together: no more than the limit.
    pub fn held(&self) -> u64
        ensures held { result ≡ held self.now }
        ensures most { result ≤ self.now.limit }
    {
        self.held
    }

    /// How many bytes were appended in all calls, or 2^64 - 1 where that is more.
    pub fn written(&self) -> u64
        ensures { result ≡ self.now.written }
    {
        self.written
    }
}
