//! The open files.
ghost use Rattle.std.specs.Prelude.{◌≡◌, ◌≢◌, ◌↔◌, ◌<◌, ◌≤◌, ◌++◌, ◌∷◌, [], length, count_by, nat_eq, if◌then◌else◌, ℕ, List, ◌==◌, false, IsTrue, IfOk, IfErr, OnOk, OnErr};
ghost use Rattle.file_table.specs.Descriptors.{is_among};
ghost use Rattle.file_table.specs.Files.{given_events};

use crate::descriptors::Descriptors;
use crate::opened::OpenedFiles;
use pgs_step::{Emit, What};
use std::alloc::Global;
use std::marker::Model;
use std::num::NonZeroUsize;
use thiserror::Error;

/// The most files that a session has open at once.
pub const MAX_FILES: usize = 4096;

/// Why a call on files failed.
#[derive(Clone, Copy, Debug, PartialEq, Eq, Error)]
pub enum FileError {
    /// The file is open.
    #[error("the file is open")]
    Taken,
    /// The session has 4,096 files open.
    #[error("too many files")]
    TooMany,
    /// The file isn't open.
    #[error("the file is not open")]
    NoFile,
    /// Memory was refused.
    #[error("no memory")]
    Memory,
}

/// The files that one session has open: PostgreSQL's `VfdCache`.
///
/// A file keeps its place when it loses its descriptor to another one, and gets one again when it is used.
/// Contracts see how many descriptors there are, the open files in the order in which they were opened, and
/// those that have a descriptor, the most recently used first. After `new`, only `open_file` and `touch` may
/// take memory, and they take it before they emit anything.
#[derive(Drop)]
pub struct FileTable {
    opened: OpenedFiles,
    descriptors: Descriptors,
}

impl Model for FileTable {
    ghost use Rattle.file_table.specs.Files.{Files, IsSound};

    ghost Value = { Files };

    ghost view = { λ t. record { descriptors = t.descriptors.limit; opened = t.opened.files; recent = t.descriptors.recent } };

    ghost invariant = { λ t. IsSound (record { descriptors = t.descriptors.limit; opened = t.opened.files; recent = t.descriptors.recent }) };
}

impl FileTable {
    ghost use Rattle.std.specs.Set.{distinct_count};
    ghost use Rattle.file_table.specs.Files.{IsSound, opens, OpensOneMore, OpensOneLess, opened_file, touched_file, closed_file, opening_events, touch_events, closing_events};

    /// No open file, and this many descriptors, of which there is at least one. It fails for want of memory
    /// alone.
    pub fn new(alloc: Global, descriptors: u8) -> Result<FileTable, FileError>
        requires { 0 < descriptors }
        ensures made { IfOk result (λ table. table ≡ record { descriptors = descriptors; opened = []; recent = [] }) }
        ensures memory { IfErr result (λ error. error ≡ FileError.Memory) }
    {
        let limit = NonZeroUsize::new(usize::from(descriptors)).unwrap();
        match Descriptors::new(alloc, limit) {
            Ok(descriptors) => Ok(FileTable {
                opened: OpenedFiles::new(alloc),
                descriptors,
            }),
            Err(_) => Err(FileError::Memory),
        }
    }

    /// Opens a file and gives it a descriptor. Where all are used, the file that was used least recently loses
    /// its one first.
    ///
    /// It answers `Taken` exactly where the file is open, and else `TooMany` exactly where 4,096 files are.
    pub fn open_file<E: Emit>(&mut self, file: u32, out: &mut E) -> Result<(), FileError>
        ensures opened { OnOk result (self.new ≡ opened_file file self.old) }
        ensures counts { OnOk result (OpensOneMore self.old self.new file) }
        ensures events { OnOk result (E.emits out.old (opening_events file self.old) out.new) }
        ensures taken { (result ≡ Err FileError.Taken) ↔ IsTrue (is_among file self.old.opened) }
        ensures too_many { (result ≡ Err FileError.TooMany) ↔ ((is_among file self.old.opened ≡ false) × (length self.old.opened ≡ 4096)) }
        ensures no_other { result ≢ Err FileError.NoFile }
        ensures err { OnErr result (self.new ≡ self.old) }
        ensures silent { OnErr result (out.new ≡ out.old) }
    {
        if self.is_open(file) {
            return Err(FileError::Taken);
        }
        if self.opened.len() == MAX_FILES {
            return Err(FileError::TooMany);
        }
        if self.opened.reserve().is_err() {
            return Err(FileError::Memory);
        }
        match self.descriptors.give(file) {
            Ok(closed) => {
                self.opened.push(file);
                tell_given(closed, file, out);
                Ok(())
            }
            Err(_) => Err(FileError::Memory),
        }
    }

    /// Uses an open file: it has a descriptor then, and is the most recently used one. Where it had none, it
    /// gets one as when it was opened.
    ///
    /// It answers `NoFile` exactly where the file isn't open.
    pub fn touch<E: Emit>(&mut self, file: u32, out: &mut E) -> Result<(), FileError>
        ensures touched { OnOk result (self.new ≡ touched_file file self.old) }
        ensures open { self.new.opened ≡ self.old.opened }
        ensures events { OnOk result (E.emits out.old (touch_events file self.old) out.new) }
        ensures no_file { (result ≡ Err FileError.NoFile) ↔ (is_among file self.old.opened ≡ false) }
        ensures no_other { (result ≢ Err FileError.Taken) × (result ≢ Err FileError.TooMany) }
        ensures err { OnErr result (self.new ≡ self.old) }
        ensures silent { OnErr result (out.new ≡ out.old) }
    {
        if !self.is_open(file) {
            return Err(FileError::NoFile);
        }
        if self.descriptors.touch(file) {
            return Ok(());
        }
        match self.descriptors.give(file) {
            Ok(closed) => {
                tell_given(closed, file, out);
                Ok(())
            }
            Err(_) => Err(FileError::Memory),
        }
    }

    /// Closes a file, and its descriptor where it has one.
    ///
    /// It answers `NoFile` exactly where the file isn't open.
    pub fn close_file<E: Emit>(&mut self, file: u32, out: &mut E) -> Result<(), FileError>
        ensures closed { OnOk result (self.new ≡ closed_file file self.old) }
        ensures counts { OnOk result (OpensOneLess self.old self.new file) }
        ensures events { OnOk result (E.emits out.old (closing_events file self.old) out.new) }
        ensures no_file { (result ≡ Err FileError.NoFile) ↔ (is_among file self.old.opened ≡ false) }
        ensures no_other { IfErr result (λ error. error ≡ FileError.NoFile) }
        ensures err { OnErr result (self.new ≡ self.old) }
        ensures silent { OnErr result (out.new ≡ out.old) }
    {
        if !self.opened.remove(file) {
            return Err(FileError::NoFile);
        }
        if self.descriptors.take_back(file) {
            out.emit(What::DescriptorClosed(file));
        }
        Ok(())
    }

    /// Whether the file is open.
    pub fn is_open(&self, file: u32) -> bool
        ensures { result ≡ is_among file self.now.opened }
    {
        self.opened.contains(file)
    }

    /// Facts of every table, for proofs. It does nothing.
    pub fn laws(&self)
        ensures sound { IsSound self.now }
        // a file is open exactly where it counts, and it counts once then
        ensures open { (file : ℕ) → opens self.now file ≡ (if is_among file self.now.opened then 1 else 0) }
        // of any list of the open files, the number of different ones
        ensures different { (files : List ℕ) → ((file : ℕ) → is_among file files ≡ is_among file self.now.opened) → length self.now.opened ≡ distinct_count nat_eq files }
        // any list in which each file stands as often as it is open is as long
        ensures length { (files : List ℕ) → ((file : ℕ) → count_by (λ other. file == other) files ≡ opens self.now file) → length self.now.opened ≡ length files }
    {
        let _ = &self.opened;
    }

    /// How many files are open, and how many of them have a descriptor.
    pub fn counts(&self) -> (u64, u64)
        ensures opened { result.0 ≡ length self.now.opened }
        ensures recent { result.1 ≡ length self.now.recent }
        ensures sound { IsSound self.now }
    {
        (self.opened.len() as u64, self.descriptors.len() as u64)
    }
}

/// A file got a descriptor, and another one lost its one before.
fn tell_given<E: Emit>(closed: Option<u32>, file: u32, out: &mut E)
    ensures { E.emits out.old (given_events closed file) out.new }
{
    match closed {
        Some(other) => {
            out.emit(What::DescriptorClosed(other));
            out.emit(What::DescriptorOpened(file));
        }
        None => out.emit(What::DescriptorOpened(file)),
    }
}
