//! The open files by their numbers.
ghost use Rattle.std.specs.Prelude.{◌≡◌, ◌<◌, [], ◌∷◌, ◌++◌, length, false, OnOk};
ghost use Rattle.std.specs.Bool.{OnFalse};
ghost use Rattle.file_table.specs.Descriptors.{is_among, without};

use crate::opening_order::OpeningOrder;
use std::alloc::{AllocError, Global};
use std::collections::HashSet;
use std::marker::Model;

/// The open files. A file is found by its number's hash. The order in which they were opened stands in the clauses
/// alone, since nothing asks for it.
#[derive(Drop)]
pub struct OpenedFiles {
    files: HashSet<u32>,
    order: OpeningOrder,
}

impl Model for OpenedFiles {
    ghost use Rattle.std.specs.HashSet.{spare};
    ghost use Rattle.file_table.specs.Kept.{KeptFiles, IsKept};
    ghost use Rattle.file_table.specs.Code.{kept_code};

    ghost Value = { KeptFiles };

    ghost coded = { kept_code };

    ghost view = { λ o. record { files = o.order.files; room = spare o.files } };

    ghost invariant = { λ o. IsKept o.files.keys o.order.files };
}

impl OpenedFiles {
    /// No file.
    pub fn new(alloc: Global) -> OpenedFiles
        ensures { result.files ≡ [] }
    {
        OpenedFiles {
            files: HashSet::new(alloc),
            order: OpeningOrder::none(),
        }
    }

    /// How many files are open.
    pub fn len(&self) -> usize
        ensures { result ≡ length self.now.files }
    {
        self.files.len()
    }

    /// Whether a file is open.
    #[inline(always)]
    pub fn contains(&self, file: u32) -> bool
        ensures { result ≡ is_among file self.now.files }
    {
        self.files.contains(&file)
    }

    /// Makes room for one more file. It fails for want of memory alone.
    pub fn reserve(&mut self) -> Result<(), AllocError>
        ensures files { self.new.files ≡ self.old.files }
        ensures room { OnOk result (0 < self.new.room) }
    {
        self.files.reserve(1)
    }

    /// Puts a file behind the others, in room that was made.
    pub fn push(&mut self, file: u32)
        requires room { 0 < self.old.room }
        requires new { is_among file self.old.files ≡ false }
        ensures { self.new.files ≡ self.old.files ++ file ∷ [] }
    {
        let order = self.order.with(file);
        let _ = self.files.insert(file);
        self.order = order;
    }

    /// Takes a file out, and says whether it was there.
    pub fn remove(&mut self, file: u32) -> bool
        ensures had { result ≡ is_among file self.old.files }
        ensures removed { self.new.files ≡ without file self.old.files }
        ensures kept { OnFalse result (self.new.files ≡ self.old.files) }
    {
        let order = self.order.but(file);
        let had = self.files.remove(&file);
        self.order = order;
        had
    }
}
