//! The order in which the open files were opened.
ghost use Rattle.std.specs.Prelude.{◌≡◌, ℕ, List, [], ◌∷◌, ◌++◌};
ghost use base.Fml.{ftrue};
ghost use Rattle.file_table.specs.Descriptors.{without as files_without};
ghost use Rattle.file_table.specs.Code.{files_code};

use std::marker::{Model, PhantomData};

/// How the files are read off a value.
pub trait Tells<X> {
    ghost told: { X → List ℕ };
}

/// The open files in the order in which they were opened. It takes no memory and owns none: it says what the clauses of
/// its owner tell.
pub struct OpeningOrder {
    marker: PhantomData<()>,
    pub ghost files: { List ℕ } by { files_code },
}

impl Model for OpeningOrder {
    ghost also_owns = { λ _. ftrue };
}

impl OpeningOrder {
    #[inline(always)]
    fn of<X, M: Tells<X>>(x: &X) -> OpeningOrder
        ensures { result.files ≡ M.told x.now }
    {
        let _ = x;
        OpeningOrder {
            marker: PhantomData,
        }
    }
}

impl Drop for OpeningOrder {
    #[inline(always)]
    fn drop(self) {
        let Self { marker: _ } = self;
    }
}

// No file.
#[derive(Drop)]
struct Nothing {
    none: bool,
}

// One more file, behind the others.
#[derive(Drop)]
struct Opened<'a> {
    order: &'a OpeningOrder,
    file: u32,
}

// A file goes.
#[derive(Drop)]
struct Closed<'a> {
    order: &'a OpeningOrder,
    file: u32,
}

struct Rule;

impl Tells<Nothing> for Rule {
    ghost told = { λ _. [] };
}

impl<'a> Tells<Opened<'a>> for Rule {
    ghost told = { λ o. o.order.now.files ++ o.file ∷ [] };
}

impl<'a> Tells<Closed<'a>> for Rule {
    ghost told = { λ c. files_without c.file c.order.now.files };
}

impl OpeningOrder {
    /// No file.
    #[inline(always)]
    pub fn none() -> OpeningOrder
        ensures { result.files ≡ [] }
    {
        OpeningOrder::of::<Nothing, Rule>(&Nothing { none: true })
    }

    /// With one more file, behind the others.
    #[inline(always)]
    pub fn with(&self, file: u32) -> OpeningOrder
        ensures { result.files ≡ self.now.files ++ file ∷ [] }
    {
        let order = self;
        OpeningOrder::of::<Opened, Rule>(&Opened { order, file })
    }

    /// Without a file.
    #[inline(always)]
    pub fn but(&self, file: u32) -> OpeningOrder
        ensures { result.files ≡ files_without file self.now.files }
    {
        let order = self;
        OpeningOrder::of::<Closed, Rule>(&Closed { order, file })
    }
}
