//! What all chunks of a context are.
ghost use Rattle.std.specs.Prelude.{◌≡◌};
ghost use base.Fml.{ftrue};
ghost use Rattle.forest.specs.Forest.{Forest, Empty, Node, changed, removed};
ghost use Rattle.context_node.specs.declared.entry.Entry.{Entry as Chunk};
ghost use Rattle.context_node.specs.Code.{entries_code};

use crate::entry::Entry;
use std::marker::{Model, PhantomData};

/// How the chunks are read off a value.
pub trait Tells<X> {
    ghost told: { X → Forest Chunk };
}

/// The chunks of a context, with a name or without one, by their numbers. It takes no memory and owns none: it says what
/// the clauses of its owner tell.
pub struct AllChunks {
    marker: PhantomData<()>,
    pub ghost entries: { Forest Chunk } by { entries_code },
}

impl Model for AllChunks {
    ghost also_owns = { λ _. ftrue };
}

impl AllChunks {
    #[inline(always)]
    fn of<X, M: Tells<X>>(x: &X) -> AllChunks
        ensures { result.entries ≡ M.told x.now }
    {
        let _ = x;
        AllChunks {
            marker: PhantomData,
        }
    }
}

impl Drop for AllChunks {
    #[inline(always)]
    fn drop(self) {
        let Self { marker: _ } = self;
    }
}

// No chunk.
#[derive(Drop)]
struct Nothing {
    none: bool,
}

// One more chunk, in front of the others.
#[derive(Drop)]
struct Put<'a> {
    chunks: &'a AllChunks,
    number: u64,
    entry: &'a Entry,
}

// The chunk of a number is another one.
#[derive(Drop)]
struct Changed<'a> {
    chunks: &'a AllChunks,
    number: u64,
    entry: &'a Entry,
}

// The chunk of a number goes.
#[derive(Drop)]
struct Removed<'a> {
    chunks: &'a AllChunks,
    number: u64,
}

struct Rule;

impl Tells<Nothing> for Rule {
    ghost told = { λ _. Empty };
}

impl<'a> Tells<Put<'a>> for Rule {
    ghost told = { λ p. Node p.number p.entry.now Empty p.chunks.now.entries };
}

impl<'a> Tells<Changed<'a>> for Rule {
    ghost told = { λ c. changed c.number (λ _. c.entry.now) c.chunks.now.entries };
}

impl<'a> Tells<Removed<'a>> for Rule {
    ghost told = { λ r. removed r.number r.chunks.now.entries };
}

impl AllChunks {
    /// No chunk.
    #[inline(always)]
    pub fn none() -> AllChunks
        ensures { result.entries ≡ Empty }
    {
        AllChunks::of::<Nothing, Rule>(&Nothing { none: true })
    }

    /// With one more chunk, in front of the others.
    #[inline(always)]
    pub fn with(&self, number: u64, entry: &Entry) -> AllChunks
        ensures { result.entries ≡ Node number entry.now Empty self.now.entries }
    {
        let chunks = self;
        AllChunks::of::<Put, Rule>(&Put {
            chunks,
            number,
            entry,
        })
    }

    /// With another chunk of a number.
    #[inline(always)]
    pub fn changed(&self, number: u64, entry: &Entry) -> AllChunks
        ensures { result.entries ≡ changed number (λ _. entry.now) self.now.entries }
    {
        let chunks = self;
        AllChunks::of::<Changed, Rule>(&Changed {
            chunks,
            number,
            entry,
        })
    }

    /// Without the chunk of a number.
    #[inline(always)]
    pub fn without(&self, number: u64) -> AllChunks
        ensures { result.entries ≡ removed number self.now.entries }
    {
        let chunks = self;
        AllChunks::of::<Removed, Rule>(&Removed { chunks, number })
    }
}
