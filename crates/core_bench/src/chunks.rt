//! Chunks of a memory context are taken and freed.
ghost use Rattle.std.specs.Prelude.{◌≡◌, ◌<◌, IfSome, OnOk, length};
ghost use Rattle.addr_space.specs.Footprint.{Agrees};
ghost use Rattle.any_ctx.specs.Kinds.{IsSlabSize};
ghost use Rattle.core_bench.specs.Held.{AreLive};
ghost use Rattle.any_ctx.specs.Contexts.{footprint};

use addr_space::{Addr, Space};
use any_ctx::{AnyCtx, CtxKind, SetBoxes};
use chunk_header::{CtxError, Stats};
use std::alloc::Global;

/// The kind of context that a word names, with chunks of a size.
fn kind_of(word: &str, size: u64) -> Option<CtxKind>
    ensures { IfSome result IsSlabSize }
{
    match word {
        "default" => Some(CtxKind::Default),
        "slab" if size >= 1 && size <= 1024 => Some(CtxKind::Slab(size as u32)),
        "generation" => Some(CtxKind::Generation),
        "bump" => Some(CtxKind::Bump),
        _ => None,
    }
}

/// Which chunk is freed.
#[derive(Clone, Copy)]
enum Order {
    Newest,
    Oldest,
}

/// The order that a word names.
fn order_of(word: &str) -> Option<Order> {
    match word {
        "newest" => Some(Order::Newest),
        "oldest" => Some(Order::Oldest),
        _ => None,
    }
}

/// What a line asks for.
#[derive(Clone, Copy)]
pub(crate) struct Plan {
    kind: CtxKind,
    size: u64,
    live: u64,
    pairs: u64,
    order: Order,
}

impl Plan {
    pub(crate) fn parse(line: &str) -> Option<Plan>
        ensures { IfSome result (λ plan. IsSlabSize plan.kind) }
    {
        let mut words = line.split(' ');
        if words.next()? != "chunks" {
            return None;
        }
        let word = words.next()?;
        let size = words.next()?.parse().ok()?;
        let live = words.next()?.parse().ok()?;
        let pairs = words.next()?.parse().ok()?;
        let order = order_of(words.next()?)?;
        let kind = kind_of(word, size)?;
        Some(Plan {
            kind,
            size,
            live,
            pairs,
            order,
        })
    }

    /// Takes one chunk more.
    fn take_one(
        self,
        context: &mut AnyCtx,
        space: &mut Space,
        chunks: &mut Vec<Addr>,
    ) -> Result<(), CtxError>
        requires agrees { Agrees (footprint context.old) space.old }
        requires held { AreLive (footprint context.old) self.size chunks.old.items }
        ensures agrees { OnOk result (Agrees (footprint context.new) space.new) }
        ensures held { OnOk result (AreLive (footprint context.new) self.size chunks.new.items) }
    {
        let at = context.alloc(space, self.size)?;
        if chunks.push(at).is_err() {
            return Err(CtxError::Memory);
        }
        Ok(())
    }

    /// Takes the first chunks.
    fn fill(
        self,
        context: &mut AnyCtx,
        space: &mut Space,
        chunks: &mut Vec<Addr>,
    ) -> Result<(), CtxError>
        requires agrees { Agrees (footprint context.old) space.old }
        requires held { AreLive (footprint context.old) self.size chunks.old.items }
        ensures agrees { OnOk result (Agrees (footprint context.new) space.new) }
        ensures held { OnOk result (AreLive (footprint context.new) self.size chunks.new.items) }
    {
        for _ in 0..self.live {
            self.take_one(context, space, chunks)?;
        }
        Ok(())
    }

    /// Takes a chunk and frees it.
    fn pair(self, context: &mut AnyCtx, space: &mut Space) -> Result<(), CtxError>
        requires { Agrees (footprint context.old) space.old }
        ensures { OnOk result (Agrees (footprint context.new) space.new) }
    {
        let at = context.alloc(space, self.size)?;
        match context.free(space, at) {
            Ok(()) | Err(CtxError::Unsupported) => Ok(()),
            Err(error) => Err(error),
        }
    }

    /// Takes chunks and frees each at once.
    fn pairs(self, context: &mut AnyCtx, space: &mut Space) -> Result<(), CtxError>
        requires { Agrees (footprint context.old) space.old }
        ensures { OnOk result (Agrees (footprint context.new) space.new) }
    {
        for _ in 0..self.pairs {
            self.pair(context, space)?;
        }
        Ok(())
    }

    /// Takes a chunk in the place of one that is freed.
    fn turn(
        self,
        context: &mut AnyCtx,
        space: &mut Space,
        chunks: &mut Vec<Addr>,
        index: usize,
    ) -> Result<(), CtxError>
        requires agrees { Agrees (footprint context.old) space.old }
        requires held { AreLive (footprint context.old) self.size chunks.old.items }
        requires within { index < length chunks.old.items }
        ensures agrees { OnOk result (Agrees (footprint context.new) space.new) }
        ensures held { OnOk result (AreLive (footprint context.new) self.size chunks.new.items) }
        ensures long { length chunks.new.items ≡ length chunks.old.items }
    {
        let at = context.alloc(space, self.size)?;
        let oldest = chunks[index];
        chunks[index] = at;
        context.free(space, oldest)
    }

    /// Takes chunks, each in the place of the oldest one.
    fn turns(
        self,
        context: &mut AnyCtx,
        space: &mut Space,
        chunks: &mut Vec<Addr>,
    ) -> Result<(), CtxError>
        requires agrees { Agrees (footprint context.old) space.old }
        requires held { AreLive (footprint context.old) self.size chunks.old.items }
        ensures { OnOk result (Agrees (footprint context.new) space.new) }
    {
        let mut index = 0;
        for _ in 0..self.pairs {
            if index >= chunks.len() {
                index = 0;
            }
            if index < chunks.len() {
                self.turn(context, space, chunks, index)?;
                index += 1;
            }
        }
        Ok(())
    }

    /// Does what the line asks for in a new context.
    fn work(self, alloc: Global, context: &mut AnyCtx, space: &mut Space) -> Result<(), CtxError>
        requires agrees { Agrees (footprint context.old) space.old }
    {
        let mut chunks = Vec::new(alloc);
        self.fill(context, space, &mut chunks)?;
        match self.order {
            Order::Newest => self.pairs(context, space),
            Order::Oldest => self.turns(context, space, &mut chunks),
        }
    }

    pub(crate) fn run(self, alloc: Global) -> Result<Stats, CtxError>
        requires { IsSlabSize self.kind }
    {
        let Ok(mut space) = Space::new(alloc, 1, u64::MAX) else {
            return Err(CtxError::Memory);
        };
        let mut context = AnyCtx::create(
            alloc,
            &mut SetBoxes::new(alloc),
            &mut space,
            0,
            1,
            self.kind,
        )?;
        self.work(alloc, &mut context, &mut space)?;
        Ok(context.stats())
    }
}
