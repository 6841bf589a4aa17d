//! The kinds of contexts and the classes of references.
ghost use Rattle.std.specs.Prelude.{◌≡◌};
ghost use Rattle.pgs_command.specs.Kinds.{class_kind};

use pgs_step::KindId;

/// The kind of allocator that a script's context has.
#[derive(Clone, Copy, Debug, PartialEq, Eq)]
pub enum ContextKind {
    /// PostgreSQL's `AllocSet` of the default sizes.
    Default,
    /// An `AllocSet` of the small sizes.
    Small,
    /// A `Slab` of chunks of this many bytes, 1 to 1024.
    Slab(u32),
    /// A `Generation` context.
    Generation,
    /// A `Bump` context.
    Bump,
}

/// The caches whose entries are referenced by `ref` lines.
#[derive(Clone, Copy, Debug, PartialEq, Eq)]
pub enum ReferenceClass {
    /// `relcache`: the relation cache.
    Relcache,
    /// `catcache`: an entry of a catalog cache.
    Catcache,
    /// `catlist`: a list of a catalog cache.
    CatcacheList,
    /// `tupdesc`: a tuple descriptor.
    TupleDescriptor,
}

impl ReferenceClass {
    /// The kind of the items that such a reference is.
    pub fn kind(self) -> KindId
        ensures { result ≡ class_kind self }
    {
        match self {
            ReferenceClass::Relcache => KindId::RELCACHE_REFERENCE,
            ReferenceClass::Catcache => KindId::CATCACHE_REFERENCE,
            ReferenceClass::CatcacheList => KindId::CATCACHE_LIST_REFERENCE,
            ReferenceClass::TupleDescriptor => KindId::TUPLE_DESCRIPTOR_REFERENCE,
        }
    }
}
