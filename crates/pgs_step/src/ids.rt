//! The numbers that name contexts, owners, kinds and items.

/// A memory context of one session: PostgreSQL's `MemoryContext`.
///
/// `number` counts a session's contexts from 1 in the order in which they were made, and is the K of `cK`
/// in events. `slot` is where the tree keeps the context while it lives.
#[derive(Clone, Copy, Debug, PartialEq, Eq)]
pub struct CtxId {
    pub number: u64,
    pub slot: u32,
}

/// A resource owner of one session: PostgreSQL's `ResourceOwner`.
///
/// `number` counts a session's owners from 1 in the order in which they were made, and is the K of `oK` in
/// events. `slot` is where the tree keeps the owner while it lives.
#[derive(Clone, Copy, Debug, PartialEq, Eq)]
pub struct OwnerId {
    pub number: u64,
    pub slot: u32,
}

/// What sort of resource an item is: PostgreSQL's `ResourceOwnerDesc`.
///
/// 1 to 8 are built in, in this order: buffer pin, relcache reference, catcache reference, catcache list
/// reference, plan reference, tuple descriptor reference, snapshot reference, file. The extension kinds
/// that the program is given are 16, 17 and so on, in the order in which it is given them.
#[derive(Clone, Copy, Debug, Default, PartialEq, Eq)]
pub struct KindId(pub u8);

impl KindId {
    /// A pin of a shared buffer.
    pub const BUFFER_PIN: KindId = KindId(1);
    /// A reference to an entry of the relation cache.
    pub const RELCACHE_REFERENCE: KindId = KindId(2);
    /// A reference to an entry of a catalog cache.
    pub const CATCACHE_REFERENCE: KindId = KindId(3);
    /// A reference to a list of a catalog cache.
    pub const CATCACHE_LIST_REFERENCE: KindId = KindId(4);
    /// A reference to a cached plan.
    pub const PLAN_REFERENCE: KindId = KindId(5);
    /// A reference to a tuple descriptor.
    pub const TUPLE_DESCRIPTOR_REFERENCE: KindId = KindId(6);
    /// A registered snapshot.
    pub const SNAPSHOT_REFERENCE: KindId = KindId(7);
    /// An open temporary file.
    pub const FILE: KindId = KindId(8);
    /// The number of the first extension kind.
    pub const FIRST_EXTENSION: u8 = 16;
}

/// When the items of a kind are released at the end of a level: PostgreSQL's `ResourceReleasePhase`.
#[derive(Clone, Copy, Debug, PartialEq, Eq)]
pub enum Phase {
    BeforeLocks,
    Locks,
    AfterLocks,
}

/// A resource that an owner remembers: its kind, which of that kind it is, and its number in the order in
/// which the session acquired its items, from 1.
#[derive(Clone, Copy, Debug, Default, PartialEq, Eq)]
pub struct Item {
    pub kind: KindId,
    pub key: u32,
    pub serial: u64,
}
