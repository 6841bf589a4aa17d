//! What a run lends to its sessions.
use crate::calls::Calls;
use addr_space::Space;
use owner_kinds::ExtKind;
use reset_callbacks::{ResetHook, Shelf};
use session_owners::Commons;

/// What a run lends to a session for one call.
pub struct Shared<'a, H: ResetHook, K: ExtKind> {
    /// The space that the blocks of contexts are in.
    pub space: &'a mut Space,
    /// The hooks that don't wait in a session.
    pub shelf: &'a mut Shelf<H>,
    /// The extension kinds, and who holds which lock.
    pub commons: &'a mut Commons<K>,
    /// The fallible calls of the run.
    pub calls: &'a mut Calls,
}
