//! Names that are kept for the contexts of sessions.
use context_rules::is_reserved;
use pgs_step::Name;

/// Whether a name is reserved, where this word is one.
fn reserved(word: &[u8]) -> Option<bool> {
    let name = Name::new(word)?;
    Some(is_reserved(&name))
}

#[test]
fn ten_names_are_reserved(rt: HostRuntime) {
    let said = [
        reserved(b"TopMemoryContext"),
        reserved(b"CurTransactionContext"),
        reserved(b"CachedPlan"),
        reserved(b"CachedPlans"),
        reserved(b"HoldContext"),
    ];
    let yes = Some(true);
    let no = Some(false);
    assert!(rt; said == [yes, yes, yes, no, no]);
}
