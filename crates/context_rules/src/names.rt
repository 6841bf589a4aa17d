//! The names of contexts that sessions keep for their own.
ghost use Rattle.std.specs.Prelude.{◌≡◌};
ghost use Rattle.context_rules.specs.Names as names;

use pgs_step::Name;

/// Whether a name is kept for the contexts that sessions make themselves, so that no other one may have it.
#[tactic(auto, unfolding(crate::specs::Names::is_reserved))]
pub fn is_reserved(name: &Name) -> bool
    ensures { result ≡ names.is_reserved name.now }
{
    let word = name.as_slice();
    is_of_the_process(word) || (is_of_a_transaction(word) || is_of_a_portal(word))
}

fn is_of_the_process(word: &[u8]) -> bool
    ensures { result ≡ names.is_among word.now names.of_the_process }
{
    word == b"TopMemoryContext".as_slice()
        || (word == b"ErrorContext".as_slice() || word == b"CacheMemoryContext".as_slice())
}

fn is_of_a_transaction(word: &[u8]) -> bool
    ensures { result ≡ names.is_among word.now names.of_a_transaction }
{
    word == b"TopTransactionContext".as_slice()
        || (word == b"CurTransactionContext".as_slice()
            || word == b"TransactionAbortContext".as_slice())
}

fn is_of_a_portal(word: &[u8]) -> bool
    ensures { result ≡ names.is_among word.now names.of_a_portal }
{
    (word == b"TopPortalContext".as_slice() || word == b"PortalContext".as_slice())
        || (word == b"ExprContext".as_slice() || word == b"CachedPlan".as_slice())
}
