//! The links by which free chunks lead to one another.
ghost use Rattle.std.specs.Prelude.{◌≡◌, Option};
ghost use Rattle.addr_space.specs.declared.Addr.{Addr};
ghost use Rattle.addr_space.specs.Space.{HasBytes};
ghost use Rattle.alloc_set.specs.State.{link_bytes};
ghost use Rattle.alloc_set.specs.Links.{IsLinkable};

use addr_space::{Addr, Space};
use chunk_header::{block_header, word_at};

/// The bytes by which a free chunk leads to the next one.
#[inline]
pub fn link_bytes(next: Option<Addr>) -> [u8; 8]
    ensures { result ≡ link_bytes next }
{
    match next {
        Some(next) => block_header(next.region, next.offset),
        None => block_header(0, 0),
    }
}

/// The next free chunk that a free chunk leads to.
#[inline]
pub fn next_at(space: &Space, at: Addr) -> Option<Addr>
    requires { (next : Option Addr) × IsLinkable next × HasBytes space.now at (link_bytes next) }
    ensures { (next : Option Addr) → IsLinkable next → HasBytes space.now at (link_bytes next) → result ≡ next }
{
    let word = word_at(space, at);
    let region = u32::from_le_bytes([word[0], word[1], word[2], word[3]]);
    let offset = u32::from_le_bytes([word[4], word[5], word[6], word[7]]);
    if offset == 0 {
        return None;
    }
    Some(Addr { region, offset })
}
