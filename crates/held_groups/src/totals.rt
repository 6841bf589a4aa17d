//! The total of a group, in its chunk.
ghost use Rattle.std.specs.Prelude.{◌≡◌, ℕ, map, Some};
ghost use Rattle.addr_space.specs.declared.Addr.{Addr};
ghost use Rattle.addr_space.specs.Space.{HasBytes, IsInside, Changes, region_at, overwritten};
ghost use Rattle.held_groups.specs.Totals.{IsTotal, total_bytes};

use addr_space::{Addr, Space};

// The 24 bytes of a total: a group, its count and its sum.
#[tactic(auto, unfolding(crate::specs::Totals::total_bytes))]
fn total_bytes(total: (u32, u64, u64)) -> [u8; 24]
    ensures { result ≡ total_bytes total }
{
    let group = u64::from(total.0).to_le_bytes();
    let count = total.1.to_le_bytes();
    let sum = total.2.to_le_bytes();
    [
        group[0], group[1], group[2], group[3], group[4], group[5], group[6], group[7], count[0],
        count[1], count[2], count[3], count[4], count[5], count[6], count[7], sum[0], sum[1],
        sum[2], sum[3], sum[4], sum[5], sum[6], sum[7],
    ]
}

// The total that 24 bytes stand for.
fn total_of(bytes: [u8; 24]) -> (u32, u64, u64)
    requires { (total : ℕ × ℕ × ℕ) × IsTotal total × (bytes ≡ total_bytes total) }
    ensures { (total : ℕ × ℕ × ℕ) → IsTotal total → bytes ≡ total_bytes total → result ≡ total }
{
    let group = u64::from_le_bytes([
        bytes[0], bytes[1], bytes[2], bytes[3], bytes[4], bytes[5], bytes[6], bytes[7],
    ]);
    let count = u64::from_le_bytes([
        bytes[8], bytes[9], bytes[10], bytes[11], bytes[12], bytes[13], bytes[14], bytes[15],
    ]);
    let sum = u64::from_le_bytes([
        bytes[16], bytes[17], bytes[18], bytes[19], bytes[20], bytes[21], bytes[22], bytes[23],
    ]);
    (group as u32, count, sum)
}

/// Reads the total that stands at an address.
pub fn total_at(space: &Space, at: Addr) -> (u32, u64, u64)
    requires { (total : ℕ × ℕ × ℕ) × IsTotal total × HasBytes space.now at (total_bytes total) }
    ensures { (total : ℕ × ℕ × ℕ) → IsTotal total → HasBytes space.now at (total_bytes total) → result ≡ total }
{
    let mut bytes = [0; 24];
    space.read(at, &mut bytes);
    total_of(bytes)
}

/// Writes a total at an address.
pub fn put_total(space: &mut Space, at: Addr, total: (u32, u64, u64))
    requires { IsInside space.old at 24 }
    ensures changes { Changes space.old space.new at.region (overwritten (region_at space.old at.region) at.offset (map Some (total_bytes total))) }
    ensures taken { space.new.taken ≡ space.old.taken }
{
    let bytes = total_bytes(total);
    space.write(at, &bytes);
}
