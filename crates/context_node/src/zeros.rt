//! Zeros in a space.
ghost use Rattle.std.specs.Prelude.{◌≡◌, ◌+◌, ◌<◌, ◌^◌, map, Some};
ghost use Rattle.addr_space.specs.Space.{Changes, IsInside, region_at, overwritten};
ghost use Rattle.context_rules.specs.Chunks.{zeros};

use addr_space::{Addr, Space};

/// Writes `size` zeros, from an address on, inside one region.
pub fn write_zeros(space: &mut Space, at: Addr, size: u64)
    requires inside { IsInside space.old at size }
    requires ends { at.offset + size < 2 ^ 32 }
    ensures changes { Changes space.old space.new at.region (overwritten (region_at space.old at.region) at.offset (map Some (zeros size))) }
    ensures taken { space.new.taken ≡ space.old.taken }
{
    let piece = [0u8; 256];
    let mut done = 0u64;
    while done < size {
        let step = (size - done).min(256);
        let to = Addr {
            region: at.region,
            offset: at.offset + done as u32,
        };
        space.write(to, &piece[..step as usize]);
        done += step;
    }
}
