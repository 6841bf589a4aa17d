//! A chunk, as its context keeps it.
ghost use Rattle.std.specs.Prelude.{◌≡◌, ◌+◌, ◌<◌, ◌≤◌, ◌^◌};
ghost use Rattle.std.specs.Option.{SomeIff};

use addr_space::Addr;
use pgs_step::Name;

/// A chunk, as its context keeps it.
#[derive(Clone, Copy)]
pub struct Entry {
    /// Its name, if it has one.
    pub name: Option<Name>,
    /// Its first byte.
    pub at: Addr,
    /// Its size.
    pub size: u64,
    /// How many of its first bytes are known.
    pub known: u64,
}

impl Entry {
    /// Where `n` bytes from a place on are, if all of them are known.
    pub fn known_at(&self, place: u64, n: usize) -> Option<Addr>
        requires { self.now.at.offset + self.now.known < 2 ^ 32 }
        ensures { SomeIff result (place + n ≤ self.now.known) (record { region = self.now.at.region; offset = self.now.at.offset + place }) }
    {
        match self.known.checked_sub(place) {
            Some(rest) if n as u64 <= rest => Some(self.after(place)),
            _ => None,
        }
    }

    /// Where `n` bytes from a place on are, if the place is among the known bytes or right behind them, and they end in
    /// the chunk.
    pub fn room_at(&self, place: u64, n: usize) -> Option<Addr>
        requires { self.now.at.offset + self.now.size < 2 ^ 32 }
        ensures { SomeIff result ((place ≤ self.now.known) × (place + n ≤ self.now.size)) (record { region = self.now.at.region; offset = self.now.at.offset + place }) }
    {
        match self.size.checked_sub(place) {
            Some(rest) if place <= self.known && n as u64 <= rest => Some(self.after(place)),
            _ => None,
        }
    }

    fn after(&self, place: u64) -> Addr
        requires { self.now.at.offset + place < 2 ^ 32 }
        ensures { result ≡ record { region = self.now.at.region; offset = self.now.at.offset + place } }
    {
        Addr {
            region: self.at.region,
            offset: self.at.offset + place as u32,
        }
    }
}
