//! The chunks of groups, in the order in which the groups came.
ghost use Rattle.std.specs.Prelude.{◌≡◌, ◌<◌, [], ◌∷◌, ◌++◌, length, Some, None, nat_eq, slice_get};
ghost use Rattle.std.specs.Map.{lookup};
ghost use Rattle.indexmap.specs.IndexMap.{spare};

use addr_space::Addr;
use indexmap::IndexMap;

/// The chunk of a group, if it has one.
pub fn place_of(places: &IndexMap<u32, Addr>, group: u32) -> Option<Addr>
    ensures { result ≡ lookup (nat_eq group) places.now.entries }
{
    places.get(&group).copied()
}

/// The group that came so many groups after the first one, and its chunk.
pub fn place_at(places: &IndexMap<u32, Addr>, place: usize) -> (u32, Addr)
    requires { place < length places.now.entries }
    ensures entry { slice_get places.now.entries place ≡ Some result }
    ensures place { lookup (nat_eq result.0) places.now.entries ≡ Some result.1 }
{
    prove!(place < places.len());
    match places.get_index(place) {
        Some((group, at)) => (*group, *at),
        None => unreachable!(),
    }
}

/// Notes the chunk of a group that has none, in room that was made.
pub fn note(places: &mut IndexMap<u32, Addr>, group: u32, at: Addr)
    requires fresh { lookup (nat_eq group) places.old.entries ≡ None }
    requires room { 0 < spare places.old }
    ensures { places.new.entries ≡ places.old.entries ++ (group, at) ∷ [] }
{
    match places.insert(group, at) {
        Ok(_) => {}
        Err(_) => unreachable!(),
    }
}
