//! A node of the arena.
ghost use Rattle.std.specs.Prelude.{◌≡◌};
ghost use Rattle.std.specs.Borrow.{sem};

/// A node: its number, its data, and the slots of its neighbours.
#[derive(Drop)]
pub struct Linked<T> {
    pub number: u64,
    pub value: T,
    pub parent: Option<u32>,
    pub first_child: Option<u32>,
    pub previous: Option<u32>,
    pub next: Option<u32>,
}

impl<T> Linked<T> {
    ghost use Rattle.forest.specs.LendsValue.{lends_value};

    pub fn value_mut(&mut self) -> &mut T
        ensures* lends { sem 𝓛 (lends_value T.row self.entry result) }
        ensures value { self.old.value ≡ result.now }
    {
        &mut self.value
    }
}
