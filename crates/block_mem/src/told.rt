//! What only clauses read.
ghost use Rattle.std.specs.Prelude.{◌≡◌, List, []};
ghost use base.Fml.{ftrue};

use std::marker::{Model, PhantomData};

/// How a list is read off a value.
pub trait Tells<X, T> {
    ghost told: { X → List T };
}

/// A list that clauses alone read: what they tell of its owner. The value takes no memory and owns none.
#[derive(Drop)]
pub struct Told<T> {
    marker: PhantomData<T>,
    pub ghost entries: { List T },
}

impl<T> Model for Told<T> {
    ghost also_owns = { λ _. ftrue };
}

struct Rule;

impl<T> Tells<(), T> for Rule {
    ghost told = { λ _. [] };
}

impl<T> Told<T> {
    /// An empty list.
    #[inline]
    pub fn none() -> Told<T>
        ensures { result.entries ≡ [] }
    {
        Told::of::<(), Rule>(&())
    }

    /// The list that is read off a value.
    #[inline]
    pub fn of<X, M: Tells<X, T>>(x: &X) -> Told<T>
        ensures { result.entries ≡ M.told x.now }
    {
        let _ = x;
        Told {
            marker: PhantomData,
        }
    }
}
