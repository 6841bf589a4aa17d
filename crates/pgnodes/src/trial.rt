//! A worked example of a whole aggregate.
ghost use Rattle.std.specs.Prelude.{[], ◌∷◌, ◌++◌};

use crate::lines::Aggregate;
use crate::playing::{Groups, play};
use addr_space::Space;
use block_mem::told::{Tells, Told};
use std::test::*;
use temp_store::TempStore;

// The groups that are told.
type Group = (u32, u64, u64);

// One more group, behind the others.
#[derive(Drop)]
struct More<'a> {
    told: &'a Told<Group>,
    group: Group,
}

struct Rule;

impl<'a> Tells<More<'a>, Group> for Rule {
    ghost told = { λ m. m.told.now.entries ++ m.group ∷ [] };
}

// Keeps the first two groups, and counts them.
#[derive(Drop)]
struct Heard {
    groups: [Group; 2],
    count: usize,
    told: Told<Group>,
}

impl Groups for Heard {
    ghost told = { λ h. h.told.entries };

    fn tell(&mut self, group: u32, count: u64, sum: u64) {
        let group = (group, count, sum);
        if self.count < self.groups.len() {
            self.groups[self.count] = group;
            self.count += 1;
        }
        self.told = Told::of::<More, Rule>(&More {
            told: &self.told,
            group,
        });
    }
}

#[test]
fn four_rows_are_played(rt: HostRuntime) -> Result<(), Fail> {
    let mut space = Space::new(rt.alloc(), 1, 16_777_216)?;
    let mut temp = TempStore::new(rt.alloc(), 67_108_864);
    let mut heard = Heard {
        groups: [(0, 0, 0); 2],
        count: 0,
        told: Told::none(),
    };
    let aggregate = Aggregate {
        object: 3,
        rows: 4,
        groups: 2,
        budget: 64,
    };
    let played = play(rt.alloc(), &aggregate, &mut space, &mut temp, &mut heard);
    assert_eq!(rt; played, Ok(()));
    assert_eq!(rt; heard.groups, [(1, 2, 2), (0, 2, 4)]);
    assert_eq!(rt; heard.count, 2);
    Ok(())
}
