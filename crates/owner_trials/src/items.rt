ghost use Rattle.std.specs.Prelude.{◌≡◌, ◌≤◌, All, IfOk};
ghost use Rattle.owner_kinds.specs.KindTable.{IsBuiltIn};

use owner_items::Items;
use owner_kinds::{CountedKind, KindShelf};
use pgs_step::{Item, KindId, Phase};
use std::alloc::{AllocError, Global};
use std::test::Fail;

#[test]
fn forget_takes_the_newest(rt: HostRuntime) -> Result<(), Fail> {
    let mut items = Items::new(rt.alloc());
    items.enlarge()?;
    assert!(rt; items.spare() >= 1);
    items.remember(Item {
        kind: KindId(1),
        key: 7,
        serial: 1,
    });
    items.enlarge()?;
    items.remember(Item {
        kind: KindId(1),
        key: 7,
        serial: 2,
    });
    assert_eq!(rt; items.len(), 2);
    assert_eq!(rt; items.forget(KindId(2), 7), None);
    assert_eq!(rt; items.forget(KindId(1), 7).ok_or("none")?.serial, 2);
    assert_eq!(rt; items.forget(KindId(1), 7).ok_or("none")?.serial, 1);
    assert_eq!(rt; items.len(), 0);
    Ok(())
}

#[test]
fn next_has_the_lowest_priority(rt: HostRuntime) -> Result<(), Fail> {
    let none: Vec<CountedKind> = Vec::new(rt.alloc());
    let kinds = KindShelf::new(rt.alloc(), none)?;
    let mut items = Items::new(rt.alloc());
    items.enlarge()?;
    items.remember(Item {
        kind: KindId(1),
        key: 7,
        serial: 1,
    });
    items.enlarge()?;
    items.remember(Item {
        kind: KindId(3),
        key: 8,
        serial: 2,
    });
    items.enlarge()?;
    items.remember(Item {
        kind: KindId(1),
        key: 9,
        serial: 3,
    });
    items.enlarge()?;
    items.remember(Item {
        kind: KindId(2),
        key: 5,
        serial: 4,
    });
    assert_eq!(rt;
        items
            .take_next(&kinds, Phase::BeforeLocks)
            .ok_or("none")?
            .serial,
        3
    );
    Ok(())
}

// Pins of the buffers 0 to 32, each with the next serial.
fn pins(alloc: Global) -> Result<Items, AllocError>
    ensures kinds { IfOk result (λ items. All (λ item. IsBuiltIn item.kind) items.items) }
    ensures serials { IfOk result (λ items. All (λ item. item.serial ≤ 33) items.items) }
{
    let mut items = Items::new(alloc);
    for key in 0..33 {
        items.enlarge()?;
        items.remember(Item {
            kind: KindId::BUFFER_PIN,
            key,
            serial: key as u64 + 1,
        });
    }
    Ok(items)
}

#[test]
fn more_than_thirty_two(rt: HostRuntime) -> Result<(), Fail> {
    let none: Vec<CountedKind> = Vec::new(rt.alloc());
    let kinds = KindShelf::new(rt.alloc(), none)?;
    let mut items = pins(rt.alloc())?;
    for half in 0..16 {
        let key = 2 * half + 1;
        let item = items.forget(KindId::BUFFER_PIN, key).ok_or("none")?;
        assert_eq!(rt; item.serial, key as u64 + 1);
    }
    assert_eq!(rt; items.len(), 17);
    for half in (0..17).rev() {
        let key = 2 * half;
        let item = items.take_next(&kinds, Phase::BeforeLocks).ok_or("none")?;
        assert_eq!(rt; (item.key, item.serial), (key, key as u64 + 1));
    }
    assert_eq!(rt; items.take_next(&kinds, Phase::BeforeLocks), None);
    Ok(())
}
