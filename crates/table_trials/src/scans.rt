ghost use Rattle.exec_core.specs.Turn.{IsScan};

use exec_core::{Scan, ScanStep};
use std::process::Abort;
use std::test::*;

/// The scan gives these steps next.
fn gives(rt: &impl Abort, scan: &mut Scan, expected: &[ScanStep])
    requires { IsScan scan.old }
    ensures { IsScan scan.new }
{
    for step in expected {
        assert_eq!(rt; scan.next(), *step);
    }
}

#[test]
fn changes_its_page_at_the_tenth_row(rt: HostRuntime) {
    let mut scan = Scan::new(3, 12, None);
    gives(
        &rt,
        &mut scan,
        &[
            ScanStep::Reset,
            ScanStep::Pin(3),
            ScanStep::Alloc,
            ScanStep::Row(0, 93),
        ],
    );
    for row in 1..10 {
        gives(
            &rt,
            &mut scan,
            &[
                ScanStep::Reset,
                ScanStep::Alloc,
                ScanStep::Row(row, 93 + 7 * row),
            ],
        );
    }
    gives(
        &rt,
        &mut scan,
        &[
            ScanStep::Reset,
            ScanStep::Unpin(3),
            ScanStep::Pin(4),
            ScanStep::Alloc,
            ScanStep::Row(10, 163),
            ScanStep::Reset,
            ScanStep::Alloc,
            ScanStep::Row(11, 170),
            ScanStep::Unpin(4),
            ScanStep::End,
            ScanStep::End,
        ],
    );
}

#[test]
fn sets_its_page_behind_the_pin(rt: HostRuntime) {
    let mut scan = Scan::new(1_000_000, 1_000_000, Some(0));
    gives(&rt, &mut scan, &[ScanStep::Reset, ScanStep::Pin(576)]);
    assert!(rt; scan.page == None);
    gives(&rt, &mut scan, &[ScanStep::Bad(0)]);
    assert!(rt; scan.page == Some(576));
}
