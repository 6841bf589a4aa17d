use file_table::{FileError, FileTable, MAX_FILES};
use pgs_step::{EventList, What};
use std::test::*;

/// Eight descriptors: the ninth file takes that of the first, which takes that of the second when it is used.
#[test]
fn the_least_recently_used_loses(rt: HostRuntime) {
    let mut first = EventList::new(rt.alloc(), 8).expect(&rt, "it is served");
    let mut out = EventList::new(rt.alloc(), 4).expect(&rt, "it is served");
    let mut files = FileTable::new(rt.alloc(), 8).expect(&rt, "it is served");
    for file in 1..9 {
        assert!(rt; files.open_file(file, &mut first) == Ok(()));
    }
    assert!(rt; files.open_file(9, &mut out) == Ok(()));
    assert!(rt; files.touch(1, &mut out) == Ok(()));
    assert!(rt; files.counts() == (9, 8));
    let told = [
        What::DescriptorClosed(1),
        What::DescriptorOpened(9),
        What::DescriptorClosed(2),
        What::DescriptorOpened(1),
    ];
    assert!(rt; out.events() == told.as_slice());
}

/// To use a file that has a descriptor says nothing, and another one loses its one then.
#[test]
fn a_use_puts_a_file_in_front(rt: HostRuntime) {
    let mut out = EventList::new(rt.alloc(), 20).expect(&rt, "it is served");
    let mut files = FileTable::new(rt.alloc(), 2).expect(&rt, "it is served");
    assert!(rt; files.touch(1, &mut out) == Err(FileError::NoFile));
    assert!(rt; files.close_file(1, &mut out) == Err(FileError::NoFile));
    assert!(rt; files.open_file(1, &mut out) == Ok(()));
    assert!(rt; files.open_file(1, &mut out) == Err(FileError::Taken));
    assert!(rt; files.open_file(2, &mut out) == Ok(()));
    assert!(rt; files.touch(1, &mut out) == Ok(()));
    assert!(rt; files.open_file(3, &mut out) == Ok(()));
    assert!(rt; files.close_file(2, &mut out) == Ok(()));
    assert!(rt; files.close_file(1, &mut out) == Ok(()));
    assert!(rt; files.is_open(3) && !files.is_open(1));
    assert!(rt; files.counts() == (1, 1));
    let told = [
        What::DescriptorOpened(1),
        What::DescriptorOpened(2),
        What::DescriptorClosed(2),
        What::DescriptorOpened(3),
        What::DescriptorClosed(1),
    ];
    assert!(rt; out.events() == told.as_slice());
}

#[test]
fn as_many_files_as_there_may_be(rt: HostRuntime) {
    let mut out = EventList::new(rt.alloc(), 0).expect(&rt, "it is served");
    let mut files = FileTable::new(rt.alloc(), 8).expect(&rt, "it is served");
    for file in 0..MAX_FILES as u32 {
        assert!(rt; files.open_file(file, &mut out) == Ok(()));
    }
    assert!(rt; files.open_file(4096, &mut out) == Err(FileError::TooMany));
    assert!(rt; files.open_file(7, &mut out) == Err(FileError::Taken));
    assert!(rt; files.counts() == (4096, 8));
    assert!(rt; files.close_file(7, &mut out) == Ok(()));
    assert!(rt; files.open_file(4096, &mut out) == Ok(()));
}
