//! Header words, and the sizes of chunks and blocks.

use chunk_header::{BadKind, Header, Kind, block_header, granted, grown, up8};
use std::test::Fail;

#[test]
fn words_of_headers(rt: HostRuntime) -> Result<(), Fail> {
    let shared = Header {
        kind: Kind::AllocSet,
        own: false,
        value: 4,
        dist: 40,
    };
    let own = Header {
        kind: Kind::AllocSet,
        own: true,
        value: 0,
        dist: 40,
    };
    assert_eq!(rt; shared.pack(), 171_798_691_969);
    assert_eq!(rt; shared.bytes(), [0x81, 0, 0, 0, 0x28, 0, 0, 0]);
    assert_eq!(rt; own.pack(), 171_798_691_857);
    assert_eq!(rt; own.bytes(), [0x11, 0, 0, 0, 0x28, 0, 0, 0]);
    assert_eq!(rt; Header::unpack(171_798_691_969), Ok(shared));
    assert_eq!(rt; Header::unpack(0), Err(BadKind(0)));
    assert_eq!(rt; Header::unpack(6), Err(BadKind(6)));
    Ok(())
}

#[test]
fn sizes_of_blocks(rt: HostRuntime) -> Result<(), Fail> {
    assert_eq!(rt; up8(9), 16);
    assert_eq!(rt; granted(0), 8);
    assert_eq!(rt; grown(1024, 1072), 2048);
    assert_eq!(rt; block_header(258, 8192), [2, 1, 0, 0, 0, 32, 0, 0]);
    Ok(())
}
