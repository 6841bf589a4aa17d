//! Each call once, and the worked values of lines, words and numbers.
use crate::counting::count_lines;
use pgs_io::{
    Failed, Fed, Feed, LineBuf, MemSink, MemSource, Sink, Source, StdSink, StdSource, next_token,
    number, put_all, split_line,
};
use std::collections::VecDeque;
use std::io::{self, ErrorKind, Read, Write};

#[test]
fn a_source_in_memory_gives_pieces(rt: HostRuntime) {
    let bytes = b"abcde".to_vec(rt.alloc()).expect(&rt, "it is served");
    let fail_at = [2].to_vec(rt.alloc()).expect(&rt, "it is served");
    let mut source = MemSource::new(bytes, 2, fail_at);
    let mut buf = [0; 4];
    assert!(rt; source.read(&mut buf) == Ok(2));
    assert!(rt; buf == [b'a', b'b', 0, 0]);
    assert!(rt; source.read(&mut buf) == Err(Failed));
    assert!(rt; source.read(&mut buf[..1]) == Ok(1));
    assert!(rt; source.unread() == b"de".as_slice());
    assert!(rt; source.read(&mut buf) == Ok(2));
    assert!(rt; source.read(&mut buf) == Ok(0));
    assert!(rt; source.faults() == 1);
    assert!(rt; source.calls() == 5);
}

#[test]
fn a_sink_in_memory_fills(rt: HostRuntime) {
    let fail_at = [2].to_vec(rt.alloc()).expect(&rt, "it is served");
    let mut sink = MemSink::new(rt.alloc(), 5, fail_at).expect(&rt, "it is served");
    assert!(rt; sink.write(b"abc") == Ok(3));
    assert!(rt; sink.write(b"abc") == Err(Failed));
    assert!(rt; put_all(&mut sink, b"de") == Ok(()));
    assert!(rt; put_all(&mut sink, b"f") == Err(Failed));
    assert!(rt; put_all(&mut sink, b"") == Ok(()));
    assert!(rt; sink.written() == b"abcde".as_slice());
    assert!(rt; sink.faults() == 2);
    assert!(rt; sink.calls() == 4);
}

#[test]
fn a_failing_sink_has_a_front(rt: HostRuntime) {
    let mut sink = MemSink::new(rt.alloc(), 3, Vec::new(rt.alloc())).expect(&rt, "it is served");
    assert!(rt; put_all(&mut sink, b"abcd") == Err(Failed));
    assert!(rt; sink.written() == b"abc".as_slice());
}

#[test]
fn std_readers_and_writers_serve(rt: HostRuntime) {
    let mut queue: VecDeque<u8> = VecDeque::new(rt.alloc());
    queue.push_back(b'x').expect(&rt, "it is served");
    let mut source = StdSource::new(queue);
    let mut buf = [0; 2];
    assert!(rt; source.read(&mut buf) == Ok(1));
    assert!(rt; source.read(&mut buf) == Ok(0));
    let writer: VecDeque<u8> = VecDeque::new(rt.alloc());
    let mut sink = StdSink::new(writer);
    assert!(rt; put_all(&mut sink, b"xyz") == Ok(()));
}

#[test]
fn a_buffer_takes_bytes(rt: HostRuntime) {
    let mut line = LineBuf::new();
    assert!(rt; line.push(b'a'));
    assert!(rt; line.extend(b"bc"));
    assert!(rt; line.as_slice() == b"abc".as_slice());
    assert!(rt; !line.extend(&[b'd'; 510]));
    assert!(rt; !line.push(b'e'));
    line.clear();
    assert!(rt; line.as_slice() == b"".as_slice());
}

#[test]
fn words_split_at_a_space(rt: HostRuntime) {
    let cases: [(&[u8], &[u8], &[u8]); 4] = [
        (b"pin 7 8", b"pin", b"7 8"),
        (b"pin  7", b"pin", b" 7"),
        (b"begin", b"begin", b""),
        (b"begin ", b"begin", b""),
    ];
    for (text, word, rest) in cases {
        assert!(rt; next_token(text) == (word, rest));
    }
}

#[test]
fn numbers_are_decimal(rt: HostRuntime) {
    let max = 4294967295;
    let cases: [(&[u8], u64, Option<u64>); 10] = [
        (b"0", max, Some(0)),
        (b"00", max, None),
        (b"01", max, None),
        (b"4294967295", max, Some(4294967295)),
        (b"4294967296", max, None),
        (b"", max, None),
        (b"12a", max, None),
        (b"+1", max, None),
        (b"18446744073709551615", u64::MAX, Some(u64::MAX)),
        (b"18446744073709551616", u64::MAX, None),
    ];
    for (word, max, want) in cases {
        assert!(rt; number(word, max) == want);
    }
}

#[test]
fn lines_end_with_a_newline_or_the_input(rt: HostRuntime) {
    let bytes = b"a\nb".to_vec(rt.alloc()).expect(&rt, "it is served");
    let mut source = MemSource::new(bytes, 1, Vec::new(rt.alloc()));
    let mut feed = Feed::new(3);
    let mut buf = LineBuf::new();
    assert!(rt; feed.buffered() == None);
    let Fed::Line { long: false } = feed.line(&mut source, &mut buf) else {
        panic!(rt; "no line");
    };
    assert!(rt; buf.as_slice() == b"a".as_slice());
    assert!(rt; source.calls() == 2);
    let Fed::Line { long: false } = feed.line(&mut source, &mut buf) else {
        panic!(rt; "no last line");
    };
    assert!(rt; buf.as_slice() == b"b".as_slice());
    assert!(rt; source.calls() == 4);
    assert!(rt; feed.line(&mut source, &mut buf) == Fed::End);
    assert!(rt; source.calls() == 4);
}

#[test]
fn lines_in_one_read_are_buffered(rt: HostRuntime) {
    let bytes = b"a\nbc\n\nd".to_vec(rt.alloc()).expect(&rt, "it is served");
    let fail_at = [2].to_vec(rt.alloc()).expect(&rt, "it is served");
    let mut source = MemSource::new(bytes, 9, fail_at);
    let mut feed = Feed::new(100);
    let mut buf = LineBuf::new();
    let Fed::Line { long: false } = feed.line(&mut source, &mut buf) else {
        panic!(rt; "no line");
    };
    let Some(line) = feed.buffered() else {
        panic!(rt; "no buffered line");
    };
    assert!(rt; line == b"bc".as_slice());
    let count = line.len();
    feed.pass(count);
    let Some(line) = feed.buffered() else {
        panic!(rt; "no empty line");
    };
    assert!(rt; line == b"".as_slice());
    let count = line.len();
    feed.pass(count);
    assert!(rt; feed.buffered() == None);
    assert!(rt; feed.line(&mut source, &mut buf) == Fed::Fault);
    assert!(rt; source.faults() == 1);
}

#[test]
fn a_read_asks_for_what_may_be_taken(rt: HostRuntime) {
    let bytes = vec![in rt.alloc(); b'x'; 700].expect(&rt, "it is served");
    let mut source = MemSource::new(bytes, 700, Vec::new(rt.alloc()));
    assert!(rt; count_lines(&mut source, 600) == (0, Fed::TooLong));
    assert!(rt; source.calls() == 2);
    assert!(rt; source.unread().len() == 99);
}

#[test]
fn a_line_is_split_off_bytes(rt: HostRuntime) {
    let cases: [(&[u8], &[u8], &[u8]); 4] = [
        (b"pin 7\ncommit\n", b"pin 7", b"commit\n"),
        (b"\n\n", b"", b"\n"),
        (b"commit\n", b"commit", b""),
        (b"commit", b"commit", b""),
    ];
    for (text, line, rest) in cases {
        if text.is_empty() {
            continue;
        }
        assert!(rt; split_line(text) == (line, rest));
    }
}

/// Gives an `x` in each call, behind so many calls that a signal interrupts.
#[derive(Drop)]
struct Interrupted {
    calls: u32,
}

impl Read for Interrupted {
    fn read(&mut self, buf: &mut [u8]) -> io::Result<usize> {
        if self.calls > 0 {
            self.calls -= 1;
            return Err(ErrorKind::Interrupted.into());
        }
        if buf.is_empty() {
            return Ok(0);
        }
        buf[0] = b'x';
        Ok(1)
    }
}

impl Write for Interrupted {
    fn write(&mut self, buf: &[u8]) -> io::Result<usize> {
        if self.calls > 0 {
            self.calls -= 1;
            return Err(ErrorKind::Interrupted.into());
        }
        Ok(buf.len())
    }

    fn flush(&mut self) -> io::Result<()> {
        Ok(())
    }
}

#[test]
fn an_interrupted_call_is_tried_again(rt: HostRuntime) {
    let mut source = StdSource::new(Interrupted { calls: 3 });
    let mut buf = [0; 2];
    assert!(rt; source.read(&mut buf) == Ok(1));
    assert!(rt; buf == [b'x', 0]);
    let mut sink = StdSink::new(Interrupted { calls: 3 });
    assert!(rt; sink.write(b"abc") == Ok(3));
}
