//! A source and a sink in memory, and all bytes to a sink.

use crate::compare::same;
use kb_base::Failed;
use kb_ports::{BytesSink, BytesSource, Sink, Sips, Source, write_all};
use std::test::Fail;

#[test]
fn the_second_write_fails(rt: HostRuntime) -> Result<(), Fail> {
    let alloc = rt.alloc();
    let mut sink = BytesSink::new(b"ab".to_vec(alloc)?, vec![in alloc; 2]?);
    // what is written, what the call answers, all bytes then, and the faults by then
    let cases = [
        ("cd", Ok(2), "abcd", 0),
        ("ef", Err(Failed), "abcd", 1),
        ("efg", Ok(3), "abcdefg", 1),
        ("", Ok(0), "abcdefg", 1),
    ];
    for (text, answer, bytes, faults) in cases {
        same(&rt, &sink.write(text.as_bytes()), &answer, &text);
        same(
            &rt,
            &(sink.bytes(), sink.faults()),
            &(bytes.as_bytes(), faults),
            &text,
        );
    }
    same(&rt, &sink.calls(), &4, &"");
    let bytes = sink.into_bytes();
    same(&rt, &bytes.as_slice(), &b"abcdefg".as_slice(), &"");
    Ok(())
}

fn read_from<S: Source>(source: &mut S, buf: &mut [u8]) -> Result<usize, Failed> {
    source.read(buf)
}

#[test]
fn all_bytes_in_buffers_of_any_size(rt: HostRuntime) -> Result<(), Fail> {
    let alloc = rt.alloc();
    // how long the buffer is, and how many bytes each call gives
    let cases = [
        (1, [1, 1, 1, 1, 1, 0]),
        (2, [2, 2, 1, 0, 0, 0]),
        (3, [3, 2, 0, 0, 0, 0]),
        (100, [5, 0, 0, 0, 0, 0]),
    ];
    let mut buf = [0; 100];
    for (room, counts) in cases {
        let mut source = BytesSource::new(b"hello".to_vec(alloc)?, Vec::new(alloc));
        let mut seen = Vec::new(alloc);
        for count in counts {
            let given = read_from(&mut source, &mut buf[..room])?;
            assert_eq!(rt; given, count);
            seen.extend_from_slice(&buf[..given])?;
        }
        same(&rt, &seen.as_slice(), &b"hello".as_slice(), &room);
    }
    Ok(())
}

#[test]
fn the_second_read_fails(rt: HostRuntime) -> Result<(), Fail> {
    let alloc = rt.alloc();
    let mut source = BytesSource::new(b"hello".to_vec(alloc)?, vec![in alloc; 2]?);
    let mut buf = [0; 2];
    // what the call answers, the bytes that are left then, and the faults by then
    let cases = [
        (Ok(2), "llo", 0),
        (Err(Failed), "llo", 1),
        (Ok(2), "o", 1),
        (Ok(1), "", 1),
        (Ok(0), "", 1),
    ];
    for (answer, left, faults) in cases {
        same(&rt, &(source.read(&mut buf)), &answer, &left);
        same(
            &rt,
            &(source.left(), source.faults()),
            &(left.as_bytes(), faults),
            &left,
        );
    }
    same(&rt, &source.calls(), &5, &"");
    Ok(())
}

#[test]
fn all_bytes_in_sips_of_any_size(rt: HostRuntime) -> Result<(), Fail> {
    let alloc = rt.alloc();
    // how much a call takes, which call fails; the answer, and the bytes and calls by then
    let cases = [
        (1, 9, Ok(()), "hello", 5),
        (2, 9, Ok(()), "hello", 3),
        (3, 9, Ok(()), "hello", 2),
        (9, 9, Ok(()), "hello", 1),
        (1, 5, Err(Failed), "hell", 5),
        (2, 2, Err(Failed), "he", 2),
        (3, 1, Err(Failed), "", 1),
    ];
    for (most, failing, answer, bytes, calls) in cases {
        assert!(rt; 1 <= most);
        let inner = BytesSink::new(Vec::new(alloc), vec![in alloc; failing]?);
        let mut sips = Sips { inner, most };
        same(&rt, &(write_all(&mut sips, b"hello")), &answer, &most);
        same(
            &rt,
            &(sips.inner.bytes(), sips.inner.calls()),
            &(bytes.as_bytes(), calls),
            &most,
        );
    }
    Ok(())
}

#[test]
fn nothing_needs_no_call(rt: HostRuntime) -> Result<(), Fail> {
    let mut sink = BytesSink::new(Vec::new(rt.alloc()), Vec::new(rt.alloc()));
    write_all(&mut sink, b"")?;
    same(&rt, &sink.calls(), &0, &"");
    Ok(())
}
