//! Lines and numbers by tables.

use std::test::Fail;
use wfc_outside::{MemorySink, SinkFault};
use wfc_text::{NumberFault, lines, number, push_number, write_number};

#[test]
fn cuts_lines(rt: HostRuntime) -> Result<(), Fail> {
    let cases: [(&[u8], &str); 9] = [
        (b"", ""),
        (b"\n", "1:;"),
        (b"a", "1:a"),
        (b"a\n", "1:a;"),
        (b"a\r\nb", "1:a;2:b"),
        (b"\r\n\n", "1:;2:;"),
        (b"a\r", "1:a\r"),
        (b"a\rb\r\r\n", "1:a\rb\r;"),
        (b"a\n\nb\n\r", "1:a;2:;3:b;4:\r"),
    ];
    for (text, wanted) in cases {
        assert!(rt; text.len() < 10);
        let mut found = Vec::new(rt.alloc());
        for line in lines(text) {
            push_number(&mut found, u64::from(line.number))?;
            found.push(b':')?;
            found.extend_from_slice(line.bytes)?;
            if line.ended {
                found.push(b';')?;
            }
        }
        assert_eq!(rt; found.as_slice(), wanted.as_bytes());
    }
    Ok(())
}

#[test]
fn reads_numbers(rt: HostRuntime) {
    let cases: [(&[u8], u64, u64, Result<u64, NumberFault>); 15] = [
        (b"", 0, 9, Err(NumberFault::Empty)),
        (b"0", 0, 0, Ok(0)),
        (b"00000000000000000000005", 0, 9, Ok(5)),
        (b"12", 1, 12, Ok(12)),
        (b"12", 12, 20, Ok(12)),
        (b"12", 1, 11, Err(NumberFault::OutOfRange)),
        (b"12", 13, 20, Err(NumberFault::OutOfRange)),
        (b"12", 13, 11, Err(NumberFault::OutOfRange)),
        (b"18446744073709551615", 0, u64::MAX, Ok(u64::MAX)),
        (
            b"18446744073709551616",
            0,
            u64::MAX,
            Err(NumberFault::OutOfRange),
        ),
        (
            b"99999999999999999999999",
            0,
            u64::MAX,
            Err(NumberFault::OutOfRange),
        ),
        (b"+1", 0, 9, Err(NumberFault::NotDigit { at: 0 })),
        (b"1 2x", 0, 9, Err(NumberFault::NotDigit { at: 1 })),
        (
            b"99999999999999999999999x",
            0,
            9,
            Err(NumberFault::NotDigit { at: 23 }),
        ),
        (b"3:", 0, 9, Err(NumberFault::NotDigit { at: 1 })),
    ];
    for (text, least, most, wanted) in cases {
        assert_eq!(rt; number(text, least, most), wanted, "of {text:?}");
    }
}

#[test]
fn writes_numbers(rt: HostRuntime) -> Result<(), Fail> {
    let mut text = Vec::new(rt.alloc());
    for n in [0, 7, 10, 1_000_000_007, u64::MAX] {
        push_number(&mut text, n)?;
        text.push(b' ')?;
    }
    assert_eq!(rt;
        text.as_slice(),
        b"0 7 10 1000000007 18446744073709551615 ".as_slice()
    );
    Ok(())
}

#[test]
fn writes_a_number_behind_a_long_text(rt: HostRuntime) -> Result<(), Fail> {
    let mut text = vec![in rt.alloc(); b'.'; 1_000_000]?;
    push_number(&mut text, 1_234_567)?;
    assert_eq!(rt; text.len(), 1_000_007);
    assert!(rt; text.ends_with(b".1234567"));
    Ok(())
}

#[test]
fn writes_numbers_to_sinks(rt: HostRuntime) -> Result<(), Fail> {
    let mut sink = MemorySink::new(rt.alloc(), 3, 20)?;
    assert_eq!(rt; write_number(&mut sink, 1_234_567), Ok(()));
    assert_eq!(rt; write_number(&mut sink, 0), Ok(()));
    assert_eq!(rt; sink.bytes(), b"12345670".as_slice());
    assert_eq!(rt; write_number(&mut sink, u64::MAX), Err(SinkFault::Failed));
    assert_eq!(rt; sink.bytes(), b"12345670184467440737".as_slice());
    Ok(())
}
