//! Grids read and written, by tables.

use std::alloc::{AllocError, Global};
use std::test::Fail;
use wfc_grid::{GridFault, read, write};

#[test]
fn reads_grids(rt: HostRuntime) -> Result<(), Fail> {
    let cases: [(&[u8], u32, u32, &[u8]); 7] = [
        (b"ab\nba\n", 2, 2, b"abba"),
        (b"ab\r\nba\r\n", 2, 2, b"abba"),
        (b"ab\r\nba", 2, 2, b"abba"),
        (b"ab\nba", 2, 2, b"abba"),
        (b"a", 1, 1, b"a"),
        (b" ~\n", 2, 1, b" ~"),
        (b"a\nb\nc\n", 1, 3, b"abc"),
    ];
    for (text, width, height, wanted) in cases {
        assert!(rt; text.len() < 16);
        let grid = read(rt.alloc(), text)?;
        assert_eq!(rt; (grid.width, grid.height), (width, height), "of {text:?}");
        assert_eq!(rt; grid.as_bytes(), wanted);
    }
    Ok(())
}

#[test]
fn refuses_texts(rt: HostRuntime) {
    let cases: [(&[u8], GridFault); 16] = [
        (b"", GridFault::Empty),
        (b"\n", GridFault::Empty),
        (b"\r\nab", GridFault::Empty),
        (b"ab\nb\n", GridFault::Ragged { line: 2 }),
        (b"ab\nba\na", GridFault::Ragged { line: 3 }),
        (b"ab\nbab\n", GridFault::Ragged { line: 2 }),
        (b"ab\nba\n\n", GridFault::Ragged { line: 3 }),
        (b"ab\n\tb\n", GridFault::BadByte { line: 2, column: 1 }),
        (b"ab\nb\x7f\n", GridFault::BadByte { line: 2, column: 2 }),
        (b"a\x1fb\n", GridFault::BadByte { line: 1, column: 2 }),
        (b"ab\nba\x80", GridFault::BadByte { line: 2, column: 3 }),
        (b"ab\nb\t\t\n", GridFault::BadByte { line: 2, column: 2 }),
        (b"ab\nb\n\tb", GridFault::Ragged { line: 2 }),
        (b"a\rb\n", GridFault::BadByte { line: 1, column: 2 }),
        (b"ab\nba\r", GridFault::BadByte { line: 2, column: 3 }),
        (
            b"ab\r\r\nab\r\r\n",
            GridFault::BadByte { line: 1, column: 3 },
        ),
    ];
    for (text, wanted) in cases {
        assert!(rt; text.len() < 16);
        assert_eq!(rt; read(rt.alloc(), text).err(), Some(wanted), "of {text:?}");
    }
}

/// So many lines of as many bytes.
fn lines_of_dots(alloc: Global, width: usize, height: usize) -> Result<Vec<u8>, AllocError> {
    let line = vec![in alloc; b'.'; width]?;
    let mut text = Vec::new(alloc);
    for _ in 0..height {
        text.extend_from_slice(&line)?;
        text.push(b'\n')?;
    }
    Ok(text)
}

#[test]
fn knows_its_limit(rt: HostRuntime) -> Result<(), Fail> {
    for (height, wanted) in [(1024, None), (1025, Some(GridFault::TooLarge))] {
        let text = lines_of_dots(rt.alloc(), 1024, height)?;
        assert!(rt; text.len() < 2_000_000);
        assert_eq!(rt; read(rt.alloc(), text.as_slice()).err(), wanted);
    }
    let mut text = lines_of_dots(rt.alloc(), 1024, 1025)?;
    text.push(b'\n')?;
    assert!(rt; text.len() < 2_000_000);
    assert_eq!(rt;
        read(rt.alloc(), text.as_slice()).err(),
        Some(GridFault::Ragged { line: 1026 })
    );
    Ok(())
}

#[test]
fn reads_and_writes_the_largest_grids(rt: HostRuntime) -> Result<(), Fail> {
    for (width, height) in [(4096, 256), (1, 1_048_576), (1_048_576, 1)] {
        let text = lines_of_dots(rt.alloc(), width, height)?;
        assert!(rt; text.len() < 3_000_000);
        let grid = read(rt.alloc(), text.as_slice())?;
        assert_eq!(rt;
            (grid.width as usize, grid.height as usize),
            (width, height)
        );
        assert_eq!(rt; grid.as_bytes().len(), 1_048_576);
        assert!(rt; write(rt.alloc(), &grid)? == text);
    }
    Ok(())
}

#[test]
fn writes_grids(rt: HostRuntime) -> Result<(), Fail> {
    for text in [b"ab\nba\n".as_slice(), b"a\nb\n", b"abc\n"] {
        assert!(rt; text.len() < 16);
        let grid = read(rt.alloc(), text)?;
        assert_eq!(rt; write(rt.alloc(), &grid)?.as_slice(), text);
    }
    Ok(())
}
