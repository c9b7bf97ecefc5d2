//! Pictures read and written, by tables.

use std::alloc::{AllocError, Global};
use std::process::Abort;
use std::test::Fail;
use wfc_picture::Colour;
use wfc_ppm::{Ppm, PpmFault, push_p6_head, read, write_p3, write_p6};

/// A text is read as two pixels with these sides, this maximum and these samples.
fn is_read(
    rt: &impl Abort,
    alloc: Global,
    text: &[u8],
    sides: (u32, u32),
    maxval: u16,
    samples: [u16; 6],
) -> Result<(), Fail> {
    assert!(rt; text.len() < 60);
    let ppm = read(alloc, text)?;
    let [a, b, c, d, e, f] = samples;
    let wanted = [Colour { r: a, g: b, b: c }, Colour { r: d, g: e, b: f }];
    assert_eq!(rt;
        ((ppm.width, ppm.height), ppm.maxval),
        (sides, maxval),
        "of {text:?}"
    );
    assert_eq!(rt; ppm.pixels.as_slice(), wanted.as_slice());
    Ok(())
}

#[test]
fn reads_pictures(rt: HostRuntime) -> Result<(), Fail> {
    let (alloc, samples) = (rt.alloc(), [1, 2, 3, 0, 0, 255]);
    let text = b"P6\n2 1\n255\n\x01\x02\x03\x00\x00\xff";
    is_read(&rt, alloc, text, (2, 1), 255, samples)?;
    let text = b"P3\n2 1\n255\n1 2 3\n0 0 255\n";
    is_read(&rt, alloc, text, (2, 1), 255, samples)?;
    let samples = [1, 2, 3, 4, 5, 6];
    let text = b"P6#a\r1#b\n2\t9 \x01\x02\x03\x04\x05\x06";
    is_read(&rt, alloc, text, (1, 2), 9, samples)?;
    let text = b"P3 0001 2 009#\r1#\n2#\r3 4 5 000006#";
    is_read(&rt, alloc, text, (1, 2), 9, samples)?;
    let text = b"P6 1 2 65535 \x00\x01\x00\x02\xff\xff\x01\x00\x02\x03\x00\x00";
    is_read(&rt, alloc, text, (1, 2), 65535, [1, 2, 65535, 256, 515, 0])?;
    let text = b"P6 2 1 256\r\x00\x01\x00\x02\x01\x00\x00\x00\x00\xff\x00\x09";
    is_read(&rt, alloc, text, (2, 1), 256, [1, 2, 256, 0, 255, 9])
}

/// A text is refused so.
fn is_refused(rt: &impl Abort, alloc: Global, text: &[u8], want: PpmFault) {
    assert!(rt; text.len() < 60);
    assert_eq!(rt; read(alloc, text).err(), Some(want), "of {text:?}");
}

#[test]
fn reads_one_pixel_of_two_bytes_a_sample(rt: HostRuntime) -> Result<(), Fail> {
    let text = b"P6\n# made by an editor\n1 1\n65535\n\x00\x01\x00\x02\xff\xff\x07";
    let ppm = read(rt.alloc(), &text[..39])?;
    assert_eq!(rt; (ppm.width, ppm.height, ppm.maxval), (1, 1, 65535));
    let wanted = [Colour {
        r: 1,
        g: 2,
        b: 65535,
    }];
    assert_eq!(rt; ppm.pixels.as_slice(), wanted.as_slice());
    is_refused(&rt, rt.alloc(), &text[..38], truncated(6, 5));
    is_refused(&rt, rt.alloc(), text, PpmFault::Trailing { at: 39 });
    Ok(())
}

/// So many bytes or samples are wanted, and fewer stand there.
fn truncated(wanted: u32, found: u32) -> PpmFault {
    PpmFault::Truncated { wanted, found }
}

/// Each text is refused so.
fn are_refused(rt: &impl Abort, alloc: Global, cases: &[(&[u8], PpmFault)]) {
    for (text, want) in cases {
        is_refused(rt, alloc, text, *want);
    }
}

#[test]
fn refuses_headers(rt: HostRuntime) {
    let cases = [
        (b"".as_slice(), PpmFault::Magic),
        (b"P", PpmFault::Magic),
        (b"P5 1 1 255 ", PpmFault::Magic),
        (b"p6 1 1 255 ", PpmFault::Magic),
        (b"P6", PpmFault::Header { at: 2 }),
        (b"P61 1 1 ", PpmFault::Header { at: 2 }),
        (b"P6\n# made", PpmFault::Header { at: 9 }),
        (b"P6\n1 1\n65535", PpmFault::Header { at: 12 }),
    ];
    are_refused(&rt, rt.alloc(), &cases);
}

#[test]
fn refuses_headers_that_are_spelled_wrong(rt: HostRuntime) {
    let cases = [
        (b"P6\n0 1\n255\n".as_slice(), PpmFault::Header { at: 3 }),
        (b"P6 1 000 255\n", PpmFault::Header { at: 5 }),
        (b"P6 -1 1 255\n", PpmFault::Header { at: 3 }),
        (b"P6 1 1x 0 ", PpmFault::Header { at: 6 }),
        (b"P6 1 1 0#\n", PpmFault::Header { at: 8 }),
        (b"P3 1 1 0", PpmFault::Header { at: 8 }),
        (b"P3 1 1 1 #c", PpmFault::Header { at: 11 }),
        (b"P3 1 1 1x1 1 1", PpmFault::Header { at: 8 }),
    ];
    are_refused(&rt, rt.alloc(), &cases);
}

#[test]
fn refuses_sides_and_maxvals(rt: HostRuntime) {
    let cases = [
        (b"P6\n1 1\n0\n".as_slice(), PpmFault::Maxval { value: 0 }),
        (b"P6\n1 1\n65536\n", PpmFault::Maxval { value: 65536 }),
        (
            b"P6\n1 1\n99999999999\n",
            PpmFault::Maxval {
                value: 4_294_967_295,
            },
        ),
        (
            b"P6\n1 1\n18446744073709551617\n",
            PpmFault::Maxval {
                value: 4_294_967_295,
            },
        ),
        (b"P6\n1025 1024\n65536\n", PpmFault::Maxval { value: 65536 }),
        (b"P6\n1025 1024\n255\n", PpmFault::TooLarge),
        (b"P3\n18446744073709551617 1\n255\n", PpmFault::TooLarge),
        (b"P6\n1024 1024\n255\n", truncated(3_145_728, 0)),
    ];
    are_refused(&rt, rt.alloc(), &cases);
}

#[test]
fn refuses_samples(rt: HostRuntime) {
    let cases = [
        (
            b"P6\n1 1\n254\n\x00\x00\xff".as_slice(),
            PpmFault::SampleAboveMaxval { at: 13 },
        ),
        (
            b"P6\n1 1\n254\n\x00\x00\xff\x0a",
            PpmFault::SampleAboveMaxval { at: 13 },
        ),
        (b"P6\n1 1\n254\n\x00\xff", truncated(3, 2)),
        (
            b"P6\n1 1\n255\n\x00\x00\xff\x0a",
            PpmFault::Trailing { at: 14 },
        ),
        (
            b"P6 1 1 256 \x00\x01\x01\x01\x09\x09",
            PpmFault::SampleAboveMaxval { at: 13 },
        ),
        (b"P6 1 1 256 \x00\x01\x01\x00\x00", truncated(6, 5)),
    ];
    are_refused(&rt, rt.alloc(), &cases);
}

#[test]
fn refuses_plain_samples(rt: HostRuntime) {
    let cases = [
        (b"P3\n1 1\n255\n1 2\n".as_slice(), truncated(3, 2)),
        (b"P3\n1 1\n255\n1 2 #3", truncated(3, 2)),
        (b"P3\n1 1\n255\n", truncated(3, 0)),
        (b"P3\n1 1\n255\n1 2 x\n", PpmFault::BadSample { at: 15 }),
        (b"P3\n1 1\n255\n1 2 3x\n", PpmFault::BadSample { at: 15 }),
        (b"P3\n1 1\n255\n1 2 256x\n", PpmFault::BadSample { at: 15 }),
        (b"P3\n1 1\n255\n1 -2 256\n", PpmFault::BadSample { at: 13 }),
    ];
    are_refused(&rt, rt.alloc(), &cases);
}

#[test]
fn refuses_plain_samples_that_are_large_or_too_many(rt: HostRuntime) {
    let cases = [
        (
            b"P3\n1 1\n255\n1 2 256\n".as_slice(),
            PpmFault::SampleAboveMaxval { at: 15 },
        ),
        (
            b"P3\n1 1\n255\n1 256 x\n",
            PpmFault::SampleAboveMaxval { at: 13 },
        ),
        (
            b"P3\n1 1\n255\n1 2 18446744073709551617\n",
            PpmFault::SampleAboveMaxval { at: 15 },
        ),
        (b"P3\n1 1\n255\n1 2 3 4\n", PpmFault::Trailing { at: 17 }),
        (b"P3\n1 1\n255\n1 2 3#\nx", PpmFault::Trailing { at: 18 }),
    ];
    are_refused(&rt, rt.alloc(), &cases);
}

/// Two pixels with this maximum are written so.
fn is_written(
    rt: &impl Abort,
    alloc: Global,
    maxval: u16,
    raw: &[u8],
    plain: &[u8],
) -> Result<(), Fail> {
    assert!(rt; maxval >= 255);
    let (first, second) = (
        Colour { r: 1, g: 2, b: 3 },
        Colour {
            r: 0,
            g: 10,
            b: 255,
        },
    );
    let ppm = Ppm {
        width: 2,
        height: 1,
        maxval,
        pixels: vec![in alloc; first, second]?,
    };
    assert_eq!(rt; write_p6(alloc, &ppm)?.as_slice(), raw);
    assert_eq!(rt; write_p3(alloc, &ppm)?.as_slice(), plain);
    Ok(())
}

#[test]
fn writes_pictures(rt: HostRuntime) -> Result<(), Fail> {
    let raw = b"P6\n2 1\n255\n\x01\x02\x03\x00\x0a\xff";
    let plain = b"P3\n2 1\n255\n1 2 3\n0 10 255\n";
    is_written(&rt, rt.alloc(), 255, raw, plain)?;
    let raw = b"P6\n2 1\n1000\n\x00\x01\x00\x02\x00\x03\x00\x00\x00\x0a\x00\xff";
    let plain = b"P3\n2 1\n1000\n1 2 3\n0 10 255\n";
    is_written(&rt, rt.alloc(), 1000, raw, plain)
}

/// The text of a large picture, with samples up to its maximum.
fn large_text(alloc: Global, maxval: u16) -> Result<Vec<u8>, Fail> {
    let mut text = Vec::new(alloc);
    push_p6_head(&mut text, 1024, 1024, maxval)?;
    for pixel in 0..1_048_576_u32 {
        let sample = (pixel % (u32::from(maxval) + 1)) as u16;
        push_sample(&mut text, maxval, sample)?;
        push_sample(&mut text, maxval, maxval)?;
        push_sample(&mut text, maxval, 0)?;
    }
    Ok(text)
}

/// Reads a large picture with this maximum, and writes it.
fn is_kept(rt: &impl Abort, alloc: Global, maxval: u16) -> Result<Ppm, Fail> {
    let text = large_text(alloc, maxval)?;
    assert!(rt; text.len() < 7_000_000);
    let ppm = read(alloc, &text)?;
    assert_eq!(rt; (ppm.width, ppm.height, ppm.maxval), (1024, 1024, maxval));
    assert!(rt; write_p6(alloc, &ppm)? == text);
    Ok(ppm)
}

#[test]
fn reads_what_it_writes_at_a_large_size(rt: HostRuntime) -> Result<(), Fail> {
    let ppm = is_kept(&rt, rt.alloc(), 255)?;
    let plain = write_p3(rt.alloc(), &ppm)?;
    assert!(rt; plain.len() < 16_000_000);
    let again = read(rt.alloc(), &plain)?;
    assert!(rt; again.pixels == ppm.pixels);
    Ok(())
}

#[test]
fn reads_what_it_writes_of_two_bytes_a_sample(rt: HostRuntime) -> Result<(), Fail> {
    is_kept(&rt, rt.alloc(), 65535)?;
    Ok(())
}

/// Writes a sample behind the text.
fn push_sample(text: &mut Vec<u8>, maxval: u16, sample: u16) -> Result<(), AllocError> {
    if maxval > 255 {
        text.push((sample / 256) as u8)?;
    }
    text.push((sample % 256) as u8)?;
    Ok(())
}
