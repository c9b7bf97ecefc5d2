//! Pictures and palettes, by tables.

use std::alloc::Global;
use std::process::Abort;
use std::test::Fail;
use wfc_picture::{Colour, Palette, PaletteFault, Picture, Symbol};

fn grey(n: u16) -> Symbol {
    Symbol::Rgb(Colour { r: n, g: n, b: n })
}

#[test]
fn numbers_by_first_appearance(rt: HostRuntime) -> Result<(), Fail> {
    let symbols = [b'b', b'a', b'b'].map(Symbol::Char);
    let (picture, _palette) = Palette::index(rt.alloc(), &symbols, 3)?;
    assert_eq!(rt; (picture.width(), picture.height()), (3, 1));
    let numbers = picture.window(rt.alloc(), 1, 0, 2)?;
    assert_eq!(rt; numbers.as_slice(), [1, 0, 1, 0].as_slice());
    Ok(())
}

/// Whether the palette has this symbol, and with this number.
fn has_number(rt: &impl Abort, palette: &Palette, symbol: Symbol, want: Option<u32>) {
    assert_eq!(rt; palette.number(symbol), want);
}

#[test]
fn palettes_name_and_number_symbols(rt: HostRuntime) -> Result<(), Fail> {
    let symbols = [b'b', b'a', b'b'].map(Symbol::Char);
    let (_picture, palette) = Palette::index(rt.alloc(), &symbols, 3)?;
    assert_eq!(rt; palette.len(), 2);
    let named = [palette.symbol(0), palette.symbol(1)];
    assert_eq!(rt; named, [b'b', b'a'].map(Symbol::Char));
    has_number(&rt, &palette, Symbol::Char(b'b'), Some(0));
    has_number(&rt, &palette, Symbol::Char(b'a'), Some(1));
    has_number(&rt, &palette, Symbol::Char(b'c'), None);
    has_number(&rt, &palette, grey(98), None);
    Ok(())
}

/// The numbers of a picture, row by row, each read by a window of one pixel.
fn numbers_of(alloc: Global, picture: &Picture) -> Result<Vec<u32>, Fail> {
    let mut numbers = Vec::new(alloc);
    for y in 0..picture.height() {
        for x in 0..picture.width() {
            let number = picture.window(alloc, x, y, 1)?;
            numbers.extend_from_slice(&number)?;
        }
    }
    Ok(numbers)
}

/// Six pixels in rows of this length.
fn is_indexed(rt: &impl Abort, alloc: Global, width: u32, height: u32) -> Result<(), Fail> {
    let symbols = [b'c', b'a', b'c', b'b', b'a', b'd'].map(Symbol::Char);
    assert!(rt; 0 < width && symbols.len() % width as usize == 0);
    let (picture, palette) = Palette::index(alloc, &symbols, width)?;
    let sides = (picture.width(), picture.height(), palette.len());
    assert_eq!(rt; sides, (width, height, 4));
    let numbers = numbers_of(alloc, &picture)?;
    assert_eq!(rt;
        numbers.as_slice(),
        [0, 1, 0, 2, 1, 3].as_slice(),
        "of {width}"
    );
    Ok(())
}

/// The same six pixels in rows of each length that divides them.
#[test]
fn indexes_at_each_width(rt: HostRuntime) -> Result<(), Fail> {
    is_indexed(&rt, rt.alloc(), 1, 6)?;
    is_indexed(&rt, rt.alloc(), 2, 3)?;
    is_indexed(&rt, rt.alloc(), 3, 2)?;
    is_indexed(&rt, rt.alloc(), 6, 1)
}

/// The largest sample, with as many symbols as a palette holds.
#[test]
fn indexes_the_largest_sample(rt: HostRuntime) -> Result<(), Fail> {
    let mut symbols = Vec::new(rt.alloc());
    for n in 0..1_048_576u32 {
        symbols.push(grey((n % 4096) as u16))?;
    }
    assert_eq!(rt; symbols.len(), 1_048_576);
    let (picture, palette) = Palette::index(rt.alloc(), &symbols, 1024)?;
    assert_eq!(rt;
        (picture.width(), picture.height(), palette.len()),
        (1024, 1024, 4096)
    );
    let last = picture.window(rt.alloc(), 1023, 1023, 1)?;
    assert_eq!(rt; last.as_slice(), [4095].as_slice());
    Ok(())
}

/// A sample with so many greys, the first of them twice, has a palette or none.
fn has_greys(
    rt: &impl Abort,
    alloc: Global,
    colours: u16,
    want: Option<PaletteFault>,
) -> Result<(), Fail> {
    let mut symbols = vec![in alloc; grey(0)]?;
    for n in 0..colours {
        symbols.push(grey(n))?;
    }
    assert!(rt; !symbols.is_empty() && symbols.len() <= 5000);
    let found = Palette::index(alloc, &symbols, 1);
    assert_eq!(rt; found.err(), want);
    Ok(())
}

#[test]
fn the_4097th_symbol(rt: HostRuntime) -> Result<(), Fail> {
    let many = Some(PaletteFault::TooManyColours { at: 4097 });
    has_greys(&rt, rt.alloc(), 4096, None)?;
    has_greys(&rt, rt.alloc(), 4097, many)?;
    has_greys(&rt, rt.alloc(), 4098, many)
}

/// There is no picture of six pixels with these sides.
fn is_none(rt: &impl Abort, alloc: Global, width: u32, height: u32) -> Result<(), Fail> {
    let cells = [1, 2, 3, 4, 5, 6].to_vec(alloc)?;
    assert!(rt; Picture::new(width, height, cells).is_err());
    Ok(())
}

#[test]
fn no_pictures_of_other_sides(rt: HostRuntime) -> Result<(), Fail> {
    is_none(&rt, rt.alloc(), 2, 2)?;
    is_none(&rt, rt.alloc(), 6, 0)?;
    is_none(&rt, rt.alloc(), 0, 6)?;
    is_none(&rt, rt.alloc(), 7, 1)
}

#[test]
fn pictures(rt: HostRuntime) -> Result<(), Fail> {
    let picture = Picture::new(3, 2, [1, 2, 3, 4, 5, 6].to_vec(rt.alloc())?)
        .ok()
        .ok_or("no picture")?;
    assert!(rt; picture.width() == 3 && picture.height() == 2);
    assert_eq!(rt; picture.at(2, 0), 3);
    let corner = picture.window(rt.alloc(), 5, 3, 2)?;
    assert_eq!(rt; corner.as_slice(), [6, 4, 3, 1].as_slice());
    let wide = picture.window(rt.alloc(), 0, 1, 3)?;
    assert_eq!(rt; wide.as_slice(), [4, 5, 6, 1, 2, 3, 4, 5, 6].as_slice());
    Ok(())
}

/// A picture of seven by five, whose numbers tell where they stand.
fn seven_by_five(alloc: Global) -> Result<Picture, Fail> {
    let mut cells = Vec::new(alloc);
    for row in 0..5 {
        for column in 0..7 {
            cells.push(row * 10 + column)?;
        }
    }
    Ok(Picture::new(7, 5, cells).ok().ok_or("no picture")?)
}

/// The numbers of a window of that picture.
fn wanted(rt: &impl Abort, alloc: Global, x: u32, y: u32, n: u32) -> Result<Vec<u32>, Fail> {
    assert!(rt; x < 7 && y < 5 && n <= 6);
    let mut numbers = Vec::new(alloc);
    for j in 0..n {
        for i in 0..n {
            numbers.push((y + j) % 5 * 10 + (x + i) % 7)?;
        }
    }
    Ok(numbers)
}

/// Windows of one side from each pixel of that picture.
fn windows_of(rt: &impl Abort, alloc: Global, picture: &Picture, n: u32) -> Result<(), Fail> {
    for y in 0..5 {
        for x in 0..7 {
            let numbers = picture.window(alloc, x, y, n)?;
            let wanted = wanted(rt, alloc, x, y, n)?;
            assert_eq!(rt; numbers, wanted, "side {n} at {x} {y}");
        }
    }
    Ok(())
}

/// Windows of each side from each pixel of a picture of seven by five, whose numbers tell where they stand.
#[test]
fn windows_of_each_side(rt: HostRuntime) -> Result<(), Fail> {
    let picture = seven_by_five(rt.alloc())?;
    for n in 1..=6 {
        windows_of(&rt, rt.alloc(), &picture, n)?;
    }
    Ok(())
}

/// A window far larger than its picture.
#[test]
fn a_large_window(rt: HostRuntime) -> Result<(), Fail> {
    let picture = Picture::new(3, 1, [7, 8, 9].to_vec(rt.alloc())?)
        .ok()
        .ok_or("no picture")?;
    for (n, nines) in [(300, 30_000)] {
        let numbers = picture.window(rt.alloc(), 1, 0, n)?;
        let found = numbers.iter().filter(|number| **number == 9).count();
        assert_eq!(rt; (numbers.len(), found), (90_000, nines));
    }
    Ok(())
}
