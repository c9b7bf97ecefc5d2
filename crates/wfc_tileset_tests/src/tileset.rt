//! Documents read, by tables.

mod pictures;

use std::alloc::{AllocError, Global};
use std::process::Abort;
use std::test::Fail;
use wfc_tileset::{Key, Place, TileFault, TileSet, read};

/// One straight line, which may go on to the right.
const LINES: &str =
    "[[tile]]\nname = \"line\"\nclass = \"I\"\n\n[[pair]]\nleft = \"line 0\"\nright = \"line 0\"\n";

/// Two corners beside each other.
const CORNER: &str =
    "[[tile]]\nname = \"corner\"\nclass = \"L\"\npicture = \"c.txt\"\n\n[[pair]]\nleft = \"corner 1\"\nright = \"corner 2\"\n";

/// What a document spells.
fn read_text(rt: &impl Abort, alloc: Global, text: &[u8]) -> Result<TileSet, TileFault> {
    assert!(rt; text.len() <= 16_777_216);
    read(alloc, text)
}

/// The pairs of variants that may stand beside each other, or below each other.
fn allowed(
    rt: &impl Abort,
    alloc: Global,
    set: &TileSet,
    below: bool,
) -> Result<Vec<(u16, u16)>, AllocError> {
    let mut pairs = Vec::new(alloc);
    for v in 0..set.variants() {
        for w in 0..set.variants() {
            let marked = if below {
                set.down(v, w)
            } else {
                set.across(v, w)
            };
            if marked {
                pairs.push((v, w))?;
            }
        }
    }
    assert!(rt; pairs.len() < 1000);
    Ok(pairs)
}

/// Whether these pairs of variants may stand beside each other, or below each other.
fn are_allowed(
    rt: &impl Abort,
    alloc: Global,
    set: &TileSet,
    below: bool,
    wanted: &[(u16, u16)],
) -> Result<(), AllocError> {
    let found = allowed(rt, alloc, set, below)?;
    assert_eq!(rt; found.as_slice(), wanted);
    Ok(())
}

/// Whether there are so many tiles and variants.
fn has(rt: &impl Abort, set: &TileSet, tiles: u32, variants: u16) {
    assert_eq!(rt; (set.tiles(), set.variants()), (tiles, variants));
}

/// Whether a variant weighs so much.
fn weighs(rt: &impl Abort, set: &TileSet, v: u16, wanted: u32) {
    assert!(rt; v < set.variants());
    assert_eq!(rt; set.weight(v), wanted);
}

/// Whether a tile has this name.
fn is_named(rt: &impl Abort, set: &TileSet, tile: u32, wanted: &str) {
    assert!(rt; tile < set.tiles());
    assert_eq!(rt; set.name(tile), wanted);
}

/// Whether a variant is this one of this tile.
fn is_of_tile(rt: &impl Abort, set: &TileSet, v: u16, wanted: (u32, u8)) {
    assert!(rt; v < set.variants());
    assert_eq!(rt; set.tile_of(v), wanted);
}

#[test]
fn reads_lines(rt: HostRuntime) -> Result<(), Fail> {
    let set = read_text(&rt, rt.alloc(), LINES.as_bytes())?;
    has(&rt, &set, 1, 2);
    is_named(&rt, &set, 0, "line");
    weighs(&rt, &set, 1, 1);
    is_of_tile(&rt, &set, 1, (0, 1));
    are_allowed(&rt, rt.alloc(), &set, false, &[(0, 0)])?;
    are_allowed(&rt, rt.alloc(), &set, true, &[(1, 1)])?;
    Ok(())
}

/// Whether a word spells this variant, or none.
fn finds(rt: &impl Abort, set: &TileSet, word: &[u8], wanted: Option<u16>) {
    assert_eq!(rt; set.find(word), wanted, "of {word:?}");
}

#[test]
fn finds_variants(rt: HostRuntime) -> Result<(), Fail> {
    let set = read_text(&rt, rt.alloc(), LINES.as_bytes())?;
    finds(&rt, &set, b"line/1", Some(1));
    finds(&rt, &set, b"line/2", None);
    finds(&rt, &set, b"line", None);
    finds(&rt, &set, b"line/", None);
    finds(&rt, &set, b"lin/0", None);
    finds(&rt, &set, b"line/00", None);
    Ok(())
}

#[test]
fn reads_tiles_with_actions(rt: HostRuntime) -> Result<(), Fail> {
    let text =
        "[[tile]]\nname = \"f\"\nclass = \"F\"\nweight = 7\n\n[[pair]]\nleft = \"f 5\"\nright = \"f\"\n";
    let set = read_text(&rt, rt.alloc(), text.as_bytes())?;
    has(&rt, &set, 1, 8);
    weighs(&rt, &set, 5, 7);
    Ok(())
}

#[test]
fn reads_tiles_with_pictures(rt: HostRuntime) -> Result<(), Fail> {
    let set = read_text(&rt, rt.alloc(), CORNER.as_bytes())?;
    has(&rt, &set, 1, 4);
    are_allowed(
        &rt,
        rt.alloc(),
        &set,
        false,
        &[(0, 3), (1, 2), (2, 1), (3, 0)],
    )?;
    Ok(())
}

/// A document of a tile `a` of class `X` with more lines, and of an end of a pair.
fn with_tile(alloc: Global, more: &str, pair: &str) -> Result<String, AllocError> {
    format!(in alloc; "tile = [{{name = 'a', class = 'X'{more}}}]\n{pair}")
}

/// Whether bytes are no document of a tile set, and for this reason.
fn is_refused(rt: &impl Abort, alloc: Global, text: &[u8], wanted: TileFault) {
    let found = read_text(rt, alloc, text).err();
    assert_eq!(rt; found, Some(wanted), "of {text:?}");
}

/// That something of a key has the wrong kind.
fn wrong_kind(place: Place, key: Key) -> TileFault {
    TileFault::WrongKind { place, key }
}

/// That a key is missing.
fn missing(place: Place, key: Key) -> TileFault {
    TileFault::MissingKey { place, key }
}

#[test]
fn refuses_documents(rt: HostRuntime) {
    let alloc = rt.alloc();
    is_refused(&rt, alloc, b"", TileFault::NoTiles);
    is_refused(&rt, alloc, b"x =", TileFault::Toml);
    is_refused(&rt, alloc, b"x = \"\xff\"", TileFault::Toml);
    is_refused(&rt, alloc, b"tile = 3", wrong_kind(Place::Top, Key::Tile));
    is_refused(&rt, alloc, b"pair = 3", wrong_kind(Place::Top, Key::Pair));
    is_refused(&rt, alloc, b"tile = []", TileFault::NoTiles);
    is_refused(&rt, alloc, b"[[tile]]", missing(Place::Tile(0), Key::Name));
    is_refused(
        &rt,
        alloc,
        b"[[tile]]\nname = 'a'",
        missing(Place::Tile(0), Key::Class),
    );
    is_refused(
        &rt,
        alloc,
        b"tile = [7]",
        wrong_kind(Place::Tile(0), Key::Tile),
    );
    is_refused(
        &rt,
        alloc,
        b"[[tile]]\nname = 'a b'\nclass = 'X'",
        TileFault::BadName { tile: 0 },
    );
    is_refused(
        &rt,
        alloc,
        b"[[tile]]\nname = 'a'\nclass = 'x'",
        TileFault::BadClass { tile: 0 },
    );
    is_refused(
        &rt,
        alloc,
        b"tile = [{name = 'a', class = 'X'}, {name = 'a', class = 7}]",
        TileFault::DoubleName { tile: 1 },
    );
    is_refused(
        &rt,
        alloc,
        b"[[tile]]\nname = 'a'\nclass = 'x'\nweight = 0",
        TileFault::BadClass { tile: 0 },
    );
}

/// Whether a document of a tile with more lines, and of pairs, is refused for this reason, or read.
fn is_read_as(
    rt: &impl Abort,
    alloc: Global,
    more: &str,
    pair: &str,
    wanted: Option<TileFault>,
) -> Result<(), Fail> {
    let text = with_tile(alloc, more, pair)?;
    let found = read_text(rt, alloc, text.as_bytes()).err();
    assert_eq!(rt; found, wanted, "of {more:?} and {pair:?}");
    Ok(())
}

#[test]
fn refuses_tiles(rt: HostRuntime) -> Result<(), Fail> {
    let alloc = rt.alloc();
    let bad_weight = Some(TileFault::BadWeight { tile: 0 });
    is_read_as(&rt, alloc, ", weight = 1000000", "", None)?;
    is_read_as(&rt, alloc, ", weight = 0", "", bad_weight)?;
    is_read_as(&rt, alloc, ", weight = 1000001", "", bad_weight)?;
    is_read_as(&rt, alloc, ", weight = 0, picture = 1", "", bad_weight)?;
    let wrong = wrong_kind(Place::Tile(0), Key::Picture);
    is_read_as(&rt, alloc, ", picture = 1", "", Some(wrong))
}

#[test]
fn refuses_pairs(rt: HostRuntime) -> Result<(), Fail> {
    let alloc = rt.alloc();
    let bad_turn = Some(TileFault::BadTurn { pair: 0 });
    let unknown = Some(TileFault::UnknownTile { pair: 1 });
    let other = "pair = [{left = 'a', right = 'a'}, {left = 'b', right = 'a '}]";
    is_read_as(&rt, alloc, "", "pair = [{left = 'a 7', right = 'a'}]", None)?;
    is_read_as(
        &rt,
        alloc,
        "",
        "pair = [{left = 'a 8', right = 'b'}]",
        bad_turn,
    )?;
    is_read_as(&rt, alloc, "", other, unknown)?;
    is_read_as(
        &rt,
        alloc,
        "",
        "pair = [{left = 'a', right = 'a '}]",
        bad_turn,
    )?;
    let lacking = missing(Place::Pair(0), Key::Right);
    is_read_as(&rt, alloc, "", "pair = [{left = 'a'}]", Some(lacking))
}

/// Writes so many tiles of a class.
fn push_tiles(text: &mut String, tiles: u32, class: &str) -> Result<(), AllocError> {
    for tile in 0..tiles {
        write!(text, "[[tile]]\nname = 't{tile}'\nclass = '{class}'\n")?;
    }
    Ok(())
}

/// Writes so many pairs of so many tiles.
fn push_pairs(text: &mut String, tiles: u32, pairs: u32) -> Result<(), AllocError> {
    for pair in 0..pairs {
        let left = pair % tiles.max(1);
        let right = pair / 7 % tiles.max(1);
        let turn = pair % 8;
        write!(
            text,
            "[[pair]]\nleft = 't{left} {turn}'\nright = 't{right}'\n"
        )?;
    }
    Ok(())
}

/// A document of so many tiles of a class and so many pairs of them.
fn many(alloc: Global, tiles: u32, class: &str, pairs: u32) -> Result<String, AllocError> {
    let mut text = String::new(alloc);
    push_tiles(&mut text, tiles, class)?;
    push_pairs(&mut text, tiles, pairs)?;
    Ok(text)
}

/// Whether a document of so many tiles of a class and of 10,000 pairs has 4,096 variants.
fn fills(rt: &impl Abort, alloc: Global, tiles: u32, class: &str) -> Result<(), Fail> {
    let text = many(alloc, tiles, class, 10_000)?;
    let set = read_text(rt, alloc, text.as_bytes())?;
    has(rt, &set, tiles, 4096);
    Ok(())
}

#[test]
fn reads_the_largest_sets(rt: HostRuntime) -> Result<(), Fail> {
    fills(&rt, rt.alloc(), 4096, "X")?;
    fills(&rt, rt.alloc(), 512, "F")
}

#[test]
fn refuses_larger_sets(rt: HostRuntime) -> Result<(), Fail> {
    let text = many(rt.alloc(), 4097, "X", 0)?;
    let found = read_text(&rt, rt.alloc(), text.as_bytes()).err();
    assert_eq!(rt; found, Some(TileFault::TooManyVariants { count: 4097 }));
    Ok(())
}
