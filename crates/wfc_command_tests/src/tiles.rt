//! The rows of each command for tile sets and for maps with holes.

use std::test::Fail;
use wfc_rows::{Row, first_wrong_row};

static LEARN: [Row; 7] = [
    (
        "learn lines.toml tiles",
        0,
        "tiles 1\nvariants 2\n0 1: line/0\n1 1: line/1\nacross 1\n0 0\ndown 1\n1 1\n",
        "",
    ),
    (
        "learn dot.toml tiles --symmetry 8 --wrap-in",
        0,
        "tiles 1\nvariants 1\n0 9: dot/0\nacross 0\ndown 0\n",
        "",
    ),
    (
        "learn f.toml tiles",
        4,
        "",
        "wfc: tiles BadTurn pair=0 file=f.toml\n",
    ),
    (
        "learn empty.toml tiles",
        4,
        "",
        "wfc: tiles NoTiles file=empty.toml\n",
    ),
    (
        "learn cut.toml tiles",
        4,
        "",
        "wfc: tiles Toml file=cut.toml\n",
    ),
    (
        "learn number.toml tiles",
        4,
        "",
        "wfc: tiles WrongKind top key=tile file=number.toml\n",
    ),
    (
        "learn nameless.toml tiles",
        4,
        "",
        "wfc: tiles MissingKey tile=0 key=name file=nameless.toml\n",
    ),
];

static FILL: [Row; 16] = [
    ("fill lines.toml tiles 3 1", 0, "0 0 0\n", ""),
    // Images and edges of a sample have no effect, but their values are held to their ranges.
    (
        "fill lines.toml tiles 3 1 --symmetry 8 --wrap-in",
        0,
        "0 0 0\n",
        "",
    ),
    (
        "fill lines.toml tiles 3 1 --symmetry 9",
        3,
        "",
        "wfc: command value symmetry\n",
    ),
    ("fill lines.toml tiles 2 2", 1, "", "wfc: no map\n"),
    (
        "fill corner.toml tiles 2 1 --pins corner.pins",
        0,
        "....\n#..#\n",
        "",
    ),
    (
        "fill corner.toml tiles 2 1 --pins corner.pins --form cells",
        0,
        "1 2\n",
        "",
    ),
    (
        "fill dot.toml tiles 1 1 --form p3",
        0,
        "P3\n1 1\n255\n1 2 3\n",
        "",
    ),
    (
        "fill none.toml tiles 3 1 --rule ranked",
        7,
        "",
        "wfc: chooser missing rule=ranked\n",
    ),
    (
        "fill none.toml tiles 3 1",
        5,
        "",
        "wfc: device Missing file=none.toml\n",
    ),
    // The pictures are read before the layout is looked at, and the layout is looked at before the pins file is read.
    (
        "fill lost.toml tiles 2 1 --form p6",
        5,
        "",
        "wfc: device Missing tile=1 file=lost.toml\n",
    ),
    (
        "fill corner.toml tiles 2 1 --form p6 --pins none.pins",
        4,
        "",
        "wfc: render FormDiffers\n",
    ),
    (
        "fill lines.toml tiles 3 1 --pins none.pins --mask none.txt",
        5,
        "",
        "wfc: device Missing file=none.pins\n",
    ),
    (
        "fill lines.toml tiles 3 1 --pins line.pins",
        1,
        "",
        "wfc: no map\n",
    ),
    (
        "fill lines.toml tiles 3 1 --pins other.pins",
        4,
        "",
        "wfc: build UnknownSymbol line=1 file=other.pins\n",
    ),
    (
        "fill lines.toml tiles 4096 1025 --pins other.pins",
        4,
        "",
        "wfc: build TooLarge product=8396800\n",
    ),
    (
        "fill lines.toml tiles 4097 1",
        3,
        "",
        "wfc: command value WIDTH\n",
    ),
];

static HOLES: [Row; 12] = [
    (
        "fill lines.toml tiles 3 1 --mask m.txt --pins line.pins",
        0,
        "0 - 1\n",
        "",
    ),
    (
        "fill corner.toml tiles 2 1 --mask half.txt --pins first.pins",
        0,
        "#.  \n..  \n",
        "",
    ),
    (
        "fill dot.toml tiles 2 1 --mask half.txt --form p3",
        0,
        "P3\n2 1\n255\n1 2 3\n0 0 0\n",
        "",
    ),
    (
        "fill lines.toml tiles 2 2 --mask bend.txt",
        1,
        "",
        "wfc: no map\n",
    ),
    (
        "fill lines.toml tiles 3 1 --mask m.txt --pins hole.pins",
        4,
        "",
        "wfc: build PinInHole line=1 file=hole.pins\n",
    ),
    (
        "fill lines.toml tiles 3 1 --mask half.txt",
        4,
        "",
        "wfc: mask SizeDiffers width=2 height=1 file=half.txt\n",
    ),
    (
        "fill lines.toml tiles 3 1 --mask odd.txt",
        4,
        "",
        "wfc: mask BadSymbol line=1 column=2 file=odd.txt\n",
    ),
    (
        "fill lines.toml tiles 3 1 --mask holes.txt",
        4,
        "",
        "wfc: mask AllHoles file=holes.txt\n",
    ),
    (
        "fill lines.toml tiles 3 1 --mask ragged.txt --pins other.pins",
        4,
        "",
        "wfc: mask Ragged line=2 file=ragged.txt\n",
    ),
    (
        "fill lines.toml tiles 3 1 --mask none.txt --pins other.pins",
        5,
        "",
        "wfc: device Missing file=none.txt\n",
    ),
    (
        "fill lines.toml tiles 4096 1025 --mask m.txt",
        4,
        "",
        "wfc: mask SizeDiffers width=3 height=1 file=m.txt\n",
    ),
    (
        "fill chk.txt 2 3 1 --mask m.txt",
        3,
        "",
        "wfc: command value mask\n",
    ),
];

static DOMAINS: [Row; 4] = [
    (
        "domains lines.toml tiles 3 1",
        0,
        "step 0\n0: 0\n1: 0\n2: 0\n",
        "",
    ),
    (
        "domains lines.toml tiles 3 1 --mask m.txt",
        0,
        "step 0\n0: 0 1\n1: 0 1\n",
        "",
    ),
    (
        "domains lines.toml tiles 3 1 --mask m.txt --steps one.steps",
        0,
        "step 0\n0: 0 1\n1: 0 1\nstep 1\n0: 0 1\n1: 1\n",
        "",
    ),
    (
        "domains lines.toml tiles 2 2",
        1,
        "step 0\ndead\n",
        "wfc: no consistent domains\n",
    ),
];

static REFUTE: [Row; 4] = [
    (
        "refute lines.toml tiles 2 2 --symmetry 8 --wrap-in",
        0,
        "wfc-refutation 2\ncells 4 values 2\nfor 0 2 2 1 1 0 0\nr 0 0 0 1\nr 0 1 1 2\nx 0\nq\n",
        "",
    ),
    (
        "refute lines.toml tiles 2 2 --format 1",
        0,
        "wfc-refutation 1\ncells 4 values 2\nr 0 0 1\nr 0 1 2\nx 0\nq\n",
        "",
    ),
    (
        "refute lines.toml tiles 2 2 --mask bend.txt",
        0,
        "wfc-refutation 2\ncells 3 values 2\nfor 0 2 2 1 1 0 0\nr 0 0 0 1\nr 0 1 1 2\nx 0\nq\n",
        "",
    ),
    (
        "refute lines.toml tiles 3 1",
        1,
        "wfc-refutation 2\ncells 3 values 2\nfor 0 3 1 1 1 0 0\nr 0 1 1 2\nr 1 1 1 0\nr 2 1 1 0\ns\n",
        "wfc: map exists\n",
    ),
];

static CHECK: [Row; 6] = [
    ("check lines.toml tiles 2 2 square.ref", 0, "accepted\n", ""),
    (
        "check lines.toml tiles 2 2 square_2.ref --symmetry 8 --wrap-in",
        0,
        "accepted\n",
        "",
    ),
    (
        "check lines.toml tiles 2 2 square_2.ref --wrap-out",
        1,
        "",
        "wfc: check OptionsDiffer n=0 width=2 height=2 depth=1 symmetry=1 wrap_in=0 wrap_out=0 file=square_2.ref\n",
    ),
    (
        "check lines.toml tiles 2 2 bend.ref --mask bend.txt",
        0,
        "accepted\n",
        "",
    ),
    (
        "check lines.toml tiles 2 2 square.ref --mask bend.txt",
        1,
        "",
        "wfc: check HeaderDiffers cells=4 values=2 file=square.ref\n",
    ),
    (
        "check lines.toml tiles 2 2 none.ref --pins other.pins",
        4,
        "",
        "wfc: build UnknownSymbol line=1 file=other.pins\n",
    ),
];

static UPGRADE: [Row; 3] = [
    (
        "upgrade lines.toml tiles 2 2 square.ref --symmetry 8 --wrap-in",
        0,
        "wfc-refutation 2\ncells 4 values 2\nfor 0 2 2 1 1 0 0\nr 0 0 0 1\nr 0 1 1 2\nx 0\nq\n",
        "",
    ),
    (
        "upgrade lines.toml tiles 2 2 bend.ref --mask bend.txt",
        0,
        "wfc-refutation 2\ncells 3 values 2\nfor 0 2 2 1 1 0 0\nr 0 0 0 1\nr 0 1 1 2\nx 0\nq\n",
        "",
    ),
    (
        "upgrade lines.toml tiles 2 2 none.ref",
        5,
        "",
        "wfc: device Missing file=none.ref\n",
    ),
];

#[test]
fn commands_take_tiles(rt: HostRuntime) -> Result<(), Fail> {
    assert_eq!(rt; first_wrong_row(rt.alloc(), 7, &LEARN)?, None);
    assert_eq!(rt; first_wrong_row(rt.alloc(), 1, &FILL)?, None);
    assert_eq!(rt; first_wrong_row(rt.alloc(), 64, &FILL)?, None);
    assert_eq!(rt; first_wrong_row(rt.alloc(), 3, &HOLES)?, None);
    assert_eq!(rt; first_wrong_row(rt.alloc(), 5, &DOMAINS)?, None);
    assert_eq!(rt; first_wrong_row(rt.alloc(), 64, &REFUTE)?, None);
    assert_eq!(rt; first_wrong_row(rt.alloc(), 1, &CHECK)?, None);
    assert_eq!(rt; first_wrong_row(rt.alloc(), 64, &CHECK)?, None);
    assert_eq!(rt; first_wrong_row(rt.alloc(), 1, &UPGRADE)?, None);
    assert_eq!(rt; first_wrong_row(rt.alloc(), 64, &UPGRADE)?, None);
    Ok(())
}
