//! The rows of each command.

use std::test::Fail;
use wfc_rows::{Row, RowPart, first_wrong_row};

static FILL: [Row; 35] = [
    ("fill chk.txt 2 2 2", 0, "ab\nba\n", ""),
    // The one pattern disagrees with itself.
    ("fill chk.txt 2 3 2", 1, "", "wfc: no map\n"),
    ("fill chk.txt 2 1 2", 4, "", "wfc: build SizeBelowN\n"),
    ("fill chk.txt 2 2 1", 4, "", "wfc: build SizeBelowN\n"),
    (
        "fill chk.txt 2 3 3 --wrap-in --pins a.pins",
        0,
        "aba\nbab\naba\n",
        "",
    ),
    (
        "fill chk.txt 2 3 3 --wrap-in --pins=not_a.pins",
        0,
        "bab\naba\nbab\n",
        "",
    ),
    (
        "fill chk.txt 2 3 2 --wrap-in --pins last.pins --form grid",
        1,
        "",
        "wfc: no map\n",
    ),
    (
        "fill chk.txt 2 3 3 --wrap-in --form cells --pins a.pins",
        0,
        "0 1 0\n1 0 1\n0 1 0\n",
        "",
    ),
    // A ring of three has no map, and one retraction shows it.
    (
        "fill chk.txt 2 3 3 --wrap-in --wrap-out --budget 1",
        1,
        "",
        "wfc: no map\n",
    ),
    (
        "fill chk.txt 2 3 3 --wrap-in --wrap-out --budget 0",
        2,
        "",
        "wfc: budget spent budget=0\n",
    ),
    (
        "fill chk.txt 2 3 3 --wrap-in --pins ab.pins --budget 0",
        1,
        "",
        "wfc: no map\n",
    ),
    (
        "fill chk.txt 2 2 2 --wrap-in --wrap-out --pins a.pins",
        0,
        "ab\nba\n",
        "",
    ),
    (
        "fill chk.txt 2 3 3 --wrap-in --pins z.pins",
        4,
        "",
        "wfc: build UnknownSymbol line=1 file=z.pins\n",
    ),
    (
        "fill chk.txt 2 3 3 --wrap-in --pins out.pins",
        4,
        "",
        "wfc: build PinOutside line=1 file=out.pins\n",
    ),
    (
        "fill chk.txt 2 3 3 --wrap-in --pins bad.pins",
        4,
        "",
        "wfc: pins BadLine line=1 file=bad.pins\n",
    ),
    (
        "fill chk.txt 2 3 3 --pins none.pins",
        5,
        "",
        "wfc: device Missing file=none.pins\n",
    ),
    // The layout is looked at before the pins file is read.
    (
        "fill chk.txt 2 3 3 --pins none.pins --form p6",
        4,
        "",
        "wfc: render FormDiffers\n",
    ),
    ("fill a.txt 1 3 2", 0, "aaa\naaa\n", ""),
    (
        "fill a.txt 2 3 3",
        4,
        "",
        "wfc: learn SampleBelowN file=a.txt\n",
    ),
    ("fill a.txt 2 3 3 --wrap-in", 0, "aaa\naaa\naaa\n", ""),
    (
        "fill a.txt 1 4096 2049",
        4,
        "",
        "wfc: build TooLarge product=8392704\n",
    ),
    ("fill e.txt 1 1 1", 4, "", "wfc: grid Empty file=e.txt\n"),
    (
        "fill r.txt 1 1 1",
        4,
        "",
        "wfc: grid Ragged line=2 file=r.txt\n",
    ),
    (
        "fill tab.txt 1 1 1",
        4,
        "",
        "wfc: grid BadByte line=2 column=2 file=tab.txt\n",
    ),
    (
        "fill none.txt 2 2 2",
        5,
        "",
        "wfc: device Missing file=none.txt\n",
    ),
    // The chooser is looked for before any file is read.
    (
        "fill none.txt 2 2 2 --rule ranked",
        7,
        "",
        "wfc: chooser missing rule=ranked\n",
    ),
    ("fill chk.txt 7 2 2", 3, "", "wfc: command value MODEL\n"),
    ("fill chk.txt 2 4097 0", 3, "", "wfc: command value WIDTH\n"),
    (
        "fill chk.txt 2 2 2 --seed=-1",
        3,
        "",
        "wfc: command value seed\n",
    ),
    (
        "fill chk.txt 2 2 2 --budget 1000000001",
        3,
        "",
        "wfc: command value budget\n",
    ),
    ("fill chk.txt 2 2", 3, "", "wfc: command refused\n"),
    ("paint chk.txt", 3, "", "wfc: command refused\n"),
    ("", 3, "", "wfc: command refused\n"),
    // A sample is no tile set.
    (
        "fill chk.txt tiles 2 2",
        4,
        "",
        "wfc: tiles Toml file=chk.txt\n",
    ),
    (
        "upgrade chk.txt tiles 3 2 one.ref",
        4,
        "",
        "wfc: tiles Toml file=chk.txt\n",
    ),
];

/// Samples in colours.
static PICTURES: [Row; 11] = [
    (
        "fill one.ppm 1 2 1",
        0,
        "P6\n2 1\n255\n\x01\x02\x03\x01\x02\x03",
        "",
    ),
    (
        "fill one.ppm 1 2 1 --form p3",
        0,
        "P3\n2 1\n255\n1 2 3\n1 2 3\n",
        "",
    ),
    ("fill one.ppm 1 2 1 --form cells", 0, "0 0\n", ""),
    (
        "fill one.ppm 1 2 1 --form grid",
        4,
        "",
        "wfc: render FormDiffers\n",
    ),
    // The last of two columns is red in a map whose first is blue.
    (
        "fill two.PPM 1 2 1 --form p3 --pins blue.pins",
        0,
        "P3\n2 1\n9\n0 0 9\n9 0 0\n",
        "",
    ),
    (
        "fill one.ppm 1 2 1 --pins a.pins",
        4,
        "",
        "wfc: build UnknownSymbol line=1 file=a.pins\n",
    ),
    (
        "fill two.ppm 1 2 1",
        5,
        "",
        "wfc: device Missing file=two.ppm\n",
    ),
    (
        "learn two.PPM 1",
        0,
        "overlap 1\ncolours 2\n0 9,0,0\n1 0,0,9\npatterns 2\n0 1: 0\n1 1: 1\n",
        "",
    ),
    (
        "domains two.PPM 1 2 1 --pins blue.pins",
        0,
        "step 0\n0: 1\n1: 0\n",
        "",
    ),
    ("learn e.ppm 1", 4, "", "wfc: ppm Magic file=e.ppm\n"),
    (
        "learn cut.ppm 1",
        4,
        "",
        "wfc: ppm Truncated wanted=3 found=2 file=cut.ppm\n",
    ),
];

static LEARN: [Row; 5] = [
    (
        "learn chk.txt 2 --wrap-in",
        0,
        "overlap 2\ncolours 2\n0 a\n1 b\npatterns 2\n0 2: 0 1 1 0\n1 2: 1 0 0 1\n",
        "",
    ),
    (
        "learn chk.txt 2 --symmetry 8",
        0,
        "overlap 2\ncolours 2\n0 a\n1 b\npatterns 2\n0 4: 0 1 1 0\n1 4: 1 0 0 1\n",
        "",
    ),
    ("learn e.txt 1", 4, "", "wfc: grid Empty file=e.txt\n"),
    (
        "learn none.txt 1",
        5,
        "",
        "wfc: device Missing file=none.txt\n",
    ),
    (
        "learn chk.txt 2 --symmetry 9",
        3,
        "",
        "wfc: command value symmetry\n",
    ),
];

static DOMAINS: [Row; 9] = [
    (
        "domains chk.txt 2 4 2 --wrap-in --steps two.steps",
        0,
        "step 0\n0: 0 1\n1: 0 1\n2: 0 1\nstep 1\n0: 0\n1: 1\n2: 0\nstep 2\ndead\n\
         step 3\n0: 0\n1: 1\n2: 0\nstep 4\n0: 0 1\n1: 0 1\n2: 0 1\n",
        "",
    ),
    (
        "domains chk.txt 2 3 3 --wrap-in --wrap-out --steps ring.steps",
        0,
        "step 0\n0: 0 1\n1: 0 1\n2: 0 1\n3: 0 1\n4: 0 1\n5: 0 1\n6: 0 1\n7: 0 1\n8: 0 1\nstep 1\ndead\n\
         step 2\n0: 0 1\n1: 0 1\n2: 0 1\n3: 0 1\n4: 0 1\n5: 0 1\n6: 0 1\n7: 0 1\n8: 0 1\n",
        "",
    ),
    // A cell of the root is empty, whatever the steps are.
    (
        "domains chk.txt 2 3 2 --steps none.steps",
        1,
        "step 0\ndead\n",
        "wfc: no consistent domains\n",
    ),
    (
        "domains chk.txt 2 3 2 --steps ring.steps",
        1,
        "step 0\ndead\nstep 1\ndead\nstep 2\ndead\n",
        "wfc: no consistent domains\n",
    ),
    (
        "domains chk.txt 2 4 2 --wrap-in --steps undo.steps",
        4,
        "",
        "wfc: steps NothingToUndo line=1 file=undo.steps\n",
    ),
    (
        "domains chk.txt 2 4 2 --wrap-in --steps out.steps",
        4,
        "",
        "wfc: steps OutOfRange line=1 file=out.steps\n",
    ),
    (
        "domains chk.txt 2 4 2 --wrap-in --steps low.steps",
        4,
        "",
        "wfc: steps OutOfRange line=1 file=low.steps\n",
    ),
    (
        "domains chk.txt 2 4 2 --wrap-in --steps bad.steps",
        4,
        "",
        "wfc: steps BadLine line=1 file=bad.steps\n",
    ),
    (
        "domains chk.txt 2 4 2 --wrap-in --steps gone.steps",
        5,
        "",
        "wfc: device Missing file=gone.steps\n",
    ),
];

static REFUTE: [Row; 9] = [
    (
        "refute chk.txt 2 3 2",
        0,
        "wfc-refutation 2\ncells 2 values 1\nfor 2 3 2 1 1 0 0\nr 0 0 0 2\nx 0\nq\n",
        "",
    ),
    (
        "refute chk.txt 2 3 2 --format 1",
        0,
        "wfc-refutation 1\ncells 2 values 1\nr 0 0 2\nx 0\nq\n",
        "",
    ),
    // Two removals of one cell and direction.
    (
        "refute col.txt 2 3 2",
        0,
        "wfc-refutation 2\ncells 2 values 2\nfor 2 3 2 1 1 0 0\nr 0 0 1 2\nx 0\nq\n",
        "",
    ),
    // The base of a cell is empty.
    (
        "refute chk.txt 2 3 3 --wrap-in --pins ab.pins --format 1",
        0,
        "wfc-refutation 1\ncells 4 values 2\nx 0\nq\n",
        "",
    ),
    (
        "refute chk.txt 2 3 2 --rule ranked",
        7,
        "",
        "wfc: chooser missing rule=ranked\n",
    ),
    // The one window is a map.
    (
        "refute chk.txt 2 2 2",
        1,
        "wfc-refutation 2\ncells 1 values 1\nfor 2 2 2 1 1 0 0\ns\n",
        "wfc: map exists\n",
    ),
    (
        "refute chk.txt 2 2 2 --format 1",
        1,
        "wfc-refutation 1\ncells 1 values 1\ns\n",
        "wfc: map exists\n",
    ),
    (
        "refute chk.txt 2 3 2 --format 3",
        3,
        "",
        "wfc: command value format\n",
    ),
    (
        "refute gone.txt 2 3 2",
        5,
        "",
        "wfc: device Missing file=gone.txt\n",
    ),
];

static CHECK: [Row; 8] = [
    ("check chk.txt 2 3 2 one.ref", 0, "accepted\n", ""),
    ("check chk.txt 2 3 2 two.ref", 0, "accepted\n", ""),
    (
        "check chk.txt 2 3 2 other.ref",
        1,
        "",
        "wfc: check OptionsDiffer n=2 width=3 height=2 depth=1 symmetry=8 wrap_in=0 wrap_out=0 file=other.ref\n",
    ),
    (
        "check chk.txt 2 3 2 open.ref",
        1,
        "",
        "wfc: check NotEnded file=open.ref\n",
    ),
    (
        "check chk.txt 2 3 2 full.ref",
        1,
        "",
        "wfc: check Rejected line=3 reject=NotEmpty value=0 file=full.ref\n",
    ),
    // A ring of three by three has other cells and values.
    (
        "check chk.txt 2 3 3 --wrap-in --wrap-out one.ref",
        1,
        "",
        "wfc: check HeaderDiffers cells=2 values=1 file=one.ref\n",
    ),
    (
        "check chk.txt 2 3 2 a.txt",
        1,
        "",
        "wfc: check BadLine line=1 file=a.txt\n",
    ),
    (
        "check chk.txt 2 3 2 gone.ref",
        5,
        "",
        "wfc: device Missing file=gone.ref\n",
    ),
];

static UPGRADE: [Row; 8] = [
    (
        "upgrade chk.txt 2 3 2 one.ref",
        0,
        "wfc-refutation 2\ncells 2 values 1\nfor 2 3 2 1 1 0 0\nr 0 0 0 2\nx 0\nq\n",
        "",
    ),
    (
        "upgrade chk.txt 2 3 2 two.ref",
        0,
        "wfc-refutation 2\ncells 2 values 1\nfor 2 3 2 1 1 0 0\nr 0 0 0 2\nx 0\nq\n",
        "",
    ),
    (
        "upgrade col.txt 2 3 2 two_removals.ref",
        0,
        "wfc-refutation 2\ncells 2 values 2\nfor 2 3 2 1 1 0 0\nr 0 0 1 2\nx 0\nq\n",
        "",
    ),
    // Spans that follow are joined, and only such.
    (
        "upgrade col.txt 2 3 2 two_spans.ref",
        0,
        "wfc-refutation 2\ncells 2 values 2\nfor 2 3 2 1 1 0 0\nr 0 0 1 2\nx 0\nq\n",
        "",
    ),
    (
        "upgrade col.txt 2 3 2 falling.ref",
        0,
        "wfc-refutation 2\ncells 2 values 2\nfor 2 3 2 1 1 0 0\nr 0 1 1 2\nr 0 0 0 2\nx 0\nq\n",
        "",
    ),
    (
        "upgrade chk.txt 2 3 2 other.ref",
        1,
        "",
        "wfc: check OptionsDiffer n=2 width=3 height=2 depth=1 symmetry=8 wrap_in=0 wrap_out=0 file=other.ref\n",
    ),
    (
        "upgrade chk.txt 2 3 2 open.ref",
        1,
        "",
        "wfc: check NotEnded file=open.ref\n",
    ),
    (
        "upgrade chk.txt 2 3 2 gone.ref",
        5,
        "",
        "wfc: device Missing file=gone.ref\n",
    ),
];

static DEMO: [Row; 3] = [
    (
        "demo 0",
        0,
        "patterns 9\ncells 2116\nretractions 0\nstatus 0\n",
        "",
    ),
    (
        "demo 6",
        0,
        "patterns 16\ncells 2116\nretractions 0\nstatus 0\n",
        "",
    ),
    ("demo 1000001", 3, "", "wfc: command value NUMBER\n"),
];

#[test]
fn commands_answer(rt: HostRuntime) -> Result<(), Fail> {
    assert_eq!(rt; first_wrong_row(rt.alloc(), 1, &FILL)?, None);
    assert_eq!(rt; first_wrong_row(rt.alloc(), 64, &FILL)?, None);
    assert_eq!(rt; first_wrong_row(rt.alloc(), 7, &LEARN)?, None);
    assert_eq!(rt; first_wrong_row(rt.alloc(), 3, &PICTURES)?, None);
    assert_eq!(rt; first_wrong_row(rt.alloc(), 5, &DOMAINS)?, None);
    assert_eq!(rt; first_wrong_row(rt.alloc(), 1, &REFUTE)?, None);
    assert_eq!(rt; first_wrong_row(rt.alloc(), 64, &REFUTE)?, None);
    assert_eq!(rt; first_wrong_row(rt.alloc(), 1, &CHECK)?, None);
    assert_eq!(rt; first_wrong_row(rt.alloc(), 64, &CHECK)?, None);
    assert_eq!(rt; first_wrong_row(rt.alloc(), 1, &UPGRADE)?, None);
    assert_eq!(rt; first_wrong_row(rt.alloc(), 64, &UPGRADE)?, None);
    assert_eq!(rt; first_wrong_row(rt.alloc(), 64, &DEMO)?, None);
    Ok(())
}

/// Rows that say otherwise than what comes, one part each, behind one that is right.
static WRONG: [[Row; 2]; 3] = [
    [
        ("fill chk.txt 2 2 2", 0, "ab\nba\n", ""),
        ("fill chk.txt 2 3 2", 0, "", "wfc: no map\n"),
    ],
    [
        ("fill chk.txt 2 2 2", 0, "ab\nba\n", ""),
        ("fill chk.txt 2 2 2 --seed 1", 0, "ab\nb", ""),
    ],
    [
        ("fill chk.txt 2 2 2", 0, "ab\nba\n", ""),
        ("fill chk.txt 2 3 2", 1, "", "wfc: no map"),
    ],
];

#[test]
fn what_a_row_says_otherwise_is_told(rt: HostRuntime) -> Result<(), Fail> {
    let parts = [RowPart::Status, RowPart::Answer, RowPart::ErrorStream];
    for at in 0..3 {
        let wrong = first_wrong_row(rt.alloc(), 64, &WRONG[at])?;
        assert_eq!(rt; wrong, Some((WRONG[at][1].0, parts[at])));
    }
    Ok(())
}
