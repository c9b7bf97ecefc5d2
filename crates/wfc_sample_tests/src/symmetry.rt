//! The images of windows and the actions on variants, by tables.

ghost use Rattle.std.specs.Prelude.{◌≤◌, ◌<◌};
ghost use Rattle.wfc_symmetry.specs.Class.{variant_count};

use std::test::Fail;
use wfc_symmetry::{Class, act, cardinality, image};

/// The images of a window of one to four, and the fourth of one of one to nine.
#[test]
fn images(rt: HostRuntime) -> Result<(), Fail> {
    let four = [
        [1, 2, 3, 4],
        [2, 1, 4, 3],
        [2, 4, 1, 3],
        [4, 2, 3, 1],
        [4, 3, 2, 1],
        [3, 4, 1, 2],
        [3, 1, 4, 2],
        [1, 3, 2, 4],
    ];
    for (k, wanted) in four.iter().enumerate() {
        let made = image(rt.alloc(), &[1, 2, 3, 4], 2, k as u8)?;
        assert_eq!(rt; made.as_slice(), wanted.as_slice(), "image {k}");
    }
    let nine = image(rt.alloc(), &[1, 2, 3, 4, 5, 6, 7, 8, 9], 3, 3)?;
    assert_eq!(rt; nine.as_slice(), [9, 6, 3, 8, 5, 2, 7, 4, 1].as_slice());
    Ok(())
}

/// Where the number in column `x` of row `y` of image `k` stands in the window, whose last column is `end`: each image
/// shows the columns or the rows as they come or backwards, with both exchanged after every other turn.
fn source(k: u8, x: u32, y: u32, end: u32) -> (u32, u32)
    requires column_in { x ≤ end }
    requires row_in { y ≤ end }
{
    match k {
        0 => (x, y),
        1 => (end - x, y),
        2 => (end - y, x),
        3 => (end - y, end - x),
        4 => (end - x, end - y),
        5 => (x, end - y),
        6 => (y, end - x),
        _ => (y, x),
    }
}

/// A number that tells where it stands.
fn told(column: u32, row: u32) -> u32 {
    row.wrapping_mul(1000).wrapping_add(column)
}

/// All eight images of windows of each side, whose numbers tell where they stand, and of a large one.
#[test]
fn images_of_each_side(rt: HostRuntime) -> Result<(), Fail> {
    for n in [1, 2, 3, 4, 5, 6, 300] {
        let mut window = Vec::new(rt.alloc());
        for row in 0..n {
            for column in 0..n {
                window.push(told(column, row))?;
            }
        }
        for k in 0..8 {
            assert_eq!(rt; window.len(), n as usize * n as usize);
            let made = image(rt.alloc(), &window, n, k)?;
            let mut rest = made.iter();
            for y in 0..n {
                for x in 0..n {
                    let (column, row) = source(k, x, y, n - 1);
                    assert_eq!(rt;
                        rest.next(),
                        Some(&told(column, row)),
                        "image {k} of side {n}"
                    );
                }
            }
            assert_eq!(rt; rest.next(), None);
        }
    }
    Ok(())
}

/// Makes the eight actions on a variant.
fn actions(class: Class, variant: u8) -> [u8; 8]
    requires variant_in { variant < variant_count class }
{
    [
        act(class, variant, 0),
        act(class, variant, 1),
        act(class, variant, 2),
        act(class, variant, 3),
        act(class, variant, 4),
        act(class, variant, 5),
        act(class, variant, 6),
        act(class, variant, 7),
    ]
}

/// The eight actions on the last variant of each class, by hand.
#[test]
fn actions_on_last_variants(rt: HostRuntime) -> Result<(), Fail> {
    assert_eq!(rt; actions(Class::X, 0), [0, 0, 0, 0, 0, 0, 0, 0]);
    assert_eq!(rt; actions(Class::I, 1), [1, 0, 1, 0, 1, 0, 1, 0]);
    assert_eq!(rt; actions(Class::Slash, 1), [1, 0, 1, 0, 0, 1, 0, 1]);
    assert_eq!(rt; actions(Class::L, 3), [3, 0, 1, 2, 2, 1, 0, 3]);
    assert_eq!(rt; actions(Class::T, 3), [3, 0, 1, 2, 1, 0, 3, 2]);
    assert_eq!(rt; actions(Class::F, 7), [7, 6, 5, 4, 3, 2, 1, 0]);
    assert_eq!(rt; [cardinality(Class::L), cardinality(Class::F)], [4, 8]);
    Ok(())
}
