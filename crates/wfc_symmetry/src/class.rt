//! The classes of tiles, and the eight actions of the square on the variants of a class.

ghost use Rattle.std.specs.Prelude.{◌≡◌, ◌<◌};
ghost use Rattle.wfc_symmetry.specs.Class.{variant_count, turned_variant, reflected_variant, variant_by_action};

/// How a tile looks when it is turned and reflected, which says how many variants it has.
#[derive(Clone, Copy, Debug, PartialEq, Eq)]
pub enum Class {
    /// The same under all of them, as a cross.
    X,
    /// Two variants, a quarter turn apart and each its own reflection, as a straight road.
    I,
    /// Four variants, of which a reflection exchanges neighbours, as a bend.
    L,
    /// Four variants, of which two are their own reflections, as a junction of three roads.
    T,
    /// Eight variants, all different.
    F,
    /// Two variants, exchanged by a quarter turn and by a reflection, as a diagonal.
    Slash,
}

/// How many variants a tile of a class has.
pub fn cardinality(class: Class) -> u8
    ensures exact { result ≡ variant_count class }
{
    match class {
        Class::X => 1,
        Class::I | Class::Slash => 2,
        Class::L | Class::T => 4,
        Class::F => 8,
    }
}

/// A variant after a quarter turn.
fn turn(class: Class, variant: u8) -> u8
    requires variant_in { variant < variant_count class }
    ensures exact { result ≡ turned_variant class variant }
    ensures variant_in { result < variant_count class }
{
    match class {
        Class::X => variant,
        Class::I | Class::Slash => 1 - variant,
        Class::L | Class::T => (variant + 1) % 4,
        Class::F if variant < 4 => (variant + 1) % 4,
        Class::F => 4 + (variant - 1) % 4,
    }
}

/// A variant after a reflection.
fn reflect(class: Class, variant: u8) -> u8
    requires variant_in { variant < variant_count class }
    ensures exact { result ≡ reflected_variant class variant }
    ensures variant_in { result < variant_count class }
{
    match class {
        Class::X | Class::I => variant,
        Class::Slash => 1 - variant,
        Class::L if variant % 2 == 0 => variant + 1,
        Class::L => variant - 1,
        Class::T if variant % 2 == 0 => variant,
        Class::T => 4 - variant,
        Class::F if variant < 4 => variant + 4,
        Class::F => variant - 4,
    }
}

/// The variant that action `k` makes of a variant: actions 0 to 3 are so many quarter turns, and actions 4 to 7 the
/// reflections behind 0 to 3 of them.
pub fn act(class: Class, variant: u8, k: u8) -> u8
    requires variant_in { variant < variant_count class }
    requires action_in { k < 8 }
    ensures exact { result ≡ variant_by_action class variant k }
    ensures variant_in { result < variant_count class }
{
    let mut turned = variant;
    for _turn in 0..k % 4 {
        turned = turn(class, turned);
    }
    if k < 4 {
        return turned;
    }
    reflect(class, turned)
}
