//! The files that command lines name.

/// Samples, pins, steps and refutations, with faults and without.
pub(crate) const FILES: [(&str, &str); 36] = [
    ("chk.txt", "ab\nba\n"),
    ("a.txt", "a\n"),
    ("col.txt", "ab\ncd\nef\n"),
    ("e.txt", ""),
    ("r.txt", "ab\nb\n"),
    ("tab.txt", "ab\r\nb\t"),
    ("one.ppm", "P3\n1 1\n255\n1 2 3\n"),
    ("two.PPM", "P3 2 1 9 9 0 0 0 0 9"),
    ("e.ppm", ""),
    ("cut.ppm", "P3 1 1 255 1 2"),
    (
        "town.txt",
        "################\n#...#...#...#...\n#...#...#...#...\n#...#...#...#...\n",
    ),
    ("a.pins", "pin 0 0 a\n"),
    ("blue.pins", "pin 0 0 0,0,9\nban 1 0 0,0,9\n"),
    ("ab.pins", "pin 0 0 a\npin 0 0 b\n"),
    ("core.pins", "pin 0 0 a\npin 0 0 b\npin 2 2 a\n"),
    ("no.pins", "# no pin\n"),
    ("not_a.pins", "# none\n\nban 0 0 a\n"),
    ("last.pins", "ban 2 1 a\nban 2 0 a\n"),
    ("z.pins", "pin 0 0 z\n"),
    ("out.pins", "pin 3 0 z\n"),
    ("bad.pins", "pin 0 a\n"),
    ("two.steps", "choose 0 0\nchoose 2 1\nundo\nundo\n"),
    ("ring.steps", "choose 0 0\nundo\n"),
    ("none.steps", "# no step\n"),
    ("undo.steps", "undo\n"),
    ("out.steps", "choose 3 0\n"),
    ("bad.steps", "choose 3\n"),
    ("low.steps", "choose 0 2\n"),
    (
        "one.ref",
        "wfc-refutation 1\ncells 2 values 1\nr 0 0 2\nx 0\nq\n",
    ),
    (
        "two.ref",
        "wfc-refutation 2\ncells 2 values 1\nfor 2 3 2 1 1 0 0\nr 0 0 0 2\nx 0\nq\n",
    ),
    (
        "other.ref",
        "wfc-refutation 2\ncells 2 values 1\nfor 2 3 2 1 8 0 0\nr 0 0 0 2\nx 0\nq\n",
    ),
    (
        "two_removals.ref",
        "wfc-refutation 1\ncells 2 values 2\nr 0 0 2\nr 0 1 2\nx 0\nq\n",
    ),
    (
        "two_spans.ref",
        "wfc-refutation 2\ncells 2 values 2\nfor 2 3 2 1 1 0 0\nr 0 0 0 2\nr 0 1 1 2\nx 0\nq\n",
    ),
    (
        "falling.ref",
        "wfc-refutation 2\ncells 2 values 2\nfor 2 3 2 1 1 0 0\nr 0 1 1 2\nr 0 0 0 2\nx 0\nq\n",
    ),
    ("open.ref", "wfc-refutation 1\ncells 2 values 1\nr 0 0 2\n"),
    ("full.ref", "wfc-refutation 1\ncells 2 values 1\nx 0\nq\n"),
];

/// A straight line that may go on to the right, two corners that meet, a dot of colours, and documents with a fault; then
/// pictures, pins, masks, steps and refutations.
pub(crate) const TILE_FILES: [(&str, &str); 26] = [
    (
        "lines.toml",
        "[[tile]]\nname = \"line\"\nclass = \"I\"\n\n[[pair]]\nleft = \"line 0\"\nright = \"line 0\"\n",
    ),
    (
        "corner.toml",
        "[[tile]]\nname = \"corner\"\nclass = \"L\"\npicture = \"corner.txt\"\n\n[[pair]]\nleft = \"corner 1\"\nright = \"corner 2\"\n",
    ),
    ("corner.txt", "#.\n..\n"),
    (
        "dot.toml",
        "tile = [{name = 'dot', class = 'X', weight = 9, picture = 'dot.ppm'}]\n",
    ),
    ("dot.ppm", "P3\n1 1\n255\n1 2 3\n"),
    (
        "lost.toml",
        "tile = [{name = 'a', class = 'X', picture = 'corner.txt'}, {name = 'b', class = 'X', picture = 'none.txt'}]\n",
    ),
    (
        "f.toml",
        "[[tile]]\nname = \"f\"\nclass = \"F\"\n\n[[pair]]\nleft = \"f 8\"\nright = \"f\"\n",
    ),
    ("empty.toml", ""),
    ("cut.toml", "x =\n"),
    ("number.toml", "tile = 3\n"),
    ("nameless.toml", "[[tile]]\n"),
    ("corner.pins", "pin 0 0 corner/1\npin 1 0 corner/2\n"),
    ("first.pins", "pin 0 0 corner/0\n"),
    ("line.pins", "pin 0 0 line/0\npin 2 0 line/1\n"),
    ("hole.pins", "pin 1 0 line/0\n"),
    ("other.pins", "pin 0 0 line/2\n"),
    ("m.txt", ".#.\n"),
    ("half.txt", ".#\n"),
    ("bend.txt", "..\n.#\n"),
    ("odd.txt", ".x.\n"),
    ("holes.txt", "###\n"),
    ("ragged.txt", "..\n.\n"),
    ("one.steps", "choose 1 1\n"),
    (
        "square.ref",
        "wfc-refutation 1\ncells 4 values 2\nr 0 0 1\nr 0 1 2\nx 0\nq\n",
    ),
    (
        "square_2.ref",
        "wfc-refutation 2\ncells 4 values 2\nfor 0 2 2 1 1 0 0\nr 0 0 0 1\nr 0 1 1 2\nx 0\nq\n",
    ),
    (
        "bend.ref",
        "wfc-refutation 1\ncells 3 values 2\nr 0 0 1\nr 0 1 2\nx 0\nq\n",
    ),
];

/// A line whose turns stand on each other, a house of three tiles, corners that stand on themselves, and documents with
/// faults; then pins.
pub(crate) const BOX_FILES: [(&str, &str); 11] = [
    (
        "tower.toml",
        "[[tile]]\nname = \"line\"\nclass = \"I\"\n\n[[pair]]\nleft = \"line 0\"\nright = \"line 0\"\n\n\
         [[stack]]\nlower = \"line 0\"\nupper = \"line 1\"\n",
    ),
    (
        "house.toml",
        "tile = [{name = 'ground', class = 'X'}, {name = 'wall', class = 'X'}, {name = 'roof', class = 'X'}]\n\
         stack = [{lower = 'ground', upper = 'wall'}, {lower = 'wall', upper = 'wall'}, {lower = 'wall', upper = 'roof'}]\n",
    ),
    (
        "piled.toml",
        "[[tile]]\nname = \"corner\"\nclass = \"L\"\npicture = \"corner.txt\"\n\n[[pair]]\n\
         left = \"corner 1\"\nright = \"corner 2\"\n\n[[stack]]\nlower = \"corner\"\nupper = \"corner\"\n",
    ),
    (
        "bent_tower.toml",
        "[[tile]]\nname = \"line\"\nclass = \"I\"\n\n[[stack]]\nlower = \"line 0\"\nupper = \"line 9\"\n",
    ),
    ("torn.toml", "tile = 3\nstack = 3\n"),
    (
        "lost_tower.toml",
        "tile = [{name = 'a', class = 'X', picture = 'none.txt'}]\nstack = 3\n",
    ),
    ("tower.pins", "pin 0 0 0 line/0\n"),
    ("house.pins", "pin 0 0 0 ground/0\npin 0 0 3 roof/0\n"),
    ("roof.pins", "# a roof on the ground\npin 0 0 0 roof/0\n"),
    ("deep.pins", "pin 0 0 3 line/7\n"),
    ("piled.pins", "pin 0 0 0 corner/1\npin 1 0 1 corner/2\n"),
];
