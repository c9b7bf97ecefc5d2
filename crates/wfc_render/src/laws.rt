//! Laws of the definitions, each a function with no body whose contract is the law. They run nothing.

ghost use Rattle.std.specs.Prelude.{◌≡◌, ℕ, ◌∷◌, ◌++◌, [], None, Some, Ok, Err, Option, codes, map, nat_lt, true, false};
ghost use Rattle.wfc_picture.specs.declared.symbol.Kind.{Kind};
ghost use Rattle.wfc_picture.specs.declared.symbol.Kind.TheVariants as kinds;
ghost use Rattle.wfc_picture.specs.Small.{rgb};
ghost use Rattle.wfc_picture.specs.declared.symbol.Symbol.TheVariants.{Char};
ghost use Rattle.wfc_render.specs.Block.{block_text, domain_text};
ghost use Rattle.wfc_render.specs.Layout.{IsLayout, form_for, forms_of, layout_of, pixel_count};
ghost use Rattle.wfc_render.specs.Learned.{learned_text};
ghost use Rattle.wfc_render.specs.LearnedTiles.{learned_tiles_text, pair_line, pairs_text};
ghost use Rattle.wfc_render.specs.Tiled.{tiles_in};
ghost use Rattle.wfc_tileset.specs.Samples.{crossing, one_taken};
ghost use Rattle.wfc_render.specs.Small.{blank_and_colour, letters_and_blank, map_across, map_down, map_of_one};
ghost use Rattle.wfc_render.specs.Small.{map_of_six, pair_of_patterns, two_colours};
ghost use Rattle.wfc_render.specs.SmallTiles.{four_shown_tiles, grass_and_bend};
ghost use Rattle.wfc_model.specs.Raster.{raster_of};
ghost use Rattle.wfc_render.specs.Map.{is_of_kind, symbol_at, raster_text};
ghost use Rattle.wfc_render.specs.Numbers.{spaced_numbers};
ghost use Rattle.wfc_render.specs.declared.form.Form.{Form};
ghost use Rattle.wfc_render.specs.declared.form.Form.TheVariants.{P6, P3, Grid, Cells};
ghost use Rattle.wfc_render.specs.declared.form.Layout.{Layout};
ghost use Rattle.wfc_render.specs.declared.form.RenderFault.TheVariants.{FormDiffers, TooLarge};
ghost use Rattle.wfc_render.specs.declared.tile_texts.Way.TheVariants.{Across, Down};

use crate::layouts::MAX_MAP_PIXELS;

/// The limits as plain numbers.
pub fn limits_are()
    ensures pixels { MAX_MAP_PIXELS ≡ 16777216 }
{}

/// What is answered is a layout of that kind and of those sides.
pub fn layouts_are_as_asked()
    ensures layout { (kind : Kind) (form : Option Form) (width height side : ℕ) (l : Layout)
        → layout_of kind form width height side ≡ Ok l → IsLayout l }
    ensures kind { (kind : Kind) (form : Option Form) (width height side : ℕ) (l : Layout)
        → layout_of kind form width height side ≡ Ok l → l.kind ≡ kind }
    ensures form { (kind : Kind) (form : Form) (width height side : ℕ) (l : Layout)
        → layout_of kind (Some form) width height side ≡ Ok l → l.form ≡ form }
    ensures width { (kind : Kind) (form : Option Form) (width height side : ℕ) (l : Layout)
        → layout_of kind form width height side ≡ Ok l → l.width ≡ width }
    ensures height { (kind : Kind) (form : Option Form) (width height side : ℕ) (l : Layout)
        → layout_of kind form width height side ≡ Ok l → l.height ≡ height }
    ensures side { (kind : Kind) (form : Option Form) (width height side : ℕ) (l : Layout)
        → layout_of kind form width height side ≡ Ok l → l.side ≡ side }
{}

/// The forms of each kind, the one that nobody has to ask for first.
pub fn forms_by_example()
    ensures grid { forms_of kinds.Grid ≡ Grid ∷ Cells ∷ [] }
    ensures ppm { forms_of (kinds.Ppm 255) ≡ P6 ∷ P3 ∷ Cells ∷ [] }
    ensures plain { forms_of kinds.Plain ≡ Cells ∷ [] }
    ensures first { form_for (kinds.Ppm 255) None ≡ Some P6 }
    ensures asked { form_for (kinds.Ppm 255) (Some Cells) ≡ Some Cells }
    ensures lacking { form_for kinds.Plain (Some Grid) ≡ None }
{}

/// Layouts by example: a form that the kind lacks comes before too many pixels, which are counted in each form.
pub fn layouts_by_example()
    ensures three_by_two { layout_of kinds.Grid None 3 2 1 ≡
        Ok (record { kind = kinds.Grid; form = Grid; width = 3; height = 2; side = 1 }) }
    ensures pixels { pixel_count 3 2 5 ≡ 150 }
    ensures most { layout_of (kinds.Ppm 9) (Some P3) 512 128 16 ≡
        Ok (record { kind = kinds.Ppm 9; form = P3; width = 512; height = 128; side = 16 }) }
    ensures more { layout_of (kinds.Ppm 9) (Some Cells) 4096 17 17 ≡ Err (TooLarge 20123648) }
    ensures differs { layout_of kinds.Grid (Some P6) 4096 4096 64 ≡ Err FormDiffers }
{}

/// Which symbols a kind of sample can show: a grid the printable bytes.
pub fn kinds_by_example()
    ensures printable { map (is_of_kind kinds.Grid) (Char 32 ∷ Char 126 ∷ []) ≡ true ∷ true ∷ [] }
    ensures others { map (is_of_kind kinds.Grid) (Char 31 ∷ Char 127 ∷ rgb 1 2 3 ∷ [])
        ≡ false ∷ false ∷ false ∷ [] }
    ensures plain { is_of_kind kinds.Plain (Char 97) ≡ false }
    ensures colours { map (is_of_kind (kinds.Ppm 9)) (rgb 9 0 9 ∷ rgb 0 10 0 ∷ Char 97 ∷ [])
        ≡ true ∷ false ∷ false ∷ [] }
    ensures symbol { map (symbol_at (Char 98 ∷ rgb 1 2 3 ∷ [])) (1 ∷ 0 ∷ 2 ∷ [])
        ≡ rgb 1 2 3 ∷ Char 98 ∷ Char 32 ∷ [] }
{}

/// A map of three by two in both forms: row by row the bytes of the symbols, or the numbers with one blank between each two.
pub fn maps_by_example()
    ensures grid { raster_text kinds.Grid Grid letters_and_blank map_of_six ≡ codes "ba \naab\n" }
    ensures cells { raster_text kinds.Grid Cells letters_and_blank map_of_six ≡ codes
        "0 1 2\n1 1 0\n" }
    ensures numbers { spaced_numbers (10 ∷ 0 ∷ 4095 ∷ []) ≡ codes "10 0 4095" }
    ensures one { spaced_numbers (7 ∷ []) ≡ codes "7" }
{}

/// A map of two by one of colours, raw and in decimal; samples of two bytes have the most significant first.
pub fn maps_of_colours_by_example()
    ensures raw { raster_text (kinds.Ppm 255) P6 two_colours map_across
        ≡ codes "P6\n2 1\n255\n" ++ 70 ∷ 80 ∷ 90 ∷ 1 ∷ 2 ∷ 3 ∷ [] }
    ensures wide { raster_text (kinds.Ppm 256) P6 (rgb 1 2 256 ∷ []) map_of_one
        ≡ codes "P6\n1 1\n256\n" ++ 0 ∷ 1 ∷ 0 ∷ 2 ∷ 1 ∷ 0 ∷ [] }
    ensures plain { raster_text (kinds.Ppm 99) P3 two_colours map_down
        ≡ codes "P3\n1 2\n99\n70 80 90\n1 2 3\n" }
{}

/// Two patterns of side 2 over a blank and a colour.
pub fn learned_by_example()
    ensures two { learned_text pair_of_patterns blank_and_colour ≡ codes "overlap 2\ncolours 2\n0 "
        ++ 92 ∷ codes "s\n1 1,20,3\npatterns 2\n0 12: 0 1 1 1\n1 3: 1 0 0 1\n" }
{}

/// Blocks of three values and two cells, where a value stands at each cell below it, and of dead domains.
pub fn blocks_by_example()
    ensures shown { block_text 7 (Some nat_lt) 3 2 ≡ codes "step 7\n0: 1 2\n1: 2\n" }
    ensures empty { block_text 10 (Some nat_lt) 2 2 ≡ codes "step 10\n0: 1\n1:\n" }
    ensures dead { block_text 7 None 3 2 ≡ codes "step 7\ndead\n" }
    ensures steps { domain_text (Some nat_lt ∷ None ∷ []) 3 2
        ≡ codes "step 0\n0: 1 2\n1: 2\nstep 1\ndead\n" }
{}

/// A map of tiles by example: the second variant of a tile of four characters and a hole.
pub fn tile_maps_by_example()
    ensures grid { tiles_in Grid four_shown_tiles (raster_of 2 1 (1 ∷ 65535 ∷ []))
        ≡ codes "bd  \nac  \n" }
    ensures cells { tiles_in Cells four_shown_tiles (raster_of 2 1 (1 ∷ 65535 ∷ []))
        ≡ codes "1 -\n" }
    ensures plain { tiles_in P3 one_taken (raster_of 1 2 (65535 ∷ 0 ∷ []))
        ≡ codes "P3\n1 2\n9\n0 0 0\n1 2 3\n" }
{}

/// The text of grass to the left of a bend: the variants of the second tile go on in number, have its weight, and are
/// spelled with its name and their own numbers within it.
pub fn learned_tiles_by_example()
    ensures lines { learned_tiles_text grass_and_bend ≡ codes "tiles 2\nvariants 5\n0 30: grass/0\n"
        ++ codes "1 7: bend/0\n2 7: bend/1\n3 7: bend/2\n4 7: bend/3\n"
        ++ codes "across 4\n0 1\n0 4\n2 0\n3 0\ndown 4\n0 3\n0 4\n1 0\n2 0\n" }
{}

/// The pairs of a tile without symmetry and a junction: a left one and its right one, or an upper one and its lower one, each
/// pair once, rising by the first and then by the second.
pub fn pairs_by_example()
    ensures across { pairs_text (codes "across") Across crossing
        ≡ codes "across 4\n3 9\n5 9\n11 1\n11 7\n" }
    ensures down { pairs_text (codes "down") Down crossing
        ≡ codes "down 4\n2 8\n6 8\n10 0\n10 4\n" }
    ensures line { pair_line 10 4 ≡ codes "10 4\n" }
{}
