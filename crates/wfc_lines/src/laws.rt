//! Laws of the definitions, each a function with no body whose contract is the law. They run nothing.

ghost use Rattle.std.specs.Prelude.{◌≡◌, ◌∷◌, ◌++◌, [], codes, map, replicate};
ghost use Rattle.wfc_choose.specs.declared.RuleKind.TheVariants as rules;
ghost use Rattle.wfc_grid.specs.declared.reading.GridFault.TheVariants as grids;
ghost use Rattle.wfc_box.specs.declared.fault.StackFault.TheVariants as stacks;
ghost use Rattle.wfc_box.specs.declared.fault.StackKey.TheVariants as ends;
ghost use Rattle.wfc_check.specs.declared.fault.CheckFault.TheVariants as checks;
ghost use Rattle.wfc_lines.specs.Build.{text_of_build};
ghost use Rattle.wfc_lines.specs.Check.{text_of_check};
ghost use Rattle.wfc_proof.specs.declared.Reject.TheVariants as rejects;
ghost use Rattle.wfc_lines.specs.Command.{text_of_chooser, text_of_command, text_of_value};
ghost use Rattle.wfc_lines.specs.Explain.{text_of_many_pins};
ghost use Rattle.wfc_lines.specs.Grid.{text_of_grid};
ghost use Rattle.wfc_lines.specs.Grow.{text_of_many_blocks, text_of_stuck};
ghost use Rattle.wfc_lines.specs.Learn.{text_of_learn};
ghost use Rattle.wfc_lines.specs.Line.{line};
ghost use Rattle.wfc_lines.specs.Mask.{text_of_mask, text_of_mask_grid};
ghost use Rattle.wfc_lines.specs.Outcome.{map_exists_text, no_domains_text, no_map_text, no_memory_text, out_failed_text, text_of_budget};
ghost use Rattle.wfc_lines.specs.Palette.{text_of_palette};
ghost use Rattle.wfc_lines.specs.Pins.{text_of_pins};
ghost use Rattle.wfc_lines.specs.Ppm.{text_of_ppm};
ghost use Rattle.wfc_lines.specs.Race.{text_of_race};
ghost use Rattle.wfc_lines.specs.Reading.{text_of_reading};
ghost use Rattle.wfc_lines.specs.Render.{text_of_render};
ghost use Rattle.wfc_lines.specs.Small.{shape_differs};
ghost use Rattle.wfc_lines.specs.Stacks.{text_of_stacks};
ghost use Rattle.wfc_lines.specs.Steps.{text_of_range, text_of_steps};
ghost use Rattle.wfc_lines.specs.Tiles.{name_of_key, text_of_tiles};
ghost use Rattle.wfc_outside.specs.declared.whole.ReadFault.TheVariants as reads;
ghost use Rattle.wfc_pattern.specs.declared.learning.LearnFault.TheVariants as learns;
ghost use Rattle.wfc_picture.specs.declared.palette.PaletteFault.TheVariants as palettes;
ghost use Rattle.wfc_pins.specs.declared.fault.BuildFault.TheVariants as builds;
ghost use Rattle.wfc_pins.specs.declared.pins.PinFault.TheVariants as pins;
ghost use Rattle.wfc_pins.specs.declared.steps.RangeFault.TheVariants as ranges;
ghost use Rattle.wfc_pins.specs.declared.steps.StepFault.TheVariants as steps;
ghost use Rattle.wfc_ppm.specs.declared.reading.PpmFault.TheVariants as ppms;
ghost use Rattle.wfc_render.specs.declared.form.RenderFault.TheVariants as renders;
ghost use Rattle.wfc_tiled.specs.declared.reading.MaskFault.TheVariants as masks;
ghost use Rattle.wfc_tileset.specs.declared.fault.Key.TheVariants as keys;
ghost use Rattle.wfc_tileset.specs.declared.fault.Place.TheVariants as places;
ghost use Rattle.wfc_tileset.specs.declared.fault.TileFault.TheVariants as tiles;
ghost use Rattle.wfc_words.specs.declared.fault.CommandFault.TheVariants as commands;
ghost use Rattle.wfc_words.specs.declared.fault.ValueName.TheVariants as names;

/// The line of a byte that is no printable one, by example.
pub fn lines_by_example()
    ensures bad_byte { line (text_of_grid (grids.BadByte 2 13) (codes "r.txt"))
        ≡ codes "wfc: grid BadByte line=2 column=13 file=r.txt\n" }
    ensures no_map { line no_map_text ≡ codes "wfc: no map\n" }
{}

/// The texts of commands and devices, by example.
pub fn texts_of_commands_by_example()
    ensures map { map_exists_text ≡ codes "map exists" }
    ensures domains { no_domains_text ≡ codes "no consistent domains" }
    ensures budget { text_of_budget 1000 ≡ codes "budget spent budget=1000" }
    ensures refused { text_of_command commands.Refused ≡ codes "command refused" }
    ensures value { text_of_command (commands.Value names.Model) ≡ codes "command value MODEL" }
    ensures mask { text_of_command (commands.Value names.Mask) ≡ codes "command value mask" }
    ensures seeds { text_of_command (commands.Value names.Seeds) ≡ codes "command value seeds" }
    ensures quantum { text_of_command (commands.Value names.Quantum)
        ≡ codes "command value quantum" }
    ensures block { text_of_command (commands.Value names.Block) ≡ codes "command value block" }
    ensures depth { text_of_command (commands.Value names.Depth) ≡ codes "command value DEPTH" }
    ensures sizes { map text_of_value (names.Width ∷ names.Height ∷ names.Number ∷ [])
        ≡ codes "command value WIDTH" ∷ codes "command value HEIGHT"
        ∷ codes "command value NUMBER" ∷ [] }
    ensures runs { map text_of_value (names.Seed ∷ names.Budget ∷ names.Rule ∷ [])
        ≡ codes "command value seed" ∷ codes "command value budget"
        ∷ codes "command value rule" ∷ [] }
    ensures forms { map text_of_value (names.Symmetry ∷ names.Form ∷ names.Format ∷ [])
        ≡ codes "command value symmetry" ∷ codes "command value form"
        ∷ codes "command value format" ∷ [] }
    ensures race { text_of_race 2500 ≡ codes "race TooLarge product=2500" }
    ensures blocks { text_of_many_blocks 81 ≡ codes "grow TooManyBlocks count=81" }
    ensures stuck { text_of_stuck 12 7 ≡ codes "grow stuck x=12 y=7" }
    ensures memory { text_of_command commands.NoMemory ≡ codes "out of memory" }
    ensures chooser { text_of_chooser rules.Ranked ≡ codes "chooser missing rule=ranked" }
    ensures fewest { text_of_chooser rules.Fewest ≡ codes "chooser missing rule=fewest" }
    ensures scanline { text_of_chooser rules.Scanline ≡ codes "chooser missing rule=scanline" }
    ensures missing { text_of_reading reads.Missing (codes "a") ≡ codes "device Missing file=a" }
    ensures failed { text_of_reading reads.Failed (codes "a") ≡ codes "device Failed file=a" }
    ensures long { text_of_reading reads.TooLong (codes "a") ≡ codes "file TooLong file=a" }
    ensures out { out_failed_text ≡ codes "device Failed out" }
{}

/// The texts of pictures of colours, by example.
pub fn texts_of_pictures_by_example()
    ensures magic { text_of_ppm ppms.Magic (codes "a") ≡ codes "ppm Magic file=a" }
    ensures header { text_of_ppm (ppms.Header 7) (codes "a") ≡ codes "ppm Header at=7 file=a" }
    ensures maxval { text_of_ppm (ppms.Maxval 70000) (codes "a")
        ≡ codes "ppm Maxval value=70000 file=a" }
    ensures large { text_of_ppm ppms.TooLarge (codes "a") ≡ codes "ppm TooLarge file=a" }
    ensures truncated { text_of_ppm (ppms.Truncated 12 9) (codes "a")
        ≡ codes "ppm Truncated wanted=12 found=9 file=a" }
    ensures above { text_of_ppm (ppms.SampleAboveMaxval 15) (codes "a")
        ≡ codes "ppm SampleAboveMaxval at=15 file=a" }
    ensures sample { text_of_ppm (ppms.BadSample 16) (codes "a")
        ≡ codes "ppm BadSample at=16 file=a" }
    ensures trailing { text_of_ppm (ppms.Trailing 17) (codes "a")
        ≡ codes "ppm Trailing at=17 file=a" }
{}

/// The texts of inputs, by example.
pub fn texts_of_inputs_by_example()
    ensures empty { text_of_grid grids.Empty (codes "a") ≡ codes "grid Empty file=a" }
    ensures ragged { text_of_grid (grids.Ragged 2) (codes "a") ≡ codes "grid Ragged line=2 file=a" }
    ensures large { text_of_grid grids.TooLarge (codes "a") ≡ codes "grid TooLarge file=a" }
    ensures colours { text_of_palette (palettes.TooManyColours 70) (codes "a")
        ≡ codes "palette TooManyColours at=70 file=a" }
    ensures small { text_of_learn learns.SampleBelowN (codes "a")
        ≡ codes "learn SampleBelowN file=a" }
    ensures many { text_of_learn (learns.TooManyPatterns 4097) (codes "a")
        ≡ codes "learn TooManyPatterns count=4097 file=a" }
    ensures pin { text_of_pins (pins.BadLine 1) (codes "p") ≡ codes "pins BadLine line=1 file=p" }
    ensures pin_count { text_of_many_pins 65 (codes "p")
        ≡ codes "explain TooManyPins count=65 file=p" }
    ensures no_step { text_of_steps (steps.BadLine 4) (codes "s")
        ≡ codes "steps BadLine line=4 file=s" }
    ensures step { text_of_steps (steps.NothingToUndo 1) (codes "s")
        ≡ codes "steps NothingToUndo line=1 file=s" }
    ensures range { text_of_range (ranges.OutOfRange 3) (codes "s")
        ≡ codes "steps OutOfRange line=3 file=s" }
    ensures side { text_of_build builds.SizeBelowN (codes "p") ≡ codes "build SizeBelowN" }
    ensures pairs { text_of_build (builds.TooLarge 8392704) (codes "p")
        ≡ codes "build TooLarge product=8392704" }
    ensures outside { text_of_build (builds.PinOutside 1) (codes "p")
        ≡ codes "build PinOutside line=1 file=p" }
    ensures symbol { text_of_build (builds.UnknownSymbol 2) (codes "p")
        ≡ codes "build UnknownSymbol line=2 file=p" }
    ensures hole { text_of_build (builds.PinInHole 3) (codes "p")
        ≡ codes "build PinInHole line=3 file=p" }
    ensures form { text_of_render renders.FormDiffers ≡ codes "render FormDiffers" }
    ensures pixels { text_of_render (renders.TooLarge 16777217)
        ≡ codes "render TooLarge pixels=16777217" }
{}

/// The texts of files that are no refutations, by example.
pub fn texts_of_checks_by_example()
    ensures value { text_of_check (checks.Rejected 3 (rejects.NotEmpty 7)) (codes "r")
        ≡ codes "check Rejected line=3 reject=NotEmpty value=7 file=r" }
    ensures name { text_of_check (checks.Rejected 3 rejects.NotClosed) (codes "r")
        ≡ codes "check Rejected line=3 reject=NotClosed file=r" }
    ensures not_standing { text_of_check (checks.Rejected 4 rejects.NotStanding) (codes "r")
        ≡ codes "check Rejected line=4 reject=NotStanding file=r" }
    ensures support { text_of_check (checks.Rejected 5 (rejects.HasSupport 6)) (codes "r")
        ≡ codes "check Rejected line=5 reject=HasSupport value=6 file=r" }
    ensures no_neighbour { text_of_check (checks.Rejected 7 rejects.NoNeighbour) (codes "r")
        ≡ codes "check Rejected line=7 reject=NoNeighbour file=r" }
    ensures after_end { text_of_check (checks.Rejected 8 rejects.AfterEnd) (codes "r")
        ≡ codes "check Rejected line=8 reject=AfterEnd file=r" }
    ensures index { text_of_check (checks.Rejected 9 rejects.IndexRange) (codes "r")
        ≡ codes "check Rejected line=9 reject=IndexRange file=r" }
    ensures only_value { text_of_check (checks.Rejected 10 rejects.OnlyValue) (codes "r")
        ≡ codes "check Rejected line=10 reject=OnlyValue file=r" }
    ensures bad_line { text_of_check (checks.BadLine 41) (codes "r")
        ≡ codes "check BadLine line=41 file=r" }
    ensures header { text_of_check (checks.HeaderDiffers 3 2) (codes "r")
        ≡ codes "check HeaderDiffers cells=3 values=2 file=r" }
    ensures options { text_of_check shape_differs (codes "r") ≡ codes "check OptionsDiffer n=2"
        ++ codes " width=3 height=4 depth=1 symmetry=8 wrap_in=1 wrap_out=0 file=r" }
    ensures not_ended { text_of_check checks.NotEnded (codes "r") ≡ codes "check NotEnded file=r" }
    ensures missing { text_of_check checks.Missing (codes "r") ≡ codes "device Missing file=r" }
    ensures failed { text_of_check checks.Failed (codes "r") ≡ codes "device Failed file=r" }
    ensures too_long { text_of_check checks.TooLong (codes "r") ≡ codes "file TooLong file=r" }
{}

/// The texts of documents that are no tile sets, by example.
pub fn texts_of_tile_sets_by_example()
    ensures toml { text_of_tiles tiles.Toml (codes "t") ≡ codes "tiles Toml file=t" }
    ensures none { text_of_tiles tiles.NoTiles (codes "t") ≡ codes "tiles NoTiles file=t" }
    ensures missing { text_of_tiles (tiles.MissingKey (places.Tile 3) keys.Name) (codes "t")
        ≡ codes "tiles MissingKey tile=3 key=name file=t" }
    ensures kind { text_of_tiles (tiles.WrongKind places.Top keys.Pair) (codes "t")
        ≡ codes "tiles WrongKind top key=pair file=t" }
    ensures left { text_of_tiles (tiles.WrongKind (places.Pair 12) keys.Left) (codes "t")
        ≡ codes "tiles WrongKind pair=12 key=left file=t" }
    ensures class { text_of_tiles (tiles.BadClass 1) (codes "t")
        ≡ codes "tiles BadClass tile=1 file=t" }
    ensures weight { text_of_tiles (tiles.BadWeight 2) (codes "t")
        ≡ codes "tiles BadWeight tile=2 file=t" }
    ensures picture { text_of_tiles (tiles.BadPicture 3) (codes "t")
        ≡ codes "tiles BadPicture tile=3 file=t" }
    ensures side { text_of_tiles (tiles.SizeDiffers 4) (codes "t")
        ≡ codes "tiles SizeDiffers tile=4 file=t" }
    ensures twice { text_of_tiles (tiles.DoubleName 5) (codes "t")
        ≡ codes "tiles DoubleName tile=5 file=t" }
    ensures unknown { text_of_tiles (tiles.UnknownTile 6) (codes "t")
        ≡ codes "tiles UnknownTile pair=6 file=t" }
    ensures turn { text_of_tiles (tiles.BadTurn 7) (codes "t")
        ≡ codes "tiles BadTurn pair=7 file=t" }
    ensures many { text_of_tiles (tiles.TooManyVariants 4104) (codes "t")
        ≡ codes "tiles TooManyVariants count=4104 file=t" }
    ensures no_file { text_of_tiles (tiles.Missing 8) (codes "t")
        ≡ codes "device Missing tile=8 file=t" }
    ensures failed { text_of_tiles (tiles.Failed 9) (codes "t")
        ≡ codes "device Failed tile=9 file=t" }
    ensures mixed { text_of_tiles (tiles.MixedKinds 10) (codes "t")
        ≡ codes "tiles MixedKinds tile=10 file=t" }
    ensures name { text_of_tiles (tiles.BadName 11) (codes "t")
        ≡ codes "tiles BadName tile=11 file=t" }
{}

/// The names of keys, each as a document spells it.
pub fn keys_are_named_as_spelled()
    ensures top { map name_of_key (keys.Tile ∷ keys.Pair ∷ []) ≡ codes "tile" ∷ codes "pair" ∷ [] }
    ensures tile { map name_of_key (keys.Name ∷ keys.Class ∷ keys.Weight ∷ keys.Picture ∷ [])
        ≡ codes "name" ∷ codes "class" ∷ codes "weight" ∷ codes "picture" ∷ [] }
    ensures pair { map name_of_key (keys.Left ∷ keys.Right ∷ [])
        ≡ codes "left" ∷ codes "right" ∷ [] }
{}

/// The texts of files that are no masks, by example.
pub fn texts_of_masks_by_example()
    ensures empty { text_of_mask_grid grids.Empty (codes "m") ≡ codes "mask Empty file=m" }
    ensures ragged { text_of_mask_grid (grids.Ragged 2) (codes "m")
        ≡ codes "mask Ragged line=2 file=m" }
    ensures byte { text_of_mask_grid (grids.BadByte 2 13) (codes "m")
        ≡ codes "mask BadByte line=2 column=13 file=m" }
    ensures large { text_of_mask_grid grids.TooLarge (codes "m") ≡ codes "mask TooLarge file=m" }
    ensures sides { text_of_mask (masks.SizeDiffers 2 1) (codes "m")
        ≡ codes "mask SizeDiffers width=2 height=1 file=m" }
    ensures symbol { text_of_mask (masks.BadSymbol 1 2) (codes "m")
        ≡ codes "mask BadSymbol line=1 column=2 file=m" }
    ensures holes { text_of_mask masks.AllHoles (codes "m") ≡ codes "mask AllHoles file=m" }
{}

/// The texts of documents whose stacks are at fault, by example.
pub fn texts_of_stacks_by_example()
    ensures array { text_of_stacks stacks.NotArray (codes "t") ≡ codes "stack NotArray file=t" }
    ensures table { text_of_stacks (stacks.NotTable 2) (codes "t")
        ≡ codes "stack NotTable stack=2 file=t" }
    ensures missing { text_of_stacks (stacks.MissingKey 3 ends.Lower) (codes "t")
        ≡ codes "stack MissingKey stack=3 key=lower file=t" }
    ensures no_text { text_of_stacks (stacks.NotText 0 ends.Upper) (codes "t")
        ≡ codes "stack NotText stack=0 key=upper file=t" }
    ensures tile { text_of_stacks (stacks.UnknownTile 1) (codes "t")
        ≡ codes "stack UnknownTile stack=1 file=t" }
    ensures turn { text_of_stacks (stacks.BadTurn 0) (codes "t")
        ≡ codes "stack BadTurn stack=0 file=t" }
{}

/// Want of memory is told in the same words wherever it comes.
pub fn want_of_memory_is_told_alike()
    ensures files { text_of_reading reads.NoMemory (codes "a")
        ∷ text_of_check checks.NoMemory (codes "a") ∷ text_of_pins pins.NoMemory (codes "a")
        ∷ text_of_steps steps.NoMemory (codes "a") ∷ [] ≡ replicate 4 no_memory_text }
    ensures samples { text_of_grid grids.NoMemory (codes "a")
        ∷ text_of_ppm ppms.NoMemory (codes "a") ∷ text_of_palette palettes.NoMemory (codes "a")
        ∷ text_of_learn learns.NoMemory (codes "a") ∷ text_of_build builds.NoMemory (codes "a")
        ∷ [] ≡ replicate 5 no_memory_text }
    ensures tile_sets { text_of_tiles tiles.NoMemory (codes "a")
        ∷ text_of_mask_grid grids.NoMemory (codes "a") ∷ text_of_mask masks.NoMemory (codes "a")
        ∷ text_of_stacks stacks.NoMemory (codes "a") ∷ [] ≡ replicate 4 no_memory_text }
{}
