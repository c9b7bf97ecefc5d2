//! Laws of single values: the numbers, the names, and what stands for each where the words have none.

ghost use Rattle.std.specs.Prelude.{◌≡◌, true, codes, None, Some};
ghost use Rattle.wfc_choose.specs.declared.RuleKind.TheVariants as rules;
ghost use Rattle.wfc_render.specs.declared.form.Form.TheVariants as forms;
ghost use Rattle.wfc_words.specs.Named.{form_named, is_rankable, model_asked, rule_asked, rule_named, source_of, takes_tiles};
ghost use Rattle.wfc_words.specs.Numbers.{block_range, budget_range, depth_range, format_range, height_range};
ghost use Rattle.wfc_words.specs.Numbers.{number_range, quantum_range, seed_range, seeds_range, symmetry_range, width_range};
ghost use Rattle.wfc_words.specs.RequestView.{default_request};
ghost use Rattle.wfc_words.specs.Small.{bare_learn_request};
ghost use Rattle.wfc_words.specs.ValueWords.{word_of};
ghost use Rattle.wfc_words.specs.declared.fault.ValueName.TheVariants as names;
ghost use Rattle.wfc_words.specs.declared.kinds.CommandKind.TheVariants as kinds;
ghost use Rattle.wfc_words.specs.declared.kinds.SourceModel.TheVariants as models;

/// The word of each value.
pub fn words_by_example()
    ensures model { word_of names.Model ≡ codes "MODEL" }
    ensures width { word_of names.Width ≡ codes "WIDTH" }
    ensures height { word_of names.Height ≡ codes "HEIGHT" }
    ensures symmetry { word_of names.Symmetry ≡ codes "symmetry" }
    ensures seed { word_of names.Seed ≡ codes "seed" }
    ensures budget { word_of names.Budget ≡ codes "budget" }
    ensures rule { word_of names.Rule ≡ codes "rule" }
    ensures form { word_of names.Form ≡ codes "form" }
    ensures number { word_of names.Number ≡ codes "NUMBER" }
    ensures format { word_of names.Format ≡ codes "format" }
    ensures mask { word_of names.Mask ≡ codes "mask" }
    ensures seeds { word_of names.Seeds ≡ codes "seeds" }
    ensures quantum { word_of names.Quantum ≡ codes "quantum" }
    ensures block { word_of names.Block ≡ codes "block" }
    ensures depth { word_of names.Depth ≡ codes "DEPTH" }
{}

/// The limits of the numbers, and what stands for each where the words have none.
pub fn numbers_by_example()
    ensures width { width_range
        ≡ record { name = names.Width; least = 1; most = 4096; absent = 0 } }
    ensures height { height_range
        ≡ record { name = names.Height; least = 1; most = 4096; absent = 0 } }
    ensures symmetry { symmetry_range
        ≡ record { name = names.Symmetry; least = 1; most = 8; absent = 1 } }
    ensures seed { seed_range
        ≡ record { name = names.Seed; least = 0; most = 18446744073709551615; absent = 0 } }
    ensures budget { budget_range
        ≡ record { name = names.Budget; least = 0; most = 1000000000; absent = 1000000 } }
    ensures number { number_range
        ≡ record { name = names.Number; least = 0; most = 1000000; absent = 0 } }
    ensures format { format_range
        ≡ record { name = names.Format; least = 1; most = 2; absent = 2 } }
    ensures seeds { seeds_range 3 ≡ record { name = names.Seeds; least = 1; most = 8; absent = 0 } }
    ensures last_seeds { (seeds_range 18446744073709551609).most ≡ 7 }
    ensures last_seed { (seeds_range 18446744073709551615).most ≡ 1 }
    ensures quantum { quantum_range
        ≡ record { name = names.Quantum; least = 1; most = 1000000; absent = 1 } }
    ensures block { block_range (models.Overlap 5)
        ≡ record { name = names.Block; least = 5; most = 4096; absent = 512 } }
    ensures block_of_tiles { (block_range models.Tiles).least ≡ 1 }
    ensures depth { depth_range ≡ record { name = names.Depth; least = 1; most = 256; absent = 0 } }
{}

/// What a request is where the words say nothing: each field by its name.
pub fn defaults_by_example()
    ensures learn { default_request kinds.Learn ≡ bare_learn_request }
{}

/// What stands for a model, a rule and a form.
pub fn names_by_example()
    ensures side { source_of (codes "06") ≡ Some (models.Overlap 6) }
    ensures tiles { source_of (codes "tiles") ≡ Some models.Tiles }
    ensures neither { source_of (codes "tile") ≡ None }
    ensures ranked { rule_named (codes "ranked") ≡ Some rules.Ranked }
    ensures fewest { rule_named (codes "fewest") ≡ Some rules.Fewest }
    ensures unknown { rule_named (codes "Fewest") ≡ None }
    ensures raced { rule_asked kinds.Race (codes "ranked") ≡ None }
    ensures raced_plain { rule_asked kinds.Race (codes "fewest") ≡ Some rules.Fewest }
    ensures filled { rule_asked kinds.Fill (codes "ranked") ≡ Some rules.Ranked }
    ensures grown { rule_asked kinds.Grow (codes "ranked") ≡ None }
    ensures boxed { rule_asked kinds.BoxFill (codes "ranked") ≡ Some rules.Ranked }
    ensures grown_untiled { model_asked kinds.Grow (codes "tiles") ≡ None }
    ensures grown_side { model_asked kinds.Grow (codes "6") ≡ Some (models.Overlap 6) }
    ensures filled_tiles { model_asked kinds.Fill (codes "tiles") ≡ Some models.Tiles }
    ensures tiled { takes_tiles kinds.Race ≡ true }
    ensures rankable { is_rankable kinds.Refute ≡ true }
    ensures p6 { form_named (codes "p6") ≡ Some (Some forms.P6) }
    ensures p3 { form_named (codes "p3") ≡ Some (Some forms.P3) }
    ensures grid { form_named (codes "grid") ≡ Some (Some forms.Grid) }
    ensures other { form_named (codes "") ≡ None }
{}
