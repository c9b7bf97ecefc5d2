//! Laws of values that aren't in their ranges.

ghost use Rattle.std.specs.Prelude.{◌≡◌, [], ◌∷◌, codes, Err};
ghost use Rattle.wfc_words.specs.Request.{request_of};
ghost use Rattle.wfc_words.specs.declared.fault.CommandFault.TheVariants.{Value};
ghost use Rattle.wfc_words.specs.declared.fault.ValueName.TheVariants as names;

/// Values that aren't in their ranges, by example.
pub fn ranges_by_example()
    ensures model { request_of (codes "learn" ∷ codes "a" ∷ codes "7" ∷ [])
        ≡ Err (Value names.Model) }
    ensures no_side { request_of (codes "learn" ∷ codes "a" ∷ codes "0" ∷ [])
        ≡ Err (Value names.Model) }
    ensures width { request_of (codes "fill" ∷ codes "a" ∷ codes "2" ∷ codes "4097" ∷ codes "4"
        ∷ []) ≡ Err (Value names.Width) }
    ensures height { request_of (codes "fill" ∷ codes "a" ∷ codes "2" ∷ codes "3" ∷ codes "0"
        ∷ []) ≡ Err (Value names.Height) }
    ensures symmetry { request_of (codes "learn" ∷ codes "a" ∷ codes "2" ∷ codes "--symmetry=9"
        ∷ []) ≡ Err (Value names.Symmetry) }
    ensures seed { request_of (codes "fill" ∷ codes "a" ∷ codes "2" ∷ codes "3" ∷ codes "4"
        ∷ codes "--seed=18446744073709551616" ∷ []) ≡ Err (Value names.Seed) }
    ensures budget { request_of (codes "fill" ∷ codes "a" ∷ codes "2" ∷ codes "3" ∷ codes "4"
        ∷ codes "--budget" ∷ codes "1000000001" ∷ []) ≡ Err (Value names.Budget) }
    ensures rule { request_of (codes "fill" ∷ codes "a" ∷ codes "2" ∷ codes "3" ∷ codes "4"
        ∷ codes "--rule=least" ∷ []) ≡ Err (Value names.Rule) }
    ensures explain_unranked { request_of (codes "explain" ∷ codes "a" ∷ codes "2" ∷ codes "3"
        ∷ codes "4" ∷ codes "--pins=p" ∷ codes "--rule=ranked" ∷ []) ≡ Err (Value names.Rule) }
    ensures unranked { request_of (codes "race" ∷ codes "a" ∷ codes "2" ∷ codes "3" ∷ codes "4"
        ∷ codes "--seeds=1" ∷ codes "--rule=ranked" ∷ []) ≡ Err (Value names.Rule) }
    ensures form { request_of (codes "fill" ∷ codes "a" ∷ codes "2" ∷ codes "3" ∷ codes "4"
        ∷ codes "--form=P6" ∷ []) ≡ Err (Value names.Form) }
    ensures number { request_of (codes "demo" ∷ codes "1000001" ∷ []) ≡ Err (Value names.Number) }
    ensures format { request_of (codes "refute" ∷ codes "a" ∷ codes "2" ∷ codes "3" ∷ codes "4"
        ∷ codes "--format=3" ∷ []) ≡ Err (Value names.Format) }
    ensures mask { request_of (codes "domains" ∷ codes "a" ∷ codes "2" ∷ codes "3" ∷ codes "4"
        ∷ codes "--mask=m" ∷ []) ≡ Err (Value names.Mask) }
    ensures seeds { request_of (codes "race" ∷ codes "a" ∷ codes "2" ∷ codes "3" ∷ codes "4"
        ∷ codes "--seeds=9" ∷ []) ≡ Err (Value names.Seeds) }
    ensures seeds_fit { request_of (codes "race" ∷ codes "a" ∷ codes "2" ∷ codes "3" ∷ codes "4"
        ∷ codes "--seeds=8" ∷ codes "--seed=18446744073709551609" ∷ []) ≡ Err (Value names.Seeds) }
    ensures quantum { request_of (codes "race" ∷ codes "a" ∷ codes "2" ∷ codes "3" ∷ codes "4"
        ∷ codes "--seeds=1" ∷ codes "--quantum=1000001" ∷ []) ≡ Err (Value names.Quantum) }
    ensures untiled { request_of (codes "grow" ∷ codes "a" ∷ codes "tiles" ∷ codes "3"
        ∷ codes "4" ∷ []) ≡ Err (Value names.Model) }
    ensures grow_unranked { request_of (codes "grow" ∷ codes "a" ∷ codes "2" ∷ codes "3"
        ∷ codes "4" ∷ codes "--rule=ranked" ∷ []) ≡ Err (Value names.Rule) }
    ensures block { request_of (codes "grow" ∷ codes "a" ∷ codes "3" ∷ codes "3" ∷ codes "4"
        ∷ codes "--block=2" ∷ []) ≡ Err (Value names.Block) }
    ensures block_limit { request_of (codes "grow" ∷ codes "a" ∷ codes "3" ∷ codes "3"
        ∷ codes "4" ∷ codes "--block=4097" ∷ []) ≡ Err (Value names.Block) }
    ensures depth { request_of (codes "box-fill" ∷ codes "a" ∷ codes "3" ∷ codes "4"
        ∷ codes "257" ∷ []) ≡ Err (Value names.Depth) }
    ensures no_depth { request_of (codes "box-check" ∷ codes "a" ∷ codes "3" ∷ codes "4"
        ∷ codes "0" ∷ codes "r" ∷ []) ≡ Err (Value names.Depth) }
{}

/// Of two values that aren't in their ranges the one that is named first counts.
pub fn first_value_by_example()
    ensures model_width { request_of (codes "fill" ∷ codes "a" ∷ codes "7" ∷ codes "0" ∷ codes "4"
        ∷ []) ≡ Err (Value names.Model) }
    ensures width_height { request_of (codes "fill" ∷ codes "a" ∷ codes "2" ∷ codes "0"
        ∷ codes "0" ∷ []) ≡ Err (Value names.Width) }
    ensures height_symmetry { request_of (codes "fill" ∷ codes "a" ∷ codes "2" ∷ codes "3"
        ∷ codes "0" ∷ codes "--symmetry=0" ∷ []) ≡ Err (Value names.Height) }
    ensures symmetry_seed { request_of (codes "fill" ∷ codes "a" ∷ codes "2" ∷ codes "3"
        ∷ codes "4" ∷ codes "--seed=x" ∷ codes "--symmetry=0" ∷ []) ≡ Err (Value names.Symmetry) }
    ensures seed_budget { request_of (codes "fill" ∷ codes "a" ∷ codes "2" ∷ codes "3" ∷ codes "4"
        ∷ codes "--budget=x" ∷ codes "--seed=x" ∷ []) ≡ Err (Value names.Seed) }
    ensures budget_rule { request_of (codes "fill" ∷ codes "a" ∷ codes "2" ∷ codes "3" ∷ codes "4"
        ∷ codes "--rule=x" ∷ codes "--budget=x" ∷ []) ≡ Err (Value names.Budget) }
    ensures rule_form { request_of (codes "fill" ∷ codes "a" ∷ codes "2" ∷ codes "3" ∷ codes "4"
        ∷ codes "--form=x" ∷ codes "--rule=x" ∷ []) ≡ Err (Value names.Rule) }
    ensures form_mask { request_of (codes "fill" ∷ codes "a" ∷ codes "2" ∷ codes "3" ∷ codes "4"
        ∷ codes "--mask=m" ∷ codes "--form=x" ∷ []) ≡ Err (Value names.Form) }
    ensures format_mask { request_of (codes "refute" ∷ codes "a" ∷ codes "2" ∷ codes "3"
        ∷ codes "4" ∷ codes "--mask=m" ∷ codes "--format=0" ∷ []) ≡ Err (Value names.Format) }
    ensures mask_seeds { request_of (codes "race" ∷ codes "a" ∷ codes "2" ∷ codes "3" ∷ codes "4"
        ∷ codes "--seeds=0" ∷ codes "--mask=m" ∷ []) ≡ Err (Value names.Mask) }
    ensures seeds_quantum { request_of (codes "race" ∷ codes "a" ∷ codes "2" ∷ codes "3"
        ∷ codes "4" ∷ codes "--quantum=0" ∷ codes "--seeds=9" ∷ []) ≡ Err (Value names.Seeds) }
    ensures form_block { request_of (codes "grow" ∷ codes "a" ∷ codes "2" ∷ codes "3"
        ∷ codes "4" ∷ codes "--block=1" ∷ codes "--form=x" ∷ []) ≡ Err (Value names.Form) }
    ensures height_depth { request_of (codes "box-check" ∷ codes "a" ∷ codes "3" ∷ codes "0"
        ∷ codes "0" ∷ codes "r" ∷ []) ≡ Err (Value names.Height) }
    ensures format_depth { request_of (codes "box-refute" ∷ codes "a" ∷ codes "3" ∷ codes "4"
        ∷ codes "0" ∷ codes "--format=0" ∷ []) ≡ Err (Value names.Format) }
{}
