//! Laws of the request of words.

ghost use Rattle.std.specs.Prelude.{◌≡◌, List, [], ◌∷◌, codes, Ok, Err};
ghost use Rattle.clap.specs.Walk.{Text};
ghost use Rattle.wfc_words.specs.Defaults.{HoldsDefaults};
ghost use Rattle.wfc_words.specs.InRange.{IsInRange};
ghost use Rattle.wfc_words.specs.Request.{request_of};
ghost use Rattle.wfc_words.specs.RequestView.{RequestView, default_request};
ghost use Rattle.wfc_words.specs.Small.{box_check_request, box_fill_request, box_refute_request, check_request};
ghost use Rattle.wfc_words.specs.Small.{domains_request, explain_request, fill_request, grow_request};
ghost use Rattle.wfc_words.specs.Small.{learn_request, race_request, refute_request, upgrade_request};
ghost use Rattle.wfc_words.specs.Small.{box_fill_words, box_refute_words, check_words, explain_words};
ghost use Rattle.wfc_words.specs.Small.{fill_words, grow_words, race_words, refute_words};
ghost use Rattle.wfc_words.specs.declared.fault.CommandFault.TheVariants.{Refused};
ghost use Rattle.wfc_words.specs.declared.kinds.CommandKind.TheVariants as kinds;

/// What is asked for is in its ranges.
pub fn requests_are_in_range()
    ensures in_range { (words : List Text) (asked : RequestView) → request_of words ≡ Ok asked
        → IsInRange asked }
{}

/// For a word that the command doesn't have, a request holds what stands for none.
pub fn requests_hold_defaults()
    ensures defaults { (words : List Text) (asked : RequestView) → request_of words ≡ Ok asked
        → HoldsDefaults asked }
{}

/// What a request is by example: each word goes to its own field, and the others hold their defaults.
pub fn requests_by_example()
    ensures learn { request_of (codes "learn" ∷ codes "a" ∷ codes "6" ∷ codes "--symmetry=2" ∷ [])
        ≡ Ok learn_request }
    ensures fill { request_of fill_words ≡ Ok fill_request }
    ensures domains { request_of (codes "domains" ∷ codes "a" ∷ codes "2" ∷ codes "3" ∷ codes "4096"
        ∷ codes "--steps=s" ∷ []) ≡ Ok domains_request }
    ensures refute { request_of refute_words ≡ Ok refute_request }
    ensures check { request_of check_words ≡ Ok check_request }
    ensures upgrade { request_of (codes "upgrade" ∷ codes "a" ∷ codes "1" ∷ codes "5" ∷ codes "6"
        ∷ codes "r" ∷ codes "--pins" ∷ codes "q" ∷ []) ≡ Ok upgrade_request }
    ensures demo { request_of (codes "demo" ∷ codes "17" ∷ [])
        ≡ Ok (record (default_request kinds.Demo) { number = 17 }) }
    ensures race { request_of race_words ≡ Ok race_request }
    ensures explain { request_of explain_words ≡ Ok explain_request }
    ensures grow { request_of grow_words ≡ Ok grow_request }
    ensures box_fill { request_of box_fill_words ≡ Ok box_fill_request }
    ensures box_refute { request_of box_refute_words ≡ Ok box_refute_request }
    ensures box_check { request_of (codes "box-check" ∷ codes "a" ∷ codes "7" ∷ codes "6"
        ∷ codes "5" ∷ codes "r" ∷ codes "--wrap-out" ∷ []) ≡ Ok box_check_request }
{}

/// Words that are no request, by example.
pub fn refusals_by_example()
    ensures nothing { request_of [] ≡ Err Refused }
    ensures unknown { request_of (codes "paint" ∷ codes "a" ∷ []) ≡ Err Refused }
    ensures few { request_of (codes "learn" ∷ codes "a" ∷ []) ≡ Err Refused }
    ensures many { request_of (codes "demo" ∷ codes "1" ∷ codes "2" ∷ []) ≡ Err Refused }
    ensures other { request_of (codes "demo" ∷ codes "1" ∷ codes "--seed=1" ∷ []) ≡ Err Refused }
    ensures flag_twice { request_of (codes "learn" ∷ codes "a" ∷ codes "2" ∷ codes "--wrap-in"
        ∷ codes "--wrap-in" ∷ []) ≡ Err Refused }
    ensures option_twice { request_of (codes "fill" ∷ codes "a" ∷ codes "2" ∷ codes "3"
        ∷ codes "4" ∷ codes "--seed=1" ∷ codes "--seed=1" ∷ []) ≡ Err Refused }
    ensures option_missing { request_of (codes "race" ∷ codes "a" ∷ codes "2" ∷ codes "3"
        ∷ codes "4" ∷ []) ≡ Err Refused }
    ensures pins_missing { request_of (codes "explain" ∷ codes "a" ∷ codes "2" ∷ codes "3"
        ∷ codes "4" ∷ []) ≡ Err Refused }
    ensures required_twice { request_of (codes "race" ∷ codes "a" ∷ codes "2" ∷ codes "3"
        ∷ codes "4" ∷ codes "--seeds=1" ∷ codes "--seeds" ∷ codes "1" ∷ []) ≡ Err Refused }
    ensures help { request_of (codes "demo" ∷ codes "--help" ∷ []) ≡ Err Refused }
    ensures grown_edges { request_of (codes "grow" ∷ codes "a" ∷ codes "2" ∷ codes "3"
        ∷ codes "4" ∷ codes "--wrap-out" ∷ []) ≡ Err Refused }
    ensures grown_mask { request_of (codes "grow" ∷ codes "a" ∷ codes "2" ∷ codes "3"
        ∷ codes "4" ∷ codes "--mask=m" ∷ []) ≡ Err Refused }
    ensures box_model { request_of (codes "box-fill" ∷ codes "a" ∷ codes "tiles" ∷ codes "3"
        ∷ codes "4" ∷ codes "5" ∷ []) ≡ Err Refused }
    ensures box_form { request_of (codes "box-refute" ∷ codes "a" ∷ codes "3" ∷ codes "4"
        ∷ codes "5" ∷ codes "--form=cells" ∷ []) ≡ Err Refused }
    ensures box_refutation { request_of (codes "box-check" ∷ codes "a" ∷ codes "3" ∷ codes "4"
        ∷ codes "5" ∷ []) ≡ Err Refused }
{}
