//! Laws of the definitions, each a function with no body whose contract is the law. They run nothing.

ghost use Rattle.std.specs.Prelude.{Err, List, None, Ok, Some, [], codes, true, ℕ, ◌∷◌, ◌≡◌};
ghost use Rattle.wfc_check.specs.declared.fault.CheckFault.TheVariants as checks;
ghost use Rattle.wfc_choose.specs.Pick.{Rule};
ghost use Rattle.wfc_choose.specs.declared.RuleKind.TheVariants as rules;
ghost use Rattle.wfc_outside.specs.Folder.{FolderView};
ghost use Rattle.wfc_outside.specs.Sink.{SinkView, after_bytes, after_finish};
ghost use Rattle.wfc_plan.specs.declared.fault.Fault.{Fault};
ghost use Rattle.wfc_plan.specs.declared.fault.Source.TheVariants as sources;
ghost use Rattle.wfc_proof.specs.Small.{wide};
ghost use Rattle.wfc_proof.specs.declared.Line.TheVariants.{Found, Remove};
ghost use Rattle.wfc_reply.specs.Call.{Call, with_error_stream, devices, plain_call};
ghost use Rattle.wfc_reply.specs.Choosers.{first_rule, first_rules, rule_with};
ghost use Rattle.wfc_reply.specs.Ending.{Leaves};
ghost use Rattle.wfc_reply.specs.FileNames.{name_of};
ghost use Rattle.wfc_reply.specs.Outcomes.{outcome_status, refute_status, refute_verdict, verdict_of};
ghost use Rattle.wfc_reply.specs.Reply.{Answered, CutsOff, HasAnswer, done_with, verdict_status, verdict_text};
ghost use Rattle.wfc_reply.specs.RunText.{writing_text};
ghost use Rattle.wfc_reply.specs.Small.{fewest_rule, named_files, ranked_rule, writing_in};
ghost use Rattle.wfc_reply.specs.declared.reply.CommandVerdict.{CommandVerdict};
ghost use Rattle.wfc_reply.specs.declared.reply.CommandVerdict.TheVariants as verdicts;
ghost use Rattle.wfc_reply.specs.declared.reply.Stop.TheVariants.{Cut, Unanswered};
ghost use Rattle.wfc_search.specs.declared.Outcome.{Outcome};
ghost use Rattle.wfc_search.specs.declared.Outcome.TheVariants as outcomes;
ghost use Rattle.wfc_words.specs.RequestView.{RequestView};

/// The status of each end of a run, and of each verdict, which is one of an answer; and which statuses those are.
pub fn statuses_are()
    ensures map { outcome_status outcomes.Map ≡ 0 }
    ensures no_map { outcome_status outcomes.NoMap ≡ 1 }
    ensures spent { outcome_status outcomes.Spent ≡ 2 }
    ensures done { verdict_status verdicts.Done ≡ 0 }
    ensures none { verdict_status verdicts.NoMap ≡ 1 }
    ensures dead { verdict_status verdicts.Dead ≡ 1 }
    ensures exists { verdict_status verdicts.MapExists ≡ 1 }
    ensures unaccepted { verdict_status (verdicts.Unaccepted (checks.BadLine 3)) ≡ 1 }
    ensures budget { verdict_status (verdicts.Spent 1000) ≡ 2 }
    ensures stuck { verdict_status (verdicts.Stuck 12 7) ≡ 8 }
    ensures each_answers { (verdict : CommandVerdict) → HasAnswer (verdict_status verdict) }
    ensures spent_answers { HasAnswer 2 }
    ensures eight_answers { HasAnswer 8 }
    ensures three_is_none { HasAnswer 3 → ⊥ }
    ensures seven_is_none { HasAnswer 7 → ⊥ }
    ensures nine_is_none { HasAnswer 9 → ⊥ }
{}

/// The verdict of a command has the status of its run, and that of a spent budget names the budget.
pub fn verdicts_are_of_runs()
    ensures status { (budget : ℕ) (outcome : Outcome) →
        verdict_status (verdict_of budget outcome) ≡ outcome_status outcome }
    ensures refuted { (budget : ℕ) (outcome : Outcome) →
        verdict_status (refute_verdict budget outcome) ≡ refute_status outcome }
    ensures no_map { verdict_of 7 outcomes.NoMap ≡ verdicts.NoMap }
    ensures spent { verdict_of 7 outcomes.Spent ≡ verdicts.Spent 7 }
{}

/// What the error stream is told of each verdict.
pub fn verdicts_are_told()
    ensures done { (asked : RequestView) → verdict_text asked verdicts.Done ≡ None }
    ensures no_map { (asked : RequestView) →
        verdict_text asked verdicts.NoMap ≡ Some (codes "no map") }
    ensures spent { (asked : RequestView) →
        verdict_text asked (verdicts.Spent 12) ≡ Some (codes "budget spent budget=12") }
    ensures dead { (asked : RequestView) →
        verdict_text asked verdicts.Dead ≡ Some (codes "no consistent domains") }
    ensures exists { (asked : RequestView) →
        verdict_text asked verdicts.MapExists ≡ Some (codes "map exists") }
    ensures unaccepted { verdict_text named_files (verdicts.Unaccepted (checks.BadLine 3))
        ≡ Some (codes "check BadLine line=3 file=r") }
    ensures stuck { (asked : RequestView) →
        verdict_text asked (verdicts.Stuck 12 7) ≡ Some (codes "grow stuck x=12 y=7") }
{}

/// The name of each file by what it is to a command: the picture of a tile is told with the tile set's.
pub fn files_have_their_names()
    ensures sample { name_of named_files sources.Sample ≡ codes "a" }
    ensures pins { name_of named_files sources.Pins ≡ codes "p" }
    ensures steps { name_of named_files sources.Steps ≡ codes "s" }
    ensures refutation { name_of named_files sources.Refutation ≡ codes "r" }
    ensures picture { name_of named_files (sources.Picture 3) ≡ codes "a" }
    ensures mask { name_of named_files sources.Mask ≡ codes "m" }
{}

/// What of a reply is put, told and returned is one: an answer has its verdict and its whole text, which is finished, and a fault
/// has no byte.
pub fn replies_are_left_whole()
    ensures whole { (text : List ℕ) (old : SinkView) → Leaves (Ok (done_with text)) old
        (after_finish (after_bytes old text)) (Ok verdicts.Done) }
    ensures verdict { (text : List ℕ) (old new : SinkView) →
        Leaves (Ok (done_with text)) old new (Ok verdicts.NoMap) → ⊥ }
    ensures put { (text : List ℕ) (old new : SinkView) → Leaves (Ok (done_with text)) old new
        (Ok verdicts.Done) → new ≡ after_finish (after_bytes old text) }
    ensures answered { (answered : Answered) (fault : Fault) (old new : SinkView) →
        Leaves (Ok answered) old new (Err (Unanswered fault)) → ⊥ }
    ensures fault { (fault other : Fault) (old new : SinkView) →
        Leaves (Err fault) old new (Err (Unanswered other)) → (other ≡ fault) × (new ≡ old) }
    ensures unanswered { (fault : Fault) (verdict : CommandVerdict) (old new : SinkView) →
        Leaves (Err fault) old new (Ok verdict) → ⊥ }
    ensures uncut { (fault : Fault) (old new : SinkView) →
        Leaves (Err fault) old new (Err Cut) → ⊥ }
    ensures no_text { (old new : SinkView) → CutsOff None old new → ⊥ }
{}

/// What is written of some lines, by example: the head of the format, and the lines behind it, in format 2 with the shape, and with
/// the removals in spans.
pub fn writings_by_example()
    ensures plain { writing_text (writing_in 1) wide (Remove 0 0 2 ∷ Remove 0 1 2 ∷ Found ∷ [])
        ≡ codes "wfc-refutation 1\ncells 2 values 3\nr 0 0 2\nr 0 1 2\ns\n" }
    ensures joined { writing_text (writing_in 2) wide (Remove 0 0 2 ∷ Remove 0 1 2 ∷ Found ∷ [])
        ≡ codes "wfc-refutation 2\ncells 2 values 3\nfor 2 3 4 1 8 1 0\nr 0 0 1 2\ns\n" }
{}

/// The first rule of a kind is used, by example.
pub fn first_rules_are_taken()
    ensures first { first_rule rules.Fewest
        (ranked_rule 5 ∷ fewest_rule 1 ∷ fewest_rule 2 ∷ []) ≡ Some (fewest_rule 1) }
    ensures none { first_rule rules.Scanline (rule_with rules.Fewest [] ∷ []) ≡ None }
    ensures two { first_rules 2 rules.Fewest (fewest_rule 1 ∷ ranked_rule 5 ∷ fewest_rule 2
        ∷ fewest_rule 3 ∷ []) ≡ fewest_rule 1 ∷ fewest_rule 2 ∷ [] }
    ensures few { first_rules 3 rules.Ranked (fewest_rule 1 ∷ ranked_rule 5 ∷ [])
        ≡ ranked_rule 5 ∷ [] }
{}

/// What a call is made of: its devices are seen before it and after it, in their order, and another error stream changes nothing else.
pub fn calls_are_seen_before_and_after()
    ensures before { (rules : List Rule) (f g : FolderView) (a b c d : SinkView) →
        (plain_call rules f g a b c d 5).before ≡ devices f a c }
    ensures after { (rules : List Rule) (f g : FolderView) (a b c d : SinkView) →
        (plain_call rules f g a b c d 5).after ≡ devices g b d }
    ensures status { (rules : List Rule) (f g : FolderView) (a b c d : SinkView) →
        (plain_call rules f g a b c d 5).status ≡ 5 }
    ensures before_beside { (call : Call) (old new : SinkView) →
        (with_error_stream call old new).before ≡ devices call.before.folder call.before.out old }
    ensures after_beside { (call : Call) (old new : SinkView) →
        (with_error_stream call old new).after ≡ devices call.after.folder call.after.out new }
    ensures same { (call : Call) (old new : SinkView) → (with_error_stream call old new).status ≡
        call.status }
{}
