//! Laws of rules that pick alike, each a function with no body whose contract is the law. They run
//! nothing.

ghost use Rattle.std.specs.Prelude.{◌≡◌, ℕ, List, All};
ghost use Rattle.rand_core.specs.Stream.{Stream};
ghost use Rattle.wfc_choose.specs.Pick.{Rule};
ghost use Rattle.wfc_choose.specs.declared.RuleKind.{RuleKind};
ghost use Rattle.wfc_problem.specs.Network.{Network};
ghost use Rattle.wfc_search.specs.Run.{State, outcome_of, turn_of};
ghost use Rattle.wfc_runs.specs.Alike.{IsPlain, PickAlike, PicksAs};

/// Rules of one kind pick alike, but where they go by ranks.
pub fn kinds_pick_alike()
    ensures two { (rule other : Rule) (kind : RuleKind) → IsPlain kind → rule.kind ≡ kind →
        other.kind ≡ kind → PicksAs rule other }
    ensures all { (rules : List Rule) (kind : RuleKind) → IsPlain kind →
        All (λ (r : Rule). r.kind ≡ kind) rules → PickAlike rules }
{}

/// A turn goes by the picks of its rule alone, and so does a run.
pub fn runs_go_by_picks()
    ensures turns { (r rule : Rule) → PicksAs r rule → (P : Network) (budget : ℕ) (s : State) →
        turn_of P r budget s ≡ turn_of P rule budget s }
    ensures runs { (r rule : Rule) → PicksAs r rule → (P : Network) (budget : ℕ) (words : Stream) →
        outcome_of P r budget words ≡ outcome_of P rule budget words }
{}
