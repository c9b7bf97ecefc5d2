//! What a sound store's removals say. Each function does nothing; its contract is the law.

ghost use Rattle.std.specs.Prelude.{◌≡◌, ℕ, ◌<◌, [], ◌∷◌, length, take, IsFalse};
ghost use Rattle.wfc_problem.specs.Corner.{corner};
ghost use Rattle.wfc_problem.specs.Network.{in_base};
ghost use Rattle.wfc_problem.specs.Sizes.{is_dead};
ghost use Rattle.wfc_log.specs.declared.Verdict.TheVariants.{Dead};
ghost use Rattle.wfc_domains.specs.Removals.{without, IsStopped};
ghost use Rattle.wfc_log.specs.Sample.{cut_first, later};
ghost use Rattle.wfc_domains.specs.Sample.{cut_second};
ghost use Rattle.wfc_domains.specs.Store.{StoreView, IsSound, IsLeastEmpty, added_of, before_of};

/// A closing stops at the first cell that becomes empty, and removes nothing further: the last removal of the level
/// emptied the named cell, and before each removal no cell was empty. A level under a literal begins without an empty
/// cell; an opening that begins with one removes nothing.
pub fn closings_stop()
    ensures stops { (v : StoreView) (cell : ℕ) → IsSound v → v.verdict ≡ Dead cell → IsFalse
        (is_dead v.problem (before_of v)) → IsStopped v.problem (before_of v) (added_of v) cell }
    ensures filled { (v : StoreView) (k : ℕ) → IsSound v → k < length (added_of v) →
        IsFalse (is_dead v.problem (without (before_of v) (take k (added_of v)))) }
    ensures began { (v : StoreView) → IsSound v → 0 < length v.standing →
        IsFalse (is_dead v.problem (before_of v)) }
    ensures opening { (v : StoreView) (cell : ℕ) → IsSound v → v.standing ≡ [] →
        IsLeastEmpty v.problem (in_base v.problem) cell → v.removals ≡ [] }
{}

/// Where a closing stopped: with the removal that emptied the cell, not before it, and not behind it.
pub fn stops_by_example()
    ensures emptied { IsStopped corner (in_base corner) (cut_first ∷ cut_second ∷ []) 0 }
    ensures nothing { IsStopped corner (in_base corner) [] 0 → ⊥ }
    ensures not_yet { IsStopped corner (in_base corner) (cut_first ∷ []) 0 → ⊥ }
    ensures goes_on { IsStopped corner (in_base corner)
        (cut_first ∷ cut_second ∷ later ∷ []) 0 → ⊥ }
{}
