//! What the definitions imply. Each function does nothing; its contract is the law.

ghost use Rattle.std.specs.Prelude.{◌≡◌, ℕ, ◌<◌, ◌≤◌, ◌⊎◌, ◌≢◌, ◌↔◌, Contains, List, [], ◌∷◌, ◌++◌, IsTrue, slice_index, length};
ghost use Rattle.std.specs.List.Sorted.{IsStrictlyIncreasing};
ghost use Rattle.wfc_model.specs.Direction.{opposite};
ghost use Rattle.wfc_problem.specs.declared.TheConstants.{MAX_PAIRS, MAX_VALUES, MAX_WEIGHT, NO_CELL, NO_HOP};
ghost use Rattle.wfc_problem.specs.Assignment.{IsLegalAssignment, IsLegalWithin, LiesIn};
ghost use Rattle.wfc_problem.specs.Domains.{Test, Within, IsSupported, IsArcConsistent, IsInGreatest, IsGreatest};
ghost use Rattle.wfc_problem.specs.Domains.{IsConsistentWithin, IsDead, HasNoAssignment, HasOnly, StandsInGreatest, base_with, with_literal};
ghost use Rattle.wfc_problem.specs.Network.{Network, IsProblem, in_base, ok};
ghost use Rattle.wfc_problem.specs.Rounds.{rounds, depth_of, greatest};
ghost use Rattle.wfc_problem.specs.Sizes.{is_dead, values_at};
ghost use Rattle.wfc_problem.specs.declared.Literal.{Literal};
ghost use Rattle.wfc_problem.specs.declared.Literal.TheVariants.{Is, Not};

/// As many rounds as there are pairs of a cell and a base value, or more, give the greatest
/// domains.
pub fn rounds_give_the_greatest()
    ensures rounds { (P : Network) → IsProblem P → (literals : List Literal) (n : ℕ) →
        depth_of P ≤ n → IsGreatest P literals (rounds P (base_with P literals) n) }
    ensures greatest { (P : Network) → IsProblem P → (literals : List Literal) →
        IsGreatest P literals (greatest P literals) }
{}

/// The greatest domains lie within the cut base, are arc consistent, hold all others that are, and
/// are the only ones that do.
pub fn greatest_holds_all()
    ensures within { (P : Network) (literals : List Literal) (D : Test) → IsGreatest P literals D →
        Within D (base_with P literals) }
    ensures consistent { (P : Network) (literals : List Literal) (D : Test) →
        IsGreatest P literals D → IsArcConsistent P D }
    ensures largest { (P : Network) (literals : List Literal) (D E : Test) →
        IsGreatest P literals D → IsConsistentWithin P literals E → Within E D }
    ensures only { (P : Network) (literals : List Literal) (D E : Test) → IsGreatest P literals D →
        IsGreatest P literals E → D ≡ E }
{}

/// A legal assignment within the cut base lies within the greatest domains.
pub fn assignments_stand()
    ensures stands { (P : Network) → IsProblem P → (literals : List Literal) (a : List ℕ) →
        IsLegalAssignment P a → LiesIn a (base_with P literals) → StandsInGreatest P literals a }
{}

/// Where the greatest domains are dead, no legal assignment lies within the cut base.
pub fn dead_means_none()
    ensures none { (P : Network) → IsProblem P → (literals : List Literal) (D : Test) →
        IsGreatest P literals D → IsDead P D → HasNoAssignment P literals }
{}

/// Where each cell has one value in the greatest domains, these values are a legal assignment
/// within the cut base.
pub fn single_values_are_legal()
    ensures legal { (P : Network) → IsProblem P → (literals : List Literal) (D : Test) →
        IsGreatest P literals D → (a : List ℕ) → HasOnly P D a → IsLegalAssignment P a }
    ensures within { (P : Network) (literals : List Literal) (D : Test) →
        IsGreatest P literals D → (a : List ℕ) → HasOnly P D a → LiesIn a (base_with P literals) }
{}

/// Literals more leave no value that the greatest domains did not have.
pub fn cutting_lowers()
    ensures lowers { (P : Network) (literals more : List Literal) (c v : ℕ) →
        IsInGreatest P (literals ++ more) c v → IsInGreatest P literals c v }
{}

/// What may stand beside a value in a direction has the value beside it in the opposite direction.
pub fn supports_are_mutual()
    ensures both { (P : Network) → IsProblem P → (d v w : ℕ) → d < P.dirs →
        ok P d v w ≡ ok P (opposite d) w v }
{}

/// Without literals the cut base is the base, and one literal more cuts it once more.
pub fn literals_cut_in_turn()
    ensures none { (P : Network) → base_with P [] ≡ in_base P }
    ensures more { (P : Network) (literals : List Literal) (l : Literal) →
        base_with P (literals ++ l ∷ []) ≡ with_literal (base_with P literals) l }
{}

/// An assignment has a value at a cell, or it doesn't: it lies within domains cut by the one
/// literal or by the other.
pub fn one_literal_holds()
    ensures either { (D : Test) (a : List ℕ) (cell value : ℕ) → LiesIn a D →
        LiesIn a (with_literal D (Is value cell)) ⊎ LiesIn a (with_literal D (Not value cell)) }
    ensures is_exact { (D : Test) (a : List ℕ) (cell value : ℕ) → cell < length a →
        LiesIn a (with_literal D (Is value cell)) ↔ (LiesIn a D × (slice_index a cell ≡ value)) }
    ensures not_exact { (D : Test) (a : List ℕ) (cell value : ℕ) → cell < length a →
        LiesIn a (with_literal D (Not value cell)) ↔ (LiesIn a D × (slice_index a cell ≢ value)) }
{}

/// A value without support in some domains is in no legal assignment within them, and in no
/// consistent domains within them.
pub fn unsupported_values_go()
    ensures legal { (P : Network) → IsProblem P → (D : Test) (a : List ℕ) (c v d : ℕ) →
        IsLegalWithin P D a → (IsSupported P D c v d → ⊥) → LiesIn a (with_literal D (Not v c)) }
    ensures consistent { (P : Network) (D E : Test) → Within E D → IsArcConsistent P E →
        (c v d : ℕ) → (IsSupported P D c v d → ⊥) → Within E (with_literal D (Not v c)) }
{}

/// A legal assignment lies within the base.
pub fn legal_lies_in_base()
    ensures base { (P : Network) (a : List ℕ) → IsLegalAssignment P a → LiesIn a (in_base P) }
{}

/// The values listed of a cell are those that stand there, in rising order, and `is_dead` says that
/// some cell has none.
pub fn sizes_tell()
    ensures values { (P : Network) → IsProblem P → (D : Test) → Within D (in_base P) → (c v : ℕ) →
        Contains (values_at P D c) v ↔ IsTrue (D c v) }
    ensures rising { (P : Network) (D : Test) (c : ℕ) → IsStrictlyIncreasing (values_at P D c) }
    ensures dead { (P : Network) → IsProblem P → (D : Test) → Within D (in_base P) →
        IsTrue (is_dead P D) ↔ IsDead P D }
{}

/// The limits, and the entry that is no cell.
pub fn numbers()
    ensures pairs { MAX_PAIRS ≡ 8388608 }
    ensures no_hop { NO_HOP ≡ 2147483648 }
    ensures values { MAX_VALUES ≡ 4096 }
    ensures weight { MAX_WEIGHT ≡ 16777216 }
    ensures none { NO_CELL ≡ 4294967295 }
{}
