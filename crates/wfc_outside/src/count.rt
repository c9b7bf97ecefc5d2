//! Counts of faults and of calls.

ghost use Rattle.std.specs.Prelude.{◌≡◌};
ghost use Rattle.wfc_outside.specs.Count.{HasRisen, next_count};

/// One more, or as before where the count can rise no further.
pub(crate) fn one_more(count: u64) -> u64
    ensures value { result ≡ next_count count }
    ensures risen { HasRisen count result }
{
    count.saturating_add(1)
}
