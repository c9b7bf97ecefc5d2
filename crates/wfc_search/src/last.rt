//! The last choice that stands.

ghost use Rattle.std.specs.Prelude.{◌≡◌, ◌<◌, length, IfSome, Some, slice_get};
ghost use Rattle.wfc_search.specs.Last.{choice_in};
ghost use Rattle.wfc_search.specs.Run.{last_choice};

use wfc_problem::Literal;

/// A choice, and how many literals stand before it.
#[derive(Clone, Copy)]
pub struct LastChoice {
    pub at: usize,
    pub cell: u32,
    pub value: u16,
}

/// The last choice of a list. It looks at no literal before it.
pub fn last_choice_of(standing: &[Literal]) -> Option<LastChoice>
    ensures within { IfSome result (λ last. last.at < length standing.now) }
    ensures stands { IfSome result (λ last. slice_get standing.now last.at ≡ Some
        (Literal.Is last.value last.cell)) }
    ensures last { choice_in standing.now result ≡ last_choice standing.now }
{
    let mut at = standing.len();
    while at > 0 {
        at -= 1;
        if let Literal::Is { cell, value } = standing[at] {
            return Some(LastChoice { at, cell, value });
        }
    }
    None
}
